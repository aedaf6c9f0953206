//! Slots of functions.
ghost use Rattle.std.specs.Prelude.{◌≡◌, IfOk};
ghost use Rattle.mpy_scopes.specs.Seen.{slot_of};

use mpy_tree::{Name, NoMemory, Slot};

/// What has a type in a function: a local, or the result.
#[derive(Clone, Copy, Drop)]
pub enum Target<'a> {
    Local(&'a Name),
    Result,
}

impl Target<'_> {
    /// The slot, with a name of its own.
    pub fn copy(self) -> Result<Slot, NoMemory>
        ensures { IfOk result (λ s. s ≡ slot_of self.entry) }
    {
        match self {
            Target::Local(x) => Ok(Slot::Local(x.copy()?)),
            Target::Result => Ok(Slot::Result),
        }
    }
}
