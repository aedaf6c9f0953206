//! What is known of a function's locals, of its result and of what it prints.

ghost use Rattle.std.specs.Prelude.{◌≡◌, ◌<◌, length, Some, slice_get};

use mpy_tree::{Limits, Names, Ty, Tys};

/// The locals of a function with their types, the type of its result, if it has one, the limits of
/// a run, and how many printed values are kept: none in a function that is called.
#[derive(Drop)]
pub struct Slots {
    pub limits: Limits,
    pub names: Names,
    pub types: Tys,
    pub result: Option<Ty>,
    pub prints: u32,
}

impl Slots {
    /// The number of locals.
    pub fn count(&self) -> usize
        ensures { result ≡ length self.now.types }
    {
        self.types.items().len()
    }

    /// The type of the local at a place.
    pub fn type_at(&self, i: usize) -> Ty
        requires { i < length self.now.types }
        ensures { slice_get self.now.types i ≡ Some result }
    {
        self.types.items()[i]
    }
}
