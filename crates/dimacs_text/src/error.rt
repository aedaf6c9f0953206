//! Why a text isn't read.
ghost use Rattle.std.specs.Prelude.{◌≡◌};
ghost use Rattle.dimacs_text.specs.declared.error.CnfError.TheVariants as cnf_error;

use crate::NoMemory;

/// Why a text isn't read.
#[derive(Clone, Copy, PartialEq, Eq, Debug, Drop)]
pub enum CnfError {
    /// The text isn't of the form; the least line at which the form can't go on, for a missing end
    /// the line after the last.
    Line(u32),
    /// There was no memory.
    NoMemory,
}

impl From<NoMemory> for CnfError {
    ghost from_gives = { λ _ e. e ≡ cnf_error.NoMemory };

    fn from(_error: NoMemory) -> CnfError {
        CnfError::NoMemory
    }
}
