//! Why no bounds are given.
ghost use Rattle.std.specs.Prelude.{◌≡◌};
ghost use Rattle.bounds_reader.specs.declared.bounds_error.BoundsError.TheVariants as bounds_error;

use mpy_tree::Cause;
use std::alloc::AllocError;

/// Why a text isn't read as bounds.
#[derive(Clone, Copy, PartialEq, Eq, Debug, Drop)]
pub enum BoundsError {
    /// The first cause that stands in the text, one of `Byte`, `Syntax`, `Limit` and `BoundRange`,
    /// and its physical line, counted from 1.
    Fault { cause: Cause, line: u32 },
    /// There was no memory.
    NoMemory,
}

impl From<AllocError> for BoundsError {
    ghost from_gives = { λ _ e. e ≡ bounds_error.NoMemory };

    fn from(_error: AllocError) -> BoundsError {
        BoundsError::NoMemory
    }
}
