//! Why no program is given.
ghost use Rattle.std.specs.Prelude.{◌≡◌};
ghost use Rattle.mpy_parser.specs.declared.read_error.ReadError.TheVariants as read_error;

use mpy_tree::Cause;
use std::alloc::AllocError;

/// Why a text is not read as a program.
#[derive(Clone, Copy, PartialEq, Eq, Debug, Drop)]
pub enum ReadError {
    /// The first cause that stands in the text, one of `Byte` to `Limit`, and its line, counted
    /// from 1.
    Fault { cause: Cause, line: u32 },
    /// There was no memory.
    NoMemory,
}

impl From<AllocError> for ReadError {
    ghost from_gives = { λ _ e. e ≡ read_error.NoMemory };

    fn from(_error: AllocError) -> ReadError {
        ReadError::NoMemory
    }
}
