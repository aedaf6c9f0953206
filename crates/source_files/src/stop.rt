//! What ends a command early.
ghost use Rattle.std.specs.Prelude.{◌≡◌};
ghost use Rattle.source_files.specs.Refusing.{refusal};
ghost use Rattle.source_files.specs.declared.stop.Stop.TheVariants as stop;

use mpy_tree::{Cause, Refusal, Source};
use std::alloc::AllocError;

/// Why a command has no outcome but this.
#[derive(Clone, Copy, Debug, PartialEq, Eq, Drop)]
pub enum Stop {
    /// This is the first refusal.
    Refused(Refusal),
    /// A fetch failed.
    Failed,
    /// Memory lacked.
    NoMemory,
}

impl From<AllocError> for Stop {
    ghost from_gives = { λ _ s. s ≡ stop.NoMemory };

    fn from(_error: AllocError) -> Stop {
        Stop::NoMemory
    }
}

/// A source is refused.
pub fn refused(source: Source, cause: Cause, line: u32) -> Stop
    ensures { result ≡ stop.Refused (refusal source cause line) }
{
    Stop::Refused(Refusal {
        source,
        cause,
        line,
    })
}
