//! Why an evaluation has no value.
ghost use Rattle.std.specs.Prelude.{◌≡◌};
ghost use Rattle.mpy_tree.specs.Values.{fault, stuck};
ghost use Rattle.value_operations.specs.declared.stop.Stop.TheVariants.{NoMemory};

use mpy_tree::{FaultKind, Halt, Halted};
use std::alloc::{AllocError, AllocFailed};

/// Why an evaluation has no value.
#[derive(Drop)]
pub enum Stop {
    Halted(Halted),
    NoMemory,
}

impl From<AllocError> for Stop {
    ghost from_gives = { λ _ e. e ≡ NoMemory };

    fn from(_e: AllocError) -> Stop {
        Stop::NoMemory
    }
}

impl<T: Drop> From<AllocFailed<T>> for Stop {
    ghost from_gives = { λ _ e. e ≡ NoMemory };

    fn from(_e: AllocFailed<T>) -> Stop {
        Stop::NoMemory
    }
}

/// A fault on a line.
pub fn faulted(kind: FaultKind, line: u32) -> Stop
    ensures { result ≡ Stop.Halted (fault kind line) }
{
    let halt = Halt::Fault(kind);
    Stop::Halted(Halted { halt, line })
}

/// Operands that an operator doesn't take, or a call that no function takes, on a line.
pub fn stuck(line: u32) -> Stop
    ensures { result ≡ Stop.Halted (stuck line) }
{
    let halt = Halt::Stuck;
    Stop::Halted(Halted { halt, line })
}
