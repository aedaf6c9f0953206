//! Why a class has no entries.
ghost use Rattle.std.specs.Prelude.{◌≡◌};
ghost use Rattle.class_run.specs.declared.stop.ClassStop.TheVariants as class;

use class_text::ListFault;
use mpy_tree::Refusal;
use source_files::Stop;
use std::alloc::AllocError;

/// Why a class has no entries.
#[derive(Clone, Copy, Debug, PartialEq, Eq, Drop)]
pub enum ClassStop {
    /// One of the four files is too long.
    LongFile(Refusal),
    /// The list isn't of its form from this line on.
    NoList(u32),
    /// One of the four files couldn't be read.
    Failed,
    /// Memory lacked.
    NoMemory,
}

impl From<Stop> for ClassStop {
    ghost use Rattle.class_run.specs.Stops.{stop_of};

    ghost from_gives = { λ s c. c ≡ stop_of s };

    fn from(stop: Stop) -> ClassStop {
        match stop {
            Stop::Refused(refusal) => ClassStop::LongFile(refusal),
            Stop::Failed => ClassStop::Failed,
            Stop::NoMemory => ClassStop::NoMemory,
        }
    }
}

impl From<ListFault> for ClassStop {
    ghost use Rattle.class_run.specs.Stops.{fault_of};

    ghost from_gives = { λ f c. c ≡ fault_of f };

    fn from(fault: ListFault) -> ClassStop {
        match fault {
            ListFault::Line(line) => ClassStop::NoList(line),
            ListFault::NoMemory => ClassStop::NoMemory,
        }
    }
}

impl From<AllocError> for ClassStop {
    ghost from_gives = { λ _ c. c ≡ class.NoMemory };

    fn from(_error: AllocError) -> ClassStop {
        ClassStop::NoMemory
    }
}
