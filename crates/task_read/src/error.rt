//! Why a source gives nothing.
ghost use Rattle.std.specs.Prelude.{◌≡◌};
ghost use Rattle.task_read.specs.Errors.{stop_of};
ghost use Rattle.task_read.specs.Sources.{refusal};
ghost use Rattle.task_read.specs.declared.error.TaskError.TheVariants as task_error;

use mpy_tree::{Cause, NoMemory, Refusal, Source};
use source_files::Stop;
use std::alloc::AllocError;

/// Why no task, and no program of one, is given.
#[derive(Clone, Copy, PartialEq, Eq, Debug, Drop)]
pub enum TaskError {
    /// The first refusal in the order of the steps.
    Refused(Refusal),
    /// There was no memory.
    NoMemory,
}

impl From<NoMemory> for TaskError {
    ghost from_gives = { λ _ e. e ≡ task_error.NoMemory };

    fn from(_error: AllocError) -> TaskError {
        TaskError::NoMemory
    }
}

impl From<TaskError> for Stop {
    ghost from_gives = { λ e s. s ≡ stop_of e };

    fn from(error: TaskError) -> Stop {
        match error {
            TaskError::Refused(refusal) => Stop::Refused(refusal),
            TaskError::NoMemory => Stop::NoMemory,
        }
    }
}

/// A source is refused.
pub(crate) fn refused(source: Source, cause: Cause, line: u32) -> TaskError
    ensures { result ≡ task_error.Refused (refusal source cause line) }
{
    TaskError::Refused(Refusal {
        source,
        cause,
        line,
    })
}
