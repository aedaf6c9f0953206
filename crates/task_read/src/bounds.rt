//! The bounds of a task.
ghost use Rattle.std.specs.Prelude.{◌≤◌, length, IfErr, IfOk};
ghost use Rattle.bounds_reader.specs.Files.{IsBounds, IsRefused};
ghost use Rattle.mpy_tree.specs.declared.refusal.Source.TheVariants.{Bounds as of_bounds};
ghost use Rattle.task_read.specs.Errors.{RefusesBy};

use crate::error::{TaskError, refused};
use bounds_reader::{Bounds, BoundsError, read_bounds};
use mpy_tree::Source;
use std::alloc::Global;

/// Reads the bounds of a task.
///
/// # Errors
///
/// The first refusal of the bounds.
pub fn read_task_bounds(alloc: Global, bytes: &[u8]) -> Result<Bounds, TaskError>
    requires { length bytes.now ≤ 1073741824 }
    ensures read { IfOk result (IsBounds bytes.now) }
    ensures refused { IfErr result (RefusesBy of_bounds (IsRefused bytes.now)) }
{
    match read_bounds(alloc, bytes) {
        Ok(bounds) => Ok(bounds),
        Err(BoundsError::NoMemory) => Err(TaskError::NoMemory),
        Err(BoundsError::Fault { cause, line }) => Err(refused(Source::Bounds, cause, line)),
    }
}
