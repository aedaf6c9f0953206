//! What is printed of one file.
ghost use Rattle.std.specs.Prelude.{◌≡◌, ◌≤◌, IfErr, IfOk};
ghost use Rattle.grade_io.specs.Devices.{Fetch, FetchCalls, Fetched, devices};
ghost use Rattle.grade_io.specs.Faults.{FetchFaults};
ghost use Rattle.mpy_format.specs.Ends.{Ends, IsFetched};
ghost use Rattle.mpy_format.specs.Stops.{FoundNoText, FoundText, ReadsTo, stop_of_fetch};
ghost use Rattle.mpy_format.specs.Stops.{stop_of_read};
ghost use Rattle.mpy_format.specs.declared.page.Stop.TheVariants as stop;

use crate::formatting::formatted;
use grade_io::{FetchError, Shelf, Sink, Status, refusal_line, say};
use mpy_parser::ReadError;
use mpy_tree::Cause;
use std::alloc::Global;

/// How many bytes a file may have.
const MOST: u64 = 65536;

/// Why no program is printed of a file.
#[derive(Clone, Copy, Debug, PartialEq, Eq, Drop)]
enum Stop {
    /// The first cause for which the file is none, with its line.
    Refused { cause: Cause, line: u32 },
    /// The shelf failed.
    Failed,
    /// Memory lacked.
    NoMemory,
}

impl From<FetchError> for Stop {
    ghost from_gives = { λ e s. s ≡ stop_of_fetch e };

    fn from(error: FetchError) -> Stop {
        match error {
            FetchError::Failed => Stop::Failed,
            FetchError::Long => Stop::Refused {
                cause: Cause::Long,
                line: 0,
            },
            FetchError::NoMemory => Stop::NoMemory,
        }
    }
}

impl From<ReadError> for Stop {
    ghost from_gives = { λ e s. s ≡ stop_of_read e };

    fn from(error: ReadError) -> Stop {
        match error {
            ReadError::Fault { cause, line } => Stop::Refused { cause, line },
            ReadError::NoMemory => Stop::NoMemory,
        }
    }
}

/// The text of the program of a file.
fn find_text<S: Shelf>(alloc: Global, file: &str, shelf: &mut S) -> Result<Vec<u8>, Stop>
    ensures found { IfOk result (λ v. FoundText file.now (S.seen shelf.old) v.items) }
    ensures stopped { IfErr result (FoundNoText file.now (S.seen shelf.old)) }
    ensures files { (S.seen shelf.new).holds ≡ (S.seen shelf.old).holds }
    ensures reads { ReadsTo result file.now (S.seen shelf.old) (S.seen shelf.new) }
{
    let bytes = shelf.fetch(alloc, file, MOST)?;
    Ok(formatted(alloc, &bytes)?)
}

/// Prints the program of a file, or the cause and line for which it is none.
pub(crate) fn format_file<S: Shelf, K: Sink>(
    alloc: Global,
    file: &str,
    shelf: &mut S,
    out: &mut K,
) -> Status
    // What the status means, and what stands in the output.
    ensures ends { Ends file.now (devices (S.seen shelf.old) (K.seen out.old))
        (devices (S.seen shelf.new) (K.seen out.new)) result }
    ensures files { (S.seen shelf.new).holds ≡ (S.seen shelf.old).holds }
    ensures fetched { IsFetched file.now (S.seen shelf.old) (S.seen shelf.new) result }
{
    match find_text(alloc, file, shelf) {
        Ok(text) => say(out, text.as_slice(), Status::Correct),
        Err(Stop::Refused { cause, line }) => match refusal_line(alloc, file, line, cause.name()) {
            Ok(text) => say(out, text.as_slice(), Status::Refused),
            Err(_) => Status::NoMemory,
        },
        Err(Stop::Failed) => Status::ReadFailed,
        Err(Stop::NoMemory) => Status::NoMemory,
    }
}
