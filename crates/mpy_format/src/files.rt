//! Several files in turn.
ghost use Rattle.std.specs.Prelude.{◌≡◌, map};
ghost use Rattle.std.specs.String.{string_bytes};
ghost use Rattle.grade_io.specs.Devices.{devices};
ghost use Rattle.mpy_format.specs.Files.{EndInTurn, FetchedInOrder, goes_on, joined};

use crate::page::format_file;
use grade_io::{Shelf, Sink, Status};
use std::alloc::Global;

/// Whether the next file is read behind one that ended so.
fn goes_on(said: Status) -> bool
    ensures { result ≡ goes_on said }
{
    matches!(said, Status::Correct | Status::Refused)
}

/// The status of the files so far and of one more.
fn joined(before: Status, said: Status) -> Status
    ensures { result ≡ joined before said }
{
    match (before, said) {
        (Status::Refused, Status::Correct) => Status::Refused,
        (_, said) => said,
    }
}

/// Prints the program of each file, or the cause and line for which it is none, up to the first for
/// which a device failed or memory lacked. No files are a wrong use.
pub(crate) fn format_files<S: Shelf, K: Sink>(
    alloc: Global,
    files: &[String],
    shelf: &mut S,
    out: &mut K,
) -> Status
    ensures ends { EndInTurn Status.Usage (map string_bytes files.now)
        (devices (S.seen shelf.old) (K.seen out.old))
        (devices (S.seen shelf.new) (K.seen out.new)) result }
    // No file is touched: the calls are fetches of the files, in order, each once.
    ensures files { (S.seen shelf.new).holds ≡ (S.seen shelf.old).holds }
    ensures fetched { FetchedInOrder (map string_bytes files.now) (S.seen shelf.old)
        (S.seen shelf.new) }
{
    let mut status = Status::Usage;
    for i in 0..files.len() {
        let said = format_file(alloc, files[i].as_str(), shelf, out);
        status = joined(status, said);
        if !goes_on(said) {
            return status;
        }
    }
    status
}
