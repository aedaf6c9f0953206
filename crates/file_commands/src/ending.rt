//! The end of a command.
ghost use Rattle.std.specs.Prelude.{IfOk};
ghost use Rattle.std.specs.Option.{option_map};
ghost use Rattle.grade_io.specs.Devices.{devices};
ghost use Rattle.grade_io.specs.Says.{IsOfText, Says};
ghost use Rattle.file_commands.specs.Keeping.{Keeps};
ghost use Rattle.file_commands.specs.Reports.{IsKeptAndWritten, IsKeptAndSaid, IsStopWritten};
ghost use Rattle.file_commands.specs.Reports.{IsWritten};

use crate::lines::Lines;
use crate::report::Report;
use grade_io::{Shelf, Sink, Status, StoreError, say};
use mpy_tree::Refusal;
use source_files::Stop;
use std::alloc::Global;

// Writes the line of a refusal.
fn say_refusal<L: Lines, K: Sink>(
    alloc: Global,
    lines: &L,
    refusal: &Refusal,
    out: &mut K,
) -> Status
    ensures { Says (L.line_of lines.now refusal.now) Status.Refused (K.seen out.old)
        (K.seen out.new) result }
{
    match lines.line(alloc, refusal) {
        Ok(text) => say(out, text.as_slice(), Status::Refused),
        Err(_) => Status::NoMemory,
    }
}

// Writes the line of the refusal that stops a command, or nothing where another cause does.
fn say_stop<L: Lines, K: Sink>(alloc: Global, lines: &L, stop: Stop, out: &mut K) -> Status
    ensures { IsStopWritten (L.line_of lines.now) stop (K.seen out.old) (K.seen out.new) result }
{
    match stop {
        Stop::Refused(refusal) => say_refusal(alloc, lines, &refusal, out),
        Stop::Failed => Status::ReadFailed,
        Stop::NoMemory => Status::NoMemory,
    }
}

// Stores the bytes where there are some, and a word for them.
fn keep<S: Shelf>(
    place: Option<&str>,
    kept: Option<&Vec<u8>>,
    shelf: &mut S,
) -> Result<(), StoreError>
    ensures { Keeps (option_map (λ n. n.now) place.entry)
        (option_map (λ v. v.now.items) kept.entry) result (S.seen shelf.old) (S.seen shelf.new) }
{
    let Some(name) = place else {
        return Ok(());
    };
    let Some(bytes) = kept else {
        return Ok(());
    };
    shelf.store(name, bytes)
}

// Stores what is kept of a report, and then writes its text; nothing is written where it isn't
// stored.
fn keep_and_say<S: Shelf, K: Sink>(
    place: Option<&str>,
    report: &Report,
    shelf: &mut S,
    out: &mut K,
) -> Status
    requires { IsOfText report.now.status }
    ensures { IsKeptAndSaid (option_map (λ n. n.now) place.entry) report.now
        (devices (S.seen shelf.old) (K.seen out.old))
        (devices (S.seen shelf.new) (K.seen out.new)) result }
{
    match keep(place, report.kept.as_ref(), shelf) {
        Ok(()) => say(out, report.text.as_slice(), report.status),
        Err(StoreError::Failed) => Status::StoreFailed,
        Err(StoreError::NoMemory) => Status::NoMemory,
    }
}

/// Ends a command with what was found of it: stores what is kept of the report under the command's
/// word, if it has one, and then writes the report; or writes the line of the refusal.
pub fn end<L: Lines, S: Shelf, K: Sink>(
    alloc: Global,
    lines: &L,
    place: Option<&str>,
    found: Result<Report, Stop>,
    shelf: &mut S,
    out: &mut K,
) -> Status
    requires { IfOk found (λ r. IsOfText r.status) }
    ensures { IsKeptAndWritten (option_map (λ n. n.now) place.entry) (L.line_of lines.now) found
        (devices (S.seen shelf.old) (K.seen out.old))
        (devices (S.seen shelf.new) (K.seen out.new)) result }
{
    match found {
        Ok(report) => keep_and_say(place, &report, shelf, out),
        Err(stop) => say_stop(alloc, lines, stop, out),
    }
}

/// Ends a command that touches no file with what was found of it: writes the report, or the line of
/// the refusal.
pub fn end_at_once<L: Lines, K: Sink>(
    alloc: Global,
    lines: &L,
    found: Result<Report, Stop>,
    out: &mut K,
) -> Status
    requires { IfOk found (λ r. IsOfText r.status) }
    ensures { IsWritten (L.line_of lines.now) found (K.seen out.old) (K.seen out.new) result }
{
    match found {
        Ok(report) => say(out, report.text.as_slice(), report.status),
        Err(stop) => say_stop(alloc, lines, stop, out),
    }
}
