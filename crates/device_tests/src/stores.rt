//! Commands that store what they keep, over devices in memory.
ghost use Rattle.std.specs.Prelude.{◌≡◌, [], IfOk};

use file_commands::{Lines, Report, end};
use grade_io::{MemShelf, MemSink, Shelf, Status};
use mpy_tree::{NoMemory, Refusal};
use source_files::Stop;
use std::alloc::{AllocError, Global};
use std::test::Fail;

/// A command whose refusals have an empty line.
struct Silent;

impl Lines for Silent {
    ghost line_of = { λ s r. [] };

    fn line(&self, alloc: Global, _refusal: &Refusal) -> Result<Vec<u8>, NoMemory> {
        Ok(Vec::new(alloc))
    }
}

/// A report, with bytes to keep.
fn report(alloc: Global, kept: &[u8]) -> Result<Report, AllocError>
    ensures { IfOk result (λ r. r.status ≡ Status.Correct) }
{
    Ok(Report {
        status: Status::Correct,
        text: b"correct\n".to_vec(alloc)?,
        kept: Some(kept.to_vec(alloc)?),
    })
}

/// A shelf on which `cert` holds `old`, and whose calls with this number fail.
fn shelf_of(alloc: Global, fails: u64) -> Result<MemShelf, AllocError> {
    let mut shelf = MemShelf::new(alloc, vec![in alloc; fails]?);
    shelf.add("cert", b"old")?;
    Ok(shelf)
}

/// Each row: the word of the command, the call of the shelf and the put that fail (0: none), the
/// status, what was written by puts of at most four bytes, and what `cert` holds then.
#[test]
fn what_is_kept_is_stored_first(rt: HostRuntime) -> Result<(), Fail> {
    let alloc = rt.alloc();
    let rows: [(Option<&str>, u64, u64, Status, &[u8], &[u8]); 6] = [
        (Some("cert"), 0, 0, Status::Correct, b"correct\n", b"new"),
        (Some("cert"), 1, 0, Status::StoreFailed, b"", b"old"),
        (Some("cert"), 0, 1, Status::WriteFailed, b"", b"new"),
        (Some("cert"), 0, 2, Status::WriteFailed, b"corr", b"new"),
        (Some("other"), 0, 0, Status::Correct, b"correct\n", b"old"),
        (None, 0, 0, Status::Correct, b"correct\n", b"old"),
    ];
    for (place, call, put, status, written, held) in rows {
        let mut shelf = shelf_of(alloc, call)?;
        let mut out = MemSink::new(alloc, 4, vec![in alloc; put]?);
        let found = Ok(report(alloc, b"new")?);
        let ended = end(alloc, &Silent, place, found, &mut shelf, &mut out);
        assert_eq!(rt; ended, status, "with call {call} and put {put} failing");
        assert_eq!(rt; out.bytes(), written);
        let now = shelf.fetch(alloc, "cert", 9)?;
        assert_eq!(rt; now.as_slice(), held);
    }
    Ok(())
}

/// Where a command stops nothing is stored.
#[test]
fn what_stops_keeps_nothing(rt: HostRuntime) -> Result<(), Fail> {
    let alloc = rt.alloc();
    for (stop, status) in [
        (Stop::Failed, Status::ReadFailed),
        (Stop::NoMemory, Status::NoMemory),
    ] {
        let mut shelf = shelf_of(alloc, 0)?;
        let mut out = MemSink::new(alloc, 4, Vec::new(alloc));
        let ended = end(
            alloc,
            &Silent,
            Some("cert"),
            Err(stop),
            &mut shelf,
            &mut out,
        );
        assert_eq!(rt; ended, status);
        assert_eq!(rt; out.bytes(), b"".as_slice());
        let now = shelf.fetch(alloc, "cert", 9)?;
        assert_eq!(rt; now.as_slice(), b"old".as_slice());
    }
    Ok(())
}
