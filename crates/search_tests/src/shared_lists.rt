//! Programs that are read to their types.

use bounds_reader::read_bounds;
use mpy_printer::print_prog;
use mpy_tree::{Cause, Prog, Refusal, Source, Types};
use std::alloc::Global;
use std::test::Fail;
use task_read::{TaskError, read_program};

const BOUNDS: &str = "width 6\nturns 4\ndepth 2\ncap 4\nentry f\nparam a list 0..2 of 0..1\n";

/// The two programs share a list that is changed in place, and don't.
const SHARED: &str = "def f(a):\n    b = a\n    b.append(1)\n    return b\n";

const COPIED: &str = "def f(a):\n    b = a[:]\n    b.append(1)\n    return b\n";

/// What is read of a text for the entry of the bounds.
fn read(alloc: Global, text: &str) -> Option<Result<(Prog, Types), TaskError>> {
    let bounds = BOUNDS.as_bytes();
    if bounds.len() > 1000 {
        return None;
    }
    let bytes = text.as_bytes();
    if bytes.len() > 1000 {
        return None;
    }
    let bounds = read_bounds(alloc, bounds).ok()?;
    Some(read_program(alloc, &bounds, bytes, Source::Submission))
}

#[test]
fn a_program_that_copies_its_list_is_read(rt: HostRuntime) -> Result<(), Fail> {
    let alloc = rt.alloc();
    match read(alloc, COPIED).ok_or("no bounds")? {
        Ok((program, _types)) => {
            let text = print_prog(alloc, &program)?;
            assert!(rt; text.as_slice() == COPIED.as_bytes());
            Ok(())
        }
        Err(_) => Err("not read")?,
    }
}

#[test]
fn a_program_that_shares_a_list_is_refused(rt: HostRuntime) -> Result<(), Fail> {
    let wanted = Refusal {
        source: Source::Submission,
        cause: Cause::Shared,
        line: 2,
    };
    match read(rt.alloc(), SHARED).ok_or("no bounds")? {
        Err(TaskError::Refused(refusal)) => {
            assert!(rt; refusal == wanted);
            Ok(())
        }
        _ => Err("not refused")?,
    }
}
