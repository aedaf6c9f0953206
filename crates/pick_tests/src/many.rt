//! Requests with 16 submissions.

use crate::requests::{FILES, Request, picked};
use grade_io::Status;
use std::alloc::Global;
use std::test::Fail;

const BOUNDS: &str = "width 6\nturns 4\ndepth 2\ncap 4\nentry f\nparam x int 4..4\n";

const RIGHT: &str = "def f(x):\n    return x * 3\n";

/// Texts that are refused, one for each cause, with the line and the cause.
const REFUSED: [(&str, u32, &str); 12] = [
    ("def f(x):\n    return x \u{7}\n", 2, "Byte"),
    ("# fine\ndef f(x):\n\treturn x\n", 3, "Tab"),
    ("def f(x):\n    return x / 2\n", 2, "Token"),
    ("def f(x):\n    return 1\n  return 2\n", 3, "Indent"),
    ("def f(x):\n    return 0 < x < 3\n", 2, "Syntax"),
    ("\n\ndef f(x):\nreturn x\n", 3, "Block"),
    ("def f(x):\n    return y\n", 2, "Name"),
    ("def f(x):\n    return len(x, x)\n", 2, "Arity"),
    ("\ndef g(x):\n    return x\n", 1, "Entry"),
    ("def f(x):\n    return len(1)\n", 2, "Type"),
    ("def f(x):\n    return\n", 1, "Undetermined"),
    ("\ndef f(x):\n    return x == 1\n", 2, "ResultType"),
];

/// The status of a request with 16 submissions, and what is written: all are right but the one of a
/// place, which has this text. The calls of the shelf with these numbers fail.
fn picked_with(
    alloc: Global,
    place: usize,
    text: &str,
    fails: Vec<u64>,
) -> Result<(Status, String), Fail> {
    let mut submissions = [RIGHT; 16];
    submissions[place % 16] = text;
    let request = Request {
        bounds: BOUNDS,
        reference: RIGHT,
        submissions: submissions.as_slice(),
    };
    picked(alloc, request, fails)
}

/// The one that is refused is named, whatever its place.
#[test]
fn one_of_many_is_refused(rt: HostRuntime) -> Result<(), Fail> {
    let alloc = rt.alloc();
    let mut place = 3usize;
    for (text, line, cause) in &REFUSED {
        place = place.wrapping_add(1) % 16;
        let (ended, written) = picked_with(alloc, place, *text, Vec::new(alloc))?;
        let wanted = format!(in alloc; "refused {} line {line}: {cause}\n", FILES[place])?;
        assert_eq!(rt; written, wanted, "{text:?}");
        assert_eq!(rt; ended, Status::Refused);
    }
    Ok(())
}

/// Each of the 18 fetches may fail; there is no other call.
#[test]
fn fetches_may_fail(rt: HostRuntime) -> Result<(), Fail> {
    let alloc = rt.alloc();
    for call in 1..=18u64 {
        let (ended, written) = picked_with(alloc, 0, RIGHT, vec![in alloc; call]?)?;
        assert_eq!(rt; ended, Status::ReadFailed, "at call {call}");
        assert!(rt; written.is_empty());
    }
    let wrong = "def f(x):\n    return x * 2\n";
    let (ended, written) = picked_with(alloc, 15, wrong, vec![in alloc; 19u64]?)?;
    assert_eq!(rt; ended, Status::Correct);
    assert!(rt; written.starts_with("input f(4)\ns1.py agrees\n"));
    assert!(rt; written.ends_with("s15.py agrees\ns16.py fails input 1\n"));
    Ok(())
}
