//! The command `run`.

use grade_io::{MemShelf, MemSink};
use grade_top::{Status, grade_top};
use std::alloc::{AllocError, Global};
use std::test::Fail;
use test_requests::{answered, words};

// Bounds with these parameters.
macro_rules! bounds {
    ($params:literal) => {
        concat!("width 6\nturns 4\ndepth 2\ncap 4\nentry f\n", $params)
    };
}

/// What is run: the bounds, the program and the values.
#[derive(Clone, Copy)]
struct Run<'a> {
    bounds: &'a str,
    program: &'a str,
    values: &'a [&'a str],
}

/// The words of a run.
fn words_of(alloc: Global, run: Run<'_>) -> Result<Vec<String>, AllocError> {
    let mut all = words(alloc, ["run", "b.txt", "p.py"].as_slice())?;
    for value in run.values {
        all.push(String::from_str(alloc, value)?)?;
    }
    Ok(all)
}

/// A shelf of a run's two sources, whose calls with these numbers fail.
fn shelf_of(alloc: Global, run: Run<'_>, fails: Vec<u64>) -> Result<MemShelf, AllocError> {
    let mut shelf = MemShelf::new(alloc, fails);
    shelf.add("b.txt", run.bounds.as_bytes())?;
    shelf.add("p.py", run.program.as_bytes())?;
    Ok(shelf)
}

/// The status of a run, and what is written.
fn ran(alloc: Global, run: Run<'_>) -> Result<(Status, String), Fail> {
    let words = words_of(alloc, run)?;
    let mut shelf = shelf_of(alloc, run, Vec::new(alloc))?;
    answered(alloc, &words, &mut shelf)
}

/// Two numbers, a short list with a number, a short list, no parameter.
const NUMBERS: &str = bounds!("param a int -8..8\nparam b int -8..8\n");

const LIST_AND_NUMBER: &str = bounds!("param v list 0..2 of -3..3\nparam i int 0..3\n");

const LIST: &str = bounds!("param v list 0..2 of 1..2\n");

const NARROW: &str = "width 4\nturns 4\ndepth 2\ncap 4\nentry f\nparam x int -8..7\n";

const QUOTIENT: &str = "def f(a, b):\n    return a // b\n";

const REMAINDER: &str = "def f(a, b):\n    return a % b\n";

const COUNT: &str = "def f(x):\n    i = 0\n    while i < x:\n        i = i + 1\n    return i\n";

const LAST: &str = "def f(v):\n    return v[-1]\n";

const WIDE_SLICE: &str = "def f(v):\n    return v[-3:9]\n";

/// Runs that end, each with what is written.
const ENDS: [(&str, &str, &[&str], &str); 27] = [
    (NUMBERS, QUOTIENT, &["-7", "2"], "value -4\n"),
    (NUMBERS, QUOTIENT, &["7", "-2"], "value -4\n"),
    (NUMBERS, QUOTIENT, &["7", "0"], "fault Divisor line 2\n"),
    (NUMBERS, REMAINDER, &["-7", "2"], "value 1\n"),
    (NUMBERS, REMAINDER, &["7", "-2"], "value -1\n"),
    (
        NARROW,
        "def f(x):\n    return -x\n",
        &["-8"],
        "fault Overflow line 2\n",
    ),
    (
        NARROW,
        "def f(x):\n    return x // -1\n",
        &["-8"],
        "fault Overflow line 2\n",
    ),
    (
        NARROW,
        "def f(x):\n    return x + 0\n",
        &["-8"],
        "value -8\n",
    ),
    (
        NARROW,
        "def f(x):\n    return x % -1\n",
        &["-8"],
        "value 0\n",
    ),
    (
        NARROW,
        "def f(x):\n    return 8\n",
        &["-8"],
        "fault Overflow line 2\n",
    ),
    (
        LIST_AND_NUMBER,
        "def f(v, i):\n    return i < len(v) and v[i] == 0\n",
        &["[1, 2]", "2"],
        "value False\n",
    ),
    (
        LIST_AND_NUMBER,
        "def f(v, i):\n    return v[i] == 0 and i < len(v)\n",
        &["[1, 2]", "2"],
        "fault Index line 2\n",
    ),
    (bounds!("param x int -5..5\n"), COUNT, &["4"], "value 4\n"),
    (
        bounds!("param x int -5..5\n"),
        COUNT,
        &["5"],
        "fault Turns line 3\n",
    ),
    (LIST, LAST, &["[1, 2]"], "value 2\n"),
    (LIST, LAST, &["[]"], "fault Index line 2\n"),
    (LIST, WIDE_SLICE, &["[1, 2]"], "value [1, 2]\n"),
    (LIST, WIDE_SLICE, &["[]"], "value []\n"),
    (
        bounds!("param s text 0..3 of \"ab'\"\n"),
        "def f(s):\n    return s + 'b'\n",
        &["\"a'\""],
        "value 'a\\'b'\n",
    ),
    (
        bounds!("param p bool\n"),
        "def f(p):\n    return not p\n",
        &["True"],
        "value False\n",
    ),
    (bounds!(""), "def f():\n    return 31\n", &[], "value 31\n"),
    (
        bounds!("param x int 0..9\n"),
        "def g(x):\n    return x * x\n\ndef f(x):\n    return g(x) - 1\n",
        &["6"],
        "fault Overflow line 2\n",
    ),
    (
        bounds!("param x int 0..9\n"),
        "def f(x):\n    return f(x - 1) if x else 0\n",
        &["2"],
        "fault Depth line 2\n",
    ),
    (
        bounds!("param x int 0..9\n"),
        "\ndef f(x):\n    if x:\n        return x\n",
        &["0"],
        "fault NoValue line 2\n",
    ),
    (
        NUMBERS,
        "def f(a, b):\n    print([a, b])\n    return a\n",
        &["7", "0"],
        "value 7\n",
    ),
    (
        NUMBERS,
        "def f(a, b):\n    print(a // b)\n    return a\n",
        &["7", "0"],
        "fault Divisor line 2\n",
    ),
    (
        NUMBERS,
        "def f(a, b):\n    if b:\n        return a\n    print(a)\n",
        &["7", "0"],
        "fault NoValue line 1\n",
    ),
];

#[test]
fn runs_end(rt: HostRuntime) -> Result<(), Fail> {
    for (bounds, program, values, wanted) in &ENDS {
        let run = Run {
            bounds: *bounds,
            program: *program,
            values: *values,
        };
        let (ended, written) = ran(rt.alloc(), run)?;
        assert_eq!(rt; ended, Status::Correct, "of {program}");
        assert_eq!(rt; written.as_str(), *wanted, "of {program}");
    }
    Ok(())
}

/// Runs that are refused, each with what is written: bounds before the program, the number of
/// values before the values, and these in order.
const REFUSED: [(&str, &str, &[&str], &str); 15] = [
    (
        "width 6\n",
        "def f(x):\n",
        &["1"],
        "refused b.txt line 2: Syntax\n",
    ),
    (
        NUMBERS,
        "def f(a):\n    return a\n",
        &[],
        "refused p.py line 1: Entry\n",
    ),
    (
        NUMBERS,
        "def f(a, b):\n    return c\n",
        &[],
        "refused p.py line 2: Name\n",
    ),
    (NUMBERS, QUOTIENT, &["x"], "refused b.txt line 5: Entry\n"),
    (
        NUMBERS,
        QUOTIENT,
        &["1", "2", "3"],
        "refused b.txt line 5: Entry\n",
    ),
    (
        bounds!(""),
        "def f():\n    return 1\n",
        &["1"],
        "refused b.txt line 5: Entry\n",
    ),
    (NUMBERS, QUOTIENT, &["1", ""], "refused value 2: Syntax\n"),
    (NUMBERS, QUOTIENT, &["-0", "x"], "refused value 1: Syntax\n"),
    (
        NUMBERS,
        QUOTIENT,
        &["1, 2", "2"],
        "refused value 1: Syntax\n",
    ),
    (
        NUMBERS,
        QUOTIENT,
        &["9", "x"],
        "refused value 1: BoundRange\n",
    ),
    (NUMBERS, QUOTIENT, &["[]", "x"], "refused value 1: Type\n"),
    (NUMBERS, QUOTIENT, &["8", "True"], "refused value 2: Type\n"),
    (LIST, LAST, &["[1,2]"], "refused value 1: Syntax\n"),
    (LIST, LAST, &["[1, 3]"], "refused value 1: BoundRange\n"),
    (LIST, LAST, &["[1, 1, 1]"], "refused value 1: BoundRange\n"),
];

#[test]
fn runs_are_refused(rt: HostRuntime) -> Result<(), Fail> {
    for (bounds, program, values, wanted) in &REFUSED {
        let run = Run {
            bounds: *bounds,
            program: *program,
            values: *values,
        };
        let (ended, written) = ran(rt.alloc(), run)?;
        assert_eq!(rt; ended, Status::Refused, "of {program}");
        assert_eq!(rt; written.as_str(), *wanted, "of {program}");
    }
    Ok(())
}

/// Each row: the shelf's call and the sink's put that fail (0: none), the status, and what was
/// written by puts of at most four bytes.
#[test]
fn devices_may_fail(rt: HostRuntime) -> Result<(), Fail> {
    let alloc = rt.alloc();
    let rows: [(u64, u64, Status, &[u8]); 4] = [
        (0, 0, Status::Correct, b"value -4\n"),
        (1, 0, Status::ReadFailed, b""),
        (2, 0, Status::ReadFailed, b""),
        (0, 2, Status::WriteFailed, b"valu"),
    ];
    let run = Run {
        bounds: NUMBERS,
        program: QUOTIENT,
        values: &["-7", "2"],
    };
    let words = words_of(alloc, run)?;
    for (fetch, put, status, written) in rows {
        let mut shelf = shelf_of(alloc, run, vec![in alloc; fetch]?)?;
        let mut out = MemSink::new(alloc, 4, vec![in alloc; put]?);
        let ended = grade_top(alloc, &words, &mut shelf, &mut out);
        assert_eq!(rt; ended, status, "with call {fetch} and put {put} failing");
        assert_eq!(rt; out.bytes(), written);
    }
    Ok(())
}
