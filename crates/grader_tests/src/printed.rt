//! Printed values that are compared.

use grade_io::MemShelf;
use grade_top::Status;
use std::test::Fail;
use test_requests::{Texts, answered, graded, words};

/// The bounds, the reference, the submission and the rules of a task, and how it is graded.
type Graded = (
    &'static str,
    &'static str,
    &'static str,
    &'static str,
    Status,
    &'static str,
);

/// Values in order, of all types in one place, of callees and of the entry called again; ends
/// without a value; and bounds that are refused.
const TASKS: [Graded; 35] = [
    (
        "width 6\nturns 4\ndepth 2\ncap 4\nentry f\nparam x int 0..3\ncompare printed 2\n",
        "def f(x):\n    print(x)\n    print(x + 1)\n",
        "def f(x):\n    print(x)\n    print(x + 1)\n",
        "",
        Status::Correct,
        "correct\n",
    ),
    (
        "width 6\nturns 4\ndepth 2\ncap 4\nentry f\nparam x int 0..3\ncompare printed 2\n",
        "def f(x):\n    for i in range(x):\n        print(i)\n    return x\n",
        "def f(x):\n    for i in range(x):\n        print(i)\n    return x\n",
        "",
        Status::Correct,
        "correct\n",
    ),
    (
        "width 6\nturns 4\ndepth 2\ncap 4\nentry f\nparam x int 0..3\ncompare printed 3\n",
        "def f(x):\n    for i in range(x):\n        print(i)\n",
        "def f(x):\n    i = 0\n    while i < x:\n        print(i)\n        i += 1\n",
        "",
        Status::Correct,
        "correct\n",
    ),
    (
        "width 6\nturns 4\ndepth 2\ncap 4\nentry f\nparam x int 0..2\ncompare printed 2\n",
        "def f(x):\n    if x == 0:\n        print([x])\n    elif x == 1:\n        print('ab')\n    else:\n        print(x > 1)\n",
        "def f(x):\n    if x == 2:\n        print(True)\n    elif x:\n        print('a' + 'b')\n    else:\n        print([0])\n",
        "",
        Status::Correct,
        "correct\n",
    ),
    (
        "width 6\nturns 4\ndepth 2\ncap 4\nentry f\nparam x int 0..2\ncompare printed 1\n",
        "def f(x):\n    print(x)\n    return g(x)\ndef g(y):\n    print(y)\n    return y\n",
        "def f(x):\n    print(x)\n    return x\n",
        "",
        Status::Correct,
        "correct\n",
    ),
    (
        "width 6\nturns 4\ndepth 3\ncap 4\nentry f\nparam x int 0..2\ncompare printed 1\n",
        "def f(x):\n    print(x)\n    return f(x - 1) if x > 0 else 0\n",
        "def f(x):\n    print(x)\n    return 0\n",
        "",
        Status::Correct,
        "correct\n",
    ),
    (
        "width 6\nturns 4\ndepth 2\ncap 4\nentry f\nparam x int 0..2\ncompare printed 1\n",
        "def f(x):\n    if x:\n        return x\n    print(7)\n",
        "def f(x):\n    if x > 0:\n        return x\n    print(7)\n",
        "",
        Status::Correct,
        "correct\n",
    ),
    (
        "width 6\nturns 4\ndepth 2\ncap 4\nentry f\nparam x int 0..2\ncompare printed 1\n",
        "def f(x):\n    pass\n",
        "def f(x):\n    x = x\n",
        "",
        Status::Correct,
        "correct\n",
    ),
    (
        "width 6\nturns 4\ndepth 2\ncap 4\nentry f\ncompare printed 8\n",
        "def f():\n    print(1)\n",
        "def f():\n    print(2 - 1)\n",
        "",
        Status::Correct,
        "correct\n",
    ),
    (
        "width 6\nturns 4\ndepth 2\ncap 4\nentry f\nparam x list 0..2 of 0..1\ncompare printed 1\n",
        "def f(x):\n    print(x[:1])\n",
        "def f(x):\n    print(x if len(x) < 2 else [x[0]])\n",
        "",
        Status::Correct,
        "correct\n",
    ),
    (
        "width 6\nturns 4\ndepth 1\ncap 4\nentry f\nparam x int 4..4\ncompare printed 2\n",
        "def f(x):\n    print(x)\n    print(x + 1)\n",
        "def f(x):\n    print(x)\n    print(x)\n",
        "rule inc: x => x + 1\n",
        Status::Corrected,
        "cost 1\nfails f(4): gives None printing 4, 4, wanted None printing 4, 5\nline 3 [inc, 1]: replace x by x + 1\nprogram\ndef f(x):\n    print(x)\n    print(x + 1)\n",
    ),
    (
        "width 6\nturns 4\ndepth 2\ncap 4\nentry f\nparam x int 2..2\ncompare printed 3\n",
        "def f(x):\n    for i in range(x):\n        print(i)\n",
        "def f(x):\n    i = 0\n    while i <= x:\n        print(i)\n        i += 1\n",
        "rule lt: $a <= $a1 => $a < $a1\n",
        Status::Corrected,
        "cost 1\nfails f(2): gives None printing 0, 1, 2, wanted None printing 0, 1\nline 3 [lt, 1]: replace i <= x by i < x\nprogram\ndef f(x):\n    i = 0\n    while i < x:\n        print(i)\n        i += 1\n",
    ),
    (
        "width 6\nturns 4\ndepth 2\ncap 4\nentry f\nparam x int 4..4\ncompare printed 2\n",
        "def f(x):\n    print(x)\n    print(x + 1)\n    return x\n",
        "def f(x):\n    print(x)\n    print(x)\n    return x\n",
        "rule inc: x => x + 1\n",
        Status::Corrected,
        "cost 1\nfails f(4): gives 4 printing 4, 4, wanted 4 printing 4, 5\nline 3 [inc, 1]: replace x by x + 1\nprogram\ndef f(x):\n    print(x)\n    print(x + 1)\n    return x\n",
    ),
    (
        "width 6\nturns 4\ndepth 2\ncap 4\nentry f\nparam x int 1..1\ncompare printed 1\n",
        "def f(x):\n    print(x)\n",
        "def f(x):\n    print(x == 1)\n",
        "",
        Status::NoCorrection,
        "no correction\nfails f(1): gives None printing True, wanted None printing 1\n",
    ),
    (
        "width 6\nturns 4\ndepth 2\ncap 4\nentry f\nparam x int 0..2\ncompare printed 2\n",
        "def f(x):\n    print(x)\n    return\n",
        "def f(x):\n    print(x)\n    if x:\n        return\n    print(x)\n",
        "",
        Status::NoCorrection,
        "no correction\nfails f(0): gives None printing 0, 0, wanted None printing 0\n",
    ),
    (
        "width 6\nturns 4\ndepth 2\ncap 4\nentry f\nparam x int 1..3\ncompare printed 2\n",
        "def f(x):\n    for i in range(x):\n        print(i)\n    return x\n",
        "def f(x):\n    for i in range(x):\n        print(i)\n    return 2\n",
        "",
        Status::NoCorrection,
        "no correction\nfails f(1): gives 2 printing 0, wanted 1 printing 0\n",
    ),
    (
        "width 6\nturns 4\ndepth 2\ncap 4\nentry f\nparam x int 0..2\ncompare printed 2\n",
        "def f(x):\n    if x == 0:\n        print([x])\n    elif x == 1:\n        print('ab')\n    else:\n        print(x > 1)\n",
        "def f(x):\n    if x == 2:\n        print(1)\n    elif x:\n        print('a' + 'b')\n    else:\n        print([0])\n",
        "",
        Status::NoCorrection,
        "no correction\nfails f(2): gives None printing 1, wanted None printing True\n",
    ),
    (
        "width 6\nturns 4\ndepth 2\ncap 4\nentry f\nparam x int 0..0\ncompare printed 1\n",
        "def f(x):\n    if x:\n        return x\n    print(7)\n",
        "def f(x):\n    print(7)\n    return x\n",
        "",
        Status::NoCorrection,
        "no correction\nfails f(0): gives 0 printing 7, wanted None printing 7\n",
    ),
    (
        "width 6\nturns 4\ndepth 2\ncap 4\nentry f\nparam x bool\ncompare printed 1\n",
        "def f(x):\n    if x:\n        print(1)\n",
        "def f(x):\n    print(1)\n",
        "",
        Status::NoCorrection,
        "no correction\nfails f(False): gives None printing 1, wanted None printing nothing\n",
    ),
    (
        "width 6\nturns 4\ndepth 2\ncap 4\nentry f\nparam x int 4..4\ncompare printed 1\n",
        "def f(x):\n    print(x)\n",
        "def f(x):\n    print(x)\n    print(x)\n",
        "",
        Status::NoCorrection,
        "no correction\nfails f(4): gives fault Length, wanted None printing 4\n",
    ),
    (
        "width 6\nturns 4\ndepth 2\ncap 4\nentry f\nparam x int 3..3\ncompare printed 1\n",
        "def f(x):\n    print(x)\n    return x\n",
        "def f(x):\n    print(x)\n    if x < 3:\n        return x\n",
        "",
        Status::NoCorrection,
        "no correction\nfails f(3): gives None printing 3, wanted 3 printing 3\n",
    ),
    (
        "width 6\nturns 4\ndepth 2\ncap 4\nentry f\nparam x int 0..2\ncompare printed 1\n",
        "def f(x):\n    print(x)\n",
        "def f(x):\n    print(g(x))\ndef g(y):\n    return\n",
        "",
        Status::Refused,
        "refused sub.py line 3: Undetermined\n",
    ),
    (
        "width 6\nturns 4\ndepth 2\ncap 4\nentry f\nparam x int 0..2\ncompare printed 1\n",
        "def f(x):\n    print(x)\n",
        "def f(x):\n    print(x)\n    return x\n",
        "",
        Status::Refused,
        "refused sub.py line 1: ResultType\n",
    ),
    (
        "width 6\nturns 4\ndepth 2\ncap 4\nentry f\nparam x int 0..2\ncompare printed 1\n",
        "def f(x):\n    print(x)\n",
        "def f(x):\n    y = f(1)\n    print(x)\n",
        "",
        Status::Refused,
        "refused sub.py line 2: Undetermined\n",
    ),
    (
        "width 6\nturns 4\ndepth 2\ncap 4\nentry f\nparam x int 0..2\ncompare printed 1\n",
        "def f(x):\n    print(x)\n",
        "def f(x):\n    print(f(1))\n",
        "",
        Status::Refused,
        "refused sub.py line 2: Type\n",
    ),
    (
        "width 6\nturns 4\ndepth 2\ncap 4\nentry f\nparam x int 0..2\ncompare printed 1\n",
        "def f(x):\n    print(x)\n    print(x)\n",
        "def f(x):\n    print(x)\n",
        "",
        Status::Refused,
        "refused ref.py line 1: EmptyReference\n",
    ),
    (
        "width 6\nturns 4\ndepth 2\ncap 4\nentry f\nparam x int 0..2\ncompare printed 0\n",
        "def f(x):\n    print(x)\n",
        "def f(x):\n    print(x)\n",
        "",
        Status::Refused,
        "refused b.txt line 7: BoundRange\n",
    ),
    (
        "width 6\nturns 4\ndepth 2\ncap 4\nentry f\nparam x int 0..2\ncompare printed 9\n",
        "def f(x):\n    print(x)\n",
        "def f(x):\n    print(x)\n",
        "",
        Status::Refused,
        "refused b.txt line 7: BoundRange\n",
    ),
    (
        "width 6\nturns 4\ndepth 2\ncap 4\nentry f\nparam x int 0..2\ncompare printed -1\n",
        "def f(x):\n    print(x)\n",
        "def f(x):\n    print(x)\n",
        "",
        Status::Refused,
        "refused b.txt line 7: BoundRange\n",
    ),
    (
        "width 6\nturns 4\ndepth 2\ncap 4\nentry f\nparam x int 0..2\ncompare printed 1\nparam y int 0..1\n",
        "def f(x):\n    print(x)\n",
        "def f(x):\n    print(x)\n",
        "",
        Status::Refused,
        "refused b.txt line 8: Syntax\n",
    ),
    (
        "width 6\nturns 4\ndepth 2\ncap 4\nentry f\nparam x int 0..2\ncompare printed 1\ncompare printed 1\n",
        "def f(x):\n    print(x)\n",
        "def f(x):\n    print(x)\n",
        "",
        Status::Refused,
        "refused b.txt line 8: Syntax\n",
    ),
    (
        "width 6\nturns 4\ndepth 2\ncap 4\nentry f\nparam x int 0..2\ncompare printed 01\n",
        "def f(x):\n    print(x)\n",
        "def f(x):\n    print(x)\n",
        "",
        Status::Refused,
        "refused b.txt line 7: Syntax\n",
    ),
    (
        "width 6\nturns 4\ndepth 2\ncap 4\nentry f\nparam x int 0..2\ncompare printed 1 2\n",
        "def f(x):\n    print(x)\n",
        "def f(x):\n    print(x)\n",
        "",
        Status::Refused,
        "refused b.txt line 7: Syntax\n",
    ),
    (
        "width 6\nturns 4\ndepth 2\ncap 4\nentry f\ncompare printed 8\nparam x int 0..1\n",
        "def f(x):\n    print(x)\n",
        "def f(x):\n    print(x)\n",
        "",
        Status::Refused,
        "refused b.txt line 7: Syntax\n",
    ),
    (
        "width 6\nturns 4\ndepth 2\ncap 4\nentry f\nparam x int 0..9999\ncompare printed 9\n",
        "def f(x):\n    print(x)\n",
        "def f(x):\n    print(x)\n",
        "",
        Status::Refused,
        "refused b.txt line 6: BoundRange\n",
    ),
];

#[test]
fn printed_values_are_compared(rt: HostRuntime) -> Result<(), Fail> {
    for (bounds, reference, submission, rules, status, text) in &TASKS {
        let texts = Texts {
            bounds: *bounds,
            reference: *reference,
            submission: *submission,
            rules: *rules,
        };
        let (ended, written) = graded(rt.alloc(), texts)?;
        assert_eq!(rt; written.as_str(), *text, "of {submission}");
        assert_eq!(rt; ended, *status);
    }
    Ok(())
}

/// Bounds and a program that is run on 4, and what is written of it.
const RUNS: [(&str, &str, &str); 7] = [
    (
        "width 6\nturns 4\ndepth 1\ncap 4\nentry f\nparam x int 4..4\ncompare printed 2\n",
        "def f(x):\n    print(x)\n    print(x + 1)\n",
        "value None\nprinted 4\nprinted 5\n",
    ),
    (
        "width 6\nturns 4\ndepth 1\ncap 4\nentry f\nparam x int 4..4\ncompare printed 2\n",
        "def f(x):\n    print(x)\n    print(x + 1)\n    print(x)\n",
        "fault Length line 4\n",
    ),
    (
        "width 6\nturns 4\ndepth 2\ncap 4\nentry f\nparam x int 4..4\ncompare printed 1\n",
        "def f(x):\n    print(x)\n    return g(x)\ndef g(y):\n    print(y)\n    return y\n",
        "value 4\nprinted 4\n",
    ),
    (
        "width 6\nturns 4\ndepth 2\ncap 4\nentry f\nparam x int 4..4\ncompare printed 8\n",
        "def f(x):\n    pass\n",
        "value None\n",
    ),
    (
        "width 6\nturns 4\ndepth 2\ncap 4\nentry f\nparam x int 4..4\ncompare printed 3\n",
        "def f(x):\n    print([x, 1])\n    print('a' * 2)\n    print(x == 4)\n    return 'b'\n",
        "value 'b'\nprinted [4, 1]\nprinted 'aa'\nprinted True\n",
    ),
    (
        "width 6\nturns 4\ndepth 2\ncap 4\nentry f\nparam x int 4..4\ncompare printed 1\n",
        "def f(x):\n    print(x)\n    print(1 // 0)\n",
        "fault Divisor line 3\n",
    ),
    (
        "width 6\nturns 4\ndepth 3\ncap 4\nentry f\nparam x int 4..4\ncompare printed 1\n",
        "def f(x):\n    print(x)\n    return f(x - 1) if x > 3 else 0\n",
        "value 0\nprinted 4\n",
    ),
];

#[test]
fn printed_values_are_told(rt: HostRuntime) -> Result<(), Fail> {
    let alloc = rt.alloc();
    for (bounds, program, text) in &RUNS {
        let words = words(alloc, ["run", "b.txt", "p.py", "4"].as_slice())?;
        let mut shelf = MemShelf::new(alloc, Vec::new(alloc));
        shelf.add("b.txt", bounds.as_bytes())?;
        shelf.add("p.py", program.as_bytes())?;
        let (ended, written) = answered(alloc, &words, &mut shelf)?;
        assert_eq!(rt; ended, Status::Correct, "of {program}");
        assert_eq!(rt; written.as_str(), *text);
    }
    Ok(())
}
