//! The forms of bounds and rules, and formulas that are graded.

use grade_top::Status;
use std::alloc::Global;
use std::test::Fail;
use test_requests::{DOUBLE, Texts, graded};

/// What is written of a submission that isn't corrected.
const WRONG: &str = "no correction\nfails f(4): gives 8, wanted 12\n";

/// Texts of bounds, each with what is written.
const BOUNDS: [(&str, &str); 22] = [
    (
        "width 6\nturns 4\ndepth 2\ncap 4\nentry f\nparam x int 4..4\n",
        WRONG,
    ),
    (
        "# of one number\n\n\twidth  6 # bits\r\nturns 4\ndepth 2\ncap 4\nentry f\nparam f int 4..4",
        WRONG,
    ),
    (
        "width 2\nturns 0\ndepth 2\ncap 4\nentry f\nparam x int 4..4\n",
        "refused b.txt line 1: BoundRange\n",
    ),
    (
        "width 17\nturns 0\ndepth 2\ncap 4\nentry f\nparam x int 4..4\n",
        "refused b.txt line 1: BoundRange\n",
    ),
    (
        "width 6\nturns 33\ndepth 2\ncap 4\nentry f\nparam x int 4..4\n",
        "refused b.txt line 2: BoundRange\n",
    ),
    (
        "width 6\nturns -4\ndepth 2\ncap 4\nentry f\nparam x int 4..4\n",
        "refused b.txt line 2: BoundRange\n",
    ),
    (
        "width 6\nturns 4\ndepth 9\ncap 4\nentry f\nparam x int 4..4\n",
        "refused b.txt line 3: BoundRange\n",
    ),
    (
        "width 6\nturns 4\ndepth 2\ncap 17\nentry f\nparam x int 4..4\n",
        "refused b.txt line 4: BoundRange\n",
    ),
    (
        "width 6\nturns 4\ndepth 2\ncap 4\nentry f\nparam x int 4..32\n",
        "refused b.txt line 6: BoundRange\n",
    ),
    (
        "width 6\nturns 4\ndepth 2\ncap 4\nentry f\nparam x int 5..4\n",
        "refused b.txt line 6: BoundRange\n",
    ),
    (
        "width 6\nturns 4\ndepth 2\ncap 4\nentry f\nparam x list 0..5 of 0..1\n",
        "refused b.txt line 6: BoundRange\n",
    ),
    (
        "width 6\nturns 4\ndepth 2\ncap 4\nentry f\nparam x text 0..2 of 'aba'\n",
        "refused b.txt line 6: BoundRange\n",
    ),
    (
        "width 2\nturns 4\ndepth 2\ncap 4\nentry f2345678901234567890123456789012345678901\n",
        "refused b.txt line 5: Limit\n",
    ),
    (
        "width 2\nturns 4\ndepth 2\ncap 4\nentry f\nparam x bool\nparam x bool\nparam x bool\nparam x bool\nparam x bool\n",
        "refused b.txt line 10: Limit\n",
    ),
    (
        "width 06\nturns 4\ndepth 2\ncap 4\nentry f\nparam x int 4..4\n",
        "refused b.txt line 1: Syntax\n",
    ),
    (
        "width 2\nturns 4\ndepth 2\ncap 4\nentry f\nparam x int -0..4\n",
        "refused b.txt line 6: Syntax\n",
    ),
    (
        "width 6\nturns 4\ndepth 2\ncap 4\nentry f\nparam x int 4..1000000000\n",
        "refused b.txt line 6: Syntax\n",
    ),
    (
        "width 6\nturns 4\ndepth 2\ncap 4\nentry if\nparam x int 4..4\n",
        "refused b.txt line 5: Syntax\n",
    ),
    (
        "width 6\ndepth 2\nturns 4\ncap 4\nentry f\nparam x int 4..4\n",
        "refused b.txt line 2: Syntax\n",
    ),
    ("width 6\nturns 4\n", "refused b.txt line 3: Syntax\n"),
    ("", "refused b.txt line 1: Syntax\n"),
    (
        "width 6\nturns\ndepth 2\ncap 4\nentry \u{e9}\nparam x int 4..4\n",
        "refused b.txt line 5: Byte\n",
    ),
];

#[test]
fn bounds_are_read(rt: HostRuntime) -> Result<(), Fail> {
    for (bounds, wanted) in &BOUNDS {
        let bounds = *bounds;
        let (_, written) = graded(rt.alloc(), Texts { bounds, ..DOUBLE })?;
        assert_eq!(rt; written.as_str(), *wanted, "of {bounds}");
    }
    Ok(())
}

/// Texts of rules, each with what is written for a right submission.
const RULES: [(&str, &str); 13] = [
    ("", "correct\n"),
    (
        "rule lit cost 1: $n => {1, 3}\nrule if cost 9: $n => {2147483647}\n",
        "correct\n",
    ),
    (
        "rule lit cost 1: $n => {1, 3}\nrule lit cost 9: $n => {2147483647}\n",
        "refused rules.eml line 2: RuleTwice\n",
    ),
    (
        "rule lit cost 0: $n => {1, 3}\n",
        "refused rules.eml line 1: Limit\n",
    ),
    (
        "rule lit cost 10: $n => {1, 3}\n",
        "refused rules.eml line 1: Limit\n",
    ),
    (
        "rule lit: $n => {2147483648}\n",
        "refused rules.eml line 1: Token\n",
    ),
    (
        "rule lit cost 1: $n => {}\n",
        "refused rules.eml line 1: Syntax\n",
    ),
    ("rule lit cost 1: $n => {1,3}", "correct\n"),
    (
        "rule lit cost 1: $n => {1, }\n",
        "refused rules.eml line 1: Syntax\n",
    ),
    (
        "rule lit: $n => $a\n",
        "refused rules.eml line 1: RuleMeta\n",
    ),
    (
        "rule lit: $n => $n' + 1\n",
        "refused rules.eml line 1: RulePrime\n",
    ),
    (
        "\n\nrule lit: $a => g($a)\n",
        "refused rules.eml line 3: Name\n",
    ),
    (
        "rule lit: $a => len($a, 1)\n",
        "refused rules.eml line 1: Arity\n",
    ),
];

/// What is written for a right submission with these rules.
fn written_with(alloc: Global, rules: &str) -> Result<String, Fail> {
    let texts = Texts {
        submission: DOUBLE.reference,
        rules,
        ..DOUBLE
    };
    let (_, written) = graded(alloc, texts)?;
    Ok(written)
}

#[test]
fn rules_are_read(rt: HostRuntime) -> Result<(), Fail> {
    for (rules, wanted) in &RULES {
        let written = written_with(rt.alloc(), *rules)?;
        assert_eq!(rt; written.as_str(), *wanted, "of {rules}");
    }
    Ok(())
}

// A function that returns the formula.
macro_rules! returning {
    ($formula:literal) => {
        concat!("def f(x):\n    return ", $formula, "\n")
    };
}

/// Formulas that give the same on 4, the second with another grouping.
const ALIKE: [(&str, &str); 8] = [
    (returning!("x"), returning!("4")),
    (returning!("1 - 2 * x + x"), returning!("1 - x")),
    (returning!("x + 1 - x * 3"), returning!("1 - 2 * x")),
    (returning!("x * 2 - x * x"), returning!("0 - 8")),
    (returning!("x * (2 + x)"), returning!("24")),
    (returning!("x - (1 - x)"), returning!("2 * x - 1")),
    (returning!("x - 1 - x"), returning!("0 - 1")),
    (
        returning!(
            "0 + 0 + 0 + 0 + 0 + 0 + 0 + 0 + 0 + 0 + 0 + 0 + 0 + 0 + 0 + 0 + 0 + 0 + 0 + 0 + 0 + 0 + 0 + 0 + 0 + 0 + 0 + 0 + 0 + 0 + 0 + x"
        ),
        returning!("x"),
    ),
];

#[test]
fn formulas_are_read(rt: HostRuntime) -> Result<(), Fail> {
    for (reference, submission) in &ALIKE {
        let texts = Texts {
            reference: *reference,
            submission: *submission,
            ..DOUBLE
        };
        let (ended, _) = graded(rt.alloc(), texts)?;
        assert_eq!(rt; ended, Status::Correct, "of {reference} and {submission}");
    }
    Ok(())
}
