//! Tasks that are as large as a task may be, and those that are larger.

use grade_top::Status;
use std::alloc::{AllocError, Global};
use std::test::Fail;
use test_requests::{Texts, graded};

/// No parameter, and numbers of 16 bits.
const WIDE: &str = "width 16\nturns 1\ndepth 1\ncap 1\nentry f\n";

/// A reference of seven powers, which weighs 458,760.
const POWERS: &str = "def f():\n    return 1 ** 1 ** 1 ** 1 ** 1 ** 1 ** 1 ** 1\n";

// A submission of eight powers, which weighs 541,137 and what the test weighs.
macro_rules! chosen_by {
    ($test:literal) => {
        concat!(
            "\ndef f():\n    return 1 ** 1 ** 1 ** 1 ** 1 ** 1 ** 1 ** 1 ** 1 // 1 // 1 // 1 // 1 - 1 - 1 - 1 if ",
            $test,
            " else 1\n"
        )
    };
}

/// Their tests weigh 103 and 104: a `True` weighs 1, a `not` 4, and an `and` 4.
const LIGHT: &str = chosen_by!(
    "not not not True and True and True and True and True and True and True and True and True and True and True and True and True and True and True and True and True and True and True"
);

const HEAVY: &str = chosen_by!(
    "not not True and True and True and True and True and True and True and True and True and True and True and True and True and True and True and True and True and True and True and True"
);

/// Requests by their weight, which may be 1,000,000, and by the size of the weighted tree: the
/// reference, the submission, the rules, and what is written.
const SIZES: [(&str, &str, &str, &str); 3] = [
    (POWERS, LIGHT, "", "correct\n"),
    (POWERS, HEAVY, "", "refused sub.py line 2: TooLarge\n"),
    (
        "def f():\n    return 1 // 0\n",
        "def f():\n    return 0 + 0 + 0 + 0 + 0 + 0 + 0 + 0 + 0 + 0 + 0 + 0 + 0 + 0 + 0 + 0 + 0 + 0 + 0 + 0 + 0 + 0 + 0 + 0 + 0 + 0 + 0 + 0 + 0 + 0 + 0\n",
        "rule r: $a0 + $a1 => $a0' + $a1'\n",
        "refused sub.py line 1: TooLarge\n",
    ),
];

#[test]
fn tasks_are_large(rt: HostRuntime) -> Result<(), Fail> {
    for (reference, submission, rules, wanted) in &SIZES {
        let texts = Texts {
            bounds: WIDE,
            reference: *reference,
            submission: *submission,
            rules: *rules,
        };
        let (_, written) = graded(rt.alloc(), texts)?;
        assert_eq!(rt; written.as_str(), *wanted, "of {submission}");
    }
    Ok(())
}

/// A function with 455 numbers, which nothing calls, before the rest of a program.
fn after_lists(alloc: Global, rest: &str) -> Result<String, AllocError> {
    let mut text = String::from_str(alloc, "def g():\n")?;
    for _ in 0..5 {
        text.push_str("    v = [0")?;
        for _ in 0..90 {
            text.push_str(", 0")?;
        }
        text.push_str("]\n")?;
    }
    text.push_str(rest)?;
    Ok(text)
}

/// Each row: how a function ends whose numbers cost 4095 at most, and each of whose `True` costs 1,
/// and what is written. The greatest cost may be 4096.
#[test]
fn corrections_are_dear(rt: HostRuntime) -> Result<(), Fail> {
    let alloc = rt.alloc();
    let program = "def f(p):\n    return p\n";
    let rows = [
        ("    return True\n", "correct\n"),
        (
            "    return True and True\n",
            "refused sub.py line 9: TooLarge\n",
        ),
    ];
    for (end, wanted) in rows {
        let rest = format!(in alloc; "{end}\n{program}")?;
        let submission = after_lists(alloc, rest.as_str())?;
        let texts = Texts {
            bounds: "width 3\nturns 1\ndepth 1\ncap 1\nentry f\nparam p bool\n",
            reference: program,
            submission: submission.as_str(),
            rules: "rule number cost 9: $n => 1\nrule truth: True => False\n",
        };
        let (_, written) = graded(alloc, texts)?;
        assert_eq!(rt; written.as_str(), wanted);
    }
    Ok(())
}
