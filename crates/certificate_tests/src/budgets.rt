//! Budgets that are spent, and those that are enough. How many clauses a question takes is the
//! solver's own affair: the numbers here are those that it takes today.

use grade_top::Status;
use std::test::Fail;
use test_requests::{Texts, graded_within};

// A function of two truth values that returns the formula.
macro_rules! returning {
    ($formula:literal) => {
        concat!("def f(p, q):\n    return ", $formula, "\n")
    };
}

const TRUTHS: &str = "width 3\nturns 1\ndepth 1\ncap 1\nentry f\nparam p bool\nparam q bool\n";

const RULES: &str = "rule r: $a0 or $a1 => $a0' and $a1'\nrule s: q => p\n";

/// One clause rules out the cost 0, two the cost 1, and one that a correction of cost 2 fails. The
/// closing question rules out the cost 1 again, over all cases that were kept by then, by two.
const DEAR: Texts<'static> = Texts {
    bounds: TRUTHS,
    reference: returning!("p and q"),
    submission: returning!("p or q or (q or p)"),
    rules: RULES,
};

/// Four clauses rule out that the submission fails.
const EQUAL: Texts<'static> = Texts {
    bounds: TRUTHS,
    reference: returning!("p != q"),
    submission: returning!("p and not q or q and not p"),
    rules: RULES,
};

/// Many clauses rule out that the reference gives a value.
const EMPTY: Texts<'static> = Texts {
    bounds: "width 3\nturns 1\ndepth 1\ncap 1\nentry f\nparam x int -4..3\nparam y int -4..3\n",
    reference: "def f(x, y):\n    return 1 // (min(x, y) - min(y, x))\n",
    submission: "def f(x, y):\n    return x\n",
    rules: "",
};

/// Requests with a budget that is spent, the cost that is said, and the question at which it is
/// spent.
const SPENT: [(Texts<'static>, usize, u32, &str); 8] = [
    (EMPTY, 1, 0, "first\n"),
    (EMPTY, 16, 0, "first\n"),
    (EQUAL, 3, 0, "fail\n"),
    (DEAR, 1, 1, "low 1 2\n"),
    (DEAR, 2, 1, "low 1 2\n"),
    (DEAR, 3, 2, "fail 1:1 4:1\n"),
    (DEAR, 4, 2, "low 1 3\n"),
    (DEAR, 5, 2, "low 1 3\n"),
];

#[test]
fn budgets_are_spent(rt: HostRuntime) -> Result<(), Fail> {
    let alloc = rt.alloc();
    for (texts, budget, at_least, last) in &SPENT {
        let word = format!(in alloc; "{budget}")?;
        let written = format!(in alloc; "budget spent {budget}\nat least cost {at_least}\n")?;
        let claim = format!(in alloc; "mpycert 1\nclaim spent {budget}\n")?;
        let graded = graded_within(alloc, *texts, word.as_str())?;
        assert_eq!(rt; graded.status, Status::Spent, "within {budget}");
        assert_eq!(rt; graded.written, written);
        assert!(rt; graded.cert.starts_with(claim.as_str()), "within {budget}");
        let cert = graded.cert.as_str();
        assert_eq!(rt; cert.matches("\nl ").count(), *budget);
        let (_, session) = cert.rsplit_once("\nsession ").ok_or("no session")?;
        assert!(rt; session.starts_with(*last), "{last} within {budget}");
    }
    Ok(())
}

/// Each row: a request with the least budget that is enough, its status, and what is claimed.
#[test]
fn budgets_are_enough(rt: HostRuntime) -> Result<(), Fail> {
    let rows = [
        (EQUAL, "4", Status::Correct, "mpycert 1\nclaim cost 0\n"),
        (DEAR, "6", Status::Corrected, "mpycert 1\nclaim cost 2\n"),
    ];
    for (texts, budget, status, claim) in rows {
        let graded = graded_within(rt.alloc(), texts, budget)?;
        assert_eq!(rt; graded.status, status, "within {budget}");
        assert!(rt; graded.cert.starts_with(claim), "within {budget}");
    }
    Ok(())
}
