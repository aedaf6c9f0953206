//! Both solvers on formulas that ask for little, or for nothing.

use cert_text::read_cert;
use clause_base::formula::{Clauses, Formula};
use clause_base::solved::Solved;
use std::alloc::Global;
use std::test::Fail;

#[derive(Debug, Clone, Copy, Drop, PartialEq, Eq)]
enum Answer {
    Holds,
    Refuted,
    Spent,
    NoMemory,
}

/// The lines of a formula, a budget, the answer and how many steps the log has.
const FORMULAS: [(&str, u32, Answer, usize); 17] = [
    // Variables that no clause has.
    ("vars 5\nf -3 0\n", 0, Answer::Holds, 0),
    ("vars 5\nf -4 2 0\n", 1, Answer::Holds, 0),
    // An empty clause.
    ("vars 0\nf 0\n", 1, Answer::Refuted, 1),
    ("vars 2\nf 1 0\nf 0\n", 1, Answer::Refuted, 1),
    ("vars 2\nf 0\nf 1 0\nf -1 0\n", 0, Answer::Spent, 0),
    // Clauses of one literal.
    ("vars 1\nf 1 0\n", 0, Answer::Holds, 0),
    ("vars 1\nf 1 0\nf -1 0\n", 0, Answer::Spent, 0),
    ("vars 1\nf 1 0\nf -1 0\n", 1, Answer::Refuted, 1),
    ("vars 3\nf -1 0\nf 3 0\nf 1 -3 0\n", 1, Answer::Refuted, 1),
    // A clause twice.
    ("vars 2\nf 1 2 0\nf 1 2 0\n", 0, Answer::Holds, 0),
    ("vars 1\nf 1 0\nf 1 0\n", 0, Answer::Holds, 0),
    ("vars 1\nf -1 0\nf 1 0\nf 1 0\n", 1, Answer::Refuted, 1),
    // Budgets that end.
    ("vars 2\nf 1 2 0\nf 1 -2 0\n", 0, Answer::Spent, 0),
    ("vars 2\nf 1 2 0\nf 1 -2 0\n", 1, Answer::Holds, 1),
    (
        "vars 2\nf 1 2 0\nf 1 -2 0\nf -1 2 0\nf -1 -2 0\n",
        0,
        Answer::Spent,
        0,
    ),
    (
        "vars 2\nf 1 2 0\nf 1 -2 0\nf -1 2 0\nf -1 -2 0\n",
        1,
        Answer::Spent,
        1,
    ),
    (
        "vars 2\nf 1 2 0\nf 1 -2 0\nf -1 2 0\nf -1 -2 0\n",
        2,
        Answer::Refuted,
        2,
    ),
];

fn told(solved: Solved) -> (Answer, usize) {
    match solved {
        Solved::Holds(_, log) => (Answer::Holds, log.steps.len()),
        Solved::Refuted(log) => (Answer::Refuted, log.steps.len()),
        Solved::Spent(log) => (Answer::Spent, log.steps.len()),
        Solved::NoMemory => (Answer::NoMemory, 0),
    }
}

/// What the plain solver answers, and what the one that learns does.
fn both(alloc: Global, f: &Formula, budget: u32) -> Option<((Answer, usize), (Answer, usize))> {
    if f.clauses.len() > 100 {
        return None;
    }
    let plain = told(sat_plain::solve(alloc, f, budget));
    Some((plain, told(sat_core::solve(alloc, f, budget))))
}

/// The same for the formula of these lines, if they spell one.
fn answers(
    alloc: Global,
    lines: &str,
    budget: u32,
) -> Result<Option<((Answer, usize), (Answer, usize))>, Fail> {
    let text = format!(in alloc; "mpycert 1\nclaim none\nsession first\n{lines}end\n")?;
    let bytes = text.as_bytes();
    if bytes.len() > 1000 {
        return Ok(None);
    }
    let cert = read_cert(alloc, bytes).map_err(|_| "not read")?;
    match cert.sessions.items().first() {
        Some(session) => Ok(both(alloc, &session.formula, budget)),
        None => Ok(None),
    }
}

/// How many variables a formula has, and a budget.
const WITHOUT_CLAUSES: [(u32, u32); 3] = [(0, 0), (0, 1), (3, 0)];

#[test]
fn both_solvers_answer_where_nothing_is_asked(rt: HostRuntime) -> Result<(), Fail> {
    for (vars, budget) in WITHOUT_CLAUSES {
        let clauses = Clauses::new(rt.alloc());
        let formula = Formula { vars, clauses };
        let wanted = (Answer::Holds, 0);
        assert_eq!(rt;
            both(rt.alloc(), &formula, budget),
            Some((wanted, wanted)),
            "at {vars}, {budget}"
        );
    }
    Ok(())
}

#[test]
fn both_solvers_answer_on_little(rt: HostRuntime) -> Result<(), Fail> {
    for (lines, budget, answer, steps) in FORMULAS {
        let wanted = Some(((answer, steps), (answer, steps)));
        assert_eq!(rt;
            answers(rt.alloc(), lines, budget)?,
            wanted,
            "at {lines:?}, {budget}"
        );
    }
    Ok(())
}
