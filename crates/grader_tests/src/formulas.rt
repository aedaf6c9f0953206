//! Formulas that are solved, and proofs that are judged, by whole requests.

use grade_io::MemShelf;
use grade_top::Status;
use std::test::Fail;
use test_requests::{answered, held, words};

const FOUR: &str = "p cnf 2 4\n1 2 0\n1 -2 0\n-1 2 0\n-1 -2 0\n";

/// Each row: the text of a formula, the status of `sat`, and what it writes.
#[test]
fn formulas_are_solved(rt: HostRuntime) -> Result<(), Fail> {
    let alloc = rt.alloc();
    let rows: [(&str, Status, &str); 3] = [
        (FOUR, Status::NoCorrection, "unsatisfiable\n"),
        (
            "p cnf 2 2\n1 0\n-1 2 0\n",
            Status::Correct,
            "satisfiable\nv 1 2 0\n",
        ),
        (
            "p cnf 1 1\n2 0\n",
            Status::Refused,
            "refused c.cnf line 2: Cnf\n",
        ),
    ];
    let words = words(alloc, &["sat", "c.cnf", "log", "10"])?;
    for (cnf, status, text) in rows {
        let mut shelf = MemShelf::new(alloc, Vec::new(alloc));
        shelf.add("c.cnf", cnf.as_bytes())?;
        let (ended, written) = answered(alloc, &words, &mut shelf)?;
        assert_eq!(rt; ended, status, "at {cnf:?}");
        assert_eq!(rt; written.as_str(), text);
    }
    Ok(())
}

/// The proof that `sat` stores is accepted, and others are rejected: each with the status of
/// `unsat` and what it writes.
#[test]
fn proofs_are_judged(rt: HostRuntime) -> Result<(), Fail> {
    let alloc = rt.alloc();
    let mut shelf = MemShelf::new(alloc, Vec::new(alloc));
    shelf.add("c.cnf", FOUR.as_bytes())?;
    let solve = words(alloc, &["sat", "c.cnf", "log", "200000"])?;
    let (solved, _) = answered(alloc, &solve, &mut shelf)?;
    assert_eq!(rt; solved, Status::NoCorrection);
    let proof = held(alloc, &mut shelf, "log")?;
    let rows: [(&str, Status, &str); 3] = [
        (proof.as_str(), Status::Correct, "unsatisfiable\n"),
        (
            "l 1 0 1 2 0\nend\n",
            Status::Rejected,
            "rejected WrongClaim\n",
        ),
        (
            "l 0 1 0\nend\n",
            Status::Rejected,
            "rejected BadStep step 1\n",
        ),
    ];
    let words = words(alloc, &["unsat", "c.cnf", "log"])?;
    for (proof, status, text) in rows {
        let mut shelf = MemShelf::new(alloc, Vec::new(alloc));
        shelf.add("c.cnf", FOUR.as_bytes())?;
        shelf.add("log", proof.as_bytes())?;
        let (ended, written) = answered(alloc, &words, &mut shelf)?;
        assert_eq!(rt; ended, status, "at {proof:?}");
        assert_eq!(rt; written.as_str(), text);
    }
    Ok(())
}
