//! The solver on formulas of two variables.

ghost use Rattle.std.specs.Prelude.{◌≡◌, ◌<◌, IfOk, length};

use crate::all_signs::{all_signs, push_signs};
use clause_base::NoMemory;
use clause_base::clause::Clause;
use clause_base::formula::{Clauses, Formula};
use clause_base::lit::Lit;
use clause_base::lits::Lits;
use clause_base::solved::Solved;
use sat_plain::solve;
use std::alloc::Global;
use std::test::Fail;

/// The four clauses of both variables.
fn contradiction(alloc: Global) -> Result<Formula, NoMemory>
    ensures { IfOk result (λ f. length f.clauses ≡ 4) }
{
    let clauses = all_signs(alloc)?;
    Ok(Formula { vars: 2, clauses })
}

/// Variable 1, and that it implies variable 2.
fn implied(alloc: Global) -> Result<Formula, NoMemory>
    ensures { IfOk result (λ f. length f.clauses ≡ 2) }
{
    let mut clauses = Clauses::new(alloc);
    let one = Lit {
        var: 1,
        positive: true,
    };
    let lits = Lits::from_slice(alloc, &[one])?;
    clauses.push(Clause::new(lits))?;
    push_signs(alloc, &mut clauses, false, true)?;
    Ok(Formula { vars: 2, clauses })
}

#[derive(Debug, Drop, PartialEq, Eq)]
enum Answer {
    /// The values of variables 1 and 2.
    Holds(bool, bool),
    /// The number of steps, and whether the last clause is empty.
    Refuted(usize, bool),
    Spent(usize),
    NoMemory,
}

fn decided(alloc: Global, f: &Formula, budget: u32) -> Answer
    requires { length f.now.clauses < 5 }
{
    match solve(alloc, f, budget) {
        Solved::Holds(truths, _) => {
            if truths.len() != 2 {
                return Answer::NoMemory;
            }
            Answer::Holds(truths.at(0), truths.at(1))
        }
        Solved::Refuted(log) => Answer::Refuted(log.steps.len(), log.refutes()),
        Solved::Spent(log) => Answer::Spent(log.steps.len()),
        Solved::NoMemory => Answer::NoMemory,
    }
}

#[test]
fn decides(rt: HostRuntime) -> Result<(), Fail> {
    let alloc = rt.alloc();
    let all = contradiction(alloc)?;
    assert_eq!(rt; decided(alloc, &all, 10), Answer::Refuted(2, true));
    assert_eq!(rt; decided(alloc, &all, 1), Answer::Spent(1));
    assert_eq!(rt; decided(alloc, &all, 0), Answer::Spent(0));
    let implied = implied(alloc)?;
    assert_eq!(rt; decided(alloc, &implied, 10), Answer::Holds(true, true));
    Ok(())
}
