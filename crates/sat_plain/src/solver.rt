//! The solver.

ghost use Rattle.std.specs.Prelude.{◌≡◌, ◌≢◌, ◌≤◌, All, IfOk, length};
ghost use Rattle.clause_base.specs.Logs.{IsFresh};
ghost use Rattle.clause_base.specs.Solving.{IfLog, IsAnswer};
ghost use Rattle.sat_plain.specs.Searching.{NoneEmpty};

use crate::search::Search;
use clause_base::NoMemory;
use clause_base::formula::Formula;
use clause_base::solved::Solved;
use std::alloc::Global;

/// As `solve`, where memory may lack.
fn search(alloc: Global, f: &Formula, budget: u32) -> Result<Solved, NoMemory>
    requires { length f.now.clauses ≤ 2147483647 }
    ensures answer { IfOk result (IsAnswer f.now budget) }
    ensures fresh { NoneEmpty f.now.clauses → IfOk result (λ s. IfLog s (IsFresh f.now.clauses)) }
{
    let mut search = Search::new(alloc, f)?;
    let mut conflict = search.first_conflict();
    for _count in 0..budget {
        let Some(number) = conflict else {
            break;
        };
        match search.take_back(alloc, number)? {
            None => return Ok(Solved::Refuted(search.into_log())),
            Some(place) => conflict = search.next_conflict(place),
        }
    }
    match conflict {
        None => Ok(Solved::Holds(search.truths(alloc)?, search.into_log())),
        Some(_) => Ok(Solved::Spent(search.into_log())),
    }
}

/// Decides whether values satisfy a formula, by deciding the least variable that has no value, as
/// false first. Each decision that it takes back it logs as a clause that follows, at most so many
/// as the budget has. Where no clause of the formula is empty, no logged clause contains a clause
/// of the formula or an earlier logged one.
pub fn solve(alloc: Global, f: &Formula, budget: u32) -> Solved
    requires { length f.now.clauses ≤ 2147483647 }
    ensures answer { IsAnswer f.now budget result }
    ensures fresh { NoneEmpty f.now.clauses → IfLog result (IsFresh f.now.clauses) }
{
    match search(alloc, f, budget) {
        Ok(solved) => solved,
        Err(_) => Solved::NoMemory,
    }
}
