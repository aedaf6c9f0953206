//! The search, from conflict to conflict.

ghost use Rattle.std.specs.Prelude.{◌≡◌, ◌≤◌, ℕ, IfOk, MatchOption, length};
ghost use Rattle.clause_base.specs.Formulas.{IsLedBy};
ghost use Rattle.clause_base.specs.Logs.{IsFresh, IsNarrow};
ghost use Rattle.clause_base.specs.Solving.{IfLog, IsAnswer};
ghost use Rattle.sat_core.specs.Explaining.{IsLearnt};
ghost use Rattle.sat_watch.specs.Searching.{IsFull, NoneEmpty, NoneRefutes, all_of};
ghost use Rattle.sat_watch.specs.Trails.{IsConflict};

use crate::explain::explained_step;
use clause_base::NoMemory;
use clause_base::formula::Formula;
use clause_base::solved::Solved;
use sat_watch::search::Search;
use std::alloc::Global;

/// Propagates from a place on, and then decides the least variable that has no value, for as long
/// as there is one. Gives the number of a clause whose literals are all false; where there is none,
/// the values satisfy the formula.
fn next_conflict(search: &mut Search<'_>, from: usize) -> Option<u32>
    ensures base { search.new.base ≡ search.old.base }
    ensures answer { MatchOption result (IsFull search.new)
        (IsConflict (all_of search.new.base) search.new.entries) }
{
    if let Some(number) = search.propagate(from) {
        return Some(number);
    }
    for above in 0..search.known().vars() {
        if search.is_set(above + 1) {
            continue;
        }
        let place = search.trail().len();
        search.settle(above + 1);
        if let Some(number) = search.propagate(place) {
            return Some(number);
        }
    }
    search.false_clause()
}

/// As `next_conflict` from the first literal on, after a look at each clause.
fn first_conflict(search: &mut Search<'_>) -> Option<u32>
    ensures base { search.new.base ≡ search.old.base }
    ensures answer { MatchOption result (IsFull search.new)
        (IsConflict (all_of search.new.base) search.new.entries) }
{
    if let Some(number) = search.visit_all() {
        return Some(number);
    }
    next_conflict(search, 0)
}

/// A search that logged one step more.
#[derive(Drop)]
struct Learnt<'a> {
    search: Search<'a>,
    /// Whether the clause of the step is empty.
    refuted: bool,
}

/// Goes back to the level at which one literal of the clause that a conflict shows is open, and
/// logs that clause.
fn learn<'a>(alloc: Global, mut search: Search<'a>, conflict: u32) -> Result<Learnt<'a>, NoMemory>
    requires conflict { IsConflict (all_of search.base) search.entries conflict }
    requires going { NoneRefutes search.base.steps }
    ensures { IfOk result (λ learnt. IsLearnt search.entry.base learnt.search.base learnt.refuted) }
{
    let explained = explained_step(alloc, &search, conflict)?;
    let refuted = explained.step.clause.lits.as_slice().is_empty();
    search.back_to(explained.level);
    Ok(Learnt {
        search: search.add(explained.step)?,
        refuted,
    })
}

/// As `solve`, where memory may lack.
fn search(alloc: Global, f: &Formula, budget: u32) -> Result<Solved, NoMemory>
    requires { length f.now.clauses ≤ 2147483647 }
    ensures answer { IfOk result (IsAnswer f.now budget) }
    ensures fresh { NoneEmpty f.now.clauses → IfOk result (λ s. IfLog s (IsFresh f.now.clauses)) }
    ensures narrow { (d : ℕ) → IsLedBy d f.now.vars f.now.clauses
        → IfOk result (λ s. IfLog s (IsNarrow d)) }
{
    let mut search = Search::new(alloc, f)?;
    let mut conflict = first_conflict(&mut search);
    for _count in 0..budget {
        let Some(number) = conflict else {
            break;
        };
        let learnt = learn(alloc, search, number)?;
        search = learnt.search;
        if learnt.refuted {
            return Ok(Solved::Refuted(search.into_log()));
        }
        let place = search.trail().len();
        let logged = search.known().len();
        search.visit(logged);
        conflict = next_conflict(&mut search, place);
    }
    match conflict {
        None => Ok(Solved::Holds(search.truths(alloc)?, search.into_log())),
        Some(_) => Ok(Solved::Spent(search.into_log())),
    }
}

/// Decides whether values satisfy a formula, by deciding the least variable that has no value, as
/// false. From each conflict it logs the clause that says that the decisions that took part in it
/// can't stand together, at most so many clauses as the budget has. Where no clause of the formula
/// is empty, no logged clause contains a clause of the formula or an earlier logged one. Where the
/// formula is led by d, the logged clauses have the first d variables alone.
pub fn solve(alloc: Global, f: &Formula, budget: u32) -> Solved
    requires { length f.now.clauses ≤ 2147483647 }
    ensures answer { IsAnswer f.now budget result }
    ensures fresh { NoneEmpty f.now.clauses → IfLog result (IsFresh f.now.clauses) }
    ensures narrow { (d : ℕ) → IsLedBy d f.now.vars f.now.clauses → IfLog result (IsNarrow d) }
{
    match search(alloc, f, budget) {
        Ok(solved) => solved,
        Err(_) => Solved::NoMemory,
    }
}
