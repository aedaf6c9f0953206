//! Why a conflict shows that some of the decisions can't stand together.

ghost use Rattle.std.specs.Prelude.{◌≡◌, ◌⊎◌, ℕ, true, IfOk, length};
ghost use Rattle.clause_base.specs.declared.lit.Lit.{Lit};
ghost use Rattle.clause_base.specs.Literals.{IsCovered};
ghost use Rattle.sat_core.specs.Explaining.{IsWalked, is_wanted};
ghost use Rattle.sat_watch.specs.Searching.{MayFollow, NoneRefutes, Spares, all_of};
ghost use Rattle.sat_watch.specs.Trails.{IsConflict, is_among, up_to};

use clause_base::NoMemory;
use clause_base::clause::Clause;
use clause_base::hints::Hints;
use clause_base::lit::Lit;
use clause_base::lits::Lits;
use clause_base::log::Step;
use sat_watch::search::Search;
use std::alloc::Global;

/// What a conflict shows.
#[derive(Drop)]
pub struct Explanation {
    /// The clause of the opposites of the decisions that took part, with its hints.
    pub step: Step,
    /// The level to go back to, at which one literal of the clause is open: that of the second
    /// newest of these decisions, or 0 where there is none.
    pub level: u32,
}

/// Marks the variables of a clause as wanted.
fn want(wanted: &mut [bool], lits: &[Lit])
    requires { IsCovered (length wanted.old) lits.now }
    ensures kept { (v : ℕ) → is_wanted wanted.old v ≡ true → is_wanted wanted.new v ≡ true }
    ensures more { (l : Lit) → is_among l lits.now ≡ true → is_wanted wanted.new l.var ≡ true }
{
    for lit in lits {
        wanted[lit.var as usize - 1] = true;
    }
}

/// The level to go back to, once a decision of level `next` took part after `count` newer ones.
fn level_after(count: usize, level: u32, next: u32) -> u32
    ensures either { (result ≡ level) ⊎ (result ≡ next) }
    ensures first { count ≡ 0 → result ≡ level }
{
    if count == 1 { next } else { level }
}

/// What a walk from a conflict back over the trail finds.
#[derive(Drop)]
struct Walked {
    /// The opposites of the decisions that took part, that of the newest first.
    lits: Lits,
    /// The numbers of the clauses by which these decisions lead to the conflict, in order.
    hints: Vec<u32>,
    /// The level of the second newest of these decisions, or 0.
    level: u32,
}

/// Walks from the number of a clause whose literals are all false back over the trail. There is a
/// mark for each variable, and each may be set or not.
fn walk(
    alloc: Global,
    search: &Search<'_>,
    conflict: u32,
    wanted: &mut [bool],
) -> Result<Walked, NoMemory>
    requires conflict { IsConflict (all_of search.now.base) search.now.entries conflict }
    requires many { length wanted.old ≡ search.now.base.vars }
    ensures { IfOk result (λ w. IsWalked search.now.base search.now.entries
        w.lits w.hints.items w.level) }
{
    let known = search.known();
    let entries = search.trail().entries();
    let mut lits = Lits::new(alloc);
    let mut hints = vec![in alloc; conflict]?;
    let mut level = 0;
    want(wanted, known.at(conflict).lits.as_slice());
    for i in (0..entries.len()).rev() {
        let entry = entries[i];
        if !wanted[entry.lit.var as usize - 1] {
            continue;
        }
        match entry.reason {
            Some(number) => {
                want(wanted, known.at(number).lits.as_slice());
                hints.push(number)?;
            }
            None => {
                level = level_after(lits.as_slice().len(), level, entry.level);
                lits.push(entry.lit.opposite())?;
            }
        }
    }
    hints.reverse();
    Ok(Walked { lits, hints, level })
}

/// The step that says that the decisions that took part in a conflict can't stand together, given
/// the number of a clause whose literals are all false.
pub fn explained_step(
    alloc: Global,
    search: &Search<'_>,
    conflict: u32,
) -> Result<Explanation, NoMemory>
    requires conflict { IsConflict (all_of search.now.base) search.now.entries conflict }
    requires going { NoneRefutes search.now.base.steps }
    ensures may { IfOk result (λ x. MayFollow search.now.base x.step) }
    ensures spares { IfOk result
        (λ x. Spares (up_to x.level search.now.entries) x.step.clause.lits) }
{
    search.known().logged();
    let _entries = search.trail().entries();
    let mut wanted = vec![in alloc; false; search.known().vars() as usize]?;
    let walked = walk(alloc, search, conflict, &mut wanted)?;
    Ok(Explanation {
        step: Step {
            clause: Clause::new(walked.lits),
            hints: Hints::from_slice(alloc, walked.hints.as_slice())?,
        },
        level: walked.level,
    })
}
