//! Why a conflict shows that one of the decisions is wrong.

ghost use Rattle.std.specs.Prelude.{◌≡◌, ℕ, ◌+◌, ◌-◌, ◌<◌, ◌≤◌, true, List, All, Some, IfOk};
ghost use Rattle.std.specs.Prelude.{length, map, reverse, slice_get};
ghost use Rattle.clause_base.specs.declared.lit.Lit.{Lit};
ghost use Rattle.clause_base.specs.Follows.{answer_of, hinted};
ghost use Rattle.clause_base.specs.declared.answer.StepAnswer.TheVariants.{Good};
ghost use Rattle.clause_base.specs.Logs.{StepFollows, known_of};
ghost use Rattle.clause_base.specs.Formulas.{clauses_in_range};
ghost use Rattle.clause_base.specs.Literals.{IsCovered, opposite};
ghost use Rattle.sat_plain.specs.Trails.{IsConflict, IsOrdered, IsTrail, is_among, is_wanted};
ghost use Rattle.sat_plain.specs.Trails.{decided};

use crate::trail::Entry;
use clause_base::NoMemory;
use clause_base::clause::Clause;
use clause_base::formula::Clauses;
use clause_base::hints::Hints;
use clause_base::lit::Lit;
use clause_base::lits::Lits;
use clause_base::log::{Step, Steps};
use std::alloc::Global;

/// The clause of a number, among those of the formula and then those of the log.
fn clause_of<'a>(clauses: &'a Clauses, steps: &'a Steps, number: u32) -> &'a Clause
    requires some { 0 < number }
    requires within { number ≤ length clauses.now + length steps.now }
    ensures { slice_get (known_of clauses.now steps.now) (number - 1) ≡ Some result.now }
{
    let place = number as usize - 1;
    if place < clauses.len() {
        clauses.at(place)
    } else {
        &steps.at(place - clauses.len()).clause
    }
}

/// The opposites of the decisions, with that of the newest first.
fn opposite_decisions(alloc: Global, entries: &[Entry]) -> Result<Lits, NoMemory>
    ensures { IfOk result (λ lits. lits ≡ map opposite (decided (reverse entries.now))) }
{
    let mut lits = Lits::new(alloc);
    for i in (0..entries.len()).rev() {
        let entry = entries[i];
        if entry.reason.is_none() {
            lits.push(entry.lit.opposite())?;
        }
    }
    Ok(lits)
}

/// Marks the variables of a clause as wanted.
fn want(wanted: &mut [bool], lits: &[Lit])
    requires { IsCovered (length wanted.old) lits.now }
    ensures kept { (v : ℕ) → is_wanted wanted.old v ≡ true → is_wanted wanted.new v ≡ true }
    ensures more { (l : Lit) → is_among l lits.now ≡ true → is_wanted wanted.new l.var ≡ true }
{
    for lit in lits {
        wanted[lit.var as usize - 1] = true;
    }
}

/// The numbers of the clauses by which the decisions lead to a clause whose literals are all false:
/// of the literals that are wanted for it, the reasons in the order in which they were set. The
/// marks may be any.
fn hints_of(
    alloc: Global,
    clauses: &Clauses,
    steps: &Steps,
    entries: &[Entry],
    conflict: u32,
    wanted: &mut [bool],
) -> Result<Vec<u32>, NoMemory>
    requires known { clauses_in_range (length wanted.old) (known_of clauses.now steps.now) ≡ true }
    requires ordered { IsOrdered (length wanted.old) (reverse entries.now) }
    requires trail { IsTrail (known_of clauses.now steps.now) (reverse entries.now) }
    requires conflict { IsConflict (known_of clauses.now steps.now) (reverse entries.now) conflict }
    ensures named { IfOk result
        (λ hints. All (λ h. (0 < h) × (h ≤ length (known_of clauses.now steps.now))) hints.items) }
    ensures good { IfOk result
        (λ hints. answer_of (map opposite (decided (reverse entries.now)))
        (hinted (known_of clauses.now steps.now) hints.items) ≡ Good) }
{
    let mut hints = vec![in alloc; conflict]?;
    let first = clause_of(clauses, steps, conflict);
    want(wanted, first.lits.as_slice());
    for i in (0..entries.len()).rev() {
        let entry = entries[i];
        let Some(number) = entry.reason else {
            continue;
        };
        if wanted[entry.lit.var as usize - 1] {
            let clause = clause_of(clauses, steps, number);
            want(wanted, clause.lits.as_slice());
            hints.push(number)?;
        }
    }
    hints.reverse();
    Ok(hints)
}

/// The step that says that not all decisions can stand, given a clause whose literals are all
/// false.
pub fn explanation(
    alloc: Global,
    clauses: &Clauses,
    steps: &Steps,
    vars: u32,
    entries: &[Entry],
    conflict: u32,
) -> Result<Step, NoMemory>
    requires known { clauses_in_range vars (known_of clauses.now steps.now) ≡ true }
    requires ordered { IsOrdered vars (reverse entries.now) }
    requires trail { IsTrail (known_of clauses.now steps.now) (reverse entries.now) }
    requires conflict { IsConflict (known_of clauses.now steps.now) (reverse entries.now) conflict }
    ensures clause { IfOk result
        (λ step. step.clause.lits ≡ map opposite (decided (reverse entries.now))) }
    ensures follows { IfOk result (λ step. StepFollows vars (known_of clauses.now steps.now) step) }
{
    let lits = opposite_decisions(alloc, entries)?;
    let mut wanted = vec![in alloc; false; vars as usize]?;
    let hints = hints_of(alloc, clauses, steps, entries, conflict, &mut wanted)?;
    Ok(Step {
        clause: Clause::new(lits),
        hints: Hints::from_slice(alloc, hints.as_slice())?,
    })
}
