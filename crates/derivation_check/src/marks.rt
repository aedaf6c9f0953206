//! Which literals are true in a step: those whose variable the step has marked with their sign.

ghost use Rattle.std.specs.Prelude.{◌≡◌, ◌<◌, ◌≤◌, ◌+◌, ◌-◌, true, not, List, length, map, filter};
ghost use Rattle.std.specs.Prelude.{slice_set, All};
ghost use Rattle.clause_base.specs.declared.lit.Lit.{Lit};
ghost use Rattle.clause_base.specs.Literals.{has_no_variable_twice, opposite};
ghost use Rattle.derivation_check.specs.Marks.{mark_true, Agrees, AllBefore, ClausesCovered};
ghost use Rattle.derivation_check.specs.Marks.{Covers, scan_of};
ghost use Rattle.clause_base.specs.Follows.{follow, hinted};

use clause_base::answer::StepAnswer;
use clause_base::formula::Clauses;
use clause_base::lit::Lit;

/// The step in which a variable was last given a value, by its stamp, and the value.
#[derive(Clone, Copy)]
pub struct Mark {
    pub stamp: u32,
    pub positive: bool,
}

/// The literals of a clause that aren't false.
pub enum Scan {
    Closed,
    One(Lit),
    Many,
}

/// Whether a literal is false in the step of this stamp.
pub fn is_false(marks: &[Mark], stamp: u32, lit: Lit) -> bool
    requires some { 0 < lit.var }
    requires within { lit.var ≤ length marks.now }
    ensures { result ≡ mark_true marks.now stamp (opposite lit) }
{
    let mark = marks[lit.var as usize - 1];
    mark.stamp == stamp && mark.positive != lit.positive
}

/// Marks a literal as true.
pub fn set_true(marks: &mut [Mark], stamp: u32, lit: Lit)
    requires some { 0 < lit.var }
    requires within { lit.var ≤ length marks.old }
    ensures { marks.new ≡ slice_set marks.old (lit.var - 1)
        (record { stamp = stamp; positive = lit.positive }) }
{
    marks[lit.var as usize - 1] = Mark {
        stamp,
        positive: lit.positive,
    };
}

/// Looks for literals that aren't false, up to the second.
pub fn look_over(marks: &[Mark], stamp: u32, lits: &[Lit]) -> Scan
    requires { Covers (length marks.now) lits.now }
    ensures { result ≡ scan_of
        (filter (λ l. not (mark_true marks.now stamp (opposite l))) lits.now) }
{
    let mut found: Option<Lit> = None;
    for lit in lits {
        if is_false(marks, stamp, *lit) {
            continue;
        }
        match found {
            None => found = Some(*lit),
            Some(_) => return Scan::Many,
        }
    }
    match found {
        None => Scan::Closed,
        Some(lit) => Scan::One(lit),
    }
}

/// Marks the literals of a clause as false.
pub fn assume_false(marks: &mut [Mark], stamp: u32, lits: &[Lit])
    requires covered { Covers (length marks.old) lits.now }
    requires distinct { has_no_variable_twice lits.now ≡ true }
    requires fresh { AllBefore stamp marks.old }
    ensures agrees { Agrees marks.new stamp (map opposite lits.now) }
    ensures upto { AllBefore (stamp + 1) marks.new }
{
    for lit in lits {
        set_true(marks, stamp, lit.opposite());
    }
}

/// Looks at the hinted clauses in turn, up to the first that doesn't leave a single literal.
pub fn follow_hints(marks: &mut [Mark], stamp: u32, known: &Clauses, hints: &[u32]) -> StepAnswer
    requires covered { ClausesCovered (length marks.old) known.now }
    requires few { length hints.now ≤ 2147483647 }
    requires named { All (λ h. (0 < h) × (h ≤ length known.now)) hints.now }
    requires upto { AllBefore (stamp + 1) marks.old }
    ensures answer { (assumed : List Lit) → Agrees marks.old stamp assumed
        → result ≡ follow assumed 1 (hinted known.now hints.now) }
    ensures upto { AllBefore (stamp + 1) marks.new }
{
    for (i, hint) in hints.iter().enumerate() {
        let clause = known.at(*hint as usize - 1);
        match look_over(marks, stamp, clause.lits.as_slice()) {
            Scan::Closed => return StepAnswer::Good,
            Scan::One(lit) => set_true(marks, stamp, lit),
            Scan::Many => return StepAnswer::NotUnit(i as u32 + 1),
        }
    }
    StepAnswer::NoEnd
}

/// The stamp of a new step. Where the numbers have run out the marks are cleared.
pub fn begin(marks: &mut [Mark], stamp: u32) -> u32
    requires { AllBefore stamp marks.old }
    ensures fresh { AllBefore result marks.new }
    ensures more { result < u32.MAX }
{
    if stamp < u32::MAX {
        return stamp;
    }
    for mark in marks.iter_mut() {
        *mark = Mark {
            stamp: 0,
            positive: false,
        };
    }
    1
}
