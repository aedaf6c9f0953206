//! The checker of steps.

ghost use Rattle.std.specs.Prelude.{◌≡◌, ◌≤◌, ◌<◌, true, IfOk, All, length};
ghost use Rattle.std.specs.List.{list_all};
ghost use Rattle.clause_base.specs.Follows.{answer_of, hinted};
ghost use Rattle.clause_base.specs.Formulas.{in_range, clauses_in_range};

use crate::marks::{Mark, assume_false, begin, follow_hints};
use clause_base::NoMemory;
use clause_base::answer::StepAnswer;
use clause_base::clause::Clause;
use clause_base::formula::Clauses;
use clause_base::hints::Hints;
use std::alloc::Global;
use std::marker::Model;

/// A checker of steps, which contracts see as the number of its variables. A step leaves nothing
/// behind: a mark counts only in the step that made it.
#[derive(Drop)]
pub struct Checker {
    marks: Vec<Mark>,
    stamp: u32,
}

impl Model for Checker {
    ghost use Rattle.std.specs.Prelude.{ℕ, length};
    ghost use Rattle.derivation_check.specs.Marks.{AllBefore};

    ghost Value = { ℕ };

    ghost view = { λ c. length c.marks.items };

    ghost invariant = { λ c. AllBefore c.stamp c.marks.items };
}

impl Checker {
    /// A checker for clauses over the variables from 1 to `vars`.
    pub fn new(alloc: Global, vars: u32) -> Result<Checker, NoMemory>
        ensures { IfOk result (λ c. c ≡ vars) }
    {
        let unmarked = Mark {
            stamp: 0,
            positive: false,
        };
        Ok(Checker {
            marks: vec![in alloc; unmarked; vars as usize]?,
            stamp: 1,
        })
    }

    /// Whether a clause follows from known clauses by hints, which are numbers of known clauses
    /// from 1 on. Takes no memory, and the time of looking once at the literals of the clause and
    /// of the hinted clauses.
    #[tactic(auto, using(crate::proofs::Ranges::all_covered, crate::proofs::Ranges::covers_range))]
    pub fn step(&mut self, known: &Clauses, clause: &Clause, hints: &Hints) -> StepAnswer
        requires known { clauses_in_range self.old known.now ≡ true }
        requires covered { list_all (in_range self.old) clause.now.lits ≡ true }
        requires named { All (λ h. (0 < h) × (h ≤ length known.now)) hints.now }
        ensures answer { result ≡ answer_of clause.now.lits (hinted known.now hints.now) }
        ensures same { self.new ≡ self.old }
    {
        self.stamp = begin(&mut self.marks, self.stamp);
        assume_false(&mut self.marks, self.stamp, clause.lits.as_slice());
        let answer = follow_hints(&mut self.marks, self.stamp, known, hints.as_slice());
        self.stamp += 1;
        answer
    }
}
