//! The state of a search, and the steps that change it.

ghost use Rattle.std.specs.Prelude.{◌≡◌, ◌≤◌, ◌<◌, ◌+◌, true, [], ◌∷◌, IfOk, None, Some, length};
ghost use Rattle.clause_base.specs.Follows.{literals_at, open_literals};
ghost use Rattle.clause_base.specs.Formulas.{in_range, satisfies};
ghost use Rattle.clause_base.specs.Logs.{known_of};
ghost use Rattle.sat_plain.specs.Searching.{IsDecision, IsFull, IsLogged, IsTaken, IsUndone};
ghost use Rattle.sat_plain.specs.Searching.{NoneRefutes};
ghost use Rattle.sat_plain.specs.Trails.{IsConflict, literals_of, standing};

use crate::explain::explanation;
use crate::occurrences::Occurrences;
use crate::trail::{Entry, Trail};
use clause_base::NoMemory;
use clause_base::formula::Formula;
use clause_base::laws::{one_step_more, what_is_known};
use clause_base::lit::Lit;
use clause_base::log::{Log, Steps};
use clause_base::truths::Truths;
use std::alloc::{AllocError, Global};
use std::marker::Model;

/// How many clauses a formula and a log have together at most.
const MOST_CLAUSES: usize = 2147483647;

/// A search for values that satisfy a formula: the literals that are true, and the clauses that
/// were logged.
#[derive(Drop)]
pub struct Search<'a> {
    pub(crate) f: &'a Formula,
    pub(crate) occurrences: Occurrences,
    pub(crate) trail: Trail,
    steps: Steps,
}

impl<'a> Model for Search<'a> {
    ghost use Rattle.sat_plain.specs.Searching.{IsSearch, State};

    ghost Value = { State };

    ghost view = { λ s. record {
      vars = s.f.now.vars;
      clauses = s.f.now.clauses;
      index = s.occurrences;
      steps = s.steps;
      entries = s.trail.entries;
    } };

    ghost use Rattle.std.specs.Prelude.{◌≡◌};

    ghost invariant = { λ s. (s.trail.vars ≡ s.f.now.vars)
        × IsSearch (record {
          vars = s.f.now.vars;
          clauses = s.f.now.clauses;
          index = s.occurrences;
          steps = s.steps;
          entries = s.trail.entries;
        }) };
}

/// Takes the newest entries away, up to the newest decision and with it.
fn undo(trail: &mut Trail) -> Option<Lit>
    ensures { IsUndone trail.old trail.new result }
{
    while let Some(entry) = trail.pop() {
        if entry.reason.is_none() {
            return Some(entry.lit);
        }
    }
    None
}

impl<'a> Search<'a> {
    /// No literal is true, and nothing is logged.
    pub fn new(alloc: Global, f: &'a Formula) -> Result<Search<'a>, NoMemory>
        requires { length f.now.clauses ≤ 2147483647 }
        ensures vars { IfOk result (λ s. s.vars ≡ f.now.vars) }
        ensures clauses { IfOk result (λ s. s.clauses ≡ f.now.clauses) }
        ensures none { IfOk result (λ s. (s.steps ≡ []) × (s.entries ≡ [])) }
    {
        let occurrences = Occurrences::new(alloc, f)?;
        let trail = Trail::new(alloc, f.vars)?;
        Ok(Search {
            f,
            occurrences,
            trail,
            steps: Steps::new(alloc),
        })
    }

    /// Makes the one open literal of a clause of the formula true.
    pub fn imply(&mut self, place: u32, lit: Lit)
        requires within { place < length self.old.clauses }
        requires unit { open_literals (literals_of self.old.entries)
            (literals_at self.old.clauses place) ≡ lit ∷ [] }
        requires unset { standing (literals_of self.old.entries) lit ≡ None }
        ensures { self.new ≡ record self.old {
          entries = (record { lit = lit; reason = Some (place + 1) }) ∷ self.old.entries;
        } }
    {
        self.trail.push(Entry {
            lit,
            reason: Some(place + 1),
        });
    }

    /// Decides a literal.
    pub fn decide(&mut self, lit: Lit)
        requires range { in_range self.old.vars lit ≡ true }
        requires unset { standing (literals_of self.old.entries) lit ≡ None }
        requires decision { IsDecision self.old.clauses (literals_of self.old.entries) lit }
        ensures { self.new ≡ record self.old {
          entries = (record { lit = lit; reason = None }) ∷ self.old.entries;
        } }
    {
        self.trail.push(Entry { lit, reason: None });
    }

    /// Logs that not all decisions can stand, and takes back the newest: its opposite follows.
    /// Gives the place of that literal, or none where there is no decision.
    pub fn take_back(&mut self, alloc: Global, conflict: u32) -> Result<Option<usize>, NoMemory>
        requires conflict { IsConflict
            (known_of self.old.clauses self.old.steps) self.old.entries conflict }
        requires going { NoneRefutes self.old.steps }
        ensures { IfOk result (IsTaken self.old self.new) }
    {
        let number = self.f.clauses.len() + self.steps.len() + 1;
        if number > MOST_CLAUSES {
            return Err(AllocError);
        }
        let clauses = &self.f.clauses;
        let entries = self.trail.entries();
        let step = explanation(alloc, clauses, &self.steps, self.f.vars, entries, conflict)?;
        let refuted = step.clause.lits.as_slice().is_empty();
        one_step_more();
        what_is_known();
        self.steps.push(step)?;
        if refuted {
            return Ok(None);
        }
        let Some(lit) = undo(&mut self.trail) else {
            return Ok(None);
        };
        let place = self.trail.len();
        self.trail.push(Entry {
            lit: lit.opposite(),
            reason: Some(number as u32),
        });
        Ok(Some(place))
    }

    /// The values of the variables, as the literals that are true say.
    pub fn truths(&self, alloc: Global) -> Result<Truths, NoMemory>
        ensures many { IfOk result (λ values. length values ≡ self.now.vars) }
        ensures satisfied { IsFull self.now
            → IfOk result (λ values. satisfies values self.now.clauses ≡ true) }
    {
        let _entries = self.trail.entries();
        let values = self.trail.truths(alloc)?;
        Ok(values)
    }

    /// What was logged.
    pub fn into_log(self) -> Log
        ensures value { result.steps ≡ self.entry.steps }
        ensures logged { IsLogged self.entry.vars self.entry.clauses self.entry.steps }
    {
        Log { steps: self.steps }
    }
}
