//! The clauses of a formula, and those that were logged.

ghost use Rattle.std.specs.Prelude.{◌≡◌, ◌+◌, ◌-◌, ◌<◌, ◌≤◌, [], ◌∷◌, ◌++◌, OnOk, length};
ghost use Rattle.std.specs.Prelude.{slice_get, Some};
ghost use Rattle.clause_base.specs.Literals.{IsCovered};
ghost use Rattle.sat_watch.specs.Searching.{IsLogged, MayFollow, all_of};

use clause_base::NoMemory;
use clause_base::clause::Clause;
use clause_base::formula::Formula;
use clause_base::laws::{one_step_more, what_is_known};
use clause_base::log::{Log, Step, Steps};
use std::alloc::{AllocError, Global};
use std::marker::Model;

/// How many clauses a formula and a log have together at most.
const MOST_CLAUSES: usize = 2147483647;

/// A formula, and the steps of a log that follows from it.
#[derive(Drop)]
pub struct Known<'a> {
    f: &'a Formula,
    steps: Steps,
}

impl<'a> Model for Known<'a> {
    ghost use Rattle.sat_watch.specs.Searching.{Base, IsLogged};

    ghost Value = { Base };

    ghost view = { λ s. record {
      vars = s.f.now.vars;
      clauses = s.f.now.clauses;
      steps = s.steps;
    } };

    ghost invariant = { λ s. IsLogged (record {
      vars = s.f.now.vars;
      clauses = s.f.now.clauses;
      steps = s.steps;
    }) };
}

impl<'a> Known<'a> {
    /// The clauses of a formula.
    pub fn new(alloc: Global, f: &'a Formula) -> Known<'a>
        requires { length f.now.clauses ≤ 2147483647 }
        ensures { result ≡ record { vars = f.now.vars; clauses = f.now.clauses; steps = [] } }
    {
        Known {
            f,
            steps: Steps::new(alloc),
        }
    }

    /// How many variables there are.
    pub fn vars(&self) -> u32
        ensures { result ≡ self.now.vars }
    {
        self.f.vars
    }

    /// How many clauses the formula has.
    pub fn formula_len(&self) -> u32
        ensures { result ≡ length self.now.clauses }
    {
        self.f.clauses.len() as u32
    }

    /// How many clauses are known.
    pub fn len(&self) -> u32
        ensures count { result ≡ length (all_of self.now) }
        ensures within { result ≤ 2147483647 }
    {
        what_is_known();
        (self.f.clauses.len() + self.steps.len()) as u32
    }

    /// The clause of a number.
    pub fn at(&self, number: u32) -> &Clause
        requires some { 0 < number }
        requires within { number ≤ length (all_of self.now) }
        ensures value { slice_get (all_of self.now) (number - 1) ≡ Some result.now }
        ensures covered { IsCovered self.now.vars result.now.lits }
    {
        what_is_known();
        let place = number as usize - 1;
        if place < self.f.clauses.len() {
            self.f.clauses.at(place)
        } else {
            &self.steps.at(place - self.f.clauses.len()).clause
        }
    }

    /// Logs a step.
    pub fn add(&mut self, step: Step) -> Result<(), NoMemory>
        requires { MayFollow self.old step }
        ensures { OnOk result (self.new ≡ record self.old {
          steps = self.old.steps ++ step ∷ [];
        }) }
    {
        if self.f.clauses.len() + self.steps.len() >= MOST_CLAUSES {
            return Err(AllocError);
        }
        one_step_more();
        what_is_known();
        self.steps.push(step)?;
        Ok(())
    }

    /// A law: the log follows, is fresh, and as narrow as the formula is led.
    pub fn logged(&self)
        ensures { IsLogged self.now }
    {
        let _vars = self.f.vars;
    }

    /// What was logged.
    pub fn into_log(self) -> Log
        ensures value { result.steps ≡ self.entry.steps }
        ensures logged { IsLogged self.entry }
    {
        Log { steps: self.steps }
    }
}
