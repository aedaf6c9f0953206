//! Logs: clauses, each with the hints by which it follows from those before it.

ghost use Rattle.std.specs.Prelude.{◌≡◌, ◌↔◌, ◌<◌, ◌≤◌, [], ◌∷◌, ◌++◌, OnOk, OnErr, IfOk};
ghost use Rattle.std.specs.Prelude.{length, slice_get, Some, IsTrue};
ghost use Rattle.clause_base.specs.Logs.{Refutes};

use crate::NoMemory;
use crate::clause::Clause;
use crate::hints::Hints;
use std::alloc::{AllocError, Global};
use std::marker::Model;

/// A clause, and the numbers of the clauses from which it follows.
#[derive(Drop)]
pub struct Step {
    pub clause: Clause,
    pub hints: Hints,
}

impl Step {
    /// An equal step.
    pub fn copy(&self) -> Result<Step, NoMemory>
        ensures { IfOk result (λ r. r ≡ self.now) }
    {
        let clause = self.clause.copy()?;
        let hints = self.hints.copy()?;
        Ok(Step { clause, hints })
    }
}

/// How many steps a list has at most.
const MOST_STEPS: usize = 2147483647;

/// A list of steps, at most 2147483647.
#[derive(Drop)]
pub struct Steps {
    items: Vec<Step>,
}

impl Model for Steps {
    ghost use Rattle.std.specs.Prelude.{◌≤◌, List, length};
    ghost use Rattle.clause_base.specs.declared.log.Step.{Step};

    ghost Value = { List Step };

    ghost view = { λ s. s.items.items };

    ghost invariant = { λ s. length s.items.items ≤ 2147483647 };
}

impl Steps {
    /// The list of no steps.
    pub fn new(alloc: Global) -> Self
        ensures { result ≡ [] }
    {
        Steps {
            items: Vec::new(alloc),
        }
    }

    /// The list of these steps.
    pub fn from_vec(items: Vec<Step>) -> Self
        requires { length items.items ≤ 2147483647 }
        ensures { result ≡ items.items }
    {
        Steps { items }
    }

    /// The steps.
    pub fn into_vec(self) -> Vec<Step>
        ensures { result.items ≡ self }
    {
        self.items
    }

    /// The number of steps.
    pub fn len(&self) -> usize
        ensures { result ≡ length self.now }
    {
        self.items.len()
    }

    /// The number of steps, at most 2147483647.
    pub fn count(&self) -> u32
        ensures value { result ≡ length self.now }
        ensures few { length self.now ≤ 2147483647 }
    {
        self.items.len() as u32
    }

    /// The step at a place, counted from 0.
    pub fn at(&self, i: usize) -> &Step
        requires { i < length self.now }
        ensures { slice_get self.now i ≡ Some result.now }
    {
        &self.items[i]
    }

    /// Adds a step at the end. Where memory is wanting, or the list has 2147483647 steps, it stays
    /// as it was.
    pub fn push(&mut self, step: Step) -> Result<(), NoMemory>
        ensures ok { OnOk result (self.new ≡ self.old ++ step ∷ []) }
        ensures err { OnErr result (self.new ≡ self.old) }
        ensures few { length self.new ≤ 2147483647 }
    {
        if self.items.len() >= MOST_STEPS {
            return Err(AllocError);
        }
        self.items.push(step)?;
        Ok(())
    }

    /// An equal list.
    pub fn copy(&self) -> Result<Steps, NoMemory>
        ensures { IfOk result (λ r. r ≡ self.now) }
    {
        let mut items = Vec::new(*self.items.allocator());
        for step in &self.items {
            items.push(step.copy()?)?;
        }
        Ok(Steps { items })
    }
}

/// The clauses that a solver derives, in order.
#[derive(Drop)]
pub struct Log {
    pub steps: Steps,
}

impl Log {
    /// Whether there is a last clause, and it is empty.
    pub fn refutes(&self) -> bool
        ensures { IsTrue result ↔ Refutes self.now.steps }
    {
        match self.steps.items.last() {
            Some(step) => step.clause.lits.as_slice().is_empty(),
            None => false,
        }
    }

    /// An equal log.
    pub fn copy(&self) -> Result<Log, NoMemory>
        ensures { IfOk result (λ r. r ≡ self.now) }
    {
        let steps = self.steps.copy()?;
        Ok(Log { steps })
    }
}
