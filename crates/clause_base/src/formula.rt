//! Formulas: lists of clauses.

ghost use Rattle.std.specs.Prelude.{◌≡◌, ◌↔◌, true, ◌<◌, ◌≤◌, [], ◌∷◌, ◌++◌, OnOk, OnErr, IfOk};
ghost use Rattle.std.specs.Prelude.{IfSome, IsSome, IsTrue, length, slice_get, Some};
ghost use Rattle.clause_base.specs.Formulas.{clauses_in_range};

use crate::NoMemory;
use crate::clause::Clause;
use std::alloc::{AllocError, Global};
use std::marker::Model;

/// How many clauses a list has at most.
const MOST_CLAUSES: usize = 2147483647;

/// A list of clauses, whose numbers begin with 1, at most 2147483647.
#[derive(Drop)]
pub struct Clauses {
    items: Vec<Clause>,
}

impl Model for Clauses {
    ghost use Rattle.std.specs.Prelude.{◌≤◌, List, length};
    ghost use Rattle.clause_base.specs.declared.clause.Clause.{Clause};

    ghost Value = { List Clause };

    ghost view = { λ s. s.items.items };

    ghost invariant = { λ s. length s.items.items ≤ 2147483647 };
}

impl Clauses {
    /// The list of no clauses.
    pub fn new(alloc: Global) -> Self
        ensures { result ≡ [] }
    {
        Clauses {
            items: Vec::new(alloc),
        }
    }

    /// The list of no clauses, with room for so many.
    pub fn with_capacity(alloc: Global, capacity: usize) -> Result<Clauses, NoMemory>
        ensures { IfOk result (λ r. r ≡ []) }
    {
        let items = Vec::with_capacity(alloc, capacity)?;
        Ok(Clauses { items })
    }

    /// The list of these clauses.
    pub fn from_vec(items: Vec<Clause>) -> Self
        requires { length items.items ≤ 2147483647 }
        ensures { result ≡ items.items }
    {
        Clauses { items }
    }

    /// The clauses.
    pub fn into_vec(self) -> Vec<Clause>
        ensures { result.items ≡ self }
    {
        self.items
    }

    /// The number of clauses.
    pub fn len(&self) -> usize
        ensures { result ≡ length self.now }
    {
        self.items.len()
    }

    /// The number of clauses, at most 2147483647.
    pub fn count(&self) -> u32
        ensures value { result ≡ length self.now }
        ensures few { length self.now ≤ 2147483647 }
    {
        self.items.len() as u32
    }

    /// The clause at a place, counted from 0.
    pub fn at(&self, i: usize) -> &Clause
        requires { i < length self.now }
        ensures { slice_get self.now i ≡ Some result.now }
    {
        &self.items[i]
    }

    /// Adds a clause at the end. Where memory is wanting, or the list has 2147483647 clauses, it
    /// stays as it was.
    pub fn push(&mut self, clause: Clause) -> Result<(), NoMemory>
        ensures ok { OnOk result (self.new ≡ self.old ++ clause ∷ []) }
        ensures err { OnErr result (self.new ≡ self.old) }
        ensures few { length self.new ≤ 2147483647 }
    {
        if self.items.len() >= MOST_CLAUSES {
            return Err(AllocError);
        }
        self.items.push(clause)?;
        Ok(())
    }

    /// An equal list.
    pub fn copy(&self) -> Result<Clauses, NoMemory>
        ensures { IfOk result (λ r. r ≡ self.now) }
    {
        let mut items = Vec::new(*self.items.allocator());
        for clause in &self.items {
            items.push(clause.copy()?)?;
        }
        Ok(Clauses { items })
    }

    /// Whether two lists are equal.
    pub fn same(&self, other: &Clauses) -> bool
        ensures { IsTrue result ↔ (self.now ≡ other.now) }
    {
        if self.items.len() != other.items.len() {
            return false;
        }
        for i in 0..self.items.len() {
            if !self.items[i].same(&other.items[i]) {
                return false;
            }
        }
        true
    }

    /// Whether each variable is one of those from 1 to `vars`.
    pub fn are_in_range(&self, vars: u32) -> bool
        ensures { result ≡ clauses_in_range vars self.now }
    {
        self.items
            .iter()
            .all(|clause| clause.lits.are_in_range(vars))
    }
}

/// A conjunction of clauses over the variables from 1 to `vars`.
#[derive(Drop)]
pub struct Formula {
    pub vars: u32,
    pub clauses: Clauses,
    pub ghost in_range: { clauses_in_range vars clauses ≡ true },
}

impl Formula {
    /// The formula of these clauses; none where a variable isn't one of those from 1 to `vars`.
    pub fn new(vars: u32, clauses: Clauses) -> Option<Formula>
        ensures vars { IfSome result (λ f. f.vars ≡ vars) }
        ensures clauses { IfSome result (λ f. f.clauses ≡ clauses) }
        ensures exact { IsSome result ↔ (clauses_in_range vars clauses ≡ true) }
    {
        if !clauses.are_in_range(vars) {
            return None;
        }
        Some(Formula { vars, clauses })
    }

    /// Whether two formulas have the same variables and the same clauses in the same order.
    pub fn same(&self, other: &Formula) -> bool
        ensures { IsTrue result ↔ (self.now ≡ other.now) }
    {
        self.vars == other.vars && self.clauses.same(&other.clauses)
    }

    /// An equal formula.
    pub fn copy(&self) -> Result<Formula, NoMemory>
        ensures { IfOk result (λ r. r ≡ self.now) }
    {
        let clauses = self.clauses.copy()?;
        Ok(Formula {
            vars: self.vars,
            clauses,
        })
    }
}
