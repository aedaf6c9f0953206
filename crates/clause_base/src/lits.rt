//! The literals of a clause.

ghost use Rattle.std.specs.Prelude.{◌≡◌, ◌↔◌, ◌<◌, ◌≤◌, [], ◌∷◌, ◌++◌, length, OnOk, OnErr, IfOk};
ghost use Rattle.std.specs.Prelude.{IsOk, IsTrue};
ghost use Rattle.std.specs.List.{list_all};
ghost use Rattle.clause_base.specs.Formulas.{in_range};

use crate::NoMemory;
use crate::lit::Lit;
use smallvec::SmallVec;
use std::alloc::{AllocError, Global};
use std::marker::Model;

/// A list of literals, of which up to three take no memory.
#[derive(Drop)]
pub struct Lits {
    items: SmallVec<Lit, 3>,
}

impl Model for Lits {
    ghost use Rattle.std.specs.Prelude.{◌≡◌, ◌≤◌, List, length};
    ghost use Rattle.clause_base.specs.declared.lit.Lit.{Lit};

    ghost Value = { List Lit };

    ghost view = { λ s. s.items.items };

    ghost invariant = { λ s. length s.items.items ≤ 3 → s.items.capacity ≡ 3 };
}

impl Lits {
    /// The list of no literals.
    pub fn new(alloc: Global) -> Self
        ensures { result ≡ [] }
    {
        Lits {
            items: SmallVec::new(alloc),
        }
    }

    /// The list of these literals. Up to three take no memory.
    pub fn from_slice(alloc: Global, lits: &[Lit]) -> Result<Lits, NoMemory>
        ensures ok { IfOk result (λ r. r ≡ lits.now) }
        ensures inline { length lits.now ≤ 3 → IsOk result }
    {
        let items = SmallVec::from_slice(alloc, lits)?;
        Ok(Lits { items })
    }

    /// Adds a literal at the end, up to the third without memory. Where memory is wanting the
    /// list stays as it was.
    pub fn push(&mut self, lit: Lit) -> Result<(), NoMemory>
        ensures ok { OnOk result (self.new ≡ self.old ++ lit ∷ []) }
        ensures err { OnErr result (self.new ≡ self.old) }
        ensures inline { length self.old < 3 → IsOk result }
    {
        match self.items.push(lit) {
            Ok(()) => Ok(()),
            Err(_) => Err(AllocError),
        }
    }

    /// The literals.
    pub fn as_slice(&self) -> &[Lit]
        ensures { result.now ≡ self.now }
    {
        self.items.as_slice()
    }

    /// An equal list.
    pub fn copy(&self) -> Result<Lits, NoMemory>
        ensures ok { IfOk result (λ r. r ≡ self.now) }
        ensures inline { length self.now ≤ 3 → IsOk result }
    {
        let items = SmallVec::from_slice(*self.items.allocator(), self.items.as_slice())?;
        Ok(Lits { items })
    }

    /// Whether two lists are equal.
    pub fn same(&self, other: &Lits) -> bool
        ensures { IsTrue result ↔ (self.now ≡ other.now) }
    {
        let mine = self.as_slice();
        let others = other.as_slice();
        if mine.len() != others.len() {
            return false;
        }
        for i in 0..mine.len() {
            if mine[i] != others[i] {
                return false;
            }
        }
        true
    }

    /// Whether each variable is one of those from 1 to `vars`.
    pub fn are_in_range(&self, vars: u32) -> bool
        ensures { result ≡ list_all (in_range vars) self.now }
    {
        self.as_slice().iter().all(|lit| lit.is_in_range(vars))
    }
}
