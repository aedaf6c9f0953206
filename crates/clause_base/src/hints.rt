//! The hints of a step.

ghost use Rattle.std.specs.Prelude.{◌≡◌, ◌≤◌, length, IfOk};

use crate::NoMemory;
use std::alloc::{AllocError, Global};
use std::marker::Model;

/// How many hints a step has at most.
const MOST_HINTS: usize = 2147483647;

/// Numbers of clauses, from 1 on, in the order in which they are looked at, at most 2147483647. The
/// list is stored at its exact length: of a long log the hints are most.
#[derive(Drop)]
pub struct Hints {
    items: Vec<u32>,
}

impl Model for Hints {
    ghost use Rattle.std.specs.Prelude.{◌≤◌, List, ℕ, length};

    ghost Value = { List ℕ };

    ghost view = { λ s. s.items.items };

    ghost invariant = { λ s. length s.items.items ≤ 2147483647 };
}

impl Hints {
    /// The list of these numbers. More than 2147483647 are want of memory.
    pub fn from_slice(alloc: Global, hints: &[u32]) -> Result<Hints, NoMemory>
        ensures { IfOk result (λ r. r ≡ hints.now) }
    {
        if hints.len() > MOST_HINTS {
            return Err(AllocError);
        }
        let items = Vec::from_slice(alloc, hints)?;
        Ok(Hints { items })
    }

    /// The list of these numbers.
    pub fn from_vec(items: Vec<u32>) -> Hints
        requires { length items.items ≤ 2147483647 }
        ensures { result ≡ items.items }
    {
        Hints { items }
    }

    /// The numbers.
    pub fn into_vec(self) -> Vec<u32>
        ensures value { result.items ≡ self }
        ensures few { length self ≤ 2147483647 }
    {
        self.items
    }

    /// The numbers.
    pub fn as_slice(&self) -> &[u32]
        ensures value { result.now ≡ self.now }
        ensures few { length self.now ≤ 2147483647 }
    {
        self.items.as_slice()
    }

    /// An equal list.
    pub fn copy(&self) -> Result<Hints, NoMemory>
        ensures { IfOk result (λ r. r ≡ self.now) }
    {
        let items = Vec::from_slice(*self.items.allocator(), self.items.as_slice())?;
        Ok(Hints { items })
    }
}
