//! Truth values, one for each variable.

ghost use Rattle.std.specs.Prelude.{◌≡◌, ◌<◌, ◌≤◌, [], ◌∷◌, ◌++◌, OnOk, OnErr, IfOk, length};
ghost use Rattle.std.specs.Prelude.{slice_get, Some};
ghost use Rattle.clause_base.specs.Literals.{clause_true, literal_true, IsCovered};

use crate::NoMemory;
use crate::clause::Clause;
use crate::lit::Lit;
use std::alloc::Global;
use std::marker::Model;

/// A list of truth values: the first is that of variable 1.
#[derive(Drop)]
pub struct Truths {
    items: Vec<bool>,
}

impl Model for Truths {
    ghost use Rattle.std.specs.Prelude.{List, Bool};

    ghost Value = { List Bool };

    ghost view = { λ s. s.items.items };
}

impl Truths {
    /// The list of no values.
    pub fn new(alloc: Global) -> Self
        ensures { result ≡ [] }
    {
        Truths {
            items: Vec::new(alloc),
        }
    }

    /// The list of these values.
    pub fn from_vec(items: Vec<bool>) -> Self
        ensures { result ≡ items.items }
    {
        Truths { items }
    }

    /// The values.
    pub fn into_vec(self) -> Vec<bool>
        ensures { result.items ≡ self }
    {
        self.items
    }

    /// The number of values.
    pub fn len(&self) -> usize
        ensures { result ≡ length self.now }
    {
        self.items.len()
    }

    /// The value at a place, counted from 0.
    pub fn at(&self, i: usize) -> bool
        requires { i < length self.now }
        ensures { slice_get self.now i ≡ Some result }
    {
        self.items[i]
    }

    /// Adds a value at the end. Where memory is wanting the list stays as it was.
    pub fn push(&mut self, value: bool) -> Result<(), NoMemory>
        ensures ok { OnOk result (self.new ≡ self.old ++ value ∷ []) }
        ensures err { OnErr result (self.new ≡ self.old) }
    {
        self.items.push(value)?;
        Ok(())
    }

    /// An equal list.
    pub fn copy(&self) -> Result<Truths, NoMemory>
        ensures { IfOk result (λ r. r ≡ self.now) }
    {
        let items = Vec::from_slice(*self.items.allocator(), self.items.as_slice())?;
        Ok(Truths { items })
    }
}

fn literal_holds(values: &[bool], lit: Lit) -> bool
    requires some { 0 < lit.var }
    requires within { lit.var ≤ length values.now }
    ensures { result ≡ literal_true values.now lit }
{
    values[lit.var as usize - 1] == lit.positive
}

/// Whether the values make one of the literals true. They cover each variable of the clause.
pub fn clause_holds(c: &Clause, t: &Truths) -> bool
    requires { IsCovered (length t.now) c.now.lits }
    ensures { result ≡ clause_true t.now c.now.lits }
{
    let values = t.items.as_slice();
    for lit in c.lits.as_slice() {
        if literal_holds(values, *lit) {
            return true;
        }
    }
    false
}
