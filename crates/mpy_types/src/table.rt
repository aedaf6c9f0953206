//! A table of facts.
ghost use Rattle.std.specs.Prelude.{◌≡◌};
ghost use Rattle.mpy_scopes.specs.Seen.{slot_of};
ghost use Rattle.mpy_types.specs.Tables.{facts_of, type_at};

use crate::known::Known;
use mpy_scopes::{Scopes, Target};
use mpy_tree::{Name, TypeSet};

/// The types of each slot, by its number.
#[derive(Drop)]
pub struct Table<'s, 'a> {
    pub scopes: &'s Scopes<'a>,
    pub sets: Vec<TypeSet>,
}

impl Table<'_, '_> {
    /// The types of a slot.
    pub fn get(&self, func: usize, slot: Target<'_>) -> TypeSet
        ensures { result ≡ facts_of self.now func (slot_of slot.entry) }
    {
        match self.scopes.number(func, slot) {
            None => TypeSet::NONE,
            Some(k) => type_at(&self.sets, k),
        }
    }
}

/// The types at a number, which are none beyond the last.
pub fn type_at(sets: &[TypeSet], k: usize) -> TypeSet
    ensures { result ≡ type_at sets.now k }
{
    match sets.get(k) {
        None => TypeSet::NONE,
        Some(types) => *types,
    }
}

impl Known for Table<'_, '_> {
    ghost gives = { facts_of };

    fn local(&self, func: usize, x: &Name) -> TypeSet {
        self.get(func, Target::Local(x))
    }

    fn result(&self, func: usize) -> TypeSet {
        self.get(func, Target::Result)
    }
}
