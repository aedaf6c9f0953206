//! A list of facts, as a set.
ghost use Rattle.std.specs.Prelude.{◌≡◌};
ghost use Rattle.mpy_tree.specs.declared.typing.Slot.{Slot};
ghost use Rattle.mpy_tree.specs.declared.typing.Slot.TheVariants as slot;
ghost use Rattle.mpy_tree.specs.Typings.{set_of};
ghost use Rattle.mpy_tree.specs.SetTypes.{same_slot, same_place};
ghost use Rattle.mpy_scopes.specs.Seen.{slot_of};

use crate::known::Known;
use mpy_scopes::Target;
use mpy_tree::{Fact, Name, Slot, TypeSet};

/// The facts of a list.
#[derive(Clone, Copy, Drop)]
pub struct FactList<'a> {
    pub facts: &'a [Fact],
}

impl FactList<'_> {
    // The types of a slot.
    fn get(&self, func: usize, slot: Target<'_>) -> TypeSet
        ensures { result ≡ set_of self.now.facts.now func (slot_of slot.entry) }
    {
        let mut types = TypeSet::NONE;
        for fact in self.facts {
            if fact.func as usize == func && is_slot(&fact.slot, slot) {
                types = types.join(TypeSet::just(fact.ty));
            }
        }
        types
    }
}

// Whether the two are one slot.
fn is_slot(slot: &Slot, target: Target<'_>) -> bool
    ensures { result ≡ same_slot slot.now (slot_of target.entry) }
{
    match (slot, target) {
        (Slot::Local(x), Target::Local(y)) => x.is(y),
        (Slot::Result, Target::Result) => true,
        _ => false,
    }
}

impl Known for FactList<'_> {
    ghost gives = { λ k. set_of k.facts.now };

    fn local(&self, func: usize, x: &Name) -> TypeSet {
        self.get(func, Target::Local(x))
    }

    fn result(&self, func: usize) -> TypeSet {
        self.get(func, Target::Result)
    }
}
