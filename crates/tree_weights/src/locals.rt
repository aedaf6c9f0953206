//! What the locals of a function weigh.
ghost use Rattle.std.specs.Prelude.{◌≡◌, ◌≤◌, ◌*◌, length};
ghost use Rattle.std.specs.List.{list_any};
ghost use Rattle.mpy_tree.specs.declared.typing.Slot.TheVariants as slot;
ghost use Rattle.mpy_tree.specs.SetTypes.{same_place, same_slot};
ghost use Rattle.tree_weights.specs.Weights.{is_local_of, locals_weight};

use crate::amounts::bits;
use mpy_tree::{Fact, Limits, Name, Slot};

/// The weight of the locals of a function, by its number, to which facts give types.
pub fn locals_weight(limits: &Limits, number: usize, facts: &[Fact]) -> u128
    ensures weight { result ≡ locals_weight limits.now number facts.now }
    ensures small { result ≤ 262 * length facts.now }
{
    let mut total = 0u128;
    for (i, fact) in facts.iter().enumerate() {
        if is_local_of(number, fact, &facts[i + 1..]) {
            total += bits(limits, fact.ty) + 1;
        }
    }
    total
}

// Whether a fact is of a local of the function, and none of the others is of that local.
fn is_local_of(number: usize, fact: &Fact, others: &[Fact]) -> bool
    ensures { result ≡ is_local_of number fact.now others.now }
{
    match &fact.slot {
        Slot::Result => false,
        Slot::Local(x) => fact.func as usize == number && !has_local(others, fact.func, x),
    }
}

// Whether there is a fact of a local of a function.
fn has_local(facts: &[Fact], func: u32, x: &Name) -> bool
    ensures { result ≡ list_any (λ g. same_place func (slot.Local x.now) g.func g.slot) facts.now }
{
    for fact in facts {
        if fact.func == func && is_local(&fact.slot, x) {
            return true;
        }
    }
    false
}

// Whether it is the slot of the local.
fn is_local(other: &Slot, x: &Name) -> bool
    ensures { result ≡ same_slot (slot.Local x.now) other.now }
{
    match other {
        Slot::Local(y) => x.is(y),
        Slot::Result => false,
    }
}
