//! The least types of slots.
ghost use Rattle.std.specs.Prelude.{◌≡◌, length, map, IfOk};
ghost use Rattle.mpy_tree.specs.View.{routine_of};
ghost use Rattle.mpy_tree.specs.Faults.{slots};
ghost use Rattle.mpy_types.specs.Passes.{types_from, IsStep, IsPass, AreLeast, are_none};
ghost use Rattle.mpy_types.specs.Views.{place_of};

use crate::inflow::{Inflow, Source};
use crate::slots::Place;
use crate::table::type_at;
use mpy_tree::{NoMemory, TypeSet};
use std::alloc::Global;

/// The least types of so many slots that keep what flows into them.
///
/// Each pass but the last gives a slot a type, and types go on from slot to slot in each: at most
/// twice as many passes as there are slots, and one more, over the flows, which are numbers alone.
pub fn least_types(
    alloc: Global,
    places: &[Place<'_>],
    inflows: &[Inflow],
) -> Result<Vec<TypeSet>, NoMemory>
    ensures { IfOk result (λ v. AreLeast v.items (length places.now) inflows.now) }
{
    let mut sets = no_types(alloc, places)?;
    'passes: loop {
        if !pass(&mut sets, inflows) {
            return Ok(sets);
        }
    }
}

// No types of each of so many slots.
fn no_types(alloc: Global, places: &[Place<'_>]) -> Result<Vec<TypeSet>, NoMemory>
    ensures { IfOk result (λ v. v.items ≡ are_none places.now) }
{
    let mut sets = Vec::new(alloc);
    for _place in places {
        sets.push(TypeSet::NONE)?;
    }
    Ok(sets)
}

// Takes in what flows into each slot, and whether a type was new.
fn pass(sets: &mut Vec<TypeSet>, inflows: &[Inflow]) -> bool
    ensures { IsPass result sets.old.items sets.new.items inflows.now (length inflows.now) }
{
    let mut risen = false;
    for f in inflows {
        if step(sets, *f) {
            risen = true;
        }
    }
    risen
}

// Takes in what flows into a slot, and whether a type was new.
fn step(sets: &mut Vec<TypeSet>, f: Inflow) -> bool
    ensures { IsStep result sets.old.items sets.new.items f }
{
    let types = types_from(sets, f.from);
    match sets.get(f.to) {
        None => false,
        Some(before) => {
            if types.is_within(*before) {
                return false;
            }
            sets[f.to] = before.join(types);
            true
        }
    }
}

// The types of a source.
fn types_from(sets: &[TypeSet], from: Source) -> TypeSet
    ensures { result ≡ types_from sets.now from }
{
    match from {
        Source::Fixed(types) => types,
        Source::Slot(via, k) => via.through(type_at(sets, k)),
    }
}
