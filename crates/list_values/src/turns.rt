//! The items that a `for` goes over, one a turn.

ghost use Rattle.std.specs.Prelude.{◌≡◌, ◌<◌, ◌≤◌, Bool, List, length, nat_lt, IfOk, Some};
ghost use Rattle.std.specs.Prelude.{slice_get};
ghost use Rattle.std.specs.declared.result.Result.TheVariants.{Ok};
ghost use Rattle.mpy_tree.specs.Operations.{members};
ghost use Rattle.mpy_tree.specs.declared.value.Value.{Value};
ghost use Rattle.bit_words.specs.Logic.{Extends};
ghost use Rattle.sym_values.specs.Reading.{read, sure};
ghost use Rattle.sym_values.specs.Results.{IsValueIn};
ghost use Rattle.list_values.specs.Sequences.{IsSequenceIn, item_form, items_of};

use crate::items::as_item;
use crate::views::parts_of;
use bit_words::NoMemory;
use bit_words::logic::Logic;
use bit_words::order::less_number;
use std::alloc::Global;
use sym_values::SymValue;

/// Whether a list or a text has an item at a place. Of one with a constant length that takes no
/// gate.
pub fn has_item<L: Logic>(g: &mut L, a: &SymValue<L::Bit>, place: usize) -> Result<L::Bit, NoMemory>
    requires list { IsSequenceIn L.owns g.old a.now }
    requires place { place ≤ length (items_of a.now) }
    ensures extends { Extends L.owns L.reads L.count g.old g.new }
    ensures owned { IfOk result (λ r. L.owns g.new r) }
    ensures value { IfOk result (λ r. (vs : List Bool) (v : Value) (ms : List Value) →
        read (L.reads g.old vs) a.now ≡ sure v → members v ≡ Ok ms
        → L.reads g.new vs r ≡ nat_lt place (length ms)) }
{
    let list = parts_of(a);
    let short = less_number(g, list.len.as_slice(), place as u32 + 1)?;
    Ok(g.not(short))
}

/// The item at a place.
pub fn item_at<L: Logic>(
    alloc: Global,
    g: &L,
    a: &SymValue<L::Bit>,
    place: usize,
) -> Result<SymValue<L::Bit>, NoMemory>
    requires list { IsSequenceIn L.owns g.now a.now }
    requires place { place < length (items_of a.now) }
    ensures made { IfOk result (λ r. IsValueIn L.owns g.now (item_form a.now) r) }
    ensures value { IfOk result (λ r. (vs : List Bool) (v w : Value) (ms : List Value) →
        read (L.reads g.now vs) a.now ≡ sure v → members v ≡ Ok ms
        → slice_get ms place ≡ Some w → read (L.reads g.now vs) r ≡ sure w) }
{
    let list = parts_of(a);
    let word = list.items.at(place).copy()?;
    let item = as_item(alloc, g, a, word)?;
    Ok(item)
}
