//! The items over which a `for` goes.

ghost use Rattle.std.specs.Prelude.{◌≡◌, ◌<◌, ◌≤◌, Bool, List, [], ◌∷◌, Option, Some, drop, IfOk};
ghost use Rattle.std.specs.Prelude.{length, option_to_list};
ghost use Rattle.mpy_tree.specs.declared.typing.Ty.{Ty};
ghost use Rattle.mpy_tree.specs.declared.value.Value.{Value};
ghost use Rattle.mpy_tree.specs.Values.{State};
ghost use Rattle.bit_words.specs.Logic.{Extends};
ghost use Rattle.list_values.specs.Sequences.{IsSequenceIn, item_form, items_of};
ghost use Rattle.sym_values.specs.Forms.{form_for};
ghost use Rattle.sym_paths.specs.Items.{entering, leaving, staying};
ghost use Rattle.sym_paths.specs.Paths.{way, ways, gone_way, reached, HoldsPath, HoldsPaths};
ghost use Rattle.sym_paths.specs.Slots.{slot_forms, type_among};
ghost use Rattle.sym_blocks.specs.Turns.{ItemsRead};

use bit_words::NoMemory;
use bit_words::logic::Logic;
use list_values::turns::{has_item, item_at};
use mpy_tree::Name;
use std::alloc::Global;
use sym_paths::assign::assign;
use sym_paths::split::{Sides, split};
use sym_paths::{Path, Slots};
use sym_values::SymValue;

/// A list or a text, and the local that is set to its items in turn.
#[derive(Drop)]
pub struct Over<'a, B: Copy> {
    pub name: &'a Name,
    pub list: &'a SymValue<B>,
}

/// A place among the items of a list or a text, and the local that is set to the item there.
#[derive(Drop)]
pub struct Item<'a, B: Copy> {
    pub name: &'a Name,
    pub list: &'a SymValue<B>,
    pub place: usize,
}

/// The path on which there is an item at a place, and the one on which there is none.
pub fn more_items<L: Logic>(
    g: &mut L,
    slots: &Slots,
    path: Path<L::Bit>,
    list: &SymValue<L::Bit>,
    place: usize,
) -> Result<Sides<L::Bit>, NoMemory>
    requires path { HoldsPath L.owns g.old (slot_forms slots.now) path }
    requires list { IsSequenceIn L.owns g.old list.now }
    requires place { place ≤ length (items_of list.now) }
    ensures extends { Extends L.owns L.reads L.count g.old g.new }
    ensures held_yes { IfOk result (λ r.
        HoldsPaths L.owns g.new (slot_forms slots.now) (option_to_list r.yes)) }
    ensures held_no { IfOk result (λ r.
        HoldsPaths L.owns g.new (slot_forms slots.now) (option_to_list r.no)) }
    ensures yes { IfOk result (λ r. (vs : List Bool) (o : Option State) (ms : List Value)
        → gone_way slots.now (way (L.reads g.old vs) path ∷ []) ≡ reached o
        → ItemsRead (L.reads g.old vs) list.now o ms
        → gone_way slots.now (ways (L.reads g.new vs) (option_to_list r.yes))
        ≡ reached (staying o (drop place ms))) }
    ensures no { IfOk result (λ r. (vs : List Bool) (o : Option State) (ms : List Value)
        → gone_way slots.now (way (L.reads g.old vs) path ∷ []) ≡ reached o
        → ItemsRead (L.reads g.old vs) list.now o ms
        → gone_way slots.now (ways (L.reads g.new vs) (option_to_list r.no))
        ≡ reached (leaving o (drop place ms))) }
{
    let more = has_item(g, list, place)?;
    let never = g.constant(false);
    let sides = split(g, slots, path, never, more)?;
    Ok(sides)
}

/// The path on which a local is the item at a place.
pub fn next_item<L: Logic>(
    alloc: Global,
    g: &L,
    slots: &Slots,
    path: Path<L::Bit>,
    item: &Item<'_, L::Bit>,
) -> Result<Path<L::Bit>, NoMemory>
    requires path { HoldsPath L.owns g.now (slot_forms slots.now) path }
    requires list { IsSequenceIn L.owns g.now item.now.list.now }
    requires place { item.now.place < length (items_of item.now.list.now) }
    requires typed { (t : Ty)
        × (type_among slots.now.names slots.now.types item.now.name.now ≡ Some t)
        × (item_form item.now.list.now ≡ form_for slots.now.limits t) }
    ensures held { IfOk result (λ r. HoldsPath L.owns g.now (slot_forms slots.now) r) }
    ensures value { IfOk result (λ r. (vs : List Bool) (o : Option State) (ms : List Value)
        → gone_way slots.now (way (L.reads g.now vs) path ∷ [])
        ≡ reached (staying o (drop item.now.place ms))
        → ItemsRead (L.reads g.now vs) item.now.list.now o ms
        → gone_way slots.now (way (L.reads g.now vs) r ∷ [])
        ≡ reached (entering o item.now.name.now (drop item.now.place ms))) }
{
    let value = item_at(alloc, g, item.list, item.place)?;
    Ok(assign(g, slots, path, item.name, value))
}
