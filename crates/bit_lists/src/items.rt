//! The item at an index, and a list with another item there.

ghost use Rattle.std.specs.Prelude.{◌≡◌, ◌<◌, ◌≤◌, ◌+◌, ℕ, Bool, List, length, map, not, ◌||◌, pos};
ghost use Rattle.std.specs.Prelude.{IfOk};
ghost use Rattle.std.specs.Int.Signed.{lt_z};
ghost use Rattle.mpy_tree.specs.Operations.{index_in};
ghost use Rattle.bit_words.specs.Logic.{Extends, OwnsAll};
ghost use Rattle.bit_words.specs.Results.{IsWordIn};
ghost use Rattle.bit_words.specs.Words.{int_read, is_negative, nat_read};
ghost use Rattle.bit_lists.specs.Lists.{IsListIn, IsProper, list_read};
ghost use Rattle.bit_lists.specs.Places.{ItemIs, PutIs};

use crate::NoMemory;
use crate::choices::{item_at, with_item};
use crate::lists::{CheckedList, ListParts};
use crate::places::{place, wide_index, wide_length};
use bit_words::bits::Bits;
use bit_words::compare::less;
use bit_words::gates::or;
use bit_words::logic::Logic;
use bit_words::magnitude::sign_of;
use bit_words::word::Word;
use std::alloc::Global;

/// A word, and whether there is none.
#[derive(Drop)]
pub struct CheckedWord<B: Copy> {
    pub word: Word<B>,
    pub fault: B,
}

/// Whether an index, or the place that it says, lies outside of a list.
#[tactic(auto, using(crate::proofs::Held::steps))]
fn is_outside<L: Logic>(
    alloc: Global,
    g: &mut L,
    index: &Word<L::Bit>,
    place: &Word<L::Bit>,
    len: &Bits<L::Bit>,
) -> Result<L::Bit, NoMemory>
    requires some { 0 < length index.now }
    requires few { length index.now ≤ 16 }
    requires index { OwnsAll L.owns g.old index.now }
    requires wide { 0 < length place.now }
    requires place { OwnsAll L.owns g.old place.now }
    requires len { IsWordIn L.owns g.old 5 len.now }
    ensures extends { Extends L.owns L.reads L.count g.old g.new }
    ensures owned { IfOk result (λ r. L.owns g.new r) }
    ensures value { IfOk result (λ r. (vs : List Bool) → L.reads g.new vs r
        ≡ (is_negative (int_read L.reads g.old vs place.now)
        || not (lt_z (int_read L.reads g.old vs index.now)
        (pos (nat_read L.reads g.old vs len.now))))) }
{
    let wide = wide_index(g, index)?;
    let number = wide_length(alloc, g, len, wide.len())?;
    let within = less(alloc, g, &wide, &number)?;
    let past = g.not(within);
    let negative = sign_of(g, place);
    let outside = or(g, negative, past)?;
    Ok(outside)
}

/// The item at an index, which counts from the end below zero. Whether there is none is the fault.
#[tactic(auto, using(crate::proofs::Held::steps))]
pub fn index<L: Logic>(
    alloc: Global,
    g: &mut L,
    a: &ListParts<'_, L::Bit>,
    index: &Word<L::Bit>,
) -> Result<CheckedWord<L::Bit>, NoMemory>
    ghost width: { ℕ }
    requires some { 0 < length a.now.items.now }
    requires few { length a.now.items.now ≤ 16 }
    requires list { IsListIn L.owns g.old width (length a.now.items.now) a.now.len.now
        a.now.items.now }
    requires wide { 0 < length index.now }
    requires short { length index.now ≤ 16 }
    requires index { OwnsAll L.owns g.old index.now }
    ensures extends { Extends L.owns L.reads L.count g.old g.new }
    ensures made { IfOk result (λ r. IsWordIn L.owns g.new width r.word) }
    ensures owned { IfOk result (λ r. L.owns g.new r.fault) }
    ensures value { IfOk result (λ r. (vs : List Bool) →
        IsProper L.reads g.old vs a.now.len.now a.now.items.now →
        ItemIs (L.reads g.new vs r.fault) (map (L.reads g.new vs) r.word)
        (list_read L.reads g.old vs a.now.len.now a.now.items.now)
        (index_in (int_read L.reads g.old vs index.now)
        (length (list_read L.reads g.old vs a.now.len.now a.now.items.now)))) }
{
    let spot = place(alloc, g, index, a.len)?;
    let fault = is_outside(alloc, g, index, &spot, a.len)?;
    let word = item_at(alloc, g, spot.as_slice(), a.items)?;
    Ok(CheckedWord { word, fault })
}

/// The list with another item at an index, which counts from the end below zero. Whether there is
/// no item is the fault; the list stays proper.
#[tactic(auto, using(crate::proofs::Held::steps))]
pub fn put<L: Logic>(
    alloc: Global,
    g: &mut L,
    a: &ListParts<'_, L::Bit>,
    index: &Word<L::Bit>,
    word: &Word<L::Bit>,
) -> Result<CheckedList<L::Bit>, NoMemory>
    requires few { length a.now.items.now ≤ 16 }
    requires list { IsListIn L.owns g.old (length word.now) (length a.now.items.now) a.now.len.now
        a.now.items.now }
    requires wide { 0 < length index.now }
    requires short { length index.now ≤ 16 }
    requires index { OwnsAll L.owns g.old index.now }
    requires word { OwnsAll L.owns g.old word.now }
    ensures extends { Extends L.owns L.reads L.count g.old g.new }
    ensures made { IfOk result (λ r.
        IsListIn L.owns g.new (length word.now) (length a.now.items.now) r.len r.items) }
    ensures owned { IfOk result (λ r. L.owns g.new r.fault) }
    ensures length { IfOk result (λ r. (vs : List Bool) →
        nat_read L.reads g.new vs r.len ≡ nat_read L.reads g.old vs a.now.len.now) }
    ensures value { IfOk result (λ r. (vs : List Bool) →
        IsProper L.reads g.old vs a.now.len.now a.now.items.now →
        PutIs (L.reads g.new vs r.fault) (list_read L.reads g.new vs r.len r.items)
        (list_read L.reads g.old vs a.now.len.now a.now.items.now) (map (L.reads g.old vs) word.now)
        (index_in (int_read L.reads g.old vs index.now)
        (length (list_read L.reads g.old vs a.now.len.now a.now.items.now)))) }
{
    let spot = place(alloc, g, index, a.len)?;
    let fault = is_outside(alloc, g, index, &spot, a.len)?;
    let items = with_item(alloc, g, spot.as_slice(), word, a.items)?;
    let len = a.len.copy()?;
    Ok(CheckedList { len, items, fault })
}
