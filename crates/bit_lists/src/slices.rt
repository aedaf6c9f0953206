//! The items of a list between two ends.

ghost use Rattle.std.specs.Prelude.{◌≡◌, ◌<◌, ◌≤◌, ◌-◌, ℕ, Bool, List, length, IfOk, IfSome};
ghost use Rattle.mpy_tree.specs.Operations.{cut, cut_at, end_or};
ghost use Rattle.bit_words.specs.Logic.{Extends, OwnsAll};
ghost use Rattle.bit_words.specs.Results.{IsWordIn};
ghost use Rattle.bit_words.specs.Words.{int_read, nat_read};
ghost use Rattle.bit_lists.specs.Lists.{IsListIn, IsProper, list_read};
ghost use Rattle.bit_lists.specs.Places.{from_front};
ghost use Rattle.bit_lists.specs.Slices.{clamp, end_read, low_end};

use crate::NoMemory;
use crate::lengths::constant_length;
use crate::lists::{BitList, ListParts};
use crate::places::{place, wide_length};
use crate::shifts::{Direction, moved};
use bit_words::bits::Bits;
use bit_words::bitwise::{choose_bits, mask};
use bit_words::compare::less;
use bit_words::logic::Logic;
use bit_words::magnitude::sign_of;
use bit_words::sums::sub;
use bit_words::word::Word;
use std::alloc::Global;

/// The number of bits of a length.
const LENGTH_BITS: usize = 5;

/// The greatest number of so many bits.
pub const MOST: u32 = 31;

/// A number as a length: 0 below zero, and at most a limit.
#[tactic(auto, using(crate::proofs::Held::steps))]
pub fn clamped<L: Logic>(
    alloc: Global,
    g: &mut L,
    number: &Word<L::Bit>,
    limit: &Bits<L::Bit>,
) -> Result<Bits<L::Bit>, NoMemory>
    requires wide { 6 ≤ length number.now }
    requires number { OwnsAll L.owns g.old number.now }
    requires limit { IsWordIn L.owns g.old 5 limit.now }
    ensures extends { Extends L.owns L.reads L.count g.old g.new }
    ensures made { IfOk result (λ r. IsWordIn L.owns g.new 5 r) }
    ensures value { IfOk result (λ r. (vs : List Bool) → nat_read L.reads g.new vs r
        ≡ clamp (int_read L.reads g.old vs number.now) (nat_read L.reads g.old vs limit.now)) }
{
    let most = wide_length(alloc, g, limit, number.len())?;
    let past = less(alloc, g, &most, number)?;
    let low = number.low_bits(LENGTH_BITS)?;
    let negative = sign_of(g, number);
    let some = g.not(negative);
    let kept = mask(alloc, g, some, &low)?;
    let end = choose_bits(alloc, g, past, limit.as_slice(), kept.as_slice())?;
    Ok(end)
}

/// An end of a slice: the place that an index says, from 0 to a limit.
#[tactic(auto, using(crate::proofs::Held::steps))]
fn clamped_place<L: Logic>(
    alloc: Global,
    g: &mut L,
    index: &Word<L::Bit>,
    len: &Bits<L::Bit>,
    limit: &Bits<L::Bit>,
) -> Result<Bits<L::Bit>, NoMemory>
    requires some { 0 < length index.now }
    requires few { length index.now ≤ 16 }
    requires index { OwnsAll L.owns g.old index.now }
    requires len { IsWordIn L.owns g.old 5 len.now }
    requires limit { IsWordIn L.owns g.old 5 limit.now }
    ensures extends { Extends L.owns L.reads L.count g.old g.new }
    ensures made { IfOk result (λ r. IsWordIn L.owns g.new 5 r) }
    ensures value { IfOk result (λ r. (vs : List Bool) → nat_read L.reads g.new vs r
        ≡ clamp (from_front (int_read L.reads g.old vs index.now)
        (nat_read L.reads g.old vs len.now)) (nat_read L.reads g.old vs limit.now)) }
{
    let spot = place(alloc, g, index, len)?;
    let end = clamped(alloc, g, &spot, limit)?;
    Ok(end)
}

/// The place that an index says, as the low end of a slice.
#[tactic(auto, using(crate::proofs::Held::steps))]
fn lower_at<L: Logic>(
    alloc: Global,
    g: &mut L,
    index: &Word<L::Bit>,
    len: &Bits<L::Bit>,
) -> Result<Bits<L::Bit>, NoMemory>
    requires some { 0 < length index.now }
    requires few { length index.now ≤ 16 }
    requires index { OwnsAll L.owns g.old index.now }
    requires len { IsWordIn L.owns g.old 5 len.now }
    ensures extends { Extends L.owns L.reads L.count g.old g.new }
    ensures made { IfOk result (λ r. IsWordIn L.owns g.new 5 r) }
    ensures value { IfOk result (λ r. (vs : List Bool) → nat_read L.reads g.new vs r
        ≡ clamp (from_front (int_read L.reads g.old vs index.now)
        (nat_read L.reads g.old vs len.now)) 31) }
{
    let most = constant_length(alloc, g, MOST)?;
    let end = clamped_place(alloc, g, index, len, &most)?;
    Ok(end)
}

/// The place that an index says, as the high end of a slice.
#[tactic(auto, using(crate::proofs::Held::steps))]
fn upper_at<L: Logic>(
    alloc: Global,
    g: &mut L,
    index: &Word<L::Bit>,
    len: &Bits<L::Bit>,
) -> Result<Bits<L::Bit>, NoMemory>
    requires some { 0 < length index.now }
    requires few { length index.now ≤ 16 }
    requires index { OwnsAll L.owns g.old index.now }
    requires len { IsWordIn L.owns g.old 5 len.now }
    ensures extends { Extends L.owns L.reads L.count g.old g.new }
    ensures made { IfOk result (λ r. IsWordIn L.owns g.new 5 r) }
    ensures value { IfOk result (λ r. (vs : List Bool) → nat_read L.reads g.new vs r
        ≡ cut_at (int_read L.reads g.old vs index.now) (nat_read L.reads g.old vs len.now)) }
{
    let end = clamped_place(alloc, g, index, len, len)?;
    Ok(end)
}

/// The low end of a slice. It isn't compared with the length, so that a constant end moves the
/// items by wires alone.
#[tactic(auto, using(crate::proofs::Held::steps))]
pub fn lower<L: Logic>(
    alloc: Global,
    g: &mut L,
    from: Option<&Word<L::Bit>>,
    len: &Bits<L::Bit>,
) -> Result<Bits<L::Bit>, NoMemory>
    requires some { IfSome from (λ w. 0 < length w.now) }
    requires few { IfSome from (λ w. length w.now ≤ 16) }
    requires from { IfSome from (λ w. OwnsAll L.owns g.old w.now) }
    requires len { IsWordIn L.owns g.old 5 len.now }
    ensures extends { Extends L.owns L.reads L.count g.old g.new }
    ensures made { IfOk result (λ r. IsWordIn L.owns g.new 5 r) }
    ensures value { IfOk result (λ r. (vs : List Bool) → nat_read L.reads g.new vs r
        ≡ low_end (end_read L.reads g.old vs from.entry) (nat_read L.reads g.old vs len.now)) }
{
    match from {
        None => constant_length(alloc, g, 0),
        Some(index) => lower_at(alloc, g, index, len),
    }
}

/// The high end of a slice.
#[tactic(auto, using(crate::proofs::Held::steps))]
pub fn upper<L: Logic>(
    alloc: Global,
    g: &mut L,
    to: Option<&Word<L::Bit>>,
    len: &Bits<L::Bit>,
) -> Result<Bits<L::Bit>, NoMemory>
    requires some { IfSome to (λ w. 0 < length w.now) }
    requires few { IfSome to (λ w. length w.now ≤ 16) }
    requires to { IfSome to (λ w. OwnsAll L.owns g.old w.now) }
    requires len { IsWordIn L.owns g.old 5 len.now }
    ensures extends { Extends L.owns L.reads L.count g.old g.new }
    ensures made { IfOk result (λ r. IsWordIn L.owns g.new 5 r) }
    ensures value { IfOk result (λ r. (vs : List Bool) → nat_read L.reads g.new vs r
        ≡ end_or (nat_read L.reads g.old vs len.now) (end_read L.reads g.old vs to.entry)
        (nat_read L.reads g.old vs len.now)) }
{
    match to {
        None => len.copy(),
        Some(index) => upper_at(alloc, g, index, len),
    }
}

/// How far the one length is above the other, and 0 where it is below.
#[tactic(auto, using(crate::proofs::Held::steps))]
pub fn gap<L: Logic>(
    alloc: Global,
    g: &mut L,
    low: &Bits<L::Bit>,
    high: &Bits<L::Bit>,
) -> Result<Bits<L::Bit>, NoMemory>
    requires low { IsWordIn L.owns g.old 5 low.now }
    requires high { IsWordIn L.owns g.old 5 high.now }
    ensures extends { Extends L.owns L.reads L.count g.old g.new }
    ensures made { IfOk result (λ r. IsWordIn L.owns g.new 5 r) }
    ensures value { IfOk result (λ r. (vs : List Bool) → nat_read L.reads g.new vs r
        ≡ nat_read L.reads g.old vs high.now - nat_read L.reads g.old vs low.now) }
{
    let above = wide_length(alloc, g, high, LENGTH_BITS + 1)?;
    let below = wide_length(alloc, g, low, LENGTH_BITS + 1)?;
    let difference = sub(alloc, g, &above, &below)?;
    let most = constant_length(alloc, g, MOST)?;
    let number = clamped(alloc, g, &difference.word, &most)?;
    Ok(number)
}

/// The items from one end to another. An end below zero counts from the list's end; a missing one
/// is the list's start or end.
#[tactic(auto, using(crate::proofs::Held::steps))]
pub fn slice<L: Logic>(
    alloc: Global,
    g: &mut L,
    a: &ListParts<'_, L::Bit>,
    from: Option<&Word<L::Bit>>,
    to: Option<&Word<L::Bit>>,
) -> Result<BitList<L::Bit>, NoMemory>
    ghost width: { ℕ }
    requires few { length a.now.items.now ≤ 16 }
    requires list { IsListIn L.owns g.old width (length a.now.items.now) a.now.len.now
        a.now.items.now }
    requires wide_from { IfSome from (λ w. 0 < length w.now) }
    requires short_from { IfSome from (λ w. length w.now ≤ 16) }
    requires from { IfSome from (λ w. OwnsAll L.owns g.old w.now) }
    requires wide_to { IfSome to (λ w. 0 < length w.now) }
    requires short_to { IfSome to (λ w. length w.now ≤ 16) }
    requires to { IfSome to (λ w. OwnsAll L.owns g.old w.now) }
    ensures extends { Extends L.owns L.reads L.count g.old g.new }
    ensures made { IfOk result (λ r.
        IsListIn L.owns g.new width (length a.now.items.now) r.len r.items) }
    ensures proper { IfOk result (λ r. (vs : List Bool) →
        IsProper L.reads g.old vs a.now.len.now a.now.items.now →
        IsProper L.reads g.new vs r.len r.items) }
    ensures value { IfOk result (λ r. (vs : List Bool) →
        IsProper L.reads g.old vs a.now.len.now a.now.items.now →
        list_read L.reads g.new vs r.len r.items
        ≡ cut (list_read L.reads g.old vs a.now.len.now a.now.items.now)
        (end_read L.reads g.old vs from.entry) (end_read L.reads g.old vs to.entry)) }
{
    let low = lower(alloc, g, from, a.len)?;
    let high = upper(alloc, g, to, a.len)?;
    let len = gap(alloc, g, &low, &high)?;
    let items = moved(alloc, g, low.as_slice(), Direction::Down, a.items)?;
    Ok(BitList { len, items })
}
