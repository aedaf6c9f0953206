//! A list over and over.

ghost use Rattle.std.specs.Prelude.{◌≡◌, ◌<◌, ◌≤◌, ◌*◌, ◌%◌, ℕ, Bool, true, List, length, not, min};
ghost use Rattle.std.specs.Prelude.{nat_le, if◌then◌else◌, IfOk};
ghost use Rattle.mpy_tree.specs.Operations.{copy_count, repeated};
ghost use Rattle.bit_words.specs.Logic.{Extends, OwnsAll};
ghost use Rattle.bit_words.specs.Results.{IsWordIn};
ghost use Rattle.bit_words.specs.Words.{int_read, nat_read};
ghost use Rattle.bit_lists.specs.Lists.{AreWordsIn, IsListIn, IsProper, list_read, ReadsWithin};
ghost use Rattle.bit_lists.specs.Lists.{word_at, words_read};

use crate::NoMemory;
use crate::choices::is_place;
use crate::lengths::{CheckedLength, as_word, constant_length, count_of, within_cap};
use crate::lists::{CheckedList, ListParts};
use crate::places::wide_index;
use crate::slices::{MOST, clamped};
use bit_words::bits::Bits;
use bit_words::bitwise::choose_word;
use bit_words::logic::Logic;
use bit_words::product::product;
use bit_words::word::Word;
use bit_words::words::Words;
use std::alloc::Global;

/// After how many items a list starts again, and whether it does.
#[derive(Clone, Copy)]
struct Lap<B: Copy> {
    here: B,
    count: usize,
}

/// The first items over and over where a bit is true, and other items where it isn't.
#[tactic(auto, using(crate::proofs::Held::steps))]
fn wrapped_where<L: Logic>(
    alloc: Global,
    g: &mut L,
    lap: Lap<L::Bit>,
    items: &Words<L::Bit>,
    others: &Words<L::Bit>,
) -> Result<Words<L::Bit>, NoMemory>
    ghost width: { ℕ }
    requires some { 0 < lap.count }
    requires within { lap.count ≤ length items.now }
    requires alike { length others.now ≡ length items.now }
    requires here { L.owns g.old lap.here }
    requires items { AreWordsIn L.owns g.old width items.now }
    requires others { AreWordsIn L.owns g.old width others.now }
    ensures extends { Extends L.owns L.reads L.count g.old g.new }
    ensures made { IfOk result (λ r. AreWordsIn L.owns g.new width r) }
    ensures many { IfOk result (λ r. length r ≡ length items.now) }
    ensures value { IfOk result (λ r. (vs : List Bool) (k : ℕ) → k < length items.now →
        word_at (words_read L.reads g.new vs r) k
        ≡ (if L.reads g.old vs lap.here
        then word_at (words_read L.reads g.old vs items.now) (k % lap.count)
        else word_at (words_read L.reads g.old vs others.now) k)) }
{
    let mut wrapped = Words::new(alloc);
    for j in 0..items.len() {
        let word = choose_word(alloc, g, lap.here, items.at(j % lap.count), others.at(j))?;
        wrapped.push(word)?;
    }
    Ok(wrapped)
}

/// The items within a length over and over.
#[tactic(auto, using(crate::proofs::Held::steps))]
fn wrapped<L: Logic>(
    alloc: Global,
    g: &mut L,
    len: &Bits<L::Bit>,
    items: &Words<L::Bit>,
) -> Result<Words<L::Bit>, NoMemory>
    ghost width: { ℕ }
    requires few { length items.now ≤ 16 }
    requires len { IsWordIn L.owns g.old 5 len.now }
    requires items { AreWordsIn L.owns g.old width items.now }
    ensures extends { Extends L.owns L.reads L.count g.old g.new }
    ensures made { IfOk result (λ r. AreWordsIn L.owns g.new width r) }
    ensures many { IfOk result (λ r. length r ≡ length items.now) }
    ensures value { IfOk result (λ r. (vs : List Bool) (k : ℕ) → k < length items.now →
        0 < nat_read L.reads g.old vs len.now →
        nat_read L.reads g.old vs len.now ≤ length items.now →
        word_at (words_read L.reads g.new vs r) k
        ≡ word_at (words_read L.reads g.old vs items.now)
        (k % nat_read L.reads g.old vs len.now)) }
{
    let mut wrapped = items.copy()?;
    for count in 1..items.len() {
        let here = is_place(g, count, len.as_slice())?;
        wrapped = wrapped_where(alloc, g, Lap { here, count }, items, &wrapped)?;
    }
    Ok(wrapped)
}

/// How often a number repeats a list: never below zero, and at most 31 times.
#[tactic(auto, using(crate::proofs::Held::steps))]
fn times_of<L: Logic>(
    alloc: Global,
    g: &mut L,
    number: &Word<L::Bit>,
) -> Result<Bits<L::Bit>, NoMemory>
    requires some { 0 < length number.now }
    requires few { length number.now ≤ 16 }
    requires number { OwnsAll L.owns g.old number.now }
    ensures extends { Extends L.owns L.reads L.count g.old g.new }
    ensures made { IfOk result (λ r. IsWordIn L.owns g.new 5 r) }
    ensures value { IfOk result (λ r. (vs : List Bool) → nat_read L.reads g.new vs r
        ≡ min (copy_count (int_read L.reads g.old vs number.now)) 31) }
{
    let wide = wide_index(g, number)?;
    let most = constant_length(alloc, g, MOST)?;
    let times = clamped(alloc, g, &wide, &most)?;
    Ok(times)
}

/// The product of two lengths as a length of at most `cap`.
#[tactic(auto, using(crate::proofs::Held::steps))]
fn product_within<L: Logic>(
    alloc: Global,
    g: &mut L,
    a: &Bits<L::Bit>,
    b: &Bits<L::Bit>,
    cap: u32,
) -> Result<CheckedLength<L::Bit>, NoMemory>
    requires small { cap ≤ 16 }
    requires left { IsWordIn L.owns g.old 5 a.now }
    requires right { IsWordIn L.owns g.old 5 b.now }
    ensures extends { Extends L.owns L.reads L.count g.old g.new }
    ensures made { IfOk result (λ r. IsWordIn L.owns g.new 5 r.len) }
    ensures owned { IfOk result (λ r. L.owns g.new r.fault) }
    ensures fault { IfOk result (λ r. (vs : List Bool) → L.reads g.new vs r.fault
        ≡ not (nat_le (nat_read L.reads g.old vs a.now * nat_read L.reads g.old vs b.now) cap)) }
    ensures value { IfOk result (λ r. (vs : List Bool) →
        nat_le (nat_read L.reads g.old vs a.now * nat_read L.reads g.old vs b.now) cap ≡ true →
        nat_read L.reads g.new vs r.len
        ≡ nat_read L.reads g.old vs a.now * nat_read L.reads g.old vs b.now) }
    ensures within { IfOk result (λ r. (vs : List Bool) → nat_read L.reads g.new vs r.len ≤ cap) }
{
    let first = as_word(a)?;
    let second = as_word(b)?;
    let size = product(alloc, g, &first, &second)?;
    let total = within_cap(alloc, g, &size.word, size.over, cap)?;
    Ok(total)
}

/// The items of a list so many times over, where the items can hold them. Below 1 there are none.
#[tactic(auto, using(crate::proofs::Held::steps))]
pub fn repeat<L: Logic>(
    alloc: Global,
    g: &mut L,
    a: &ListParts<'_, L::Bit>,
    number: &Word<L::Bit>,
) -> Result<CheckedList<L::Bit>, NoMemory>
    ghost width: { ℕ }
    requires few { length a.now.items.now ≤ 16 }
    requires list { IsListIn L.owns g.old width (length a.now.items.now) a.now.len.now
        a.now.items.now }
    requires wide { 0 < length number.now }
    requires short { length number.now ≤ 16 }
    requires number { OwnsAll L.owns g.old number.now }
    ensures extends { Extends L.owns L.reads L.count g.old g.new }
    ensures made { IfOk result (λ r.
        IsListIn L.owns g.new width (length a.now.items.now) r.len r.items) }
    ensures owned { IfOk result (λ r. L.owns g.new r.fault) }
    ensures proper { IfOk result (λ r. (vs : List Bool) → IsProper L.reads g.new vs r.len r.items) }
    ensures value { IfOk result (λ r. (vs : List Bool) →
        IsProper L.reads g.old vs a.now.len.now a.now.items.now →
        ReadsWithin (length a.now.items.now) (L.reads g.new vs r.fault)
        (list_read L.reads g.new vs r.len r.items)
        (repeated (list_read L.reads g.old vs a.now.len.now a.now.items.now)
        (int_read L.reads g.old vs number.now))) }
{
    let cap = count_of(a.items);
    let times = times_of(alloc, g, number)?;
    let total = product_within(alloc, g, a.len, &times, cap)?;
    let items = wrapped(alloc, g, a.len, a.items)?;
    Ok(CheckedList {
        len: total.len,
        items,
        fault: total.fault,
    })
}
