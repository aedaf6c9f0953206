//! One of the items by a number in bits, and items chosen by whether they stand below a number.

ghost use Rattle.std.specs.Prelude.{◌≡◌, ◌<◌, ◌≤◌, ℕ, Bool, List, length, if◌then◌else◌, nat_lt};
ghost use Rattle.std.specs.Prelude.{nat_eq, IfOk, map, replicate, true, false};
ghost use Rattle.bit_words.specs.Logic.{Extends, OwnsAll};
ghost use Rattle.bit_words.specs.Results.{IsWordIn};
ghost use Rattle.bit_words.specs.Words.{nat_read};
ghost use Rattle.bit_lists.specs.Lists.{AreWordsIn, word_at, words_read};

use crate::NoMemory;
use crate::decoder::decoded;
use bit_words::bitwise::{choose_word, zeros};
use bit_words::gates::or;
use bit_words::logic::Logic;
use bit_words::order::{equal_number, less_number};
use bit_words::word::Word;
use bit_words::words::Words;
use std::alloc::Global;

/// Whether a place is below a number.
#[tactic(auto, using(crate::proofs::Held::steps))]
pub fn is_below<L: Logic>(g: &mut L, place: usize, number: &[L::Bit]) -> Result<L::Bit, NoMemory>
    requires small { place < 16 }
    requires owned { OwnsAll L.owns g.old number.now }
    ensures extends { Extends L.owns L.reads L.count g.old g.new }
    ensures owned { IfOk result (λ r. L.owns g.new r) }
    ensures value { IfOk result (λ r. (vs : List Bool) →
        L.reads g.new vs r ≡ nat_lt place (nat_read L.reads g.old vs number.now)) }
{
    let past = less_number(g, number, place as u32 + 1)?;
    Ok(g.not(past))
}

/// Whether a number is a place.
#[tactic(auto, using(crate::proofs::Held::steps))]
pub fn is_place<L: Logic>(g: &mut L, place: usize, number: &[L::Bit]) -> Result<L::Bit, NoMemory>
    requires small { place < 16 }
    requires owned { OwnsAll L.owns g.old number.now }
    ensures extends { Extends L.owns L.reads L.count g.old g.new }
    ensures owned { IfOk result (λ r. L.owns g.new r) }
    ensures value { IfOk result (λ r. (vs : List Bool) →
        L.reads g.new vs r ≡ nat_eq place (nat_read L.reads g.old vs number.now)) }
{
    let same = equal_number(g, number, place as u32)?;
    Ok(same)
}

/// The items below a number from the one list, the others from the other list.
#[tactic(auto, using(crate::proofs::Held::steps))]
pub fn splice<L: Logic>(
    alloc: Global,
    g: &mut L,
    number: &[L::Bit],
    front: &Words<L::Bit>,
    back: &Words<L::Bit>,
) -> Result<Words<L::Bit>, NoMemory>
    ghost width: { ℕ }
    requires small { length front.now ≤ 16 }
    requires alike { length back.now ≡ length front.now }
    requires owned { OwnsAll L.owns g.old number.now }
    requires front { AreWordsIn L.owns g.old width front.now }
    requires back { AreWordsIn L.owns g.old width back.now }
    ensures extends { Extends L.owns L.reads L.count g.old g.new }
    ensures made { IfOk result (λ r. AreWordsIn L.owns g.new width r) }
    ensures many { IfOk result (λ r. length r ≡ length front.now) }
    ensures value { IfOk result (λ r. (vs : List Bool) (k : ℕ) → k < length front.now →
        word_at (words_read L.reads g.new vs r) k
        ≡ (if nat_lt k (nat_read L.reads g.old vs number.now)
        then word_at (words_read L.reads g.old vs front.now) k
        else word_at (words_read L.reads g.old vs back.now) k)) }
{
    let mut spliced = Words::new(alloc);
    for j in 0..front.len() {
        let within = is_below(g, j, number)?;
        let word = choose_word(alloc, g, within, front.at(j), back.at(j))?;
        spliced.push(word)?;
    }
    Ok(spliced)
}

/// A word where a bit is true, and another where it isn't. The other one reads as zeros where the
/// bit is true, so that two gates a bit will do.
#[tactic(auto, using(crate::proofs::Held::steps))]
fn overlaid<L: Logic>(
    alloc: Global,
    g: &mut L,
    test: L::Bit,
    word: &Word<L::Bit>,
    under: &Word<L::Bit>,
) -> Result<Word<L::Bit>, NoMemory>
    requires test { L.owns g.old test }
    requires alike { length under.now ≡ length word.now }
    requires word { OwnsAll L.owns g.old word.now }
    requires under { OwnsAll L.owns g.old under.now }
    ensures extends { Extends L.owns L.reads L.count g.old g.new }
    ensures made { IfOk result (λ r. IsWordIn L.owns g.new (length word.now) r) }
    ensures value { IfOk result (λ r. (vs : List Bool) →
        (L.reads g.old vs test ≡ true →
        map (L.reads g.old vs) under.now ≡ replicate (length word.now) false) →
        map (L.reads g.new vs) r
        ≡ (if L.reads g.old vs test then map (L.reads g.old vs) word.now
        else map (L.reads g.old vs) under.now)) }
{
    let mut overlaid = Word::new(alloc);
    for i in 0..word.len() {
        let both = g.and(test, word.at(i))?;
        let digit = or(g, under.at(i), both)?;
        overlaid.push(digit)?;
    }
    Ok(overlaid)
}

/// The item at the place that a number says, or any bits where none stands there.
#[tactic(auto, using(crate::proofs::Held::steps))]
pub fn item_at<L: Logic>(
    alloc: Global,
    g: &mut L,
    number: &[L::Bit],
    items: &Words<L::Bit>,
) -> Result<Word<L::Bit>, NoMemory>
    ghost width: { ℕ }
    requires some { 0 < length items.now }
    requires number { OwnsAll L.owns g.old number.now }
    requires items { AreWordsIn L.owns g.old width items.now }
    ensures extends { Extends L.owns L.reads L.count g.old g.new }
    ensures made { IfOk result (λ r. IsWordIn L.owns g.new width r) }
    ensures value { IfOk result (λ r. (vs : List Bool) →
        nat_read L.reads g.old vs number.now < length items.now →
        map (L.reads g.new vs) r ≡ word_at (words_read L.reads g.old vs items.now)
        (nat_read L.reads g.old vs number.now)) }
{
    let places = decoded(alloc, g, number, items.len())?;
    let mut item = zeros(alloc, g, items.at(0).len())?;
    for j in 0..items.len() {
        item = overlaid(alloc, g, places.at(j), items.at(j), &item)?;
    }
    Ok(item)
}

/// The items, but for a word at the place that a number says. Where the number isn't a place, the
/// items are open.
#[tactic(auto, using(crate::proofs::Held::steps))]
pub fn with_item<L: Logic>(
    alloc: Global,
    g: &mut L,
    number: &[L::Bit],
    word: &Word<L::Bit>,
    items: &Words<L::Bit>,
) -> Result<Words<L::Bit>, NoMemory>
    ghost width: { ℕ }
    requires number { OwnsAll L.owns g.old number.now }
    requires word { IsWordIn L.owns g.old width word.now }
    requires items { AreWordsIn L.owns g.old width items.now }
    ensures extends { Extends L.owns L.reads L.count g.old g.new }
    ensures made { IfOk result (λ r. AreWordsIn L.owns g.new width r) }
    ensures many { IfOk result (λ r. length r ≡ length items.now) }
    ensures value { IfOk result (λ r. (vs : List Bool) →
        nat_read L.reads g.old vs number.now < length items.now →
        (k : ℕ) → k < length items.now → word_at (words_read L.reads g.new vs r) k
        ≡ (if nat_eq k (nat_read L.reads g.old vs number.now)
        then map (L.reads g.old vs) word.now
        else word_at (words_read L.reads g.old vs items.now) k)) }
{
    let places = decoded(alloc, g, number, items.len())?;
    let mut changed = Words::new(alloc);
    for j in 0..items.len() {
        let item = choose_word(alloc, g, places.at(j), word, items.at(j))?;
        changed.push(item)?;
    }
    Ok(changed)
}
