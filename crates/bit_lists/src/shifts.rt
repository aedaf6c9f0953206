//! Lists of words moved by a number in bits.

ghost use Rattle.std.specs.Prelude.{◌≡◌, ◌<◌, ◌≤◌, ℕ, Bool, List, length, if◌then◌else◌, IfOk};
ghost use Rattle.bit_words.specs.Logic.{Extends, OwnsAll};
ghost use Rattle.bit_words.specs.Words.{nat_read};
ghost use Rattle.bit_lists.specs.Lists.{AreWordsIn, word_at, words_read};
ghost use Rattle.bit_lists.specs.Moves.{source, IsMoved};

use crate::NoMemory;
use bit_words::bitwise::choose_word;
use bit_words::logic::Logic;
use bit_words::words::Words;
use std::alloc::Global;

/// Where the items of a list go.
#[derive(Clone, Copy)]
pub enum Direction {
    /// Towards the end, off which they fall.
    Up,
    /// Towards the front.
    Down,
}

/// By how many places the items go, and where.
#[derive(Clone, Copy)]
struct Step {
    direction: Direction,
    by: usize,
}

/// The place from which the item at a place comes; where none comes there, it stays.
fn source_of(direction: Direction, by: usize, count: usize, place: usize) -> usize
    requires by { by ≤ 16 }
    requires within { place < count }
    requires few { count ≤ 16 }
    ensures value { result ≡ source direction by count place }
    ensures within { result < count }
{
    match direction {
        Direction::Up => { if place < by { place } else { place - by } }
        Direction::Down => {
            if place + by < count {
                place + by
            } else {
                place
            }
        }
    }
}

/// The items moved by a constant where a bit is true.
#[tactic(auto, using(crate::proofs::Held::steps))]
fn moved_where<L: Logic>(
    alloc: Global,
    g: &mut L,
    test: L::Bit,
    step: Step,
    items: &Words<L::Bit>,
) -> Result<Words<L::Bit>, NoMemory>
    ghost width: { ℕ }
    requires by { step.by ≤ 16 }
    requires few { length items.now ≤ 16 }
    requires test { L.owns g.old test }
    requires items { AreWordsIn L.owns g.old width items.now }
    ensures extends { Extends L.owns L.reads L.count g.old g.new }
    ensures made { IfOk result (λ r. AreWordsIn L.owns g.new width r) }
    ensures many { IfOk result (λ r. length r ≡ length items.now) }
    ensures value { IfOk result (λ r. (vs : List Bool) (k : ℕ) → k < length items.now →
        word_at (words_read L.reads g.new vs r) k
        ≡ (if L.reads g.old vs test
        then word_at (words_read L.reads g.old vs items.now)
        (source step.direction step.by (length items.now) k)
        else word_at (words_read L.reads g.old vs items.now) k)) }
{
    let count = items.len();
    let mut moved = Words::new(alloc);
    for j in 0..count {
        let from = source_of(step.direction, step.by, count, j);
        let word = choose_word(alloc, g, test, items.at(from), items.at(j))?;
        moved.push(word)?;
    }
    Ok(moved)
}

/// The items moved by a number of 5 bits.
#[tactic(auto, using(crate::proofs::Held::steps))]
pub fn moved<L: Logic>(
    alloc: Global,
    g: &mut L,
    number: &[L::Bit],
    direction: Direction,
    items: &Words<L::Bit>,
) -> Result<Words<L::Bit>, NoMemory>
    ghost width: { ℕ }
    requires digits { length number.now ≡ 5 }
    requires few { length items.now ≤ 16 }
    requires number { OwnsAll L.owns g.old number.now }
    requires items { AreWordsIn L.owns g.old width items.now }
    ensures extends { Extends L.owns L.reads L.count g.old g.new }
    ensures made { IfOk result (λ r. AreWordsIn L.owns g.new width r) }
    ensures many { IfOk result (λ r. length r ≡ length items.now) }
    ensures value { IfOk result (λ r. (vs : List Bool) →
        IsMoved direction (nat_read L.reads g.old vs number.now)
        (words_read L.reads g.old vs items.now) (words_read L.reads g.new vs r)) }
{
    let mut moved = items.copy()?;
    let mut by = 1;
    for i in 0..number.len() {
        let digit = number[i];
        moved = moved_where(alloc, g, digit, Step { direction, by }, &moved)?;
        by *= 2;
    }
    Ok(moved)
}
