//! Costs in binary and in unary.

ghost use Rattle.std.specs.Prelude.{◌≡◌, ◌+◌, ℕ, Bool, List, None, min, pos, map, IfOk};
ghost use Rattle.bit_words.specs.Logic.{Extends};
ghost use Rattle.sym_cost.specs.Notations.{HasRoom, HasWidth, IsCostIn, IsNotedIn, Spells, Writes};

use crate::counters::{counters_sum, raised_counter};
use bit_words::NoMemory;
use bit_words::bitwise::zeros;
use bit_words::logic::Logic;
use bit_words::number::number_word;
use bit_words::sums::add;
use bit_words::word::Word;
use std::alloc::Global;

/// The number of bits of a cost in binary.
const WIDTH: usize = 14;

/// The greatest cost that is written in binary.
const MOST: u32 = 4096;

/// How a cost is written as bits: in two's complement, or as a counter of at most so many bits.
#[derive(Clone, Copy, Drop)]
pub enum Notation {
    Binary,
    Unary(usize),
}

impl Notation {
    /// The number of bits of the cost 0.
    fn least_width(self) -> usize
        ensures { HasWidth self result }
    {
        match self {
            Notation::Binary => WIDTH,
            Notation::Unary(_) => 0,
        }
    }
}

/// The bits of a cost, if it has any; else those of 0.
pub fn written<L: Logic>(
    alloc: Global,
    g: &L,
    notation: Notation,
    cost: Option<Word<L::Bit>>,
) -> Result<Word<L::Bit>, NoMemory>
    requires { IsCostIn L.owns g.now notation cost }
    ensures made { IfOk result (λ r. IsNotedIn L.owns g.now notation r) }
    ensures value { IfOk result (λ r. (vs : List Bool) (n : ℕ)
        → Writes (L.reads g.now vs) notation cost n
        → Spells notation (map (L.reads g.now vs) r) n) }
{
    match cost {
        Some(word) => Ok(word),
        None => {
            let word = nothing(alloc, g, notation)?;
            Ok(word)
        }
    }
}

/// The bits of the cost 0.
fn nothing<L: Logic>(alloc: Global, g: &L, notation: Notation) -> Result<Word<L::Bit>, NoMemory>
    ensures made { IfOk result (λ r. IsNotedIn L.owns g.now notation r) }
    ensures value { IfOk result (λ r. (vs : List Bool)
        → Spells notation (map (L.reads g.now vs) r) 0) }
{
    let word = zeros(alloc, g, notation.least_width())?;
    Ok(word)
}

/// The sum of two costs.
pub fn sum<L: Logic>(
    alloc: Global,
    g: &mut L,
    notation: Notation,
    a: &Word<L::Bit>,
    b: &Word<L::Bit>,
) -> Result<Word<L::Bit>, NoMemory>
    requires left { IsNotedIn L.owns g.old notation a.now }
    requires right { IsNotedIn L.owns g.old notation b.now }
    ensures extends { Extends L.owns L.reads L.count g.old g.new }
    ensures made { IfOk result (λ r. IsNotedIn L.owns g.new notation r) }
    ensures value { IfOk result (λ r. (vs : List Bool) (m n : ℕ) → HasRoom notation (m + n)
        → Spells notation (map (L.reads g.old vs) a.now) m
        → Spells notation (map (L.reads g.old vs) b.now) n
        → Spells notation (map (L.reads g.new vs) r) (m + n)) }
{
    match notation {
        Notation::Binary => {
            let sum = add(alloc, g, a, b)?;
            Ok(sum.word)
        }
        Notation::Unary(bound) => {
            let sum = counters_sum(alloc, g, bound, a, b)?;
            Ok(sum)
        }
    }
}

/// The sum of two costs, either of which may have no bits. Nothing is made for one that has none.
pub fn sum_of_both<L: Logic>(
    alloc: Global,
    g: &mut L,
    notation: Notation,
    a: Option<Word<L::Bit>>,
    b: Option<Word<L::Bit>>,
) -> Result<Option<Word<L::Bit>>, NoMemory>
    requires left { IsCostIn L.owns g.old notation a }
    requires right { IsCostIn L.owns g.old notation b }
    ensures extends { Extends L.owns L.reads L.count g.old g.new }
    ensures untouched { b ≡ None → g.new ≡ g.old }
    ensures same { IfOk result (λ r. b ≡ None → r ≡ a) }
    ensures made { IfOk result (λ r. IsCostIn L.owns g.new notation r) }
    ensures value { IfOk result (λ r. (vs : List Bool) (m n : ℕ) → HasRoom notation (m + n)
        → Writes (L.reads g.old vs) notation a m → Writes (L.reads g.old vs) notation b n
        → Writes (L.reads g.new vs) notation r (m + n)) }
{
    match (a, b) {
        (None, other) => Ok(other),
        (first, None) => Ok(first),
        (Some(first), Some(second)) => {
            let both = sum(alloc, g, notation, &first, &second)?;
            Ok(Some(both))
        }
    }
}

/// A cost as a number, or the greatest that is written.
fn number_of(cost: u32) -> i32
    ensures { result ≡ pos (min cost 4096) }
{
    cost.min(MOST) as i32
}

/// A given cost more.
pub fn raised<L: Logic>(
    alloc: Global,
    g: &mut L,
    notation: Notation,
    cost: u32,
    inner: &Word<L::Bit>,
) -> Result<Word<L::Bit>, NoMemory>
    requires { IsNotedIn L.owns g.old notation inner.now }
    ensures extends { Extends L.owns L.reads L.count g.old g.new }
    ensures made { IfOk result (λ r. IsNotedIn L.owns g.new notation r) }
    ensures value { IfOk result (λ r. (vs : List Bool) (n : ℕ) → HasRoom notation (cost + n)
        → Spells notation (map (L.reads g.old vs) inner.now) n
        → Spells notation (map (L.reads g.new vs) r) (cost + n)) }
{
    match notation {
        Notation::Binary => {
            let own = number_word(alloc, g, number_of(cost), WIDTH)?;
            let sum = add(alloc, g, &own.word, inner)?;
            Ok(sum.word)
        }
        Notation::Unary(bound) => {
            let sum = raised_counter(alloc, g, bound, cost, inner)?;
            Ok(sum)
        }
    }
}
