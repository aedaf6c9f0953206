//! Numbers within a range.

ghost use Rattle.std.specs.Prelude.{◌≡◌, ◌<◌, ◌≤◌, ◌^◌, Bool, List, true, drop, length, map, IfOk};
ghost use Rattle.std.specs.List.{list_all};
ghost use Rattle.std.specs.Ordering.{int_eq};
ghost use Rattle.bit_words.specs.Logic.{Extends, OwnsAll};
ghost use Rattle.bit_words.specs.Operations.{folded};
ghost use Rattle.bit_words.specs.Results.{IsWordIn};
ghost use Rattle.bit_words.specs.Words.{fits, int_read, is_negative};
ghost use Rattle.input_ranges.specs.Bits.{is_bit};
ghost use Rattle.input_space.specs.Inputs.{is_between};

use crate::high_bits::{KnownBits, with_high};
use bit_words::NoMemory;
use bit_words::bits::Bits;
use bit_words::compare::{equal, less};
use bit_words::logic::Logic;
use bit_words::number::number_word;
use bit_words::word::Word;
use std::alloc::Global;

fn is_below_zero(number: i32) -> bool
    ensures { result ≡ is_negative number }
{
    number < 0
}

// The size of a number or, below zero, of its complement.
fn folded_size(number: i32) -> u32
    ensures { result ≡ folded number }
{
    if number < 0 {
        number.unsigned_abs() - 1
    } else {
        number.unsigned_abs()
    }
}

/// As few bits as hold a number without a sign.
pub(crate) fn digits_of(number: u32) -> usize
    ensures { number < 2 ^ result }
{
    for digits in 0..32 {
        if number >> digits == 0 {
            return digits;
        }
    }
    32
}

// As few bits as hold the numbers of a range, but for their sign.
fn digits_within(low: i32, high: i32) -> usize
    ensures low { folded low < 2 ^ result }
    ensures high { folded high < 2 ^ result }
{
    let first = digits_of(folded_size(low));
    let second = digits_of(folded_size(high));
    first.max(second)
}

// A digit from which on the numbers of a range have one bit, and that bit.
#[derive(Drop)]
struct HighBit<B: Copy> {
    digits: usize,
    bit: B,
}

fn high_bit<L: Logic>(g: &L, word: &[L::Bit], low: i32, high: i32) -> HighBit<L::Bit>
    requires owned { OwnsAll L.owns g.now word.now }
    ensures few { result.digits ≤ length word.now }
    ensures owned { L.owns g.now result.bit }
    ensures right { (vs : List Bool)
        → is_between low high (int_read L.reads g.now vs word.now) ≡ true
        → list_all (is_bit (L.reads g.now vs result.bit))
        (drop result.digits (map (L.reads g.now vs) word.now)) ≡ true }
{
    let digits = digits_within(low, high);
    let width = word.len();
    if width <= digits {
        let bit = g.constant(false);
        return HighBit { digits: width, bit };
    }
    if is_below_zero(high) {
        let bit = g.constant(true);
        return HighBit { digits, bit };
    }
    if is_below_zero(low) {
        let bit = word[digits];
        let digits = digits + 1;
        return HighBit { digits, bit };
    }
    let bit = g.constant(false);
    HighBit { digits, bit }
}

// Whether a word's number is in a range.
#[tactic(auto, using(bit_words::proofs::Kept::steps))]
fn between<L: Logic>(
    alloc: Global,
    g: &mut L,
    word: &Word<L::Bit>,
    low: i32,
    high: i32,
) -> Result<L::Bit, NoMemory>
    requires some { 0 < length word.now }
    requires low { fits (length word.now) low ≡ true }
    requires high { fits (length word.now) high ≡ true }
    requires owned { OwnsAll L.owns g.old word.now }
    ensures extends { Extends L.owns L.reads L.count g.old g.new }
    ensures owned { IfOk result (λ r. L.owns g.new r) }
    ensures value { IfOk result (λ r. (vs : List Bool) →
        L.reads g.new vs r ≡ is_between low high (int_read L.reads g.old vs word.now)) }
{
    let width = word.len();
    let least = number_word(alloc, g, low, width)?;
    let below = less(alloc, g, word, &least.word)?;
    let not_below = g.not(below);
    let most = number_word(alloc, g, high, width)?;
    let above = less(alloc, g, &most.word, word)?;
    let not_above = g.not(above);
    let inside = g.and(not_below, not_above)?;
    Ok(inside)
}

// A number of a range of several.
#[tactic(auto, using(bit_words::proofs::Kept::steps))]
fn spanned<L: Logic>(
    alloc: Global,
    g: &mut L,
    word: &Word<L::Bit>,
    low: i32,
    high: i32,
) -> Result<KnownBits<L::Bit>, NoMemory>
    requires some { 0 < length word.now }
    requires low { fits (length word.now) low ≡ true }
    requires high { fits (length word.now) high ≡ true }
    requires owned { OwnsAll L.owns g.old word.now }
    ensures extends { Extends L.owns L.reads L.count g.old g.new }
    ensures made { IfOk result (λ r. IsWordIn L.owns g.new (length word.now) r.bits) }
    ensures owned { IfOk result (λ r. L.owns g.new r.within) }
    ensures within { IfOk result (λ r. (vs : List Bool) → L.reads g.new vs r.within
        ≡ is_between low high (int_read L.reads g.old vs word.now)) }
    ensures same { IfOk result (λ r. (vs : List Bool) → L.reads g.new vs r.within ≡ true
        → map (L.reads g.new vs) r.bits ≡ map (L.reads g.old vs) word.now) }
{
    let all = word.as_slice();
    let top = high_bit(g, all, low, high);
    let known = with_high(alloc, g, all, top.digits, top.bit)?;
    let right = known.within;
    let number = Word::from_vec(known.bits.into_vec());
    let inside = between(alloc, g, &number, low, high)?;
    let within = g.and(right, inside)?;
    let bits = Bits::from_vec(number.into_vec());
    Ok(KnownBits { bits, within })
}

// One number.
#[tactic(auto, using(bit_words::proofs::Kept::steps))]
fn single<L: Logic>(
    alloc: Global,
    g: &mut L,
    word: &Word<L::Bit>,
    number: i32,
) -> Result<KnownBits<L::Bit>, NoMemory>
    requires some { 0 < length word.now }
    requires number { fits (length word.now) number ≡ true }
    requires owned { OwnsAll L.owns g.old word.now }
    ensures extends { Extends L.owns L.reads L.count g.old g.new }
    ensures made { IfOk result (λ r. IsWordIn L.owns g.new (length word.now) r.bits) }
    ensures owned { IfOk result (λ r. L.owns g.new r.within) }
    ensures within { IfOk result (λ r. (vs : List Bool) → L.reads g.new vs r.within
        ≡ int_eq (int_read L.reads g.old vs word.now) number) }
    ensures same { IfOk result (λ r. (vs : List Bool) → L.reads g.new vs r.within ≡ true
        → map (L.reads g.new vs) r.bits ≡ map (L.reads g.old vs) word.now) }
{
    let width = word.len();
    let constant = number_word(alloc, g, number, width)?;
    let within = equal(alloc, g, word, &constant.word)?;
    let bits = Bits::from_vec(constant.word.into_vec());
    Ok(KnownBits { bits, within })
}

/// A number with what its range fixes, and whether it is in the range.
#[tactic(auto, using(bit_words::proofs::Kept::steps))]
pub fn ranged_number<L: Logic>(
    alloc: Global,
    g: &mut L,
    word: &Word<L::Bit>,
    low: i32,
    high: i32,
) -> Result<KnownBits<L::Bit>, NoMemory>
    requires some { 0 < length word.now }
    requires low { fits (length word.now) low ≡ true }
    requires high { fits (length word.now) high ≡ true }
    requires owned { OwnsAll L.owns g.old word.now }
    ensures extends { Extends L.owns L.reads L.count g.old g.new }
    ensures made { IfOk result (λ r. IsWordIn L.owns g.new (length word.now) r.bits) }
    ensures owned { IfOk result (λ r. L.owns g.new r.within) }
    ensures within { IfOk result (λ r. (vs : List Bool) → L.reads g.new vs r.within
        ≡ is_between low high (int_read L.reads g.old vs word.now)) }
    ensures same { IfOk result (λ r. (vs : List Bool) → L.reads g.new vs r.within ≡ true
        → map (L.reads g.new vs) r.bits ≡ map (L.reads g.old vs) word.now) }
{
    if low == high {
        let known = single(alloc, g, word, low)?;
        return Ok(known);
    }
    let known = spanned(alloc, g, word, low, high)?;
    Ok(known)
}
