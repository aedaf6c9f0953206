//! Lengths within a range.

ghost use Rattle.std.specs.Prelude.{◌≡◌, ◌+◌, ◌*◌, ◌<◌, ◌^◌, ◌&&◌, Bool, List, true, length, map};
ghost use Rattle.std.specs.Prelude.{nat_eq, nat_le, IfOk};
ghost use Rattle.bit_words.specs.Logic.{Extends, OwnsAll};
ghost use Rattle.bit_words.specs.Results.{IsWordIn};
ghost use Rattle.bit_words.specs.Words.{nat_read};

use crate::high_bits::{KnownBits, with_high};
use crate::number_ranges::digits_of;
use bit_words::NoMemory;
use bit_words::bits::Bits;
use bit_words::logic::Logic;
use bit_words::order::{equal_number, less_number};
use std::alloc::Global;

// The lowest digits of a number, and what is left of it.
#[tactic(auto, using(bit_words::proofs::Kept::steps))]
fn low_digits<L: Logic>(
    alloc: Global,
    g: &L,
    number: u32,
    count: usize,
) -> Result<(Bits<L::Bit>, u32), NoMemory>
    ensures made { IfOk result (λ r. IsWordIn L.owns g.now count r.0) }
    ensures value { IfOk result (λ r. (vs : List Bool) →
        nat_read L.reads g.now vs r.0 + 2 ^ count * r.1 ≡ number) }
{
    let mut bits = Bits::new(alloc);
    let mut rest = number;
    for _ in 0..count {
        let digit = g.constant(rest % 2 == 1);
        bits.push(digit)?;
        rest /= 2;
    }
    Ok((bits, rest))
}

/// A number without a sign as so many constant bits, which hold it.
pub(crate) fn number_bits<L: Logic>(
    alloc: Global,
    g: &L,
    number: u32,
    count: usize,
) -> Result<Bits<L::Bit>, NoMemory>
    ensures made { IfOk result (λ r. IsWordIn L.owns g.now count r) }
    ensures value { IfOk result (λ r. (vs : List Bool) → number < 2 ^ count
        → nat_read L.reads g.now vs r ≡ number) }
{
    let (bits, _) = low_digits(alloc, g, number, count)?;
    Ok(bits)
}

/// The bits of one length, and whether a length is it.
#[tactic(auto, using(bit_words::proofs::Kept::steps))]
pub fn single_length<L: Logic>(
    alloc: Global,
    g: &mut L,
    len: &[L::Bit],
    number: u32,
) -> Result<KnownBits<L::Bit>, NoMemory>
    requires owned { OwnsAll L.owns g.old len.now }
    ensures extends { Extends L.owns L.reads L.count g.old g.new }
    ensures made { IfOk result (λ r. IsWordIn L.owns g.new (length len.now) r.bits) }
    ensures owned { IfOk result (λ r. L.owns g.new r.within) }
    ensures within { IfOk result (λ r. (vs : List Bool) → L.reads g.new vs r.within
        ≡ nat_eq (nat_read L.reads g.old vs len.now) number) }
    ensures same { IfOk result (λ r. (vs : List Bool) → L.reads g.new vs r.within ≡ true
        → map (L.reads g.new vs) r.bits ≡ map (L.reads g.old vs) len.now) }
{
    let bits = number_bits(alloc, g, number, len.len())?;
    let within = equal_number(g, len, number)?;
    Ok(KnownBits { bits, within })
}

// Whether a length is in a range.
#[tactic(auto, using(bit_words::proofs::Kept::steps))]
fn between<L: Logic>(g: &mut L, len: &[L::Bit], least: u32, most: u32) -> Result<L::Bit, NoMemory>
    requires short { most < 4294967295 }
    requires owned { OwnsAll L.owns g.old len.now }
    ensures extends { Extends L.owns L.reads L.count g.old g.new }
    ensures owned { IfOk result (λ r. L.owns g.new r) }
    ensures value { IfOk result (λ r. (vs : List Bool) → L.reads g.new vs r
        ≡ (nat_le least (nat_read L.reads g.old vs len.now)
        && nat_le (nat_read L.reads g.old vs len.now) most)) }
{
    let below = less_number(g, len, least)?;
    let not_below = g.not(below);
    let not_above = less_number(g, len, most + 1)?;
    let inside = g.and(not_below, not_above)?;
    Ok(inside)
}

// A length of a range of several.
#[tactic(auto, using(bit_words::proofs::Kept::steps))]
fn spanned<L: Logic>(
    alloc: Global,
    g: &mut L,
    len: &[L::Bit],
    least: u32,
    most: u32,
) -> Result<KnownBits<L::Bit>, NoMemory>
    requires short { most < 4294967295 }
    requires owned { OwnsAll L.owns g.old len.now }
    ensures extends { Extends L.owns L.reads L.count g.old g.new }
    ensures made { IfOk result (λ r. IsWordIn L.owns g.new (length len.now) r.bits) }
    ensures owned { IfOk result (λ r. L.owns g.new r.within) }
    ensures within { IfOk result (λ r. (vs : List Bool) → L.reads g.new vs r.within
        ≡ (nat_le least (nat_read L.reads g.old vs len.now)
        && nat_le (nat_read L.reads g.old vs len.now) most)) }
    ensures same { IfOk result (λ r. (vs : List Bool) → L.reads g.new vs r.within ≡ true
        → map (L.reads g.new vs) r.bits ≡ map (L.reads g.old vs) len.now) }
{
    let digits = digits_of(most).min(len.len());
    let zero = g.constant(false);
    let known = with_high(alloc, g, len, digits, zero)?;
    let right = known.within;
    let bits = known.bits;
    let inside = between(g, bits.as_slice(), least, most)?;
    let within = g.and(right, inside)?;
    Ok(KnownBits { bits, within })
}

/// A length with what its range fixes, and whether it is in the range.
#[tactic(auto, using(bit_words::proofs::Kept::steps))]
pub fn ranged_length<L: Logic>(
    alloc: Global,
    g: &mut L,
    len: &[L::Bit],
    least: u32,
    most: u32,
) -> Result<KnownBits<L::Bit>, NoMemory>
    requires short { most < 4294967295 }
    requires owned { OwnsAll L.owns g.old len.now }
    ensures extends { Extends L.owns L.reads L.count g.old g.new }
    ensures made { IfOk result (λ r. IsWordIn L.owns g.new (length len.now) r.bits) }
    ensures owned { IfOk result (λ r. L.owns g.new r.within) }
    ensures within { IfOk result (λ r. (vs : List Bool) → L.reads g.new vs r.within
        ≡ (nat_le least (nat_read L.reads g.old vs len.now)
        && nat_le (nat_read L.reads g.old vs len.now) most)) }
    ensures same { IfOk result (λ r. (vs : List Bool) → L.reads g.new vs r.within ≡ true
        → map (L.reads g.new vs) r.bits ≡ map (L.reads g.old vs) len.now) }
{
    if least == most {
        let known = single_length(alloc, g, len, least)?;
        return Ok(known);
    }
    let known = spanned(alloc, g, len, least, most)?;
    Ok(known)
}
