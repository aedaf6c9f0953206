//! Bits of which all high ones are one bit.

ghost use Rattle.std.specs.Prelude.{◌≡◌, ◌++◌, ◌≤◌, Bool, List, true, drop, length, map, replicate};
ghost use Rattle.std.specs.Prelude.{IfOk};
ghost use Rattle.std.specs.List.{list_all};
ghost use Rattle.bit_words.specs.Logic.{Extends, OwnsAll};
ghost use Rattle.bit_words.specs.Results.{IsWordIn};
ghost use Rattle.input_ranges.specs.Bits.{is_bit};

use bit_words::NoMemory;
use bit_words::bits::Bits;
use bit_words::logic::Logic;
use std::alloc::Global;

/// Bits with what is known of them in their places, and whether that is right, with whatever else
/// was asked of them.
#[derive(Drop)]
pub struct KnownBits<B: Copy> {
    pub bits: Bits<B>,
    pub within: B,
}

// Whether each of some bits is another one.
#[tactic(auto, using(bit_words::proofs::Kept::steps))]
fn all_are<L: Logic>(g: &mut L, bits: &[L::Bit], known: L::Bit) -> Result<L::Bit, NoMemory>
    requires known { L.owns g.old known }
    requires owned { OwnsAll L.owns g.old bits.now }
    ensures extends { Extends L.owns L.reads L.count g.old g.new }
    ensures owned { IfOk result (λ r. L.owns g.new r) }
    ensures value { IfOk result (λ r. (vs : List Bool) → L.reads g.new vs r
        ≡ list_all (is_bit (L.reads g.old vs known)) (map (L.reads g.old vs) bits.now)) }
{
    let mut all = g.constant(true);
    for i in 0..bits.len() {
        let bit = bits[i];
        let other = g.xor(bit, known)?;
        let same = g.not(other);
        all = g.and(all, same)?;
    }
    Ok(all)
}

// Bits, and one more so many times.
fn filled<B: Copy>(alloc: Global, low: &[B], high: B, more: usize) -> Result<Bits<B>, NoMemory>
    ensures { IfOk result (λ r. r ≡ low.now ++ replicate more high) }
{
    let mut bits = Bits::from_vec(Vec::from_slice(alloc, low)?);
    for _ in 0..more {
        bits.push(high)?;
    }
    Ok(bits)
}

/// The lowest digits, and one bit in the place of each other; whether they were that bit.
#[tactic(auto, using(bit_words::proofs::Kept::steps))]
pub(crate) fn with_high<L: Logic>(
    alloc: Global,
    g: &mut L,
    bits: &[L::Bit],
    digits: usize,
    high: L::Bit,
) -> Result<KnownBits<L::Bit>, NoMemory>
    requires few { digits ≤ length bits.now }
    requires high { L.owns g.old high }
    requires owned { OwnsAll L.owns g.old bits.now }
    ensures extends { Extends L.owns L.reads L.count g.old g.new }
    ensures made { IfOk result (λ r. IsWordIn L.owns g.new (length bits.now) r.bits) }
    ensures owned { IfOk result (λ r. L.owns g.new r.within) }
    ensures within { IfOk result (λ r. (vs : List Bool) → L.reads g.new vs r.within
        ≡ list_all (is_bit (L.reads g.old vs high))
        (drop digits (map (L.reads g.old vs) bits.now))) }
    ensures same { IfOk result (λ r. (vs : List Bool) → L.reads g.new vs r.within ≡ true
        → map (L.reads g.new vs) r.bits ≡ map (L.reads g.old vs) bits.now) }
{
    let within = all_are(g, &bits[digits..], high)?;
    let bits = filled(alloc, &bits[..digits], high, bits.len() - digits)?;
    Ok(KnownBits { bits, within })
}
