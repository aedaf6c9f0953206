//! Lengths of 5 bits without a sign.

ghost use Rattle.std.specs.Prelude.{◌≡◌, ◌<◌, ◌≤◌, ◌+◌, Bool, true, false, List, length, not, ◌||◌};
ghost use Rattle.std.specs.Prelude.{nat_le, nat_lt, IfOk};
ghost use Rattle.bit_words.specs.Logic.{Extends, OwnsAll};
ghost use Rattle.bit_words.specs.Results.{IsWordIn};
ghost use Rattle.bit_words.specs.Words.{nat_read};

use crate::NoMemory;
use bit_words::bits::Bits;
use bit_words::bitwise::mask;
use bit_words::gates::or;
use bit_words::logic::Logic;
use bit_words::order::less_number;
use bit_words::sums::carry_sum;
use bit_words::word::Word;
use bit_words::words::Words;
use std::alloc::Global;

/// A length, and whether it passes the limit; then it is 0.
#[derive(Drop)]
pub struct CheckedLength<B: Copy> {
    pub len: Bits<B>,
    pub fault: B,
}

/// How many items there are.
pub fn count_of<B: Copy>(items: &Words<B>) -> u32
    requires { length items.now ≤ 16 }
    ensures { result ≡ length items.now }
{
    items.len() as u32
}

/// The same bits as a word.
pub fn as_word<B: Copy>(bits: &Bits<B>) -> Result<Word<B>, NoMemory>
    ensures { IfOk result (λ r. r ≡ bits.now) }
{
    let copy = bits.copy()?;
    Ok(Word::from_vec(copy.into_vec()))
}

/// A number as a length of at most `cap`. It passes that also where it has left its bits.
#[tactic(auto, using(crate::proofs::Held::steps))]
pub fn within_cap<L: Logic>(
    alloc: Global,
    g: &mut L,
    number: &Word<L::Bit>,
    left: L::Bit,
    cap: u32,
) -> Result<CheckedLength<L::Bit>, NoMemory>
    requires small { cap ≤ 16 }
    requires number { OwnsAll L.owns g.old number.now }
    requires left { L.owns g.old left }
    ensures extends { Extends L.owns L.reads L.count g.old g.new }
    ensures made { IfOk result (λ r. IsWordIn L.owns g.new (length number.now) r.len) }
    ensures owned { IfOk result (λ r. L.owns g.new r.fault) }
    ensures fault { IfOk result (λ r. (vs : List Bool) → L.reads g.new vs r.fault
        ≡ (L.reads g.old vs left
        || not (nat_lt (nat_read L.reads g.old vs number.now) (cap + 1)))) }
    ensures value { IfOk result (λ r. (vs : List Bool) → L.reads g.new vs r.fault ≡ false →
        nat_read L.reads g.new vs r.len ≡ nat_read L.reads g.old vs number.now) }
    ensures none { IfOk result (λ r. (vs : List Bool) → L.reads g.new vs r.fault ≡ true →
        nat_read L.reads g.new vs r.len ≡ 0) }
{
    let small = less_number(g, number.as_slice(), cap + 1)?;
    let large = g.not(small);
    let fault = or(g, left, large)?;
    let good = g.not(fault);
    let masked = mask(alloc, g, good, number)?;
    let len = Bits::from_vec(masked.into_vec());
    Ok(CheckedLength { len, fault })
}

/// The sum of two lengths as a length of at most `cap`.
#[tactic(auto, using(crate::proofs::Held::steps))]
pub fn sum_within<L: Logic>(
    alloc: Global,
    g: &mut L,
    a: &Bits<L::Bit>,
    b: &Bits<L::Bit>,
    cap: u32,
) -> Result<CheckedLength<L::Bit>, NoMemory>
    requires small { cap ≤ 16 }
    requires left { IsWordIn L.owns g.old 5 a.now }
    requires right { IsWordIn L.owns g.old 5 b.now }
    ensures extends { Extends L.owns L.reads L.count g.old g.new }
    ensures made { IfOk result (λ r. IsWordIn L.owns g.new 5 r.len) }
    ensures owned { IfOk result (λ r. L.owns g.new r.fault) }
    ensures fault { IfOk result (λ r. (vs : List Bool) → L.reads g.new vs r.fault
        ≡ not (nat_le (nat_read L.reads g.old vs a.now + nat_read L.reads g.old vs b.now) cap)) }
    ensures value { IfOk result (λ r. (vs : List Bool) →
        nat_le (nat_read L.reads g.old vs a.now + nat_read L.reads g.old vs b.now) cap ≡ true →
        nat_read L.reads g.new vs r.len
        ≡ nat_read L.reads g.old vs a.now + nat_read L.reads g.old vs b.now) }
    ensures within { IfOk result (λ r. (vs : List Bool) → nat_read L.reads g.new vs r.len ≤ cap) }
{
    let first = as_word(a)?;
    let second = as_word(b)?;
    let no = g.constant(false);
    let (sum, carry) = carry_sum(alloc, g, &first, &second, no, 5)?;
    let total = within_cap(alloc, g, &sum, carry, cap)?;
    Ok(total)
}

/// A length that is the same under all truth values.
#[tactic(auto, using(crate::proofs::Held::steps))]
pub fn constant_length<L: Logic>(
    alloc: Global,
    g: &L,
    number: u32,
) -> Result<Bits<L::Bit>, NoMemory>
    requires { number < 32 }
    ensures made { IfOk result (λ r. IsWordIn L.owns g.now 5 r) }
    ensures value { IfOk result (λ r. (vs : List Bool) → nat_read L.reads g.now vs r ≡ number) }
{
    let mut bits = Bits::new(alloc);
    let mut rest = number;
    for _ in 0..5usize {
        let digit = g.constant(rest % 2 == 1);
        bits.push(digit)?;
        rest /= 2;
    }
    Ok(bits)
}
