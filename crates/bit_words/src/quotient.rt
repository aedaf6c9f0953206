//! Floor division and its remainder.

ghost use Rattle.std.specs.Prelude.{◌≡◌, ◌+◌, ◌-◌, ◌/◌, ◌^◌, ◌<◌, ◌≤◌, Bool, true, false, List};
ghost use Rattle.std.specs.Prelude.{nat_eq, length, IfOk, not};
ghost use Rattle.bit_words.specs.Logic.{Extends, OwnsAll};
ghost use Rattle.bit_words.specs.Words.{bit_value, nat_read};
ghost use Rattle.bit_words.specs.Operations.{IsDivided};

use crate::NoMemory;
use crate::bitwise::{choose_word, flip, zeros};
use crate::logic::Logic;
use crate::sums::carry_sum;
use crate::word::Word;
use std::alloc::Global;

/// Whether a word reads as 0: whether it can be taken from 0 without a sign.
///
/// A division's steps over leading zeros make the same gates.
#[tactic(auto, using(crate::proofs::Kept::steps))]
pub fn is_zero<L: Logic>(alloc: Global, g: &mut L, b: &Word<L::Bit>) -> Result<L::Bit, NoMemory>
    requires word { OwnsAll L.owns g.old b.now }
    ensures extends { Extends L.owns L.reads L.count g.old g.new }
    ensures owned { IfOk result (λ r. L.owns g.new r) }
    ensures value { IfOk result (λ r. (vs : List Bool) →
        L.reads g.new vs r ≡ nat_eq (nat_read L.reads g.old vs b.now) 0) }
{
    let width = b.len();
    let nothing = zeros(alloc, g, width)?;
    let flipped = flip(alloc, g, b)?;
    let yes = g.constant(true);
    let (_, carry) = carry_sum(alloc, g, &nothing, &flipped, yes, width)?;
    Ok(carry)
}

/// What is left of a number with one digit more, and whether the divisor was taken from it.
///
/// The digit of the quotient is the carry of the difference. It is false where the divisor is 0.
#[tactic(auto, using(crate::proofs::Kept::steps))]
fn divide_digit<L: Logic>(
    alloc: Global,
    g: &mut L,
    rest: &Word<L::Bit>,
    digit: L::Bit,
    b: &Word<L::Bit>,
    some: L::Bit,
) -> Result<(Word<L::Bit>, L::Bit), NoMemory>
    requires long { 0 < length rest.now }
    requires alike { length b.now ≡ length rest.now }
    requires rest { OwnsAll L.owns g.old rest.now }
    requires digit { L.owns g.old digit }
    requires divisor { OwnsAll L.owns g.old b.now }
    requires some { L.owns g.old some }
    ensures extends { Extends L.owns L.reads L.count g.old g.new }
    ensures owned { IfOk result (λ r. OwnsAll L.owns g.new r.0) }
    ensures owned_digit { IfOk result (λ r. L.owns g.new r.1) }
    ensures width { IfOk result (λ r. length r.0 ≡ length b.now) }
    ensures none { IfOk result (λ r. (vs : List Bool) → L.reads g.old vs some ≡ false
        → L.reads g.new vs r.1 ≡ false) }
    ensures value { IfOk result (λ r. (vs : List Bool) → L.reads g.old vs some ≡ true
        → nat_read L.reads g.old vs b.now ≤ 2 ^ (length b.now - 1)
        → nat_read L.reads g.old vs rest.now < nat_read L.reads g.old vs b.now
        → IsDivided (bit_value (L.reads g.old vs digit)
        + (nat_read L.reads g.old vs rest.now + nat_read L.reads g.old vs rest.now))
        (nat_read L.reads g.old vs b.now) (bit_value (L.reads g.new vs r.1))
        (nat_read L.reads g.new vs r.0)) }
{
    let width = b.len();
    let mut shifted = rest.low_bits(width - 1)?;
    shifted.push_low(digit)?;
    let flipped = flip(alloc, g, b)?;
    let yes = g.constant(true);
    let (difference, carry) = carry_sum(alloc, g, &shifted, &flipped, yes, width)?;
    let taken = g.and(carry, some)?;
    let left = choose_word(alloc, g, taken, &difference, &shifted)?;
    Ok((left, taken))
}

/// The quotient and the rest of two words of one width, read without a sign. By 0 the quotient is
/// 0 and the rest is open.
#[tactic(auto, using(crate::proofs::Kept::steps))]
pub fn divide<L: Logic>(
    alloc: Global,
    g: &mut L,
    a: &Word<L::Bit>,
    b: &Word<L::Bit>,
) -> Result<(Word<L::Bit>, Word<L::Bit>), NoMemory>
    requires long { 0 < length a.now }
    requires alike { length b.now ≡ length a.now }
    requires left { OwnsAll L.owns g.old a.now }
    requires right { OwnsAll L.owns g.old b.now }
    requires half { (vs : List Bool) → nat_read L.reads g.old vs b.now ≤ 2 ^ (length b.now - 1) }
    ensures extends { Extends L.owns L.reads L.count g.old g.new }
    ensures owned { IfOk result (λ r. OwnsAll L.owns g.new r.0) }
    ensures owned_rest { IfOk result (λ r. OwnsAll L.owns g.new r.1) }
    ensures width { IfOk result (λ r. length r.0 ≡ length a.now) }
    ensures width_rest { IfOk result (λ r. length r.1 ≡ length a.now) }
    ensures quotient { IfOk result (λ r. (vs : List Bool) →
        nat_read L.reads g.new vs r.0
        ≡ nat_read L.reads g.old vs a.now / nat_read L.reads g.old vs b.now) }
    ensures rest { IfOk result (λ r. (vs : List Bool) → 0 < nat_read L.reads g.old vs b.now
        → IsDivided (nat_read L.reads g.old vs a.now) (nat_read L.reads g.old vs b.now)
        (nat_read L.reads g.new vs r.0) (nat_read L.reads g.new vs r.1)) }
{
    let width = a.len();
    let none = is_zero(alloc, g, b)?;
    let some = g.not(none);
    let mut rest = zeros(alloc, g, width)?;
    let mut quotient = Word::new(alloc);
    for k in 0..width {
        let digit = a.at(width - 1 - k);
        let (left, taken) = divide_digit(alloc, g, &rest, digit, b, some)?;
        rest = left;
        quotient.push_low(taken)?;
    }
    Ok((quotient, rest))
}
