//! Floor division and its remainder.

ghost use Rattle.std.specs.Prelude.{◌≡◌, ◌≢◌, ◌+◌, ◌/◌, ◌<◌, pos, Bool, List, nat_eq, length, IfOk};
ghost use Rattle.std.specs.Int.RustNames.{unsigned_abs};
ghost use Rattle.std.specs.Ordering.{int_eq};
ghost use Rattle.bit_words.specs.Logic.{Extends, OwnsAll};
ghost use Rattle.bit_words.specs.Results.{IsPartialIn, IsWordIn};
ghost use Rattle.bit_words.specs.Words.{int_read, nat_read, is_negative, Holds, OverflowsAs};
ghost use Rattle.bit_words.specs.Operations.{IsDivided, by_positive, floor_quotient};
ghost use Rattle.bit_words.specs.Operations.{floor_remainder, folded, unfolded};

use crate::NoMemory;
use crate::bitwise::{flip_where, mask};
use crate::checked::Partial;
use crate::logic::Logic;
use crate::magnitude::{magnitude, negate_where, sign_of};
use crate::narrow::narrow;
use crate::quotient::{divide, is_zero};
use crate::sums::signed_sum;
use crate::word::Word;
use std::alloc::Global;

/// A division by a positive number, without signs: below zero the dividend's complement is divided,
/// and the complement of the quotient is the quotient rounded towards minus infinity.
#[derive(Drop)]
struct Divided<B: Copy> {
    quotient: Word<B>,
    rest: Word<B>,
    /// Whether the dividend is below zero.
    sign: B,
    /// Whether the divisor is 0.
    none: B,
}

/// Divides one word by another of its width, with the signs of both changed where the divisor is
/// below zero.
#[tactic(auto, using(crate::proofs::Kept::steps))]
fn divide_folded<L: Logic>(
    alloc: Global,
    g: &mut L,
    a: &Word<L::Bit>,
    b: &Word<L::Bit>,
) -> Result<Divided<L::Bit>, NoMemory>
    requires long { 0 < length a.now }
    requires alike { length b.now ≡ length a.now }
    requires left { OwnsAll L.owns g.old a.now }
    requires right { OwnsAll L.owns g.old b.now }
    ensures extends { Extends L.owns L.reads L.count g.old g.new }
    ensures owned { IfOk result (λ r. OwnsAll L.owns g.new r.quotient) }
    ensures owned_rest { IfOk result (λ r. OwnsAll L.owns g.new r.rest) }
    ensures owned_sign { IfOk result (λ r. L.owns g.new r.sign) }
    ensures owned_none { IfOk result (λ r. L.owns g.new r.none) }
    ensures width { IfOk result (λ r. length r.quotient ≡ length a.now) }
    ensures width_rest { IfOk result (λ r. length r.rest ≡ length a.now) }
    ensures sign { IfOk result (λ r. (vs : List Bool) →
        L.reads g.new vs r.sign
        ≡ is_negative
        (by_positive (int_read L.reads g.old vs a.now) (int_read L.reads g.old vs b.now))) }
    ensures none { IfOk result (λ r. (vs : List Bool) →
        L.reads g.new vs r.none ≡ nat_eq (unsigned_abs (int_read L.reads g.old vs b.now)) 0) }
    ensures quotient { IfOk result (λ r. (vs : List Bool) →
        nat_read L.reads g.new vs r.quotient
        ≡ folded (by_positive (int_read L.reads g.old vs a.now) (int_read L.reads g.old vs b.now))
        / unsigned_abs (int_read L.reads g.old vs b.now)) }
    ensures rest { IfOk result (λ r. (vs : List Bool) →
        0 < unsigned_abs (int_read L.reads g.old vs b.now)
        → IsDivided (folded
        (by_positive (int_read L.reads g.old vs a.now) (int_read L.reads g.old vs b.now)))
        (unsigned_abs (int_read L.reads g.old vs b.now)) (nat_read L.reads g.new vs r.quotient)
        (nat_read L.reads g.new vs r.rest)) }
{
    let width = a.len();
    let below = sign_of(g, b);
    let size = magnitude(alloc, g, b)?;
    let turned = negate_where(alloc, g, below, a)?;
    let sign = sign_of(g, &turned);
    let complement = flip_where(alloc, g, sign, &turned)?;
    let number = complement.low_bits(width)?;
    let none = is_zero(alloc, g, &size)?;
    let (quotient, rest) = divide(alloc, g, &number, &size)?;
    Ok(Divided {
        quotient,
        rest,
        sign,
        none,
    })
}

/// A number by its sign and its size or, below zero, that of its complement, in one bit more.
#[tactic(auto, using(crate::proofs::Kept::steps))]
fn unfold<L: Logic>(
    alloc: Global,
    g: &mut L,
    sign: L::Bit,
    size: &Word<L::Bit>,
) -> Result<Word<L::Bit>, NoMemory>
    requires sign { L.owns g.old sign }
    requires word { OwnsAll L.owns g.old size.now }
    ensures extends { Extends L.owns L.reads L.count g.old g.new }
    ensures made { IfOk result (λ r. IsWordIn L.owns g.new (length size.now + 1) r) }
    ensures value { IfOk result (λ r. (vs : List Bool) →
        int_read L.reads g.new vs r
        ≡ unfolded (L.reads g.old vs sign) (nat_read L.reads g.old vs size.now)) }
{
    let no = g.constant(false);
    let mut wide = size.copy()?;
    wide.push(no)?;
    let number = flip_where(alloc, g, sign, &wide)?;
    Ok(number)
}

/// The quotient of two words of one width, rounded towards minus infinity, whether it leaves their
/// width, and whether the divisor is 0.
#[tactic(auto, using(crate::proofs::Kept::steps, crate::proofs::Floors::quotients))]
pub fn floor<L: Logic>(
    alloc: Global,
    g: &mut L,
    a: &Word<L::Bit>,
    b: &Word<L::Bit>,
) -> Result<Partial<L::Bit>, NoMemory>
    requires long { 0 < length a.now }
    requires alike { length b.now ≡ length a.now }
    requires left { OwnsAll L.owns g.old a.now }
    requires right { OwnsAll L.owns g.old b.now }
    ensures extends { Extends L.owns L.reads L.count g.old g.new }
    ensures made { IfOk result (λ r. IsPartialIn L.owns g.new
        (length a.now) r.word r.over r.fault) }
    ensures none { IfOk result (λ r. (vs : List Bool) →
        L.reads g.new vs r.fault ≡ int_eq (int_read L.reads g.old vs b.now) (pos 0)) }
    ensures over { IfOk result (λ r. (vs : List Bool) →
        OverflowsAs (L.reads g.new vs r.over) (length a.now)
        (floor_quotient (int_read L.reads g.old vs a.now) (int_read L.reads g.old vs b.now))) }
    ensures value { IfOk result (λ r. (vs : List Bool) →
        Holds (int_read L.reads g.new vs r.word) (length a.now)
        (floor_quotient (int_read L.reads g.old vs a.now) (int_read L.reads g.old vs b.now))) }
{
    let width = a.len();
    let divided = divide_folded(alloc, g, a, b)?;
    let unfolded = unfold(alloc, g, divided.sign, &divided.quotient)?;
    let quotient = narrow(g, &unfolded, width)?;
    Ok(Partial {
        word: quotient.word,
        over: quotient.over,
        fault: divided.none,
    })
}

/// What is left of one word by floor division by another of its width, whether it leaves their
/// width, which it never does, and whether the divisor is 0.
#[tactic(auto, using(crate::proofs::Kept::steps))]
pub fn rem<L: Logic>(
    alloc: Global,
    g: &mut L,
    a: &Word<L::Bit>,
    b: &Word<L::Bit>,
) -> Result<Partial<L::Bit>, NoMemory>
    requires long { 0 < length a.now }
    requires alike { length b.now ≡ length a.now }
    requires left { OwnsAll L.owns g.old a.now }
    requires right { OwnsAll L.owns g.old b.now }
    ensures extends { Extends L.owns L.reads L.count g.old g.new }
    ensures made { IfOk result (λ r. IsPartialIn L.owns g.new
        (length a.now) r.word r.over r.fault) }
    ensures none { IfOk result (λ r. (vs : List Bool) →
        L.reads g.new vs r.fault ≡ int_eq (int_read L.reads g.old vs b.now) (pos 0)) }
    ensures over { IfOk result (λ r. (vs : List Bool) →
        OverflowsAs (L.reads g.new vs r.over) (length a.now)
        (floor_remainder (int_read L.reads g.old vs a.now) (int_read L.reads g.old vs b.now))) }
    ensures value { IfOk result (λ r. (vs : List Bool) → int_read L.reads g.old vs b.now ≢ pos 0
        → int_read L.reads g.new vs r.word
        ≡ floor_remainder (int_read L.reads g.old vs a.now) (int_read L.reads g.old vs b.now)) }
{
    let divided = divide_folded(alloc, g, a, b)?;
    let below = sign_of(g, b);
    let turn = g.xor(divided.sign, below)?;
    let part = mask(alloc, g, divided.sign, b)?;
    let flipped = flip_where(alloc, g, turn, &divided.rest)?;
    let number = signed_sum(alloc, g, &part, &flipped, below)?;
    let over = g.constant(false);
    Ok(Partial {
        word: number.word,
        over,
        fault: divided.none,
    })
}
