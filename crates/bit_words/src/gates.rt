//! Bits made of two or three bits.

ghost use Rattle.std.specs.Prelude.{◌≡◌, Bool, List, not, ◌&&◌, ◌||◌, IfOk};
ghost use Rattle.bit_words.specs.Logic.{Extends};
ghost use Rattle.bit_words.specs.Bits.{differ, most_of};

use crate::NoMemory;
use crate::logic::Logic;

/// One of two bits or both.
pub fn or<L: Logic>(g: &mut L, a: L::Bit, b: L::Bit) -> Result<L::Bit, NoMemory>
    requires left { L.owns g.old a }
    requires right { L.owns g.old b }
    ensures extends { Extends L.owns L.reads L.count g.old g.new }
    ensures owned { IfOk result (λ r. L.owns g.new r) }
    ensures value { IfOk result (λ r. (vs : List Bool) →
        L.reads g.new vs r ≡ (L.reads g.old vs a || L.reads g.old vs b)) }
{
    let not_a = g.not(a);
    let not_b = g.not(b);
    let neither = g.and(not_a, not_b)?;
    Ok(g.not(neither))
}

/// Whether two bits both hold, and whether one of them does and not both.
///
/// An exclusive or has the conjunction among its gates, so an adder's carry shares it with the
/// digit.
pub fn half_add<L: Logic>(g: &mut L, a: L::Bit, b: L::Bit) -> Result<(L::Bit, L::Bit), NoMemory>
    requires left { L.owns g.old a }
    requires right { L.owns g.old b }
    ensures extends { Extends L.owns L.reads L.count g.old g.new }
    ensures owned_both { IfOk result (λ r. L.owns g.new r.0) }
    ensures owned_one { IfOk result (λ r. L.owns g.new r.1) }
    ensures both { IfOk result (λ r. (vs : List Bool) →
        L.reads g.new vs r.0 ≡ (L.reads g.old vs a && L.reads g.old vs b)) }
    ensures one { IfOk result (λ r. (vs : List Bool) →
        L.reads g.new vs r.1 ≡ differ (L.reads g.old vs a) (L.reads g.old vs b)) }
{
    let both = g.and(a, b)?;
    let one = g.xor(a, b)?;
    Ok((both, one))
}

/// The sum of three bits, and what is carried.
pub fn full_add<L: Logic>(
    g: &mut L,
    a: L::Bit,
    b: L::Bit,
    c: L::Bit,
) -> Result<(L::Bit, L::Bit), NoMemory>
    requires left { L.owns g.old a }
    requires right { L.owns g.old b }
    requires carry { L.owns g.old c }
    ensures extends { Extends L.owns L.reads L.count g.old g.new }
    ensures owned_sum { IfOk result (λ r. L.owns g.new r.0) }
    ensures owned_carry { IfOk result (λ r. L.owns g.new r.1) }
    ensures sum { IfOk result (λ r. (vs : List Bool) →
        L.reads g.new vs r.0
        ≡ differ (differ (L.reads g.old vs a) (L.reads g.old vs b)) (L.reads g.old vs c)) }
    ensures carried { IfOk result (λ r. (vs : List Bool) →
        L.reads g.new vs r.1
        ≡ most_of (L.reads g.old vs a) (L.reads g.old vs b) (L.reads g.old vs c)) }
{
    let (both, one) = half_add(g, a, b)?;
    let sum = g.xor(one, c)?;
    let carry = g.choose(one, c, both)?;
    Ok((sum, carry))
}
