//! Comparisons.

ghost use Rattle.std.specs.Prelude.{◌≡◌, ◌<◌, Bool, List, length, IfOk};
ghost use Rattle.std.specs.Int.Signed.{lt_z};
ghost use Rattle.std.specs.Ordering.{int_eq};
ghost use Rattle.bit_words.specs.Logic.{Extends, OwnsAll};
ghost use Rattle.bit_words.specs.Words.{int_read};
ghost use Rattle.bit_words.specs.Bits.{less_by};

use crate::NoMemory;
use crate::gates::or;
use crate::logic::Logic;
use crate::word::Word;
use std::alloc::Global;

/// Whether two words of one width read as the same number.
#[tactic(auto, using(crate::proofs::Kept::steps))]
pub fn equal<L: Logic>(
    _alloc: Global,
    g: &mut L,
    a: &Word<L::Bit>,
    b: &Word<L::Bit>,
) -> Result<L::Bit, NoMemory>
    requires some { 0 < length a.now }
    requires alike { length b.now ≡ length a.now }
    requires left { OwnsAll L.owns g.old a.now }
    requires right { OwnsAll L.owns g.old b.now }
    ensures extends { Extends L.owns L.reads L.count g.old g.new }
    ensures owned { IfOk result (λ r. L.owns g.new r) }
    ensures value { IfOk result (λ r. (vs : List Bool) →
        L.reads g.new vs r ≡ int_eq (int_read L.reads g.old vs a.now)
        (int_read L.reads g.old vs b.now)) }
{
    let mut alike = g.constant(true);
    for i in 0..a.len() {
        let left = a.at(i);
        let right = b.at(i);
        let other = g.xor(left, right)?;
        let same = g.not(other);
        alike = g.and(alike, same)?;
    }
    Ok(alike)
}

/// Whether one bit is true, or another one isn't and `before` is.
#[tactic(auto, using(crate::proofs::Kept::steps))]
pub fn less_digit<L: Logic>(
    g: &mut L,
    left: L::Bit,
    right: L::Bit,
    before: L::Bit,
) -> Result<L::Bit, NoMemory>
    requires left { L.owns g.old left }
    requires right { L.owns g.old right }
    requires before { L.owns g.old before }
    ensures extends { Extends L.owns L.reads L.count g.old g.new }
    ensures owned { IfOk result (λ r. L.owns g.new r) }
    ensures value { IfOk result (λ r. (vs : List Bool) →
        L.reads g.new vs r ≡ less_by (L.reads g.old vs left) (L.reads g.old vs right)
        (L.reads g.old vs before)) }
{
    let not_left = g.not(left);
    let not_right = g.not(right);
    let below = g.and(not_left, right)?;
    let above = g.and(left, not_right)?;
    let not_above = g.not(above);
    let still = g.and(not_above, before)?;
    or(g, below, still)
}

/// The same of the highest digits, which change places, as they count below zero.
fn less_sign<L: Logic>(
    g: &mut L,
    left: L::Bit,
    right: L::Bit,
    before: L::Bit,
) -> Result<L::Bit, NoMemory>
    requires left { L.owns g.old left }
    requires right { L.owns g.old right }
    requires before { L.owns g.old before }
    ensures extends { Extends L.owns L.reads L.count g.old g.new }
    ensures owned { IfOk result (λ r. L.owns g.new r) }
    ensures value { IfOk result (λ r. (vs : List Bool) →
        L.reads g.new vs r ≡ less_by (L.reads g.old vs right) (L.reads g.old vs left)
        (L.reads g.old vs before)) }
{
    less_digit(g, right, left, before)
}

/// Whether one word is below another of its width.
#[tactic(auto, using(crate::proofs::Kept::steps))]
pub fn less<L: Logic>(
    _alloc: Global,
    g: &mut L,
    a: &Word<L::Bit>,
    b: &Word<L::Bit>,
) -> Result<L::Bit, NoMemory>
    requires some { 0 < length a.now }
    requires alike { length b.now ≡ length a.now }
    requires left { OwnsAll L.owns g.old a.now }
    requires right { OwnsAll L.owns g.old b.now }
    ensures extends { Extends L.owns L.reads L.count g.old g.new }
    ensures owned { IfOk result (λ r. L.owns g.new r) }
    ensures value { IfOk result (λ r. (vs : List Bool) →
        L.reads g.new vs r ≡ lt_z (int_read L.reads g.old vs a.now)
        (int_read L.reads g.old vs b.now)) }
{
    let top = a.len() - 1;
    let mut below = g.constant(false);
    for i in 0..top {
        let left = a.at(i);
        let right = b.at(i);
        below = less_digit(g, left, right, below)?;
    }
    let first = a.at(top);
    let second = b.at(top);
    let lower = less_sign(g, first, second, below)?;
    Ok(lower)
}
