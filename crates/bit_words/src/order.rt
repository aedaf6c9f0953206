//! Numbers without a sign, compared with one another and with constants.

ghost use Rattle.std.specs.Prelude.{◌≡◌, Bool, List, length, nat_eq, nat_lt, IfOk};
ghost use Rattle.bit_words.specs.Logic.{Extends, OwnsAll};
ghost use Rattle.bit_words.specs.Words.{nat_read};

use crate::NoMemory;
use crate::compare::less_digit;
use crate::logic::Logic;

/// Whether two lists of bits of one length read as the same number.
#[tactic(auto, using(crate::proofs::Kept::steps))]
pub fn equal_bits<L: Logic>(g: &mut L, a: &[L::Bit], b: &[L::Bit]) -> Result<L::Bit, NoMemory>
    requires alike { length b.now ≡ length a.now }
    requires left { OwnsAll L.owns g.old a.now }
    requires right { OwnsAll L.owns g.old b.now }
    ensures extends { Extends L.owns L.reads L.count g.old g.new }
    ensures owned { IfOk result (λ r. L.owns g.new r) }
    ensures value { IfOk result (λ r. (vs : List Bool) →
        L.reads g.new vs r ≡ nat_eq (nat_read L.reads g.old vs a.now)
        (nat_read L.reads g.old vs b.now)) }
{
    let mut alike = g.constant(true);
    for i in 0..a.len() {
        let left = a[i];
        let right = b[i];
        let other = g.xor(left, right)?;
        let same = g.not(other);
        alike = g.and(alike, same)?;
    }
    Ok(alike)
}

/// Whether a list of bits reads as a smaller number than another of its length.
#[tactic(auto, using(crate::proofs::Kept::steps))]
pub fn less_bits<L: Logic>(g: &mut L, a: &[L::Bit], b: &[L::Bit]) -> Result<L::Bit, NoMemory>
    requires alike { length b.now ≡ length a.now }
    requires left { OwnsAll L.owns g.old a.now }
    requires right { OwnsAll L.owns g.old b.now }
    ensures extends { Extends L.owns L.reads L.count g.old g.new }
    ensures owned { IfOk result (λ r. L.owns g.new r) }
    ensures value { IfOk result (λ r. (vs : List Bool) →
        L.reads g.new vs r ≡ nat_lt (nat_read L.reads g.old vs a.now)
        (nat_read L.reads g.old vs b.now)) }
{
    let mut below = g.constant(false);
    for i in 0..a.len() {
        let left = a[i];
        let right = b[i];
        below = less_digit(g, left, right, below)?;
    }
    Ok(below)
}

/// Whether a list of bits reads as a number.
#[tactic(auto, using(crate::proofs::Kept::steps))]
pub fn equal_number<L: Logic>(g: &mut L, a: &[L::Bit], number: u32) -> Result<L::Bit, NoMemory>
    requires { OwnsAll L.owns g.old a.now }
    ensures extends { Extends L.owns L.reads L.count g.old g.new }
    ensures owned { IfOk result (λ r. L.owns g.new r) }
    ensures value { IfOk result (λ r. (vs : List Bool) →
        L.reads g.new vs r ≡ nat_eq (nat_read L.reads g.old vs a.now) number) }
{
    let mut alike = g.constant(true);
    let mut rest = number;
    for i in 0..a.len() {
        let left = a[i];
        let right = g.constant(rest % 2 == 1);
        let other = g.xor(left, right)?;
        let same = g.not(other);
        alike = g.and(alike, same)?;
        rest /= 2;
    }
    if rest != 0 {
        return Ok(g.constant(false));
    }
    Ok(alike)
}

/// Whether a list of bits reads as less than a number.
#[tactic(auto, using(crate::proofs::Kept::steps))]
pub fn less_number<L: Logic>(g: &mut L, a: &[L::Bit], number: u32) -> Result<L::Bit, NoMemory>
    requires { OwnsAll L.owns g.old a.now }
    ensures extends { Extends L.owns L.reads L.count g.old g.new }
    ensures owned { IfOk result (λ r. L.owns g.new r) }
    ensures value { IfOk result (λ r. (vs : List Bool) →
        L.reads g.new vs r ≡ nat_lt (nat_read L.reads g.old vs a.now) number) }
{
    let mut below = g.constant(false);
    let mut rest = number;
    for i in 0..a.len() {
        let left = a[i];
        let right = g.constant(rest % 2 == 1);
        below = less_digit(g, left, right, below)?;
        rest /= 2;
    }
    if rest != 0 {
        return Ok(g.constant(true));
    }
    Ok(below)
}
