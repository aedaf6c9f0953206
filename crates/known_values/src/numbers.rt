//! Numbers all of whose bits are known.

ghost use Rattle.std.specs.Prelude.{◌≡◌, ◌<◌, ◌≤◌, ◌^◌, Bool, List, length, IfSome, pos};
ghost use Rattle.bit_words.specs.Logic.{OwnsAll};
ghost use Rattle.bit_words.specs.Words.{int_read, nat_read};

use bit_words::logic::Logic;

/// The most bits of a number that is looked at.
const MOST: usize = 16;

/// The number without a sign that some bits are known to be. There is none where there are more
/// bits than the most.
pub fn known_number<L: Logic>(g: &L, bits: &[L::Bit]) -> Option<u32>
    requires { OwnsAll L.owns g.now bits.now }
    ensures value { IfSome result (λ n. (vs : List Bool) →
        nat_read L.reads g.now vs bits.now ≡ n) }
    ensures below { IfSome result (λ n. n < 2 ^ length bits.now) }
    ensures short { IfSome result (λ n. length bits.now ≤ MOST) }
{
    if bits.len() > MOST {
        return None;
    }
    let mut number = 0;
    let mut weight = 1;
    for i in 0..bits.len() {
        if g.known(bits[i])? {
            number += weight;
        }
        weight += weight;
    }
    Some(number)
}

/// A power of 2.
fn power(exponent: usize) -> i32
    requires { exponent < MOST }
    ensures { result ≡ pos (2 ^ exponent) }
{
    (1u32 << exponent) as i32
}

/// The number in two's complement that some bits are known to be. There is none where there are
/// more bits than the most.
pub fn known_int<L: Logic>(g: &L, bits: &[L::Bit]) -> Option<i32>
    requires { OwnsAll L.owns g.now bits.now }
    ensures { IfSome result (λ z. (vs : List Bool) → int_read L.reads g.now vs bits.now ≡ z) }
{
    let number = known_number(g, bits)? as i32;
    if bits.is_empty() {
        return Some(0);
    }
    let half = power(bits.len() - 1);
    if number < half {
        return Some(number);
    }
    Some(number - half - half)
}
