//! Numbers that truth values spell, the lowest bit first.

ghost use Rattle.std.specs.Prelude.{◌≡◌, ◌<◌, ◌≤◌, ◌+◌, ◌^◌, length, pos};
ghost use Rattle.bit_words.specs.Later.{values_from};
ghost use Rattle.bit_words.specs.Words.{int_of, nat_of};

use clause_base::truths::Truths;

/// The number without a sign that so many truth values from a place on spell, at most 31.
pub fn natural(truths: &Truths, start: usize, width: usize) -> u32
    requires short { width ≤ 31 }
    requires within { start + width ≤ length truths.now }
    requires few { length truths.now ≤ 2147483647 }
    ensures value { result ≡ nat_of (values_from truths.now start width) }
    ensures below { result < 2 ^ width }
{
    let mut number = 0;
    let mut weight = 1u32;
    for i in 0..width {
        if truths.at(start + i) {
            number += weight;
        }
        weight += weight;
    }
    number
}

// A power of 2.
fn power(exponent: usize) -> i32
    requires { exponent < 16 }
    ensures { result ≡ pos (2 ^ exponent) }
{
    (1u32 << exponent) as i32
}

/// The number in two's complement that so many truth values from a place on spell, from 1 to 16.
pub fn integer(truths: &Truths, start: usize, width: usize) -> i32
    requires some { 0 < width }
    requires short { width ≤ 16 }
    requires within { start + width ≤ length truths.now }
    requires few { length truths.now ≤ 2147483647 }
    ensures { result ≡ int_of (values_from truths.now start width) }
{
    let number = natural(truths, start, width) as i32;
    let half = power(width - 1);
    if number < half {
        return number;
    }
    number - half - half
}
