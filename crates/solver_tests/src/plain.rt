//! The word calls over plain truth values, a second logic, which compute with them at once.

ghost use Rattle.std.specs.Prelude.{◌≡◌, ◌<◌, ◌<ℤ◌, pos};

use crate::operations::{
    Outcome, difference_of, opposite_of, order_of, power_of, product_of, quotient_of, remainder_of,
    sum_of,
};
use bit_words::NoMemory;
use bit_words::logic::Logic;
use std::alloc::Global;
use std::test::Fail;

/// A logic whose bits are truth values.
#[derive(Drop)]
struct Plain;

impl Logic for Plain {
    type Bit = bool;

    ghost owns = { λ s b. Unit {0} };

    ghost reads = { λ s vs b. b };

    ghost count = { λ s. 0 };

    fn constant(&self, b: bool) -> bool {
        b
    }

    fn not(&self, a: bool) -> bool {
        !a
    }

    fn and(&mut self, a: bool, b: bool) -> Result<bool, NoMemory> {
        Ok(a && b)
    }

    fn known(&self, a: bool) -> Option<bool> {
        Some(a)
    }
}

/// What is digested of an outcome: its number, or else which of its two faults it has.
fn reading(outcome: Outcome) -> u32 {
    match outcome {
        (Some(number), Some(false), Some(false)) => number.wrapping_add(40000).unsigned_abs(),
        (_, Some(true), Some(false)) => 1,
        (_, Some(false), Some(true)) => 2,
        _ => 3,
    }
}

/// What is digested of an order: 1 where the first number is less, 2 where both are equal.
fn order(outcome: (Option<bool>, Option<bool>)) -> u32 {
    match outcome {
        (Some(false), Some(false)) => 0,
        (Some(true), Some(false)) => 1,
        (Some(false), Some(true)) => 2,
        _ => 3,
    }
}

/// A digest with one result more.
fn digest(before: u32, reading: u32) -> u32 {
    (before ^ reading).wrapping_mul(16777619)
}

/// A digest of all operations on a pair.
fn digest_of(alloc: Global, before: u32, x: i32, y: i32, width: usize) -> Result<u32, NoMemory>
    requires { 1 < width }
{
    let mut g = Plain;
    let mut all = digest(before, reading(sum_of(alloc, &mut g, x, y, width)?));
    all = digest(all, reading(difference_of(alloc, &mut g, x, y, width)?));
    all = digest(all, reading(opposite_of(alloc, &mut g, x, width)?));
    all = digest(all, reading(product_of(alloc, &mut g, x, y, width)?));
    all = digest(all, reading(quotient_of(alloc, &mut g, x, y, width)?));
    all = digest(all, reading(remainder_of(alloc, &mut g, x, y, width)?));
    all = digest(all, reading(power_of(alloc, &mut g, x, y, width)?));
    Ok(digest(all, order(order_of(alloc, &mut g, x, y, width)?)))
}

/// The next state of a generator of random numbers, and a number of a width.
fn random(state: u32, half: i32) -> (u32, i32)
    requires { pos 0 <ℤ half }
{
    let next = state.wrapping_mul(1664525).wrapping_add(1013904223);
    let number = ((next >> 8) & 0xffff) as i32;
    (next, (number % half.wrapping_mul(2)).wrapping_sub(half))
}

/// A digest of all pairs of the numbers at the bounds of a width and of so many random pairs.
fn digest_of_width(alloc: Global, width: usize, half: i32, pairs: u32) -> Result<u32, NoMemory>
    requires wide { 1 < width }
    requires some { pos 0 <ℤ half }
{
    let bounds = [
        half.wrapping_neg(),
        half.wrapping_neg().wrapping_add(1),
        -2,
        -1,
        0,
        1,
        2,
        half.wrapping_sub(1),
    ];
    let mut all: u32 = 2166136261;
    for x in bounds {
        for y in bounds {
            all = digest_of(alloc, all, x, y, width)?;
        }
    }
    let mut state: u32 = 1;
    for _ in 0..pairs {
        let (second, x) = random(state, half);
        let (third, y) = random(second, half);
        state = third;
        // Every other pair has a small second number, as most quotients and powers of large ones
        // are 0 or too large.
        let small = if third & 0x80000000 == 0 { y } else { y % 8 };
        all = digest_of(alloc, all, x, small, width)?;
    }
    Ok(all)
}

// The digests are those of Python's integers: `python3 tests/word_digests.py` compares them.

#[test]
fn four_bits_agree_with_python(rt: HostRuntime) -> Result<(), Fail> {
    assert_eq!(rt; digest_of_width(rt.alloc(), 4, 8, 4000)?, 3966839432);
    Ok(())
}

#[test]
fn eight_bits_agree_with_python(rt: HostRuntime) -> Result<(), Fail> {
    assert_eq!(rt; digest_of_width(rt.alloc(), 8, 128, 4000)?, 3438077008);
    Ok(())
}

#[test]
fn sixteen_bits_agree_with_python(rt: HostRuntime) -> Result<(), Fail> {
    assert_eq!(rt; digest_of_width(rt.alloc(), 16, 32768, 2000)?, 2833233492);
    Ok(())
}
