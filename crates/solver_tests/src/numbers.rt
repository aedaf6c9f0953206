//! Words of given numbers, other widths, and comparisons without a sign, over any logic.

ghost use Rattle.std.specs.Prelude.{◌≡◌, ◌<◌};

use crate::operations::number_of;
use bit_graph::graph::Graph;
use bit_words::NoMemory;
use bit_words::logic::Logic;
use bit_words::number::number_word;
use bit_words::order::{equal_bits, equal_number, less_bits, less_number};
use bit_words::resize::{resize, signed_word};
use std::alloc::Global;
use std::test::Fail;

/// The number of a word of a width, and whether the number that was wanted leaves the width.
#[tactic(auto, using(bit_words::proofs::Kept::steps))]
fn made(alloc: Global, number: i32, width: usize) -> Result<(Option<i32>, Option<bool>), NoMemory>
    requires { 0 < width }
{
    let g = Graph::new(alloc)?;
    let made = number_word(alloc, &g, number, width)?;
    Ok((number_of(&g, &made.word), g.known(made.over)))
}

/// The same of a word of 6 bits in another width.
#[tactic(auto, using(bit_words::proofs::Kept::steps))]
fn resized(
    alloc: Global,
    number: i32,
    width: usize,
) -> Result<(Option<i32>, Option<bool>), NoMemory>
    requires { 0 < width }
{
    let mut g = Graph::new(alloc)?;
    let six = number_word(alloc, &g, number, 6)?;
    let other = resize(&mut g, &six.word, width)?;
    Ok((number_of(&g, &other.word), g.known(other.over)))
}

/// The same of 5 bits without a sign.
#[tactic(auto, using(bit_words::proofs::Kept::steps))]
fn of_bits(
    alloc: Global,
    number: i32,
    width: usize,
) -> Result<(Option<i32>, Option<bool>), NoMemory>
    requires { 0 < width }
{
    let mut g = Graph::new(alloc)?;
    let five = number_word(alloc, &g, number, 5)?;
    let other = signed_word(alloc, &mut g, five.word.as_slice(), width)?;
    Ok((number_of(&g, &other.word), g.known(other.over)))
}

/// Whether one number of 7 bits without a sign is below another, and whether it is the other: by
/// bits, and beside the other as a constant.
#[tactic(auto, using(bit_words::proofs::Kept::steps))]
fn ordered(alloc: Global, a: i32, b: u8) -> Result<[Option<bool>; 4], NoMemory> {
    let mut g = Graph::new(alloc)?;
    let first = number_word(alloc, &g, a, 7)?;
    let second = number_word(alloc, &g, i32::from(b), 7)?;
    let below = less_bits(&mut g, first.word.as_slice(), second.word.as_slice())?;
    let below = g.known(below);
    let alike = equal_bits(&mut g, first.word.as_slice(), second.word.as_slice())?;
    let alike = g.known(alike);
    let below_number = less_number(&mut g, first.word.as_slice(), u32::from(b))?;
    let below_number = g.known(below_number);
    let is_number = equal_number(&mut g, first.word.as_slice(), u32::from(b))?;
    Ok([below, alike, below_number, g.known(is_number)])
}

#[test]
fn words_of_given_numbers(rt: HostRuntime) -> Result<(), Fail> {
    let alloc = rt.alloc();
    assert_eq!(rt; made(alloc, 7, 4)?, (Some(7), Some(false)));
    assert_eq!(rt; made(alloc, -8, 4)?, (Some(-8), Some(false)));
    assert_eq!(rt; made(alloc, 8, 4)?.1, Some(true));
    assert_eq!(rt; made(alloc, -9, 4)?.1, Some(true));
    Ok(())
}

#[test]
fn numbers_in_other_widths(rt: HostRuntime) -> Result<(), Fail> {
    let alloc = rt.alloc();
    assert_eq!(rt; resized(alloc, -8, 4)?, (Some(-8), Some(false)));
    assert_eq!(rt; resized(alloc, -9, 16)?, (Some(-9), Some(false)));
    assert_eq!(rt; resized(alloc, -9, 4)?.1, Some(true));
    assert_eq!(rt; resized(alloc, 17, 3)?.1, Some(true));
    Ok(())
}

#[test]
fn lengths_as_numbers(rt: HostRuntime) -> Result<(), Fail> {
    let alloc = rt.alloc();
    assert_eq!(rt; of_bits(alloc, 13, 5)?, (Some(13), Some(false)));
    assert_eq!(rt; of_bits(alloc, -1, 16)?, (Some(31), Some(false)));
    assert_eq!(rt; of_bits(alloc, 4, 3)?.1, Some(true));
    Ok(())
}

#[test]
fn order_without_a_sign(rt: HostRuntime) -> Result<(), Fail> {
    let alloc = rt.alloc();
    let yes = Some(true);
    let no = Some(false);
    assert_eq!(rt; ordered(alloc, 13, 14)?, [yes, no, yes, no]);
    assert_eq!(rt; ordered(alloc, 31, 31)?, [no, yes, no, yes]);
    assert_eq!(rt; ordered(alloc, 14, 13)?, [no, no, no, no]);
    let [_, _, below, alike] = ordered(alloc, 63, 191)?;
    assert_eq!(rt; (below, alike), (yes, no));
    Ok(())
}
