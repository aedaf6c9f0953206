//! The word calls on numbers, over any logic.

ghost use Rattle.std.specs.Prelude.{◌≡◌, ◌<◌, length, IfOk};
ghost use Rattle.bit_words.specs.Logic.{OwnsAll};

use bit_words::NoMemory;
use bit_words::checked::{Checked, Partial};
use bit_words::compare::{equal, less};
use bit_words::floor::{floor, rem};
use bit_words::logic::Logic;
use bit_words::power::power;
use bit_words::product::mul;
use bit_words::sums::{add, neg, sub};
use bit_words::word::Word;
use std::alloc::Global;

/// What an operation gives: the number that its word reads as, and its two faults. A bit that isn't
/// known is none.
pub(crate) type Outcome = (Option<i32>, Option<bool>, Option<bool>);

/// The lowest bits of a number.
#[tactic(auto, using(bit_words::proofs::Kept::steps))]
fn word_of<L: Logic>(
    alloc: Global,
    g: &L,
    number: i32,
    width: usize,
) -> Result<Word<L::Bit>, NoMemory>
    ensures owned { IfOk result (λ r. OwnsAll L.owns g.now r) }
    ensures width { IfOk result (λ r. length r ≡ width) }
{
    let mut word = Word::new(alloc);
    let mut rest = number;
    for _ in 0..width {
        let bit = g.constant(rest & 1 == 1);
        word.push(bit)?;
        rest >>= 1;
    }
    Ok(word)
}

/// The number that a word reads as, where its bits are known.
#[tactic(auto, using(bit_words::proofs::Kept::steps))]
pub(crate) fn number_of<L: Logic>(g: &L, word: &Word<L::Bit>) -> Option<i32>
    requires { OwnsAll L.owns g.now word.now }
{
    let width = word.len();
    let mut number: i32 = 0;
    let mut weight: i32 = 1;
    for i in 0..width {
        let bit = word.at(i);
        let value = g.known(bit)?;
        if i == width - 1 {
            weight = weight.wrapping_neg();
        }
        if value {
            number = number.wrapping_add(weight);
        }
        weight = weight.wrapping_mul(2);
    }
    Some(number)
}

#[tactic(auto, using(bit_words::proofs::Kept::steps))]
pub(crate) fn sum_of<L: Logic>(
    alloc: Global,
    g: &mut L,
    x: i32,
    y: i32,
    width: usize,
) -> Result<Outcome, NoMemory>
    requires { 1 < width }
{
    let a = word_of(alloc, g, x, width)?;
    let b = word_of(alloc, g, y, width)?;
    let Checked { word, over } = add(alloc, g, &a, &b)?;
    Ok((number_of(g, &word), g.known(over), Some(false)))
}

#[tactic(auto, using(bit_words::proofs::Kept::steps))]
pub(crate) fn difference_of<L: Logic>(
    alloc: Global,
    g: &mut L,
    x: i32,
    y: i32,
    width: usize,
) -> Result<Outcome, NoMemory>
    requires { 1 < width }
{
    let a = word_of(alloc, g, x, width)?;
    let b = word_of(alloc, g, y, width)?;
    let Checked { word, over } = sub(alloc, g, &a, &b)?;
    Ok((number_of(g, &word), g.known(over), Some(false)))
}

#[tactic(auto, using(bit_words::proofs::Kept::steps))]
pub(crate) fn opposite_of<L: Logic>(
    alloc: Global,
    g: &mut L,
    x: i32,
    width: usize,
) -> Result<Outcome, NoMemory>
    requires { 1 < width }
{
    let a = word_of(alloc, g, x, width)?;
    let Checked { word, over } = neg(alloc, g, &a)?;
    Ok((number_of(g, &word), g.known(over), Some(false)))
}

#[tactic(auto, using(bit_words::proofs::Kept::steps))]
pub(crate) fn product_of<L: Logic>(
    alloc: Global,
    g: &mut L,
    x: i32,
    y: i32,
    width: usize,
) -> Result<Outcome, NoMemory>
    requires { 1 < width }
{
    let a = word_of(alloc, g, x, width)?;
    let b = word_of(alloc, g, y, width)?;
    let Checked { word, over } = mul(alloc, g, &a, &b)?;
    Ok((number_of(g, &word), g.known(over), Some(false)))
}

#[tactic(auto, using(bit_words::proofs::Kept::steps))]
pub(crate) fn quotient_of<L: Logic>(
    alloc: Global,
    g: &mut L,
    x: i32,
    y: i32,
    width: usize,
) -> Result<Outcome, NoMemory>
    requires { 1 < width }
{
    let a = word_of(alloc, g, x, width)?;
    let b = word_of(alloc, g, y, width)?;
    let Partial { word, over, fault } = floor(alloc, g, &a, &b)?;
    Ok((number_of(g, &word), g.known(over), g.known(fault)))
}

#[tactic(auto, using(bit_words::proofs::Kept::steps))]
pub(crate) fn remainder_of<L: Logic>(
    alloc: Global,
    g: &mut L,
    x: i32,
    y: i32,
    width: usize,
) -> Result<Outcome, NoMemory>
    requires { 1 < width }
{
    let a = word_of(alloc, g, x, width)?;
    let b = word_of(alloc, g, y, width)?;
    let Partial { word, over, fault } = rem(alloc, g, &a, &b)?;
    Ok((number_of(g, &word), g.known(over), g.known(fault)))
}

#[tactic(auto, using(bit_words::proofs::Kept::steps))]
pub(crate) fn power_of<L: Logic>(
    alloc: Global,
    g: &mut L,
    x: i32,
    y: i32,
    width: usize,
) -> Result<Outcome, NoMemory>
    requires { 1 < width }
{
    let a = word_of(alloc, g, x, width)?;
    let b = word_of(alloc, g, y, width)?;
    let Partial { word, over, fault } = power(alloc, g, &a, &b)?;
    Ok((number_of(g, &word), g.known(over), g.known(fault)))
}

/// Whether the first number is less, and whether both are equal.
#[tactic(auto, using(bit_words::proofs::Kept::steps))]
pub(crate) fn order_of<L: Logic>(
    alloc: Global,
    g: &mut L,
    x: i32,
    y: i32,
    width: usize,
) -> Result<(Option<bool>, Option<bool>), NoMemory>
    requires { 1 < width }
{
    let a = word_of(alloc, g, x, width)?;
    let b = word_of(alloc, g, y, width)?;
    let below = less(alloc, g, &a, &b)?;
    let is_less = g.known(below);
    let alike = equal(alloc, g, &a, &b)?;
    Ok((is_less, g.known(alike)))
}
