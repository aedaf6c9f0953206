//! What the graph folds and shares, by its count of gates.

ghost use Rattle.std.specs.Prelude.{◌≡◌, ◌<◌, ◌≤◌, length, IfOk};
ghost use Rattle.bit_words.specs.Logic.{OwnsAll};

use bit_graph::graph::Graph;
use bit_words::NoMemory;
use bit_words::bits::Bits;
use bit_words::bitwise::choose_bits;
use bit_words::compare::equal;
use bit_words::inputs::fresh_bits;
use bit_words::logic::Logic;
use bit_words::sums::{add, sub};
use bit_words::word::Word;
use std::alloc::Global;
use std::test::Fail;

/// The conjunction of two bits in both orders: whether it is one bit.
#[tactic(auto, using(bit_words::proofs::Kept::steps))]
fn both_in_turn<L: Logic>(g: &mut L, bits: &Bits<L::Bit>) -> Result<bool, NoMemory>
    requires two { length bits.now ≡ 2 }
    requires owned { OwnsAll L.owns g.old bits.now }
{
    let a = bits.at(0);
    let b = bits.at(1);
    let first = g.and(a, b)?;
    let second = g.and(b, a)?;
    Ok(g.same(first, second))
}

/// The exclusive or of two bits, and of the one and the other's opposite: whether the one bit is
/// the other's opposite.
#[tactic(auto, using(bit_words::proofs::Kept::steps))]
fn differ_of_an_opposite<L: Logic>(g: &mut L, bits: &Bits<L::Bit>) -> Result<bool, NoMemory>
    requires two { length bits.now ≡ 2 }
    requires owned { OwnsAll L.owns g.old bits.now }
{
    let a = bits.at(0);
    let b = bits.at(1);
    let one = g.xor(a, b)?;
    let not_b = g.not(b);
    let other = g.xor(a, not_b)?;
    let turned = g.not(other);
    Ok(g.same(one, turned))
}

/// The exclusive or of two bits, and a choice of opposite arms: whether they are one bit.
#[tactic(auto, using(bit_words::proofs::Kept::steps))]
fn choice_of_opposites<L: Logic>(g: &mut L, bits: &Bits<L::Bit>) -> Result<bool, NoMemory>
    requires two { length bits.now ≡ 2 }
    requires owned { OwnsAll L.owns g.old bits.now }
{
    let a = bits.at(0);
    let b = bits.at(1);
    let one = g.xor(a, b)?;
    let not_b = g.not(b);
    let chosen = g.choose(a, not_b, b)?;
    Ok(g.same(one, chosen))
}

/// A choice, and that by the test's opposite with the arms exchanged: whether they are one bit.
#[tactic(auto, using(bit_words::proofs::Kept::steps))]
fn choice_by_the_opposite<L: Logic>(g: &mut L, bits: &Bits<L::Bit>) -> Result<bool, NoMemory>
    requires three { length bits.now ≡ 3 }
    requires owned { OwnsAll L.owns g.old bits.now }
{
    let test = bits.at(0);
    let a = bits.at(1);
    let b = bits.at(2);
    let one = g.choose(test, a, b)?;
    let not_test = g.not(test);
    let other = g.choose(not_test, b, a)?;
    Ok(g.same(one, other))
}

/// A choice by each bit of a list, of which both arms are what the choice before it gave.
#[tactic(auto, using(bit_words::proofs::Kept::steps))]
fn choices_of_equal_arms<L: Logic>(
    alloc: Global,
    g: &mut L,
    bits: &Bits<L::Bit>,
) -> Result<(), NoMemory>
    requires { OwnsAll L.owns g.old bits.now }
{
    let mut kept = bits.copy()?;
    for i in 0..bits.len() {
        let test = bits.at(i);
        kept = choose_bits(alloc, g, test, kept.as_slice(), kept.as_slice())?;
    }
    Ok(())
}

/// A word of the bits from one place to another, of which the last is repeated up to a width.
#[tactic(auto, using(bit_words::proofs::Kept::steps))]
fn word_of<L: Logic>(
    alloc: Global,
    g: &L,
    bits: &Bits<L::Bit>,
    first: usize,
    last: usize,
    width: usize,
) -> Result<Word<L::Bit>, NoMemory>
    requires order { first ≤ last }
    requires inside { last < length bits.now }
    requires bits { OwnsAll L.owns g.now bits.now }
    ensures owned { IfOk result (λ r. OwnsAll L.owns g.now r) }
    ensures width { IfOk result (λ r. length r ≡ width) }
{
    let mut word = Word::new(alloc);
    let mut place = first;
    for _ in 0..width {
        word.push(bits.at(place))?;
        if place < last {
            place += 1;
        }
    }
    Ok(word)
}

/// The sum of two numbers of 4 bits at width 16.
#[tactic(auto, using(bit_words::proofs::Kept::steps))]
fn add_narrow<L: Logic>(alloc: Global, g: &mut L, bits: &Bits<L::Bit>) -> Result<(), NoMemory>
    requires eight { length bits.now ≡ 8 }
    requires owned { OwnsAll L.owns g.old bits.now }
{
    let a = word_of(alloc, g, bits, 0, 3, 16)?;
    let b = word_of(alloc, g, bits, 4, 7, 16)?;
    let _ = add(alloc, g, &a, &b)?;
    Ok(())
}

/// The difference of two numbers of 8 bits and, where it is wanted, whether they are equal.
#[tactic(auto, using(bit_words::proofs::Kept::steps))]
fn subtract<L: Logic>(
    alloc: Global,
    g: &mut L,
    bits: &Bits<L::Bit>,
    compared: bool,
) -> Result<(), NoMemory>
    requires sixteen { length bits.now ≡ 16 }
    requires owned { OwnsAll L.owns g.old bits.now }
{
    let a = word_of(alloc, g, bits, 0, 7, 8)?;
    let b = word_of(alloc, g, bits, 8, 15, 8)?;
    let _ = sub(alloc, g, &a, &b)?;
    if compared {
        let _ = equal(alloc, g, &a, &b)?;
    }
    Ok(())
}

#[test]
fn two_of_the_same_gate_are_one(rt: HostRuntime) -> Result<(), Fail> {
    let mut g = Graph::new(rt.alloc())?;
    let bits = fresh_bits(rt.alloc(), &mut g, 2)?;
    assert!(rt; both_in_turn(&mut g, &bits)?);
    assert_eq!(rt; g.gate_count(), 1);
    Ok(())
}

#[test]
fn an_exclusive_or_is_normal(rt: HostRuntime) -> Result<(), Fail> {
    let mut g = Graph::new(rt.alloc())?;
    let bits = fresh_bits(rt.alloc(), &mut g, 2)?;
    assert!(rt; differ_of_an_opposite(&mut g, &bits)?);
    assert_eq!(rt; g.gate_count(), 3);
    Ok(())
}

#[test]
fn a_choice_of_opposite_arms_is_an_exclusive_or(rt: HostRuntime) -> Result<(), Fail> {
    let mut g = Graph::new(rt.alloc())?;
    let bits = fresh_bits(rt.alloc(), &mut g, 2)?;
    assert!(rt; choice_of_opposites(&mut g, &bits)?);
    assert_eq!(rt; g.gate_count(), 3);
    Ok(())
}

#[test]
fn a_negated_test_exchanges_the_arms(rt: HostRuntime) -> Result<(), Fail> {
    let mut g = Graph::new(rt.alloc())?;
    let bits = fresh_bits(rt.alloc(), &mut g, 3)?;
    assert!(rt; choice_by_the_opposite(&mut g, &bits)?);
    assert_eq!(rt; g.gate_count(), 3);
    Ok(())
}

#[test]
fn a_choice_of_equal_arms_makes_no_gate(rt: HostRuntime) -> Result<(), Fail> {
    let mut g = Graph::new(rt.alloc())?;
    let bits = fresh_bits(rt.alloc(), &mut g, 8)?;
    choices_of_equal_arms(rt.alloc(), &mut g, &bits)?;
    assert_eq!(rt; g.gate_count(), 0);
    Ok(())
}

#[test]
fn a_sum_of_narrow_numbers_costs_what_it_costs_narrow(rt: HostRuntime) -> Result<(), Fail> {
    let mut g = Graph::new(rt.alloc())?;
    let bits = fresh_bits(rt.alloc(), &mut g, 8)?;
    add_narrow(rt.alloc(), &mut g, &bits)?;
    assert_eq!(rt; g.gate_count(), 26);
    Ok(())
}

/// The gates of a difference, with or without the comparison.
fn gates_of_a_difference(alloc: Global, compared: bool) -> Result<usize, NoMemory> {
    let mut g = Graph::new(alloc)?;
    let bits = fresh_bits(alloc, &mut g, 16)?;
    subtract(alloc, &mut g, &bits, compared)?;
    Ok(g.gate_count())
}

#[test]
fn equality_after_a_difference_shares_its_gates(rt: HostRuntime) -> Result<(), Fail> {
    assert_eq!(rt; gates_of_a_difference(rt.alloc(), false)?, 55);
    assert_eq!(rt; gates_of_a_difference(rt.alloc(), true)?, 62);
    Ok(())
}
