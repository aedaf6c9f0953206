//! Operations on values as bits over a graph, at width 4, beside what Python gives.

ghost use Rattle.bit_words.specs.Logic.{OwnsAll};
ghost use Rattle.sym_values.specs.Forms.{bits_of};

use crate::operations::number_of;
use bit_graph::graph::Graph;
use bit_words::NoMemory;
use bit_words::logic::Logic;
use bit_words::number::number_word;
use std::alloc::Global;
use std::test::Fail;
use sym_values::division::{quotient, raised, remainder};
use sym_values::order::{at_most, greatest, least, less_than};
use sym_values::sums::{difference, product, sum};
use sym_values::unary::{absolute_value, negated};
use sym_values::{SymOutcome, SymValue};

/// Stand for a fault, and for what isn't known.
const FAULT: i32 = 99;

const UNKNOWN: i32 = 98;

/// The number of a value whose bits are known, or 0 or 1 for a truth value.
#[tactic(auto, using(sym_values::proofs::Held::parts))]
fn known_number<L: Logic>(g: &L, value: &SymValue<L::Bit>) -> i32
    requires { OwnsAll L.owns g.now (bits_of value.now) }
{
    match value {
        SymValue::Int(word) => number_of(g, word).unwrap_or(UNKNOWN),
        SymValue::Bool(bit) => g.known(*bit).map_or(UNKNOWN, i32::from),
        _ => UNKNOWN,
    }
}

/// The same of an outcome.
fn told<L: Logic>(g: &L, outcome: &SymOutcome<L::Bit>) -> i32
    requires fault { L.owns g.now outcome.now.fault }
    requires value { OwnsAll L.owns g.now (bits_of outcome.now.value) }
{
    match g.known(outcome.fault) {
        Some(true) => FAULT,
        Some(false) => known_number(g, &outcome.value),
        None => UNKNOWN,
    }
}

#[tactic(auto, using(sym_values::proofs::Held::parts))]
fn sum_told<L: Logic>(alloc: Global, g: &mut L, x: i32, y: i32) -> Result<i32, NoMemory> {
    let a = number_word(alloc, g, x, 4)?;
    let b = number_word(alloc, g, y, 4)?;
    let outcome = sum(alloc, g, &a.word, &b.word)?;
    Ok(told(g, &outcome))
}

#[tactic(auto, using(sym_values::proofs::Held::parts))]
fn difference_told<L: Logic>(alloc: Global, g: &mut L, x: i32, y: i32) -> Result<i32, NoMemory> {
    let a = number_word(alloc, g, x, 4)?;
    let b = number_word(alloc, g, y, 4)?;
    let outcome = difference(alloc, g, &a.word, &b.word)?;
    Ok(told(g, &outcome))
}

#[tactic(auto, using(sym_values::proofs::Held::parts))]
fn product_told<L: Logic>(alloc: Global, g: &mut L, x: i32, y: i32) -> Result<i32, NoMemory> {
    let a = number_word(alloc, g, x, 4)?;
    let b = number_word(alloc, g, y, 4)?;
    let outcome = product(alloc, g, &a.word, &b.word)?;
    Ok(told(g, &outcome))
}

#[tactic(auto, using(sym_values::proofs::Held::parts))]
fn quotient_told<L: Logic>(alloc: Global, g: &mut L, x: i32, y: i32) -> Result<i32, NoMemory> {
    let a = number_word(alloc, g, x, 4)?;
    let b = number_word(alloc, g, y, 4)?;
    let outcome = quotient(alloc, g, &a.word, &b.word)?;
    Ok(told(g, &outcome))
}

#[tactic(auto, using(sym_values::proofs::Held::parts))]
fn remainder_told<L: Logic>(alloc: Global, g: &mut L, x: i32, y: i32) -> Result<i32, NoMemory> {
    let a = number_word(alloc, g, x, 4)?;
    let b = number_word(alloc, g, y, 4)?;
    let outcome = remainder(alloc, g, &a.word, &b.word)?;
    Ok(told(g, &outcome))
}

#[tactic(auto, using(sym_values::proofs::Held::parts))]
fn power_told<L: Logic>(alloc: Global, g: &mut L, x: i32, y: i32) -> Result<i32, NoMemory> {
    let a = number_word(alloc, g, x, 4)?;
    let b = number_word(alloc, g, y, 4)?;
    let outcome = raised(alloc, g, &a.word, &b.word)?;
    Ok(told(g, &outcome))
}

#[tactic(auto, using(sym_values::proofs::Held::parts))]
fn less_told<L: Logic>(alloc: Global, g: &mut L, x: i32, y: i32) -> Result<i32, NoMemory> {
    let a = number_word(alloc, g, x, 4)?;
    let b = number_word(alloc, g, y, 4)?;
    let outcome = less_than(alloc, g, &a.word, &b.word)?;
    Ok(told(g, &outcome))
}

#[tactic(auto, using(sym_values::proofs::Held::parts))]
fn at_most_told<L: Logic>(alloc: Global, g: &mut L, x: i32, y: i32) -> Result<i32, NoMemory> {
    let a = number_word(alloc, g, x, 4)?;
    let b = number_word(alloc, g, y, 4)?;
    let outcome = at_most(alloc, g, &a.word, &b.word)?;
    Ok(told(g, &outcome))
}

#[tactic(auto, using(sym_values::proofs::Held::parts))]
fn least_told<L: Logic>(alloc: Global, g: &mut L, x: i32, y: i32) -> Result<i32, NoMemory> {
    let a = number_word(alloc, g, x, 4)?;
    let b = number_word(alloc, g, y, 4)?;
    let outcome = least(alloc, g, &a.word, &b.word)?;
    Ok(told(g, &outcome))
}

#[tactic(auto, using(sym_values::proofs::Held::parts))]
fn greatest_told<L: Logic>(alloc: Global, g: &mut L, x: i32, y: i32) -> Result<i32, NoMemory> {
    let a = number_word(alloc, g, x, 4)?;
    let b = number_word(alloc, g, y, 4)?;
    let outcome = greatest(alloc, g, &a.word, &b.word)?;
    Ok(told(g, &outcome))
}

#[tactic(auto, using(sym_values::proofs::Held::parts))]
fn negative_told<L: Logic>(alloc: Global, g: &mut L, x: i32) -> Result<i32, NoMemory> {
    let a = number_word(alloc, g, x, 4)?;
    let outcome = negated(alloc, g, &a.word)?;
    Ok(told(g, &outcome))
}

#[tactic(auto, using(sym_values::proofs::Held::parts))]
fn absolute_told<L: Logic>(alloc: Global, g: &mut L, x: i32) -> Result<i32, NoMemory> {
    let a = number_word(alloc, g, x, 4)?;
    let outcome = absolute_value(alloc, g, &a.word)?;
    Ok(told(g, &outcome))
}

/// What Python's integers give for two numbers, where a value that leaves the width is a fault: the
/// operations in the order of the functions above.
const PAIRS: &[(i32, i32, [i32; 10])] = &[
    (7, 1, [99, 6, 7, 7, 0, 7, 0, 0, 1, 7]),
    (-8, -1, [99, -7, 99, 99, 0, 99, 1, 1, -8, -1]),
    (5, -3, [2, 99, 99, -2, -1, 99, 0, 0, -3, 5]),
    (-7, 2, [-5, 99, 99, -4, 1, 99, 1, 1, -7, 2]),
    (3, 0, [3, 3, 0, 99, 99, 1, 0, 0, 0, 3]),
    (-2, 3, [1, -5, -6, -1, 1, -8, 1, 1, -2, 3]),
];

/// The same for the opposite and the absolute value of one.
const NUMBERS: &[(i32, i32, i32)] = &[(-8, 99, 99), (-3, 3, 3), (0, 0, 0), (7, -7, 7)];

/// What the operations on two numbers give, in the order of the table.
fn results<L: Logic>(alloc: Global, g: &mut L, x: i32, y: i32) -> Result<[i32; 10], NoMemory> {
    Ok([
        sum_told(alloc, g, x, y)?,
        difference_told(alloc, g, x, y)?,
        product_told(alloc, g, x, y)?,
        quotient_told(alloc, g, x, y)?,
        remainder_told(alloc, g, x, y)?,
        power_told(alloc, g, x, y)?,
        less_told(alloc, g, x, y)?,
        at_most_told(alloc, g, x, y)?,
        least_told(alloc, g, x, y)?,
        greatest_told(alloc, g, x, y)?,
    ])
}

#[test]
fn operations_on_two_numbers(rt: HostRuntime) -> Result<(), Fail> {
    for (x, y, expected) in PAIRS {
        let mut g = Graph::new(rt.alloc())?;
        let given = results(rt.alloc(), &mut g, *x, *y)?;
        assert!(rt; given == *expected, "{x} and {y}");
    }
    Ok(())
}

#[test]
fn operations_on_a_number(rt: HostRuntime) -> Result<(), Fail> {
    for (x, opposite, size) in NUMBERS {
        let mut g = Graph::new(rt.alloc())?;
        assert_eq!(rt; negative_told(rt.alloc(), &mut g, *x)?, *opposite, "{x}");
        assert_eq!(rt; absolute_told(rt.alloc(), &mut g, *x)?, *size, "{x}");
    }
    Ok(())
}
