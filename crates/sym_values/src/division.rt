//! Quotients, remainders and powers of numbers: operations that have a fault besides Overflow.

ghost use Rattle.std.specs.Prelude.{◌≡◌, ◌<◌, length, IfOk};
ghost use Rattle.mpy_tree.specs.Operations.{arith};
ghost use Rattle.mpy_tree.specs.declared.operators.ArithOp.TheVariants.{Floor, Power, Rem};
ghost use Rattle.bit_words.specs.Logic.{Extends, OwnsAll};
ghost use Rattle.sym_values.specs.Forms.{IntForm};
ghost use Rattle.sym_values.specs.Operations.{NumbersGive};
ghost use Rattle.sym_values.specs.Results.{IsOutcomeIn};

use crate::value::{SymOutcome, SymValue};
use bit_words::NoMemory;
use bit_words::floor::{floor, rem};
use bit_words::gates::or;
use bit_words::logic::Logic;
use bit_words::power::power;
use bit_words::word::Word;
use std::alloc::Global;

/// The quotient of two numbers, rounded down, or Divisor or Overflow.
#[tactic(auto, using(crate::proofs::Held::parts))]
pub fn quotient<L: Logic>(
    alloc: Global,
    g: &mut L,
    a: &Word<L::Bit>,
    b: &Word<L::Bit>,
) -> Result<SymOutcome<L::Bit>, NoMemory>
    requires some { 0 < length a.now }
    requires alike { length b.now ≡ length a.now }
    requires left { OwnsAll L.owns g.old a.now }
    requires right { OwnsAll L.owns g.old b.now }
    ensures extends { Extends L.owns L.reads L.count g.old g.new }
    ensures made { IfOk result (λ r. IsOutcomeIn L.owns g.new (IntForm (length a.now)) r) }
    ensures value { IfOk result (λ r.
        NumbersGive L.reads g.old g.new a.now b.now r (λ l. arith l Floor)) }
{
    let divided = floor(alloc, g, a, b)?;
    let fault = or(g, divided.fault, divided.over)?;
    Ok(SymOutcome {
        value: SymValue::Int(divided.word),
        fault,
    })
}

/// What is left of a number by that quotient, or Divisor.
#[tactic(auto, using(crate::proofs::Held::parts))]
pub fn remainder<L: Logic>(
    alloc: Global,
    g: &mut L,
    a: &Word<L::Bit>,
    b: &Word<L::Bit>,
) -> Result<SymOutcome<L::Bit>, NoMemory>
    requires some { 0 < length a.now }
    requires alike { length b.now ≡ length a.now }
    requires left { OwnsAll L.owns g.old a.now }
    requires right { OwnsAll L.owns g.old b.now }
    ensures extends { Extends L.owns L.reads L.count g.old g.new }
    ensures made { IfOk result (λ r. IsOutcomeIn L.owns g.new (IntForm (length a.now)) r) }
    ensures value { IfOk result (λ r.
        NumbersGive L.reads g.old g.new a.now b.now r (λ l. arith l Rem)) }
{
    let divided = rem(alloc, g, a, b)?;
    let fault = or(g, divided.fault, divided.over)?;
    Ok(SymOutcome {
        value: SymValue::Int(divided.word),
        fault,
    })
}

/// One number to the power of another, or Power or Overflow.
#[tactic(auto, using(crate::proofs::Held::parts))]
pub fn raised<L: Logic>(
    alloc: Global,
    g: &mut L,
    a: &Word<L::Bit>,
    b: &Word<L::Bit>,
) -> Result<SymOutcome<L::Bit>, NoMemory>
    requires some { 1 < length a.now }
    requires alike { length b.now ≡ length a.now }
    requires left { OwnsAll L.owns g.old a.now }
    requires right { OwnsAll L.owns g.old b.now }
    ensures extends { Extends L.owns L.reads L.count g.old g.new }
    ensures made { IfOk result (λ r. IsOutcomeIn L.owns g.new (IntForm (length a.now)) r) }
    ensures value { IfOk result (λ r.
        NumbersGive L.reads g.old g.new a.now b.now r (λ l. arith l Power)) }
{
    let number = power(alloc, g, a, b)?;
    let fault = or(g, number.fault, number.over)?;
    Ok(SymOutcome {
        value: SymValue::Int(number.word),
        fault,
    })
}
