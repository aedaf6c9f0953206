//! Sums, differences and products of numbers.

ghost use Rattle.std.specs.Prelude.{◌≡◌, ◌<◌, length, IfOk};
ghost use Rattle.mpy_tree.specs.Operations.{arith};
ghost use Rattle.mpy_tree.specs.declared.operators.ArithOp.TheVariants.{Add, Mul, Sub};
ghost use Rattle.bit_words.specs.Logic.{Extends, OwnsAll};
ghost use Rattle.sym_values.specs.Forms.{IntForm};
ghost use Rattle.sym_values.specs.Operations.{NumbersGive};
ghost use Rattle.sym_values.specs.Results.{IsOutcomeIn};

use crate::value::{SymOutcome, SymValue};
use bit_words::NoMemory;
use bit_words::logic::Logic;
use bit_words::product::mul;
use bit_words::sums::{add, sub};
use bit_words::word::Word;
use std::alloc::Global;

/// The sum of two numbers, or Overflow.
#[tactic(auto, using(crate::proofs::Held::parts))]
pub fn sum<L: Logic>(
    alloc: Global,
    g: &mut L,
    a: &Word<L::Bit>,
    b: &Word<L::Bit>,
) -> Result<SymOutcome<L::Bit>, NoMemory>
    requires some { 0 < length a.now }
    requires alike { length b.now ≡ length a.now }
    requires left { OwnsAll L.owns g.old a.now }
    requires right { OwnsAll L.owns g.old b.now }
    ensures extends { Extends L.owns L.reads L.count g.old g.new }
    ensures made { IfOk result (λ r. IsOutcomeIn L.owns g.new (IntForm (length a.now)) r) }
    ensures value { IfOk result (λ r.
        NumbersGive L.reads g.old g.new a.now b.now r (λ l. arith l Add)) }
{
    let total = add(alloc, g, a, b)?;
    Ok(SymOutcome {
        value: SymValue::Int(total.word),
        fault: total.over,
    })
}

/// The difference of two numbers, or Overflow.
#[tactic(auto, using(crate::proofs::Held::parts))]
pub fn difference<L: Logic>(
    alloc: Global,
    g: &mut L,
    a: &Word<L::Bit>,
    b: &Word<L::Bit>,
) -> Result<SymOutcome<L::Bit>, NoMemory>
    requires some { 0 < length a.now }
    requires alike { length b.now ≡ length a.now }
    requires left { OwnsAll L.owns g.old a.now }
    requires right { OwnsAll L.owns g.old b.now }
    ensures extends { Extends L.owns L.reads L.count g.old g.new }
    ensures made { IfOk result (λ r. IsOutcomeIn L.owns g.new (IntForm (length a.now)) r) }
    ensures value { IfOk result (λ r.
        NumbersGive L.reads g.old g.new a.now b.now r (λ l. arith l Sub)) }
{
    let total = sub(alloc, g, a, b)?;
    Ok(SymOutcome {
        value: SymValue::Int(total.word),
        fault: total.over,
    })
}

/// The product of two numbers, or Overflow.
#[tactic(auto, using(crate::proofs::Held::parts))]
pub fn product<L: Logic>(
    alloc: Global,
    g: &mut L,
    a: &Word<L::Bit>,
    b: &Word<L::Bit>,
) -> Result<SymOutcome<L::Bit>, NoMemory>
    requires some { 0 < length a.now }
    requires alike { length b.now ≡ length a.now }
    requires left { OwnsAll L.owns g.old a.now }
    requires right { OwnsAll L.owns g.old b.now }
    ensures extends { Extends L.owns L.reads L.count g.old g.new }
    ensures made { IfOk result (λ r. IsOutcomeIn L.owns g.new (IntForm (length a.now)) r) }
    ensures value { IfOk result (λ r.
        NumbersGive L.reads g.old g.new a.now b.now r (λ l. arith l Mul)) }
{
    let total = mul(alloc, g, a, b)?;
    Ok(SymOutcome {
        value: SymValue::Int(total.word),
        fault: total.over,
    })
}
