//! The arithmetic operators.

ghost use Rattle.std.specs.Prelude.{◌≡◌, ◌<◌, length, Some, IfOk, IsSome};
ghost use Rattle.mpy_tree.specs.Operations.{arith, negative};
ghost use Rattle.mpy_tree.specs.Rules.{arith_type, negative_type};
ghost use Rattle.mpy_tree.specs.declared.typing.Ty.{Ty};
ghost use Rattle.bit_words.specs.Logic.{Extends, OwnsAll};
ghost use Rattle.sym_values.specs.Forms.{form_for, IntForm};
ghost use Rattle.sym_values.specs.Operations.{NumbersGive, ValueGives, ValuesGive};
ghost use Rattle.sym_values.specs.Results.{IsOutcomeIn};
ghost use Rattle.sym_nodes.specs.Operands.{IsTypedIn, ty_of};

use crate::operands::word_of;
use bit_words::NoMemory;
use bit_words::logic::Logic;
use bit_words::word::Word;
use list_values::joins::concatenation;
use list_values::repeats::repetition;
use mpy_tree::{ArithOp, Limits};
use std::alloc::Global;
use sym_values::division::{quotient, raised, remainder};
use sym_values::sums::{difference, product, sum};
use sym_values::unary::negated;
use sym_values::{SymOutcome, SymValue};

/// An operator on two numbers.
fn number_arith<L: Logic>(
    alloc: Global,
    g: &mut L,
    op: ArithOp,
    a: &Word<L::Bit>,
    b: &Word<L::Bit>,
) -> Result<SymOutcome<L::Bit>, NoMemory>
    requires wide { 1 < length a.now }
    requires alike { length b.now ≡ length a.now }
    requires left { OwnsAll L.owns g.old a.now }
    requires right { OwnsAll L.owns g.old b.now }
    ensures extends { Extends L.owns L.reads L.count g.old g.new }
    ensures made { IfOk result (λ r. IsOutcomeIn L.owns g.new (IntForm (length a.now)) r) }
    ensures value { IfOk result (λ r.
        NumbersGive L.reads g.old g.new a.now b.now r (λ l. arith l op)) }
{
    match op {
        ArithOp::Add => sum(alloc, g, a, b),
        ArithOp::Sub => difference(alloc, g, a, b),
        ArithOp::Mul => product(alloc, g, a, b),
        ArithOp::Floor => quotient(alloc, g, a, b),
        ArithOp::Rem => remainder(alloc, g, a, b),
        ArithOp::Power => raised(alloc, g, a, b),
    }
}

/// An operator on two values: on numbers, or `+` and `*` on lists and texts.
pub fn arith_value<L: Logic>(
    alloc: Global,
    g: &mut L,
    limits: &Limits,
    op: ArithOp,
    a: &SymValue<L::Bit>,
    b: &SymValue<L::Bit>,
) -> Result<SymOutcome<L::Bit>, NoMemory>
    requires left { IsTypedIn L.owns g.old limits.now a.now }
    requires right { IsTypedIn L.owns g.old limits.now b.now }
    requires typed { IsSome (arith_type op (ty_of a.now) (ty_of b.now)) }
    ensures extends { Extends L.owns L.reads L.count g.old g.new }
    ensures made { IfOk result (λ r. (t : Ty) → arith_type op (ty_of a.now) (ty_of b.now) ≡ Some t
        → IsOutcomeIn L.owns g.new (form_for limits.now t) r) }
    ensures value { IfOk result (λ r.
        ValuesGive L.reads g.old g.new a.now b.now r (arith limits.now op)) }
{
    match b {
        SymValue::Int(w) => match a {
            SymValue::Int(v) => {
                let number = number_arith(alloc, g, op, v, w)?;
                Ok(number)
            }
            _ => {
                let list = repetition(alloc, g, a, w)?;
                Ok(list)
            }
        },
        _ => {
            let list = concatenation(alloc, g, a, b)?;
            Ok(list)
        }
    }
}

/// The opposite of a number.
pub fn negative_value<L: Logic>(
    alloc: Global,
    g: &mut L,
    limits: &Limits,
    a: &SymValue<L::Bit>,
) -> Result<SymOutcome<L::Bit>, NoMemory>
    requires number { IsTypedIn L.owns g.old limits.now a.now }
    requires typed { IsSome (negative_type (ty_of a.now)) }
    ensures extends { Extends L.owns L.reads L.count g.old g.new }
    ensures made { IfOk result (λ r. IsOutcomeIn L.owns g.new (IntForm limits.now.width) r) }
    ensures value { IfOk result (λ r.
        ValueGives L.reads g.old g.new a.now r (negative limits.now)) }
{
    let word = word_of(a);
    let outcome = negated(alloc, g, word)?;
    Ok(outcome)
}
