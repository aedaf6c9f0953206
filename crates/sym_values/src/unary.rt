//! The opposite and the absolute value of a number.

ghost use Rattle.std.specs.Prelude.{◌≡◌, ◌<◌, length, IfOk};
ghost use Rattle.mpy_tree.specs.Operations.{absolute, negative};
ghost use Rattle.bit_words.specs.Logic.{Extends, OwnsAll};
ghost use Rattle.sym_values.specs.Forms.{IntForm};
ghost use Rattle.sym_values.specs.Operations.{NumberGives};
ghost use Rattle.sym_values.specs.Results.{IsOutcomeIn};

use crate::value::{SymOutcome, SymValue};
use bit_words::NoMemory;
use bit_words::logic::Logic;
use bit_words::magnitude::magnitude;
use bit_words::resize::signed_word;
use bit_words::sums::neg;
use bit_words::word::Word;
use std::alloc::Global;

/// The opposite of a number, or Overflow.
#[tactic(auto, using(crate::proofs::Held::parts))]
pub fn negated<L: Logic>(
    alloc: Global,
    g: &mut L,
    a: &Word<L::Bit>,
) -> Result<SymOutcome<L::Bit>, NoMemory>
    requires some { 0 < length a.now }
    requires word { OwnsAll L.owns g.old a.now }
    ensures extends { Extends L.owns L.reads L.count g.old g.new }
    ensures made { IfOk result (λ r. IsOutcomeIn L.owns g.new (IntForm (length a.now)) r) }
    ensures value { IfOk result (λ r. NumberGives L.reads g.old g.new a.now r negative) }
{
    let opposite = neg(alloc, g, a)?;
    Ok(SymOutcome {
        value: SymValue::Int(opposite.word),
        fault: opposite.over,
    })
}

/// The absolute value of a number, or Overflow.
#[tactic(auto, using(crate::proofs::Held::parts))]
pub fn absolute_value<L: Logic>(
    alloc: Global,
    g: &mut L,
    a: &Word<L::Bit>,
) -> Result<SymOutcome<L::Bit>, NoMemory>
    requires some { 0 < length a.now }
    requires word { OwnsAll L.owns g.old a.now }
    ensures extends { Extends L.owns L.reads L.count g.old g.new }
    ensures made { IfOk result (λ r. IsOutcomeIn L.owns g.new (IntForm (length a.now)) r) }
    ensures value { IfOk result (λ r. NumberGives L.reads g.old g.new a.now r absolute) }
{
    let size = magnitude(alloc, g, a)?;
    let number = signed_word(alloc, g, size.as_slice(), a.len())?;
    Ok(SymOutcome {
        value: SymValue::Int(number.word),
        fault: number.over,
    })
}
