//! A list or a text over and over.

ghost use Rattle.std.specs.Prelude.{◌≡◌, ◌<◌, ◌≤◌, length, IfOk};
ghost use Rattle.mpy_tree.specs.Operations.{arith};
ghost use Rattle.mpy_tree.specs.declared.operators.ArithOp.TheVariants.{Mul};
ghost use Rattle.bit_words.specs.Logic.{Extends, OwnsAll};
ghost use Rattle.sym_values.specs.Forms.{form_of};
ghost use Rattle.sym_values.specs.Operations.{number_read};
ghost use Rattle.sym_values.specs.Results.{IsOutcomeIn};
ghost use Rattle.list_values.specs.Operations.{SequenceGives};
ghost use Rattle.list_values.specs.Sequences.{IsSequenceIn};

use crate::views::{like, parts_of};
use bit_lists::repeats::repeat;
use bit_words::NoMemory;
use bit_words::logic::Logic;
use bit_words::word::Word;
use std::alloc::Global;
use sym_values::{SymOutcome, SymValue};

/// A list or a text so many times over, or Length.
pub fn repetition<L: Logic>(
    alloc: Global,
    g: &mut L,
    a: &SymValue<L::Bit>,
    number: &Word<L::Bit>,
) -> Result<SymOutcome<L::Bit>, NoMemory>
    requires list { IsSequenceIn L.owns g.old a.now }
    requires wide { 0 < length number.now }
    requires short { length number.now ≤ 16 }
    requires number { OwnsAll L.owns g.old number.now }
    ensures extends { Extends L.owns L.reads L.count g.old g.new }
    ensures made { IfOk result (λ r. IsOutcomeIn L.owns g.new (form_of a.now) r) }
    ensures value { IfOk result (λ r. SequenceGives L.reads g.old g.new a.now r
        (λ vs l v. arith l Mul v (number_read L.reads g.old vs number.now))) }
{
    let list = parts_of(a);
    let repeated = repeat(alloc, g, &list, number)?;
    let value = like(a, repeated.len, repeated.items);
    Ok(SymOutcome {
        value,
        fault: repeated.fault,
    })
}
