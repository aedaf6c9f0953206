//! The length of a list or a text as a number.

ghost use Rattle.std.specs.Prelude.{IfOk};
ghost use Rattle.mpy_tree.specs.Operations.{length_of};
ghost use Rattle.bit_words.specs.Logic.{Extends, OwnsAll};
ghost use Rattle.sym_values.specs.Forms.{bits_of, IntForm, HasLength};
ghost use Rattle.sym_values.specs.Operations.{ValueGives};
ghost use Rattle.sym_values.specs.Results.{IsOutcomeIn};

use crate::value::{SymOutcome, SymValue};
use bit_words::NoMemory;
use bit_words::logic::Logic;
use bit_words::resize::signed_word;
use mpy_tree::Limits;
use std::alloc::Global;

/// The length of a list or a text as a number of the width, or Overflow.
#[tactic(auto, using(crate::proofs::Held::parts))]
pub fn length_value<L: Logic>(
    alloc: Global,
    g: &mut L,
    limits: &Limits,
    a: &SymValue<L::Bit>,
) -> Result<SymOutcome<L::Bit>, NoMemory>
    requires sized { HasLength a.now }
    requires owned { OwnsAll L.owns g.old (bits_of a.now) }
    ensures extends { Extends L.owns L.reads L.count g.old g.new }
    ensures made { IfOk result (λ r. IsOutcomeIn L.owns g.new (IntForm limits.now.width) r) }
    ensures value { IfOk result (λ r.
        ValueGives L.reads g.old g.new a.now r (length_of limits.now)) }
{
    match a {
        SymValue::List { len, .. } => {
            let number = signed_word(alloc, g, len.as_slice(), limits.width as usize)?;
            Ok(SymOutcome {
                value: SymValue::Int(number.word),
                fault: number.over,
            })
        }
        SymValue::Text { len, .. } => {
            let number = signed_word(alloc, g, len.as_slice(), limits.width as usize)?;
            Ok(SymOutcome {
                value: SymValue::Int(number.word),
                fault: number.over,
            })
        }
        _ => unreachable!(),
    }
}
