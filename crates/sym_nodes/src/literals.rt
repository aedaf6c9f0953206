//! Literals.

ghost use Rattle.std.specs.Prelude.{◌≡◌, pos, true, Bool, List, length, IfOk};
ghost use Rattle.std.specs.declared.result.Result.TheVariants.{Ok};
ghost use Rattle.mpy_tree.specs.declared.outcome.Halt.{Halt};
ghost use Rattle.mpy_tree.specs.Expressions.{list_of};
ghost use Rattle.mpy_tree.specs.Operations.{number};
ghost use Rattle.mpy_tree.specs.Rules.{all_numbers};
ghost use Rattle.sym_values.specs.Forms.{form_for, BoolForm};
ghost use Rattle.sym_values.specs.Reading.{OutcomeReads};
ghost use Rattle.sym_values.specs.Results.{IsOutcomeIn};
ghost use Rattle.sym_nodes.specs.Operands.{ArePartsIn, PartsGive, types_of};

use crate::operands::word_of;
use bit_words::NoMemory;
use bit_words::logic::Logic;
use bit_words::words::Words;
use list_values::literals::list_literal;
use mpy_tree::{Limits, Ty, Value};
use std::alloc::Global;
use sym_values::constant::literal;
use sym_values::{SymOutcome, SymValue};

/// No width has this number.
const TOO_GREAT: u32 = 65_536;

/// A number as it is written, or Overflow.
pub fn int_literal<L: Logic>(
    alloc: Global,
    g: &L,
    limits: &Limits,
    written: u32,
) -> Result<SymOutcome<L::Bit>, NoMemory>
    ensures made { IfOk result (λ r. IsOutcomeIn L.owns g.now (form_for limits.now Ty.Int) r) }
    ensures value { IfOk result (λ r. (vs : List Bool) →
        OutcomeReads (L.reads g.now vs) r (number limits.now (pos written))) }
{
    let given = written.min(TOO_GREAT);
    let outcome = literal(alloc, g, limits, given as i32)?;
    Ok(outcome)
}

/// A truth value.
pub fn bool_literal<L: Logic>(g: &L, truth: bool) -> SymOutcome<L::Bit>
    ensures made { IsOutcomeIn L.owns g.now BoolForm result }
    ensures value { (vs : List Bool) →
        OutcomeReads {E = Halt} (L.reads g.now vs) result (Ok (Value.Bool truth)) }
{
    SymOutcome {
        value: SymValue::Bool(g.constant(truth)),
        fault: g.constant(false),
    }
}

/// The list of some numbers, or Length.
pub fn list_operation<L: Logic>(
    alloc: Global,
    g: &L,
    limits: &Limits,
    parts: &[SymOutcome<L::Bit>],
) -> Result<SymOutcome<L::Bit>, NoMemory>
    requires parts { ArePartsIn L.owns g.now limits.now parts.now }
    requires numbers { all_numbers (types_of parts.now) ≡ true }
    ensures made { IfOk result (λ r. IsOutcomeIn L.owns g.now (form_for limits.now Ty.List) r) }
    ensures value { IfOk result (λ r.
        PartsGive L.reads g.now g.now parts.now r (list_of limits.now)) }
{
    let mut numbers = Words::new(alloc);
    for part in parts {
        let word = word_of(&part.value).copy()?;
        numbers.push(word)?;
    }
    let list = list_literal(alloc, g, limits, &numbers)?;
    Ok(list)
}
