//! The numbers of a range as a list.

ghost use Rattle.std.specs.Prelude.{Bool, List, IfOk};
ghost use Rattle.mpy_tree.specs.Operations.{range as range_of};
ghost use Rattle.bit_words.specs.Logic.{Extends};
ghost use Rattle.bit_words.specs.Results.{IsWordIn};
ghost use Rattle.bit_words.specs.Words.{int_read};
ghost use Rattle.sym_values.specs.Forms.{form_for};
ghost use Rattle.sym_values.specs.Reading.{OutcomeReads};
ghost use Rattle.sym_values.specs.Results.{IsOutcomeIn};

use bit_lists::ranges::{RangeEnds, range};
use bit_words::NoMemory;
use bit_words::gates::or;
use bit_words::logic::Logic;
use bit_words::order::equal_number;
use mpy_tree::{Limits, Ty};
use std::alloc::Global;
use sym_values::{SymOutcome, SymValue};

/// The numbers of a range, or Step or Length.
pub fn range_value<L: Logic>(
    alloc: Global,
    g: &mut L,
    limits: &Limits,
    ends: &RangeEnds<'_, L::Bit>,
) -> Result<SymOutcome<L::Bit>, NoMemory>
    requires from { IsWordIn L.owns g.old limits.now.width ends.now.from.now }
    requires to { IsWordIn L.owns g.old limits.now.width ends.now.to.now }
    requires step { IsWordIn L.owns g.old limits.now.width ends.now.step.now }
    ensures extends { Extends L.owns L.reads L.count g.old g.new }
    ensures made { IfOk result (λ r. IsOutcomeIn L.owns g.new (form_for limits.now Ty.List) r) }
    ensures value { IfOk result (λ r. (vs : List Bool) →
        OutcomeReads (L.reads g.new vs) r (range_of limits.now
        (int_read L.reads g.old vs ends.now.from.now) (int_read L.reads g.old vs ends.now.to.now)
        (int_read L.reads g.old vs ends.now.step.now))) }
{
    let numbers = range(alloc, g, ends, limits.cap as usize)?;
    let still = equal_number(g, ends.step.as_slice(), 0)?;
    let fault = or(g, still, numbers.fault)?;
    Ok(SymOutcome {
        value: SymValue::List {
            len: numbers.len,
            items: numbers.items,
        },
        fault,
    })
}
