//! Nodes that don't need the values of all their parts.

ghost use Rattle.std.specs.Prelude.{◌≡◌, ℕ, Bool, true, false, List, IfOk};
ghost use Rattle.std.specs.declared.result.Result.{Result};
ghost use Rattle.mpy_tree.specs.declared.outcome.Halted.{Halted};
ghost use Rattle.mpy_tree.specs.declared.value.Value.{Value};
ghost use Rattle.bit_words.specs.Logic.{Extends};
ghost use Rattle.sym_values.specs.Forms.{BoolForm, form_of};
ghost use Rattle.sym_values.specs.Reading.{OutcomeReads};
ghost use Rattle.sym_values.specs.Results.{IsOutcomeIn};
ghost use Rattle.sym_nodes.specs.Nodes.{and_result, cond_result, or_result, side_result};

use crate::operands::truth_of;
use bit_words::NoMemory;
use bit_words::gates::or;
use bit_words::logic::Logic;
use std::alloc::Global;
use sym_values::choose::choose_value;
use sym_values::truth::test_bit;
use sym_values::{SymOutcome, SymValue};

/// `a and b`. A fault of the right side counts only where the left side is true.
pub fn and_outcome<L: Logic>(
    g: &mut L,
    a: &SymOutcome<L::Bit>,
    b: &SymOutcome<L::Bit>,
) -> Result<SymOutcome<L::Bit>, NoMemory>
    requires left { IsOutcomeIn L.owns g.old BoolForm a.now }
    requires right { IsOutcomeIn L.owns g.old BoolForm b.now }
    ensures extends { Extends L.owns L.reads L.count g.old g.new }
    ensures made { IfOk result (λ r. IsOutcomeIn L.owns g.new BoolForm r) }
    ensures value { IfOk result (λ r. (vs : List Bool) (line : ℕ) (x y : Result Value Halted)
        → OutcomeReads (L.reads g.old vs) a.now x → OutcomeReads (L.reads g.old vs) b.now y
        → OutcomeReads (L.reads g.new vs) r (and_result line x y)) }
{
    let v = truth_of(&a.value);
    let w = truth_of(&b.value);
    let late = g.and(v, b.fault)?;
    let fault = or(g, a.fault, late)?;
    let both = g.and(v, w)?;
    Ok(SymOutcome {
        value: SymValue::Bool(both),
        fault,
    })
}

/// `a or b`. A fault of the right side counts only where the left side is false.
pub fn or_outcome<L: Logic>(
    g: &mut L,
    a: &SymOutcome<L::Bit>,
    b: &SymOutcome<L::Bit>,
) -> Result<SymOutcome<L::Bit>, NoMemory>
    requires left { IsOutcomeIn L.owns g.old BoolForm a.now }
    requires right { IsOutcomeIn L.owns g.old BoolForm b.now }
    ensures extends { Extends L.owns L.reads L.count g.old g.new }
    ensures made { IfOk result (λ r. IsOutcomeIn L.owns g.new BoolForm r) }
    ensures value { IfOk result (λ r. (vs : List Bool) (line : ℕ) (x y : Result Value Halted)
        → OutcomeReads (L.reads g.old vs) a.now x → OutcomeReads (L.reads g.old vs) b.now y
        → OutcomeReads (L.reads g.new vs) r (or_result line x y)) }
{
    let v = truth_of(&a.value);
    let w = truth_of(&b.value);
    let otherwise = g.not(v);
    let late = g.and(otherwise, b.fault)?;
    let fault = or(g, a.fault, late)?;
    let either = or(g, v, w)?;
    Ok(SymOutcome {
        value: SymValue::Bool(either),
        fault,
    })
}

/// `and` or `or`, by the truth value of the left side at which it stops.
pub fn side_outcome<L: Logic>(
    g: &mut L,
    stop: bool,
    a: &SymOutcome<L::Bit>,
    b: &SymOutcome<L::Bit>,
) -> Result<SymOutcome<L::Bit>, NoMemory>
    requires left { IsOutcomeIn L.owns g.old BoolForm a.now }
    requires right { IsOutcomeIn L.owns g.old BoolForm b.now }
    ensures extends { Extends L.owns L.reads L.count g.old g.new }
    ensures made { IfOk result (λ r. IsOutcomeIn L.owns g.new BoolForm r) }
    ensures value { IfOk result (λ r. (vs : List Bool) (line : ℕ) (x y : Result Value Halted)
        → OutcomeReads (L.reads g.old vs) a.now x → OutcomeReads (L.reads g.old vs) b.now y
        → OutcomeReads (L.reads g.new vs) r (side_result stop line x y)) }
{
    if stop {
        let either = or_outcome(g, a, b)?;
        Ok(either)
    } else {
        let both = and_outcome(g, a, b)?;
        Ok(both)
    }
}

/// One outcome where a bit is true, and another of its form where it isn't.
pub fn choose_outcome<L: Logic>(
    alloc: Global,
    g: &mut L,
    test: L::Bit,
    yes: &SymOutcome<L::Bit>,
    no: &SymOutcome<L::Bit>,
) -> Result<SymOutcome<L::Bit>, NoMemory>
    requires test { L.owns g.old test }
    requires yes { IsOutcomeIn L.owns g.old (form_of yes.now.value) yes.now }
    requires no { IsOutcomeIn L.owns g.old (form_of yes.now.value) no.now }
    ensures extends { Extends L.owns L.reads L.count g.old g.new }
    ensures made { IfOk result (λ r. IsOutcomeIn L.owns g.new (form_of yes.now.value) r) }
    ensures value { IfOk result (λ r. (vs : List Bool) (x : Result Value Halted)
        → (L.reads g.old vs test ≡ true → OutcomeReads (L.reads g.old vs) yes.now x)
        → (L.reads g.old vs test ≡ false → OutcomeReads (L.reads g.old vs) no.now x)
        → OutcomeReads (L.reads g.new vs) r x) }
{
    let fault = g.choose(test, yes.fault, no.fault)?;
    let value = choose_value(alloc, g, test, &yes.value, &no.value)?;
    Ok(SymOutcome { value, fault })
}

/// `yes if test else no`. Only the fault of the arm that is chosen counts.
pub fn cond_outcome<L: Logic>(
    alloc: Global,
    g: &mut L,
    test: &SymOutcome<L::Bit>,
    yes: &SymOutcome<L::Bit>,
    no: &SymOutcome<L::Bit>,
) -> Result<SymOutcome<L::Bit>, NoMemory>
    requires test { IsOutcomeIn L.owns g.old (form_of test.now.value) test.now }
    requires yes { IsOutcomeIn L.owns g.old (form_of yes.now.value) yes.now }
    requires no { IsOutcomeIn L.owns g.old (form_of yes.now.value) no.now }
    ensures extends { Extends L.owns L.reads L.count g.old g.new }
    ensures made { IfOk result (λ r. IsOutcomeIn L.owns g.new (form_of yes.now.value) r) }
    ensures value { IfOk result (λ r. (vs : List Bool) (x y z : Result Value Halted)
        → OutcomeReads (L.reads g.old vs) test.now x → OutcomeReads (L.reads g.old vs) yes.now y
        → OutcomeReads (L.reads g.old vs) no.now z
        → OutcomeReads (L.reads g.new vs) r (cond_result x y z)) }
{
    let holds = test_bit(g, &test.value)?;
    let chosen = choose_outcome(alloc, g, holds, yes, no)?;
    let fault = or(g, test.fault, chosen.fault)?;
    Ok(SymOutcome {
        value: chosen.value,
        fault,
    })
}
