//! Operations by which statements change a local, on the outcomes of their operands.

ghost use Rattle.std.specs.Prelude.{◌≡◌, ℕ, Bool, List, Some, IfOk, IsSome};
ghost use Rattle.std.specs.declared.result.Result.{Result};
ghost use Rattle.mpy_tree.specs.declared.outcome.Halted.{Halted};
ghost use Rattle.mpy_tree.specs.declared.typing.Ty.{Ty as AnyType};
ghost use Rattle.mpy_tree.specs.declared.value.Value.{Value};
ghost use Rattle.mpy_tree.specs.Operations.{append, arith, index, put};
ghost use Rattle.mpy_tree.specs.Rules.{arith_type};
ghost use Rattle.bit_words.specs.Logic.{Extends};
ghost use Rattle.sym_values.specs.Forms.{form_for};
ghost use Rattle.sym_values.specs.Reading.{OutcomeReads};
ghost use Rattle.sym_values.specs.Results.{IsOutcomeIn};
ghost use Rattle.sym_nodes.specs.Operands.{IsPartIn, ty_of};
ghost use Rattle.sym_blocks.specs.Elements.{AreElementIn, ElementReads};
ghost use Rattle.sym_blocks.specs.Operating.{on_both, on_element, on_three};

use bit_words::NoMemory;
use bit_words::gates::or;
use bit_words::logic::Logic;
use list_values::items::replacement;
use list_values::joins::extension;
use mpy_tree::{ArithOp, Limits, Ty};
use std::alloc::Global;
use sym_nodes::arithmetic::arith_value;
use sym_nodes::operands::word_of;
use sym_nodes::sequences::index_value;
use sym_values::SymOutcome;

/// The operands of an assignment to an element: the list, the index and the value.
#[derive(Drop)]
pub struct Parts<B: Copy> {
    pub list: SymOutcome<B>,
    pub place: SymOutcome<B>,
    pub number: SymOutcome<B>,
}

/// An operator on two operands: the fault of an operand comes before its own.
pub fn arith_outcome<L: Logic>(
    alloc: Global,
    g: &mut L,
    limits: &Limits,
    op: ArithOp,
    a: &SymOutcome<L::Bit>,
    b: &SymOutcome<L::Bit>,
) -> Result<SymOutcome<L::Bit>, NoMemory>
    requires left { IsPartIn L.owns g.old limits.now a.now }
    requires right { IsPartIn L.owns g.old limits.now b.now }
    requires typed { IsSome (arith_type op (ty_of a.now.value) (ty_of b.now.value)) }
    ensures extends { Extends L.owns L.reads L.count g.old g.new }
    ensures made { IfOk result (λ r. (t : AnyType)
        → arith_type op (ty_of a.now.value) (ty_of b.now.value) ≡ Some t
        → IsOutcomeIn L.owns g.new (form_for limits.now t) r) }
    ensures value { IfOk result (λ r.
        (vs : List Bool) (line : ℕ) (x y : Result Value Halted)
        → OutcomeReads (L.reads g.old vs) a.now x → OutcomeReads (L.reads g.old vs) b.now y
        → OutcomeReads (L.reads g.new vs) r
        (on_both line (arith limits.now op) x y)) }
{
    let made = arith_value(alloc, g, limits, op, &a.value, &b.value)?;
    let early = or(g, a.fault, b.fault)?;
    let fault = or(g, early, made.fault)?;
    Ok(SymOutcome {
        value: made.value,
        fault,
    })
}

/// The number at an index of a list.
pub fn item_outcome<L: Logic>(
    alloc: Global,
    g: &mut L,
    limits: &Limits,
    list: &SymOutcome<L::Bit>,
    place: &SymOutcome<L::Bit>,
) -> Result<SymOutcome<L::Bit>, NoMemory>
    requires list { IsOutcomeIn L.owns g.old (form_for limits.now Ty.List) list.now }
    requires place { IsOutcomeIn L.owns g.old (form_for limits.now Ty.Int) place.now }
    ensures extends { Extends L.owns L.reads L.count g.old g.new }
    ensures made { IfOk result (λ r. IsOutcomeIn L.owns g.new (form_for limits.now Ty.Int) r) }
    ensures value { IfOk result (λ r.
        (vs : List Bool) (line : ℕ) (x y : Result Value Halted)
        → OutcomeReads (L.reads g.old vs) list.now x → OutcomeReads (L.reads g.old vs) place.now y
        → OutcomeReads (L.reads g.new vs) r (on_both line index x y)) }
{
    let made = index_value(alloc, g, limits, &list.value, &place.value)?;
    let early = or(g, list.fault, place.fault)?;
    let fault = or(g, early, made.fault)?;
    Ok(SymOutcome {
        value: made.value,
        fault,
    })
}

/// A list to which a number is appended.
pub fn append_outcome<L: Logic>(
    alloc: Global,
    g: &mut L,
    _limits: &Limits,
    list: &SymOutcome<L::Bit>,
    number: &SymOutcome<L::Bit>,
) -> Result<SymOutcome<L::Bit>, NoMemory>
    requires list { IsOutcomeIn L.owns g.old (form_for _limits.now Ty.List) list.now }
    requires number { IsOutcomeIn L.owns g.old (form_for _limits.now Ty.Int) number.now }
    ensures extends { Extends L.owns L.reads L.count g.old g.new }
    ensures made { IfOk result (λ r. IsOutcomeIn L.owns g.new (form_for _limits.now Ty.List) r) }
    ensures value { IfOk result (λ r.
        (vs : List Bool) (line : ℕ) (x y : Result Value Halted)
        → OutcomeReads (L.reads g.old vs) list.now x → OutcomeReads (L.reads g.old vs) number.now y
        → OutcomeReads (L.reads g.new vs) r
        (on_both line (append _limits.now) x y)) }
{
    let word = word_of(&number.value);
    let made = extension(alloc, g, &list.value, word)?;
    let early = or(g, list.fault, number.fault)?;
    let fault = or(g, early, made.fault)?;
    Ok(SymOutcome {
        value: made.value,
        fault,
    })
}

/// A list with another number at an index. The operands may fault in any order.
pub fn put_outcome<L: Logic>(
    alloc: Global,
    g: &mut L,
    _limits: &Limits,
    list: &SymOutcome<L::Bit>,
    place: &SymOutcome<L::Bit>,
    number: &SymOutcome<L::Bit>,
) -> Result<SymOutcome<L::Bit>, NoMemory>
    requires list { IsOutcomeIn L.owns g.old (form_for _limits.now Ty.List) list.now }
    requires place { IsOutcomeIn L.owns g.old (form_for _limits.now Ty.Int) place.now }
    requires number { IsOutcomeIn L.owns g.old (form_for _limits.now Ty.Int) number.now }
    ensures extends { Extends L.owns L.reads L.count g.old g.new }
    ensures made { IfOk result (λ r. IsOutcomeIn L.owns g.new (form_for _limits.now Ty.List) r) }
    ensures value { IfOk result (λ r.
        (vs : List Bool) (line : ℕ) (x y z : Result Value Halted)
        → OutcomeReads (L.reads g.old vs) list.now x → OutcomeReads (L.reads g.old vs) place.now y
        → OutcomeReads (L.reads g.old vs) number.now z
        → OutcomeReads (L.reads g.new vs) r
        (on_three line put x y z)) }
{
    let index = word_of(&place.value);
    let word = word_of(&number.value);
    let made = replacement(alloc, g, &list.value, index, word)?;
    let first = or(g, list.fault, place.fault)?;
    let early = or(g, first, number.fault)?;
    let fault = or(g, early, made.fault)?;
    Ok(SymOutcome {
        value: made.value,
        fault,
    })
}

/// A list whose number at an index is changed by an operator.
pub fn changed_outcome<L: Logic>(
    alloc: Global,
    g: &mut L,
    limits: &Limits,
    op: ArithOp,
    parts: &Parts<L::Bit>,
) -> Result<SymOutcome<L::Bit>, NoMemory>
    requires parts { AreElementIn L.owns g.old limits.now parts.now }
    ensures extends { Extends L.owns L.reads L.count g.old g.new }
    ensures made { IfOk result (λ r. IsOutcomeIn L.owns g.new (form_for limits.now Ty.List) r) }
    ensures value { IfOk result (λ r.
        (vs : List Bool) (line : ℕ) (x y z : Result Value Halted)
        → ElementReads (L.reads g.old vs) parts.now x y z
        → OutcomeReads (L.reads g.new vs) r (on_element line (arith limits.now op) x y z)) }
{
    let old = item_outcome(alloc, g, limits, &parts.list, &parts.place)?;
    let new = arith_outcome(alloc, g, limits, op, &old, &parts.number)?;
    let outcome = put_outcome(alloc, g, limits, &parts.list, &parts.place, &new)?;
    Ok(outcome)
}
