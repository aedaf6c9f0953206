//! Nodes that need the values of all their parts.

ghost use Rattle.std.specs.Prelude.{◌≡◌, ℕ, Bool, List, length, map, Some, IfOk, IsSome};
ghost use Rattle.std.specs.declared.result.Result.{Result};
ghost use Rattle.mpy_tree.specs.declared.outcome.Halted.{Halted};
ghost use Rattle.mpy_tree.specs.declared.typing.Ty.{Ty};
ghost use Rattle.mpy_tree.specs.declared.value.Value.{Value};
ghost use Rattle.bit_words.specs.Logic.{Extends, OwnsAll};
ghost use Rattle.choice_tree.specs.Heads.{HasParts, head_kind};
ghost use Rattle.sym_values.specs.Forms.{form_for};
ghost use Rattle.sym_values.specs.Reading.{OutcomeReads};
ghost use Rattle.sym_values.specs.Results.{IsOutcomeIn};
ghost use Rattle.sym_nodes.specs.Nodes.{operation as given_by, operation_type, strict_result};
ghost use Rattle.sym_nodes.specs.Operands.{ArePartsIn, PartsRead, any_true, faults_of};
ghost use Rattle.sym_nodes.specs.Operands.{types_of};

use crate::operations::operation;
use bit_words::NoMemory;
use bit_words::gates::or;
use bit_words::logic::Logic;
use choice_tree::Head;
use mpy_tree::Limits;
use std::alloc::Global;
use sym_values::SymOutcome;

/// Whether one of the parts has a fault.
pub fn any_fault<L: Logic>(g: &mut L, parts: &[SymOutcome<L::Bit>]) -> Result<L::Bit, NoMemory>
    requires { OwnsAll L.owns g.old (faults_of parts.now) }
    ensures extends { Extends L.owns L.reads L.count g.old g.new }
    ensures owned { IfOk result (λ r. L.owns g.new r) }
    ensures value { IfOk result (λ r. (vs : List Bool) →
        L.reads g.new vs r ≡ any_true (map (L.reads g.old vs) (faults_of parts.now))) }
{
    let mut fault = g.constant(false);
    for part in parts {
        fault = or(g, fault, part.fault)?;
    }
    Ok(fault)
}

/// What a node gives that needs the values of all its parts: the fault of a part comes before its
/// own.
pub fn strict_outcome<L: Logic>(
    alloc: Global,
    g: &mut L,
    limits: &Limits,
    head: Head<'_>,
    parts: &[SymOutcome<L::Bit>],
) -> Result<SymOutcome<L::Bit>, NoMemory>
    requires parts { ArePartsIn L.owns g.old limits.now parts.now }
    requires many { HasParts (head_kind head) (length parts.now) }
    requires typed { IsSome (operation_type (head_kind head) (types_of parts.now)) }
    ensures extends { Extends L.owns L.reads L.count g.old g.new }
    ensures made { IfOk result (λ r. (t : Ty)
        → operation_type (head_kind head.entry) (types_of parts.now) ≡ Some t
        → IsOutcomeIn L.owns g.new (form_for limits.now t) r) }
    ensures value { IfOk result (λ r.
        (vs : List Bool) (line : ℕ) (rs : List (Result Value Halted))
        → PartsRead (L.reads g.old vs) parts.now rs → OutcomeReads (L.reads g.new vs) r
        (strict_result line (given_by limits.now (head_kind head.entry)) rs)) }
{
    let made = operation(alloc, g, limits, head, parts)?;
    let early = any_fault(g, parts)?;
    let fault = or(g, early, made.fault)?;
    Ok(SymOutcome {
        value: made.value,
        fault,
    })
}
