//! What a node gives on the values of its parts, where it needs them all.

ghost use Rattle.std.specs.Prelude.{◌≡◌, ◌+◌, ◌<◌, length, Some, IfOk, IsSome, IsTrue};
ghost use Rattle.std.specs.Prelude.{option_map};
ghost use Rattle.mpy_tree.specs.declared.typing.Ty.{Ty};
ghost use Rattle.bit_words.specs.Logic.{Extends};
ghost use Rattle.choice_tree.specs.Heads.{HasParts, head_kind, one_if};
ghost use Rattle.choice_tree.specs.Typing.{sliced as type_of_slice};
ghost use Rattle.sym_values.specs.Forms.{form_for};
ghost use Rattle.sym_values.specs.Results.{IsOutcomeIn};
ghost use Rattle.sym_nodes.specs.Nodes.{end_value, operation as given_by, operation_type};
ghost use Rattle.sym_nodes.specs.Nodes.{sliced};
ghost use Rattle.sym_nodes.specs.Operands.{ArePartsIn, PartsGive, types_of, values_of};

use crate::arithmetic::{arith_value, negative_value};
use crate::builtins::builtin_operation;
use crate::comparisons::compare_value;
use crate::known::known_operation;
use crate::literals::{bool_literal, int_literal, list_operation};
use crate::operands::{one_value, two_values};
use crate::sequences::{index_value, slice_value};
use bit_words::NoMemory;
use bit_words::logic::Logic;
use choice_tree::Head;
use list_values::literals::text_literal;
use mpy_tree::{Builtin, Limits};
use std::alloc::Global;
use sym_values::truth::negation;
use sym_values::{SymOutcome, SymValue};

/// What a node gives on the values of its parts.
pub fn operation<L: Logic>(
    alloc: Global,
    g: &mut L,
    limits: &Limits,
    head: Head<'_>,
    parts: &[SymOutcome<L::Bit>],
) -> Result<SymOutcome<L::Bit>, NoMemory>
    requires parts { ArePartsIn L.owns g.old limits.now parts.now }
    requires many { HasParts (head_kind head) (length parts.now) }
    requires typed { IsSome (operation_type (head_kind head) (types_of parts.now)) }
    ensures extends { Extends L.owns L.reads L.count g.old g.new }
    ensures made { IfOk result (λ r. (t : Ty)
        → operation_type (head_kind head.entry) (types_of parts.now) ≡ Some t
        → IsOutcomeIn L.owns g.new (form_for limits.now t) r) }
    ensures value { IfOk result (λ r. PartsGive L.reads g.old g.new parts.now r
        (given_by limits.now (head_kind head.entry))) }
{
    if let Some(known) = known_operation(alloc, g, limits, head, parts)? {
        return Ok(known);
    }
    circuit(alloc, g, limits, head, parts)
}

/// What a node gives on the values of its parts, whatever is known of them.
fn circuit<L: Logic>(
    alloc: Global,
    g: &mut L,
    limits: &Limits,
    head: Head<'_>,
    parts: &[SymOutcome<L::Bit>],
) -> Result<SymOutcome<L::Bit>, NoMemory>
    requires parts { ArePartsIn L.owns g.old limits.now parts.now }
    requires many { HasParts (head_kind head) (length parts.now) }
    requires typed { IsSome (operation_type (head_kind head) (types_of parts.now)) }
    ensures extends { Extends L.owns L.reads L.count g.old g.new }
    ensures made { IfOk result (λ r. (t : Ty)
        → operation_type (head_kind head.entry) (types_of parts.now) ≡ Some t
        → IsOutcomeIn L.owns g.new (form_for limits.now t) r) }
    ensures value { IfOk result (λ r. PartsGive L.reads g.old g.new parts.now r
        (given_by limits.now (head_kind head.entry))) }
{
    match head {
        Head::Int(n) => {
            let number = int_literal(alloc, g, limits, n)?;
            Ok(number)
        }
        Head::Bool(b) => {
            let truth = bool_literal(g, b);
            Ok(truth)
        }
        Head::Text(t) => {
            let text = text_literal(alloc, g, limits, t)?;
            Ok(text)
        }
        Head::List => {
            let list = list_operation(alloc, g, limits, parts)?;
            Ok(list)
        }
        Head::Neg => {
            let a = one_value(parts);
            let negative = negative_value(alloc, g, limits, a)?;
            Ok(negative)
        }
        Head::Not => {
            let a = one_value(parts);
            let opposite = negation(g, a)?;
            Ok(opposite)
        }
        Head::Arith(op) => {
            let two = two_values(parts);
            let number = arith_value(alloc, g, limits, op, two.first, two.second)?;
            Ok(number)
        }
        Head::Cmp(op) => {
            let two = two_values(parts);
            let truth = compare_value(alloc, g, limits, op, two.first, two.second)?;
            Ok(truth)
        }
        Head::Index => {
            let two = two_values(parts);
            let item = index_value(alloc, g, limits, two.first, two.second)?;
            Ok(item)
        }
        Head::Slice(from, to) => {
            let part = slice_operation(alloc, g, limits, from, to, parts)?;
            Ok(part)
        }
        Head::Call(f) => match Builtin::of(f.bytes()) {
            Some(builtin) => {
                let given = builtin_operation(alloc, g, limits, builtin, parts)?;
                Ok(given)
            }
            None => unreachable!(),
        },
        Head::Name(_) | Head::And | Head::Or | Head::Cond => unreachable!(),
    }
}

/// The value of the part at a place, or none where it isn't asked for.
fn end_at<B: Copy>(parts: &[SymOutcome<B>], there: bool, place: usize) -> Option<&SymValue<B>>
    requires { IsTrue there → place < length parts.now }
    ensures { option_map (λ x. x.now) result ≡ end_value (values_of parts.now) there place }
{
    if there {
        Some(&parts[place].value)
    } else {
        None
    }
}

/// A part of the first value, by the ends that are there.
fn slice_operation<L: Logic>(
    alloc: Global,
    g: &mut L,
    limits: &Limits,
    from: bool,
    to: bool,
    parts: &[SymOutcome<L::Bit>],
) -> Result<SymOutcome<L::Bit>, NoMemory>
    requires parts { ArePartsIn L.owns g.old limits.now parts.now }
    requires many { length parts.now ≡ 1 + one_if from + one_if to }
    requires typed { IsSome (type_of_slice (types_of parts.now)) }
    ensures extends { Extends L.owns L.reads L.count g.old g.new }
    ensures made { IfOk result (λ r. (t : Ty) → type_of_slice (types_of parts.now) ≡ Some t
        → IsOutcomeIn L.owns g.new (form_for limits.now t) r) }
    ensures value { IfOk result (λ r.
        PartsGive L.reads g.old g.new parts.now r (sliced from to)) }
{
    let a = &parts[0].value;
    let low = end_at(parts, from, 1);
    let high = end_at(parts, to, parts.len() - 1);
    let part = slice_value(alloc, g, limits, a, low, high)?;
    Ok(part)
}
