//! Nodes of whose parts all bits are known. They are computed on values.

ghost use Rattle.std.specs.Prelude.{◌≡◌, Bool, List, length, true, Some, IfOk, IfSome, IsSome};
ghost use Rattle.std.specs.declared.result.Result.TheVariants.{Ok};
ghost use Rattle.mpy_tree.specs.Rules.{member_of};
ghost use Rattle.mpy_tree.specs.declared.outcome.Halt.{Halt};
ghost use Rattle.mpy_tree.specs.declared.typing.Ty.{Ty};
ghost use Rattle.bit_words.specs.Logic.{OwnsAll};
ghost use Rattle.choice_tree.specs.Heads.{HasParts, head_kind};
ghost use Rattle.sym_values.specs.Forms.{form_for, values_bits};
ghost use Rattle.sym_values.specs.Reading.{OutcomeReads};
ghost use Rattle.sym_values.specs.Results.{IsOutcomeIn};
ghost use Rattle.sym_nodes.specs.Nodes.{operation as given_by, operation_type};
ghost use Rattle.sym_nodes.specs.Operands.{ArePartsIn, PartsGive, ValuesRead, ty_of, types_of};
ghost use Rattle.sym_nodes.specs.Operands.{values_of};

use crate::given::given;
use crate::operands::two_values;
use bit_words::NoMemory;
use bit_words::logic::Logic;
use choice_tree::Head;
use known_values::known_value;
use mpy_scopes::builtin_gives;
use mpy_tree::{Builtin, Limits, Ty, Value, Values};
use std::alloc::{AllocError, Global};
use sym_values::constant::{constant_value, zero_value};
use sym_values::{SymOutcome, SymValue};
use value_operations::Stop;

/// The values of all parts, where they are known.
fn known_parts<L: Logic>(
    alloc: Global,
    g: &L,
    parts: &[SymOutcome<L::Bit>],
) -> Result<Option<Values>, NoMemory>
    requires { OwnsAll L.owns g.now (values_bits (values_of parts.now)) }
    ensures { IfOk result (λ r. IfSome r (λ ws. (vs : List Bool) →
        ValuesRead (L.reads g.now vs) parts.now ws)) }
{
    let mut values = Vec::new(alloc);
    for part in parts {
        match known_value(alloc, g, &part.value)? {
            None => return Ok(None),
            Some(value) => values.push(value)?,
        }
    }
    Ok(Some(Values::from_vec(values)))
}

/// The type of a value as bits.
fn type_of_bits<B: Copy>(value: &SymValue<B>) -> Ty
    ensures { result ≡ ty_of value.now }
{
    match value {
        SymValue::Int(_) => Ty::Int,
        SymValue::Bool(_) => Ty::Bool,
        SymValue::List { .. } => Ty::List,
        SymValue::Text { .. } => Ty::Text,
    }
}

/// The type of an item of a list or a text.
fn item_type(ty: Ty) -> Ty
    requires { IsSome (member_of ty) }
    ensures { member_of ty ≡ Some result }
{
    match ty {
        Ty::List => Ty::Int,
        Ty::Text => Ty::Text,
        Ty::Int | Ty::Bool => unreachable!(),
    }
}

/// The type of what a node gives.
fn type_given<B: Copy>(head: Head<'_>, parts: &[SymOutcome<B>]) -> Ty
    requires many { HasParts (head_kind head) (length parts.now) }
    requires typed { IsSome (operation_type (head_kind head) (types_of parts.now)) }
    ensures { operation_type (head_kind head.entry) (types_of parts.now) ≡ Some result }
{
    match head {
        Head::Int(_) | Head::Neg => Ty::Int,
        Head::Bool(_) | Head::Not | Head::Cmp(_) => Ty::Bool,
        Head::Text(_) => Ty::Text,
        Head::List => Ty::List,
        Head::Arith(_) => type_of_bits(two_values(parts).first),
        Head::Index => item_type(type_of_bits(two_values(parts).first)),
        Head::Slice(_, _) => type_of_bits(&parts[0].value),
        Head::Call(f) => match Builtin::of(f.bytes()) {
            Some(builtin) => builtin_gives(builtin),
            None => unreachable!(),
        },
        Head::Name(_) | Head::And | Head::Or | Head::Cond => unreachable!(),
    }
}

/// A value as constant bits, where it has a type and fits the limits.
pub fn constant_outcome<L: Logic>(
    alloc: Global,
    g: &L,
    limits: &Limits,
    ty: Ty,
    value: &Value,
) -> Result<Option<SymOutcome<L::Bit>>, NoMemory>
    ensures made { IfOk result (λ r. IfSome r (λ o.
        IsOutcomeIn L.owns g.now (form_for limits.now ty) o)) }
    ensures value { IfOk result (λ r. IfSome r (λ o. (vs : List Bool) →
        OutcomeReads {E = Halt} (L.reads g.now vs) o (Ok value.now))) }
{
    // What is computed is such a value, but no clause of it says so.
    if value.ty() != ty || !value.fits(limits) {
        return Ok(None);
    }
    let fault = g.constant(false);
    let value = constant_value(alloc, g, limits, value)?;
    Ok(Some(SymOutcome { value, fault }))
}

/// A fault in place of a value of a type.
pub fn fault_outcome<L: Logic>(
    alloc: Global,
    g: &L,
    limits: &Limits,
    ty: Ty,
) -> Result<SymOutcome<L::Bit>, NoMemory>
    ensures made { IfOk result (λ o. IsOutcomeIn L.owns g.now (form_for limits.now ty) o) }
    ensures fault { IfOk result (λ o. (vs : List Bool) → L.reads g.now vs o.fault ≡ true) }
{
    let fault = g.constant(true);
    let value = zero_value(alloc, g, limits, ty)?;
    Ok(SymOutcome { value, fault })
}

/// What a node gives on the values of its parts, where they are known.
pub fn known_operation<L: Logic>(
    alloc: Global,
    g: &L,
    limits: &Limits,
    head: Head<'_>,
    parts: &[SymOutcome<L::Bit>],
) -> Result<Option<SymOutcome<L::Bit>>, NoMemory>
    requires parts { ArePartsIn L.owns g.now limits.now parts.now }
    requires many { HasParts (head_kind head) (length parts.now) }
    requires typed { IsSome (operation_type (head_kind head) (types_of parts.now)) }
    ensures made { IfOk result (λ r. IfSome r (λ o. (t : Ty)
        → operation_type (head_kind head.entry) (types_of parts.now) ≡ Some t
        → IsOutcomeIn L.owns g.now (form_for limits.now t) o)) }
    ensures value { IfOk result (λ r. IfSome r (λ o. PartsGive L.reads g.now g.now parts.now o
        (given_by limits.now (head_kind head.entry)))) }
{
    let Some(values) = known_parts(alloc, g, parts)? else {
        return Ok(None);
    };
    let ty = type_given(head, parts);
    match given(alloc, limits, head, values.items()) {
        Ok(value) => {
            let constant = constant_outcome(alloc, g, limits, ty, &value)?;
            Ok(constant)
        }
        Err(Stop::Halted(_)) => {
            let fault = fault_outcome(alloc, g, limits, ty)?;
            Ok(Some(fault))
        }
        Err(Stop::NoMemory) => Err(AllocError),
    }
}
