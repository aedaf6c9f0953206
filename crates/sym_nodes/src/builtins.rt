//! Calls of builtin functions.

ghost use Rattle.std.specs.Prelude.{◌≡◌, Some, IfOk, IsSome};
ghost use Rattle.mpy_tree.specs.Expressions.{builtin as given_by};
ghost use Rattle.mpy_tree.specs.Rules.{builtin_type};
ghost use Rattle.mpy_tree.specs.SetTypes.{builtin_gives};
ghost use Rattle.mpy_tree.specs.declared.typing.Ty.{Ty};
ghost use Rattle.bit_words.specs.Logic.{Extends};
ghost use Rattle.sym_values.specs.Forms.{form_for};
ghost use Rattle.sym_values.specs.Results.{IsOutcomeIn};
ghost use Rattle.sym_nodes.specs.Operands.{ArePartsIn, PartsGive, types_of};

use crate::operands::{one_value, three_values, two_values, word_of};
use bit_lists::ranges::RangeEnds;
use bit_words::NoMemory;
use bit_words::logic::Logic;
use bit_words::number::number_word;
use list_values::ranges::range_value;
use mpy_tree::{Builtin, Limits};
use std::alloc::Global;
use sym_values::SymOutcome;
use sym_values::order::{greatest, least};
use sym_values::size::length_value;
use sym_values::unary::absolute_value;

/// What a builtin gives on the values of its arguments.
pub fn builtin_operation<L: Logic>(
    alloc: Global,
    g: &mut L,
    limits: &Limits,
    builtin: Builtin,
    parts: &[SymOutcome<L::Bit>],
) -> Result<SymOutcome<L::Bit>, NoMemory>
    requires parts { ArePartsIn L.owns g.old limits.now parts.now }
    requires typed { IsSome (builtin_type builtin (types_of parts.now)) }
    ensures extends { Extends L.owns L.reads L.count g.old g.new }
    ensures made { IfOk result (λ r. (t : Ty) → builtin_type builtin (types_of parts.now) ≡ Some t
        → IsOutcomeIn L.owns g.new (form_for limits.now t) r) }
    ensures value { IfOk result (λ r.
        PartsGive L.reads g.old g.new parts.now r (given_by limits.now builtin)) }
{
    match builtin {
        Builtin::Len => length_operation(alloc, g, limits, parts),
        Builtin::Abs => absolute_operation(alloc, g, limits, parts),
        Builtin::Min => least_operation(alloc, g, limits, parts),
        Builtin::Max => greatest_operation(alloc, g, limits, parts),
        Builtin::Range => range_operation(alloc, g, limits, parts),
    }
}

/// The length of a list or a text.
fn length_operation<L: Logic>(
    alloc: Global,
    g: &mut L,
    limits: &Limits,
    parts: &[SymOutcome<L::Bit>],
) -> Result<SymOutcome<L::Bit>, NoMemory>
    requires parts { ArePartsIn L.owns g.old limits.now parts.now }
    requires typed { IsSome (builtin_type Builtin.Len (types_of parts.now)) }
    ensures extends { Extends L.owns L.reads L.count g.old g.new }
    ensures made { IfOk result (λ r.
        IsOutcomeIn L.owns g.new (form_for limits.now (builtin_gives Builtin.Len)) r) }
    ensures value { IfOk result (λ r.
        PartsGive L.reads g.old g.new parts.now r (given_by limits.now Builtin.Len)) }
{
    let a = one_value(parts);
    let outcome = length_value(alloc, g, limits, a)?;
    Ok(outcome)
}

/// The absolute value of a number.
fn absolute_operation<L: Logic>(
    alloc: Global,
    g: &mut L,
    limits: &Limits,
    parts: &[SymOutcome<L::Bit>],
) -> Result<SymOutcome<L::Bit>, NoMemory>
    requires parts { ArePartsIn L.owns g.old limits.now parts.now }
    requires typed { IsSome (builtin_type Builtin.Abs (types_of parts.now)) }
    ensures extends { Extends L.owns L.reads L.count g.old g.new }
    ensures made { IfOk result (λ r.
        IsOutcomeIn L.owns g.new (form_for limits.now (builtin_gives Builtin.Abs)) r) }
    ensures value { IfOk result (λ r.
        PartsGive L.reads g.old g.new parts.now r (given_by limits.now Builtin.Abs)) }
{
    let only = one_value(parts);
    let a = word_of(only);
    let outcome = absolute_value(alloc, g, a)?;
    Ok(outcome)
}

/// The least of two numbers.
fn least_operation<L: Logic>(
    alloc: Global,
    g: &mut L,
    limits: &Limits,
    parts: &[SymOutcome<L::Bit>],
) -> Result<SymOutcome<L::Bit>, NoMemory>
    requires parts { ArePartsIn L.owns g.old limits.now parts.now }
    requires typed { IsSome (builtin_type Builtin.Min (types_of parts.now)) }
    ensures extends { Extends L.owns L.reads L.count g.old g.new }
    ensures made { IfOk result (λ r.
        IsOutcomeIn L.owns g.new (form_for limits.now (builtin_gives Builtin.Min)) r) }
    ensures value { IfOk result (λ r.
        PartsGive L.reads g.old g.new parts.now r (given_by limits.now Builtin.Min)) }
{
    let two = two_values(parts);
    let a = word_of(two.first);
    let b = word_of(two.second);
    let outcome = least(alloc, g, a, b)?;
    Ok(outcome)
}

/// The greatest of two numbers.
fn greatest_operation<L: Logic>(
    alloc: Global,
    g: &mut L,
    limits: &Limits,
    parts: &[SymOutcome<L::Bit>],
) -> Result<SymOutcome<L::Bit>, NoMemory>
    requires parts { ArePartsIn L.owns g.old limits.now parts.now }
    requires typed { IsSome (builtin_type Builtin.Max (types_of parts.now)) }
    ensures extends { Extends L.owns L.reads L.count g.old g.new }
    ensures made { IfOk result (λ r.
        IsOutcomeIn L.owns g.new (form_for limits.now (builtin_gives Builtin.Max)) r) }
    ensures value { IfOk result (λ r.
        PartsGive L.reads g.old g.new parts.now r (given_by limits.now Builtin.Max)) }
{
    let two = two_values(parts);
    let a = word_of(two.first);
    let b = word_of(two.second);
    let outcome = greatest(alloc, g, a, b)?;
    Ok(outcome)
}

/// The numbers of a range.
fn range_operation<L: Logic>(
    alloc: Global,
    g: &mut L,
    limits: &Limits,
    parts: &[SymOutcome<L::Bit>],
) -> Result<SymOutcome<L::Bit>, NoMemory>
    requires parts { ArePartsIn L.owns g.old limits.now parts.now }
    requires typed { IsSome (builtin_type Builtin.Range (types_of parts.now)) }
    ensures extends { Extends L.owns L.reads L.count g.old g.new }
    ensures made { IfOk result (λ r.
        IsOutcomeIn L.owns g.new (form_for limits.now (builtin_gives Builtin.Range)) r) }
    ensures value { IfOk result (λ r.
        PartsGive L.reads g.old g.new parts.now r (given_by limits.now Builtin.Range)) }
{
    let width = limits.width as usize;
    let zero = number_word(alloc, g, 0, width)?;
    let one = number_word(alloc, g, 1, width)?;
    match parts.len() {
        1 => {
            let only = one_value(parts);
            let to = word_of(only);
            let ends = RangeEnds {
                from: &zero.word,
                to,
                step: &one.word,
            };
            let range = range_value(alloc, g, limits, &ends)?;
            Ok(range)
        }
        2 => {
            let two = two_values(parts);
            let from = word_of(two.first);
            let to = word_of(two.second);
            let ends = RangeEnds {
                from,
                to,
                step: &one.word,
            };
            let range = range_value(alloc, g, limits, &ends)?;
            Ok(range)
        }
        _ => {
            let three = three_values(parts);
            let from = word_of(three.first);
            let to = word_of(three.second);
            let step = word_of(three.third);
            let ends = RangeEnds { from, to, step };
            let range = range_value(alloc, g, limits, &ends)?;
            Ok(range)
        }
    }
}
