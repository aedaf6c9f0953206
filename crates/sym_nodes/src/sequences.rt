//! Indices and slices of lists and texts.

ghost use Rattle.std.specs.Prelude.{◌≡◌, Some, Bool, List, IfOk, IfSome, IsSome, Option};
ghost use Rattle.std.specs.Prelude.{option_map};
ghost use Rattle.mpy_tree.specs.Expressions.{slice_of};
ghost use Rattle.mpy_tree.specs.Operations.{index};
ghost use Rattle.mpy_tree.specs.Rules.{index_type, slice_type};
ghost use Rattle.mpy_tree.specs.declared.typing.Ty.{Ty};
ghost use Rattle.mpy_tree.specs.declared.value.Value.{Value};
ghost use Rattle.bit_words.specs.Logic.{Extends};
ghost use Rattle.sym_values.specs.Forms.{form_for, form_of};
ghost use Rattle.sym_values.specs.Operations.{ValuesGive};
ghost use Rattle.sym_values.specs.Reading.{OutcomeReads, read, sure};
ghost use Rattle.sym_values.specs.Results.{IsOutcomeIn};
ghost use Rattle.sym_nodes.specs.Operands.{EndReads, IsTypedIn, ty_of};

use crate::operands::word_of;
use bit_words::NoMemory;
use bit_words::logic::Logic;
use bit_words::word::Word;
use list_values::items::item;
use list_values::slices::part;
use mpy_tree::{Limits, Ty};
use std::alloc::Global;
use sym_values::{SymOutcome, SymValue};

/// The word of an end of a slice, if it is there.
fn end_word<B: Copy>(end: Option<&SymValue<B>>) -> Option<&Word<B>>
    requires { IfSome end (λ x. ty_of x.now ≡ Ty.Int) }
    ensures { option_map (λ x. x.now) end.entry
        ≡ option_map (λ w. SymValue.Int w.now) result }
{
    match end {
        Some(x) => Some(word_of(x)),
        None => None,
    }
}

/// What stands at an index.
pub fn index_value<L: Logic>(
    alloc: Global,
    g: &mut L,
    limits: &Limits,
    a: &SymValue<L::Bit>,
    place: &SymValue<L::Bit>,
) -> Result<SymOutcome<L::Bit>, NoMemory>
    requires list { IsTypedIn L.owns g.old limits.now a.now }
    requires place { IsTypedIn L.owns g.old limits.now place.now }
    requires typed { IsSome (index_type (ty_of a.now) (ty_of place.now)) }
    ensures extends { Extends L.owns L.reads L.count g.old g.new }
    ensures made { IfOk result (λ r. (t : Ty) → index_type (ty_of a.now) (ty_of place.now) ≡ Some t
        → IsOutcomeIn L.owns g.new (form_for limits.now t) r) }
    ensures value { IfOk result (λ r.
        ValuesGive L.reads g.old g.new a.now place.now r index) }
{
    let word = word_of(place);
    let found = item(alloc, g, a, word)?;
    Ok(found)
}

/// A part of a list or a text, by its ends.
pub fn slice_value<L: Logic>(
    alloc: Global,
    g: &mut L,
    limits: &Limits,
    a: &SymValue<L::Bit>,
    from: Option<&SymValue<L::Bit>>,
    to: Option<&SymValue<L::Bit>>,
) -> Result<SymOutcome<L::Bit>, NoMemory>
    requires list { IsTypedIn L.owns g.old limits.now a.now }
    requires from { IfSome from (λ x. IsTypedIn L.owns g.old limits.now x.now) }
    requires to { IfSome to (λ x. IsTypedIn L.owns g.old limits.now x.now) }
    requires from_number { IfSome from (λ x. ty_of x.now ≡ Ty.Int) }
    requires to_number { IfSome to (λ x. ty_of x.now ≡ Ty.Int) }
    requires typed { IsSome (slice_type (ty_of a.now)) }
    ensures extends { Extends L.owns L.reads L.count g.old g.new }
    ensures made { IfOk result (λ r. IsOutcomeIn L.owns g.new (form_of a.now) r) }
    ensures value { IfOk result (λ r. (vs : List Bool) (v : Value) (x y : Option Value)
        → read (L.reads g.old vs) a.now ≡ sure v
        → EndReads (L.reads g.old vs) from.entry x → EndReads (L.reads g.old vs) to.entry y
        → OutcomeReads (L.reads g.new vs) r (slice_of v x y)) }
{
    let low = end_word(from);
    let high = end_word(to);
    let items = part(alloc, g, a, low, high)?;
    Ok(items)
}
