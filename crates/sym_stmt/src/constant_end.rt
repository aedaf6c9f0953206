//! Ends of runs as constant bits.

ghost use Rattle.std.specs.Prelude.{◌≡◌, ◌≤◌, Bool, true, List, length, map, option_map};
ghost use Rattle.std.specs.Prelude.{option_to_list, take, IfOk, IfSome, OnOk};
ghost use Rattle.std.specs.declared.result.Result.{Result as AnyResult};
ghost use Rattle.std.specs.declared.result.Result.TheVariants.{Ok as Given};
ghost use Rattle.mpy_tree.specs.declared.outcome.Halted.{Halted};
ghost use Rattle.mpy_tree.specs.Outcomes.{outcome_of};
ghost use Rattle.mpy_tree.specs.Running.{Done};
ghost use Rattle.bit_words.specs.Logic.{OwnsAll};
ghost use Rattle.sym_values.specs.Forms.{form_for, form_of, values_bits};
ghost use Rattle.sym_values.specs.Printed.{slot_read, DoneReads, IsDoneIn, IsSlotIn};
ghost use Rattle.sym_values.specs.Reading.{sure};
ghost use Rattle.sym_stmt.specs.ConstantEnds.{AreSlotsIn, IsConstantResult};

use bit_words::NoMemory;
use bit_words::bitwise::zeros;
use bit_words::logic::Logic;
use mpy_tree::{Limits, Outcome, Ty, Value};
use std::alloc::Global;
use sym_nodes::known::constant_outcome;
use sym_paths::done::slot_from;
use sym_values::constant::{length_bits, zero_value};
use sym_values::printed::{print_width, printed_word};
use sym_values::{PrintSlot, PrintSlots, SymDone, SymValue};

// A printed value as constant bits, where it fits the limits.
fn constant_slot<L: Logic>(
    alloc: Global,
    g: &L,
    limits: &Limits,
    value: &Value,
) -> Result<Option<PrintSlot<L::Bit>>, NoMemory>
    ensures made { IfOk result (λ r. IfSome r (IsSlotIn L.owns g.now limits.now)) }
    ensures value { IfOk result (λ r. IfSome r (λ s. (vs : List Bool) →
        slot_read limits.now (L.reads g.now vs) s ≡ sure value.now)) }
{
    match constant_outcome(alloc, g, limits, value.ty(), value)? {
        None => Ok(None),
        Some(outcome) => {
            let word = printed_word(alloc, g, limits, &outcome.value)?;
            let slot = slot_from(&SymValue::Int(word))?;
            Ok(Some(slot))
        }
    }
}

// A place for a printed value that is not looked at.
fn open_slot<L: Logic>(alloc: Global, g: &L, limits: &Limits) -> Result<PrintSlot<L::Bit>, NoMemory>
    ensures { IfOk result (IsSlotIn L.owns g.now limits.now) }
{
    let word = zeros(alloc, g, print_width(limits))?;
    let slot = slot_from(&SymValue::Int(word))?;
    Ok(slot)
}

// Adds open places up to as many printed values as the limits keep.
fn fill_up<L: Logic>(
    alloc: Global,
    g: &L,
    limits: &Limits,
    slots: &mut PrintSlots<L::Bit>,
) -> Result<(), NoMemory>
    requires few { length slots.old ≤ limits.now.prints }
    requires held { AreSlotsIn L.owns g.now limits.now slots.old }
    ensures held { OnOk result (AreSlotsIn L.owns g.now limits.now slots.new) }
    ensures many { OnOk result (length slots.new ≡ limits.now.prints) }
    ensures first { OnOk result (take (length slots.old) slots.new ≡ slots.old) }
{
    for _ in slots.len()..limits.prints as usize {
        slots.push(open_slot(alloc, g, limits)?)?;
    }
    Ok(())
}

// Printed values as constant bits, where they fit the limits.
fn constant_slots<L: Logic>(
    alloc: Global,
    g: &L,
    limits: &Limits,
    printed: &[Value],
) -> Result<Option<PrintSlots<L::Bit>>, NoMemory>
    ensures made { IfOk result (λ r. IfSome r (AreSlotsIn L.owns g.now limits.now)) }
    ensures value { IfOk result (λ r. IfSome r (λ ss. (vs : List Bool) →
        map (slot_read limits.now (L.reads g.now vs)) ss ≡ map sure printed.now)) }
{
    let mut slots = PrintSlots::new(alloc);
    for value in printed {
        match constant_slot(alloc, g, limits, value)? {
            None => return Ok(None),
            Some(slot) => slots.push(slot)?,
        }
    }
    Ok(Some(slots))
}

// A value that is not looked at, where there is a type.
fn open_value<L: Logic>(
    alloc: Global,
    g: &L,
    limits: &Limits,
    ty: Option<Ty>,
) -> Result<Option<SymValue<L::Bit>>, NoMemory>
    ensures owned { IfOk result (λ r. OwnsAll L.owns g.now (values_bits (option_to_list r))) }
    ensures form { IfOk result (λ r. option_map form_of r ≡ option_map (form_for limits.now) ty) }
{
    match ty {
        None => Ok(None),
        Some(ty) => {
            let zero = zero_value(alloc, g, limits, ty)?;
            Ok(Some(zero))
        }
    }
}

// The value of an end as constant bits, where it has the type and fits the limits. Where there is
// none it is open.
fn constant_result<L: Logic>(
    alloc: Global,
    g: &L,
    limits: &Limits,
    ty: Option<Ty>,
    value: &Option<Value>,
) -> Result<Option<Option<SymValue<L::Bit>>>, NoMemory>
    ensures { IfOk result (λ r. IfSome r
        (IsConstantResult L.owns L.reads g.now limits.now ty value.now)) }
{
    match value {
        None => {
            let open = open_value(alloc, g, limits, ty)?;
            Ok(Some(open))
        }
        Some(value) => match ty {
            None => Ok(None),
            Some(ty) => match constant_outcome(alloc, g, limits, ty, value)? {
                None => Ok(None),
                Some(outcome) => Ok(Some(Some(outcome.value))),
            },
        },
    }
}

// An end without a fault as constant bits.
fn constant_done<L: Logic>(
    alloc: Global,
    g: &L,
    limits: &Limits,
    ty: Option<Ty>,
    value: &Option<Value>,
    printed: &[Value],
) -> Result<Option<SymDone<L::Bit>>, NoMemory>
    ensures made { IfOk result (λ r. IfSome r
        (IsDoneIn L.owns g.now limits.now (option_map (form_for limits.now) ty))) }
    ensures value { IfOk result (λ r. IfSome r (λ o. (vs : List Bool) (d : Done)
        → d.value ≡ value.now → d.printed ≡ printed.now
        → DoneReads {E = Halted} limits.now (L.reads g.now vs) o (Given d))) }
{
    if printed.len() > limits.prints as usize {
        return Ok(None);
    }
    let Some(mut slots) = constant_slots(alloc, g, limits, printed)? else {
        return Ok(None);
    };
    let Some(result) = constant_result(alloc, g, limits, ty, value)? else {
        return Ok(None);
    };
    fill_up(alloc, g, limits, &mut slots)?;
    let len = length_bits(alloc, g, printed.len())?;
    Ok(Some(SymDone {
        value: result,
        has: g.constant(value.is_some()),
        fault: g.constant(false),
        len,
        slots,
    }))
}

// An end by a fault: all else is open, and a value is said to be there where each end has one.
fn constant_fault<L: Logic>(
    alloc: Global,
    g: &L,
    limits: &Limits,
    ty: Option<Ty>,
) -> Result<SymDone<L::Bit>, NoMemory>
    ensures made { IfOk result
        (IsDoneIn L.owns g.now limits.now (option_map (form_for limits.now) ty)) }
    ensures value { IfOk result (λ r. (vs : List Bool) → L.reads g.now vs r.fault ≡ true) }
{
    let value = open_value(alloc, g, limits, ty)?;
    let mut slots = PrintSlots::new(alloc);
    fill_up(alloc, g, limits, &mut slots)?;
    let len = length_bits(alloc, g, 0)?;
    Ok(SymDone {
        value,
        has: g.constant(limits.prints == 0),
        fault: g.constant(true),
        len,
        slots,
    })
}

/// How a run ends, as constant bits, where the value has the type and all fits the limits.
pub fn constant_end<L: Logic>(
    alloc: Global,
    g: &L,
    limits: &Limits,
    ty: Option<Ty>,
    end: &Outcome,
) -> Result<Option<SymDone<L::Bit>>, NoMemory>
    ensures made { IfOk result (λ r. IfSome r
        (IsDoneIn L.owns g.now limits.now (option_map (form_for limits.now) ty))) }
    ensures value { IfOk result (λ r. IfSome r (λ o. (vs : List Bool) (e : AnyResult Done Halted)
        → outcome_of e ≡ end.now → DoneReads limits.now (L.reads g.now vs) o e)) }
{
    match end {
        Outcome::Done { value, printed } => {
            let done = constant_done(alloc, g, limits, ty, value, printed.items())?;
            Ok(done)
        }
        Outcome::Fault { .. } => {
            let fault = constant_fault(alloc, g, limits, ty)?;
            Ok(Some(fault))
        }
    }
}
