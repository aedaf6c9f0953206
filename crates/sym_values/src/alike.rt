//! Whether two runs end alike, as bits.

ghost use Rattle.std.specs.Prelude.{◌≡◌, ◌≢◌, ◌<◌, ◌≤◌, ◌↔◌, Bool, false, true, List, IfOk, IsTrue};
ghost use Rattle.std.specs.Prelude.{map, option_map, option_to_list, All, Option as AnyOption};
ghost use Rattle.mpy_tree.specs.Running.{Done};
ghost use Rattle.mpy_tree.specs.declared.value.Value.{Value};
ghost use Rattle.bit_words.specs.Logic.{Extends, OwnsAll};
ghost use Rattle.bit_words.specs.Words.{nat_read};
ghost use Rattle.sym_values.specs.Forms.{bits_of, form_of, gathered};
ghost use Rattle.sym_values.specs.Printed.{DoneReads, IsDoneIn, IsSlotIn, ValueReads, kind_of};
ghost use Rattle.sym_values.specs.Printed.{slot_read, type_of_kind, value_within};
ghost use Rattle.sym_values.specs.Reading.{spelled, sure};
ghost use Rattle.sym_values.specs.Rooms.{room_of};
ghost use Rattle.std.specs.declared.result.Result.{Result as AnyResult};
ghost use Rattle.std.specs.declared.result.Result.TheVariants.{Ok as Given};
ghost use Rattle.mpy_tree.specs.declared.outcome.Halted.{Halted};

use crate::done::{PrintSlot, SymDone};
use crate::equality::equal_bit;
use crate::printed::{kind_of, value_within};
use bit_words::NoMemory;
use bit_words::bits::Bits;
use bit_words::gates::or;
use bit_words::logic::Logic;
use bit_words::order::{equal_bits, equal_number, less_number};
use mpy_tree::{Limits, Ty};
use std::alloc::Global;

// The type that a number stands for.
fn type_numbered(number: u32) -> Ty
    ensures { result ≡ type_of_kind number }
{
    match number {
        0 => Ty::Int,
        1 => Ty::Bool,
        2 => Ty::List,
        _ => Ty::Text,
    }
}

// Whether two printed values are one, both of a type.
#[tactic(auto, using(crate::proofs::Held::parts))]
fn same_of_type<L: Logic>(
    alloc: Global,
    g: &mut L,
    limits: &Limits,
    ty: Ty,
    a: &PrintSlot<L::Bit>,
    b: &PrintSlot<L::Bit>,
) -> Result<L::Bit, NoMemory>
    requires left { IsSlotIn L.owns g.old limits.now a.now }
    requires right { IsSlotIn L.owns g.old limits.now b.now }
    ensures extends { Extends L.owns L.reads L.count g.old g.new }
    ensures owned { IfOk result (λ r. L.owns g.new r) }
    ensures other { IfOk result (λ r. (vs : List Bool)
        → nat_read L.reads g.old vs a.now.kind ≢ kind_of ty → L.reads g.new vs r ≡ false) }
    ensures value { IfOk result (λ r. (vs : List Bool) (v w : Value)
        → nat_read L.reads g.old vs a.now.kind ≡ kind_of ty
        → spelled (value_within limits.now ty (map (L.reads g.old vs) a.now.bits)) ≡ sure v
        → spelled (value_within limits.now ty (map (L.reads g.old vs) b.now.bits)) ≡ sure w
        → IsTrue (L.reads g.new vs r) ↔ (v ≡ w)) }
{
    let typed = equal_number(g, a.kind.as_slice(), kind_of(ty))?;
    if let Some(false) = g.known(typed) {
        return Ok(typed);
    }
    let first = value_within(alloc, limits, ty, a.bits.as_slice())?;
    let second = value_within(alloc, limits, ty, b.bits.as_slice())?;
    let equal = equal_bit(g, &first, &second)?;
    let both = g.and(typed, equal)?;
    Ok(both)
}

// Whether two printed values are one: of one type, and equal.
#[tactic(auto, using(crate::proofs::Held::parts))]
fn same_slot<L: Logic>(
    alloc: Global,
    g: &mut L,
    limits: &Limits,
    a: &PrintSlot<L::Bit>,
    b: &PrintSlot<L::Bit>,
) -> Result<L::Bit, NoMemory>
    requires left { IsSlotIn L.owns g.old limits.now a.now }
    requires right { IsSlotIn L.owns g.old limits.now b.now }
    ensures extends { Extends L.owns L.reads L.count g.old g.new }
    ensures owned { IfOk result (λ r. L.owns g.new r) }
    ensures value { IfOk result (λ r. (vs : List Bool) (v w : Value)
        → slot_read limits.now (L.reads g.old vs) a.now ≡ sure v
        → slot_read limits.now (L.reads g.old vs) b.now ≡ sure w
        → IsTrue (L.reads g.new vs r) ↔ (v ≡ w)) }
{
    let mut same = g.constant(false);
    for kind in 0..4 {
        let here = same_of_type(alloc, g, limits, type_numbered(kind), a, b)?;
        same = or(g, same, here)?;
    }
    let one_type = equal_bits(g, a.kind.as_slice(), b.kind.as_slice())?;
    let both = g.and(one_type, same)?;
    Ok(both)
}

// Whether two printed values are one, or a length doesn't reach their place.
#[tactic(auto, using(crate::proofs::Held::parts))]
fn same_or_past<L: Logic>(
    alloc: Global,
    g: &mut L,
    limits: &Limits,
    len: &Bits<L::Bit>,
    place: u32,
    a: &PrintSlot<L::Bit>,
    b: &PrintSlot<L::Bit>,
) -> Result<L::Bit, NoMemory>
    requires place { place < 8 }
    requires len { OwnsAll L.owns g.old len.now }
    requires left { IsSlotIn L.owns g.old limits.now a.now }
    requires right { IsSlotIn L.owns g.old limits.now b.now }
    ensures extends { Extends L.owns L.reads L.count g.old g.new }
    ensures owned { IfOk result (λ r. L.owns g.new r) }
    ensures past { IfOk result (λ r. (vs : List Bool)
        → nat_read L.reads g.old vs len.now ≤ place → L.reads g.new vs r ≡ true) }
    ensures value { IfOk result (λ r. (vs : List Bool) (v w : Value)
        → place < nat_read L.reads g.old vs len.now
        → slot_read limits.now (L.reads g.old vs) a.now ≡ sure v
        → slot_read limits.now (L.reads g.old vs) b.now ≡ sure w
        → IsTrue (L.reads g.new vs r) ↔ (v ≡ w)) }
{
    let past = less_number(g, len.as_slice(), place + 1)?;
    let here = same_slot(alloc, g, limits, a, b)?;
    let fine = or(g, past, here)?;
    Ok(fine)
}

// Whether the same values were printed. Those past the length aren't looked at.
#[tactic(auto, using(crate::proofs::Held::parts))]
fn same_printed<L: Logic>(
    alloc: Global,
    g: &mut L,
    limits: &Limits,
    a: &SymDone<L::Bit>,
    b: &SymDone<L::Bit>,
) -> Result<L::Bit, NoMemory>
    requires first { IsDoneIn L.owns g.old limits.now (option_map form_of a.now.value) a.now }
    requires second { IsDoneIn L.owns g.old limits.now (option_map form_of a.now.value) b.now }
    ensures extends { Extends L.owns L.reads L.count g.old g.new }
    ensures owned { IfOk result (λ r. L.owns g.new r) }
    ensures value { IfOk result (λ r. (vs : List Bool) (x y : Done)
        → DoneReads {E = Halted} limits.now (L.reads g.old vs) a.now (Given x)
        → DoneReads {E = Halted} limits.now (L.reads g.old vs) b.now (Given y)
        → IsTrue (L.reads g.new vs r) ↔ (x.printed ≡ y.printed)) }
{
    let mut same = equal_bits(g, a.len.as_slice(), b.len.as_slice())?;
    for i in 0..a.slots.len() {
        let first = a.slots.at(i);
        let second = b.slots.at(i);
        let fine = same_or_past(alloc, g, limits, &a.len, i as u32, first, second)?;
        same = g.and(same, fine)?;
    }
    Ok(same)
}

// Whether two runs end with the same value, or both without one.
#[tactic(auto, using(crate::proofs::Held::parts))]
fn same_value<L: Logic>(
    g: &mut L,
    a: &SymDone<L::Bit>,
    b: &SymDone<L::Bit>,
) -> Result<L::Bit, NoMemory>
    requires short { All (λ v. room_of v ≤ 16) (option_to_list a.now.value) }
    requires alike { option_map form_of b.now.value ≡ option_map form_of a.now.value }
    requires left { OwnsAll L.owns g.old (gathered bits_of (option_to_list a.now.value)) }
    requires right { OwnsAll L.owns g.old (gathered bits_of (option_to_list b.now.value)) }
    requires left_has { L.owns g.old a.now.has }
    requires right_has { L.owns g.old b.now.has }
    ensures extends { Extends L.owns L.reads L.count g.old g.new }
    ensures owned { IfOk result (λ r. L.owns g.new r) }
    ensures value { IfOk result (λ r. (vs : List Bool) (v w : AnyOption Value)
        → ValueReads (L.reads g.old vs) a.now v → ValueReads (L.reads g.old vs) b.now w
        → IsTrue (L.reads g.new vs r) ↔ (v ≡ w)) }
{
    let (Some(first), Some(second)) = (&a.value, &b.value) else {
        return Ok(g.constant(true));
    };
    let equal = equal_bit(g, first, second)?;
    let both = g.and(a.has, b.has)?;
    let one = g.and(both, equal)?;
    let not_a = g.not(a.has);
    let not_b = g.not(b.has);
    let neither = g.and(not_a, not_b)?;
    let alike = or(g, one, neither)?;
    Ok(alike)
}

/// Whether two runs that end without a fault end alike: with the same value, or both without one,
/// and with the same printed values, where these are kept.
#[tactic(auto, using(crate::proofs::Held::parts))]
pub fn ends_alike<L: Logic>(
    alloc: Global,
    g: &mut L,
    limits: &Limits,
    a: &SymDone<L::Bit>,
    b: &SymDone<L::Bit>,
) -> Result<L::Bit, NoMemory>
    requires short { All (λ v. room_of v ≤ 16) (option_to_list a.now.value) }
    requires first { IsDoneIn L.owns g.old limits.now (option_map form_of a.now.value) a.now }
    requires second { IsDoneIn L.owns g.old limits.now (option_map form_of a.now.value) b.now }
    ensures extends { Extends L.owns L.reads L.count g.old g.new }
    ensures owned { IfOk result (λ r. L.owns g.new r) }
    ensures value { IfOk result (λ r. (vs : List Bool) (x y : Done)
        → DoneReads {E = Halted} limits.now (L.reads g.old vs) a.now (Given x)
        → DoneReads {E = Halted} limits.now (L.reads g.old vs) b.now (Given y)
        → IsTrue (L.reads g.new vs r) ↔ (x ≡ y)) }
{
    let value = same_value(g, a, b)?;
    let printed = same_printed(alloc, g, limits, a, b)?;
    let alike = g.and(value, printed)?;
    Ok(alike)
}
