//! Whether a number is among those of a list, and whether a text stands in another.

ghost use Rattle.std.specs.Prelude.{◌≡◌, ◌<◌, Bool, List, IfOk};
ghost use Rattle.std.specs.declared.result.Result.TheVariants.{Ok};
ghost use Rattle.mpy_tree.specs.Operations.{compare, member, truth};
ghost use Rattle.mpy_tree.specs.declared.operators.CmpOp.TheVariants.{Member, NotMember};
ghost use Rattle.mpy_tree.specs.declared.value.Value.{Value};
ghost use Rattle.bit_words.specs.Logic.{Extends, OwnsAll};
ghost use Rattle.sym_values.specs.Forms.{bits_of, BoolForm};
ghost use Rattle.sym_values.specs.Operations.{ValuesGive};
ghost use Rattle.sym_values.specs.Reading.{read, sure};
ghost use Rattle.sym_values.specs.Results.{IsOutcomeIn};
ghost use Rattle.list_values.specs.Sequences.{IsSequenceIn, item_width, items_of, MayBeIn};

use crate::views::parts_of;
use bit_lists::compare::has_word;
use bit_lists::parts::has_part;
use bit_words::NoMemory;
use bit_words::logic::Logic;
use sym_values::{SymOutcome, SymValue};

/// Whether a number is among those of a list, or a text stands in another.
pub fn member_bit<L: Logic>(
    g: &mut L,
    x: &SymValue<L::Bit>,
    a: &SymValue<L::Bit>,
) -> Result<L::Bit, NoMemory>
    requires list { IsSequenceIn L.owns g.old a.now }
    requires wide { 0 < item_width (items_of a.now) }
    requires alike { MayBeIn x.now a.now }
    requires item { OwnsAll L.owns g.old (bits_of x.now) }
    ensures extends { Extends L.owns L.reads L.count g.old g.new }
    ensures owned { IfOk result (λ r. L.owns g.new r) }
    ensures value { IfOk result (λ r. (vs : List Bool) (v w : Value) →
        read (L.reads g.old vs) x.now ≡ sure v → read (L.reads g.old vs) a.now ≡ sure w
        → Ok (L.reads g.new vs r) ≡ member v w) }
{
    let list = parts_of(a);
    match x {
        SymValue::Int(word) => {
            let found = has_word(g, word, &list)?;
            Ok(found)
        }
        SymValue::Text { .. } => {
            let part = parts_of(x);
            let found = has_part(g, &part, &list)?;
            Ok(found)
        }
        _ => unreachable!(),
    }
}

/// The same, as a value.
pub fn membership<L: Logic>(
    g: &mut L,
    x: &SymValue<L::Bit>,
    a: &SymValue<L::Bit>,
) -> Result<SymOutcome<L::Bit>, NoMemory>
    requires list { IsSequenceIn L.owns g.old a.now }
    requires wide { 0 < item_width (items_of a.now) }
    requires alike { MayBeIn x.now a.now }
    requires item { OwnsAll L.owns g.old (bits_of x.now) }
    ensures extends { Extends L.owns L.reads L.count g.old g.new }
    ensures made { IfOk result (λ r. IsOutcomeIn L.owns g.new BoolForm r) }
    ensures value { IfOk result (λ r.
        ValuesGive L.reads g.old g.new x.now a.now r (λ v w. truth (compare Member v w))) }
{
    let found = member_bit(g, x, a)?;
    let fault = g.constant(false);
    Ok(SymOutcome {
        value: SymValue::Bool(found),
        fault,
    })
}

/// The opposite of it, as a value.
pub fn absence<L: Logic>(
    g: &mut L,
    x: &SymValue<L::Bit>,
    a: &SymValue<L::Bit>,
) -> Result<SymOutcome<L::Bit>, NoMemory>
    requires list { IsSequenceIn L.owns g.old a.now }
    requires wide { 0 < item_width (items_of a.now) }
    requires alike { MayBeIn x.now a.now }
    requires item { OwnsAll L.owns g.old (bits_of x.now) }
    ensures extends { Extends L.owns L.reads L.count g.old g.new }
    ensures made { IfOk result (λ r. IsOutcomeIn L.owns g.new BoolForm r) }
    ensures value { IfOk result (λ r.
        ValuesGive L.reads g.old g.new x.now a.now r (λ v w. truth (compare NotMember v w))) }
{
    let found = member_bit(g, x, a)?;
    let bit = g.not(found);
    let fault = g.constant(false);
    Ok(SymOutcome {
        value: SymValue::Bool(bit),
        fault,
    })
}
