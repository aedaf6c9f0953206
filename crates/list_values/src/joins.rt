//! A list or a text after another, and a list with one number more.

ghost use Rattle.std.specs.Prelude.{◌≡◌, IfOk};
ghost use Rattle.mpy_tree.specs.Operations.{append as appended, arith};
ghost use Rattle.mpy_tree.specs.declared.operators.ArithOp.TheVariants.{Add};
ghost use Rattle.bit_words.specs.Logic.{Extends, OwnsAll};
ghost use Rattle.sym_values.specs.Forms.{form_of};
ghost use Rattle.sym_values.specs.Operations.{number_read};
ghost use Rattle.sym_values.specs.Results.{IsOutcomeIn};
ghost use Rattle.list_values.specs.Operations.{SequenceGives, SequencesGive};
ghost use Rattle.list_values.specs.Sequences.{IsSequenceIn, IsWordFor};

use crate::views::{like, parts_of};
use bit_lists::joins::{append, concat};
use bit_words::NoMemory;
use bit_words::logic::Logic;
use bit_words::word::Word;
use std::alloc::Global;
use sym_values::{SymOutcome, SymValue};

/// One list or text and then another, or Length.
pub fn concatenation<L: Logic>(
    alloc: Global,
    g: &mut L,
    a: &SymValue<L::Bit>,
    b: &SymValue<L::Bit>,
) -> Result<SymOutcome<L::Bit>, NoMemory>
    requires left { IsSequenceIn L.owns g.old a.now }
    requires right { IsSequenceIn L.owns g.old b.now }
    requires alike { form_of b.now ≡ form_of a.now }
    ensures extends { Extends L.owns L.reads L.count g.old g.new }
    ensures made { IfOk result (λ r. IsOutcomeIn L.owns g.new (form_of a.now) r) }
    ensures value { IfOk result (λ r.
        SequencesGive L.reads g.old g.new a.now b.now r (λ l. arith l Add)) }
{
    let left = parts_of(a);
    let right = parts_of(b);
    let joined = concat(alloc, g, &left, &right)?;
    let value = like(a, joined.len, joined.items);
    Ok(SymOutcome {
        value,
        fault: joined.fault,
    })
}

/// A list with one number more, or Length.
pub fn extension<L: Logic>(
    alloc: Global,
    g: &mut L,
    a: &SymValue<L::Bit>,
    number: &Word<L::Bit>,
) -> Result<SymOutcome<L::Bit>, NoMemory>
    requires list { IsSequenceIn L.owns g.old a.now }
    requires alike { IsWordFor number.now a.now }
    requires number { OwnsAll L.owns g.old number.now }
    ensures extends { Extends L.owns L.reads L.count g.old g.new }
    ensures made { IfOk result (λ r. IsOutcomeIn L.owns g.new (form_of a.now) r) }
    ensures value { IfOk result (λ r. SequenceGives L.reads g.old g.new a.now r
        (λ vs l v. appended l v (number_read L.reads g.old vs number.now))) }
{
    let list = parts_of(a);
    let longer = append(alloc, g, &list, number)?;
    let value = like(a, longer.len, longer.items);
    Ok(SymOutcome {
        value,
        fault: longer.fault,
    })
}
