//! A part of a list or a text.

ghost use Rattle.std.specs.Prelude.{◌≡◌, ◌<◌, ◌≤◌, length, IfOk, IfSome};
ghost use Rattle.mpy_tree.specs.Operations.{slice as cut_value};
ghost use Rattle.bit_words.specs.Logic.{Extends, OwnsAll};
ghost use Rattle.bit_lists.specs.Slices.{end_read};
ghost use Rattle.sym_values.specs.Forms.{form_of};
ghost use Rattle.sym_values.specs.Results.{IsOutcomeIn};
ghost use Rattle.list_values.specs.Operations.{SequenceGives};
ghost use Rattle.list_values.specs.Sequences.{IsSequenceIn};

use crate::views::{like, parts_of};
use bit_lists::slices::slice;
use bit_words::NoMemory;
use bit_words::logic::Logic;
use bit_words::word::Word;
use std::alloc::Global;
use sym_values::{SymOutcome, SymValue};

/// The items of a list or a text from one end to another. There is never a fault.
pub fn part<L: Logic>(
    alloc: Global,
    g: &mut L,
    a: &SymValue<L::Bit>,
    from: Option<&Word<L::Bit>>,
    to: Option<&Word<L::Bit>>,
) -> Result<SymOutcome<L::Bit>, NoMemory>
    requires list { IsSequenceIn L.owns g.old a.now }
    requires wide_from { IfSome from (λ w. 0 < length w.now) }
    requires short_from { IfSome from (λ w. length w.now ≤ 16) }
    requires from { IfSome from (λ w. OwnsAll L.owns g.old w.now) }
    requires wide_to { IfSome to (λ w. 0 < length w.now) }
    requires short_to { IfSome to (λ w. length w.now ≤ 16) }
    requires to { IfSome to (λ w. OwnsAll L.owns g.old w.now) }
    ensures extends { Extends L.owns L.reads L.count g.old g.new }
    ensures made { IfOk result (λ r. IsOutcomeIn L.owns g.new (form_of a.now) r) }
    ensures value { IfOk result (λ r. SequenceGives L.reads g.old g.new a.now r (λ vs l v.
        cut_value v (end_read L.reads g.old vs from.entry) (end_read L.reads g.old vs to.entry))) }
{
    let list = parts_of(a);
    let items = slice(alloc, g, &list, from, to)?;
    let value = like(a, items.len, items.items);
    let fault = g.constant(false);
    Ok(SymOutcome { value, fault })
}
