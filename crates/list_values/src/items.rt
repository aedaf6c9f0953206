//! The item at an index, and a list with another number there.

ghost use Rattle.std.specs.Prelude.{◌≡◌, ◌<◌, ◌≤◌, Bool, List, [], ◌∷◌, length, map, replicate};
ghost use Rattle.std.specs.Prelude.{IfOk};
ghost use Rattle.mpy_tree.specs.Operations.{index as item_of, put as put_value};
ghost use Rattle.bit_words.specs.Logic.{Extends, OwnsAll};
ghost use Rattle.bit_words.specs.Results.{IsWordIn};
ghost use Rattle.bit_words.specs.Words.{nat_read};
ghost use Rattle.sym_values.specs.Forms.{form_of, TextForm};
ghost use Rattle.sym_values.specs.Operations.{number_read};
ghost use Rattle.sym_values.specs.Reading.{read, sure};
ghost use Rattle.sym_values.specs.Results.{IsOutcomeIn, IsValueIn};
ghost use Rattle.list_values.specs.Operations.{SequenceGives};
ghost use Rattle.list_values.specs.Sequences.{IsSequenceIn, IsWordFor, item_form, item_of_kind};
ghost use Rattle.list_values.specs.Sequences.{item_width, items_of};

use crate::literals::padded;
use crate::views::{like, parts_of};
use bit_lists::items::{index, put};
use bit_lists::lengths::constant_length;
use bit_words::NoMemory;
use bit_words::logic::Logic;
use bit_words::word::Word;
use bit_words::words::Words;
use mpy_tree::Value;
use std::alloc::Global;
use sym_values::{SymOutcome, SymValue};

/// A text of one character, with so much room.
fn one_character<L: Logic>(
    alloc: Global,
    g: &L,
    character: Word<L::Bit>,
    room: usize,
) -> Result<SymValue<L::Bit>, NoMemory>
    requires some { 0 < room }
    requires character { OwnsAll L.owns g.now character }
    ensures made { IfOk result (λ r.
        IsValueIn L.owns g.now (TextForm 5 (replicate room (length character))) r) }
    ensures value { IfOk result (λ r. (vs : List Bool) → read (L.reads g.now vs) r
        ≡ sure (Value.Text (nat_read L.reads g.now vs character ∷ []))) }
{
    let width = character.len();
    let len = constant_length(alloc, g, 1)?;
    let mut first = Words::new(alloc);
    first.push(character)?;
    let items = padded(alloc, g, first, width, room)?;
    Ok(SymValue::Text { len, items })
}

/// A word as an item of a list or a text: a number, or a text of one character.
pub(crate) fn as_item<L: Logic>(
    alloc: Global,
    g: &L,
    a: &SymValue<L::Bit>,
    word: Word<L::Bit>,
) -> Result<SymValue<L::Bit>, NoMemory>
    requires list { IsSequenceIn L.owns g.now a.now }
    requires word { IsWordIn L.owns g.now (item_width (items_of a.now)) word }
    ensures made { IfOk result (λ r. IsValueIn L.owns g.now (item_form a.now) r) }
    ensures value { IfOk result (λ r. (vs : List Bool) →
        read (L.reads g.now vs) r ≡ sure (item_of_kind a.now (map (L.reads g.now vs) word))) }
{
    match a {
        SymValue::List { .. } => Ok(SymValue::Int(word)),
        SymValue::Text { items, .. } => {
            let text = one_character(alloc, g, word, items.len())?;
            Ok(text)
        }
        _ => unreachable!(),
    }
}

/// The item at an index, which counts from the end below zero, or Index.
pub fn item<L: Logic>(
    alloc: Global,
    g: &mut L,
    a: &SymValue<L::Bit>,
    place: &Word<L::Bit>,
) -> Result<SymOutcome<L::Bit>, NoMemory>
    requires list { IsSequenceIn L.owns g.old a.now }
    requires wide { 0 < length place.now }
    requires short { length place.now ≤ 16 }
    requires place { OwnsAll L.owns g.old place.now }
    ensures extends { Extends L.owns L.reads L.count g.old g.new }
    ensures made { IfOk result (λ r. IsOutcomeIn L.owns g.new (item_form a.now) r) }
    ensures value { IfOk result (λ r. SequenceGives L.reads g.old g.new a.now r
        (λ vs l v. item_of v (number_read L.reads g.old vs place.now))) }
{
    let list = parts_of(a);
    let found = index(alloc, g, &list, place)?;
    let value = as_item(alloc, g, a, found.word)?;
    Ok(SymOutcome {
        value,
        fault: found.fault,
    })
}

/// A list with another number at an index, which counts from the end below zero, or Index.
pub fn replacement<L: Logic>(
    alloc: Global,
    g: &mut L,
    a: &SymValue<L::Bit>,
    place: &Word<L::Bit>,
    number: &Word<L::Bit>,
) -> Result<SymOutcome<L::Bit>, NoMemory>
    requires list { IsSequenceIn L.owns g.old a.now }
    requires alike { IsWordFor number.now a.now }
    requires wide { 0 < length place.now }
    requires short { length place.now ≤ 16 }
    requires place { OwnsAll L.owns g.old place.now }
    requires number { OwnsAll L.owns g.old number.now }
    ensures extends { Extends L.owns L.reads L.count g.old g.new }
    ensures made { IfOk result (λ r. IsOutcomeIn L.owns g.new (form_of a.now) r) }
    ensures value { IfOk result (λ r. SequenceGives L.reads g.old g.new a.now r
        (λ vs l v. put_value v (number_read L.reads g.old vs place.now)
        (number_read L.reads g.old vs number.now))) }
{
    let list = parts_of(a);
    let changed = put(alloc, g, &list, place, number)?;
    let value = like(a, changed.len, changed.items);
    Ok(SymOutcome {
        value,
        fault: changed.fault,
    })
}
