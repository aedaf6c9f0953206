//! The arguments of a case: of each value that is split the length is a constant.

ghost use Rattle.std.specs.Prelude.{◌≡◌, ◌<◌, Bool, List, true, length, map, nat_eq, take, IfOk};
ghost use Rattle.mpy_tree.specs.declared.value.Value.{Value};
ghost use Rattle.bit_words.specs.Logic.{Extends, OwnsAll};
ghost use Rattle.bit_words.specs.Results.{IsWordIn};
ghost use Rattle.bit_words.specs.Words.{nat_read};
ghost use Rattle.sym_values.specs.Forms.{bits_of, form_of, forms_of, joined, lengths, values_bits};
ghost use Rattle.sym_values.specs.Reading.{read, sure};
ghost use Rattle.sym_values.specs.Results.{AreWordsIn, IsValueIn};
ghost use Rattle.input_bits.specs.Cases.{has_length_of, is_in_case, is_in_part};

use crate::item_ranges::{KnownItems, filled_up};
use crate::parts::Split;
use crate::ranges::Ranged;
use bit_words::NoMemory;
use bit_words::bits::Bits;
use bit_words::logic::Logic;
use bit_words::words::Words;
use input_ranges::single_length;
use std::alloc::Global;
use sym_values::{SymValue, SymValues};

/// The arguments of a case, and the condition under which they count.
#[derive(Drop)]
pub struct InputCase<B: Copy> {
    pub condition: B,
    pub args: SymValues<B>,
}

// The first items, at most so many.
fn first_words<B: Copy>(alloc: Global, items: &Words<B>, count: usize) -> Result<Words<B>, NoMemory>
    ensures { IfOk result (λ r. r ≡ take count items.now) }
{
    let end = count.min(items.len());
    let mut words = Words::new(alloc);
    for j in 0..end {
        let word = items.at(j).copy()?;
        words.push(word)?;
    }
    Ok(words)
}

// A list or a text of one length, and whether it has that.
#[tactic(auto, using(bit_words::proofs::Kept::steps))]
fn of_length<L: Logic>(
    alloc: Global,
    g: &mut L,
    len: &Bits<L::Bit>,
    items: &Words<L::Bit>,
    number: u32,
) -> Result<KnownItems<L::Bit>, NoMemory>
    requires owned_len { OwnsAll L.owns g.old len.now }
    requires owned { OwnsAll L.owns g.old (joined items.now) }
    ensures extends { Extends L.owns L.reads L.count g.old g.new }
    ensures made_len { IfOk result (λ r. IsWordIn L.owns g.new (length len.now) r.len) }
    ensures made { IfOk result (λ r. AreWordsIn L.owns g.new (lengths items.now) r.items) }
    ensures owned { IfOk result (λ r. L.owns g.new r.within) }
    ensures within { IfOk result (λ r. (vs : List Bool) → L.reads g.new vs r.within
        ≡ nat_eq (nat_read L.reads g.old vs len.now) number) }
    ensures same { IfOk result (λ r. (vs : List Bool) → L.reads g.new vs r.within ≡ true
        → (map (L.reads g.new vs) r.len ≡ map (L.reads g.old vs) len.now)
        × (take (nat_read L.reads g.old vs len.now) (map (map (L.reads g.new vs)) r.items)
        ≡ take (nat_read L.reads g.old vs len.now) (map (map (L.reads g.old vs)) items.now))) }
{
    let known = single_length(alloc, g, len.as_slice(), number)?;
    let words = first_words(alloc, items, number as usize)?;
    let whole = filled_up(alloc, g, words, items)?;
    Ok(KnownItems {
        len: known.bits,
        items: whole,
        within: known.within,
    })
}

// A list or a text in a part of a split, and whether it belongs there.
#[tactic(auto, using(bit_words::proofs::Kept::steps))]
fn sequence_part<L: Logic>(
    alloc: Global,
    g: &mut L,
    len: &Bits<L::Bit>,
    items: &Words<L::Bit>,
    split: Split,
    part: u32,
) -> Result<KnownItems<L::Bit>, NoMemory>
    requires part { part < split.parts }
    requires owned_len { OwnsAll L.owns g.old len.now }
    requires owned { OwnsAll L.owns g.old (joined items.now) }
    ensures extends { Extends L.owns L.reads L.count g.old g.new }
    ensures made_len { IfOk result (λ r. IsWordIn L.owns g.new (length len.now) r.len) }
    ensures made { IfOk result (λ r. AreWordsIn L.owns g.new (lengths items.now) r.items) }
    ensures owned { IfOk result (λ r. L.owns g.new r.within) }
    ensures within { IfOk result (λ r. (vs : List Bool) → L.reads g.new vs r.within
        ≡ has_length_of split part (nat_read L.reads g.old vs len.now)) }
    ensures same { IfOk result (λ r. (vs : List Bool) → L.reads g.new vs r.within ≡ true
        → (map (L.reads g.new vs) r.len ≡ map (L.reads g.old vs) len.now)
        × (take (nat_read L.reads g.old vs len.now) (map (map (L.reads g.new vs)) r.items)
        ≡ take (nat_read L.reads g.old vs len.now) (map (map (L.reads g.old vs)) items.now))) }
{
    let is_whole = split.parts == 1;
    if is_whole {
        let len = len.copy()?;
        let items = items.copy()?;
        let within = g.constant(true);
        return Ok(KnownItems { len, items, within });
    }
    let known = of_length(alloc, g, len, items, split.first + part)?;
    Ok(known)
}

// A value in a part of a split, and whether it belongs there.
#[tactic(auto, using(sym_values::proofs::Held::parts))]
fn value_part<L: Logic>(
    alloc: Global,
    g: &mut L,
    value: &SymValue<L::Bit>,
    split: Split,
    part: u32,
) -> Result<Ranged<L::Bit>, NoMemory>
    requires part { part < split.parts }
    requires owned { OwnsAll L.owns g.old (bits_of value.now) }
    ensures extends { Extends L.owns L.reads L.count g.old g.new }
    ensures made { IfOk result (λ r. IsValueIn L.owns g.new (form_of value.now) r.value) }
    ensures owned { IfOk result (λ r. L.owns g.new r.within) }
    ensures within { IfOk result (λ r. (vs : List Bool) (v : Value)
        → read (L.reads g.old vs) value.now ≡ sure v
        → L.reads g.new vs r.within ≡ is_in_part split part v) }
    ensures same { IfOk result (λ r. (vs : List Bool) → L.reads g.new vs r.within ≡ true
        → read (L.reads g.new vs) r.value ≡ read (L.reads g.old vs) value.now) }
{
    match value {
        SymValue::Int(word) => {
            let number = word.copy()?;
            let value = SymValue::Int(number);
            let within = g.constant(true);
            Ok(Ranged { value, within })
        }
        SymValue::Bool(bit) => {
            let value = SymValue::Bool(*bit);
            let within = g.constant(true);
            Ok(Ranged { value, within })
        }
        SymValue::List { len, items } => {
            let known = sequence_part(alloc, g, len, items, split, part)?;
            let within = known.within;
            let value = SymValue::List {
                len: known.len,
                items: known.items,
            };
            Ok(Ranged { value, within })
        }
        SymValue::Text { len, items } => {
            let known = sequence_part(alloc, g, len, items, split, part)?;
            let within = known.within;
            let value = SymValue::Text {
                len: known.len,
                items: known.items,
            };
            Ok(Ranged { value, within })
        }
    }
}

/// The arguments of the case with a number, counted from 0: its digits are the parts of the values,
/// the first value's the lowest. The condition is true exactly where the values belong to the case;
/// the arguments then read as the values, and else they are open.
pub fn input_case<L: Logic>(
    alloc: Global,
    g: &mut L,
    values: &SymValues<L::Bit>,
    splits: &[Split],
    number: u32,
) -> Result<InputCase<L::Bit>, NoMemory>
    requires alike { length splits.now ≡ length values.now }
    requires owned { OwnsAll L.owns g.old (values_bits values.now) }
    ensures extends { Extends L.owns L.reads L.count g.old g.new }
    ensures owned { IfOk result (λ r. L.owns g.new r.condition) }
    ensures owned_args { IfOk result (λ r. OwnsAll L.owns g.new (values_bits r.args)) }
    ensures forms { IfOk result (λ r. forms_of r.args ≡ forms_of values.now) }
    ensures condition { IfOk result (λ r. (vs : List Bool) (xs : List Value)
        → map (read (L.reads g.old vs)) values.now ≡ map sure xs
        → L.reads g.new vs r.condition ≡ is_in_case splits.now number xs) }
    ensures args { IfOk result (λ r. (vs : List Bool) → L.reads g.new vs r.condition ≡ true
        → map (read (L.reads g.new vs)) r.args ≡ map (read (L.reads g.old vs)) values.now) }
{
    let mut condition = g.constant(true);
    let mut args = SymValues::new(alloc);
    let mut rest = number;
    for i in 0..values.len() {
        let split = splits[i];
        let part = rest % split.parts;
        let known = value_part(alloc, g, values.at(i), split, part)?;
        condition = g.and(condition, known.within)?;
        args.push(known.value)?;
        rest /= split.parts;
    }
    Ok(InputCase { condition, args })
}
