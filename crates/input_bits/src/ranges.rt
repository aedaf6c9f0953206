//! Values within the range of their parameter.

ghost use Rattle.std.specs.Prelude.{◌≡◌, Bool, List, true, IfOk};
ghost use Rattle.bit_words.specs.Logic.{Extends, OwnsAll};
ghost use Rattle.bounds_reader.specs.Forms.{form_of as range_of};
ghost use Rattle.bounds_reader.specs.Ranges.{is_in_range};
ghost use Rattle.sym_values.specs.Forms.{bits_of, form_for, form_of};
ghost use Rattle.sym_values.specs.Reading.{read};
ghost use Rattle.sym_values.specs.Results.{IsValueIn};
ghost use Rattle.input_bits.specs.Known.{HasCharacters, is_right};
ghost use Rattle.input_bits.specs.Known.{highest, longest, lowest, shortest};
ghost use Rattle.input_space.specs.Inputs.{param_type};

use crate::item_ranges::{LengthRange, ranged_sequence};
use bit_words::NoMemory;
use bit_words::logic::Logic;
use bit_words::word::Word;
use bounds_reader::Param;
use input_ranges::ranged_number;
use mpy_tree::Limits;
use std::alloc::Global;
use sym_values::SymValue;

/// A value with what the range of its parameter fixes, and whether it is in that range.
#[derive(Drop)]
pub struct Ranged<B: Copy> {
    pub value: SymValue<B>,
    pub within: B,
}

// The ends of the range of a number.
#[derive(Clone, Copy)]
struct NumberRange {
    low: i32,
    high: i32,
}

fn number_range(param: &Param) -> NumberRange
    ensures low { result.low ≡ lowest param.now }
    ensures high { result.high ≡ highest param.now }
{
    match param {
        Param::Int { low, high } => NumberRange {
            low: *low,
            high: *high,
        },
        _ => NumberRange { low: 0, high: 0 },
    }
}

fn length_range(param: &Param) -> LengthRange
    ensures least { result.least ≡ shortest param.now }
    ensures most { result.most ≡ longest param.now }
    ensures characters { HasCharacters param.now }
{
    match param {
        Param::List { least, most, .. } => LengthRange {
            least: *least,
            most: *most,
        },
        Param::Text {
            least,
            most,
            alphabet,
        } => {
            let _ = alphabet.bytes();
            LengthRange {
                least: *least,
                most: *most,
            }
        }
        _ => LengthRange { least: 0, most: 0 },
    }
}

/// A value of the parameter's type, where the range of the parameter has no number out of the
/// limits. The bits that the range fixes are constants or other bits of the value. `within` is
/// true exactly where the value is one of the parameter; where it isn't, the value is open.
#[tactic(auto, using(sym_values::proofs::Held::parts))]
pub fn ranged_value<L: Logic>(
    alloc: Global,
    g: &mut L,
    limits: &Limits,
    param: &Param,
    value: &SymValue<L::Bit>,
) -> Result<Ranged<L::Bit>, NoMemory>
    requires form { form_of value.now ≡ form_for limits.now (param_type param.now) }
    requires range { is_in_range limits.now.width limits.now.cap (range_of param.now) ≡ true }
    requires owned { OwnsAll L.owns g.old (bits_of value.now) }
    ensures extends { Extends L.owns L.reads L.count g.old g.new }
    ensures made { IfOk result (λ r. IsValueIn L.owns g.new (form_of value.now) r.value) }
    ensures owned { IfOk result (λ r. L.owns g.new r.within) }
    ensures within { IfOk result (λ r. (vs : List Bool) → L.reads g.new vs r.within
        ≡ is_right param.now (read (L.reads g.old vs) value.now)) }
    ensures same { IfOk result (λ r. (vs : List Bool) → L.reads g.new vs r.within ≡ true
        → read (L.reads g.new vs) r.value ≡ read (L.reads g.old vs) value.now) }
{
    let _limits = *limits;
    match value {
        SymValue::Int(word) => {
            let ends = number_range(param);
            let known = ranged_number(alloc, g, word, ends.low, ends.high)?;
            let within = known.within;
            let number = Word::from_vec(known.bits.into_vec());
            let value = SymValue::Int(number);
            Ok(Ranged { value, within })
        }
        SymValue::Bool(bit) => {
            let value = SymValue::Bool(*bit);
            let within = g.constant(true);
            Ok(Ranged { value, within })
        }
        SymValue::List { len, items } => {
            let ends = length_range(param);
            let known = ranged_sequence(alloc, g, param, ends, len, items)?;
            let within = known.within;
            let value = SymValue::List {
                len: known.len,
                items: known.items,
            };
            Ok(Ranged { value, within })
        }
        SymValue::Text { len, items } => {
            let ends = length_range(param);
            let known = ranged_sequence(alloc, g, param, ends, len, items)?;
            let within = known.within;
            let value = SymValue::Text {
                len: known.len,
                items: known.items,
            };
            Ok(Ranged { value, within })
        }
    }
}
