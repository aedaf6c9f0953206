//! The values of up to 64 cases, as truth tables.

ghost use Rattle.std.specs.Prelude.{◌≡◌, ◌<◌, ◌≤◌, List, Bool, Some, All, IfOk, length, map};
ghost use Rattle.std.specs.Prelude.{replicate};
ghost use Rattle.mpy_tree.specs.declared.value.Value.{Value as AnyValue};
ghost use Rattle.sym_values.specs.Reading.{read, sure};
ghost use Rattle.sym_values.specs.Results.{AreWordsIn};
ghost use Rattle.bit_lanes.specs.declared.lanes.Lanes.{Lanes as AnyLanes};
ghost use Rattle.bit_lanes.specs.Columns.{IsColumn, value_in};
ghost use Rattle.bit_lanes.specs.Digits.{items_digits};
ghost use Rattle.bit_lanes.specs.Lane.{lane_of, reads_table};
ghost use Rattle.bit_lanes.specs.LaneCases.{AreTabled, FillLanes, IsTabled, Owns, ReadAsCases};
ghost use Rattle.bit_lanes.specs.LaneCases.{first_types};

use crate::columns::{heads, items};
use crate::tables::{table, tables};
use bit_words::NoMemory;
use bit_words::bits::Bits;
use bit_words::word::Word;
use bit_words::words::Words;
use input_space::{Case, Cases};
use mpy_tree::{Limits, Ty};
use std::alloc::Global;
use sym_values::SymValue;

/// The items of the lists or texts at a place of the cases, each as so many tables.
fn item_words(
    alloc: Global,
    cap: usize,
    cases: &[Case],
    place: usize,
    width: usize,
) -> Result<Words<u64>, NoMemory>
    requires some { 0 < length cases.now }
    requires there { All (λ c. place < length c.values) cases.now }
    requires digits { width ≤ 64 }
    ensures made { IfOk result (λ r.
        (s : AnyLanes) → AreWordsIn Owns s (replicate cap width) r) }
    ensures value { IfOk result (λ r. (vs : List Bool) (v : AnyValue)
        → value_in cases.now place (lane_of 6 vs) ≡ Some v
        → map (map (reads_table vs)) r ≡ items_digits cap width v) }
{
    let mut words = Words::new(alloc);
    for index in 0..cap {
        let column = items(cases, place, index);
        let word = tables(alloc, &column, width)?;
        words.push(Word::from_vec(word))?;
    }
    Ok(words)
}

/// The values at a place of the cases, which have a type.
fn lane_value(
    alloc: Global,
    l: &Limits,
    ty: Ty,
    cases: &[Case],
    place: usize,
) -> Result<SymValue<u64>, NoMemory>
    requires { IsColumn l.now ty cases.now place }
    ensures made { IfOk result (λ r. IsTabled l.now r ty) }
    ensures value { IfOk result (λ r. (vs : List Bool) (v : AnyValue)
        → value_in cases.now place (lane_of 6 vs) ≡ Some v
        → read (reads_table vs) r ≡ sure v) }
{
    let column = heads(cases, place);
    match ty {
        Ty::Int => {
            let word = tables(alloc, &column, l.width as usize)?;
            Ok(SymValue::Int(Word::from_vec(word)))
        }
        Ty::Bool => Ok(SymValue::Bool(table(&column, 0))),
        Ty::List => {
            let len = Bits::from_vec(tables(alloc, &column, 5)?);
            let items = item_words(alloc, l.cap as usize, cases, place, l.width as usize)?;
            Ok(SymValue::List { len, items })
        }
        Ty::Text => {
            let len = Bits::from_vec(tables(alloc, &column, 5)?);
            let items = item_words(alloc, l.cap as usize, cases, place, 7)?;
            Ok(SymValue::Text { len, items })
        }
    }
}

/// The values of 1 to 64 cases of equal types, side by side. In each lane they read as the case of
/// its number, and past the last case as the last.
pub fn lane_values(alloc: Global, l: &Limits, cases: &Cases) -> Result<Vec<SymValue<u64>>, NoMemory>
    requires { FillLanes l.now cases.now }
    ensures made { IfOk result (λ r. AreTabled l.now r.items (first_types cases.now)) }
    ensures value { IfOk result (λ r. ReadAsCases cases.now r.items) }
{
    let cases = cases.items();
    let first = cases[0].values.items();
    let mut values = Vec::with_capacity(alloc, first.len())?;
    for place in 0..first.len() {
        let value = lane_value(alloc, l, first[place].ty(), cases, place)?;
        values.push(value)?;
    }
    Ok(values)
}
