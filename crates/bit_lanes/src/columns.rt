//! Columns: a number for each lane, from the values at one place of the cases.

ghost use Rattle.std.specs.Prelude.{◌≡◌, ◌<◌, List, All, length, Some};
ghost use Rattle.bit_lanes.specs.Columns.{GivesLanes, HasPrintable, HavePrintable, head_of};
ghost use Rattle.bit_lanes.specs.Columns.{item_of, value_in};

use input_space::Case;
use mpy_tree::Value;

/// How many lanes there are.
pub(crate) const LANES: usize = 64;

/// A number for each lane.
pub(crate) type Column = [u64; LANES];

// The value of a lane at a place.
fn value_of(cases: &[Case], place: usize, lane: usize) -> &Value
    requires some { 0 < length cases.now }
    requires there { All (λ c. place < length c.values) cases.now }
    ensures { value_in cases.now place lane ≡ Some result.now }
{
    let last = cases.len() - 1;
    &cases[lane.min(last)].values.items()[place]
}

/// In each lane the number itself in two's complement, the truth value, or the length.
pub(crate) fn heads(cases: &[Case], place: usize) -> Column
    requires some { 0 < length cases.now }
    requires there { All (λ c. place < length c.values) cases.now }
    ensures lanes { GivesLanes head_of cases.now place result }
    ensures printable { HavePrintable cases.now place }
{
    let mut column = [0; LANES];
    for lane in 0..LANES {
        column[lane] = head(value_of(cases, place, lane));
    }
    column
}

/// In each lane the element in two's complement, or the character, at an index, and 0 past the
/// end.
pub(crate) fn items(cases: &[Case], place: usize, index: usize) -> Column
    requires some { 0 < length cases.now }
    requires there { All (λ c. place < length c.values) cases.now }
    ensures { GivesLanes (item_of index) cases.now place result }
{
    let mut column = [0; LANES];
    for lane in 0..LANES {
        column[lane] = item(value_of(cases, place, lane), index);
    }
    column
}

fn head(value: &Value) -> u64
    ensures value { result ≡ head_of value.now }
    ensures printable { HasPrintable value.now }
{
    match value {
        Value::Int(number) => u64::from(number.cast_unsigned()),
        Value::Bool(truth) => u64::from(*truth),
        Value::List(numbers) => numbers.len() as u64,
        Value::Text(characters) => characters.bytes().len() as u64,
    }
}

fn item(value: &Value, index: usize) -> u64
    ensures { result ≡ item_of index value.now }
{
    match value {
        Value::List(numbers) => match numbers.items().get(index) {
            Some(number) => u64::from(number.cast_unsigned()),
            None => 0,
        },
        Value::Text(characters) => match characters.bytes().get(index) {
            Some(character) => u64::from(*character),
            None => 0,
        },
        Value::Int(_) | Value::Bool(_) => 0,
    }
}
