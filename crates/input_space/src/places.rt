//! The input at a place of the order.
ghost use Rattle.std.specs.Prelude.{◌≡◌, ◌<◌, ◌≤◌, ◌+◌, ◌-◌, ◌*◌, ◌^◌, suc, length};
ghost use Rattle.std.specs.Prelude.{IfOk, replicate, slice_get};
ghost use Rattle.input_space.specs.Counts.{lists_count};
ghost use Rattle.input_space.specs.Inputs.{inputs, numbers, span, tuples, values_of};

use crate::NoMemory;
use crate::case::Case;
use crate::counting::{count_of, lengths, power, span};
use bounds_reader::{Bounds, Param};
use mpy_tree::{Chars, Ints, Value, Values};
use std::alloc::Global;

// The length of a list, counted from the least, and the list's place among those of its length.
#[derive(Clone, Copy)]
struct Place {
    more: u64,
    rest: u64,
}

// Where the list at the place `i` stands, over so many elements and of a length from `least` to
// `most`.
fn place_of(base: u64, least: u32, most: u32, i: u64) -> Place
    requires within { i < lists_count base least (suc most - least) }
    requires counted { lists_count base least (suc most - least) < 1000000000000 }
    ensures length { result.more < suc most - least }
    ensures place { i ≡ lists_count base least result.more + result.rest }
    ensures rest { result.rest < base ^ (least + result.more) }
{
    let last = lengths(least, most) - 1;
    let mut rest = i;
    for more in 0..last {
        let block = power(base, u64::from(least) + more);
        if rest < block {
            return Place { more, rest };
        }
        rest -= block;
    }
    Place { more: last, rest }
}

// The number at the place `k` among those from `low` to `high`.
#[tactic(auto, using(crate::proofs::Orders::get_number))]
fn number_at(low: i32, high: i32, k: u64) -> i32
    requires { k < span low high }
    ensures { slice_get (numbers low high) k ≡ Some result }
{
    (i64::from(low) + k as i64) as i32
}

// The place of a list's first element, and that of the others among the lists of their length.
#[derive(Clone, Copy)]
struct Parts {
    first: u64,
    others: u64,
}

// Where the list at the place `i` stands among those of so many of `base` elements.
fn split(base: u64, len: u64, i: u64) -> Parts
    requires some { 0 < len }
    requires within { i < base ^ len }
    requires counted { base ^ len < 1000000000000 }
    ensures first { result.first < base }
    ensures others { result.others < base ^ (len - 1) }
    ensures place { i ≡ result.first * base ^ (len - 1) + result.others }
{
    let block = power(base, len - 1);
    Parts {
        first: i / block,
        others: i % block,
    }
}

// The list at the place `i` among those of so many numbers from `low` to `high`.
fn numbers_at(alloc: Global, low: i32, high: i32, len: u64, i: u64) -> Result<Vec<i32>, NoMemory>
    requires within { i < span low high ^ len }
    requires counted { span low high ^ len < 1000000000000 }
    ensures { IfOk result
        (λ v. slice_get (tuples (replicate len (numbers low high))) i ≡ Some v.items) }
{
    let base = span(low, high);
    let mut found = Vec::new(alloc);
    let mut rest = i;
    for k in 0..len {
        let parts = split(base, len - k, rest);
        found.push(number_at(low, high, parts.first))?;
        rest = parts.others;
    }
    Ok(found)
}

// The text at the place `i` among those of so many characters of the alphabet.
fn characters_at(alloc: Global, alphabet: &[u8], len: u64, i: u64) -> Result<Vec<u8>, NoMemory>
    requires within { i < length alphabet.now ^ len }
    requires counted { length alphabet.now ^ len < 1000000000000 }
    ensures { IfOk result
        (λ v. slice_get (tuples (replicate len alphabet.now)) i ≡ Some v.items) }
{
    let base = alphabet.len() as u64;
    let mut found = Vec::new(alloc);
    let mut rest = i;
    for k in 0..len {
        let parts = split(base, len - k, rest);
        found.push(alphabet[parts.first as usize])?;
        rest = parts.others;
    }
    Ok(found)
}

// The value at the place `i` among those that the parameter may have.
fn value_at(alloc: Global, p: &Param, i: u64) -> Result<Value, NoMemory>
    requires within { i < length (values_of p.now) }
    requires counted { length (values_of p.now) < 1000000000000 }
    ensures { IfOk result (λ v. slice_get (values_of p.now) i ≡ Some v) }
{
    match p {
        Param::Int { low, high } => Ok(Value::Int(number_at(*low, *high, i))),
        Param::Bool => Ok(Value::Bool(i == 1)),
        Param::List {
            least,
            most,
            low,
            high,
        } => {
            let place = place_of(span(*low, *high), *least, *most, i);
            let len = u64::from(*least) + place.more;
            let numbers = numbers_at(alloc, *low, *high, len, place.rest)?;
            Ok(Value::List(Ints::from_vec(numbers)))
        }
        Param::Text {
            least,
            most,
            alphabet,
        } => {
            let place = place_of(alphabet.len() as u64, *least, *most, i);
            let len = u64::from(*least) + place.more;
            let characters = characters_at(alloc, alphabet.bytes(), len, place.rest)?;
            Ok(Value::Text(Chars::from_vec(characters)))
        }
    }
}

/// The input at the place `i` of the order in which the last parameter varies fastest: numbers
/// rise, False stands before True, and lists and texts go by length and then element by element,
/// characters in the order of their alphabet.
pub fn case_at(alloc: Global, b: &Bounds, i: u64) -> Result<Case, NoMemory>
    requires within { i < length (inputs b.now.params) }
    requires counted { length (inputs b.now.params) < 1000000000000 }
    ensures { IfOk result (λ c. slice_get (inputs b.now.params) i ≡ Some c.values) }
{
    let params = b.params.items();
    let mut values = Vec::new(alloc);
    let mut rest = i;
    for (k, p) in params.iter().enumerate() {
        let block = count_of(&params[k + 1..]);
        values.push(value_at(alloc, p, rest / block)?)?;
        rest %= block;
    }
    Ok(Case {
        values: Values::from_vec(values),
    })
}
