//! Operators on lists and texts.
ghost use Rattle.std.specs.Prelude.{◌≡◌, ◌*◌, ◌<◌, ◌≤◌, ◌⊎◌, MatchOption, ℕ, ◌++◌, ◌∷◌, [], length};
ghost use Rattle.std.specs.Prelude.{IfOk, IfSome, Ok, Err};
ghost use Rattle.value_operations.specs.Answers.{Meets, MeetsBy};
ghost use Rattle.value_operations.specs.Members.{member_in};
ghost use Rattle.mpy_tree.specs.Operations.{copy_count};
ghost use Rattle.mpy_tree.specs.Values.{on_line};
ghost use Rattle.mpy_tree.specs.Operations.{list_within, text_within, repeated, index, index_in};
ghost use Rattle.mpy_tree.specs.Operations.{element, slice, end_or, put, append};
ghost use Rattle.mpy_tree.specs.Operations.{cut};
ghost use Rattle.mpy_tree.specs.Expressions.{wholes, list_of, end_of, slice_of};

use crate::stop::{Stop, faulted, stuck};
use mpy_tree::{Chars, FaultKind, Halt, Ints, Limits, NoMemory, Value};
use std::alloc::Global;

/// A list, which may have at most `cap` numbers.
pub fn list_within_cap(l: &Limits, line: u32, xs: Ints) -> Result<Value, Stop>
    ensures { Meets result (on_line line (list_within l.now xs)) }
{
    if xs.len() <= l.cap as usize {
        Ok(Value::List(xs))
    } else {
        Err(faulted(FaultKind::Length, line))
    }
}

// A text, which may have at most `cap` characters.
fn text_within_cap(l: &Limits, line: u32, cs: Chars) -> Result<Value, Stop>
    ensures { Meets result (on_line line (text_within l.now cs)) }
{
    if cs.len() <= l.cap as usize {
        Ok(Value::Text(cs))
    } else {
        Err(faulted(FaultKind::Length, line))
    }
}

/// The value of a text literal.
pub fn text_literal(l: &Limits, line: u32, cs: &Chars) -> Result<Value, Stop>
    ensures { Meets result (on_line line (text_within l.now cs.now)) }
{
    text_within_cap(l, line, cs.copy()?)
}

/// The value of a list literal of these elements.
pub fn list_literal(alloc: Global, l: &Limits, line: u32, elements: &[Value]) -> Result<Value, Stop>
    ensures { Meets result (on_line line (list_of l.now elements.now)) }
{
    let numbers = numbers_of(alloc, line, elements)?;
    list_within_cap(l, line, Ints::from_vec(numbers))
}

/// The numbers that these values are.
pub fn numbers_of(alloc: Global, line: u32, values: &[Value]) -> Result<Vec<i32>, Stop>
    ensures { MeetsBy (λ v. v.items) result (on_line line (wholes values.now)) }
{
    let mut numbers = Vec::new(alloc);
    for v in values {
        match v {
            Value::Int(z) => numbers.push(*z)?,
            _ => return Err(stuck(line)),
        }
    }
    Ok(numbers)
}

/// `xs + ys` of lists.
pub fn join_lists(alloc: Global, l: &Limits, line: u32, xs: &Ints, ys: &Ints) -> Result<Value, Stop>
    ensures { Meets result (on_line line (list_within l.now (xs.now ++ ys.now))) }
{
    list_within_cap(l, line, xs.concat(alloc, ys)?)
}

/// `cs + ds` of texts.
pub fn join_texts(
    alloc: Global,
    l: &Limits,
    line: u32,
    cs: &Chars,
    ds: &Chars,
) -> Result<Value, Stop>
    ensures { Meets result (on_line line (text_within l.now (cs.now ++ ds.now))) }
{
    text_within_cap(l, line, cs.concat(alloc, ds)?)
}

/// `xs * n` of a list.
#[tactic(auto, using(crate::proofs::Copies::lists))]
pub fn repeat_list(alloc: Global, l: &Limits, line: u32, xs: &Ints, n: i32) -> Result<Value, Stop>
    ensures { Meets result (on_line line (list_within l.now (repeated xs.now n))) }
{
    match copies_within(xs.len(), n, l.cap) {
        Some(times) => Ok(Value::List(xs.repeat(alloc, times)?)),
        None => Err(faulted(FaultKind::Length, line)),
    }
}

/// `cs * n` of a text.
#[tactic(auto, using(crate::proofs::Copies::texts))]
pub fn repeat_text(alloc: Global, l: &Limits, line: u32, cs: &Chars, n: i32) -> Result<Value, Stop>
    ensures { Meets result (on_line line (text_within l.now (repeated cs.now n))) }
{
    match copies_within(cs.len(), n, l.cap) {
        Some(times) => Ok(Value::Text(cs.repeat(alloc, times)?)),
        None => Err(faulted(FaultKind::Length, line)),
    }
}

// How many copies of a list of so many elements a repetition makes, unless they are more than the
// cap.
fn copies_within(len: usize, n: i32, cap: u32) -> Option<usize>
    ensures { MatchOption result (cap < len * copy_count n)
        (λ times. (len * times ≤ cap) × ((len ≡ 0) ⊎ (times ≡ copy_count n))) }
{
    let times = if n > 0 { n as usize } else { 0 };
    if len == 0 {
        return Some(0);
    }
    match len.checked_mul(times) {
        Some(total) if total <= cap as usize => Some(times),
        _ => None,
    }
}

/// `v[i]`.
pub fn element_at(alloc: Global, line: u32, v: &Value, i: &Value) -> Result<Value, Stop>
    ensures { Meets result (on_line line (index v.now i.now)) }
{
    match (v, i) {
        (Value::List(xs), Value::Int(i)) => Ok(Value::Int(number_at(line, xs, *i)?)),
        (Value::Text(cs), Value::Int(i)) => character_at(alloc, line, cs, *i),
        _ => Err(stuck(line)),
    }
}

/// The number of a list at an index, if there is one.
#[inline]
pub fn number_in(xs: &Ints, i: i32) -> Option<i32>
    ensures { MatchOption result
        (element (index_in i (length xs.now)) xs.now ≡ Err (Halt.Fault FaultKind.Index))
        (λ z. element (index_in i (length xs.now)) xs.now ≡ Ok z) }
{
    match place_in(i, xs.len()) {
        None => None,
        Some(k) => match xs.items().get(k) {
            None => None,
            Some(z) => Some(*z),
        },
    }
}

// The number of a list at an index.
fn number_at(line: u32, xs: &Ints, i: i32) -> Result<i32, Stop>
    ensures { Meets result (on_line line (element (index_in i (length xs.now)) xs.now)) }
{
    match number_in(xs, i) {
        Some(z) => Ok(z),
        None => Err(faulted(FaultKind::Index, line)),
    }
}

/// The byte of a text at an index, if there is one.
#[inline]
pub fn byte_in(cs: &Chars, i: i32) -> Option<u8>
    ensures { IfSome result (λ c. element (index_in i (length cs.now)) cs.now ≡ Ok c) }
{
    match place_in(i, cs.len()) {
        None => None,
        Some(k) => match cs.bytes().get(k) {
            None => None,
            Some(c) => Some(*c),
        },
    }
}

// The character of a text at an index.
fn character_at(alloc: Global, line: u32, cs: &Chars, i: i32) -> Result<Value, Stop>
    ensures { Meets result (on_line line (index (Value.Text cs.now) (Value.Int i))) }
{
    match place_in(i, cs.len()) {
        None => Err(faulted(FaultKind::Index, line)),
        Some(k) => match cs.character(alloc, k)? {
            None => Err(faulted(FaultKind::Index, line)),
            Some(c) => Ok(Value::Text(c)),
        },
    }
}

// The place of an index among n elements.
#[inline]
fn place_in(i: i32, n: usize) -> Option<usize>
    ensures { result ≡ index_in i n }
{
    if i >= 0 {
        let k = i as usize;
        if k < n { Some(k) } else { None }
    } else {
        let back = (-(i as i64)) as usize;
        if back <= n { Some(n - back) } else { None }
    }
}

/// `v[start:end]`.
pub fn part_between(
    alloc: Global,
    line: u32,
    v: &Value,
    start: Option<Value>,
    end: Option<Value>,
) -> Result<Value, Stop>
    ensures { Meets result (on_line line (slice_of v.now start end)) }
{
    let start = end_number(line, start)?;
    let end = end_number(line, end)?;
    match v {
        Value::List(xs) => Ok(Value::List(part_of_list(alloc, xs, start, end)?)),
        Value::Text(cs) => Ok(Value::Text(part_of_text(alloc, cs, start, end)?)),
        _ => Err(stuck(line)),
    }
}

// The number of an end of a slice.
fn end_number(line: u32, v: Option<Value>) -> Result<Option<i32>, Stop>
    ensures { Meets result (on_line line (end_of v)) }
{
    match v {
        None => Ok(None),
        Some(Value::Int(z)) => Ok(Some(z)),
        Some(_) => Err(stuck(line)),
    }
}

// The numbers of a list between two ends.
fn part_of_list(
    alloc: Global,
    xs: &Ints,
    start: Option<i32>,
    end: Option<i32>,
) -> Result<Ints, NoMemory>
    ensures { IfOk result (λ r. r ≡ cut xs.now start end) }
{
    let n = xs.len();
    xs.part(alloc, clamp_end(0, start, n), clamp_end(n, end, n))
}

// The characters of a text between two ends.
fn part_of_text(
    alloc: Global,
    cs: &Chars,
    start: Option<i32>,
    end: Option<i32>,
) -> Result<Chars, NoMemory>
    ensures { IfOk result (λ r. r ≡ cut cs.now start end) }
{
    let n = cs.len();
    cs.part(alloc, clamp_end(0, start, n), clamp_end(n, end, n))
}

// An end of a slice of n elements, which may be missing.
fn clamp_end(default: usize, end: Option<i32>, n: usize) -> usize
    requires { default ≤ n }
    ensures same { result ≡ end_or default end n }
    ensures within { result ≤ n }
{
    match end {
        None => default,
        Some(i) => {
            if i >= 0 {
                n.min(i as usize)
            } else {
                n.saturating_sub((-(i as i64)) as usize)
            }
        }
    }
}

/// A list with one number replaced, `v[i] = w`.
pub fn replace_at(line: u32, v: Value, i: &Value, w: &Value) -> Result<Value, Stop>
    ensures { Meets result (on_line line (put v i.now w.now)) }
{
    match (v, i) {
        (Value::List(xs), Value::Int(i)) => replace_number(line, xs, *i, w),
        _ => Err(stuck(line)),
    }
}

// A list with one number replaced.
fn replace_number(line: u32, xs: Ints, i: i32, w: &Value) -> Result<Value, Stop>
    ensures { Meets result (on_line line (put (Value.List xs) (Value.Int i) w.now)) }
{
    let mut items = xs.into_vec();
    match (place_in(i, items.len()), w) {
        (None, _) => Err(faulted(FaultKind::Index, line)),
        (Some(k), Value::Int(z)) => {
            items[k] = *z;
            Ok(Value::List(Ints::from_vec(items)))
        }
        (Some(_), _) => Err(stuck(line)),
    }
}

/// A list with one more number, `v.append(w)`.
pub fn append_to(l: &Limits, line: u32, v: Value, w: &Value) -> Result<Value, Stop>
    ensures { Meets result (on_line line (append l.now v w.now)) }
{
    match (v, w) {
        (Value::List(xs), Value::Int(z)) => append_number(l, line, xs, *z),
        _ => Err(stuck(line)),
    }
}

// A list with one more number.
fn append_number(l: &Limits, line: u32, xs: Ints, z: i32) -> Result<Value, Stop>
    ensures { Meets result (on_line line (list_within l.now (xs ++ z ∷ []))) }
{
    let mut items = xs.into_vec();
    items.push(z)?;
    list_within_cap(l, line, Ints::from_vec(items))
}

/// The member at a place of those that a `for` goes over, if they are so many.
#[tactic(auto, using(crate::proofs::Members::number_at, crate::proofs::Members::character_at))]
pub fn member_at(alloc: Global, line: u32, v: &Value, k: usize) -> Result<Option<Value>, Stop>
    ensures { Meets result (on_line line (member_in v.now k)) }
{
    match v {
        Value::List(xs) => match xs.items().get(k) {
            None => Ok(None),
            Some(z) => Ok(Some(Value::Int(*z))),
        },
        Value::Text(cs) => match cs.character(alloc, k)? {
            None => Ok(None),
            Some(c) => Ok(Some(Value::Text(c))),
        },
        _ => Err(stuck(line)),
    }
}
