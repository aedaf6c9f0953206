//! The builtin functions.
ghost use Rattle.std.specs.Prelude.{◌≡◌};
ghost use Rattle.value_operations.specs.Answers.{Meets, GivesNumber};
ghost use Rattle.mpy_tree.specs.Values.{on_line};
ghost use Rattle.mpy_tree.specs.Operations.{absolute, greatest, least, length_of};
ghost use Rattle.mpy_tree.specs.Expressions.{builtin, range_of_numbers};

use crate::lists::numbers_of;
use crate::numbers::{length_within, make_length, make_number};
use crate::ranges::range;
use crate::stop::{Stop, stuck};
use mpy_tree::{Builtin, Limits, Value};
use std::alloc::Global;

/// What a builtin gives on its arguments.
pub fn call_builtin(
    alloc: Global,
    l: &Limits,
    line: u32,
    b: Builtin,
    args: &[Value],
) -> Result<Value, Stop>
    ensures { Meets result (on_line line (builtin l.now b args.now)) }
{
    match (b, args) {
        (Builtin::Len, [v]) => length(l, line, v),
        (Builtin::Abs, [v]) => absolute_value(l, line, v),
        (Builtin::Min, [v, w]) => lesser(line, v, w),
        (Builtin::Max, [v, w]) => greater(line, v, w),
        (Builtin::Range, _) => {
            let numbers = numbers_of(alloc, line, args)?;
            range_over(alloc, l, line, &numbers)
        }
        _ => Err(stuck(line)),
    }
}

// `len(v)`.
fn length(l: &Limits, line: u32, v: &Value) -> Result<Value, Stop>
    ensures { Meets result (on_line line (length_of l.now v.now)) }
{
    match v {
        Value::List(xs) => make_length(l, line, xs.len()),
        Value::Text(cs) => make_length(l, line, cs.len()),
        _ => Err(stuck(line)),
    }
}

/// The number that `len(v)` gives, where it gives one.
#[inline]
pub fn length_of_value(l: &Limits, v: &Value) -> Option<i32>
    ensures { GivesNumber result (length_of l.now v.now) }
{
    match v {
        Value::List(xs) => length_within(l, xs.len()),
        Value::Text(cs) => length_within(l, cs.len()),
        _ => None,
    }
}

// `abs(a)`.
fn absolute_value(l: &Limits, line: u32, v: &Value) -> Result<Value, Stop>
    ensures { Meets result (on_line line (absolute l.now v.now)) }
{
    match v {
        Value::Int(a) => make_number(l, line, (*a as i64).abs()),
        _ => Err(stuck(line)),
    }
}

// `min(a, b)`.
fn lesser(line: u32, v: &Value, w: &Value) -> Result<Value, Stop>
    ensures { Meets result (on_line line (least v.now w.now)) }
{
    match (v, w) {
        (Value::Int(a), Value::Int(b)) => Ok(Value::Int((*a).min(*b))),
        _ => Err(stuck(line)),
    }
}

// `max(a, b)`.
fn greater(line: u32, v: &Value, w: &Value) -> Result<Value, Stop>
    ensures { Meets result (on_line line (greatest v.now w.now)) }
{
    match (v, w) {
        (Value::Int(a), Value::Int(b)) => Ok(Value::Int((*a).max(*b))),
        _ => Err(stuck(line)),
    }
}

// `range` of these numbers.
fn range_over(alloc: Global, l: &Limits, line: u32, numbers: &[i32]) -> Result<Value, Stop>
    ensures { Meets result (on_line line (range_of_numbers l.now numbers.now)) }
{
    match numbers {
        [b] => range(alloc, l, line, 0, *b, 1),
        [a, b] => range(alloc, l, line, *a, *b, 1),
        [a, b, c] => range(alloc, l, line, *a, *b, *c),
        _ => Err(stuck(line)),
    }
}
