//! Operators on values.
ghost use Rattle.std.specs.Prelude.{◌≡◌, ◌⊎◌};
ghost use Rattle.value_operations.specs.Answers.{Meets};
ghost use Rattle.mpy_tree.specs.Values.{on_line};
ghost use Rattle.mpy_tree.specs.Operations.{arith, sum, product, negative};

use crate::lists::{join_lists, join_texts, repeat_list, repeat_text};
use crate::numbers::{divide, make_number, modulo, product_of, raise};
use crate::stop::{Stop, stuck};
use mpy_tree::{ArithOp, Limits, Value};
use std::alloc::Global;

/// `-v`.
pub fn negate(l: &Limits, line: u32, v: &Value) -> Result<Value, Stop>
    ensures { Meets result (on_line line (negative l.now v.now)) }
{
    match v {
        Value::Int(a) => make_number(l, line, -(*a as i64)),
        _ => Err(stuck(line)),
    }
}

/// `a op b` of numbers, lists and texts.
pub fn operate(
    alloc: Global,
    l: &Limits,
    line: u32,
    op: ArithOp,
    a: &Value,
    b: &Value,
) -> Result<Value, Stop>
    ensures { Meets result (on_line line (arith l.now op a.now b.now)) }
{
    match op {
        ArithOp::Add => add(alloc, l, line, a, b),
        ArithOp::Mul => multiply(alloc, l, line, a, b),
        ArithOp::Sub => operate_on_numbers(l, line, op, a, b),
        ArithOp::Floor => operate_on_numbers(l, line, op, a, b),
        ArithOp::Rem => operate_on_numbers(l, line, op, a, b),
        ArithOp::Power => operate_on_numbers(l, line, op, a, b),
    }
}

// `a + b`.
fn add(alloc: Global, l: &Limits, line: u32, a: &Value, b: &Value) -> Result<Value, Stop>
    ensures { Meets result (on_line line (sum l.now a.now b.now)) }
{
    match (a, b) {
        (Value::Int(a), Value::Int(b)) => make_number(l, line, *a as i64 + *b as i64),
        (Value::List(xs), Value::List(ys)) => join_lists(alloc, l, line, xs, ys),
        (Value::Text(cs), Value::Text(ds)) => join_texts(alloc, l, line, cs, ds),
        _ => Err(stuck(line)),
    }
}

// `a * b`.
fn multiply(alloc: Global, l: &Limits, line: u32, a: &Value, b: &Value) -> Result<Value, Stop>
    ensures { Meets result (on_line line (product l.now a.now b.now)) }
{
    match (a, b) {
        (Value::Int(a), Value::Int(b)) => make_number(l, line, product_of(*a, *b)),
        (Value::List(xs), Value::Int(n)) => repeat_list(alloc, l, line, xs, *n),
        (Value::Text(cs), Value::Int(n)) => repeat_text(alloc, l, line, cs, *n),
        _ => Err(stuck(line)),
    }
}

// `a op b` of an operator that takes numbers alone.
fn operate_on_numbers(
    l: &Limits,
    line: u32,
    op: ArithOp,
    a: &Value,
    b: &Value,
) -> Result<Value, Stop>
    requires { (op ≡ ArithOp.Sub) ⊎ (op ≡ ArithOp.Floor) ⊎ (op ≡ ArithOp.Rem)
        ⊎ (op ≡ ArithOp.Power) }
    ensures { Meets result (on_line line (arith l.now op a.now b.now)) }
{
    match (a, b) {
        (Value::Int(a), Value::Int(b)) => match op {
            ArithOp::Floor => divide(l, line, *a, *b),
            ArithOp::Rem => modulo(l, line, *a, *b),
            ArithOp::Power => raise(l, line, *a, *b),
            _ => make_number(l, line, *a as i64 - *b as i64),
        },
        _ => Err(stuck(line)),
    }
}
