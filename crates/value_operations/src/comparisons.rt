//! Comparisons, and what a value is as a test.
ghost use Rattle.std.specs.Prelude.{◌≡◌, ◌⊎◌, IfSome, Ok};
ghost use Rattle.value_operations.specs.Answers.{Meets};
ghost use Rattle.mpy_tree.specs.Values.{on_line};
ghost use Rattle.mpy_tree.specs.Operations.{holds, compare, equal, truth, has_number, is_front};
ghost use Rattle.mpy_tree.specs.Operations.{is_part, member};

use crate::stop::{Stop, stuck};
use mpy_tree::{CmpOp, Value};

/// What a value is as a test.
pub fn is_true(v: &Value) -> bool
    ensures { result ≡ holds v.now }
{
    match v {
        Value::Int(a) => *a != 0,
        Value::Bool(b) => *b,
        Value::List(xs) => xs.len() != 0,
        Value::Text(cs) => cs.len() != 0,
    }
}

/// A comparison as a value.
pub fn compared(line: u32, op: CmpOp, a: &Value, b: &Value) -> Result<Value, Stop>
    ensures { Meets result (on_line line (truth (compare op a.now b.now))) }
{
    let holds = relate(line, op, a, b)?;
    Ok(Value::Bool(holds))
}

// Whether a comparison holds.
fn relate(line: u32, op: CmpOp, a: &Value, b: &Value) -> Result<bool, Stop>
    ensures { Meets result (on_line line (compare op a.now b.now)) }
{
    match op {
        CmpOp::Eq => equals(line, a, b),
        CmpOp::Ne => Ok(!equals(line, a, b)?),
        CmpOp::Lt => compare_numbers(op, line, a, b),
        CmpOp::Le => compare_numbers(op, line, a, b),
        CmpOp::Gt => compare_numbers(op, line, a, b),
        CmpOp::Ge => compare_numbers(op, line, a, b),
        CmpOp::Member => contains(line, a, b),
        CmpOp::NotMember => Ok(!contains(line, a, b)?),
    }
}

// Whether a number stands before another as the operator says.
fn compare_numbers(op: CmpOp, line: u32, a: &Value, b: &Value) -> Result<bool, Stop>
    requires { (op ≡ CmpOp.Lt) ⊎ (op ≡ CmpOp.Le) ⊎ (op ≡ CmpOp.Gt) ⊎ (op ≡ CmpOp.Ge) }
    ensures { Meets result (on_line line (compare op a.now b.now)) }
{
    match (a, b) {
        (Value::Int(a), Value::Int(b)) => Ok(match op {
            CmpOp::Lt => *a < *b,
            CmpOp::Le => *a <= *b,
            CmpOp::Gt => *b < *a,
            _ => *b <= *a,
        }),
        _ => Err(stuck(line)),
    }
}

/// Whether a comparison of two numbers holds; none for one with a list.
#[inline]
pub fn relate_numbers(op: CmpOp, a: i32, b: i32) -> Option<bool>
    ensures { IfSome result (λ t. compare op (Value.Int a) (Value.Int b) ≡ Ok t) }
{
    match op {
        CmpOp::Eq => Some(a == b),
        CmpOp::Ne => Some(a != b),
        CmpOp::Lt => Some(a < b),
        CmpOp::Le => Some(a <= b),
        CmpOp::Gt => Some(b < a),
        CmpOp::Ge => Some(b <= a),
        CmpOp::Member => None,
        CmpOp::NotMember => None,
    }
}

// Whether two values of one type are equal.
fn equals(line: u32, a: &Value, b: &Value) -> Result<bool, Stop>
    ensures { Meets result (on_line line (equal a.now b.now)) }
{
    match (a, b) {
        (Value::Int(a), Value::Int(b)) => Ok(*a == *b),
        (Value::Bool(a), Value::Bool(b)) => Ok(*a == *b),
        (Value::List(a), Value::List(b)) => Ok(a.items() == b.items()),
        (Value::Text(a), Value::Text(b)) => Ok(a.bytes() == b.bytes()),
        _ => Err(stuck(line)),
    }
}

// Whether a number is in a list, or a text in a text.
fn contains(line: u32, a: &Value, b: &Value) -> Result<bool, Stop>
    ensures { Meets result (on_line line (member a.now b.now)) }
{
    match (a, b) {
        (Value::Int(z), Value::List(xs)) => Ok(contains_number(xs.items(), *z)),
        (Value::Text(cs), Value::Text(ds)) => Ok(contains_text(ds.bytes(), cs.bytes())),
        _ => Err(stuck(line)),
    }
}

// Whether a number is in a list.
fn contains_number(xs: &[i32], z: i32) -> bool
    ensures { result ≡ has_number z xs.now }
{
    for x in xs {
        if z == *x {
            return true;
        }
    }
    false
}

// Whether a text stands somewhere in another.
fn contains_text(text: &[u8], part: &[u8]) -> bool
    ensures { result ≡ is_part part.now text.now }
{
    for k in 0..text.len() {
        if begins_with(&text[k..], part) {
            return true;
        }
    }
    part.is_empty()
}

// Whether a text begins with another.
#[tactic(auto, using(mpy_tree::proofs::Texts::front_past))]
fn begins_with(text: &[u8], front: &[u8]) -> bool
    ensures { result ≡ is_front front.now text.now }
{
    for (i, c) in front.iter().enumerate() {
        match text.get(i) {
            None => return false,
            Some(d) => {
                if *c != *d {
                    return false;
                }
            }
        }
    }
    true
}
