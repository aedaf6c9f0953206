//! What a node gives on values.

ghost use Rattle.std.specs.Prelude.{◌≡◌, ◌+◌, ◌<◌, ◌∷◌, [], length, IfOk, IsTrue};
ghost use Rattle.mpy_tree.specs.Values.{on_line};
ghost use Rattle.choice_tree.specs.Heads.{HasParts, head_kind, one_if};
ghost use Rattle.sym_nodes.specs.Nodes.{end_value, operation, sliced};
ghost use Rattle.value_operations.specs.Answers.{Meets};

use bit_words::NoMemory;
use choice_tree::Head;
use mpy_tree::{Builtin, Limits, Value};
use std::alloc::Global;
use value_operations::{
    Stop, call_builtin, compared, element_at, is_true, list_literal, make_number, negate, operate,
    part_between, stuck, text_literal,
};

/// No line: where a fault was isn't told.
const NOWHERE: u32 = 0;

/// Two values.
#[derive(Drop)]
struct Pair<'a> {
    first: &'a Value,
    second: &'a Value,
}

/// The only value.
fn only(values: &[Value]) -> &Value
    requires { length values.now ≡ 1 }
    ensures { values.now ≡ result.now ∷ [] }
{
    match values {
        [value] => value,
        _ => unreachable!(),
    }
}

/// The two values.
fn both(values: &[Value]) -> Pair<'_>
    requires { length values.now ≡ 2 }
    ensures { values.now ≡ result.first.now ∷ result.second.now ∷ [] }
{
    match values {
        [first, second] => Pair { first, second },
        _ => unreachable!(),
    }
}

/// The value at a place, or none where it isn't asked for.
fn end_at(values: &[Value], there: bool, place: usize) -> Result<Option<Value>, NoMemory>
    requires { IsTrue there → place < length values.now }
    ensures { IfOk result (λ r. r ≡ end_value values.now there place) }
{
    if there {
        Ok(Some(values[place].copy()?))
    } else {
        Ok(None)
    }
}

/// A part of the first value, by the ends that are there.
fn part_given(alloc: Global, from: bool, to: bool, values: &[Value]) -> Result<Value, Stop>
    requires { length values.now ≡ 1 + one_if from + one_if to }
    ensures { Meets result (on_line NOWHERE (sliced from to values.now)) }
{
    let low = end_at(values, from, 1)?;
    let high = end_at(values, to, values.len() - 1)?;
    part_between(alloc, NOWHERE, &values[0], low, high)
}

/// What a node gives on the values of its parts.
pub fn given(
    alloc: Global,
    limits: &Limits,
    head: Head<'_>,
    values: &[Value],
) -> Result<Value, Stop>
    requires { HasParts (head_kind head) (length values.now) }
    ensures { Meets result
        (on_line NOWHERE (operation limits.now (head_kind head.entry) values.now)) }
{
    match head {
        Head::Int(n) => make_number(limits, NOWHERE, n as i64),
        Head::Bool(b) => Ok(Value::Bool(b)),
        Head::Text(t) => text_literal(limits, NOWHERE, t),
        Head::List => list_literal(alloc, limits, NOWHERE, values),
        Head::Neg => negate(limits, NOWHERE, only(values)),
        Head::Not => Ok(Value::Bool(!is_true(only(values)))),
        Head::Arith(op) => {
            let two = both(values);
            operate(alloc, limits, NOWHERE, op, two.first, two.second)
        }
        Head::Cmp(op) => {
            let two = both(values);
            compared(NOWHERE, op, two.first, two.second)
        }
        Head::Index => {
            let two = both(values);
            element_at(alloc, NOWHERE, two.first, two.second)
        }
        Head::Slice(from, to) => part_given(alloc, from, to, values),
        Head::Call(f) => match Builtin::of(f.bytes()) {
            Some(builtin) => call_builtin(alloc, limits, NOWHERE, builtin, values),
            None => Err(stuck(NOWHERE)),
        },
        Head::Name(_) | Head::And | Head::Or | Head::Cond => Err(stuck(NOWHERE)),
    }
}
