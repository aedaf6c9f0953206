//! The numbers of a `range`.
ghost use Rattle.std.specs.Prelude.{◌≡◌, ◌<◌, ℕ, ℤ, pos, ◌+ℤ◌, ◌*ℤ◌, FitsSigned, IfOk};
ghost use Rattle.std.specs.Int.{w32};
ghost use Rattle.value_operations.specs.Answers.{Meets};
ghost use Rattle.mpy_tree.specs.Values.{on_line};
ghost use Rattle.mpy_tree.specs.Operations.{before, progression, range, range_count};

use crate::stop::{Stop, faulted};
use mpy_tree::{FaultKind, Ints, Limits, NoMemory, Value};
use std::alloc::Global;

/// The list `a, a + c, ..` before `b`.
pub fn range(alloc: Global, l: &Limits, line: u32, a: i32, b: i32, c: i32) -> Result<Value, Stop>
    ensures { Meets result (on_line line (range l.now a b c)) }
{
    if c == 0 {
        return Err(faulted(FaultKind::Step, line));
    }
    let count = count_before(a, b, c);
    if count > l.cap as u64 {
        return Err(faulted(FaultKind::Length, line));
    }
    let numbers = numbers_from(alloc, a, c, count)?;
    Ok(Value::List(Ints::from_vec(numbers)))
}

// How many of `a, a + c, ..` stand before `b`.
fn count_before(a: i32, b: i32, c: i32) -> u64
    requires { c ≡ pos 0 → ⊥ }
    ensures { result ≡ range_count a b c }
{
    let step = c.unsigned_abs() as u64;
    let ahead = if is_before(c, a, b) {
        b.abs_diff(a) as u64
    } else {
        0
    };
    (ahead + (step - 1)) / step
}

// Whether a stands before the end b for the step c.
fn is_before(c: i32, a: i32, b: i32) -> bool
    ensures { result ≡ before c a b }
{
    if c >= 0 { a < b } else { b < a }
}

// The first numbers of `a, a + c, ..`, so many.
fn numbers_from(alloc: Global, a: i32, c: i32, count: u64) -> Result<Vec<i32>, NoMemory>
    requires { (k : ℕ) → k < count → FitsSigned w32 (a +ℤ (c *ℤ pos k)) }
    ensures { IfOk result (λ r. r.items ≡ progression a c count) }
{
    let mut numbers = Vec::with_capacity(alloc, count as usize)?;
    let mut next = a as i64;
    for _k in 0..count {
        numbers.push(next as i32)?;
        next += c as i64;
    }
    Ok(numbers)
}
