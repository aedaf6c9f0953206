//! Operators on numbers.
ghost use Rattle.std.specs.Prelude.{◌≡◌, ℕ, ◌-◌, ◌*◌, ◌^◌, ◌<◌, ◌≤◌, pos, negsuc, ◌+ℤ◌, ◌-ℤ◌, ◌*ℤ◌};
ghost use Rattle.std.specs.Prelude.{◌≤ℤ◌, ◌<ℤ◌, neg_ℤ, MatchOption, Ok, Err};
ghost use Rattle.value_operations.specs.Answers.{Meets, GivesNumber};
ghost use Rattle.mpy_tree.specs.Values.{on_line};
ghost use Rattle.mpy_tree.specs.Operations.{number, arith, floor, quotient, remainder, power};

use crate::stop::{Stop, faulted};
use mpy_tree::{ArithOp, FaultKind, Halt, Limits, Value};

/// How many numbers of the width are below zero.
pub fn half(l: &Limits) -> i64
    ensures { result ≡ pos (2 ^ (l.now.width - 1)) }
{
    (1u64 << (l.width - 1)) as i64
}

/// A number, if it is one of the width.
#[inline]
pub fn within(l: &Limits, z: i64) -> Option<i32>
    ensures { MatchOption result (number l.now z ≡ Err (Halt.Fault FaultKind.Overflow))
        (λ n. number l.now z ≡ Ok (Value.Int n)) }
{
    let half = half(l);
    if -half <= z && z < half {
        Some(z as i32)
    } else {
        None
    }
}

/// A length, if it is a number of the width.
#[inline]
pub fn length_within(l: &Limits, n: usize) -> Option<i32>
    ensures { MatchOption result (number l.now (pos n) ≡ Err (Halt.Fault FaultKind.Overflow))
        (λ z. number l.now (pos n) ≡ Ok (Value.Int z)) }
{
    let half = half(l) as usize;
    if n < half { Some(n as i32) } else { None }
}

/// A number, which must be one of the width.
pub fn make_number(l: &Limits, line: u32, z: i64) -> Result<Value, Stop>
    ensures { Meets result (on_line line (number l.now z)) }
{
    match within(l, z) {
        Some(n) => Ok(Value::Int(n)),
        None => Err(faulted(FaultKind::Overflow, line)),
    }
}

/// A length, which must be a number of the width.
pub fn make_length(l: &Limits, line: u32, n: usize) -> Result<Value, Stop>
    ensures { Meets result (on_line line (number l.now (pos n))) }
{
    match length_within(l, n) {
        Some(z) => Ok(Value::Int(z)),
        None => Err(faulted(FaultKind::Overflow, line)),
    }
}

/// `a // b`.
pub fn divide(l: &Limits, line: u32, a: i32, b: i32) -> Result<Value, Stop>
    ensures { Meets result (on_line line (quotient l.now a b)) }
{
    if b == 0 {
        Err(faulted(FaultKind::Divisor, line))
    } else {
        make_number(l, line, floor_of(a as i64, b as i64))
    }
}

/// `a % b`.
pub fn modulo(l: &Limits, line: u32, a: i32, b: i32) -> Result<Value, Stop>
    ensures { Meets result (on_line line (remainder l.now a b)) }
{
    if b == 0 {
        Err(faulted(FaultKind::Divisor, line))
    } else {
        make_number(l, line, rest_of(a as i64, b as i64))
    }
}

/// What `a op b` of numbers gives, where it gives a number and isn't a power.
#[inline]
pub fn number_by(l: &Limits, op: ArithOp, a: i32, b: i32) -> Option<i32>
    ensures { GivesNumber result (arith l.now op (Value.Int a) (Value.Int b)) }
{
    match op {
        ArithOp::Add => within(l, a as i64 + b as i64),
        ArithOp::Sub => within(l, a as i64 - b as i64),
        ArithOp::Mul => within(l, product_of(a, b)),
        ArithOp::Floor => quotient_within(l, a, b),
        ArithOp::Rem => rest_within(l, a, b),
        ArithOp::Power => None,
    }
}

// `a // b`, where it is a number of the width.
fn quotient_within(l: &Limits, a: i32, b: i32) -> Option<i32>
    ensures { GivesNumber result (quotient l.now a b) }
{
    if b == 0 {
        None
    } else {
        within(l, floor_of(a as i64, b as i64))
    }
}

// `a % b`, where it is a number of the width.
fn rest_within(l: &Limits, a: i32, b: i32) -> Option<i32>
    ensures { GivesNumber result (remainder l.now a b) }
{
    if b == 0 {
        None
    } else {
        within(l, rest_of(a as i64, b as i64))
    }
}

/// `a * b`.
#[inline]
pub fn product_of(a: i32, b: i32) -> i64
    ensures { result ≡ a *ℤ b }
{
    a as i64 * b as i64
}

/// `a ** b`.
pub fn raise(l: &Limits, line: u32, a: i32, b: i32) -> Result<Value, Stop>
    ensures { Meets result (on_line line (power l.now a b)) }
{
    if b < 0 {
        return Err(faulted(FaultKind::Power, line));
    }
    match a.checked_pow(b as u32) {
        Some(z) => make_number(l, line, z as i64),
        None => Err(faulted(FaultKind::Overflow, line)),
    }
}

// The quotient, rounded towards minus infinity.
fn floor_of(a: i64, b: i64) -> i64
    requires a_fits { (neg_ℤ (pos (2 ^ 31)) ≤ℤ a) × (a <ℤ pos (2 ^ 31)) }
    requires b_fits { (neg_ℤ (pos (2 ^ 31)) ≤ℤ b) × (b <ℤ pos (2 ^ 31)) }
    requires nonzero { b ≡ pos 0 → ⊥ }
    ensures { result ≡ floor a b }
{
    if b > 0 {
        a.div_euclid(b)
    } else {
        (-a).div_euclid(-b)
    }
}

// What is left of a division that rounds towards minus infinity.
fn rest_of(a: i64, b: i64) -> i64
    requires a_fits { (neg_ℤ (pos (2 ^ 31)) ≤ℤ a) × (a <ℤ pos (2 ^ 31)) }
    requires b_fits { (neg_ℤ (pos (2 ^ 31)) ≤ℤ b) × (b <ℤ pos (2 ^ 31)) }
    requires nonzero { b ≡ pos 0 → ⊥ }
    ensures { result ≡ a -ℤ (b *ℤ floor a b) }
{
    if b > 0 {
        a.rem_euclid(b)
    } else {
        -((-a).rem_euclid(-b))
    }
}
