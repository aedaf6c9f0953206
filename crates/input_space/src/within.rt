//! Which values a parameter may have, and which lists of values are inputs.
ghost use Rattle.std.specs.Prelude.{◌≡◌, ◌↔◌, ◌&&◌, ◌==◌, false, IsTrue, IfOk, length, map, nat_le};
ghost use Rattle.std.specs.List.{list_all, list_any, Contains};
ghost use Rattle.input_space.specs.Agreement.{compares};
ghost use Rattle.input_space.specs.Inputs.{are_within, inputs, is_between, is_within, param_type};

use crate::NoMemory;
use crate::case::Case;
use bounds_reader::{Bounds, Param};
use mpy_tree::{Limits, Signature, Ty, Tys, Value};
use std::alloc::Global;

/// The type of the parameter's values.
pub fn param_type(p: &Param) -> Ty
    ensures { result ≡ param_type p.now }
{
    match p {
        Param::Int { .. } => Ty::Int,
        Param::Bool => Ty::Bool,
        Param::List { .. } => Ty::List,
        Param::Text { .. } => Ty::Text,
    }
}

fn is_between(low: i32, high: i32, number: i32) -> bool
    ensures { result ≡ is_between low high number }
{
    low <= number && number <= high
}

fn are_between(low: i32, high: i32, numbers: &[i32]) -> bool
    ensures { result ≡ list_all (is_between low high) numbers.now }
{
    numbers.iter().all(|z| is_between(low, high, *z))
}

fn has_byte(bytes: &[u8], byte: u8) -> bool
    ensures { result ≡ list_any (λ d. d == byte) bytes.now }
{
    bytes.iter().any(|d| *d == byte)
}

fn has_bytes(bytes: &[u8], text: &[u8]) -> bool
    ensures { result ≡ list_all (λ c. list_any (λ d. d == c) bytes.now) text.now }
{
    text.iter().all(|c| has_byte(bytes, *c))
}

fn is_length(least: u32, most: u32, length: usize) -> bool
    ensures { result ≡ (nat_le least length && nat_le length most) }
{
    least as usize <= length && length <= most as usize
}

/// Whether the parameter may have this value: one of its type, within its ranges.
pub fn is_within(p: &Param, v: &Value) -> bool
    ensures { result ≡ is_within p.now v.now }
{
    match (p, v) {
        (Param::Int { low, high }, Value::Int(z)) => is_between(*low, *high, *z),
        (Param::Bool, Value::Bool(_)) => true,
        (
            Param::List {
                least,
                most,
                low,
                high,
            },
            Value::List(zs),
        ) => is_length(*least, *most, zs.len()) && are_between(*low, *high, zs.items()),
        (
            Param::Text {
                least,
                most,
                alphabet,
            },
            Value::Text(cs),
        ) => is_length(*least, *most, cs.len()) && has_bytes(alphabet.bytes(), cs.bytes()),
        _ => false,
    }
}

// Whether there is a value for each parameter, within its ranges.
fn are_within(params: &[Param], values: &[Value]) -> bool
    ensures { result ≡ are_within params.now values.now }
{
    if params.len() != values.len() {
        return false;
    }
    for i in 0..params.len() {
        if !is_within(&params[i], &values[i]) {
            return false;
        }
    }
    true
}

/// Whether the case is one of the inputs within the bounds.
pub fn in_bounds(b: &Bounds, c: &Case) -> bool
    ensures { IsTrue result ↔ Contains (inputs b.now.params) c.now.values }
{
    are_within(b.params.items(), c.values.items())
}

/// Whether what the graded function prints is compared, too.
pub fn compares(l: &Limits) -> bool
    ensures { result ≡ compares l.now }
{
    l.prints != 0
}

/// The graded function with the types of its parameters. It is to give a value, unless what it
/// prints is compared.
pub fn signature(alloc: Global, b: &Bounds) -> Result<Signature, NoMemory>
    ensures entry { IfOk result (λ s. s.entry ≡ b.now.entry) }
    ensures params { IfOk result (λ s. s.params ≡ map param_type b.now.params) }
    ensures free_result { IfOk result (λ s. s.free_result ≡ compares b.now.limits) }
{
    let mut types = Vec::new(alloc);
    for p in b.params.items() {
        types.push(param_type(p))?;
    }
    let entry = b.entry.copy()?;
    Ok(Signature {
        entry,
        params: Tys::from_vec(types),
        free_result: compares(&b.limits),
    })
}
