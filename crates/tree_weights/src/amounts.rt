//! What values, operators and calls weigh.
ghost use Rattle.std.specs.Prelude.{◌≡◌, ◌≤◌};
ghost use Rattle.mpy_tree.specs.Builtins.{builtin_of};
ghost use Rattle.tree_weights.specs.Weights.{arith_weight, bits, bits_of, builtin_weight};
ghost use Rattle.tree_weights.specs.Weights.{call_weight, compare_weight, kept_bits, member_weight};

use mpy_tree::{ArithOp, Builtin, CmpOp, Limits, Name, Ty};

/// How many bits a value of a type has.
pub fn bits(l: &Limits, ty: Ty) -> u128
    ensures bits { result ≡ bits l.now ty }
    ensures small { result ≤ 261 }
{
    let width = l.width as u128;
    let cap = l.cap as u128;
    match ty {
        Ty::Int => width,
        Ty::Bool => 1,
        Ty::List => cap * width + 5,
        Ty::Text => cap * 7 + 5,
    }
}

/// The same where there is a type, and none else.
pub fn bits_of(l: &Limits, ty: Option<Ty>) -> u128
    ensures bits { result ≡ bits_of l.now ty }
    ensures small { result ≤ 261 }
{
    match ty {
        None => 0,
        Some(ty) => bits(l, ty),
    }
}

/// How many bits the printed values have that are kept.
pub fn kept_bits(l: &Limits) -> u128
    ensures bits { result ≡ kept_bits l.now }
    ensures small { result ≤ 4096 }
{
    if l.prints == 0 {
        return 0;
    }
    let value = bits(l, Ty::List).max(bits(l, Ty::Text));
    5 + l.prints as u128 * (2 + value)
}

/// An operator, by the type of its first operand.
pub fn arith_weight(l: &Limits, op: ArithOp, ty: Option<Ty>) -> u128
    ensures weight { result ≡ arith_weight l.now op ty }
    ensures small { result ≤ 65536 }
{
    let width = l.width as u128;
    match (op, ty) {
        (ArithOp::Add, Some(Ty::Int)) | (ArithOp::Sub, _) => 8 * width,
        (ArithOp::Mul, Some(Ty::Int)) => 8 * (width * width),
        (ArithOp::Add | ArithOp::Mul, _) => 4 * (l.cap as u128 * bits_of(l, ty)),
        (ArithOp::Floor | ArithOp::Rem, _) => 16 * (width * width),
        (ArithOp::Power, _) => 16 * (width * width * width),
    }
}

/// A comparison, by the types of both operands.
pub fn compare_weight(l: &Limits, op: CmpOp, first: Option<Ty>, second: Option<Ty>) -> u128
    ensures weight { result ≡ compare_weight l.now op first second }
    ensures small { result ≤ 65536 }
{
    match op {
        CmpOp::Eq | CmpOp::Ne => 8 * bits_of(l, first),
        CmpOp::Member | CmpOp::NotMember => member_weight(l, second),
        CmpOp::Lt | CmpOp::Le | CmpOp::Gt | CmpOp::Ge => 8 * l.width as u128,
    }
}

// A search in a list or in a text.
fn member_weight(l: &Limits, ty: Option<Ty>) -> u128
    ensures weight { result ≡ member_weight l.now ty }
    ensures small { result ≤ 65536 }
{
    match ty {
        Some(Ty::Text) => 8 * (l.cap as u128 * bits(l, Ty::Text)),
        _ => 8 * bits(l, Ty::List),
    }
}

/// A call of a name, besides the body that it runs.
pub fn call_weight(l: &Limits, f: &Name) -> u128
    ensures weight { result ≡ call_weight l.now (builtin_of f.now) }
    ensures small { result ≤ 65536 }
{
    match Builtin::of(f.bytes()) {
        Some(b) => builtin_weight(l, b),
        None => 1,
    }
}

// A call of a builtin.
fn builtin_weight(l: &Limits, b: Builtin) -> u128
    ensures weight { result ≡ builtin_weight l.now b }
    ensures small { result ≤ 65536 }
{
    let width = l.width as u128;
    match b {
        Builtin::Len => 1,
        Builtin::Abs | Builtin::Min | Builtin::Max => 8 * width,
        Builtin::Range => 16 * (l.cap as u128 * width),
    }
}
