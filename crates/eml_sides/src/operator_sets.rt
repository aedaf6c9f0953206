//! Sets of operators, as `{+, -}` and `{<, <=}`.
ghost use Rattle.std.specs.Prelude.{◌≡◌, option_map, IfOk};
ghost use Rattle.eml_sides.specs.OperatorSets.{arith_of, comparison_of, ariths_at, comparisons_at};

use crate::NoMemory;
use crate::singles::is_mark;
use choice_tree::{ArithOps, CmpOps};
use mpy_lexer::Token;
use mpy_tree::{ArithOp, CmpOp};
use std::alloc::Global;

// One of the operators of the level of `+` or of `*`.
fn arith_of(token: &Token) -> Option<ArithOp>
    ensures { result ≡ arith_of token.now }
{
    if is_mark(token, b"+") {
        return Some(ArithOp::Add);
    }
    if is_mark(token, b"-") {
        return Some(ArithOp::Sub);
    }
    if is_mark(token, b"*") {
        return Some(ArithOp::Mul);
    }
    if is_mark(token, b"//") {
        return Some(ArithOp::Floor);
    }
    if is_mark(token, b"%") {
        return Some(ArithOp::Rem);
    }
    None
}

// One of the comparisons that are marks.
fn comparison_of(token: &Token) -> Option<CmpOp>
    ensures { result ≡ comparison_of token.now }
{
    if is_mark(token, b"==") {
        return Some(CmpOp::Eq);
    }
    if is_mark(token, b"!=") {
        return Some(CmpOp::Ne);
    }
    if is_mark(token, b"<") {
        return Some(CmpOp::Lt);
    }
    if is_mark(token, b"<=") {
        return Some(CmpOp::Le);
    }
    if is_mark(token, b">") {
        return Some(CmpOp::Gt);
    }
    if is_mark(token, b">=") {
        return Some(CmpOp::Ge);
    }
    None
}

/// The operators of the level of `+` up to the closing brace, and the tokens behind it.
pub(crate) fn ariths_at(
    alloc: Global,
    tokens: &[Token],
) -> Result<Option<(ArithOps, &[Token])>, NoMemory>
    ensures { IfOk result (λ r. option_map (λ x. (x.0, x.1.now)) r ≡ ariths_at tokens.now) }
{
    let mut found = Vec::new(alloc);
    let mut rest = tokens;
    while let [first, second, behind @ ..] = rest {
        let Some(op) = arith_of(first) else {
            return Ok(None);
        };
        found.push(op)?;
        if is_mark(second, b"}") {
            return Ok(Some((ArithOps::from_vec(found), behind)));
        }
        if !is_mark(second, b",") {
            return Ok(None);
        }
        rest = behind;
    }
    Ok(None)
}

/// The comparisons up to the closing brace, and the tokens behind it.
pub(crate) fn comparisons_at(
    alloc: Global,
    tokens: &[Token],
) -> Result<Option<(CmpOps, &[Token])>, NoMemory>
    ensures { IfOk result
        (λ r. option_map (λ x. (x.0, x.1.now)) r ≡ comparisons_at tokens.now) }
{
    let mut found = Vec::new(alloc);
    let mut rest = tokens;
    while let [first, second, behind @ ..] = rest {
        let Some(op) = comparison_of(first) else {
            return Ok(None);
        };
        found.push(op)?;
        if is_mark(second, b"}") {
            return Ok(Some((CmpOps::from_vec(found), behind)));
        }
        if !is_mark(second, b",") {
            return Ok(None);
        }
        rest = behind;
    }
    Ok(None)
}
