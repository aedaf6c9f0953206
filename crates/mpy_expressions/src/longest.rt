//! The longest expression from a place of a list of tokens.
ghost use Rattle.std.specs.Prelude.{◌≡◌, ◌≤◌, length, IfOk, IfErr};
ghost use Rattle.mpy_tree.specs.View.{term_of};
ghost use Rattle.mpy_expressions.specs.Longest.{EndsAt, IsLongest, NoneBegins, OneExpression};
ghost use Rattle.mpy_expressions.specs.declared.longest.ExprError.TheVariants as expr_error;

use crate::expressions::expression;
use crate::terminals::terminals_of;
use mpy_lexer::Tokens;
use mpy_tree::{Expr, Level};
use std::alloc::{AllocError, Global};

/// Why no expression is given.
#[derive(Clone, Copy, PartialEq, Eq, Debug, Drop)]
pub enum ExprError {
    /// No expression begins at the place.
    NoExpr,
    /// There was no memory.
    NoMemory,
}

impl From<AllocError> for ExprError {
    ghost from_gives = { λ _ e. e ≡ expr_error.NoMemory };

    fn from(_error: AllocError) -> ExprError {
        ExprError::NoMemory
    }
}

/// The longest expression that the tokens spell from a place on, counted from 0, and the place
/// behind it.
///
/// Takes time linear in the number of tokens from the place on, and goes as deep as they nest
/// brackets and operators.
pub fn read_expr(alloc: Global, toks: &Tokens, from: usize) -> Result<(Expr, usize), ExprError>
    requires { from ≤ length toks.now }
    ensures found { IfOk result (λ r. EndsAt toks.now from r.1 (term_of r.0)) }
    ensures longest { IfOk result (λ r. IsLongest toks.now from r.1) }
    ensures none { IfErr result (λ e. e ≡ expr_error.NoExpr → NoneBegins toks.now from) }
{
    let tokens = &toks.items()[from..];
    let seen = terminals_of(alloc, tokens)?;
    match expression::<Expr>(alloc, Level::Conditional, &seen)? {
        None => Err(ExprError::NoExpr),
        Some((e, rest)) => Ok((e, toks.len() - rest.len())),
    }
}

/// Terminals spell one expression at most.
pub fn one_expression()
    ensures holds { OneExpression }
{}
