//! What metavariables stand for.
use choice_tree::Meta;
use mpy_tree::{ArithOp, CmpOp, Expr, Name};

/// What a metavariable stands for: an expression, the target of a statement, or an operator.
#[derive(Clone, Copy, Drop)]
pub enum Bound<'a> {
    Term(&'a Expr),
    Name(&'a Name),
    Arith(ArithOp),
    Cmp(CmpOp),
}

/// A metavariable with what it stands for.
#[derive(Clone, Copy, Drop)]
pub struct Binding<'a> {
    pub meta: Meta,
    pub bound: Bound<'a>,
}
