//! The operators of expressions.

/// An operator on numbers; some take lists and texts too.
#[derive(Clone, Copy, PartialEq, Eq, Debug, Drop)]
pub enum ArithOp {
    Add,
    Sub,
    Mul,
    Floor,
    Rem,
    Power,
}

/// A comparison, or a test of membership.
#[derive(Clone, Copy, PartialEq, Eq, Debug, Drop)]
pub enum CmpOp {
    Eq,
    Ne,
    Lt,
    Le,
    Gt,
    Ge,
    Member,
    NotMember,
}
