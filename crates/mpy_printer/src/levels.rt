//! The highest level of the grammar that spells an expression.
ghost use Rattle.std.specs.Prelude.{◌≡◌};
ghost use Rattle.mpy_tree.specs.Printing.{level_of};
ghost use Rattle.mpy_tree.specs.View.{term_of};

use mpy_tree::{Expr, Level};

/// The highest level that spells an expression without parentheses round it.
pub(crate) fn level_of_expr(e: &Expr) -> Level
    ensures { result ≡ level_of (term_of e.now) }
{
    match e {
        Expr::Cond { .. } => Level::Conditional,
        Expr::Or(..) => Level::Disjunction,
        Expr::And(..) => Level::Conjunction,
        Expr::Not(_) => Level::Negation,
        Expr::Cmp(..) => Level::Comparison,
        Expr::Arith(op, _, _) => Level::of(*op),
        Expr::Neg(_) => Level::Unary,
        Expr::Index(..) | Expr::Slice(..) => Level::Postfix,
        Expr::Int(_)
        | Expr::Bool(_)
        | Expr::Text(_)
        | Expr::Name(_)
        | Expr::List(_)
        | Expr::Call(..) => Level::Atom,
    }
}
