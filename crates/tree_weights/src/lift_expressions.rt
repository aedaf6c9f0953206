//! The weighted tree of an expression, without picks.
ghost use Rattle.std.specs.Prelude.{◌≡◌, IfOk, map};
ghost use Rattle.mpy_tree.specs.View.{term_of};
ghost use Rattle.mpy_tree.specs.Shapes.{shape};
ghost use Rattle.choice_tree.specs.WeightedTrees.{lifted};
ghost use Rattle.choice_tree.specs.WeightedViews.{weighted_of};
ghost use Rattle.eml_match.specs.Parts.{parts};

use crate::NoMemory;
use choice_tree::{WExpr, head_of, weighted_node};
use eml_match::parts::part;
use mpy_tree::Expr;
use std::alloc::Global;

/// An expression as a weighted one without picks.
#[cycle(lift)]
pub fn lift_expr(alloc: Global, e: &Expr) -> Result<WExpr, NoMemory>
    ensures { IfOk result (λ w. weighted_of w ≡ lifted (shape (term_of e.now))) }
{
    let parts = lift_parts(alloc, e)?;
    weighted_node(alloc, head_of(e), parts)
}

// The parts of an expression.
#[cycle(lift)]
fn lift_parts(alloc: Global, e: &Expr) -> Result<Vec<WExpr>, NoMemory>
    ensures { IfOk result (λ v. map weighted_of v.items ≡ map lifted (parts (shape (term_of
        e.now)))) }
{
    let mut made = Vec::new(alloc);
    let mut i = 0usize;
    'parts: loop {
        match part(e, i) {
            None => return Ok(made),
            Some(d) => made.push(lift_expr(alloc, d)?)?,
        }
        i += 1;
    }
}
