//! The plain expression of a selection.
ghost use Rattle.std.specs.Prelude.{◌≡◌, IfOk, option_map};
ghost use Rattle.mpy_tree.specs.View.{term_of, terms_of, end_by};
ghost use Rattle.mpy_tree.specs.Shapes.{shape, shapes, shape_and};
ghost use Rattle.mpy_tree.specs.Trees.{no_trees};
ghost use Rattle.choice_tree.specs.Choices.{member_of};
ghost use Rattle.choice_tree.specs.Selections.{plain, plains, other_plains, other_at};
ghost use Rattle.choice_tree.specs.WeightedViews.{weighted_of, weighteds_of, others_of, end_and};
ghost use Rattle.choice_tree.specs.WeightedTrees.{no_weighted};

use crate::NoMemory;
use crate::selection::Selection;
use crate::tree::{Others, WExpr, WExprs};
use mpy_tree::{Expr, Exprs};
use std::alloc::Global;

// Two expressions, each in a box.
type Two = (Box<Expr>, Box<Expr>);

/// The expression that a selection makes of a weighted one.
#[cycle(plain)]
pub fn plain_expr(alloc: Global, w: &WExpr, s: &Selection) -> Result<Expr, NoMemory>
    ensures { IfOk result (λ r. shape (term_of r) ≡ plain (member_of s.now) (weighted_of w.now)) }
{
    match w {
        WExpr::Int(n) => Ok(Expr::Int(*n)),
        WExpr::Bool(b) => Ok(Expr::Bool(*b)),
        WExpr::Text(t) => Ok(Expr::Text(t.copy()?)),
        WExpr::Name(x) => Ok(Expr::Name(x.copy()?)),
        WExpr::List(es) => Ok(Expr::List(plain_exprs(alloc, es, s)?)),
        WExpr::Neg(a) => Ok(Expr::Neg(plain_boxed(alloc, a, s)?)),
        WExpr::Not(a) => Ok(Expr::Not(plain_boxed(alloc, a, s)?)),
        WExpr::Arith(op, a, b) => {
            let first = plain_boxed(alloc, a, s)?;
            let (a, b) = plain_second(alloc, b, first, s)?;
            Ok(Expr::Arith(*op, a, b))
        }
        WExpr::Cmp(op, a, b) => {
            let first = plain_boxed(alloc, a, s)?;
            let (a, b) = plain_second(alloc, b, first, s)?;
            Ok(Expr::Cmp(*op, a, b))
        }
        WExpr::And(a, b) => {
            let first = plain_boxed(alloc, a, s)?;
            let (a, b) = plain_second(alloc, b, first, s)?;
            Ok(Expr::And(a, b))
        }
        WExpr::Or(a, b) => {
            let first = plain_boxed(alloc, a, s)?;
            let (a, b) = plain_second(alloc, b, first, s)?;
            Ok(Expr::Or(a, b))
        }
        WExpr::Cond { test, yes, no } => {
            let test = plain_boxed(alloc, test, s)?;
            let first = plain_boxed(alloc, yes, s)?;
            let (a, b) = plain_second(alloc, no, first, s)?;
            Ok(Expr::Cond {
                test,
                yes: a,
                no: b,
            })
        }
        WExpr::Index(a, b) => {
            let first = plain_boxed(alloc, a, s)?;
            let (a, b) = plain_second(alloc, b, first, s)?;
            Ok(Expr::Index(a, b))
        }
        WExpr::Slice(a, from, to) => Ok(Expr::Slice(
            plain_boxed(alloc, a, s)?,
            plain_end(alloc, from, s)?,
            plain_end(alloc, to, s)?,
        )),
        WExpr::Call(f, es) => {
            let name = f.copy()?;
            Ok(Expr::Call(name, plain_exprs(alloc, es, s)?))
        }
        WExpr::Pick {
            number,
            base,
            others,
        } => match plain_other(alloc, others, s.member(*number), s)? {
            Some(made) => Ok(made),
            None => plain_expr(alloc, base, s),
        },
    }
}

// That of another expression, in a box behind the first one.
#[cycle(plain)]
fn plain_second(alloc: Global, w: &WExpr, first: Box<Expr>, s: &Selection) -> Result<Two, NoMemory>
    ensures first { IfOk result (λ r. term_of r.0.value ≡ term_of first.value) }
    ensures second { IfOk result (λ r. shape (term_of r.1.value) ≡ plain (member_of s.now)
        (weighted_of w.now)) }
{
    let second = plain_boxed(alloc, w, s)?;
    Ok((first, second))
}

// That of a member of a pick besides its base, if there is one of this number.
#[cycle(plain)]
fn plain_other(
    alloc: Global,
    others: &Others,
    member: u32,
    s: &Selection,
) -> Result<Option<Expr>, NoMemory>
    ensures { IfOk result (λ r. option_map (λ e. shape (term_of e)) r ≡ other_at member
        (other_plains (member_of s.now) (others_of others.now))) }
{
    if member == 0 {
        return Ok(None);
    }
    let place = member as usize - 1;
    match others.items.get(place) {
        None => Ok(None),
        Some(other) => Ok(Some(plain_expr(alloc, &other.tree, s)?)),
    }
}

// That of an expression, in a box.
#[cycle(plain)]
fn plain_boxed(alloc: Global, w: &WExpr, s: &Selection) -> Result<Box<Expr>, NoMemory>
    ensures { IfOk result (λ r. shape (term_of r.value) ≡ plain (member_of s.now)
        (weighted_of w.now)) }
{
    let made = plain_expr(alloc, w, s)?;
    Ok(Box::new(alloc, made)?)
}

// That of an end of a slice.
#[cycle(plain)]
fn plain_end(
    alloc: Global,
    w: &Option<Box<WExpr>>,
    s: &Selection,
) -> Result<Option<Box<Expr>>, NoMemory>
    ensures { IfOk result (λ r. shape_and (end_by (λ b. term_of b.value) r) no_trees ≡ plains
        (member_of s.now) (end_and (λ b. weighted_of b.value) w.now no_weighted)) }
{
    match w {
        None => Ok(None),
        Some(w) => Ok(Some(plain_boxed(alloc, w, s)?)),
    }
}

// Those of a list of expressions.
#[cycle(plain)]
fn plain_exprs(alloc: Global, ws: &WExprs, s: &Selection) -> Result<Exprs, NoMemory>
    ensures { IfOk result (λ r. shapes (terms_of r) ≡ plains (member_of s.now) (weighteds_of
        ws.now)) }
{
    let mut made = Vec::new(alloc);
    for w in &ws.items {
        made.push(plain_expr(alloc, w, s)?)?;
    }
    Ok(Exprs::from_vec(made))
}
