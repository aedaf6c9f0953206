//! Nodes of expressions, their parts aside.
ghost use Rattle.std.specs.Prelude.{◌≡◌, ◌+◌, ◌<◌, ◌++◌, IfOk, ◌∷◌, [], length, map};
ghost use Rattle.mpy_tree.specs.View.{term_of, terms_of};
ghost use Rattle.mpy_tree.specs.Shapes.{shape, shapes};
ghost use Rattle.mpy_tree.specs.Trees.{node};
ghost use Rattle.choice_tree.specs.Heads.{HasParts, head_kind, root, trees};
ghost use Rattle.choice_tree.specs.WeightedViews.{weighted_of, weighteds};
ghost use Rattle.choice_tree.specs.WeightedTrees.{plainly};

use crate::NoMemory;
use crate::tree::{WExpr, WExprs};
use mpy_tree::{ArithOp, Chars, CmpOp, Expr, Exprs, Name};
use std::alloc::Global;

/// What stands at a node of an expression, its parts aside.
#[derive(Clone, Copy, Drop)]
pub enum Head<'a> {
    Int(u32),
    Bool(bool),
    Text(&'a Chars),
    Name(&'a Name),
    List,
    Neg,
    Not,
    Arith(ArithOp),
    Cmp(CmpOp),
    And,
    Or,
    Cond,
    Index,
    /// which of its ends are there
    Slice(bool, bool),
    Call(&'a Name),
}

/// What stands at the root of an expression.
pub fn head_of(e: &Expr) -> Head<'_>
    ensures { head_kind result ≡ root (shape (term_of e.now)) }
{
    match e {
        Expr::Int(n) => Head::Int(*n),
        Expr::Bool(b) => Head::Bool(*b),
        Expr::Text(t) => Head::Text(t),
        Expr::Name(x) => Head::Name(x),
        Expr::List(_) => Head::List,
        Expr::Neg(_) => Head::Neg,
        Expr::Not(_) => Head::Not,
        Expr::Arith(op, _, _) => Head::Arith(*op),
        Expr::Cmp(op, _, _) => Head::Cmp(*op),
        Expr::And(_, _) => Head::And,
        Expr::Or(_, _) => Head::Or,
        Expr::Cond { .. } => Head::Cond,
        Expr::Index(_, _) => Head::Index,
        Expr::Slice(_, from, to) => Head::Slice(from.is_some(), to.is_some()),
        Expr::Call(f, _) => Head::Call(f),
    }
}

/// A weighted node that is no pick, with its parts as they are written.
pub fn weighted_node(alloc: Global, head: Head<'_>, parts: Vec<WExpr>) -> Result<WExpr, NoMemory>
    requires { HasParts (head_kind head) (length parts.items) }
    ensures { IfOk result (λ r. weighted_of r ≡ plainly (head_kind head.entry) (weighteds (map
        weighted_of parts.items))) }
{
    match head {
        Head::Int(n) => Ok(WExpr::Int(n)),
        Head::Bool(b) => Ok(WExpr::Bool(b)),
        Head::Text(t) => Ok(WExpr::Text(t.copy()?)),
        Head::Name(x) => Ok(WExpr::Name(x.copy()?)),
        Head::List => Ok(WExpr::List(WExprs::from_vec(parts))),
        Head::Neg => Ok(WExpr::Neg(one_box(alloc, parts)?)),
        Head::Not => Ok(WExpr::Not(one_box(alloc, parts)?)),
        Head::Arith(op) => {
            let (a, b) = two_boxes(alloc, parts)?;
            Ok(WExpr::Arith(op, a, b))
        }
        Head::Cmp(op) => {
            let (a, b) = two_boxes(alloc, parts)?;
            Ok(WExpr::Cmp(op, a, b))
        }
        Head::And => {
            let (a, b) = two_boxes(alloc, parts)?;
            Ok(WExpr::And(a, b))
        }
        Head::Or => {
            let (a, b) = two_boxes(alloc, parts)?;
            Ok(WExpr::Or(a, b))
        }
        Head::Cond => {
            let (yes, test, no) = three_boxes(alloc, parts)?;
            Ok(WExpr::Cond { test, yes, no })
        }
        Head::Index => {
            let (a, b) = two_boxes(alloc, parts)?;
            Ok(WExpr::Index(a, b))
        }
        Head::Slice(false, false) => Ok(WExpr::Slice(one_box(alloc, parts)?, None, None)),
        Head::Slice(true, false) => {
            let (a, from) = two_boxes(alloc, parts)?;
            Ok(WExpr::Slice(a, Some(from), None))
        }
        Head::Slice(false, true) => {
            let (a, to) = two_boxes(alloc, parts)?;
            Ok(WExpr::Slice(a, None, Some(to)))
        }
        Head::Slice(true, true) => {
            let (a, from, to) = three_boxes(alloc, parts)?;
            Ok(WExpr::Slice(a, Some(from), Some(to)))
        }
        Head::Call(f) => {
            let name = f.copy()?;
            Ok(WExpr::Call(name, WExprs::from_vec(parts)))
        }
    }
}

/// A node with its parts as they are written.
pub fn plain_node(alloc: Global, head: Head<'_>, parts: Vec<Expr>) -> Result<Expr, NoMemory>
    requires { HasParts (head_kind head) (length parts.items) }
    ensures { IfOk result (λ r. shape (term_of r) ≡ node (head_kind head.entry) (trees (map (λ e.
        shape (term_of e)) parts.items))) }
{
    match head {
        Head::Int(n) => Ok(Expr::Int(n)),
        Head::Bool(b) => Ok(Expr::Bool(b)),
        Head::Text(t) => Ok(Expr::Text(t.copy()?)),
        Head::Name(x) => Ok(Expr::Name(x.copy()?)),
        Head::List => Ok(Expr::List(listed(parts))),
        Head::Neg => Ok(Expr::Neg(one_box(alloc, parts)?)),
        Head::Not => Ok(Expr::Not(one_box(alloc, parts)?)),
        Head::Arith(op) => {
            let (a, b) = two_boxes(alloc, parts)?;
            Ok(Expr::Arith(op, a, b))
        }
        Head::Cmp(op) => {
            let (a, b) = two_boxes(alloc, parts)?;
            Ok(Expr::Cmp(op, a, b))
        }
        Head::And => {
            let (a, b) = two_boxes(alloc, parts)?;
            Ok(Expr::And(a, b))
        }
        Head::Or => {
            let (a, b) = two_boxes(alloc, parts)?;
            Ok(Expr::Or(a, b))
        }
        Head::Cond => {
            let (yes, test, no) = three_boxes(alloc, parts)?;
            Ok(Expr::Cond { test, yes, no })
        }
        Head::Index => {
            let (a, b) = two_boxes(alloc, parts)?;
            Ok(Expr::Index(a, b))
        }
        Head::Slice(false, false) => Ok(Expr::Slice(one_box(alloc, parts)?, None, None)),
        Head::Slice(true, false) => {
            let (a, from) = two_boxes(alloc, parts)?;
            Ok(Expr::Slice(a, Some(from), None))
        }
        Head::Slice(false, true) => {
            let (a, to) = two_boxes(alloc, parts)?;
            Ok(Expr::Slice(a, None, Some(to)))
        }
        Head::Slice(true, true) => {
            let (a, from, to) = three_boxes(alloc, parts)?;
            Ok(Expr::Slice(a, Some(from), Some(to)))
        }
        Head::Call(f) => {
            let name = f.copy()?;
            Ok(Expr::Call(name, listed(parts)))
        }
    }
}

// A list of expressions.
fn listed(parts: Vec<Expr>) -> Exprs
    ensures { shapes (terms_of result) ≡ trees (map (λ e. shape (term_of e)) parts.items) }
{
    Exprs::from_vec(parts)
}

// The last element of a list.
fn last<T>(items: &mut Vec<T>) -> T
    requires { 0 < length items.old.items }
    ensures items { items.old.items ≡ items.new.items ++ result ∷ [] }
    ensures count { length items.old.items ≡ length items.new.items + 1 }
{
    match items.pop() {
        Some(a) => a,
        None => unreachable!(),
    }
}

// The elements of a list of one, of two and of three, each in a box.
fn one_box<T: Drop>(alloc: Global, items: Vec<T>) -> Result<Box<T>, NoMemory>
    requires { length items.items ≡ 1 }
    ensures { IfOk result (λ r. items.items ≡ r.value ∷ []) }
{
    let mut left = items;
    let first = last(&mut left);
    Ok(Box::new(alloc, first)?)
}

fn two_boxes<T: Drop>(alloc: Global, items: Vec<T>) -> Result<(Box<T>, Box<T>), NoMemory>
    requires { length items.items ≡ 2 }
    ensures { IfOk result (λ r. items.items ≡ r.0.value ∷ r.1.value ∷ []) }
{
    let mut left = items;
    let second = last(&mut left);
    let first = one_box(alloc, left)?;
    Ok((first, Box::new(alloc, second)?))
}

fn three_boxes<T: Drop>(alloc: Global, items: Vec<T>) -> Result<(Box<T>, Box<T>, Box<T>), NoMemory>
    requires { length items.items ≡ 3 }
    ensures { IfOk result (λ r. items.items ≡ r.0.value ∷ r.1.value ∷ r.2.value ∷ []) }
{
    let mut left = items;
    let third = last(&mut left);
    let (first, second) = two_boxes(alloc, left)?;
    Ok((first, second, Box::new(alloc, third)?))
}
