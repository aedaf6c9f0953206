//! Nodes of a left side and of an expression, their parts aside.
ghost use Rattle.std.specs.Prelude.{◌≡◌, IfOk};
ghost use Rattle.std.specs.List.{list_any};
ghost use Rattle.mpy_tree.specs.Comparing.{same_arith, same_cmp};
ghost use Rattle.mpy_tree.specs.View.{term_of};
ghost use Rattle.mpy_tree.specs.Shapes.{shape};
ghost use Rattle.mpy_tree.specs.Trees as kind;
ghost use Rattle.choice_tree.specs.Templates.{hole};
ghost use Rattle.choice_tree.specs.RuleViews.{template_of, arith_template, comparison_template};
ghost use Rattle.choice_tree.specs.Matching.{bind, matches, node_matches, only_if};
ghost use Rattle.eml_match.specs.MatchViews.{bindings_found, bound_seen, head_matches, tree_taken};

use crate::NoMemory;
use crate::bindings::{Binding, Bound};
use choice_tree::{Meta, PArith, PCmp, PExpr};
use mpy_tree::{ArithOp, CmpOp, Expr};
use std::alloc::Global;

/// What the operator's metavariable stands for, if the two nodes are alike, their parts aside.
pub fn match_head<'a>(
    alloc: Global,
    p: &PExpr,
    e: &Expr,
) -> Result<Option<Vec<Binding<'a>>>, NoMemory>
    ensures { IfOk result (λ r. bindings_found r ≡ head_matches (template_of p.now) (shape
        (term_of e.now))) }
{
    match (p, e) {
        (PExpr::Int(m), Expr::Int(n)) => Ok(none_if(alloc, *m == *n)),
        (PExpr::Bool(b), Expr::Bool(c)) => Ok(none_if(alloc, *b == *c)),
        (PExpr::Text(t), Expr::Text(u)) => Ok(none_if(alloc, t.bytes() == u.bytes())),
        (PExpr::Name(x), Expr::Name(y)) => Ok(none_if(alloc, x.is(y))),
        (PExpr::Arith(op, _, _), Expr::Arith(o, _, _)) => match_arith(alloc, op, *o),
        (PExpr::Cmp(op, _, _), Expr::Cmp(o, _, _)) => match_cmp(alloc, op, *o),
        (PExpr::Slice(_, f, t), Expr::Slice(_, g, u)) => {
            Ok(none_if(
                alloc,
                f.is_some() == g.is_some() && t.is_some() == u.is_some(),
            ))
        }
        (PExpr::Call(f, _), Expr::Call(g, _)) => Ok(none_if(alloc, f.is(g))),
        (PExpr::List(_), Expr::List(_))
        | (PExpr::Neg(_), Expr::Neg(_))
        | (PExpr::Not(_), Expr::Not(_))
        | (PExpr::And(_, _), Expr::And(_, _))
        | (PExpr::Or(_, _), Expr::Or(_, _))
        | (PExpr::Cond { .. }, Expr::Cond { .. })
        | (PExpr::Index(_, _), Expr::Index(_, _)) => Ok(none_if(alloc, true)),
        _ => Ok(None),
    }
}

/// No bindings, if that holds.
pub fn none_if<'a>(alloc: Global, holds: bool) -> Option<Vec<Binding<'a>>>
    ensures { bindings_found result ≡ only_if holds }
{
    if holds { Some(Vec::new(alloc)) } else { None }
}

/// The one binding of a metavariable.
pub fn one_binding<'a>(
    alloc: Global,
    meta: Meta,
    bound: Bound<'a>,
) -> Result<Option<Vec<Binding<'a>>>, NoMemory>
    ensures { IfOk result (λ r. bindings_found r ≡ bind meta (bound_seen bound.entry)) }
{
    let mut found = Vec::new(alloc);
    found.push(Binding { meta, bound })?;
    Ok(Some(found))
}

/// An expression for a metavariable, if it takes it.
pub fn match_meta<'a>(
    alloc: Global,
    m: Meta,
    e: &'a Expr,
) -> Result<Option<Vec<Binding<'a>>>, NoMemory>
    ensures { IfOk result (λ r. bindings_found r ≡ matches (hole m) (shape (term_of e.now))) }
{
    if is_taken(m.letter, e) {
        one_binding(alloc, m, Bound::Term(e))
    } else {
        Ok(None)
    }
}

// Whether a metavariable of this letter takes an expression.
fn is_taken(letter: u8, e: &Expr) -> bool
    ensures { result ≡ tree_taken letter (shape (term_of e.now)) }
{
    match letter {
        b'v' => matches!(e, Expr::Name(_)),
        b'n' => matches!(e, Expr::Int(_)),
        _ => true,
    }
}

// An operator.
fn match_arith<'a>(
    alloc: Global,
    p: &PArith,
    op: ArithOp,
) -> Result<Option<Vec<Binding<'a>>>, NoMemory>
    ensures { IfOk result (λ r. bindings_found r ≡ node_matches (arith_template p.now) (kind.Arith
        op)) }
{
    match p {
        PArith::Ops(ops) => Ok(none_if(alloc, has_arith(ops.items(), op))),
        PArith::Meta(m) => match op {
            ArithOp::Power => Ok(None),
            _ => one_binding(alloc, *m, Bound::Arith(op)),
        },
    }
}

// A comparison.
fn match_cmp<'a>(alloc: Global, p: &PCmp, op: CmpOp) -> Result<Option<Vec<Binding<'a>>>, NoMemory>
    ensures { IfOk result (λ r. bindings_found r ≡ node_matches (comparison_template p.now)
        (kind.Cmp op)) }
{
    match p {
        PCmp::Ops(ops) => Ok(none_if(alloc, has_cmp(ops.items(), op))),
        PCmp::Meta(m) => match op {
            CmpOp::Member | CmpOp::NotMember => Ok(None),
            _ => one_binding(alloc, *m, Bound::Cmp(op)),
        },
    }
}

// Whether an operator is one of these.
fn has_arith(ops: &[ArithOp], op: ArithOp) -> bool
    ensures { result ≡ list_any (same_arith op) ops.now }
{
    for o in ops {
        if is_arith(op, *o) {
            return true;
        }
    }
    false
}

fn has_cmp(ops: &[CmpOp], op: CmpOp) -> bool
    ensures { result ≡ list_any (same_cmp op) ops.now }
{
    for o in ops {
        if is_cmp(op, *o) {
            return true;
        }
    }
    false
}

fn is_arith(op: ArithOp, other: ArithOp) -> bool
    ensures { result ≡ same_arith op other }
{
    op == other
}

fn is_cmp(op: CmpOp, other: CmpOp) -> bool
    ensures { result ≡ same_cmp op other }
{
    op == other
}
