//! The plain program of a selection.
ghost use Rattle.std.specs.Prelude.{◌≡◌, IfOk};
ghost use Rattle.mpy_tree.specs.View.{action_of, block_of, block_or_none, branch_of, branches_of};
ghost use Rattle.mpy_tree.specs.View.{maybe_term, routine_of, routines_of, statement_of, term_of};
ghost use Rattle.mpy_tree.specs.Shapes.{action_shape, arm_shape, arms_shapes, block_shape};
ghost use Rattle.mpy_tree.specs.Shapes.{last_shapes, program_shape, routine_shape, shape};
ghost use Rattle.mpy_tree.specs.Shapes.{shape_and, statement_shape};
ghost use Rattle.mpy_tree.specs.Trees.{Trees, no_trees};
ghost use Rattle.choice_tree.specs.Choices.{member_of};
ghost use Rattle.choice_tree.specs.Selections.{plain, plains, arms_plain};
ghost use Rattle.choice_tree.specs.WeightedViews.{weighted_of};
ghost use Rattle.choice_tree.specs.WeightedTrees.{no_weighted};
ghost use Rattle.choice_tree.specs.StatementViews.{maybe_weighted, weighted_act, weighted_arm};
ghost use Rattle.choice_tree.specs.StatementViews.{weighted_arms, weighted_body, weighted_else};
ghost use Rattle.choice_tree.specs.StatementViews.{weighted_func, weighted_prog, weighted_stmt};
ghost use Rattle.choice_tree.specs.StatementViews.{arms_before};

use crate::NoMemory;
use crate::making::plain_expr;
use crate::selection::Selection;
use crate::tree::{WAct, WArm, WArms, WExpr, WFunc, WProg, WStmt, WStmts};
use mpy_tree::{Act, Arm, Arms, Expr, Func, Funcs, Prog, Stmt, Stmts};
use std::alloc::Global;

/// The program that a selection makes of a weighted one.
pub fn plain(alloc: Global, w: &WProg, s: &Selection) -> Result<Prog, NoMemory>
    ensures { IfOk result (λ r. program_shape (routines_of r) ≡ plain (member_of s.now)
        (weighted_prog w.now)) }
{
    let mut items = Vec::new(alloc);
    for func in &w.funcs.items {
        items.push(plain_func(alloc, func, s)?)?;
    }
    Ok(Prog {
        funcs: Funcs { items },
    })
}

// That of a function.
fn plain_func(alloc: Global, w: &WFunc, s: &Selection) -> Result<Func, NoMemory>
    ensures { IfOk result (λ r. routine_shape (routine_of r) ≡ plain (member_of s.now)
        (weighted_func w.now)) }
{
    let name = w.name.copy()?;
    let params = w.params.copy()?;
    let body = plain_stmts(alloc, &w.body, s)?;
    Ok(Func {
        line: w.line,
        name,
        params,
        body,
    })
}

// That of a body.
#[cycle(plain_stmts)]
fn plain_stmts(alloc: Global, b: &WStmts, s: &Selection) -> Result<Stmts, NoMemory>
    ensures { IfOk result (λ r. block_shape (block_of r) ≡ plain (member_of s.now)
        (weighted_body b.now)) }
{
    let mut made = Vec::new(alloc);
    for w in &b.items {
        made.push(plain_stmt(alloc, w, s)?)?;
    }
    Ok(Stmts { items: made })
}

// That of a statement.
#[cycle(plain_stmts)]
fn plain_stmt(alloc: Global, w: &WStmt, s: &Selection) -> Result<Stmt, NoMemory>
    ensures { IfOk result (λ r. statement_shape (statement_of r) ≡ plain (member_of s.now)
        (weighted_stmt w.now)) }
{
    let act = plain_act(alloc, &w.act, w.line, s)?;
    Ok(Stmt { line: w.line, act })
}

// That of an action on a line.
#[cycle(plain_stmts)]
fn plain_act(alloc: Global, act: &WAct, line: u32, s: &Selection) -> Result<Act, NoMemory>
    ensures { IfOk result (λ r. action_shape (action_of r) line ≡ plain (member_of s.now)
        (weighted_act act.now line)) }
{
    match act {
        WAct::Assign(x, e) => Ok(Act::Assign(x.copy()?, plain_expr(alloc, e, s)?)),
        WAct::Augment(x, op, e) => Ok(Act::Augment(x.copy()?, *op, plain_expr(alloc, e, s)?)),
        WAct::Put(x, i, e) => {
            let name = x.copy()?;
            let (i, e) = plain_two(alloc, i, e, s)?;
            Ok(Act::Put(name, i, e))
        }
        WAct::AugmentAt(x, i, op, e) => {
            let name = x.copy()?;
            let (i, e) = plain_two(alloc, i, e, s)?;
            Ok(Act::AugmentAt(name, i, *op, e))
        }
        WAct::Append(x, e) => Ok(Act::Append(x.copy()?, plain_expr(alloc, e, s)?)),
        WAct::Print(e) => Ok(Act::Print(plain_expr(alloc, e, s)?)),
        WAct::Return(e) => Ok(Act::Return(plain_maybe(alloc, e, s)?)),
        WAct::Pass => Ok(Act::Pass),
        WAct::Break => Ok(Act::Break),
        WAct::Continue => Ok(Act::Continue),
        WAct::If(arms, last) => {
            let arms = plain_arms(alloc, arms, s)?;
            let (arms, last) = plain_last(alloc, last, arms, s)?;
            Ok(Act::If(arms, last))
        }
        WAct::While(e, b) => {
            let (e, b) = plain_with_body(alloc, b, e, s)?;
            Ok(Act::While(e, b))
        }
        WAct::For(x, e, b) => {
            let name = x.copy()?;
            let (e, b) = plain_with_body(alloc, b, e, s)?;
            Ok(Act::For(name, e, b))
        }
    }
}

// Those of the arms of an `if`.
#[cycle(plain_stmts)]
fn plain_arms(alloc: Global, arms: &WArms, s: &Selection) -> Result<Arms, NoMemory>
    ensures { IfOk result (λ r. (ts : Trees) → arms_shapes (branches_of r) ts ≡ arms_plain
        (member_of s.now) (weighted_arms arms.now) ts) }
{
    let mut items = Vec::new(alloc);
    for arm in &arms.items {
        items.push(plain_arm(alloc, arm, s)?)?;
    }
    Ok(Arms { items })
}

// That of an arm.
#[cycle(plain_stmts)]
fn plain_arm(alloc: Global, arm: &WArm, s: &Selection) -> Result<Arm, NoMemory>
    ensures { IfOk result (λ r. arm_shape (branch_of r) ≡ plain (member_of s.now) (weighted_arm
        arm.now)) }
{
    let (test, body) = plain_with_body(alloc, &arm.body, &arm.test, s)?;
    Ok(Arm {
        line: arm.line,
        test,
        body,
    })
}

// That of the body behind the arms, which may be missing.
#[cycle(plain_stmts)]
fn plain_last(
    alloc: Global,
    b: &Option<WStmts>,
    arms: Arms,
    s: &Selection,
) -> Result<(Arms, Option<Stmts>), NoMemory>
    ensures arms { IfOk result (λ r. branches_of r.0 ≡ branches_of arms) }
    ensures last { IfOk result (λ r. last_shapes (block_or_none r.1) ≡ plains (member_of s.now)
        (weighted_else b.now)) }
{
    match b {
        None => Ok((arms, None)),
        Some(b) => {
            let body = plain_stmts(alloc, b, s)?;
            Ok((arms, Some(body)))
        }
    }
}

// Those of an expression and the body behind it.
#[cycle(plain_stmts)]
fn plain_with_body(
    alloc: Global,
    b: &WStmts,
    e: &WExpr,
    s: &Selection,
) -> Result<(Expr, Stmts), NoMemory>
    ensures value { IfOk result (λ r. shape (term_of r.0) ≡ plain (member_of s.now) (weighted_of
        e.now)) }
    ensures body { IfOk result (λ r. block_shape (block_of r.1) ≡ plain (member_of s.now)
        (weighted_body b.now)) }
{
    let body = plain_stmts(alloc, b, s)?;
    let value = plain_expr(alloc, e, s)?;
    Ok((value, body))
}

// That of an expression that may be missing.
fn plain_maybe(alloc: Global, e: &Option<WExpr>, s: &Selection) -> Result<Option<Expr>, NoMemory>
    ensures { IfOk result (λ r. shape_and (maybe_term r) no_trees ≡ plains (member_of s.now)
        (maybe_weighted e.now)) }
{
    match e {
        None => Ok(None),
        Some(e) => Ok(Some(plain_expr(alloc, e, s)?)),
    }
}

// Those of two expressions.
fn plain_two(alloc: Global, a: &WExpr, b: &WExpr, s: &Selection) -> Result<(Expr, Expr), NoMemory>
    ensures first { IfOk result (λ r. shape (term_of r.0) ≡ plain (member_of s.now) (weighted_of
        a.now)) }
    ensures second { IfOk result (λ r. shape (term_of r.1) ≡ plain (member_of s.now) (weighted_of
        b.now)) }
{
    let first = plain_expr(alloc, a, s)?;
    let second = plain_expr(alloc, b, s)?;
    Ok((first, second))
}
