//! The weighted tree of a program, without picks.
ghost use Rattle.std.specs.Prelude.{◌≡◌, IfOk, map};
ghost use Rattle.mpy_tree.specs.View.{action_of, block_of, block_or_none, branch_of, branches_of};
ghost use Rattle.mpy_tree.specs.View.{maybe_term, routine_of, routines_of, statement_of, term_of};
ghost use Rattle.mpy_tree.specs.Shapes.{action_shape, arm_shape, block_shape, last_shapes};
ghost use Rattle.mpy_tree.specs.Shapes.{program_shape, routine_shape, shape, shape_and};
ghost use Rattle.mpy_tree.specs.Shapes.{statement_shape};
ghost use Rattle.mpy_tree.specs.Trees.{no_trees};
ghost use Rattle.choice_tree.specs.StatementViews.{maybe_weighted, weighted_act, weighted_arm};
ghost use Rattle.choice_tree.specs.StatementViews.{weighted_arms, weighted_body, weighted_else};
ghost use Rattle.choice_tree.specs.StatementViews.{weighted_func, weighted_prog, weighted_stmt};
ghost use Rattle.choice_tree.specs.WeightedTrees.{lifted, lifted_all};
ghost use Rattle.choice_tree.specs.WeightedViews.{weighted_of};
ghost use Rattle.tree_weights.specs.LiftedParts.{lifted_arms};

use crate::NoMemory;
use crate::lift_expressions::lift_expr;
use choice_tree::{WAct, WArm, WArms, WExpr, WFunc, WFuncs, WProg, WStmt, WStmts};
use mpy_tree::{Act, Arm, Arms, Expr, Func, Prog, Stmt, Stmts};
use std::alloc::Global;

/// A program as a weighted one without picks: the tree of its rewritings by no rules.
pub fn lift(alloc: Global, p: &Prog) -> Result<WProg, NoMemory>
    ensures { IfOk result (λ w. weighted_prog w ≡ lifted (program_shape (routines_of p.now))) }
{
    let mut items = Vec::new(alloc);
    for func in &p.funcs.items {
        items.push(lift_func(alloc, func)?)?;
    }
    Ok(WProg {
        funcs: WFuncs { items },
    })
}

// A function.
fn lift_func(alloc: Global, func: &Func) -> Result<WFunc, NoMemory>
    ensures { IfOk result (λ w. weighted_func w ≡ lifted (routine_shape (routine_of func.now))) }
{
    let name = func.name.copy()?;
    let params = func.params.copy()?;
    let body = lift_stmts(alloc, &func.body)?;
    Ok(WFunc {
        line: func.line,
        name,
        params,
        body,
    })
}

// A body.
#[cycle(lift_stmts)]
fn lift_stmts(alloc: Global, b: &Stmts) -> Result<WStmts, NoMemory>
    ensures { IfOk result (λ w. weighted_body w ≡ lifted (block_shape (block_of b.now))) }
{
    let mut items = Vec::new(alloc);
    for s in &b.items {
        items.push(lift_stmt(alloc, s)?)?;
    }
    Ok(WStmts { items })
}

// A statement.
#[cycle(lift_stmts)]
fn lift_stmt(alloc: Global, s: &Stmt) -> Result<WStmt, NoMemory>
    ensures { IfOk result (λ w. weighted_stmt w ≡ lifted (statement_shape (statement_of s.now))) }
{
    let act = lift_act(alloc, &s.act, s.line)?;
    Ok(WStmt { line: s.line, act })
}

// An action on a line.
#[cycle(lift_stmts)]
fn lift_act(alloc: Global, act: &Act, line: u32) -> Result<WAct, NoMemory>
    ensures { IfOk result (λ w. weighted_act w line ≡ lifted (action_shape (action_of act.now)
        line)) }
{
    match act {
        Act::Assign(x, e) => Ok(WAct::Assign(x.copy()?, lift_expr(alloc, e)?)),
        Act::Augment(x, op, e) => Ok(WAct::Augment(x.copy()?, *op, lift_expr(alloc, e)?)),
        Act::Put(x, i, e) => {
            let name = x.copy()?;
            let (i, e) = lift_two(alloc, i, e)?;
            Ok(WAct::Put(name, i, e))
        }
        Act::AugmentAt(x, i, op, e) => {
            let name = x.copy()?;
            let (i, e) = lift_two(alloc, i, e)?;
            Ok(WAct::AugmentAt(name, i, *op, e))
        }
        Act::Append(x, e) => Ok(WAct::Append(x.copy()?, lift_expr(alloc, e)?)),
        Act::Print(e) => Ok(WAct::Print(lift_expr(alloc, e)?)),
        Act::Return(e) => Ok(WAct::Return(lift_maybe(alloc, e)?)),
        Act::Pass => Ok(WAct::Pass),
        Act::Break => Ok(WAct::Break),
        Act::Continue => Ok(WAct::Continue),
        Act::If(arms, last) => {
            let arms = lift_arms(alloc, arms)?;
            let (arms, last) = lift_last(alloc, last, arms)?;
            Ok(WAct::If(arms, last))
        }
        Act::While(e, b) => {
            let (e, b) = lift_with_body(alloc, b, e)?;
            Ok(WAct::While(e, b))
        }
        Act::For(x, e, b) => {
            let name = x.copy()?;
            let (e, b) = lift_with_body(alloc, b, e)?;
            Ok(WAct::For(name, e, b))
        }
    }
}

// The arms of an `if`.
#[cycle(lift_stmts)]
fn lift_arms(alloc: Global, arms: &Arms) -> Result<WArms, NoMemory>
    ensures { IfOk result (λ w. weighted_arms w ≡ lifted_arms (branches_of arms.now)) }
{
    let mut items = Vec::new(alloc);
    for arm in &arms.items {
        items.push(lift_arm(alloc, arm)?)?;
    }
    Ok(WArms { items })
}

// An arm.
#[cycle(lift_stmts)]
fn lift_arm(alloc: Global, arm: &Arm) -> Result<WArm, NoMemory>
    ensures { IfOk result (λ w. weighted_arm w ≡ lifted (arm_shape (branch_of arm.now))) }
{
    let (test, body) = lift_with_body(alloc, &arm.body, &arm.test)?;
    Ok(WArm {
        line: arm.line,
        test,
        body,
    })
}

// The body behind the arms, which may be missing.
#[cycle(lift_stmts)]
fn lift_last(
    alloc: Global,
    b: &Option<Stmts>,
    arms: WArms,
) -> Result<(WArms, Option<WStmts>), NoMemory>
    ensures arms { IfOk result (λ r. weighted_arms r.0 ≡ weighted_arms arms) }
    ensures last { IfOk result (λ r. weighted_else r.1 ≡ lifted_all (last_shapes (block_or_none
        b.now))) }
{
    match b {
        None => Ok((arms, None)),
        Some(b) => {
            let body = lift_stmts(alloc, b)?;
            Ok((arms, Some(body)))
        }
    }
}

// An expression and the body behind it.
#[cycle(lift_stmts)]
fn lift_with_body(alloc: Global, b: &Stmts, e: &Expr) -> Result<(WExpr, WStmts), NoMemory>
    ensures value { IfOk result (λ r. weighted_of r.0 ≡ lifted (shape (term_of e.now))) }
    ensures body { IfOk result (λ r. weighted_body r.1 ≡ lifted (block_shape (block_of b.now))) }
{
    let body = lift_stmts(alloc, b)?;
    let value = lift_expr(alloc, e)?;
    Ok((value, body))
}

// An expression that may be missing.
fn lift_maybe(alloc: Global, e: &Option<Expr>) -> Result<Option<WExpr>, NoMemory>
    ensures { IfOk result (λ r. maybe_weighted r ≡ lifted_all (shape_and (maybe_term e.now)
        no_trees)) }
{
    match e {
        None => Ok(None),
        Some(e) => Ok(Some(lift_expr(alloc, e)?)),
    }
}

// Two expressions.
fn lift_two(alloc: Global, a: &Expr, b: &Expr) -> Result<(WExpr, WExpr), NoMemory>
    ensures first { IfOk result (λ r. weighted_of r.0 ≡ lifted (shape (term_of a.now))) }
    ensures second { IfOk result (λ r. weighted_of r.1 ≡ lifted (shape (term_of b.now))) }
{
    let first = lift_expr(alloc, a)?;
    let second = lift_expr(alloc, b)?;
    Ok((first, second))
}
