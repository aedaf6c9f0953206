//! The weighted trees of statements.
ghost use Rattle.std.specs.Prelude.{◌≡◌, IfOk};
ghost use Rattle.mpy_tree.specs.View.{action_of, block_of, block_or_none, branch_of, branches_of};
ghost use Rattle.mpy_tree.specs.View.{maybe_term, routine_of, statement_of, term_of};
ghost use Rattle.mpy_tree.specs.Shapes.{routine_shape};
ghost use Rattle.choice_tree.specs.Contexts.{elsewhere};
ghost use Rattle.choice_tree.specs.RuleViews.{corrections_of};
ghost use Rattle.choice_tree.specs.Templates.{KeepPrimes};
ghost use Rattle.choice_tree.specs.StatementViews.{maybe_weighted, weighted_act};
ghost use Rattle.choice_tree.specs.StatementViews.{weighted_arm, weighted_arms, weighted_body};
ghost use Rattle.choice_tree.specs.StatementViews.{weighted_else, weighted_func, weighted_stmt};
ghost use Rattle.choice_tree.specs.WeightedTrees.{no_weighted};
ghost use Rattle.choice_tree.specs.WeightedViews.{two, weighted_of, weighteds};
ghost use Rattle.eml_match.specs.MatchedRules.{site_of};
ghost use Rattle.eml_rewrite.specs.Building.{Built, BuiltAll};
ghost use Rattle.eml_rewrite.specs.Spots.{context_at, setting_at, sharing_of};
ghost use Rattle.eml_rewrite.specs.Statements.{action_grown, apart_in, arm_grown, arms_grown};
ghost use Rattle.eml_rewrite.specs.Statements.{body_grown, fully_grown, last_grown, maybe_grown};
ghost use Rattle.eml_rewrite.specs.Statements.{shared_at, statement_grown, whole_grown};

use crate::counter::Counter;
use crate::error::RewriteError;
use crate::grow::grow;
use crate::sharing::Sharing;
use crate::spot::Spot;
use choice_tree::{WAct, WArm, WArms, WExpr, WFunc, WStmt, WStmts};
use eml_match::Site;
use mpy_tree::{Act, Arm, Arms, Expr, Func, Stmt, Stmts};
use mpy_types::Known;
use std::alloc::Global;

// No tree within the size has more levels than nodes; each level takes two steps, and a site one.
const STEPS: u32 = 2000001;

// Whether the whole expression of a statement shares a list.
fn sharing_at(site: Site<'_>) -> Sharing
    ensures { sharing_of result ≡ shared_at (site_of site.entry) }
{
    match site {
        Site::Return | Site::Assign(_) | Site::For(_) => Sharing::Shared,
        Site::Elsewhere | Site::If | Site::While => Sharing::Apart,
    }
}

// The weighted tree of the whole expression of a statement.
fn grow_whole<'a, K: Known>(
    alloc: Global,
    spot: &Spot<'a, K>,
    site: Site<'a>,
    e: &'a Expr,
    counter: &mut Counter,
) -> Result<WExpr, RewriteError>
    requires { KeepPrimes (corrections_of spot.now.rules.now) }
    ensures { Built weighted_of result (whole_grown (setting_at spot.now) (context_at spot.now)
        (site_of site.entry) (term_of e.now)) counter.old counter.new }
{
    let whole = Spot {
        rules: spot.rules,
        scope: spot.scope,
        sharing: sharing_at(site),
        steps: STEPS,
    };
    grow(alloc, &whole, site, e, counter)
}

/// That of a function.
pub fn grow_func<'a, K: Known>(
    alloc: Global,
    spot: &Spot<'a, K>,
    func: &'a Func,
    counter: &mut Counter,
) -> Result<WFunc, RewriteError>
    requires { KeepPrimes (corrections_of spot.now.rules.now) }
    ensures { Built weighted_func result (fully_grown (setting_at spot.now) elsewhere (apart_in
        (context_at spot.now)) (routine_shape (routine_of func.now))) counter.old counter.new }
{
    let name = func.name.copy()?;
    let params = func.params.copy()?;
    let body = grow_stmts(alloc, spot, &func.body, counter)?;
    Ok(WFunc {
        line: func.line,
        name,
        params,
        body,
    })
}

// That of a body.
#[cycle(grow_stmts)]
fn grow_stmts<'a, K: Known>(
    alloc: Global,
    spot: &Spot<'a, K>,
    b: &'a Stmts,
    counter: &mut Counter,
) -> Result<WStmts, RewriteError>
    requires { KeepPrimes (corrections_of spot.now.rules.now) }
    ensures { Built weighted_body result (body_grown (setting_at spot.now) (context_at spot.now)
        (block_of b.now)) counter.old counter.new }
{
    let mut items = Vec::new(alloc);
    for s in &b.items {
        items.push(grow_stmt(alloc, spot, s, counter)?)?;
    }
    Ok(WStmts { items })
}

// That of a statement.
#[cycle(grow_stmts)]
fn grow_stmt<'a, K: Known>(
    alloc: Global,
    spot: &Spot<'a, K>,
    s: &'a Stmt,
    counter: &mut Counter,
) -> Result<WStmt, RewriteError>
    requires { KeepPrimes (corrections_of spot.now.rules.now) }
    ensures { Built weighted_stmt result (statement_grown (setting_at spot.now) (context_at
        spot.now)
        (statement_of s.now)) counter.old counter.new }
{
    let act = grow_act(alloc, spot, &s.act, s.line, counter)?;
    Ok(WStmt { line: s.line, act })
}

// That of an action on a line.
#[cycle(grow_stmts)]
fn grow_act<'a, K: Known>(
    alloc: Global,
    spot: &Spot<'a, K>,
    act: &'a Act,
    line: u32,
    counter: &mut Counter,
) -> Result<WAct, RewriteError>
    requires { KeepPrimes (corrections_of spot.now.rules.now) }
    ensures { Built (λ a. weighted_act a line) result (action_grown (setting_at spot.now)
        (context_at
        spot.now) (action_of act.now) line) counter.old counter.new }
{
    match act {
        Act::Assign(x, e) => {
            let name = x.copy()?;
            let e = grow_whole(alloc, spot, Site::Assign(x), e, counter)?;
            Ok(WAct::Assign(name, e))
        }
        Act::Augment(x, op, e) => {
            let name = x.copy()?;
            let e = grow_whole(alloc, spot, Site::Elsewhere, e, counter)?;
            Ok(WAct::Augment(name, *op, e))
        }
        Act::Put(x, i, e) => {
            let name = x.copy()?;
            let (i, e) = grow_two(alloc, spot, i, e, counter)?;
            Ok(WAct::Put(name, i, e))
        }
        Act::AugmentAt(x, i, op, e) => {
            let name = x.copy()?;
            let (i, e) = grow_two(alloc, spot, i, e, counter)?;
            Ok(WAct::AugmentAt(name, i, *op, e))
        }
        Act::Append(x, e) => {
            let name = x.copy()?;
            let e = grow_whole(alloc, spot, Site::Elsewhere, e, counter)?;
            Ok(WAct::Append(name, e))
        }
        Act::Print(e) => {
            let e = grow_whole(alloc, spot, Site::Elsewhere, e, counter)?;
            Ok(WAct::Print(e))
        }
        Act::Return(e) => Ok(WAct::Return(grow_maybe(alloc, spot, e, counter)?)),
        Act::Pass => Ok(WAct::Pass),
        Act::Break => Ok(WAct::Break),
        Act::Continue => Ok(WAct::Continue),
        Act::If(arms, last) => {
            let arms = grow_arms(alloc, spot, arms, counter)?;
            let (arms, last) = grow_last(alloc, spot, last, arms, counter)?;
            Ok(WAct::If(arms, last))
        }
        Act::While(e, b) => {
            let (e, b) = grow_with_body(alloc, spot, b, Site::While, e, counter)?;
            Ok(WAct::While(e, b))
        }
        Act::For(x, e, b) => {
            let name = x.copy()?;
            let (e, b) = grow_with_body(alloc, spot, b, Site::For(x), e, counter)?;
            Ok(WAct::For(name, e, b))
        }
    }
}

// Those of the arms of an `if`.
#[cycle(grow_stmts)]
fn grow_arms<'a, K: Known>(
    alloc: Global,
    spot: &Spot<'a, K>,
    arms: &'a Arms,
    counter: &mut Counter,
) -> Result<WArms, RewriteError>
    requires { KeepPrimes (corrections_of spot.now.rules.now) }
    ensures { BuiltAll (λ r. weighteds (weighted_arms r)) result (arms_grown (setting_at spot.now)
        (context_at spot.now) (branches_of arms.now) no_weighted) counter.old counter.new }
{
    let mut items = Vec::new(alloc);
    for arm in &arms.items {
        items.push(grow_arm(alloc, spot, arm, counter)?)?;
    }
    Ok(WArms { items })
}

// That of an arm.
#[cycle(grow_stmts)]
fn grow_arm<'a, K: Known>(
    alloc: Global,
    spot: &Spot<'a, K>,
    arm: &'a Arm,
    counter: &mut Counter,
) -> Result<WArm, RewriteError>
    requires { KeepPrimes (corrections_of spot.now.rules.now) }
    ensures { Built weighted_arm result (arm_grown (setting_at spot.now) (context_at spot.now)
        (branch_of arm.now)) counter.old counter.new }
{
    let (test, body) = grow_with_body(alloc, spot, &arm.body, Site::If, &arm.test, counter)?;
    Ok(WArm {
        line: arm.line,
        test,
        body,
    })
}

// That of the body behind the arms, which may be missing.
#[cycle(grow_stmts)]
fn grow_last<'a, K: Known>(
    alloc: Global,
    spot: &Spot<'a, K>,
    b: &'a Option<Stmts>,
    arms: WArms,
    counter: &mut Counter,
) -> Result<(WArms, Option<WStmts>), RewriteError>
    requires { KeepPrimes (corrections_of spot.now.rules.now) }
    ensures arms { IfOk result (λ r. weighted_arms r.0 ≡ weighted_arms arms) }
    ensures last { BuiltAll (λ r. weighted_else r.1) result (last_grown (setting_at spot.now)
        (context_at spot.now) (block_or_none b.now)) counter.old counter.new }
{
    match b {
        None => Ok((arms, None)),
        Some(b) => {
            let body = grow_stmts(alloc, spot, b, counter)?;
            Ok((arms, Some(body)))
        }
    }
}

// Those of an expression and the body behind it.
#[cycle(grow_stmts)]
fn grow_with_body<'a, K: Known>(
    alloc: Global,
    spot: &Spot<'a, K>,
    b: &'a Stmts,
    site: Site<'a>,
    e: &'a Expr,
    counter: &mut Counter,
) -> Result<(WExpr, WStmts), RewriteError>
    requires { KeepPrimes (corrections_of spot.now.rules.now) }
    ensures { BuiltAll (λ r. two (weighted_of r.0) (weighted_body r.1)) result (two (whole_grown
        (setting_at spot.now) (context_at spot.now) (site_of site.entry) (term_of e.now))
        (body_grown
        (setting_at spot.now) (context_at spot.now) (block_of b.now))) counter.old counter.new }
{
    let value = grow_whole(alloc, spot, site, e, counter)?;
    let body = grow_stmts(alloc, spot, b, counter)?;
    Ok((value, body))
}

// That of the expression of a `return`, which may be missing.
fn grow_maybe<'a, K: Known>(
    alloc: Global,
    spot: &Spot<'a, K>,
    e: &'a Option<Expr>,
    counter: &mut Counter,
) -> Result<Option<WExpr>, RewriteError>
    requires { KeepPrimes (corrections_of spot.now.rules.now) }
    ensures { BuiltAll maybe_weighted result (maybe_grown (setting_at spot.now) (context_at
        spot.now) (maybe_term e.now)) counter.old counter.new }
{
    match e {
        None => Ok(None),
        Some(e) => Ok(Some(grow_whole(alloc, spot, Site::Return, e, counter)?)),
    }
}

// Those of two expressions.
fn grow_two<'a, K: Known>(
    alloc: Global,
    spot: &Spot<'a, K>,
    a: &'a Expr,
    b: &'a Expr,
    counter: &mut Counter,
) -> Result<(WExpr, WExpr), RewriteError>
    requires { KeepPrimes (corrections_of spot.now.rules.now) }
    ensures { BuiltAll (λ r. two (weighted_of r.0) (weighted_of r.1)) result (two (whole_grown
        (setting_at spot.now) (context_at spot.now) elsewhere (term_of a.now)) (whole_grown
        (setting_at spot.now) (context_at spot.now) elsewhere (term_of b.now))) counter.old
        counter.new }
{
    let first = grow_whole(alloc, spot, Site::Elsewhere, a, counter)?;
    let second = grow_whole(alloc, spot, Site::Elsewhere, b, counter)?;
    Ok((first, second))
}
