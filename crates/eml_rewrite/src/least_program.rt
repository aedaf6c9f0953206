//! How many nodes the weighted tree of a function has at least, without building it.
ghost use Rattle.std.specs.Prelude.{◌≤◌, IfOk, length};
ghost use Rattle.mpy_scopes.specs.Seen.{site_of};
ghost use Rattle.mpy_tree.specs.Shapes.{routine_shape, shape};
ghost use Rattle.mpy_tree.specs.Sites.{own_terms, site_terms};
ghost use Rattle.mpy_tree.specs.View.{action_of, routine_of, term_of};
ghost use Rattle.choice_tree.specs.Contexts.{elsewhere};
ghost use Rattle.choice_tree.specs.RuleViews.{corrections_of};
ghost use Rattle.choice_tree.specs.Templates.{KeepPrimes};
ghost use Rattle.choice_tree.specs.WeightedTrees.{size};
ghost use Rattle.eml_match.specs.MatchedRules.{site_of as place_of};
ghost use Rattle.eml_rewrite.specs.LeastSizes.{action_least, least_at, line_least, placed_least};
ghost use Rattle.eml_rewrite.specs.Spots.{context_at, setting_at};
ghost use Rattle.eml_rewrite.specs.Statements.{apart_in, fully_grown};

use crate::least_size::{MOST, count_expr, count_others};
use crate::spot::Spot;
use choice_tree::NoMemory;
use eml_match::Site;
use mpy_scopes::{Site as Line, push_sites};
use mpy_tree::{Act, Expr, Func};
use mpy_types::Known;
use std::alloc::Global;

/// How many nodes the weighted tree of a function has at least.
pub fn count_func<'a, K: Known>(
    alloc: Global,
    spot: &Spot<'a, K>,
    func: &'a Func,
) -> Result<u32, NoMemory>
    requires { KeepPrimes (corrections_of spot.now.rules.now) }
    ensures { IfOk result (λ n. n ≤ size (fully_grown (setting_at spot.now) elsewhere (apart_in
        (context_at spot.now)) (routine_shape (routine_of func.now)))) }
{
    let mut lines = Vec::new(alloc);
    push_sites(&func.body, &mut lines)?;
    let mut nodes = 0u32;
    for line in &lines {
        let more = count_line(alloc, spot, *line)?;
        nodes = nodes.saturating_add(more);
        if nodes > MOST {
            return Ok(nodes);
        }
    }
    Ok(nodes)
}

// Of what stands on a line. Each of its expressions is counted.
fn count_line<'a, K: Known>(
    alloc: Global,
    spot: &Spot<'a, K>,
    line: Line<'a>,
) -> Result<u32, NoMemory>
    requires { KeepPrimes (corrections_of spot.now.rules.now) }
    ensures nodes { IfOk result (λ n. n ≤ line_least (setting_at spot.now) (context_at spot.now)
        (site_of line.entry)) }
    ensures each { IfOk result (λ n. length (site_terms (site_of line.entry)) ≤ n) }
{
    match line {
        Line::Asks(_, e) => count_placed(alloc, spot, Site::If, e),
        Line::Does(_, act) => count_own(alloc, spot, act),
    }
}

// Of the expressions of a statement itself, each of which is counted.
fn count_own<'a, K: Known>(alloc: Global, spot: &Spot<'a, K>, act: &'a Act) -> Result<u32, NoMemory>
    requires { KeepPrimes (corrections_of spot.now.rules.now) }
    ensures nodes { IfOk result (λ n. n ≤ action_least (setting_at spot.now) (context_at spot.now)
        (action_of act.now)) }
    ensures each { IfOk result (λ n. length (own_terms (action_of act.now)) ≤ n) }
{
    match act {
        Act::Assign(x, e) => count_placed(alloc, spot, Site::Assign(x), e),
        Act::Return(Some(e)) => count_placed(alloc, spot, Site::Return, e),
        Act::While(e, _) => count_placed(alloc, spot, Site::While, e),
        Act::For(x, e, _) => count_placed(alloc, spot, Site::For(x), e),
        Act::Augment(_, _, e) | Act::Append(_, e) | Act::Print(e) => count_whole(alloc, spot, e),
        Act::Put(_, i, e) | Act::AugmentAt(_, i, _, e) => {
            let first = count_whole(alloc, spot, i)?;
            let second = count_whole(alloc, spot, e)?;
            Ok(first.saturating_add(second))
        }
        Act::Return(None) | Act::Pass | Act::Break | Act::Continue | Act::If(_, _) => Ok(0),
    }
}

// Of a whole expression, for which there may be rules with its place.
fn count_placed<'a, K: Known>(
    alloc: Global,
    spot: &Spot<'a, K>,
    site: Site<'a>,
    e: &'a Expr,
) -> Result<u32, NoMemory>
    requires { KeepPrimes (corrections_of spot.now.rules.now) }
    ensures nodes { IfOk result (λ n. n ≤ placed_least (setting_at spot.now) (context_at spot.now)
        (place_of site.entry) (shape (term_of e.now))) }
    ensures some { IfOk result (λ n. 1 ≤ n) }
{
    let mut counted = Vec::new(alloc);
    let nodes = count_expr(alloc, spot, e, &mut counted)?;
    let others = count_others(alloc, spot, site, e, counted.as_slice())?;
    Ok(nodes.saturating_add(others))
}

// Of one that has no place.
fn count_whole<'a, K: Known>(
    alloc: Global,
    spot: &Spot<'a, K>,
    e: &'a Expr,
) -> Result<u32, NoMemory>
    requires { KeepPrimes (corrections_of spot.now.rules.now) }
    ensures nodes { IfOk result (λ n. n ≤ least_at spot.now (shape (term_of e.now))) }
    ensures some { IfOk result (λ n. 1 ≤ n) }
{
    let mut counted = Vec::new(alloc);
    count_expr(alloc, spot, e, &mut counted)
}
