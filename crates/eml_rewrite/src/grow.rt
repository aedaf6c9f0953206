//! The weighted tree of an expression.
ghost use Rattle.std.specs.Prelude.{◌≤◌, map};
ghost use Rattle.mpy_tree.specs.View.{term_of};
ghost use Rattle.mpy_tree.specs.Shapes.{shape};
ghost use Rattle.mpy_tree.specs.Trees as kind;
ghost use Rattle.mpy_tree.specs.Trees.{leaf};
ghost use Rattle.choice_tree.specs.Contexts.{elsewhere, inside};
ghost use Rattle.choice_tree.specs.Growing.{base_grown, draft_grown, grown, members, node_grown};
ghost use Rattle.choice_tree.specs.RuleViews.{corrections_of};
ghost use Rattle.choice_tree.specs.WeightedTrees.{pick};
ghost use Rattle.choice_tree.specs.WeightedViews.{weighted_of, others_of};
ghost use Rattle.eml_match.specs.MatchedRules.{matched_of, site_of};
ghost use Rattle.eml_match.specs.Resolutions.{depth};
ghost use Rattle.eml_instances.specs.Alternatives.{IsNumbered, alternative_seen};
ghost use Rattle.eml_rewrite.specs.Building.{Built, BuiltAll, BuiltOthers, parts_of};
ghost use Rattle.eml_rewrite.specs.Parts.{kept_parts, draft_parts_grown};
ghost use Rattle.eml_rewrite.specs.Sides.{AreMembers, HasNode, IsSide, deepest, draft_at};
ghost use Rattle.eml_rewrite.specs.Spots.{setting_at, context_at};

use crate::counter::Counter;
use crate::error::RewriteError;
use crate::side::Side;
use crate::spot::Spot;
use crate::written::{write_copy, write_expr, write_name};
use choice_tree::{Head, Other, Others, WExpr, head_of, weighted_node};
use eml_instances::{Alternative, Resolved, Substitution, alternatives};
use eml_match::parts::part;
use eml_match::pattern_parts::pattern_part;
use eml_match::{Site, matched_rules};
use mpy_tree::{Expr, Name};
use mpy_types::Known;
use std::alloc::Global;

/// The weighted tree of an expression where it stands, in so many steps at most as the place says.
#[cycle(grow)]
pub fn grow<'a, K: Known>(
    alloc: Global,
    spot: &Spot<'a, K>,
    site: Site<'a>,
    e: &'a Expr,
    counter: &mut Counter,
) -> Result<WExpr, RewriteError>
    ensures { Built weighted_of result (grown (setting_at spot.now) spot.now.steps (site_of
        site.entry) (context_at spot.now) (shape (term_of e.now))) counter.old
        counter.new }
{
    if spot.steps == 0 {
        return write_expr(alloc, spot, e, counter);
    }
    let after = Spot {
        rules: spot.rules,
        scope: spot.scope,
        sharing: spot.sharing,
        steps: spot.steps - 1,
    };
    let matched = matched_rules(alloc, spot.rules, site, e)?;
    match alternatives(alloc, spot.scope, e, matched.as_slice(), counter.left)? {
        None => Err(RewriteError::Large),
        Some(found) => {
            let listed = found.as_slice();
            if listed.is_empty() {
                return grow_base(alloc, &after, site, e, counter);
            }
            grow_pick(alloc, &after, site, e, listed, counter)
        }
    }
}

// The base of a pick: the node, or at a site all that is made without the rules of its place.
#[cycle(grow)]
fn grow_base<'a, K: Known>(
    alloc: Global,
    spot: &Spot<'a, K>,
    site: Site<'a>,
    e: &'a Expr,
    counter: &mut Counter,
) -> Result<WExpr, RewriteError>
    ensures { Built weighted_of result (base_grown (setting_at spot.now) (grown (setting_at
        spot.now) spot.now.steps) (site_of site.entry) (context_at spot.now)
        (shape (term_of e.now))) counter.old counter.new }
{
    match site {
        Site::Elsewhere => grow_kept(alloc, spot, e, counter),
        _ => grow(alloc, spot, Site::Elsewhere, e, counter),
    }
}

// The node stays, with the weighted trees of its parts.
#[cycle(grow)]
fn grow_kept<'a, K: Known>(
    alloc: Global,
    spot: &Spot<'a, K>,
    e: &'a Expr,
    counter: &mut Counter,
) -> Result<WExpr, RewriteError>
    ensures { Built weighted_of result (node_grown (setting_at spot.now) (grown (setting_at
        spot.now) spot.now.steps) (context_at spot.now) (shape (term_of e.now)))
        counter.old counter.new }
{
    let head = head_of(e);
    match spot.copied(head) {
        Some(x) => write_copy(alloc, x, counter),
        None => {
            counter.take(1)?;
            let parts = grow_parts(alloc, spot, e, counter)?;
            Ok(weighted_node(alloc, head, parts)?)
        }
    }
}

// The weighted trees of the parts of a node.
#[cycle(grow)]
fn grow_parts<'a, K: Known>(
    alloc: Global,
    spot: &Spot<'a, K>,
    e: &'a Expr,
    counter: &mut Counter,
) -> Result<Vec<WExpr>, RewriteError>
    ensures { BuiltAll parts_of result (kept_parts (setting_at spot.now) (grown (setting_at
        spot.now) spot.now.steps) (context_at spot.now) (shape (term_of e.now)))
        counter.old counter.new }
{
    let head = head_of(e);
    let mut made = Vec::new(alloc);
    let mut i = 0usize;
    'parts: loop {
        match part(e, i) {
            None => return Ok(made),
            Some(d) => {
                let below = spot.with_sharing(spot.sharing.below(head, i));
                made.push(grow(alloc, &below, Site::Elsewhere, d, counter)?)?;
            }
        }
        i += 1;
    }
}

// A pick of the base and of these members.
#[cycle(grow)]
fn grow_pick<'a, K: Known>(
    alloc: Global,
    spot: &Spot<'a, K>,
    site: Site<'a>,
    e: &'a Expr,
    found: &[Alternative<'a>],
    counter: &mut Counter,
) -> Result<WExpr, RewriteError>
    requires { AreMembers (context_at spot.now).scope (deepest (corrections_of
        spot.now.rules.now)) found.now }
    ensures { Built weighted_of result (pick 0 (base_grown (setting_at spot.now) (grown
        (setting_at spot.now) spot.now.steps) (site_of site.entry) (context_at spot.now) (shape
        (term_of e.now))) (members (setting_at spot.now) (grown
        (setting_at spot.now) spot.now.steps) (inside (context_at spot.now))
        (map (alternative_seen (context_at spot.now).scope) found.now))) counter.old counter.new }
{
    let number = counter.number()?;
    let base = grow_base(alloc, spot, site, e, counter)?;
    let base = Box::new(alloc, base)?;
    let others = grow_members(alloc, spot, found, counter)?;
    Ok(WExpr::Pick {
        number,
        base,
        others,
    })
}

// The members of a pick besides its base.
#[cycle(grow)]
fn grow_members<'a, K: Known>(
    alloc: Global,
    spot: &Spot<'a, K>,
    found: &[Alternative<'a>],
    counter: &mut Counter,
) -> Result<Others, RewriteError>
    requires { AreMembers (context_at spot.now).scope (deepest (corrections_of
        spot.now.rules.now)) found.now }
    ensures { BuiltOthers others_of result (members (setting_at spot.now) (grown
        (setting_at spot.now) spot.now.steps) (inside (context_at spot.now))
        (map (alternative_seen (context_at spot.now).scope) found.now)) counter.old counter.new }
{
    let within = spot.with_sharing(spot.sharing.inside());
    let mut items = Vec::new(alloc);
    for a in found {
        let tree = grow_member(alloc, &within, a, counter)?;
        items.push(Other {
            rule: a.matched.rule,
            cost: a.matched.cost,
            tree,
        })?;
    }
    Ok(Others { items })
}

// What a member puts in place of the term.
#[cycle(grow)]
fn grow_member<'a, K: Known>(
    alloc: Global,
    spot: &Spot<'a, K>,
    a: &Alternative<'a>,
    counter: &mut Counter,
) -> Result<WExpr, RewriteError>
    requires numbered { IsNumbered (context_at spot.now).scope a.now }
    requires deep { depth (matched_of a.now.matched.now).right ≤ deepest (corrections_of
        spot.now.rules.now) }
    ensures { Built weighted_of result (draft_grown (setting_at spot.now) (grown
        (setting_at spot.now) spot.now.steps) (alternative_seen (context_at spot.now).scope
        a.now).draft (context_at spot.now)) counter.old counter.new }
{
    let bound = Substitution::new(alloc, spot.scope, a.matched.bindings.as_slice())?;
    let side = Side {
        term: a.side,
        bound: &bound,
        number: a.number,
    };
    grow_side(alloc, spot, &side, counter)
}

// A resolution of a right side, with the weighted trees of what is rewritten again.
#[cycle(grow)]
fn grow_side<'a, K: Known>(
    alloc: Global,
    spot: &Spot<'a, K>,
    side: &Side<'a, '_>,
    counter: &mut Counter,
) -> Result<WExpr, RewriteError>
    requires { IsSide (deepest (corrections_of spot.now.rules.now)) side.now }
    ensures { Built weighted_of result (draft_grown (setting_at spot.now) (grown
        (setting_at spot.now) spot.now.steps) (draft_at side.now) (context_at spot.now))
        counter.old counter.new }
{
    match side.bound.resolved(side.term, side.number) {
        Resolved::Again(t) => grow(alloc, spot, Site::Elsewhere, t, counter),
        Resolved::AgainName(x) => grow_name(alloc, spot, x, counter),
        Resolved::Term(t) => write_expr(alloc, spot, t, counter),
        Resolved::Name(x) => write_name(alloc, spot, x, counter),
        Resolved::Node(head) => grow_node(alloc, spot, head, side, counter),
        Resolved::Element(term, number) => {
            let element = Side {
                term,
                bound: side.bound,
                number,
            };
            grow_side(alloc, spot, &element, counter)
        }
    }
}

// A name, rewritten again.
#[cycle(grow)]
fn grow_name<K: Known>(
    alloc: Global,
    spot: &Spot<'_, K>,
    x: &Name,
    counter: &mut Counter,
) -> Result<WExpr, RewriteError>
    ensures { Built weighted_of result (grown (setting_at spot.now) spot.now.steps elsewhere
        (context_at spot.now) (leaf (kind.Name x.now))) counter.old counter.new }
{
    let name = Expr::Name(x.copy()?);
    grow(alloc, spot, Site::Elsewhere, &name, counter)
}

// The same of a side that has this node.
#[cycle(grow)]
fn grow_node<'a, K: Known>(
    alloc: Global,
    spot: &Spot<'a, K>,
    head: Head<'a>,
    side: &Side<'a, '_>,
    counter: &mut Counter,
) -> Result<WExpr, RewriteError>
    requires side { IsSide (deepest (corrections_of spot.now.rules.now)) side.now }
    requires node { HasNode head side.now }
    ensures { Built weighted_of result (draft_grown (setting_at spot.now) (grown
        (setting_at spot.now) spot.now.steps) (draft_at side.now) (context_at spot.now))
        counter.old counter.new }
{
    match spot.copied(head) {
        Some(x) => write_copy(alloc, x, counter),
        None => {
            counter.take(1)?;
            let parts = grow_side_parts(alloc, spot, head, side, counter)?;
            Ok(weighted_node(alloc, head, parts)?)
        }
    }
}

// The weighted trees of the parts of a side that has this node.
#[cycle(grow)]
fn grow_side_parts<'a, K: Known>(
    alloc: Global,
    spot: &Spot<'a, K>,
    head: Head<'a>,
    side: &Side<'a, '_>,
    counter: &mut Counter,
) -> Result<Vec<WExpr>, RewriteError>
    requires side { IsSide (deepest (corrections_of spot.now.rules.now)) side.now }
    requires node { HasNode head side.now }
    ensures { BuiltAll parts_of result (draft_parts_grown (setting_at spot.now) (grown
        (setting_at spot.now) spot.now.steps) (context_at spot.now) (draft_at side.now))
        counter.old counter.new }
{
    let mut made = Vec::new(alloc);
    let mut i = 0usize;
    'parts: loop {
        match pattern_part(side.term, i) {
            None => return Ok(made),
            Some(term) => {
                let below = spot.with_sharing(spot.sharing.below(head, i));
                let part = Side {
                    term,
                    bound: side.bound,
                    number: side.bound.part_number(side.term, i, side.number),
                };
                made.push(grow_side(alloc, &below, &part, counter)?)?;
            }
        }
        i += 1;
    }
}
