//! How many nodes the weighted tree of an expression has at least, without building it. The counts
//! are about speed alone: with lower ones, even 0, a tree that is too large is told later.
ghost use Rattle.std.specs.Prelude.{◌≤◌, ℕ, All, IfOk, OnOk, map, suc};
ghost use Rattle.std.specs.List.{sum_by};
ghost use Rattle.mpy_tree.specs.View.{term_of};
ghost use Rattle.mpy_tree.specs.Shapes.{shape};
ghost use Rattle.mpy_tree.specs.Trees.{Tree};
ghost use Rattle.choice_tree.specs.Drafts.{draft_of};
ghost use Rattle.choice_tree.specs.Growing.{alternatives};
ghost use Rattle.choice_tree.specs.Matching.{here};
ghost use Rattle.choice_tree.specs.RuleViews.{corrections_of, template_of};
ghost use Rattle.choice_tree.specs.Templates.{KeepPrimes};
ghost use Rattle.eml_match.specs.MatchedRules.{site_of};
ghost use Rattle.eml_match.specs.Resolutions.{depth};
ghost use Rattle.eml_instances.specs.Alternatives.{IsNumbered, alternative_seen};
ghost use Rattle.eml_rewrite.specs.LeastSizes.{AreCounted, IsLeast, draft_least, kept_least};
ghost use Rattle.eml_rewrite.specs.LeastSizes.{least_at, others_least};
ghost use Rattle.eml_rewrite.specs.Sides.{IsSide, draft_at, part_drafts};
ghost use Rattle.eml_rewrite.specs.Spots.{context_at, setting_at};

use crate::side::Side;
use crate::spot::Spot;
use choice_tree::NoMemory;
use eml_instances::{Alternative, Resolved, Substitution, alternatives};
use eml_match::parts::part;
use eml_match::pattern_parts::pattern_part;
use eml_match::{Site, matched_rules};
use mpy_tree::{Expr, same_expr};
use mpy_types::Known;
use std::alloc::Global;

/// How many nodes the weighted tree of a program may have.
pub const MOST: u32 = 1000000;

/// An expression, and so many nodes its weighted tree has at least, wherever it stands.
#[derive(Clone, Copy, Drop)]
pub struct Counted<'a> {
    pub e: &'a Expr,
    pub nodes: u32,
}

/// How many nodes the weighted tree of an expression has at least, wherever it stands. The parts,
/// and then the expression itself, are put behind what was counted before. So each is counted once,
/// in however many members it is rewritten again.
#[cycle(count_expr)]
pub fn count_expr<'a, K: Known>(
    alloc: Global,
    spot: &Spot<'a, K>,
    e: &'a Expr,
    counted: &mut Vec<Counted<'a>>,
) -> Result<u32, NoMemory>
    requires keep_primes { KeepPrimes (corrections_of spot.now.rules.now) }
    requires counted { AreCounted (least_at spot.now) counted.old.items }
    ensures nodes { IfOk result (λ n. n ≤ least_at spot.now (shape (term_of e.now))) }
    ensures some { IfOk result (λ n. 1 ≤ n) }
    ensures counted { OnOk result (AreCounted (least_at spot.now) counted.new.items) }
{
    let nodes = count_node(alloc, spot, e, counted)?;
    counted.push(Counted { e, nodes })?;
    Ok(nodes)
}

// The same, with its parts alone behind what was counted before.
#[cycle(count_expr)]
fn count_node<'a, K: Known>(
    alloc: Global,
    spot: &Spot<'a, K>,
    e: &'a Expr,
    counted: &mut Vec<Counted<'a>>,
) -> Result<u32, NoMemory>
    requires keep_primes { KeepPrimes (corrections_of spot.now.rules.now) }
    requires counted { AreCounted (least_at spot.now) counted.old.items }
    ensures nodes { IfOk result (λ n. n ≤ least_at spot.now (shape (term_of e.now))) }
    ensures some { IfOk result (λ n. 1 ≤ n) }
    ensures counted { OnOk result (AreCounted (least_at spot.now) counted.new.items) }
{
    let kept = count_parts(alloc, spot, e, counted)?;
    if kept > MOST {
        return Ok(kept);
    }
    let others = count_others(alloc, spot, Site::Elsewhere, e, counted.as_slice())?;
    Ok(kept.saturating_add(others))
}

// Of the node that stays, with its parts.
#[cycle(count_expr)]
fn count_parts<'a, K: Known>(
    alloc: Global,
    spot: &Spot<'a, K>,
    e: &'a Expr,
    counted: &mut Vec<Counted<'a>>,
) -> Result<u32, NoMemory>
    requires keep_primes { KeepPrimes (corrections_of spot.now.rules.now) }
    requires counted { AreCounted (least_at spot.now) counted.old.items }
    ensures nodes { IfOk result (λ n. n ≤ kept_least (least_at spot.now) (shape (term_of
        e.now))) }
    ensures some { IfOk result (λ n. 1 ≤ n) }
    ensures counted { OnOk result (AreCounted (least_at spot.now) counted.new.items) }
{
    let mut nodes = 1u32;
    let mut i = 0usize;
    'parts: loop {
        if nodes > MOST {
            return Ok(nodes);
        }
        match part(e, i) {
            None => return Ok(nodes),
            Some(d) => {
                let more = count_expr(alloc, spot, d, counted)?;
                nodes = nodes.saturating_add(more);
            }
        }
        i += 1;
    }
}

/// How many nodes the members of a pick besides its base have at least, and the pick; none where
/// there is no such member.
pub fn count_others<'a, K: Known>(
    alloc: Global,
    spot: &Spot<'a, K>,
    site: Site<'a>,
    e: &'a Expr,
    counted: &[Counted<'a>],
) -> Result<u32, NoMemory>
    ensures { IfOk result (λ n. IsLeast counted.now n (λ least. others_least least (alternatives
        (setting_at spot.now) (here (site_of site.entry)) (context_at spot.now) (shape (term_of
        e.now))))) }
{
    let matched = matched_rules(alloc, spot.rules, site, e)?;
    match alternatives(alloc, spot.scope, e, matched.as_slice(), MOST)? {
        None => Ok(MOST + 1),
        Some(found) => count_members(alloc, spot, found.as_slice(), counted),
    }
}

// The same of these members.
fn count_members<'a, K: Known>(
    alloc: Global,
    spot: &Spot<'a, K>,
    found: &[Alternative<'a>],
    counted: &[Counted<'a>],
) -> Result<u32, NoMemory>
    requires { All (IsNumbered (context_at spot.now).scope) found.now }
    ensures { IfOk result (λ n. IsLeast counted.now n (λ least. others_least least (map
        (alternative_seen (context_at spot.now).scope) found.now))) }
{
    if found.is_empty() {
        return Ok(0);
    }
    let mut nodes = 1u32;
    for a in found {
        let more = count_member(alloc, spot, a, counted)?;
        nodes = nodes.saturating_add(more);
        if nodes > MOST {
            return Ok(nodes);
        }
    }
    Ok(nodes)
}

// Of a member.
fn count_member<'a, K: Known>(
    alloc: Global,
    spot: &Spot<'a, K>,
    a: &Alternative<'a>,
    counted: &[Counted<'a>],
) -> Result<u32, NoMemory>
    requires { IsNumbered (context_at spot.now).scope a.now }
    ensures { IfOk result (λ n. IsLeast counted.now n (λ least. draft_least least (alternative_seen
        (context_at spot.now).scope a.now).draft)) }
{
    let bound = Substitution::new(alloc, spot.scope, a.matched.bindings.as_slice())?;
    let side = Side {
        term: a.side,
        bound: &bound,
        number: a.number,
    };
    Ok(count_side(&side, counted))
}

// Of a resolution of a right side.
#[cycle(count_side)]
fn count_side(side: &Side<'_, '_>, counted: &[Counted<'_>]) -> u32
    requires { IsSide (depth (template_of side.now.term.now)) side.now }
    ensures { IsLeast counted.now result (λ least. draft_least least (draft_at side.now)) }
{
    match side.bound.resolved(side.term, side.number) {
        Resolved::Again(t) => nodes_of(counted, t),
        Resolved::Term(t) => nodes_in(t),
        Resolved::AgainName(_) | Resolved::Name(_) => 1,
        Resolved::Node(_) => count_side_parts(side, counted),
        Resolved::Element(term, number) => {
            let element = Side {
                term,
                bound: side.bound,
                number,
            };
            count_side(&element, counted)
        }
    }
}

// Of one that has a node at its root.
#[cycle(count_side)]
fn count_side_parts(side: &Side<'_, '_>, counted: &[Counted<'_>]) -> u32
    requires { IsSide (depth (template_of side.now.term.now)) side.now }
    ensures { IsLeast counted.now result (λ least. suc (sum_by (draft_least least) (part_drafts
        side.now))) }
{
    let mut nodes = 1u32;
    let mut i = 0usize;
    'parts: loop {
        match pattern_part(side.term, i) {
            None => return nodes,
            Some(term) => {
                let part = Side {
                    term,
                    bound: side.bound,
                    number: side.bound.part_number(side.term, i, side.number),
                };
                nodes = nodes.saturating_add(count_side(&part, counted));
            }
        }
        i += 1;
    }
}

// Of an expression as it stands.
#[cycle(nodes_in)]
fn nodes_in(e: &Expr) -> u32
    ensures { (least : Tree → ℕ) → result ≤ draft_least least (draft_of (shape (term_of e.now))) }
{
    let mut nodes = 1u32;
    let mut i = 0usize;
    'parts: loop {
        match part(e, i) {
            None => return nodes,
            Some(d) => nodes = nodes.saturating_add(nodes_in(d)),
        }
        i += 1;
    }
}

// What was counted of an expression. The parts of the one that is being counted stand at the end.
fn nodes_of(counted: &[Counted<'_>], e: &Expr) -> u32
    ensures { IsLeast counted.now result (λ least. least (shape (term_of e.now))) }
{
    let mut i = counted.len();
    while i > 0 {
        i -= 1;
        let last = counted[i];
        if same_expr(last.e, e) {
            return last.nodes;
        }
    }
    1
}
