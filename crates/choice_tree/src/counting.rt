//! The greatest cost of a tree, and the number of its choices.
ghost use Rattle.std.specs.Prelude.{◌≡◌, ◌<◌, ◌≤◌, ◌^◌, ◌+◌, ◌*◌, suc, max, length};
ghost use Rattle.choice_tree.specs.Selections.{most_cost, other_most_cost, choices, stopped};
ghost use Rattle.choice_tree.specs.Costs.{capped, all_costs, sum_of, product_of};
ghost use Rattle.choice_tree.specs.WeightedTrees.{children};
ghost use Rattle.choice_tree.specs.NodeViews.{node_of, pick_of};
ghost use Rattle.choice_tree.specs.PickViews.{others_seen};
ghost use Rattle.choice_tree.specs.StatementViews.{weighted_prog};

use crate::node::{Node, Pick};
use crate::tree::WProg;

/// The number at which the count of choices stops.
const MOST_CHOICES: u64 = 1_000_000_000_000;

/// The product of the numbers of members over all picks, those in other members too, or 10^12
/// where it is greater.
pub fn choices(w: &WProg) -> u64
    ensures { result ≡ stopped (choices (weighted_prog w.now)) }
{
    stopped_choices(Node::Prog(w))
}

// The same of a node.
#[cycle(choices)]
fn stopped_choices(node: Node<'_>) -> u64
    ensures { result ≡ stopped (choices (node_of node.entry)) }
{
    match node.pick() {
        None => part_choices(node, 1),
        Some(pick) => part_choices(node, members_of(pick)),
    }
}

// How many members a pick has, the base among them.
fn members_of(pick: Pick<'_>) -> u64
    ensures { result ≡ stopped (suc (length (others_seen pick.entry))) }
{
    (pick.len() as u64).saturating_add(1).min(MOST_CHOICES)
}

// A number of choices, and those of all children.
#[cycle(choices)]
fn part_choices(node: Node<'_>, first: u64) -> u64
    requires some { 1 ≤ first }
    requires few { first ≤ 1000000000000 }
    ensures { result ≡ stopped (first * product_of choices (children (node_of node.entry))) }
{
    let mut total = first;
    let mut i = 0u128;
    'parts: loop {
        match node.child(i) {
            None => return total,
            Some(part) => total = total
                .saturating_mul(stopped_choices(part))
                .min(MOST_CHOICES),
        }
        i += 1;
    }
}

/// The greatest cost of a selection that fits.
pub fn most_cost(w: &WProg) -> u32
    requires { all_costs (weighted_prog w.now) < 2 ^ 32 }
    ensures { result ≡ most_cost (weighted_prog w.now) }
{
    capped_most(Node::Prog(w))
}

// The same of a node, or the greatest u32.
#[cycle(most_cost)]
fn capped_most(node: Node<'_>) -> u32
    ensures { result ≡ capped (most_cost (node_of node.entry)) }
{
    match node.pick() {
        None => parts_most(node),
        Some(pick) => pick_most(pick),
    }
}

// That of all children together.
#[cycle(most_cost)]
fn parts_most(node: Node<'_>) -> u32
    ensures { result ≡ capped (sum_of most_cost (children (node_of node.entry))) }
{
    let mut total = 0u32;
    let mut i = 0u128;
    'parts: loop {
        match node.child(i) {
            None => return total,
            Some(part) => total = total.saturating_add(capped_most(part)),
        }
        i += 1;
    }
}

// The greatest of the members of a pick.
#[cycle(most_cost)]
fn pick_most(pick: Pick<'_>) -> u32
    ensures { result ≡ capped (max (most_cost (pick_of pick.entry).base)
        (other_most_cost (pick_of pick.entry).others)) }
{
    let mut most = capped_most(pick.base());
    for i in 0..pick.len() {
        let cost = pick.cost(i).saturating_add(capped_most(pick.tree(i)));
        most = most.max(cost);
    }
    most
}
