//! What a selection costs.
ghost use Rattle.std.specs.Prelude.{◌≡◌, ◌<◌, ◌^◌};
ghost use Rattle.choice_tree.specs.Choices.{member_of};
ghost use Rattle.choice_tree.specs.Selections.{cost};
ghost use Rattle.choice_tree.specs.Costs.{capped, all_costs, sum_of};
ghost use Rattle.choice_tree.specs.WeightedTrees.{children};
ghost use Rattle.choice_tree.specs.NodeViews.{node_of};
ghost use Rattle.choice_tree.specs.StatementViews.{weighted_prog};

use crate::node::Node;
use crate::selection::Selection;
use crate::tree::WProg;

/// The cost of a selection of a weighted program. Picks in members that aren't chosen don't count.
pub fn cost(w: &WProg, s: &Selection) -> u32
    requires { all_costs (weighted_prog w.now) < 2 ^ 32 }
    ensures { result ≡ cost (member_of s.now) (weighted_prog w.now) }
{
    capped_cost(Node::Prog(w), s)
}

// The same of a node, or the greatest u32.
#[cycle(cost)]
fn capped_cost(node: Node<'_>, s: &Selection) -> u32
    ensures { result ≡ capped (cost (member_of s.now) (node_of node.entry)) }
{
    match node.pick() {
        None => parts_cost(node, s),
        Some(pick) => match pick.chosen(s) {
            None => capped_cost(pick.base(), s),
            Some(i) => pick.cost(i).saturating_add(capped_cost(pick.tree(i), s)),
        },
    }
}

// That of all children together.
#[cycle(cost)]
fn parts_cost(node: Node<'_>, s: &Selection) -> u32
    ensures { result ≡ capped (sum_of (cost (member_of s.now)) (children (node_of node.entry))) }
{
    let mut total = 0u32;
    let mut i = 0u128;
    'parts: loop {
        match node.child(i) {
            None => return total,
            Some(part) => total = total.saturating_add(capped_cost(part, s)),
        }
        i += 1;
    }
}
