//! Whether a selection fits a tree.
ghost use Rattle.std.specs.Prelude.{◌≡◌, ◌↔◌, true, ◌==◌, ◌&&◌, nat_le, length};
ghost use Rattle.choice_tree.specs.Selections.{Fits, fits_from, has_member, any_of};
ghost use Rattle.choice_tree.specs.WeightedTrees.{children};
ghost use Rattle.choice_tree.specs.NodeViews.{node_of, pick_of};
ghost use Rattle.choice_tree.specs.PickViews.{others_seen};
ghost use Rattle.choice_tree.specs.StatementViews.{weighted_prog};

use crate::node::{Node, Pick};
use crate::selection::{Choice, Selection};
use crate::tree::WProg;

/// Whether the picks of a selection rise, and each pair names a pick of the tree and one of its
/// members besides the base.
pub fn fits(w: &WProg, s: &Selection) -> bool
    ensures { (result ≡ true) ↔ Fits (weighted_prog w.now) s.now }
{
    all_fit(w, s)
}

// The same, as a test of one pair after the other.
fn all_fit(w: &WProg, s: &Selection) -> bool
    ensures { result ≡ fits_from (weighted_prog w.now) 0 s.now }
{
    let mut from = 0u64;
    for choice in s.items() {
        if (choice.pick as u64) < from || choice.member == 0 {
            return false;
        }
        if !has_member(Node::Prog(w), *choice) {
            return false;
        }
        from = choice.pick as u64 + 1;
    }
    true
}

// Whether a pick of the tree has this number and this member.
#[cycle(has_member)]
fn has_member(node: Node<'_>, choice: Choice) -> bool
    ensures { result ≡ has_member (node_of node.entry) choice.pick choice.member }
{
    match node.pick() {
        None => part_has_member(node, choice),
        Some(pick) => {
            if own_member(pick, choice) {
                true
            } else {
                part_has_member(node, choice)
            }
        }
    }
}

// Whether the pick itself has this number and this member.
fn own_member(pick: Pick<'_>, choice: Choice) -> bool
    ensures { result ≡ ((pick_of pick.entry).number == choice.pick) && nat_le choice.member
        (length (others_seen pick.entry)) }
{
    pick.number() == choice.pick && choice.member as usize <= pick.len()
}

// The same of a child.
#[cycle(has_member)]
fn part_has_member(node: Node<'_>, choice: Choice) -> bool
    ensures { result ≡ any_of (λ w. has_member w choice.pick choice.member) (children (node_of
        node.entry)) }
{
    let mut i = 0u128;
    'parts: loop {
        match node.child(i) {
            None => return false,
            Some(part) => {
                if has_member(part, choice) {
                    return true;
                }
            }
        }
        i += 1;
    }
}
