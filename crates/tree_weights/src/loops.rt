//! Loops among nodes.
ghost use Rattle.std.specs.Prelude.{◌≡◌, ℕ, option_map};
ghost use Rattle.choice_tree.specs.NodeViews.{node_of};
ghost use Rattle.choice_tree.specs.StatementViews.{weighted_act};
ghost use Rattle.choice_tree.specs.WeightedViews.{weighted_of};
ghost use Rattle.tree_weights.specs.Nodes.{loop_seen, own_loop};

use choice_tree::{Node, WAct, WExpr, WStmts};

/// A loop: its test or its list, whether that is done before each turn, and its body.
#[derive(Clone, Copy, Drop)]
pub struct Loop<'a> {
    pub head: &'a WExpr,
    pub again: bool,
    pub body: &'a WStmts,
}

/// The loop that a node is.
pub fn loop_of(node: Node<'_>) -> Option<Loop<'_>>
    ensures { option_map loop_seen result ≡ own_loop (node_of node.entry) }
{
    match node {
        Node::Stmt(s) => loop_of_act(&s.act),
        Node::Expr(e) => no_loop(e),
        Node::Arm(_) | Node::Body(_) | Node::Func(_) | Node::Prog(_) => None,
    }
}

// The loop that a statement is.
fn loop_of_act(act: &WAct) -> Option<Loop<'_>>
    ensures { (line : ℕ) → option_map loop_seen result ≡ own_loop (weighted_act act.now line) }
{
    match act {
        WAct::While(head, body) => Some(Loop {
            head,
            again: true,
            body,
        }),
        WAct::For(_, head, body) => Some(Loop {
            head,
            again: false,
            body,
        }),
        _ => None,
    }
}

// An expression is none.
fn no_loop(e: &WExpr) -> Option<Loop<'_>>
    ensures { option_map loop_seen result ≡ own_loop (weighted_of e.now) }
{
    match e {
        WExpr::Int(_) => None,
        _ => None,
    }
}
