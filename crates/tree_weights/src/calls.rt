//! Calls of functions of the program among nodes.
ghost use Rattle.std.specs.Prelude.{◌≡◌, ℕ};
ghost use Rattle.choice_tree.specs.NodeViews.{node_of};
ghost use Rattle.choice_tree.specs.StatementViews.{weighted_act};
ghost use Rattle.choice_tree.specs.WeightedViews.{weighted_of};
ghost use Rattle.tree_weights.specs.Nodes.{called_by, run_weight};
ghost use Rattle.tree_weights.specs.Weights.{Bodies};

use choice_tree::{Node, WAct, WExpr};
use mpy_tree::{Builtin, Name};

/// The name of the function that a node calls, if it is no builtin's.
pub fn called(node: Node<'_>) -> Option<&Name>
    ensures { (bodies : Bodies) → run_weight bodies (node_of node.entry) ≡ called_by bodies result }
{
    match node {
        Node::Expr(e) => called_in(e),
        Node::Stmt(s) => no_call(&s.act),
        Node::Arm(_) | Node::Body(_) | Node::Func(_) | Node::Prog(_) => None,
    }
}

// That of an expression.
fn called_in(e: &WExpr) -> Option<&Name>
    ensures { (bodies : Bodies) → run_weight bodies (weighted_of e.now) ≡ called_by bodies result }
{
    match e {
        WExpr::Call(f, _) => match Builtin::of(f.bytes()) {
            Some(_) => None,
            None => Some(f),
        },
        _ => None,
    }
}

// A statement itself calls none.
fn no_call(act: &WAct) -> Option<&Name>
    ensures { (bodies : Bodies) (line : ℕ) → run_weight bodies (weighted_act act.now line) ≡
        called_by bodies result }
{
    match act {
        WAct::Pass => None,
        _ => None,
    }
}
