//! What is left of a number behind the nodes of a function.
ghost use Rattle.std.specs.Prelude.{◌≡◌, ◌≤◌, ◌<◌, ◌+◌, ◌-◌, ◌^◌, ℕ, if◌then◌else◌, map};
ghost use Rattle.mpy_tree.specs.Rules.{member_of};
ghost use Rattle.choice_tree.specs.Costs.{sum_of};
ghost use Rattle.choice_tree.specs.NodeViews.{node_of};
ghost use Rattle.choice_tree.specs.Selections.{count_others};
ghost use Rattle.choice_tree.specs.StatementViews.{weighted_act};
ghost use Rattle.choice_tree.specs.WeightedTrees.{children, nodes};
ghost use Rattle.choice_tree.specs.WeightedViews.{member_seen, members, weighted_of};
ghost use Rattle.tree_weights.specs.Frames.{bodies_of, loop_in, nodes_of, root_in};
ghost use Rattle.tree_weights.specs.Frames.{scope_of, weight_in};
ghost use Rattle.tree_weights.specs.Nodes.{called_by, loop_seen};
ghost use Rattle.tree_weights.specs.RootTypes.{type_at};
ghost use Rattle.tree_weights.specs.Weights.{pick_weight};

use crate::amounts::{arith_weight, bits, bits_of, call_weight, compare_weight};
use crate::calls::called;
use crate::frame::Frame;
use crate::loops::{Loop, loop_of};
use choice_tree::{Node, Other, WAct, WExpr};
use mpy_tree::{ArithOp, Name, Ty};
use mpy_types::Known;

// What is left of a number.
fn less(left: u64, weight: u128) -> u64
    ensures { result ≡ left - weight }
{
    let left_here = left as u128;
    if left_here <= weight {
        0
    } else {
        left - weight as u64
    }
}

// What the head of a loop weighs before each turn.
fn if_again(again: bool, head: u64) -> u64
    ensures { result ≡ (if again then head else 0) }
{
    if again { head } else { 0 }
}

// The type of a member of a list or a text.
fn member_of(ty: Ty) -> Option<Ty>
    ensures { result ≡ member_of ty }
{
    match ty {
        Ty::List => Some(Ty::Int),
        Ty::Text => Some(Ty::Text),
        Ty::Int | Ty::Bool => None,
    }
}

impl Frame<'_> {
    // The type of an expression, read off its root.
    fn ty(&self, e: &WExpr) -> Option<Ty>
        ensures { result ≡ type_at (scope_of self.now) (weighted_of e.now) }
    {
        match e {
            WExpr::Int(_) | WExpr::Neg(_) => Some(Ty::Int),
            WExpr::Bool(_) | WExpr::Not(_) | WExpr::Cmp(_, _, _) => Some(Ty::Bool),
            WExpr::And(_, _) | WExpr::Or(_, _) => Some(Ty::Bool),
            WExpr::Text(_) => Some(Ty::Text),
            WExpr::List(_) => Some(Ty::List),
            WExpr::Name(x) => self.program.facts.local(self.number, x).only(),
            WExpr::Arith(ArithOp::Add | ArithOp::Mul, a, _) => self.ty(a),
            WExpr::Arith(_, _, _) => Some(Ty::Int),
            WExpr::Cond { yes, .. } => self.ty(yes),
            WExpr::Index(a, _) => member_of(self.ty(a)?),
            WExpr::Slice(a, _, _) => self.ty(a),
            WExpr::Call(f, _) => self.program.call_type(f),
            WExpr::Pick { base, .. } => self.ty(base),
        }
    }

    // An expression itself.
    fn expr_weight(&self, e: &WExpr) -> u128
        ensures weight { result ≡ root_in self.now (weighted_of e.now) }
        ensures small { result ≤ 2 ^ 80 }
    {
        let limits = self.program.limits;
        match e {
            WExpr::Int(_) | WExpr::Bool(_) | WExpr::Text(_) | WExpr::Name(_) => 1,
            WExpr::List(_) => bits(limits, Ty::List),
            WExpr::Neg(_) => 8 * limits.width as u128,
            WExpr::Not(_) | WExpr::And(_, _) | WExpr::Or(_, _) => 4,
            WExpr::Arith(op, a, _) => arith_weight(limits, *op, self.ty(a)),
            WExpr::Cmp(op, a, b) => compare_weight(limits, *op, self.ty(a), self.ty(b)),
            WExpr::Cond { yes, .. } => 4 * bits_of(limits, self.ty(yes)),
            WExpr::Index(a, _) => 4 * bits_of(limits, self.ty(a)),
            WExpr::Slice(a, _, _) => 4 * (limits.cap as u128 * bits_of(limits, self.ty(a))),
            WExpr::Call(f, _) => call_weight(limits, f),
            WExpr::Pick { base, others, .. } => self.pick_weight(base, others.items.as_slice()),
        }
    }

    // A pick of its base and these other members.
    #[tactic(auto, using(crate::proofs::Counted::counted_others))]
    fn pick_weight(&self, base: &WExpr, others: &[Other]) -> u128
        ensures weight { result ≡ pick_weight self.now.program.limits.now (type_at (scope_of
            self.now) (weighted_of base.now)) (count_others (members (map member_seen
            others.now))) }
        ensures small { result ≤ 2 ^ 80 }
    {
        let count = others.len() as u128 + 1;
        4 * (bits_of(self.program.limits, self.ty(base)) * count)
    }

    // A statement itself.
    fn act_weight(&self, act: &WAct) -> u128
        ensures weight { (line : ℕ) → result ≡ root_in self.now (weighted_act act.now line) }
        ensures small { result ≤ 2 ^ 81 }
    {
        let limits = self.program.limits;
        match act {
            WAct::Augment(x, op, _) => {
                let ty = self.program.facts.local(self.number, x).only();
                self.step + arith_weight(limits, *op, ty)
            }
            WAct::AugmentAt(_, _, op, _) => self.step + arith_weight(limits, *op, Some(Ty::Int)),
            WAct::Print(_) => self.step + 4 * self.program.printed_bits(self.number),
            WAct::Assign(_, _)
            | WAct::Put(_, _, _)
            | WAct::Append(_, _)
            | WAct::Return(_)
            | WAct::Pass
            | WAct::Break
            | WAct::Continue
            | WAct::If(_, _)
            | WAct::While(_, _)
            | WAct::For(_, _, _) => self.step,
        }
    }

    // A node itself.
    fn node_weight(&self, node: Node<'_>) -> u128
        ensures weight { result ≡ root_in self.now (node_of node.entry) }
        ensures small { result ≤ 2 ^ 81 }
    {
        match node {
            Node::Expr(e) => self.expr_weight(e),
            Node::Stmt(s) => self.act_weight(&s.act),
            Node::Arm(_) | Node::Body(_) | Node::Func(_) | Node::Prog(_) => 0,
        }
    }

    /// What is left of a number behind a node.
    #[cycle(weighing)]
    pub fn after(&self, node: Node<'_>, left: u64) -> u64
        requires { nodes (node_of node) ≤ nodes_of self.now }
        ensures { result ≡ left - weight_in self.now (node_of node.entry) }
    {
        if left == 0 {
            return 0;
        }
        let own = less(left, self.node_weight(node));
        match loop_of(node) {
            Some(inner) => self.after_loop(inner, own),
            None => {
                let run = self.after_call(called(node), own);
                self.after_children(node, run)
            }
        }
    }

    // Behind all children of a node.
    #[cycle(weighing)]
    fn after_children(&self, node: Node<'_>, left: u64) -> u64
        requires { nodes (node_of node) ≤ nodes_of self.now }
        ensures { result ≡ left - sum_of (weight_in self.now) (children (node_of node.entry)) }
    {
        let mut rest = left;
        let mut i = 0u128;
        'parts: loop {
            match node.child(i) {
                None => return rest,
                Some(part) => rest = self.after(part, rest),
            }
            i += 1;
        }
    }

    // Behind the parts of a loop.
    #[cycle(weighing)]
    fn after_loop(&self, inner: Loop<'_>, left: u64) -> u64
        requires { nodes (loop_seen inner).head + nodes (loop_seen inner).body < nodes_of self.now }
        ensures { result ≡ left - loop_in self.now (loop_seen inner.entry) }
    {
        let behind = self.after(Node::Expr(inner.head), left);
        let again = if_again(inner.again, left - behind);
        let before = less(left, self.step + again as u128);
        let turn = left - self.after(Node::Body(inner.body), before);
        less(behind, self.program.limits.turns as u128 * turn as u128)
    }

    // Behind the body of the function of a name, if there is one.
    #[cycle(weighing)]
    fn after_call(&self, f: Option<&Name>, left: u64) -> u64
        ensures { result ≡ left - called_by (bodies_of self.now) f.entry }
    {
        match f {
            None => left,
            Some(f) => self.after_body(f, left),
        }
    }

    // Behind the body of the function of a name.
    #[cycle(weighing)]
    fn after_body(&self, f: &Name, left: u64) -> u64
        ensures { result ≡ left - bodies_of self.now f.now }
    {
        if self.levels == 0 {
            return left;
        }
        match self.program.find(f) {
            None => left,
            Some(found) => {
                let frame = Frame::new(self.program, found.number, self.levels - 1);
                frame.after(Node::Func(found.func), left)
            }
        }
    }
}
