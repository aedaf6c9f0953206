//! Nodes of weighted programs, of whatever sort: a walk sees its children, and no sort of them.
ghost use Rattle.std.specs.Prelude.{◌≡◌, ◌≤◌, ◌<◌, ◌^◌, IsSome, ◌∷◌, [], ℕ, map, slice_get};
ghost use Rattle.std.specs.Prelude.{option_map, length, suc, Some, None, IfSome, IfNone};
ghost use Rattle.choice_tree.specs.WeightedTrees.{children, listed, other_trees, no_weighted};
ghost use Rattle.choice_tree.specs.Choices.{member_of};
ghost use Rattle.choice_tree.specs.Selections.{other_at};
ghost use Rattle.choice_tree.specs.EditViews.{parts_line};
ghost use Rattle.choice_tree.specs.NodeViews.{node_of, expr_of, pick_of, own_pick};
ghost use Rattle.choice_tree.specs.PickViews.{others_seen};
ghost use Rattle.choice_tree.specs.WeightedViews.{weighted_of, weighteds, end_and, members};
ghost use Rattle.choice_tree.specs.WeightedViews.{member_seen};
ghost use Rattle.choice_tree.specs.StatementViews.{weighted_act, weighted_arm, weighted_body};
ghost use Rattle.choice_tree.specs.StatementViews.{weighted_else};
ghost use Rattle.choice_tree.specs.StatementViews.{weighted_func, weighted_stmt, arms_before};

use crate::selection::Selection;
use crate::tree::{Other, WAct, WArm, WExpr, WFunc, WProg, WStmt, WStmts};

/// A node of a weighted program.
#[derive(Clone, Copy, Drop)]
pub enum Node<'a> {
    Expr(&'a WExpr),
    Stmt(&'a WStmt),
    Arm(&'a WArm),
    Body(&'a WStmts),
    Func(&'a WFunc),
    Prog(&'a WProg),
}

/// A pick: its number, its base, and its members besides the base.
#[derive(Clone, Copy, Drop)]
pub struct Pick<'a> {
    number: u32,
    base: &'a WExpr,
    others: &'a [Other],
}

impl<'a> Pick<'a> {
    /// Its number.
    pub fn number(self) -> u32
        ensures { result ≡ (pick_of self.entry).number }
    {
        self.number
    }

    /// Its base.
    pub fn base(self) -> Node<'a>
        ensures { node_of result ≡ (pick_of self.entry).base }
    {
        Node::Expr(self.base)
    }

    /// How many members it has besides its base.
    pub fn len(self) -> usize
        ensures { result ≡ length (others_seen self.entry) }
    {
        self.others.len()
    }

    /// The rule of a member besides the base.
    pub fn rule(self, i: usize) -> u32
        requires { i < length (others_seen self) }
        ensures { Some result ≡ option_map (λ m. m.rule) (slice_get (others_seen self.entry) i) }
    {
        self.others[i].rule
    }

    /// The cost of a member besides the base, without that of its tree.
    pub fn cost(self, i: usize) -> u32
        requires { i < length (others_seen self) }
        ensures { Some result ≡ option_map (λ m. m.cost) (slice_get (others_seen self.entry) i) }
    {
        self.others[i].cost
    }

    /// The tree of a member besides the base.
    pub fn tree(self, i: usize) -> Node<'a>
        requires { i < length (others_seen self) }
        ensures { Some (node_of result) ≡ option_map (λ m. m.tree) (slice_get (others_seen
            self.entry) i) }
    {
        Node::Expr(self.tree_as_expr(i))
    }

    /// Which member besides the base a selection chooses, if it chooses one.
    pub fn chosen(self, s: &Selection) -> Option<usize>
        ensures is { IfSome result (λ i. member_of s.now (pick_of self.entry).number ≡ suc i) }
        ensures within { IfSome result (λ i. i < length (others_seen self.entry)) }
        ensures none { IfNone result (None ≡ other_at (member_of s.now (pick_of self.entry).number)
            (others_seen self.entry)) }
    {
        let member = s.member(self.number) as usize;
        if member == 0 || member > self.others.len() {
            None
        } else {
            Some(member - 1)
        }
    }

    // The same trees where expressions are made of them.
    pub(crate) fn base_as_expr(self) -> &'a WExpr
        ensures { expr_of result ≡ (pick_of self.entry).base }
    {
        self.base
    }

    pub(crate) fn tree_as_expr(self, i: usize) -> &'a WExpr
        requires { i < length (others_seen self) }
        ensures { Some (expr_of result) ≡ option_map (λ m. m.tree) (slice_get (others_seen
            self.entry) i) }
    {
        &self.others[i].tree
    }
}

impl<'a> Node<'a> {
    /// The child at a place: a part, as they are written, or of a pick its base and then the
    /// trees of its other members. A place is a u128, since a list and one child more may be more
    /// than a usize counts.
    pub fn child(self, i: u128) -> Option<Node<'a>>
        ensures tree { option_map node_of result ≡ slice_get (children (node_of self.entry)) i }
        ensures near { IsSome result → i ≤ 2 ^ 64 }
    {
        match self {
            Node::Expr(e) => Some(Node::Expr(expr_child(e, i)?)),
            Node::Stmt(stmt) => stmt_child(&stmt.act, i),
            Node::Arm(arm) => {
                if i == 0 {
                    Some(Node::Expr(&arm.test))
                } else {
                    body_child(&arm.body, i - 1)
                }
            }
            Node::Body(body) => stmt_at(body.items.as_slice(), i),
            Node::Func(func) => body_child(&func.body, i),
            Node::Prog(prog) => func_at(prog.funcs.items.as_slice(), i),
        }
    }

    /// The line on which its parts stand, if it stands on this one.
    pub fn line_below(self, line: u32) -> u32
        ensures { result ≡ parts_line (node_of self.entry) line }
    {
        match self {
            Node::Expr(e) => same_line(e, line),
            Node::Stmt(stmt) => stmt_line(&stmt.act, stmt.line, line),
            Node::Arm(arm) => arm.line,
            Node::Body(_) | Node::Func(_) | Node::Prog(_) => line,
        }
    }

    /// The pick that stands there.
    pub fn pick(self) -> Option<Pick<'a>>
        ensures { option_map pick_of result ≡ own_pick (node_of self.entry) }
    {
        match self {
            Node::Expr(e) => expr_pick(e),
            Node::Stmt(stmt) => no_pick(&stmt.act, stmt.line),
            Node::Arm(_) | Node::Body(_) | Node::Func(_) | Node::Prog(_) => None,
        }
    }
}

/// The child of an expression at a place: a part, as they are written, or of a pick its base and
/// then the trees of its other members.
pub fn expr_child(e: &WExpr, i: u128) -> Option<&WExpr>
    ensures tree { option_map expr_of result ≡ slice_get (children (weighted_of e.now)) i }
    ensures near { IsSome result → i ≤ 2 ^ 64 }
{
    match e {
        WExpr::Int(_) | WExpr::Bool(_) | WExpr::Text(_) | WExpr::Name(_) => None,
        WExpr::List(es) | WExpr::Call(_, es) => expr_at(es.items.as_slice(), i),
        WExpr::Neg(a) | WExpr::Not(a) => one_of(a, i),
        WExpr::Arith(_, a, b)
        | WExpr::Cmp(_, a, b)
        | WExpr::And(a, b)
        | WExpr::Or(a, b)
        | WExpr::Index(a, b) => one_of_two(a, b, i),
        WExpr::Cond { test, yes, no } => {
            if i == 0 {
                Some(yes)
            } else {
                one_of_two(test, no, i - 1)
            }
        }
        WExpr::Slice(a, from, to) => {
            if i == 0 {
                Some(a)
            } else {
                one_of_ends(from, to, i - 1)
            }
        }
        WExpr::Pick { base, others, .. } => {
            if i == 0 {
                Some(base)
            } else {
                other_tree(others.items.as_slice(), i - 1)
            }
        }
    }
}

// The part at a place, where there is one, and where there are two.
fn one_of(a: &WExpr, i: u128) -> Option<&WExpr>
    ensures tree { option_map expr_of result ≡ slice_get (weighted_of a.now ∷ []) i }
    ensures near { IsSome result → i ≤ 2 ^ 64 }
{
    if i == 0 { Some(a) } else { None }
}

fn one_of_two<'a>(a: &'a WExpr, b: &'a WExpr, i: u128) -> Option<&'a WExpr>
    ensures tree { option_map expr_of result ≡ slice_get (weighted_of a.now ∷
        weighted_of b.now ∷ []) i }
    ensures near { IsSome result → i ≤ 2 ^ 64 }
{
    match i {
        0 => Some(a),
        1 => Some(b),
        _ => None,
    }
}

// The end of a slice at a place.
fn one_of_ends<'a>(
    from: &'a Option<Box<WExpr>>,
    to: &'a Option<Box<WExpr>>,
    i: u128,
) -> Option<&'a WExpr>
    ensures tree { option_map expr_of result ≡ slice_get (listed (end_and (λ b. weighted_of b.value)
        from.now (end_and (λ b. weighted_of b.value) to.now no_weighted))) i }
    ensures near { IsSome result → i ≤ 2 ^ 64 }
{
    match (from, to) {
        (Some(a), Some(b)) => one_of_two(a, b, i),
        (Some(a), None) | (None, Some(a)) => one_of(a, i),
        (None, None) => None,
    }
}

// The element at a place of a list.
fn at<T>(xs: &[T], i: u128) -> Option<&T>
    ensures tree { option_map (λ r. r.now) result ≡ slice_get xs.now i }
    ensures near { IsSome result → i < 2 ^ 64 }
{
    if i < xs.len() as u128 {
        xs.get(i as usize)
    } else {
        None
    }
}

// The tree of a member besides the base, counted from 0.
fn other_tree(others: &[Other], i: u128) -> Option<&WExpr>
    ensures tree { option_map expr_of result ≡ slice_get (other_trees (members (map member_seen
        others.now))) i }
    ensures near { IsSome result → i < 2 ^ 64 }
{
    match at(others, i) {
        None => None,
        Some(other) => Some(&other.tree),
    }
}

fn expr_at(es: &[WExpr], i: u128) -> Option<&WExpr>
    ensures tree { option_map expr_of result ≡ slice_get (listed (weighteds (map weighted_of
        es.now))) i }
    ensures near { IsSome result → i < 2 ^ 64 }
{
    match at(es, i) {
        None => None,
        Some(e) => Some(e),
    }
}

fn stmt_at(stmts: &[WStmt], i: u128) -> Option<Node<'_>>
    ensures tree { option_map node_of result ≡ slice_get (listed (weighteds (map weighted_stmt
        stmts.now))) i }
    ensures near { IsSome result → i < 2 ^ 64 }
{
    match at(stmts, i) {
        None => None,
        Some(stmt) => Some(Node::Stmt(stmt)),
    }
}

fn func_at(funcs: &[WFunc], i: u128) -> Option<Node<'_>>
    ensures tree { option_map node_of result ≡ slice_get (listed (weighteds (map weighted_func
        funcs.now))) i }
    ensures near { IsSome result → i < 2 ^ 64 }
{
    match at(funcs, i) {
        None => None,
        Some(func) => Some(Node::Func(func)),
    }
}

// The arm at a place, or behind the arms the last body.
fn arm_at<'a>(arms: &'a [WArm], last: &'a Option<WStmts>, i: u128) -> Option<Node<'a>>
    ensures tree { option_map node_of result ≡ slice_get (listed (arms_before (map weighted_arm
        arms.now) (weighted_else last.now))) i }
    ensures near { IsSome result → i ≤ 2 ^ 64 }
{
    match at(arms, i) {
        Some(arm) => Some(Node::Arm(arm)),
        None => match last {
            Some(body) => body_child(body, i - arms.len() as u128),
            None => None,
        },
    }
}

// The pick that an expression is, and none for a statement.
fn expr_pick(e: &WExpr) -> Option<Pick<'_>>
    ensures { option_map pick_of result ≡ own_pick (weighted_of e.now) }
{
    match e {
        WExpr::Pick {
            number,
            base,
            others,
        } => Some(Pick {
            number: *number,
            base,
            others: others.items.as_slice(),
        }),
        _ => None,
    }
}

fn no_pick<'a>(act: &'a WAct, line: u32) -> Option<Pick<'a>>
    ensures { option_map pick_of result ≡ own_pick (weighted_act act.now line) }
{
    match act {
        WAct::Pass => None,
        _ => None,
    }
}

// The child of a statement at a place.
fn stmt_child<'a>(act: &'a WAct, i: u128) -> Option<Node<'a>>
    ensures tree { (line : ℕ) → option_map node_of result ≡ slice_get (children (weighted_act
        act.now line)) i }
    ensures near { IsSome result → i ≤ 2 ^ 64 }
{
    match act {
        WAct::Assign(_, e) | WAct::Augment(_, _, e) | WAct::Append(_, e) | WAct::Print(e) => {
            Some(Node::Expr(one_of(e, i)?))
        }
        WAct::Put(_, k, e) | WAct::AugmentAt(_, k, _, e) => Some(Node::Expr(one_of_two(k, e, i)?)),
        WAct::Return(None) | WAct::Pass | WAct::Break | WAct::Continue => None,
        WAct::Return(Some(e)) => Some(Node::Expr(one_of(e, i)?)),
        WAct::If(arms, last) => arm_at(arms.items.as_slice(), last, i),
        WAct::While(e, body) | WAct::For(_, e, body) => expr_or_body(e, body, i),
    }
}

// The body, where it is the first child.
fn body_child(body: &WStmts, i: u128) -> Option<Node<'_>>
    ensures tree { option_map node_of result ≡ slice_get (weighted_body body.now ∷ []) i }
    ensures near { IsSome result → i ≤ 2 ^ 64 }
{
    if i == 0 { Some(Node::Body(body)) } else { None }
}

// The expression or the body behind it.
fn expr_or_body<'a>(e: &'a WExpr, body: &'a WStmts, i: u128) -> Option<Node<'a>>
    ensures tree { option_map node_of result ≡ slice_get (weighted_of e.now ∷
        weighted_body body.now ∷ []) i }
    ensures near { IsSome result → i ≤ 2 ^ 64 }
{
    if i == 0 {
        Some(Node::Expr(e))
    } else {
        body_child(body, i - 1)
    }
}

// The parts of an expression stand on its line.
fn same_line(e: &WExpr, line: u32) -> u32
    ensures { result ≡ parts_line (weighted_of e.now) line }
{
    match e {
        WExpr::Int(_) => line,
        _ => line,
    }
}

// The line of the parts of a statement on the line `own`; those of an `if` have lines of their own.
fn stmt_line(act: &WAct, own: u32, line: u32) -> u32
    ensures { result ≡ parts_line (weighted_act act.now own) line }
{
    match act {
        WAct::Pass | WAct::Break | WAct::Continue | WAct::If(_, _) => line,
        WAct::Assign(_, _)
        | WAct::Augment(_, _, _)
        | WAct::Put(_, _, _)
        | WAct::AugmentAt(_, _, _, _)
        | WAct::Append(_, _)
        | WAct::Print(_)
        | WAct::Return(_)
        | WAct::While(_, _)
        | WAct::For(_, _, _) => own,
    }
}
