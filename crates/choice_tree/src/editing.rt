//! What a selection replaces.
ghost use Rattle.std.specs.Prelude.{◌≡◌, ◌++◌, map, IfOk, OnOk};
ghost use Rattle.mpy_tree.specs.View.{term_of};
ghost use Rattle.mpy_tree.specs.Shapes.{shape};
ghost use Rattle.choice_tree.specs.Choices.{member_of};
ghost use Rattle.choice_tree.specs.EditViews.{edit_of, pick_number, edits_of_each, picks_of_each};
ghost use Rattle.choice_tree.specs.Selections.{edits, edited_picks};
ghost use Rattle.choice_tree.specs.WeightedTrees.{base_of, children};
ghost use Rattle.choice_tree.specs.WeightedViews.{weighted_of};
ghost use Rattle.choice_tree.specs.NodeViews.{node_of};
ghost use Rattle.choice_tree.specs.StatementViews.{weighted_prog};

use crate::NoMemory;
use crate::edit::{Edit, Edits};
use crate::making::plain_expr;
use crate::node::Node;
use crate::selection::Selection;
use crate::tree::{WExpr, WProg};
use mpy_tree::Expr;
use std::alloc::Global;

/// The replacements by which a selection makes its program.
pub fn edits(alloc: Global, w: &WProg, s: &Selection) -> Result<Edits, NoMemory>
    ensures replaced { IfOk result (λ r. map edit_of r.items.items ≡ edits (member_of s.now)
        (weighted_prog w.now) 0) }
    ensures picks { IfOk result (λ r. map pick_number r.items.items ≡ edited_picks (member_of
        s.now) (weighted_prog w.now)) }
{
    let mut items = Vec::new(alloc);
    push_edits(alloc, Node::Prog(w), 0, s, &mut items)?;
    Ok(Edits { items })
}

// Appends those of a node, whose line is that of the node above.
#[cycle(edits)]
fn push_edits(
    alloc: Global,
    node: Node<'_>,
    line: u32,
    s: &Selection,
    out: &mut Vec<Edit>,
) -> Result<(), NoMemory>
    ensures replaced { OnOk result (map edit_of out.new.items ≡ map edit_of out.old.items ++ edits
        (member_of s.now) (node_of node.entry) line) }
    ensures picks { OnOk result (map pick_number out.new.items ≡ map pick_number out.old.items ++
        edited_picks (member_of s.now) (node_of node.entry)) }
{
    match node.pick() {
        None => push_parts(alloc, node, node.line_below(line), s, out),
        Some(pick) => match pick.chosen(s) {
            None => push_edits(alloc, pick.base(), line, s, out),
            Some(i) => {
                let old = base_expr(alloc, pick.base_as_expr())?;
                let new = plain_expr(alloc, pick.tree_as_expr(i), s)?;
                out.push(Edit {
                    pick: pick.number(),
                    line,
                    rule: pick.rule(i),
                    old,
                    new,
                })?;
                push_edits(alloc, pick.tree(i), line, s, out)
            }
        },
    }
}

// Appends those of all children, which stand on a line.
#[cycle(edits)]
fn push_parts(
    alloc: Global,
    node: Node<'_>,
    line: u32,
    s: &Selection,
    out: &mut Vec<Edit>,
) -> Result<(), NoMemory>
    ensures replaced { OnOk result (map edit_of out.new.items ≡ map edit_of out.old.items ++
        edits_of_each (member_of s.now) line (children (node_of node.entry))) }
    ensures picks { OnOk result (map pick_number out.new.items ≡ map pick_number out.old.items ++
        picks_of_each (member_of s.now) (children (node_of node.entry))) }
{
    let mut i = 0u128;
    'parts: loop {
        match node.child(i) {
            None => return Ok(()),
            Some(part) => push_edits(alloc, part, line, s, out)?,
        }
        i += 1;
    }
}

// The base of a weighted expression.
fn base_expr(alloc: Global, w: &WExpr) -> Result<Expr, NoMemory>
    ensures { IfOk result (λ r. shape (term_of r) ≡ base_of (weighted_of w.now)) }
{
    let none = Selection::from_vec(Vec::new(alloc));
    plain_expr(alloc, w, &none)
}
