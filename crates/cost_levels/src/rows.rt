//! The picks of a tree as rows of a table.
ghost use Rattle.std.specs.Prelude.{◌≡◌, ◌≤◌, ◌<◌, ◌^◌, IfOk, OnOk, length};
ghost use Rattle.choice_tree.specs.NodeViews.{node_of, pick_of};
ghost use Rattle.choice_tree.specs.WeightedTrees.{children};
ghost use Rattle.cost_levels.specs.Plans.{Plan, Ways, at_pick, planned, planned_each, ways_by};
ghost use Rattle.cost_levels.specs.Rows.{GoesBack, Grows, IsTable, IsTableTo, Shows, ShowWays};

use crate::NoMemory;
use choice_tree::{Node, Pick};
use std::alloc::{AllocError, Global};

/// A pick by its number, and the entries after its base and after its other members.
///
/// An entry is 0, the end, or one more than the place of a row.
#[derive(Drop)]
pub(crate) struct Row {
    pub(crate) number: u32,
    pub(crate) base: usize,
    pub(crate) others: Vec<Way>,
}

/// A member at its cost, and the entry after it.
#[derive(Clone, Copy, Drop)]
pub(crate) struct Way {
    pub(crate) cost: u32,
    pub(crate) next: usize,
}

/// Appends rows for the picks of a node, after which an entry comes; the entry of the first.
#[cycle(rows)]
pub(crate) fn push_node(
    alloc: Global,
    node: Node<'_>,
    after: usize,
    rows: &mut Vec<Row>,
) -> Result<usize, NoMemory>
    ensures grown { OnOk result (Grows rows.old.items rows.new.items) }
    ensures table { IfOk result (λ e. IsTableTo rows.old.items after
        → IsTableTo rows.new.items e) }
    ensures shown { IfOk result (λ e. (p : Plan) → Shows rows.old.items after p
        → Shows rows.new.items e (planned (node_of node.entry) p)) }
{
    match node.pick() {
        None => push_parts(alloc, node, after, rows),
        Some(pick) => push_pick(alloc, pick, after, rows),
    }
}

// The same for all children, from the last to the first.
#[cycle(rows)]
fn push_parts(
    alloc: Global,
    node: Node<'_>,
    after: usize,
    rows: &mut Vec<Row>,
) -> Result<usize, NoMemory>
    ensures grown { OnOk result (Grows rows.old.items rows.new.items) }
    ensures table { IfOk result (λ e. IsTableTo rows.old.items after
        → IsTableTo rows.new.items e) }
    ensures shown { IfOk result (λ e. (p : Plan) → Shows rows.old.items after p
        → Shows rows.new.items e (planned_each (children (node_of node.entry)) p)) }
{
    let mut entry = after;
    let mut left = count_parts(node);
    'parts: while left > 0 {
        left -= 1;
        match node.child(left) {
            None => unreachable!(),
            Some(part) => entry = push_node(alloc, part, entry, rows)?,
        }
    }
    Ok(entry)
}

// How many children a node has.
fn count_parts(node: Node<'_>) -> u128
    ensures { result ≡ length (children (node_of node.entry)) }
{
    let mut i = 0u128;
    'parts: loop {
        match node.child(i) {
            None => return i,
            Some(_) => i += 1,
        }
    }
}

// The same for a pick, whose row comes last.
#[cycle(rows)]
fn push_pick(
    alloc: Global,
    pick: Pick<'_>,
    after: usize,
    rows: &mut Vec<Row>,
) -> Result<usize, NoMemory>
    ensures grown { OnOk result (Grows rows.old.items rows.new.items) }
    ensures table { IfOk result (λ e. IsTableTo rows.old.items after
        → IsTableTo rows.new.items e) }
    ensures shown { IfOk result (λ e. (p : Plan) → Shows rows.old.items after p
        → Shows rows.new.items e (at_pick (pick_of pick.entry).number
        (planned (pick_of pick.entry).base p) (ways_by (pick_of pick.entry).others p))) }
{
    let base = push_node(alloc, pick.base(), after, rows)?;
    let mut others = Vec::new(alloc);
    for i in 0..pick.len() {
        let next = push_node(alloc, pick.tree(i), after, rows)?;
        others.push(Way {
            cost: pick.cost(i),
            next,
        })?;
    }
    push_row(
        Row {
            number: pick.number(),
            base,
            others,
        },
        rows,
    )
}

// Appends a row; its entry. No memory holds more members than there are numbers for them.
fn push_row(row: Row, rows: &mut Vec<Row>) -> Result<usize, NoMemory>
    ensures grown { OnOk result (Grows rows.old.items rows.new.items) }
    ensures table { IfOk result (λ e. IsTable rows.old.items
        → GoesBack (length rows.old.items) row → IsTableTo rows.new.items e) }
    ensures shown { IfOk result (λ e. (base : Plan) (ws : Ways)
        → Shows rows.old.items row.base base
        → ShowWays rows.old.items (length rows.old.items) row.others.items ws
        → Shows rows.new.items e (at_pick row.number base ws)) }
{
    if row.others.len() >= u32::MAX as usize {
        return Err(AllocError);
    }
    rows.push(row)?;
    Ok(rows.len())
}
