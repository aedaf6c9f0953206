//! How many members the picks of a tree have, and the selection with a number.
ghost use Rattle.std.specs.Prelude.{◌≡◌, ◌≤◌, ◌^◌, ◌++◌, ◌/◌, ◌%◌, ◌<◌, [], suc, map, IfOk, OnOk};
ghost use Rattle.std.specs.Prelude.{length, slice_get, List, Some, ℕ};
ghost use Rattle.choice_tree.specs.NodeViews.{node_of};
ghost use Rattle.choice_tree.specs.StatementViews.{weighted_prog};
ghost use Rattle.choice_tree.specs.WeightedTrees.{children};
ghost use Rattle.selection_numbers.specs.MemberCounts.{member_counts, counts_of_each};
ghost use Rattle.selection_numbers.specs.Numbers.{and_member, selection_from};

use crate::NoMemory;
use choice_tree::{Choice, Node, Selection, WProg};
use std::alloc::Global;
use std::marker::Model;

/// How many members besides its base each pick of a tree has, in order of the picks.
#[derive(Drop)]
pub struct MemberCounts {
    others: Vec<usize>,
}

impl Model for MemberCounts {
    ghost Value = { List ℕ };

    ghost view = { λ a. map suc a.others.items };
}

impl MemberCounts {
    /// Those of a tree.
    pub fn of(alloc: Global, w: &WProg) -> Result<MemberCounts, NoMemory>
        ensures { IfOk result (λ r. r ≡ member_counts (weighted_prog w.now)) }
    {
        let mut others = Vec::new(alloc);
        push_counts(Node::Prog(w), &mut others)?;
        Ok(MemberCounts { others })
    }

    /// How many picks there are.
    pub fn len(&self) -> usize
        ensures { result ≡ length self.now }
    {
        self.others.len()
    }

    /// How many members a pick has besides its base.
    pub fn others(&self, pick: usize) -> usize
        requires { pick < length self.now }
        ensures { slice_get self.now pick ≡ Some (suc result) }
    {
        self.others[pick]
    }

    /// The selection with a number, counted from 0.
    ///
    /// The digits of the number are the members, the first pick's the lowest.
    pub fn selection(&self, alloc: Global, number: u32) -> Result<Selection, NoMemory>
        requires { length self.now ≤ 2 ^ 32 }
        ensures { IfOk result (λ s. s ≡ selection_from 0 self.now number) }
    {
        let mut chosen = Vec::new(alloc);
        let mut rest = number;
        for (pick, others) in self.others.iter().enumerate() {
            let (member, higher) = lowest_digit(rest, *others);
            push_member(&mut chosen, pick as u32, member)?;
            rest = higher;
        }
        Ok(Selection::from_vec(chosen))
    }
}

// The lowest digit of a number to the base of one more than `others`, and the number without it.
fn lowest_digit(number: u32, others: usize) -> (u32, u32)
    ensures lowest { result.0 ≡ number % suc others }
    ensures higher { result.1 ≡ number / suc others }
{
    let members = others as u128 + 1;
    let number = number as u128;
    ((number % members) as u32, (number / members) as u32)
}

// Appends the member of a pick, where it isn't the base.
fn push_member(chosen: &mut Vec<Choice>, pick: u32, member: u32) -> Result<(), NoMemory>
    ensures { OnOk result (chosen.new.items ≡ chosen.old.items ++ and_member pick member []) }
{
    if member != 0 {
        chosen.push(Choice { pick, member })?;
    }
    Ok(())
}

// Appends those of the picks of a node.
#[cycle(counts)]
fn push_counts(node: Node<'_>, out: &mut Vec<usize>) -> Result<(), NoMemory>
    ensures { OnOk result (map suc out.new.items ≡ map suc out.old.items ++ member_counts (node_of
        node.entry)) }
{
    match node.pick() {
        None => push_parts(node, out),
        Some(pick) => {
            out.push(pick.len())?;
            push_parts(node, out)
        }
    }
}

// Appends those of all children.
#[cycle(counts)]
fn push_parts(node: Node<'_>, out: &mut Vec<usize>) -> Result<(), NoMemory>
    ensures { OnOk result (map suc out.new.items ≡ map suc out.old.items ++ counts_of_each
        (children (node_of node.entry))) }
{
    let mut i = 0u128;
    'parts: loop {
        match node.child(i) {
            None => return Ok(()),
            Some(part) => push_counts(part, out)?,
        }
        i += 1;
    }
}
