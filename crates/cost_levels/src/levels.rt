//! The levels of a tree.
ghost use Rattle.std.specs.Prelude.{◌≡◌, IfOk, OnOk, length, min};
ghost use Rattle.std.specs.List.Sorted.{IsPermutation, IsSorted};
ghost use Rattle.choice_tree.specs.StatementViews.{weighted_prog};
ghost use Rattle.cost_levels.specs.Counts.{count_most};
ghost use Rattle.cost_levels.specs.Levels.{level};
ghost use Rattle.cost_levels.specs.Order.{choice_cmp, selection_cmp};

use crate::NoMemory;
use crate::counting::Counts;
use crate::listing::{Walk, listed_from};
use crate::rows::{Row, push_node};
use choice_tree::{Choice, Node, Selection, WProg};
use std::alloc::Global;
use std::cmp::Ordering;
use std::marker::Model;

/// A weighted tree, and a table of its picks by which its selections are listed.
#[derive(Drop)]
pub struct Levels<'a> {
    tree: &'a WProg,
    rows: Vec<Row>,
    first: usize,
}

impl<'a> Model for Levels<'a> {
    ghost use Rattle.choice_tree.specs.declared.tree.WProg.{WProg};
    ghost use Rattle.choice_tree.specs.contracts.tree.WProg as prog;
    ghost use Rattle.choice_tree.specs.StatementViews.{weighted_prog};
    ghost use Rattle.cost_levels.specs.Plans.{done, planned};
    ghost use Rattle.cost_levels.specs.Rows.{IsTable, Shows};
    ghost use Rattle.std.specs.Coded.{codes};

    ghost Value = { WProg };

    ghost coded = { Prim.hlevel (codes, prog.the_row.coded) };

    ghost view = { λ l. l.tree.now };

    ghost invariant = { λ l. IsTable l.rows.items
        × Shows l.rows.items l.first (planned (weighted_prog l.tree.now) done) };
}

impl<'a> Levels<'a> {
    /// Those of a tree.
    pub fn of(alloc: Global, tree: &'a WProg) -> Result<Levels<'a>, NoMemory>
        ensures { IfOk result (λ l. l ≡ tree.now) }
    {
        let mut rows = Vec::new(alloc);
        let first = push_node(alloc, Node::Prog(tree), 0, &mut rows)?;
        Ok(Levels { tree, rows, first })
    }

    /// The selections of a cost that name no pick in a member that isn't chosen. The last choice in
    /// which two of them differ decides their order, by its pick and then by its member.
    pub fn level(&self, alloc: Global, cost: u32) -> Result<Vec<Selection>, NoMemory>
        ensures listed { IfOk result
            (λ v. IsPermutation (level (weighted_prog self.now) cost) v.items) }
        ensures ordered { IfOk result (λ v. IsSorted selection_cmp v.items) }
    {
        let rows = self.rows.as_slice();
        let counts = Counts::none(alloc);
        let walk = Walk {
            rows,
            counts: &counts,
        };
        let mut listed = listed_from(alloc, &walk, self.first, cost)?;
        sort(&mut listed)?;
        Ok(listed)
    }

    /// The same selections by their members: the first pick at which two of them differ decides
    /// their order. Only what leads to one of them is walked, by the table of numbers.
    pub fn in_order(&self, alloc: Global, cost: u32) -> Result<Vec<Selection>, NoMemory>
        ensures { IfOk result (λ v. v.items ≡ level (weighted_prog self.now) cost) }
    {
        let rows = self.rows.as_slice();
        let counts = Counts::of(alloc, rows, cost)?;
        let walk = Walk {
            rows,
            counts: &counts,
        };
        listed_from(alloc, &walk, self.first, cost)
    }

    /// How many they are, or [`COUNT_MOST`](crate::COUNT_MOST) where they are as many or more.
    pub fn count(&self, alloc: Global, cost: u32) -> Result<u32, NoMemory>
        ensures { IfOk result (λ n. n
            ≡ min (length (level (weighted_prog self.now) cost)) count_most) }
    {
        let counts = Counts::of(alloc, self.rows.as_slice(), cost)?;
        Ok(counts.at(self.first, cost as usize))
    }
}

// Sorts selections, so that those come first that choose members at earlier picks alone.
fn sort(listed: &mut Vec<Selection>) -> Result<(), NoMemory>
    ensures same { IsPermutation listed.old.items listed.new.items }
    ensures ordered { OnOk result (IsSorted selection_cmp listed.new.items) }
{
    listed.sort_by(|a: &Selection, b: &Selection| order(a.items(), b.items()))
}

// The last choice that differs decides.
fn order(a: &[Choice], b: &[Choice]) -> Ordering
    ensures { result ≡ selection_cmp a.now b.now }
{
    let mut i = a.len();
    let mut j = b.len();
    'last: loop {
        if i == 0 || j == 0 {
            return i.cmp(&j);
        }
        i -= 1;
        j -= 1;
        match choice_order(a[i], b[j]) {
            Ordering::Equal => {}
            differing => return differing,
        }
    }
}

// By the picks, and at the same pick by the members.
fn choice_order(a: Choice, b: Choice) -> Ordering
    ensures { result ≡ choice_cmp a b }
{
    a.pick.cmp(&b.pick).then(a.member.cmp(&b.member))
}
