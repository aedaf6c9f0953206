//! The live selections of weighted trees, in order and counted.

use crate::selections::pairs_of;
use crate::trees::{sum_of_picks, three_rules};
use choice_tree::WProg;
use cost_levels::{COUNT_MOST, Levels};
use std::alloc::Global;
use std::test::Fail;

/// A selection, as pairs of a pick and a member.
type Pairs = &'static [(u32, u32)];

/// Of `three_rules` the selections of each cost, in order.
const OF_THREE_RULES: [(u32, &[Pairs]); 5] = [
    (0, &[&[]]),
    (1, &[&[(1, 1)], &[(0, 2)]]),
    (2, &[&[(0, 2), (2, 1)]]),
    (3, &[&[(0, 1)]]),
    (4, &[]),
];

/// Of a sum of a pick with members at the costs 1 and 2, and one with a member at the cost 1.
const OF_A_SUM: [(u32, &[Pairs]); 5] = [
    (0, &[&[]]),
    (1, &[&[(1, 1)], &[(0, 1)]]),
    (2, &[&[(0, 1), (1, 1)], &[(0, 2)]]),
    (3, &[&[(0, 2), (1, 1)]]),
    (4, &[]),
];

/// Whether these are the selections of the tree at the cost, in this order.
fn lists(alloc: Global, tree: &WProg, cost: u32, wanted: &[Pairs]) -> Result<bool, Fail> {
    let levels = Levels::of(alloc, tree)?;
    let found = levels.in_order(alloc, cost)?;
    for (s, pairs) in found.iter().zip(wanted.iter()) {
        if pairs_of(alloc, s)?.as_slice() != *pairs {
            return Ok(false);
        }
    }
    let many = levels.count(alloc, cost)? as usize;
    Ok(found.len() == wanted.len() && many == wanted.len())
}

#[test]
fn selections_are_in_order(rt: HostRuntime) -> Result<(), Fail> {
    let alloc = rt.alloc();
    let tree = three_rules(alloc)?;
    for (cost, wanted) in &OF_THREE_RULES {
        assert!(rt; lists(alloc, &tree, *cost, *wanted)?, "at {cost}");
    }
    let sum = sum_of_picks(alloc, &[&[1, 2], &[1]])?;
    for (cost, wanted) in &OF_A_SUM {
        assert!(rt; lists(alloc, &sum, *cost, *wanted)?, "at {cost}");
    }
    Ok(())
}

/// Sums of picks, by the costs of their members, each with a cost and how many selections have it.
const COUNTED: [(&[&[u32]], u32, u32); 10] = [
    (&[], 0, 1),
    (&[], 1, 0),
    (&[&[1, 1, 1], &[2]], 2, 1),
    (&[&[1, 1, 1], &[2]], 3, 3),
    (&[ONE; 20], 0, 1),
    (&[ONE; 20], 2, 190),
    (&[ONE; 20], 10, COUNT_MOST),
    (&[&TEN, &TEN, &TEN, &TEN, &TEN], 5, 100_000),
    (&[&TEN, &TEN, &TEN, &TEN, &TEN, &[5]], 5, COUNT_MOST),
    (&[&TEN, &TEN, &TEN, &TEN, &TEN, &[5, 5]], 5, COUNT_MOST),
];

const ONE: &[u32] = &[1];

const TEN: [u32; 10] = [1; 10];

#[test]
fn selections_are_counted_up_to_a_bound(rt: HostRuntime) -> Result<(), Fail> {
    let alloc = rt.alloc();
    for (costs, cost, many) in &COUNTED {
        let tree = sum_of_picks(alloc, *costs)?;
        let levels = Levels::of(alloc, &tree)?;
        assert_eq!(rt;
            levels.count(alloc, *cost)?,
            *many,
            "at {cost} of {costs:?}"
        );
    }
    Ok(())
}
