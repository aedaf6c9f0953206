//! The word calls over a graph, on all pairs of three bits, and the formula of a gate.

use crate::operations::{
    Outcome, difference_of, opposite_of, order_of, power_of, product_of, quotient_of, remainder_of,
    sum_of,
};
use bit_graph::graph::Graph;
use bit_words::logic::{Logic, Variables};
use cnf_build::build::to_formula;
use std::test::Fail;

/// A table of what Python's integers give for all pairs from -4 to 3, row by row: a number, `o` for
/// Overflow, or `f` for the operation's other fault.
fn entry(table: &[u8], x: i32, y: i32) -> Outcome {
    let place = (x.wrapping_add(4))
        .wrapping_mul(8)
        .wrapping_add(y.wrapping_add(4));
    let place = usize::try_from(place).unwrap_or(0);
    match table.get(place) {
        Some(b'o') => (None, Some(true), Some(false)),
        Some(b'f') => (None, Some(false), Some(true)),
        Some(digit) => (
            Some(i32::from(*digit).wrapping_sub(52)),
            Some(false),
            Some(false),
        ),
        None => (None, None, None),
    }
}

const SUMS: &[u8] = b"oooo0123ooo01234oo012345o0123456012345671234567o234567oo34567ooo";

const DIFFERENCES: &[u8] = b"43210ooo543210oo6543210o76543210o7654321oo765432ooo76543oooo7654";

const PRODUCTS: &[u8] = b"oooo40ooooo741ooooo6420oo76543214444444401234567oo0246ooooo147oo";

const QUOTIENTS: &[u8] = b"556of0224557f1234456f2334445f3334444f4443333f5443332f6543321f755";

const REMAINDERS: &[u8] = b"4344f4461434f4542244f4453334f4564444f4441234f4552344f4463434f454";

const POWERS: &[u8] = b"ffff50ooffff51ooffff52ooffff5353ffff5444ffff5555ffff56ooffff57oo";

const OPPOSITES: &[u8] = b"o7654321";

/// Whether an outcome is the expected one, whose number is open where there is a fault.
fn agrees(expected: Outcome, outcome: Outcome) -> bool {
    let (number, over, fault) = expected;
    (number.is_none() || outcome.0 == number) && outcome.1 == over && outcome.2 == fault
}

/// The outcomes of all operations on a pair, over a new graph each.
#[test]
fn all_pairs_of_three_bits(rt: HostRuntime) -> Result<(), Fail> {
    let alloc = rt.alloc();
    for x in -4..4 {
        for y in -4..4 {
            let mut g = Graph::new(alloc)?;
            let pairs = [
                (SUMS, sum_of(alloc, &mut g, x, y, 3)?),
                (DIFFERENCES, difference_of(alloc, &mut g, x, y, 3)?),
                (PRODUCTS, product_of(alloc, &mut g, x, y, 3)?),
                (QUOTIENTS, quotient_of(alloc, &mut g, x, y, 3)?),
                (REMAINDERS, remainder_of(alloc, &mut g, x, y, 3)?),
                (POWERS, power_of(alloc, &mut g, x, y, 3)?),
            ];
            for (number, (table, outcome)) in pairs.iter().enumerate() {
                assert!(rt;
                    agrees(entry(table, x, y), *outcome),
                    "operation {number} on {x} and {y}"
                );
            }
            let order = order_of(alloc, &mut g, x, y, 3)?;
            assert_eq!(rt; order, (Some(x < y), Some(x == y)), "{x} and {y}");
        }
        let mut g = Graph::new(alloc)?;
        let opposite = opposite_of(alloc, &mut g, x, 3)?;
        assert!(rt; agrees(entry(OPPOSITES, -4, x), opposite), "-{x}");
    }
    Ok(())
}

#[test]
fn seven_and_one_leave_four_bits(rt: HostRuntime) -> Result<(), Fail> {
    let mut g = Graph::new(rt.alloc())?;
    let (_, over, _) = sum_of(rt.alloc(), &mut g, 7, 1, 4)?;
    assert_eq!(rt; over, Some(true));
    Ok(())
}

#[test]
fn one_gate_has_three_clauses(rt: HostRuntime) -> Result<(), Fail> {
    let alloc = rt.alloc();
    let mut g = Graph::new(alloc)?;
    let a = g.variable()?;
    let formula = to_formula(alloc, &g, a)?;
    assert_eq!(rt; formula.vars, 2);
    assert_eq!(rt; formula.clauses.len(), 2);
    let b = g.variable()?;
    let both = g.and(a, b)?;
    let formula = to_formula(alloc, &g, both)?;
    assert_eq!(rt; formula.vars, 4);
    assert_eq!(rt; formula.clauses.len(), 5);
    Ok(())
}
