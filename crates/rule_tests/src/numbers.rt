//! Selections by number.

use crate::trees::three_rules;
use selection_numbers::MemberCounts;
use std::test::Fail;

/// Numbers, with the picks and members of their selections.
const NUMBERED: [(u32, &[(u32, u32)]); 5] = [
    (0, &[]),
    (1, &[(0, 1)]),
    (5, &[(0, 2), (1, 1)]),
    (6, &[(2, 1)]),
    (11, &[(0, 2), (1, 1), (2, 1)]),
];

#[test]
fn numbers_give_selections(rt: HostRuntime) -> Result<(), Fail> {
    let alloc = rt.alloc();
    let counts = MemberCounts::of(alloc, &three_rules(alloc)?)?;
    if counts.len() != 3 {
        return Err("other picks")?;
    }
    for (number, pairs) in &NUMBERED {
        let found = counts.selection(alloc, *number)?;
        assert!(rt; found.items().len() == pairs.len(), "at {number}");
        for (choice, pair) in found.items().iter().zip(pairs.iter()) {
            assert!(rt;
                choice.pick == pair.0 && choice.member == pair.1,
                "at {number}"
            );
        }
    }
    Ok(())
}
