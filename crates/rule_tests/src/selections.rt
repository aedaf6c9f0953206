//! What selections of a weighted tree give.

use crate::trees::three_rules;
use choice_tree::{Choice, Edit, Selection, choices, edits, fits, plain};
use cost_levels::Levels;
use mpy_printer::{print_expr, print_prog};
use std::alloc::Global;
use std::test::Fail;
use tree_weights::lift;

/// Selections, as pairs of a pick and a member, with what is returned.
const FITTING: [(&[(u32, u32)], &str); 8] = [
    (&[], "x"),
    (&[(1, 1)], "x + 1"),
    (&[(0, 1)], "x + 2"),
    (&[(0, 2)], "x + 1"),
    (&[(0, 2), (2, 1)], "x + 1 + 1"),
    (&[(0, 1), (1, 1), (2, 1)], "x + 2"),
    (&[(0, 2), (1, 1)], "x + 1"),
    (&[(2, 1)], "x"),
];

/// Selections that don't fit: no such pick, no such member, the base, picks that don't rise.
const OTHERS: [&[(u32, u32)]; 6] = [
    &[(3, 1)],
    &[(0, 3)],
    &[(1, 2)],
    &[(0, 0)],
    &[(1, 1), (0, 2)],
    &[(1, 1), (1, 1)],
];

/// The selection of these picks and members.
pub(crate) fn selection(alloc: Global, pairs: &[(u32, u32)]) -> Result<Selection, Fail> {
    let mut items = Vec::new(alloc);
    for pair in pairs {
        items.push(Choice {
            pick: pair.0,
            member: pair.1,
        })?;
    }
    Ok(Selection::from_vec(items))
}

#[test]
fn selections_give_programs(rt: HostRuntime) -> Result<(), Fail> {
    let alloc = rt.alloc();
    let tree = three_rules(alloc)?;
    for (pairs, returned) in &FITTING {
        let s = selection(alloc, *pairs)?;
        let wanted = format!(in alloc; "def f(x):\n    return {returned}\n")?;
        let text = print_prog(alloc, &plain(alloc, &tree, &s)?)?;
        assert!(rt; text.as_slice() == wanted.as_bytes(), "at {pairs:?}");
        assert!(rt; fits(&tree, &s), "at {pairs:?}");
    }
    Ok(())
}

#[test]
fn others_do_not_fit(rt: HostRuntime) -> Result<(), Fail> {
    let alloc = rt.alloc();
    let tree = three_rules(alloc)?;
    for pairs in &OTHERS {
        assert!(rt; !fits(&tree, &selection(alloc, *pairs)?), "at {pairs:?}");
    }
    Ok(())
}

/// Selections with their replacements.
const REPLACED: [(&[(u32, u32)], &[&str]); 4] = [
    (&[], &[]),
    (&[(0, 1), (1, 1)], &["0 2 0 x: x + 2"]),
    (&[(1, 1)], &["1 2 2 x: x + 1"]),
    (&[(0, 2), (2, 1)], &["0 2 1 x: x + 1 + 1", "2 2 2 x: x + 1"]),
];

/// An edit as a text: pick, line, rule, what was there and what is.
pub(crate) fn told(alloc: Global, edit: &Edit) -> Result<String, Fail> {
    let old = String::from_utf8(print_expr(alloc, &edit.old)?)?;
    let new = String::from_utf8(print_expr(alloc, &edit.new)?)?;
    let pick = edit.pick;
    let line = edit.line;
    let rule = edit.rule;
    Ok(format!(in alloc; "{pick} {line} {rule} {old}: {new}")?)
}

#[test]
fn edits_are_told_in_order(rt: HostRuntime) -> Result<(), Fail> {
    let alloc = rt.alloc();
    let tree = three_rules(alloc)?;
    for (pairs, wanted) in &REPLACED {
        let found = edits(alloc, &tree, &selection(alloc, *pairs)?)?;
        assert!(rt; found.items.len() == wanted.len(), "at {pairs:?}");
        for (edit, text) in found.items.iter().zip(wanted.iter()) {
            assert!(rt; told(alloc, edit)?.as_str() == *text, "at {pairs:?}");
        }
    }
    Ok(())
}

#[test]
fn trees_are_counted(rt: HostRuntime) -> Result<(), Fail> {
    let tree = three_rules(rt.alloc())?;
    assert!(rt; choices(&tree) == 12);
    Ok(())
}

/// The choices as pairs of a pick and a member.
pub(crate) fn pairs_of(alloc: Global, s: &Selection) -> Result<Vec<(u32, u32)>, Fail> {
    let mut pairs = Vec::new(alloc);
    for choice in s.items() {
        pairs.push((choice.pick, choice.member))?;
    }
    Ok(pairs)
}

#[test]
fn selections_are_copied(rt: HostRuntime) -> Result<(), Fail> {
    let alloc = rt.alloc();
    for pairs in &OTHERS {
        let copy = selection(alloc, *pairs)?.copy()?;
        assert!(rt;
            pairs_of(alloc, &copy)?.as_slice() == *pairs,
            "at {pairs:?}"
        );
    }
    Ok(())
}

/// Costs, each with how many selections have it that name no pick in a member that isn't chosen.
const OF_COST: [(u32, usize); 6] = [(0, 1), (1, 2), (2, 1), (3, 1), (4, 0), (9, 0)];

#[test]
fn levels_have_the_selections_of_a_cost(rt: HostRuntime) -> Result<(), Fail> {
    let alloc = rt.alloc();
    let tree = three_rules(alloc)?;
    let levels = Levels::of(alloc, &tree)?;
    for (cost, many) in OF_COST {
        assert_eq!(rt; levels.level(alloc, cost)?.len(), many, "at {cost}");
    }
    let dearest = levels.level(alloc, 3)?;
    let only = dearest.first().ok_or("none of cost 3")?;
    assert!(rt; pairs_of(alloc, only)?.as_slice() == [(0, 1)].as_slice());
    Ok(())
}

#[test]
fn a_lifted_program_has_no_choice(rt: HostRuntime) -> Result<(), Fail> {
    let alloc = rt.alloc();
    let tree = three_rules(alloc)?;
    let program = plain(alloc, &tree, &selection(alloc, &[(0, 2), (2, 1)])?)?;
    let lifted = lift(alloc, &program)?;
    assert!(rt; choices(&lifted) == 1);
    let back = plain(alloc, &lifted, &selection(alloc, &[])?)?;
    let text = print_prog(alloc, &back)?;
    assert!(rt; text.as_slice() == "def f(x):\n    return x + 1 + 1\n".as_bytes());
    Ok(())
}
