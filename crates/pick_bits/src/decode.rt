//! The selection that truth values spell.

ghost use Rattle.std.specs.Prelude.{◌≡◌, ◌+◌, ◌++◌, ◌≤◌, ◌^◌, [], length, option_map, IfOk, OnOk};
ghost use Rattle.choice_tree.specs.Choices.{member_of};
ghost use Rattle.choice_tree.specs.StatementViews.{weighted_prog};
ghost use Rattle.pick_bits.specs.MemberWords.{chosen_from};
ghost use Rattle.input_space.specs.SelectionBits.{all_member_bits, members_at, selection_at};
ghost use Rattle.selection_numbers.specs.Live.{live_selection};
ghost use Rattle.selection_numbers.specs.MemberCounts.{member_counts};
ghost use Rattle.selection_numbers.specs.Numbers.{and_member};

use crate::members::{member_bits, members_of};
use bit_words::NoMemory;
use choice_tree::{Choice, Selection, WProg, edits};
use clause_base::truths::Truths;
use input_bits::natural;
use selection_numbers::MemberCounts;
use std::alloc::{AllocError, Global};

// Appends the member of a pick, where it isn't the base.
fn push_member(chosen: &mut Vec<Choice>, pick: u32, member: u32) -> Result<(), NoMemory>
    ensures { OnOk result (chosen.new.items ≡ chosen.old.items ++ and_member pick member []) }
{
    if member != 0 {
        chosen.push(Choice { pick, member })?;
    }
    Ok(())
}

// The members that truth values spell from a place on, those of all picks, if each of them is one.
fn chosen_members(
    alloc: Global,
    counts: &MemberCounts,
    truths: &Truths,
    start: usize,
) -> Result<Option<Selection>, NoMemory>
    requires few_picks { length counts.now ≤ 2 ^ 32 }
    requires within { start + all_member_bits counts.now ≤ length truths.now }
    requires few { length truths.now ≤ 2147483647 }
    ensures { IfOk result (λ o. o ≡ option_map (chosen_from 0)
        (members_at counts.now truths.now start)) }
{
    let mut chosen = Vec::new(alloc);
    let mut place = start;
    for pick in 0..counts.len() {
        let members = members_of(counts, pick)?;
        let width = member_bits(members as usize);
        let member = natural(truths, place, width);
        if member >= members {
            return Ok(None);
        }
        push_member(&mut chosen, pick as u32, member)?;
        place += width;
    }
    Ok(Some(Selection::from_vec(chosen)))
}

// A selection without the picks in members that aren't chosen.
fn live_part(alloc: Global, tree: &WProg, all: &Selection) -> Result<Selection, NoMemory>
    ensures { IfOk result (λ s. s ≡ live_selection (member_of all.now) (weighted_prog tree.now)) }
{
    let replaced = edits(alloc, tree, all)?;
    let mut chosen = Vec::new(alloc);
    for edit in &replaced.items {
        chosen.push(Choice {
            pick: edit.pick,
            member: all.member(edit.pick),
        })?;
    }
    Ok(Selection::from_vec(chosen))
}

/// The selection that truth values spell from a place on, if they spell one: where the number of a
/// pick is none of its members, they don't. Picks in members that aren't chosen are left out.
pub fn decode_selection(
    alloc: Global,
    tree: &WProg,
    truths: &Truths,
    start: usize,
) -> Result<Option<Selection>, NoMemory>
    requires within { start + all_member_bits (member_counts (weighted_prog tree.now))
        ≤ length truths.now }
    requires few { length truths.now ≤ 2147483647 }
    ensures { IfOk result (λ o. o ≡ selection_at (weighted_prog tree.now) truths.now start) }
{
    let counts = MemberCounts::of(alloc, tree)?;
    if counts.len() > 4294967295 {
        return Err(AllocError);
    }
    match chosen_members(alloc, &counts, truths, start)? {
        None => Ok(None),
        Some(all) => {
            let live = live_part(alloc, tree, &all)?;
            Ok(Some(live))
        }
    }
}
