//! New variables for the members of picks.

ghost use Rattle.std.specs.Prelude.{◌≡◌, Bool, List, Some, ℕ, is_some, length, map, IfOk, OnOk};
ghost use Rattle.bit_words.specs.Later.{AddsVariables};
ghost use Rattle.bit_words.specs.Logic.{Extends, Keeps, OwnsAll};
ghost use Rattle.bit_words.specs.Words.{nat_of};
ghost use Rattle.pick_bits.specs.MemberWords.{all_numbered, member_words};
ghost use Rattle.input_space.specs.SelectionBits.{all_member_bits, members_at};
ghost use Rattle.sym_values.specs.Forms.{joined};

use crate::members::{member_bits, members_of};
use bit_words::NoMemory;
use bit_words::bits::Bits;
use bit_words::inputs::fresh_bits;
use bit_words::logic::{Logic, Variables};
use bit_words::order::less_number;
use selection_numbers::MemberCounts;
use std::alloc::Global;

/// For each pick the number of a member as bits, and whether all picks have such a member.
#[derive(Drop)]
pub struct RangedMembers<B: Copy> {
    pub members: Vec<Bits<B>>,
    pub within: B,
}

// For each pick as many new variables as number its members.
fn fresh_numbers<V: Variables>(
    alloc: Global,
    g: &mut V,
    counts: &MemberCounts,
) -> Result<Vec<Bits<V::Bit>>, NoMemory>
    ensures keeps { Keeps V.owns V.reads g.old g.new }
    ensures adds { OnOk result (AddsVariables V.owns V.reads V.count (all_member_bits counts.now)
        g.old g.new) }
    ensures owned { IfOk result (λ r. OwnsAll V.owns g.new (joined r.items)) }
    ensures value { IfOk result (λ r. (vs : List Bool) →
        map (map (V.reads g.new vs)) r.items ≡ member_words counts.now vs (V.count g.old)) }
{
    let mut numbers = Vec::new(alloc);
    for pick in 0..counts.len() {
        let members = members_of(counts, pick)?;
        let number = fresh_bits(alloc, g, member_bits(members as usize))?;
        numbers.push(number)?;
    }
    Ok(numbers)
}

// Whether each of these numbers is that of a member of its pick.
fn all_numbered<L: Logic>(
    g: &mut L,
    counts: &MemberCounts,
    numbers: &[Bits<L::Bit>],
) -> Result<L::Bit, NoMemory>
    requires many { length numbers.now ≡ length counts.now }
    requires owned { OwnsAll L.owns g.old (joined numbers.now) }
    ensures extends { Extends L.owns L.reads L.count g.old g.new }
    ensures owned { IfOk result (λ r. L.owns g.new r) }
    ensures value { IfOk result (λ r. (vs : List Bool) → L.reads g.new vs r
        ≡ all_numbered counts.now (map (map (L.reads g.old vs)) numbers.now)) }
{
    let mut within = g.constant(true);
    for pick in 0..counts.len() {
        let members = members_of(counts, pick)?;
        let one = less_number(g, numbers[pick].as_slice(), members)?;
        within = g.and(within, one)?;
    }
    Ok(within)
}

/// For each pick as many new variables as number its members, all of them before any gate. They
/// read as the members that this part of the truth values spells, if it does.
///
/// A pick with more members than 31 bits number is refused for want of memory.
pub fn fresh_members<V: Variables>(
    alloc: Global,
    g: &mut V,
    counts: &MemberCounts,
) -> Result<RangedMembers<V::Bit>, NoMemory>
    ensures keeps { Keeps V.owns V.reads g.old g.new }
    ensures adds { OnOk result (AddsVariables V.owns V.reads V.count (all_member_bits counts.now)
        g.old g.new) }
    ensures many { IfOk result (λ r. length r.members.items ≡ length counts.now) }
    ensures owned { IfOk result (λ r. OwnsAll V.owns g.new (joined r.members.items)) }
    ensures owned_within { IfOk result (λ r. V.owns g.new r.within) }
    ensures within { IfOk result (λ r. (vs : List Bool) → V.reads g.new vs r.within
        ≡ is_some (members_at counts.now vs (V.count g.old))) }
    ensures members { IfOk result (λ r. (vs : List Bool) (is : List ℕ)
        → members_at counts.now vs (V.count g.old) ≡ Some is
        → map (λ bits. nat_of (map (V.reads g.new vs) bits)) r.members.items ≡ is) }
{
    let members = fresh_numbers(alloc, g, counts)?;
    let within = all_numbered(g, counts, &members)?;
    Ok(RangedMembers { members, within })
}
