//! The member that is chosen at a pick.

ghost use Rattle.std.specs.Prelude.{◌≡◌, ◌-◌, ◌++◌, Bool, List, false, length, map, max, nat_eq};
ghost use Rattle.std.specs.Prelude.{replicate, if◌then◌else◌, IfOk};
ghost use Rattle.bit_words.specs.Logic.{Extends, OwnsAll};
ghost use Rattle.bit_words.specs.Results.{IsWordIn};
ghost use Rattle.bit_words.specs.Words.{nat_read};

use crate::counters::padded;
use bit_words::NoMemory;
use bit_words::bitwise::choose_word;
use bit_words::logic::Logic;
use bit_words::word::Word;
use std::alloc::Global;
use sym_nodes::choices::is_place;

/// One word where a number without a sign is that of a member, and another one where it isn't, with
/// false bits behind the shorter one.
pub fn member_or<L: Logic>(
    alloc: Global,
    g: &mut L,
    named: &[L::Bit],
    number: usize,
    member: Word<L::Bit>,
    other: Word<L::Bit>,
) -> Result<Word<L::Bit>, NoMemory>
    requires named { OwnsAll L.owns g.old named.now }
    requires member { OwnsAll L.owns g.old member }
    requires other { OwnsAll L.owns g.old other }
    ensures extends { Extends L.owns L.reads L.count g.old g.new }
    ensures made { IfOk result (λ r.
        IsWordIn L.owns g.new (max (length member) (length other)) r) }
    ensures value { IfOk result (λ r. (vs : List Bool) →
        map (L.reads g.new vs) r
        ≡ (if nat_eq (nat_read L.reads g.old vs named.now) number
        then map (L.reads g.old vs) member
        ++ replicate (max (length member) (length other) - length member) false
        else map (L.reads g.old vs) other
        ++ replicate (max (length member) (length other) - length other) false)) }
{
    let width = member.len().max(other.len());
    let first = padded(g, member, width)?;
    let second = padded(g, other, width)?;
    let chosen = is_place(g, named, number)?;
    let word = choose_word(alloc, g, chosen, &first, &second)?;
    Ok(word)
}
