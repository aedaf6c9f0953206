//! Picks all of whose bits are known: the selection of their members.

ghost use Rattle.std.specs.Prelude.{◌≡◌, ◌==◌, ◌++◌, ◌∷◌, [], Bool, List, if◌then◌else◌, IfOk};
ghost use Rattle.std.specs.Prelude.{IfSome};
ghost use Rattle.bit_words.specs.Logic.{OwnsAll};
ghost use Rattle.choice_tree.specs.Choices.{member_of};
ghost use Rattle.sym_values.specs.Forms.{joined};
ghost use Rattle.sym_nodes.specs.Environments.{PicksRead};

use bit_words::NoMemory;
use bit_words::logic::Logic;
use choice_tree::{Choice, Selection};
use known_values::numbers::known_number;
use std::alloc::Global;
use sym_nodes::Picks;

// Choices with one more, unless it is of the base.
fn with_choice(choices: Vec<Choice>, choice: Choice) -> Result<Vec<Choice>, NoMemory>
    ensures { IfOk result (λ r. r.items
        ≡ (if choice.member == 0 then choices.items else choices.items ++ choice ∷ [])) }
{
    let mut all = choices;
    if choice.member != 0 {
        all.push(choice)?;
    }
    Ok(all)
}

/// The selection of the members that the picks are known to be.
pub fn known_selection<L: Logic>(
    alloc: Global,
    g: &L,
    picks: &Picks<L::Bit>,
) -> Result<Option<Selection>, NoMemory>
    requires { OwnsAll L.owns g.now (joined picks.now) }
    ensures { IfOk result (λ r. IfSome r (λ s. (vs : List Bool) →
        PicksRead (L.reads g.now vs) picks.now (member_of s))) }
{
    if picks.len() > u32::MAX as usize {
        return Ok(None);
    }
    let mut choices = Vec::new(alloc);
    for i in 0..picks.len() {
        let Some(member) = known_number(g, picks.at(i).as_slice()) else {
            return Ok(None);
        };
        let pick = i as u32;
        choices = with_choice(choices, Choice { pick, member })?;
    }
    Ok(Some(Selection::from_vec(choices)))
}
