//! What the form of a certificate can hold.

ghost use Rattle.std.specs.Prelude.{◌≡◌, ◌≤◌, ◌↔◌, All, IsTrue};
ghost use Rattle.cert_text.specs.Limits.{KeepsChoices, is_choice};
ghost use Rattle.search_certificates.specs.Certified.{KeepsAsked};

use choice_tree::Choice;
use input_space::{Query, Session};

// The greatest number of a pick or a member.
const MOST: u32 = 2147483647;

// The greatest cost.
pub(crate) const MOST_COST: u32 = 4096;

// Whether a pick and its member are numbers that can be written, the member from 1 on.
fn is_choice(choice: &Choice) -> bool
    ensures value { result ≡ is_choice choice.now }
    ensures small { IsTrue result → choice.now.pick ≤ 2147483647 }
{
    choice.pick <= MOST && 0 < choice.member && choice.member <= MOST
}

// Whether picks rise, and they and their members can be written.
fn keep_choices(choices: &[Choice]) -> bool
    ensures { IsTrue result ↔ KeepsChoices choices.now }
{
    let mut least = 0u32;
    for choice in choices {
        if choice.pick < least || !is_choice(choice) {
            return false;
        }
        least = choice.pick + 1;
    }
    true
}

// Whether what a question names can be written.
fn keeps_asked(query: &Query) -> bool
    ensures { IsTrue result ↔ KeepsAsked query.now }
{
    match query {
        Query::First => true,
        Query::Low { most, cases: _ } => match most {
            Some(most) => *most <= MOST_COST,
            None => true,
        },
        Query::Fail(selection) => keep_choices(selection.items()),
    }
}

/// Whether what the questions of sessions name can be written. Those of a task can.
pub(crate) fn keep_asked(sessions: &[Session]) -> bool
    ensures { IsTrue result ↔ All (λ x. KeepsAsked x.query) sessions.now }
{
    for session in sessions {
        if !keeps_asked(&session.query) {
            return false;
        }
    }
    true
}
