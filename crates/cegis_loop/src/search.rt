//! The search.
ghost use Rattle.std.specs.Prelude.{◌≡◌, ◌≤◌};
ghost use Rattle.cegis_loop.specs.Answers.{IsAnswer};
ghost use Rattle.cegis_loop.specs.Order.{bound_at};
ghost use Rattle.cegis_loop.specs.Searching.{IsAttempt, IsProposing, IsTrying};
ghost use Rattle.cegis_loop.specs.State.{IsFresh};

use crate::asked::Asked;
use crate::outcome::Least;
use crate::questions::Questions;

/// What came of one attempt.
#[derive(Drop)]
enum Attempt<C> {
    /// A choice was proposed that fails on an input, which is now kept.
    Failed,
    /// No choice within the bound agrees on the kept inputs.
    NoneWithin,
    /// The search is at its end.
    Ended(Least<C>),
}

/// Tries a choice that was proposed.
fn try_choice<Q: Questions>(q: &mut Q, at_least: u32, choice: Q::Choice) -> Attempt<Q::Choice>
    requires within { at_least ≤ (Q.space (Q.topic q.old)).most_cost }
    requires trying { IsTrying (Q.space (Q.topic q.old)) (Q.seen q.old) at_least choice }
    ensures same { Q.topic q.new ≡ Q.topic q.old }
    ensures attempt { IsAttempt (Q.space (Q.topic q.old)) (Q.seen q.old) (Q.seen q.new) at_least
        result }
{
    match q.refute(&choice) {
        Asked::Found(_) => Attempt::Failed,
        Asked::Nothing => {
            let cost = q.cost_of(&choice);
            Attempt::Ended(Least::Found { choice, cost })
        }
        Asked::Spent => Attempt::Ended(Least::Spent { at_least }),
        Asked::NoMemory => Attempt::Ended(Least::NoMemory),
    }
}

/// The bound on what is proposed next, where all below `at_least` is ruled out. At the greatest
/// cost there is none.
fn bound(at_least: u32, most: u32) -> Option<u32>
    ensures { result ≡ bound_at most at_least }
{
    (at_least < most).then_some(at_least)
}

/// Proposes a choice, where all below `at_least` is ruled out, and tries it.
fn next_attempt<Q: Questions>(q: &mut Q, at_least: u32, most: u32) -> Attempt<Q::Choice>
    requires most { most ≡ (Q.space (Q.topic q.old)).most_cost }
    requires within { at_least ≤ most }
    requires proposing { IsProposing (Q.space (Q.topic q.old)) (Q.seen q.old) at_least }
    ensures same { Q.topic q.new ≡ Q.topic q.old }
    ensures attempt { IsAttempt (Q.space (Q.topic q.old)) (Q.seen q.old) (Q.seen q.new) at_least
        result }
{
    match q.propose(bound(at_least, most)) {
        Asked::Found(choice) => try_choice(q, at_least, choice),
        Asked::Nothing if at_least == most => Attempt::Ended(Least::Nothing),
        Asked::Nothing => Attempt::NoneWithin,
        Asked::Spent => Attempt::Ended(Least::Spent { at_least }),
        Asked::NoMemory => Attempt::Ended(Least::NoMemory),
    }
}

/// Proposes choices, from the cheapest on, until one fails nowhere.
fn search<Q: Questions>(q: &mut Q, most: u32) -> Least<Q::Choice>
    requires most { most ≡ (Q.space (Q.topic q.old)).most_cost }
    requires proposing { IsProposing (Q.space (Q.topic q.old)) (Q.seen q.old) 0 }
    ensures same { Q.topic q.new ≡ Q.topic q.old }
    ensures answer { IsAnswer (Q.space (Q.topic q.old)) (Q.seen q.new) result }
{
    let mut at_least = 0;
    loop {
        match next_attempt(q, at_least, most) {
            Attempt::Failed => {}
            Attempt::NoneWithin => at_least += 1,
            Attempt::Ended(least) => return least,
        }
    }
}

/// Searches for a choice of least cost that agrees on all inputs. A cheaper one is proposed before
/// a dearer one, and an input on which a choice failed is kept and binds all later proposals.
pub fn least<Q: Questions>(q: &mut Q) -> Least<Q::Choice>
    requires { IsFresh (Q.seen q.old) }
    ensures same { Q.topic q.new ≡ Q.topic q.old }
    ensures answer { IsAnswer (Q.space (Q.topic q.old)) (Q.seen q.new) result }
{
    match q.first() {
        Asked::Found(_) => {
            let most = q.most_cost();
            search(q, most)
        }
        Asked::Nothing => Least::NoCase,
        Asked::Spent => Least::Spent { at_least: 0 },
        Asked::NoMemory => Least::NoMemory,
    }
}
