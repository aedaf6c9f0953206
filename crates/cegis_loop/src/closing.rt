//! The closing question of a search.
ghost use Rattle.std.specs.Prelude.{◌≡◌, IfSome, length};
ghost use Rattle.cegis_loop.specs.Answers.{IsAnswer};
ghost use Rattle.cegis_loop.specs.OrderLaws.{last_ruled};
ghost use Rattle.cegis_loop.specs.WholeAnswers.{IsWholeAnswer};

use crate::asked::Asked;
use crate::outcome::Least;
use crate::questions::Questions;

/// Asks the closing question of a search that found a choice, where it is needed.
fn close<Q: Questions>(
    q: &mut Q,
    choice: Q::Choice,
    cost: u32,
    kept: usize,
    ruled: usize,
) -> Least<Q::Choice>
    requires answer { IsAnswer (Q.space (Q.topic q.old)) (Q.seen q.old) (Least.Found choice cost) }
    requires kept { kept ≡ length (Q.seen q.old).kept }
    requires ruled { IfSome (Q.seen q.old).told (λ asked. ruled ≡ last_ruled 0 asked) }
    ensures same { Q.topic q.new ≡ Q.topic q.old }
    ensures answer { IsWholeAnswer (Q.space (Q.topic q.old)) (Q.seen q.new) result }
{
    if cost == 0 || kept <= ruled {
        return Least::Found { choice, cost };
    }
    match q.propose(Some(cost - 1)) {
        Asked::Nothing => Least::Found { choice, cost },
        Asked::Spent => Least::Spent { at_least: cost },
        Asked::Found(_) => unreachable!(),
        Asked::NoMemory => Least::NoMemory,
    }
}

/// Ends a search with its closing question, where it is needed: that is asked where a choice was
/// found that costs something, and the last refuted question for a choice was over fewer inputs
/// than are kept.
pub fn close_search<Q: Questions>(
    q: &mut Q,
    found: Least<Q::Choice>,
    kept: usize,
    ruled: usize,
) -> Least<Q::Choice>
    requires answer { IsAnswer (Q.space (Q.topic q.old)) (Q.seen q.old) found }
    requires kept { kept ≡ length (Q.seen q.old).kept }
    requires ruled { IfSome (Q.seen q.old).told (λ asked. ruled ≡ last_ruled 0 asked) }
    ensures same { Q.topic q.new ≡ Q.topic q.old }
    ensures answer { IsWholeAnswer (Q.space (Q.topic q.old)) (Q.seen q.new) result }
{
    match found {
        Least::Found { choice, cost } => close(q, choice, cost, kept, ruled),
        Least::Nothing => Least::Nothing,
        Least::NoCase => Least::NoCase,
        Least::Spent { at_least } => Least::Spent { at_least },
        Least::NoMemory => Least::NoMemory,
    }
}
