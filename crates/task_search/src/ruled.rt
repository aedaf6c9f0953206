//! What is read off the sessions of a search.

ghost use Rattle.std.specs.Prelude.{◌≡◌, map};
ghost use Rattle.cegis_loop.specs.OrderLaws.{last_ruled};
ghost use Rattle.input_space.specs.Sessions.{told_of};

use input_space::{Query, Session};
use search_certificates::is_refuted;

/// Over how many cases the last refuted question for a selection was, 0 where there is none.
pub(crate) fn cases_ruled(sessions: &[Session]) -> usize
    ensures { result ≡ last_ruled 0 (map told_of sessions.now) }
{
    let mut ruled = 0usize;
    for session in sessions {
        if is_refuted(session) {
            if let Query::Low { most: _, cases } = &session.query {
                ruled = *cases as usize;
            }
        }
    }
    ruled
}
