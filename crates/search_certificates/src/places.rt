//! Where in a search a question was refuted.

ghost use Rattle.std.specs.Prelude.{◌≡◌, ◌<◌, IfSome, length};
ghost use Rattle.input_space.specs.Sessions.{is_refuted};
ghost use Rattle.search_certificates.specs.Places.{IsSessionOf, Refuting, first_place, is_asked};
ghost use Rattle.search_certificates.specs.Places.{refutes, same_bound};

use input_space::{Query, Session};

/// What a question asks for.
#[derive(Clone, Copy, Drop)]
pub(crate) enum Wanted {
    /// An input on which some selection fails.
    Failure,
    /// A selection of a cost of at most `most`, where that is given, that agrees on so many first
    /// cases.
    Low { most: Option<u32>, cases: u32 },
}

// Whether two bounds, each of which may be missing, are the same.
fn same_bound(a: Option<u32>, b: Option<u32>) -> bool
    ensures { result ≡ same_bound a b }
{
    match (a, b) {
        (Some(a), Some(b)) => a == b,
        (None, None) => true,
        (Some(_), None) | (None, Some(_)) => false,
    }
}

// Whether a question asks for this.
fn is_asked(wanted: Wanted, query: &Query) -> bool
    ensures { result ≡ is_asked wanted query.now }
{
    match (wanted, query) {
        (Wanted::Failure, Query::Fail(_)) => true,
        (
            Wanted::Low { most, cases },
            Query::Low {
                most: of,
                cases: over,
            },
        ) => { same_bound(most, *of) && cases == *over }
        _ => false,
    }
}

// Whether a session refutes that there is such a thing.
fn refutes(wanted: Wanted, session: &Session) -> bool
    ensures { result ≡ refutes wanted session.now }
{
    is_asked(wanted, &session.query) && is_refuted(session)
}

/// Whether the last clause of a session's log is empty.
pub fn is_refuted(session: &Session) -> bool
    ensures { result ≡ is_refuted session.now.log.steps }
{
    session.log.refutes()
}

// The place of the first session that refutes that there is such a thing, counted from 0.
fn place_of(wanted: Wanted, sessions: &[Session]) -> Option<usize>
    ensures value { result ≡ first_place (refutes wanted) 0 sessions.now }
    ensures within { IfSome result (λ i. i < length sessions.now) }
{
    for (i, session) in sessions.iter().enumerate() {
        if refutes(wanted, session) {
            return Some(i);
        }
    }
    None
}

/// The first session that refutes that there is such a thing, by itself.
pub(crate) fn session_of(wanted: Wanted, sessions: &[Session]) -> &[Session]
    requires { Refuting wanted sessions.now }
    ensures { IsSessionOf wanted sessions.now result.now }
{
    match place_of(wanted, sessions) {
        Some(place) => &sessions[place..place + 1],
        None => unreachable!(),
    }
}
