//! Questions about what is graded, and the sessions in which a solver is asked them.
ghost use Rattle.std.specs.Prelude.{◌≡◌, ◌≤◌, ◌∷◌, ◌++◌, [], IfOk, OnErr, OnOk, length};

use crate::NoMemory;
use choice_tree::Selection;
use clause_base::formula::Formula;
use clause_base::log::Log;
use std::alloc::{AllocError, Global};
use std::marker::Model;

/// How many sessions a list has at most.
const MOST_SESSIONS: usize = 2147483647;

/// A question that a formula states.
#[derive(Drop)]
pub enum Query {
    /// Whether there is an input on which the reference ends.
    First,
    /// Whether there is a selection whose program gives the reference's value on so many first
    /// cases; one that costs at most `most`, where that is given.
    Low { most: Option<u32>, cases: u32 },
    /// Whether there is an input on which the program of the selection doesn't give the
    /// reference's value.
    Fail(Selection),
}

impl Query {
    /// An equal question.
    pub fn copy(&self) -> Result<Query, NoMemory>
        ensures { IfOk result (λ q. q ≡ self.now) }
    {
        match self {
            Query::First => Ok(Query::First),
            Query::Low { most, cases } => Ok(Query::Low {
                most: *most,
                cases: *cases,
            }),
            Query::Fail(selection) => Ok(Query::Fail(selection.copy()?)),
        }
    }
}

/// A question, the formula that states it, and the clauses that were derived from the formula.
#[derive(Drop)]
pub struct Session {
    pub query: Query,
    pub formula: Formula,
    pub log: Log,
}

impl Session {
    /// An equal session.
    pub fn copy(&self) -> Result<Session, NoMemory>
        ensures { IfOk result (λ s. s ≡ self.now) }
    {
        let query = self.query.copy()?;
        let formula = self.formula.copy()?;
        let log = self.log.copy()?;
        Ok(Session {
            query,
            formula,
            log,
        })
    }
}

/// A list of sessions, at most 2147483647.
#[derive(Drop)]
pub struct Sessions {
    items: Vec<Session>,
}

impl Model for Sessions {
    ghost use Rattle.std.specs.Prelude.{◌≤◌, List, length};
    ghost use Rattle.input_space.specs.declared.session.Session.{Session};

    ghost Value = { List Session };

    ghost view = { λ s. s.items.items };

    ghost invariant = { λ s. length s.items.items ≤ 2147483647 };
}

impl Sessions {
    /// The list of no sessions.
    pub fn new(alloc: Global) -> Sessions
        ensures { result ≡ [] }
    {
        Sessions {
            items: Vec::new(alloc),
        }
    }

    /// The list of these sessions.
    pub fn from_vec(items: Vec<Session>) -> Sessions
        requires { length items.items ≤ 2147483647 }
        ensures { result ≡ items.items }
    {
        Sessions { items }
    }

    /// The number of sessions, at most 2147483647.
    pub fn count(&self) -> u32
        ensures value { result ≡ length self.now }
        ensures few { length self.now ≤ 2147483647 }
    {
        self.items.len() as u32
    }

    /// The sessions.
    pub fn items(&self) -> &[Session]
        ensures { result.now ≡ self.now }
    {
        self.items.as_slice()
    }

    /// Adds a session at the end. Where memory is wanting, or the list has 2147483647 sessions, it
    /// stays as it was.
    pub fn push(&mut self, session: Session) -> Result<(), NoMemory>
        ensures more { OnOk result (self.new ≡ self.old ++ session ∷ []) }
        ensures as_before { OnErr result (self.new ≡ self.old) }
        ensures few { length self.new ≤ 2147483647 }
    {
        if self.items.len() >= MOST_SESSIONS {
            return Err(AllocError);
        }
        self.items.push(session)?;
        Ok(())
    }

    /// The sessions, given back.
    pub fn into_vec(self) -> Vec<Session>
        ensures { result.items ≡ self }
    {
        self.items
    }

    /// An equal list.
    pub fn copy(&self) -> Result<Sessions, NoMemory>
        ensures { IfOk result (λ n. n ≡ self.now) }
    {
        let mut copies = Vec::new(*self.items.allocator());
        for s in &self.items {
            copies.push(s.copy()?)?;
        }
        Ok(Sessions { items: copies })
    }
}
