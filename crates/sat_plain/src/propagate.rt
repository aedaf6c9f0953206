//! Unit propagation and decisions.

ghost use Rattle.std.specs.Prelude.{◌≡◌, ℕ, ◌<◌, ◌≤◌, true, false, [], MatchOption, length};
ghost use Rattle.std.specs.Prelude.{slice_get, Some};
ghost use Rattle.clause_base.specs.declared.clause.Clause.{Clause};
ghost use Rattle.clause_base.specs.Follows.{literals_at, open_literals};
ghost use Rattle.clause_base.specs.Formulas.{in_range};
ghost use Rattle.sat_plain.specs.Searching.{AllWatched, Grows, IsFull, IsSeen};
ghost use Rattle.sat_plain.specs.Trails.{IsConflict, IsWatched, is_among, literals_of, oldest};

use crate::search::Search;
use crate::trail::Scan;
use clause_base::lit::Lit;

impl<'a> Search<'a> {
    /// Looks at the clause at a place, counted from 0. One with a single literal that isn't false
    /// makes that literal true. Whether all of its literals are false.
    fn visit(&mut self, place: u32) -> bool
        requires { place < length self.old.clauses }
        ensures grows { Grows self.old self.new }
        ensures closed { result ≡ true
            → open_literals (literals_of self.new.entries) (literals_at self.new.clauses place)
            ≡ [] }
        ensures watched { result ≡ false
            → let known = literals_of self.new.entries
            in IsWatched known known (literals_at self.new.clauses place) }
    {
        let clause = self.f.clauses.at(place as usize);
        match self.trail.look_over(clause.lits.as_slice()) {
            Scan::Closed => true,
            Scan::One(lit) => {
                self.imply(place, lit);
                false
            }
            Scan::Other => false,
        }
    }

    /// Looks at the clauses in which a literal stands, up to one whose literals are all false.
    fn visit_clauses(&mut self, lit: Lit) -> Option<u32>
        requires { in_range self.old.vars lit ≡ true }
        ensures grows { Grows self.old self.new }
        ensures answer { MatchOption result (IsSeen self.old self.new lit)
            (IsConflict self.new.clauses self.new.entries) }
    {
        for i in self.occurrences.first(lit)..self.occurrences.end(lit) {
            let place = self.occurrences.place(i);
            if self.visit(place) {
                return Some(place + 1);
            }
        }
        None
    }

    /// Makes true what follows from the literals from a place on, each in its turn. Gives the
    /// number of a clause whose literals are all false; where there is none, no clause is unit
    /// either.
    fn propagate(&mut self, from: usize) -> Option<u32>
        requires within { from ≤ length self.old.entries }
        requires settled { let known = literals_of self.old.entries
            in AllWatched self.old.clauses known (oldest from known) }
        ensures grows { Grows self.old self.new }
        ensures answer { MatchOption result
            (let known = literals_of self.new.entries in AllWatched self.new.clauses known known)
            (IsConflict self.new.clauses self.new.entries) }
    {
        let mut next = from;
        while next < self.trail.len() {
            let lit = self.trail.at(next);
            if let Some(number) = self.visit_clauses(lit.opposite()) {
                return Some(number);
            }
            next += 1;
        }
        None
    }

    /// Looks once at each clause.
    fn visit_all(&mut self) -> Option<u32>
        ensures grows { Grows self.old self.new }
        ensures answer { MatchOption result
            (AllWatched self.new.clauses (literals_of self.new.entries) [])
            (IsConflict self.new.clauses self.new.entries) }
    {
        for place in 0..self.f.clauses.len() as u32 {
            if self.visit(place) {
                return Some(place + 1);
            }
        }
        None
    }

    /// Propagates from a place on, and then decides the least variable that has no value as false,
    /// for as long as there is one. Gives the number of a clause whose literals are all false;
    /// where there is none, the values satisfy the formula.
    pub fn next_conflict(&mut self, from: usize) -> Option<u32>
        requires within { from ≤ length self.old.entries }
        requires settled { let known = literals_of self.old.entries
            in AllWatched self.old.clauses known (oldest from known) }
        ensures grows { Grows self.old self.new }
        ensures answer { MatchOption result (IsFull self.new)
            (IsConflict self.new.clauses self.new.entries) }
    {
        if let Some(number) = self.propagate(from) {
            return Some(number);
        }
        for above in 0..self.f.vars {
            let lit = Lit {
                var: above + 1,
                positive: false,
            };
            if self.trail.standing(lit).is_some() {
                continue;
            }
            let place = self.trail.len();
            self.decide(lit);
            if let Some(number) = self.propagate(place) {
                return Some(number);
            }
        }
        None
    }

    /// As `next_conflict` from the first literal on, after a look at each clause.
    pub fn first_conflict(&mut self) -> Option<u32>
        ensures grows { Grows self.old self.new }
        ensures answer { MatchOption result (IsFull self.new)
            (IsConflict self.new.clauses self.new.entries) }
    {
        if let Some(number) = self.visit_all() {
            return Some(number);
        }
        self.next_conflict(0)
    }
}
