//! The state of a search, and the steps that change it.

ghost use Rattle.std.specs.Prelude.{◌≡◌, ◌≤◌, ◌<◌, ◌+◌, true, [], ◌∷◌, ◌++◌, IfOk, IfSome, OnOk};
ghost use Rattle.std.specs.Prelude.{MatchOption, None, Some, length, false, ℕ, List};
ghost use Rattle.clause_base.specs.declared.clause.Clause.{Clause};
ghost use Rattle.clause_base.specs.Literals.{IsCovered};
ghost use Rattle.sat_watch.specs.Listing.{IsListing};
ghost use Rattle.clause_base.specs.Formulas.{satisfies};
ghost use Rattle.sat_watch.specs.Searching.{Grows, IsFull, IsLogged, IsSearch, IsSeen, MayFollow};
ghost use Rattle.sat_watch.specs.Searching.{Spares, all_of};
ghost use Rattle.sat_watch.specs.Trails.{IsConflict, IsValued, literals_of, up_to};

use crate::known::Known;
use crate::listing::Listing;
use crate::propagate::{Seen, look, propagate, visit};
use crate::trail::Trail;
use crate::watches::Watches;
use clause_base::NoMemory;
use clause_base::clause::Clause;
use clause_base::formula::Formula;
use clause_base::laws::what_is_known;
use clause_base::lit::Lit;
use clause_base::log::{Log, Step};
use clause_base::truths::Truths;
use std::alloc::Global;
use std::marker::Model;

/// A search for values that satisfy a formula: the literals that are true, and the clauses that
/// were logged.
#[derive(Drop)]
pub struct Search<'a> {
    known: Known<'a>,
    trail: Trail,
    watches: Watches,
    listing: Listing,
}

impl<'a> Model for Search<'a> {
    ghost use Rattle.std.specs.Prelude.{◌≡◌, length};
    ghost use Rattle.sat_watch.specs.Listing.{IsListing};
    ghost use Rattle.sat_watch.specs.Searching.{IsSearch, State, all_of};

    ghost Value = { State };

    ghost view = { λ s. record { base = s.known; entries = s.trail.entries } };

    ghost invariant = { λ s. (s.trail.vars ≡ s.known.vars)
        × (s.watches ≡ record { vars = s.known.vars; clauses = length (all_of s.known) })
        × IsListing s.known.vars (all_of s.known) s.listing
        × IsSearch (record { base = s.known; entries = s.trail.entries }) };
}

/// Lists a clause, of the next number, under its greatest variable.
fn list(listing: &mut Listing, clause: &Clause, number: u32) -> Result<(), NoMemory>
    requires { IsCovered (length listing.old.heads) clause.now.lits }
    ensures { (vars : ℕ) (clauses : List Clause) → IsListing vars clauses listing.old
        → number ≡ length clauses + 1
        → OnOk result (IsListing vars (clauses ++ clause.now ∷ []) listing.new) }
{
    let var = clause.greatest();
    if var == 0 {
        return listing.push_none();
    }
    listing.push(var, number)
}

/// Has a clause watch its first two literals; one that has fewer watches none.
fn watch(watches: &mut Watches, clause: &Clause) -> Result<(), NoMemory>
    requires { IsCovered watches.old.vars clause.now.lits }
    ensures vars { watches.new.vars ≡ watches.old.vars }
    ensures clauses { OnOk result (watches.new.clauses ≡ watches.old.clauses + 1) }
{
    let lits = clause.lits.as_slice();
    if lits.len() < 2 {
        return watches.watch_none();
    }
    watches.watch(lits[0], lits[1])
}

impl<'a> Search<'a> {
    /// No literal is true, and nothing is logged.
    pub fn new(alloc: Global, f: &'a Formula) -> Result<Search<'a>, NoMemory>
        requires { length f.now.clauses ≤ 2147483647 }
        ensures { IfOk result (λ s. s ≡ record {
          base = record { vars = f.now.vars; clauses = f.now.clauses; steps = [] };
          entries = [];
        }) }
    {
        let known = Known::new(alloc, f);
        let trail = Trail::new(alloc, f.vars)?;
        let many = f.clauses.len();
        let mut watches = Watches::new(alloc, f.vars, many as u32)?;
        let mut listing = Listing::new(alloc, f.vars, many)?;
        for place in 0..many {
            let clause = f.clauses.at(place);
            let number = place as u32 + 1;
            list(&mut listing, clause, number)?;
            watch(&mut watches, clause)?;
        }
        Ok(Search {
            known,
            trail,
            watches,
            listing,
        })
    }

    /// What is known.
    pub fn known(&self) -> &Known<'a>
        ensures { result.now ≡ self.now.base }
    {
        &self.known
    }

    /// The literals that are true. Each was decided, as negative, or is the one literal of a known
    /// clause that wasn't false then.
    pub fn trail(&self) -> &Trail
        ensures vars { result.now.vars ≡ self.now.base.vars }
        ensures entries { result.now.entries ≡ self.now.entries }
        ensures search { IsSearch self.now }
    {
        &self.trail
    }

    /// Looks at the clause of a number. One with a single literal that isn't false makes that
    /// literal true.
    pub fn visit(&mut self, number: u32) -> Seen
        requires some { 0 < number }
        requires within { number ≤ length (all_of self.old.base) }
        ensures base { self.new.base ≡ self.old.base }
        ensures grows { Grows self.old.entries self.new.entries }
        ensures seen { IsSeen self.new.base self.new.entries number result }
    {
        visit(&self.known, &mut self.trail, number, 0, Lit::default())
    }

    /// Looks once at each clause of the formula, up to one whose literals are all false: gives its
    /// number.
    pub fn visit_all(&mut self) -> Option<u32>
        ensures base { self.new.base ≡ self.old.base }
        ensures conflict { IfSome result (IsConflict (all_of self.new.base) self.new.entries) }
    {
        for place in 0..self.known.formula_len() {
            if let Seen::Closed = self.visit(place + 1) {
                return Some(place + 1);
            }
        }
        None
    }

    /// Makes true what follows from the literals from a place on.
    pub fn propagate(&mut self, from: usize) -> Option<u32>
        ensures base { self.new.base ≡ self.old.base }
        ensures grows { Grows self.old.entries self.new.entries }
        ensures conflict { IfSome result (IsConflict (all_of self.new.base) self.new.entries) }
    {
        propagate(&self.known, &mut self.trail, &mut self.watches, from)
    }

    /// Gives a variable a value that has none while all smaller ones have one: by a clause whose
    /// greatest variable it is, where there is one whose other literals are false, else by a
    /// decision.
    pub fn settle(&mut self, var: u32)
        requires some { 0 < var }
        requires within { var ≤ self.old.base.vars }
        requires least { (v : ℕ) → 0 < v → v < var → IsValued (literals_of self.old.entries) v }
        requires unset { IsValued (literals_of self.old.entries) var → ⊥ }
        ensures base { self.new.base ≡ self.old.base }
        ensures grows { Grows self.old.entries self.new.entries }
        ensures valued { IsValued (literals_of self.new.entries) var }
    {
        match look(&self.known, &self.trail, &mut self.listing, var) {
            Some(given) => self.trail.imply(given.lit, given.number),
            None => self.trail.decide(Lit {
                var,
                positive: false,
            }),
        }
    }

    /// Whether a variable has a value.
    pub fn is_set(&self, var: u32) -> bool
        requires some { 0 < var }
        requires within { var ≤ self.now.base.vars }
        ensures yes { result ≡ true → IsValued (literals_of self.now.entries) var }
        ensures no { result ≡ false → IsValued (literals_of self.now.entries) var → ⊥ }
    {
        self.trail
            .standing(Lit {
                var,
                positive: true,
            })
            .is_some()
    }

    /// The number of a clause of the formula whose literals are all false.
    pub fn false_clause(&self) -> Option<u32>
        requires { (v : ℕ) → 0 < v → v ≤ self.now.base.vars
            → IsValued (literals_of self.now.entries) v }
        ensures { MatchOption result (IsFull self.now)
            (IsConflict (all_of self.now.base) self.now.entries) }
    {
        for place in 0..self.known.formula_len() {
            let clause = self.known.at(place + 1);
            if self.trail.is_closed(clause.lits.as_slice()) {
                return Some(place + 1);
            }
        }
        None
    }

    /// Goes back to a level.
    pub fn back_to(&mut self, level: u32)
        ensures { self.new ≡ record self.old { entries = up_to level self.old.entries } }
    {
        self.trail.back_to(level);
    }

    /// Logs a step. Its clause would have given no decision's variable its value. Where memory is
    /// wanting the search is given up.
    pub fn add(self, step: Step) -> Result<Search<'a>, NoMemory>
        requires may { MayFollow self.base step }
        requires spares { Spares self.entries step.clause.lits }
        ensures base { IfOk result (λ s. s.base ≡ record self.entry.base {
          steps = self.entry.base.steps ++ step ∷ [];
        }) }
        ensures entries { IfOk result (λ s. s.entries ≡ self.entry.entries) }
    {
        let Search {
            mut known,
            trail,
            mut watches,
            mut listing,
        } = self;
        let number = known.len() + 1;
        list(&mut listing, &step.clause, number)?;
        watch(&mut watches, &step.clause)?;
        what_is_known();
        known.add(step)?;
        Ok(Search {
            known,
            trail,
            watches,
            listing,
        })
    }

    /// The values of the variables, as the literals that are true say.
    pub fn truths(&self, alloc: Global) -> Result<Truths, NoMemory>
        requires { IsFull self.now }
        ensures many { IfOk result (λ values. length values ≡ self.now.base.vars) }
        ensures satisfied { IfOk result
            (λ values. satisfies values self.now.base.clauses ≡ true) }
    {
        self.known.logged();
        self.trail.truths(alloc)
    }

    /// What was logged.
    pub fn into_log(self) -> Log
        ensures value { result.steps ≡ self.entry.base.steps }
        ensures logged { IsLogged self.entry.base }
    {
        self.known.into_log()
    }
}
