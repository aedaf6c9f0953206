//! The clauses by their greatest variable.

ghost use Rattle.std.specs.Prelude.{◌≡◌, ◌<◌, ◌≤◌, [], length, IfOk, OnOk, OnErr, replicate};
ghost use Rattle.sat_watch.specs.Listing.{head_of, listed, next_of, unlisted};

use clause_base::NoMemory;
use std::alloc::Global;
use std::marker::Model;

/// For each variable the clauses whose greatest variable it is, with the newest first. A list
/// stays as it is for good, but for clauses that are added in front. Beside it a place in each
/// clause is remembered, where a literal was true that may still be; nothing is claimed of it.
#[derive(Drop)]
pub struct Listing {
    heads: Vec<u32>,
    nexts: Vec<u32>,
    places: Vec<u32>,
}

impl Model for Listing {
    ghost use Rattle.sat_watch.specs.Listing.{Lists};

    ghost Value = { Lists };

    ghost view = { λ s. record { heads = s.heads.items; nexts = s.nexts.items } };

    ghost use Rattle.std.specs.Prelude.{◌≤◌, length};

    ghost invariant = { λ s. length s.nexts.items ≤ length s.places.items };
}

impl Listing {
    /// Empty lists, with room for so many clauses.
    pub fn new(alloc: Global, vars: u32, clauses: usize) -> Result<Listing, NoMemory>
        ensures { IfOk result (λ s. s ≡ record { heads = replicate vars 0; nexts = [] }) }
    {
        Ok(Listing {
            heads: vec![in alloc; 0; vars as usize]?,
            nexts: Vec::with_capacity(alloc, clauses)?,
            places: Vec::with_capacity(alloc, clauses)?,
        })
    }

    /// The number of the newest clause of a variable's list, or 0.
    pub fn first(&self, var: u32) -> u32
        requires some { 0 < var }
        requires within { var ≤ length self.now.heads }
        ensures { result ≡ head_of self.now var }
    {
        self.heads[var as usize - 1]
    }

    /// The number of the clause after that of a number in its list, or 0.
    pub fn next(&self, number: u32) -> u32
        requires some { 0 < number }
        requires within { number ≤ length self.now.nexts }
        ensures { result ≡ next_of self.now number }
    {
        self.nexts[number as usize - 1]
    }

    /// The place that is remembered in the clause of a number, counted from 0.
    pub fn place(&self, number: u32) -> usize
        requires some { 0 < number }
        requires within { number ≤ length self.now.nexts }
    {
        self.places[number as usize - 1] as usize
    }

    /// Remembers a place in the clause of a number.
    pub fn remember(&mut self, number: u32, place: usize)
        requires some { 0 < number }
        requires within { number ≤ length self.old.nexts }
        ensures { self.new ≡ self.old }
    {
        if let Ok(place) = u32::try_from(place) {
            self.places[number as usize - 1] = place;
        }
    }

    /// Puts the clause of a number in front of the list of its greatest variable. Where memory is
    /// wanting all is as before.
    pub fn push(&mut self, var: u32, number: u32) -> Result<(), NoMemory>
        requires some { 0 < var }
        requires within { var ≤ length self.old.heads }
        ensures ok { OnOk result (self.new ≡ listed self.old var number) }
        ensures err { OnErr result (self.new ≡ self.old) }
    {
        self.places.push(0)?;
        self.nexts.push(self.heads[var as usize - 1])?;
        self.heads[var as usize - 1] = number;
        Ok(())
    }

    /// Leaves an empty clause out of all lists. Where memory is wanting all is as before.
    pub fn push_none(&mut self) -> Result<(), NoMemory>
        ensures ok { OnOk result (self.new ≡ unlisted self.old) }
        ensures err { OnErr result (self.new ≡ self.old) }
    {
        self.places.push(0)?;
        self.nexts.push(0)?;
        Ok(())
    }
}
