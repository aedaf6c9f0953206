//! In which clauses of a formula a literal stands.

ghost use Rattle.std.specs.Prelude.{◌≡◌, ℕ, ◌+◌, ◌-◌, ◌*◌, ◌<◌, ◌≤◌, All, IfOk, OnOk, Some, length};
ghost use Rattle.std.specs.Prelude.{slice_get, slice_index_or, slice_set};
ghost use Rattle.sat_plain.specs.Places.{AreCounted, AreSums, AreTotals, IsEmpty, IsIndexOf};
ghost use Rattle.sat_plain.specs.Places.{list_of, start_of, sum_of};

use clause_base::NoMemory;
use clause_base::formula::Formula;
use clause_base::lit::Lit;
use std::alloc::{AllocError, Global};
use std::marker::Model;

/// For each literal the places of the clauses in which it stands. All of these lists stand one
/// after the other, so that a place takes no more than its number.
#[derive(Drop)]
pub struct Occurrences {
    starts: Vec<u32>,
    places: Vec<u32>,
}

impl Model for Occurrences {
    ghost use Rattle.sat_plain.specs.Places.{Index};

    ghost Value = { Index };

    ghost view = { λ o. record { starts = o.starts.items; places = o.places.items } };
}

/// The number of a literal's list.
fn list(lit: Lit) -> usize
    requires { 0 < lit.var }
    ensures value { result ≡ list_of lit }
    ensures under { result < 2 * lit.var }
{
    2 * (lit.var as usize - 1) + usize::from(lit.positive)
}

/// Counts the literals of a clause, each under its list's number.
fn count(counts: &mut [u32], lits: &[Lit]) -> Result<(), NoMemory>
    requires { All (λ l. (0 < l.var) × (2 * l.var < length counts.old)) lits.now }
    ensures { OnOk result (AreCounted counts.old counts.new lits.now) }
{
    for lit in lits {
        let number = list(*lit);
        if counts[number] == u32::MAX {
            return Err(AllocError);
        }
        counts[number] += 1;
    }
    Ok(())
}

/// Counts the literals of all clauses, from 0.
fn count_all(counts: &mut [u32], f: &Formula) -> Result<(), NoMemory>
    requires many { length counts.old ≡ 2 * f.now.vars + 1 }
    requires zero { (h : ℕ) → slice_index_or counts.old h 0 ≡ 0 }
    ensures { OnOk result (AreTotals f.now.clauses counts.new) }
{
    for place in 0..f.clauses.len() {
        count(counts, f.clauses.at(place).lits.as_slice())?;
    }
    Ok(())
}

/// Puts the sum of all numbers up to it in the place of each, and gives the sum of all.
fn sum_up(counts: &mut [u32]) -> Result<u32, NoMemory>
    ensures sums { OnOk result (AreSums counts.old counts.new) }
    ensures total { IfOk result (λ total. total ≡ sum_of (length counts.old) counts.old) }
{
    let mut sum: u32 = 0;
    for i in 0..counts.len() {
        let count = counts[i];
        if count > u32::MAX - sum {
            return Err(AllocError);
        }
        sum += count;
        counts[i] = sum;
    }
    Ok(sum)
}

/// Puts a place before what a list has.
fn put(starts: &mut [u32], places: &mut [u32], number: usize, place: u32)
    requires number { number < length starts.old }
    requires some { 0 < slice_index_or starts.old number 0 }
    requires room { slice_index_or starts.old number 0 - 1 < length places.old }
    ensures starts { starts.new
        ≡ slice_set starts.old number (slice_index_or starts.old number 0 - 1) }
    ensures places { places.new
        ≡ slice_set places.old (slice_index_or starts.old number 0 - 1) place }
{
    let at = starts[number] - 1;
    starts[number] = at;
    places[at as usize] = place;
}

/// Fills the lists, each from its end, which is where it is said to start.
fn fill(starts: &mut [u32], places: &mut [u32], f: &Formula)
    requires few { length f.now.clauses ≤ 2147483647 }
    requires many { length starts.old ≡ 2 * f.now.vars + 1 }
    requires empty { IsEmpty f.now.clauses starts.old places.old }
    ensures { IsIndexOf f.now.vars f.now.clauses
        (record { starts = starts.new; places = places.new }) }
{
    for place in 0..f.clauses.len() {
        for lit in f.clauses.at(place).lits.as_slice() {
            put(starts, places, list(*lit), place as u32);
        }
    }
}

impl Occurrences {
    /// The lists of a formula. More than 4294967295 literals are want of memory.
    pub fn new(alloc: Global, f: &Formula) -> Result<Occurrences, NoMemory>
        requires { length f.now.clauses ≤ 2147483647 }
        ensures { IfOk result (IsIndexOf f.now.vars f.now.clauses) }
    {
        let mut starts = vec![in alloc; 0; 2 * f.vars as usize + 1]?;
        count_all(&mut starts, f)?;
        let total = sum_up(&mut starts)?;
        let mut places = vec![in alloc; 0; total as usize]?;
        fill(&mut starts, &mut places, f);
        Ok(Occurrences { starts, places })
    }

    /// Where the list of a literal begins.
    pub fn first(&self, lit: Lit) -> usize
        requires some { 0 < lit.var }
        requires within { 2 * lit.var < length self.now.starts }
        ensures { result ≡ start_of self.now (list_of lit) }
    {
        self.starts[list(lit)] as usize
    }

    /// Where the list of a literal ends.
    pub fn end(&self, lit: Lit) -> usize
        requires some { 0 < lit.var }
        requires within { 2 * lit.var < length self.now.starts }
        ensures { result ≡ start_of self.now (list_of lit + 1) }
    {
        self.starts[list(lit) + 1] as usize
    }

    /// The place of a clause, by where it stands among all lists.
    pub fn place(&self, i: usize) -> u32
        requires { i < length self.now.places }
        ensures { slice_get self.now.places i ≡ Some result }
    {
        self.places[i]
    }
}
