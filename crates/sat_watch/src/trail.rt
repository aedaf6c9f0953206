//! The literals that are true, in the order in which they became so.

ghost use Rattle.std.specs.Prelude.{◌≡◌, ◌⊎◌, ◌+◌, ◌<◌, ◌≤◌, ◌≢◌, true, false, [], ◌∷◌};
ghost use Rattle.std.specs.Prelude.{IfOk, IfSome, IsSomeAnd, MatchOption, None, Some, length};
ghost use Rattle.std.specs.Prelude.{◌++◌, ◌^◌, option_to_list, reverse, slice_get};
ghost use Rattle.std.specs.List.{list_any};
ghost use Rattle.clause_base.specs.declared.lit.Lit.{Lit};
ghost use Rattle.clause_base.specs.Follows.{is_false, open_literals};
ghost use Rattle.clause_base.specs.Formulas.{in_range};
ghost use Rattle.clause_base.specs.Literals.{literal_true, IsCovered};
ghost use Rattle.sat_watch.specs.Trails.{IsLevelled, IsOrdered, IsScan, decided, is_among};
ghost use Rattle.sat_watch.specs.Trails.{literals_of, standing, up_to};

use clause_base::NoMemory;
use clause_base::lit::Lit;
use clause_base::truths::Truths;
use std::alloc::Global;
use std::marker::Model;

/// A literal that is true.
#[derive(Clone, Copy)]
pub struct Entry {
    pub lit: Lit,
    /// The number of the clause that made it true; none where it was decided.
    pub reason: Option<u32>,
    /// How many literals were decided up to it.
    pub level: u32,
}

/// The literals of a clause that aren't false.
#[derive(Drop)]
pub enum Scan {
    Closed,
    One(Lit),
    /// One is true, or two and more aren't false: here is one of them, and the place in the clause
    /// where the look ended, counted from 0. Nothing is claimed of the place.
    Other(Lit, usize),
}

/// The literals that are true, and the values that they give the variables. There is room for one
/// entry a variable from the start. Contracts see the entries with the newest first.
#[derive(Drop)]
pub struct Trail {
    entries: Vec<Entry>,
    values: Vec<Option<bool>>,
}

impl Model for Trail {
    ghost use Rattle.std.specs.Prelude.{◌<◌, ◌≤◌, ◌^◌, length, reverse, vec_capacity};
    ghost use Rattle.sat_watch.specs.Trails.{AreTrue, IsLevelled, Path};

    ghost Value = { Path };

    ghost view = { λ t. record {
      vars = length t.values.items;
      entries = reverse t.entries.items;
    } };

    ghost invariant = { λ t. AreTrue t.values.items (reverse t.entries.items)
        × (length t.values.items ≤ vec_capacity t.entries)
        × IsLevelled (reverse t.entries.items) × (length t.values.items < 2 ^ 32) };
}

/// Of two literals one that isn't `other`.
fn one_of(first: Lit, second: Lit, other: Lit) -> Lit
    ensures { (result ≡ first) ⊎ (result ≡ second) }
{
    if first == other { second } else { first }
}

impl Trail {
    /// No literal is true.
    pub fn new(alloc: Global, vars: u32) -> Result<Trail, NoMemory>
        ensures { IfOk result (λ t. t ≡ record { vars = vars; entries = [] }) }
    {
        Ok(Trail {
            entries: Vec::with_capacity(alloc, vars as usize)?,
            values: vec![in alloc; None; vars as usize]?,
        })
    }

    /// How many literals are true.
    pub fn len(&self) -> usize
        ensures count { result ≡ length self.now.entries }
        ensures within { result ≤ self.now.vars }
    {
        self.entries.len()
    }

    /// The literal at a place, counted from 0 with the oldest first.
    pub fn at(&self, i: usize) -> Lit
        requires { i < length self.now.entries }
        ensures value { IsSomeAnd (slice_get (reverse self.now.entries) i) (λ e. result ≡ e.lit) }
        ensures range { in_range self.now.vars result ≡ true }
    {
        self.entries[i].lit
    }

    /// The entries, with the oldest first.
    pub fn entries(&self) -> &[Entry]
        ensures value { reverse result.now ≡ self.now.entries }
        ensures ordered { IsOrdered self.now.vars self.now.entries }
        ensures levelled { IsLevelled self.now.entries }
    {
        self.entries.as_slice()
    }

    /// How many literals were decided.
    pub fn level(&self) -> u32
        ensures value { result ≡ length (decided self.now.entries) }
        ensures levelled { IsLevelled self.now.entries }
    {
        match self.entries.last() {
            Some(entry) => entry.level,
            None => 0,
        }
    }

    /// Whether a literal is true or false; none where it is neither.
    pub fn standing(&self, lit: Lit) -> Option<bool>
        requires some { 0 < lit.var }
        requires within { lit.var ≤ self.now.vars }
        ensures value { result ≡ standing (literals_of self.now.entries) lit }
        ensures not_both { is_among lit (literals_of self.now.entries) ≡ true
            → is_false (literals_of self.now.entries) lit ≡ false }
    {
        match self.values[lit.var as usize - 1] {
            Some(value) => Some(value == lit.positive),
            None => None,
        }
    }

    /// Whether a literal is true.
    pub fn is_true(&self, lit: Lit) -> bool
        requires some { 0 < lit.var }
        requires within { lit.var ≤ self.now.vars }
        ensures { result ≡ is_among lit (literals_of self.now.entries) }
    {
        self.standing(lit) == Some(true)
    }

    /// The place of a true literal of a clause, counted from 0. The literal at `first` is tried
    /// before the others.
    pub fn true_place(&self, lits: &[Lit], first: usize) -> Option<usize>
        requires { IsCovered self.now.vars lits.now }
        ensures { IfSome result (λ place. let known = literals_of self.now.entries
            in list_any (λ l. is_among l known) lits.now ≡ true) }
    {
        if first < lits.len() && self.is_true(lits[first]) {
            return Some(first);
        }
        for place in 0..lits.len() {
            if self.is_true(lits[place]) {
                return Some(place);
            }
        }
        None
    }

    /// Goes on with a look over a clause, of which at most one literal that isn't false was found:
    /// looks over a part of it, whose first literal has the place `start`.
    fn look_on(&self, part: &[Lit], start: usize, before: Option<Lit>, other: Lit) -> Scan
        requires covered { IsCovered self.now.vars part.now }
        requires places { start + length part.now < 2 ^ 64 }
        requires unset { IfSome before (λ l. standing (literals_of self.now.entries) l ≡ None) }
        ensures { IsScan (literals_of self.now.entries) (option_to_list before ++ part.now) result }
    {
        let mut found = before;
        for place in 0..part.len() {
            let lit = part[place];
            match self.standing(lit) {
                Some(true) => return Scan::Other(lit, start + place),
                Some(false) => {}
                None => match found {
                    None => found = Some(lit),
                    Some(first) => return Scan::Other(one_of(first, lit, other), start + place),
                },
            }
        }
        match found {
            None => Scan::Closed,
            Some(lit) => Scan::One(lit),
        }
    }

    /// Looks for the literals of a clause that aren't false, up to a true one or the second; of
    /// two it gives one that isn't `other`. It begins at the place `from`, or at 0 where there is
    /// no such place, goes to the end, and then from the front on.
    pub fn look_over(&self, lits: &[Lit], from: usize, other: Lit) -> Scan
        requires { IsCovered self.now.vars lits.now }
        ensures { IsScan (literals_of self.now.entries) lits.now result }
    {
        let start = if from < lits.len() { from } else { 0 };
        let (front, back) = lits.split_at(start);
        match self.look_on(back, start, None, other) {
            Scan::Closed => self.look_on(front, 0, None, other),
            Scan::One(lit) => self.look_on(front, 0, Some(lit), other),
            Scan::Other(lit, place) => Scan::Other(lit, place),
        }
    }

    /// Whether all literals of a clause are false.
    pub fn is_closed(&self, lits: &[Lit]) -> bool
        requires { IsCovered self.now.vars lits.now }
        ensures yes { result ≡ true → open_literals (literals_of self.now.entries) lits.now ≡ [] }
        ensures no { result ≡ false → open_literals (literals_of self.now.entries) lits.now ≢ [] }
    {
        for lit in lits {
            if self.standing(*lit) != Some(false) {
                return false;
            }
        }
        true
    }

    /// Makes a literal true that is neither true nor false, for the clause of a number.
    pub fn imply(&mut self, lit: Lit, number: u32)
        requires range { in_range self.old.vars lit ≡ true }
        requires unset { standing (literals_of self.old.entries) lit ≡ None }
        ensures { self.new ≡ record {
          vars = self.old.vars;
          entries = (record {
            lit = lit;
            reason = Some number;
            level = length (decided self.old.entries);
          }) ∷ self.old.entries;
        } }
    {
        let level = self.level();
        self.entries.push_reserved(Entry {
            lit,
            reason: Some(number),
            level,
        });
        self.values[lit.var as usize - 1] = Some(lit.positive);
    }

    /// Decides a literal that is neither true nor false.
    pub fn decide(&mut self, lit: Lit)
        requires range { in_range self.old.vars lit ≡ true }
        requires unset { standing (literals_of self.old.entries) lit ≡ None }
        ensures { self.new ≡ record {
          vars = self.old.vars;
          entries = (record {
            lit = lit;
            reason = None;
            level = length (decided self.old.entries) + 1;
          }) ∷ self.old.entries;
        } }
    {
        let level = self.level() + 1;
        self.entries.push_reserved(Entry {
            lit,
            reason: None,
            level,
        });
        self.values[lit.var as usize - 1] = Some(lit.positive);
    }

    /// Takes the newest entry away.
    pub fn pop(&mut self) -> Option<Entry>
        ensures vars { self.new.vars ≡ self.old.vars }
        ensures entry { MatchOption result (self.old.entries ≡ [])
            (λ e. self.old.entries ≡ e ∷ self.new.entries) }
    {
        let entry = self.entries.pop()?;
        self.values[entry.lit.var as usize - 1] = None;
        Some(entry)
    }

    /// Goes back to a level: takes the entries of later ones away.
    pub fn back_to(&mut self, level: u32)
        ensures vars { self.new.vars ≡ self.old.vars }
        ensures entries { self.new.entries ≡ up_to level self.old.entries }
    {
        while self.level() > level {
            let _newest = self.pop();
        }
    }

    /// The values of the variables, as the literals that are true say.
    pub fn truths(&self, alloc: Global) -> Result<Truths, NoMemory>
        ensures many { IfOk result (λ values. length values ≡ self.now.vars) }
        ensures agree { IfOk result
            (λ values. (l : Lit) → 0 < l.var → l.var ≤ self.now.vars
            → is_among l (literals_of self.now.entries) ≡ true → literal_true values l ≡ true) }
    {
        let mut truths = Truths::new(alloc);
        for value in &self.values {
            truths.push(value.unwrap_or(false))?;
        }
        Ok(truths)
    }
}
