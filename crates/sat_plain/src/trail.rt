//! The literals that are true, in the order in which they became so.

ghost use Rattle.std.specs.Prelude.{◌≡◌, ◌+◌, ◌<◌, ◌≤◌, ◌≢◌, true, false, [], ◌∷◌, List, OnOk};
ghost use Rattle.std.specs.Prelude.{IfOk, IfSome, MatchOption, length, reverse, None};
ghost use Rattle.clause_base.specs.declared.lit.Lit.{Lit};
ghost use Rattle.clause_base.specs.Follows.{is_false};
ghost use Rattle.clause_base.specs.Formulas.{in_range};
ghost use Rattle.clause_base.specs.Literals.{literal_true, IsCovered};
ghost use Rattle.sat_plain.specs.Trails.{IsOrdered, IsScan, is_among, literals_of, oldest};
ghost use Rattle.sat_plain.specs.Trails.{standing};

use clause_base::NoMemory;
use clause_base::lit::Lit;
use clause_base::truths::Truths;
use std::alloc::Global;
use std::marker::Model;

/// A literal that is true.
#[derive(Clone, Copy)]
pub struct Entry {
    pub lit: Lit,
    /// The number of the clause that made it true; none where it was decided.
    pub reason: Option<u32>,
}

/// The literals of a clause that aren't false.
#[derive(Drop)]
pub enum Scan {
    Closed,
    One(Lit),
    /// One is true, or two and more aren't false.
    Other,
}

/// The literals that are true, and the values that they give the variables. There is room for one
/// entry a variable from the start. Contracts see the entries with the newest first.
#[derive(Drop)]
pub struct Trail {
    entries: Vec<Entry>,
    values: Vec<Option<bool>>,
}

impl Model for Trail {
    ghost use Rattle.std.specs.Prelude.{◌≤◌, length, reverse, vec_capacity};
    ghost use Rattle.sat_plain.specs.Trails.{AreTrue, Path};

    ghost Value = { Path };

    ghost view = { λ t. record {
      vars = length t.values.items;
      entries = reverse t.entries.items;
    } };

    ghost invariant = { λ t. AreTrue t.values.items (reverse t.entries.items)
        × (length t.values.items ≤ vec_capacity t.entries) };
}

impl Trail {
    /// No literal is true.
    pub fn new(alloc: Global, vars: u32) -> Result<Trail, NoMemory>
        ensures { IfOk result (λ t. t ≡ record { vars = vars; entries = [] }) }
    {
        Ok(Trail {
            entries: Vec::with_capacity(alloc, vars as usize)?,
            values: vec![in alloc; None; vars as usize]?,
        })
    }

    /// How many literals are true.
    pub fn len(&self) -> usize
        ensures count { result ≡ length self.now.entries }
        ensures within { result ≤ self.now.vars }
    {
        self.entries.len()
    }

    /// The literal at a place, counted from 0 with the oldest first.
    pub fn at(&self, i: usize) -> Lit
        requires { i < length self.now.entries }
        ensures value { let known = literals_of self.now.entries
            in oldest (i + 1) known ≡ result ∷ oldest i known }
        ensures range { in_range self.now.vars result ≡ true }
    {
        self.entries[i].lit
    }

    /// The entries, with the oldest first.
    pub fn entries(&self) -> &[Entry]
        ensures value { reverse result.now ≡ self.now.entries }
        ensures ordered { IsOrdered self.now.vars self.now.entries }
    {
        self.entries.as_slice()
    }

    /// Whether a literal is true or false; none where it is neither.
    pub fn standing(&self, lit: Lit) -> Option<bool>
        requires some { 0 < lit.var }
        requires within { lit.var ≤ self.now.vars }
        ensures value { result ≡ standing (literals_of self.now.entries) lit }
        ensures not_both { is_among lit (literals_of self.now.entries) ≡ true
            → is_false (literals_of self.now.entries) lit ≡ false }
    {
        match self.values[lit.var as usize - 1] {
            Some(value) => Some(value == lit.positive),
            None => None,
        }
    }

    /// Looks for the literals of a clause that aren't false, up to a true one or the second.
    pub fn look_over(&self, lits: &[Lit]) -> Scan
        requires { IsCovered self.now.vars lits.now }
        ensures { IsScan (literals_of self.now.entries) lits.now result }
    {
        let mut found: Option<Lit> = None;
        for lit in lits {
            match self.standing(*lit) {
                Some(true) => return Scan::Other,
                Some(false) => {}
                None => match found {
                    None => found = Some(*lit),
                    Some(_) => return Scan::Other,
                },
            }
        }
        match found {
            None => Scan::Closed,
            Some(lit) => Scan::One(lit),
        }
    }

    /// Makes a literal true that is neither true nor false.
    pub fn push(&mut self, entry: Entry)
        requires range { in_range self.old.vars entry.lit ≡ true }
        requires unset { standing (literals_of self.old.entries) entry.lit ≡ None }
        ensures { self.new ≡ record { vars = self.old.vars; entries = entry ∷ self.old.entries } }
    {
        self.entries.push_reserved(entry);
        self.values[entry.lit.var as usize - 1] = Some(entry.lit.positive);
    }

    /// Takes the newest entry away.
    pub fn pop(&mut self) -> Option<Entry>
        ensures vars { self.new.vars ≡ self.old.vars }
        ensures entry { MatchOption result (self.old.entries ≡ [])
            (λ e. self.old.entries ≡ e ∷ self.new.entries) }
        ensures unset { IfSome result (λ e. standing (literals_of self.new.entries) e.lit ≡ None) }
        ensures range { IfSome result (λ e. in_range self.new.vars e.lit ≡ true) }
    {
        let entry = self.entries.pop()?;
        self.values[entry.lit.var as usize - 1] = None;
        Some(entry)
    }

    /// The values of the variables, as the literals that are true say.
    pub fn truths(&self, alloc: Global) -> Result<Truths, NoMemory>
        ensures many { IfOk result (λ values. length values ≡ self.now.vars) }
        ensures agree { IfOk result
            (λ values. (l : Lit) → 0 < l.var → l.var ≤ self.now.vars
            → is_among l (literals_of self.now.entries) ≡ true → literal_true values l ≡ true) }
    {
        let mut truths = Truths::new(alloc);
        for value in &self.values {
            truths.push(value.unwrap_or(false))?;
        }
        Ok(truths)
    }
}
