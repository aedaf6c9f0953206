//! The clauses by the literals that each of them watches.

ghost use Rattle.std.specs.Prelude.{◌≡◌, ◌+◌, ◌*◌, ◌<◌, ◌≤◌, true, ℕ, IfOk, OnOk, OnErr};
ghost use Rattle.clause_base.specs.Formulas.{in_range};

use clause_base::NoMemory;
use clause_base::lit::Lit;
use std::alloc::{AllocError, Global};
use std::marker::Model;

/// How many clauses have items whose numbers are within 32 bits.
const MOST_CLAUSES: u32 = 2147483647;

/// A literal that a clause watches, and the number of the next item of its list, or 0. A place is
/// remembered where the look at the clause ended by which this literal was found; nothing is
/// claimed of it.
#[derive(Clone, Copy)]
pub struct Watch {
    lit: Lit,
    next: u32,
    place: u32,
}

/// For each literal the list of the clauses that watch it. A clause watches two literals and has an
/// item for each: that of number n has the items 2n - 1 and 2n. Nothing rests on the lists being
/// complete, so contracts see the sizes alone.
#[derive(Drop)]
pub struct Watches {
    vars: u32,
    clauses: u32,
    heads: Vec<u32>,
    items: Vec<Watch>,
}

impl Model for Watches {
    ghost use Rattle.sat_watch.specs.Watching.{AreWatches, Sizes};

    ghost Value = { Sizes };

    ghost view = { λ s. record { vars = s.vars; clauses = s.clauses } };

    ghost invariant = { λ s. AreWatches s.vars s.clauses s.heads.items s.items.items };
}

/// The place of a literal's list.
fn list_of(lit: Lit, vars: u32) -> usize
    requires { in_range vars lit ≡ true }
    ensures { result < 2 * vars }
{
    let place = 2 * (lit.var as usize - 1);
    if lit.positive { place + 1 } else { place }
}

/// The number of the clause that has an item.
pub fn number_of(item: u32) -> u32
    requires { 0 < item }
    ensures least { item ≤ 2 * result }
    ensures most { 2 * result ≤ item + 1 }
{
    (item - 1) / 2 + 1
}

/// The place of the other item of the clause that has an item.
fn other_place(item: u32) -> usize
    requires { 0 < item }
    ensures { (clauses : ℕ) → item ≤ 2 * clauses → result < 2 * clauses }
{
    let place = item as usize - 1;
    if place % 2 == 0 { place + 1 } else { place - 1 }
}

impl Watches {
    /// No clauses, and room for so many.
    pub fn new(alloc: Global, vars: u32, clauses: u32) -> Result<Watches, NoMemory>
        ensures { IfOk result (λ s. s ≡ record { vars = vars; clauses = 0 }) }
    {
        Ok(Watches {
            vars,
            clauses: 0,
            heads: vec![in alloc; 0; 2 * vars as usize]?,
            items: Vec::with_capacity(alloc, 2 * clauses as usize)?,
        })
    }

    /// The first item of a literal's list, or 0.
    pub fn first(&self, lit: Lit) -> u32
        requires { in_range self.now.vars lit ≡ true }
        ensures { result ≤ 2 * self.now.clauses }
    {
        self.heads[list_of(lit, self.vars)]
    }

    /// The item behind this one in its list, or 0.
    pub fn next(&self, item: u32) -> u32
        requires some { 0 < item }
        requires within { item ≤ 2 * self.now.clauses }
        ensures { result ≤ 2 * self.now.clauses }
    {
        self.items[item as usize - 1].next
    }

    /// The other literal that the clause of an item watches. A clause that watches none has
    /// variable 0.
    pub fn other(&self, item: u32) -> Lit
        requires some { 0 < item }
        requires within { item ≤ 2 * self.now.clauses }
        ensures { result.var ≤ self.now.vars }
    {
        self.items[other_place(item)].lit
    }

    /// The place in its clause that is remembered with an item, counted from 0.
    pub fn place(&self, item: u32) -> usize
        requires some { 0 < item }
        requires within { item ≤ 2 * self.now.clauses }
    {
        self.items[item as usize - 1].place as usize
    }

    /// One clause more, which watches two literals. With 2147483647 clauses it is want of memory.
    pub fn watch(&mut self, first: Lit, second: Lit) -> Result<(), NoMemory>
        requires first { in_range self.old.vars first ≡ true }
        requires second { in_range self.old.vars second ≡ true }
        ensures vars { self.new.vars ≡ self.old.vars }
        ensures clauses { OnOk result (self.new.clauses ≡ self.old.clauses + 1) }
        ensures err { OnErr result (self.new ≡ self.old) }
    {
        self.watch_none()?;
        let item = 2 * self.clauses;
        self.link(item - 1, first, 0);
        self.link(item, second, 0);
        Ok(())
    }

    /// One clause more, which watches no literal. With 2147483647 clauses it is want of memory.
    pub fn watch_none(&mut self) -> Result<(), NoMemory>
        ensures vars { self.new.vars ≡ self.old.vars }
        ensures clauses { OnOk result (self.new.clauses ≡ self.old.clauses + 1) }
        ensures err { OnErr result (self.new ≡ self.old) }
    {
        if self.clauses >= MOST_CLAUSES {
            return Err(AllocError);
        }
        let none = Watch {
            lit: Lit::default(),
            next: 0,
            place: 0,
        };
        self.items.reserve(2)?;
        self.items.push_reserved(none);
        self.items.push_reserved(none);
        self.clauses += 1;
        Ok(())
    }

    /// Puts an item, which is in no list, before the others that watch a literal, and remembers a
    /// place with it.
    fn link(&mut self, item: u32, lit: Lit, place: usize)
        requires range { in_range self.old.vars lit ≡ true }
        requires some { 0 < item }
        requires within { item ≤ 2 * self.old.clauses }
        ensures { self.new ≡ self.old }
    {
        let list = list_of(lit, self.vars);
        self.items[item as usize - 1] = Watch {
            lit,
            next: self.heads[list],
            place: u32::try_from(place).unwrap_or(0),
        };
        self.heads[list] = item;
    }

    /// Takes an item out of a literal's list, behind the item `before`, or the first where that is
    /// 0; from here on it watches another literal, and remembers a place.
    pub fn rewatch(&mut self, lit: Lit, before: u32, item: u32, to: Lit, place: usize)
        requires from { in_range self.old.vars lit ≡ true }
        requires to { in_range self.old.vars to ≡ true }
        requires before { before ≤ 2 * self.old.clauses }
        requires some { 0 < item }
        requires within { item ≤ 2 * self.old.clauses }
        ensures { self.new ≡ self.old }
    {
        let next = self.items[item as usize - 1].next;
        if before == 0 {
            let list = list_of(lit, self.vars);
            self.heads[list] = next;
        } else {
            self.items[before as usize - 1].next = next;
        }
        self.link(item, to, place);
    }
}
