//! What the names and the picks of an expression are as bits.

ghost use Rattle.std.specs.Prelude.{◌≡◌, ◌<◌, ◌++◌, ◌∷◌, [], List, length, Some, IfOk, OnOk};
ghost use Rattle.std.specs.Prelude.{OnErr, slice_get};

use bit_words::NoMemory;
use bit_words::bits::Bits;
use mpy_tree::{Limits, Names};
use std::alloc::Global;
use std::marker::Model;
use sym_values::SymValues;

/// For each pick its member, as a number without a sign.
#[derive(Drop)]
pub struct Picks<B: Copy> {
    members: Vec<Bits<B>>,
}

impl<B: Copy> Model for Picks<B> {
    ghost use Rattle.std.specs.Prelude.{List};

    ghost Value = { List (List B) };

    ghost view = { λ p. p.members.items };
}

impl<B: Copy> Picks<B> {
    /// No picks.
    pub fn new(alloc: Global) -> Self
        ensures { result ≡ [] }
    {
        Picks {
            members: Vec::new(alloc),
        }
    }

    /// The picks with these members.
    pub fn from_vec(members: Vec<Bits<B>>) -> Self
        ensures { result ≡ members.items }
    {
        Picks { members }
    }

    /// The members.
    pub fn into_vec(self) -> Vec<Bits<B>>
        ensures { result.items ≡ self }
    {
        self.members
    }

    /// The number of picks.
    pub fn len(&self) -> usize
        ensures { result ≡ length self.now }
    {
        self.members.len()
    }

    /// The member of a pick.
    pub fn at(&self, i: usize) -> &Bits<B>
        requires { i < length self.now }
        ensures { slice_get self.now i ≡ Some result.now }
    {
        &self.members[i]
    }

    /// Equal picks.
    pub fn copy(&self) -> Result<Self, NoMemory>
        ensures { IfOk result (λ r. r ≡ self.now) }
    {
        let mut copies = Vec::new(*self.members.allocator());
        for member in &self.members {
            copies.push(member.copy()?)?;
        }
        Ok(Picks { members: copies })
    }

    /// Adds a pick at the end. Where memory is wanting the picks stay as they were.
    pub fn push(&mut self, member: Bits<B>) -> Result<(), NoMemory>
        ensures ok { OnOk result (self.new ≡ self.old ++ member ∷ []) }
        ensures err { OnErr result (self.new ≡ self.old) }
    {
        self.members.push(member)?;
        Ok(())
    }
}

/// What an expression is evaluated in: the names, with a value for each and a bit that says whether
/// it is set; the picks; the limits of a run; and how deep the call is in which it stands, from 1
/// on.
#[derive(Drop)]
pub struct Env<B: Copy> {
    pub names: Names,
    pub values: SymValues<B>,
    pub set: Bits<B>,
    pub picks: Picks<B>,
    pub limits: Limits,
    pub depth: u32,
}
