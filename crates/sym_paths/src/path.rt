//! Paths through a body, and the ways that lead out of it.

ghost use Rattle.std.specs.Prelude.{◌≡◌, List, [], ◌∷◌, ◌++◌, OnOk, OnErr, IfOk, IfNone, IfSome};

use bit_words::NoMemory;
use bit_words::bits::Bits;
use std::alloc::Global;
use std::marker::Model;
use sym_values::{SymValue, SymValues};

/// A path through a body: a bit that says whether it is taken, and the locals there, each with a
/// value and a bit that says whether it is set. Where printed values are kept, their number and
/// they stand behind the locals, each with a bit of no meaning.
#[derive(Drop)]
pub struct Path<B: Copy> {
    pub bit: B,
    pub values: SymValues<B>,
    pub set: Bits<B>,
}

impl<B: Copy> Path<B> {
    /// An equal path.
    pub fn copy(&self) -> Result<Path<B>, NoMemory>
        ensures { IfOk result (λ r. r ≡ self.now) }
    {
        let values = self.values.copy()?;
        let set = self.set.copy()?;
        Ok(Path {
            bit: self.bit,
            values,
            set,
        })
    }
}

/// A value that is returned where a bit holds, or a return without one, with what is kept then of
/// printed values.
#[derive(Drop)]
pub struct Given<B: Copy> {
    pub bit: B,
    pub value: Option<SymValue<B>>,
    pub printed: SymValues<B>,
}

/// Things in order.
#[derive(Drop)]
pub struct Many<T> {
    items: Vec<T>,
}

impl<T> Model for Many<T> {
    ghost use Rattle.std.specs.Prelude.{List};

    ghost Value = { List T };

    ghost view = { λ v. v.items.items };
}

impl<T> Many<T> {
    /// Nothing.
    pub fn new(alloc: Global) -> Self
        ensures { result ≡ [] }
    {
        Many {
            items: Vec::new(alloc),
        }
    }
}

impl<T: Drop> Many<T> {
    /// One thing.
    pub fn one(alloc: Global, item: T) -> Result<Self, NoMemory>
        ensures { IfOk result (λ r. r ≡ item ∷ []) }
    {
        let mut items = Vec::new(alloc);
        items.push(item)?;
        Ok(Many { items })
    }

    /// Adds one thing at the end. Where memory is wanting the things stay as they were.
    pub fn push(&mut self, item: T) -> Result<(), NoMemory>
        ensures ok { OnOk result (self.new ≡ self.old ++ item ∷ []) }
        ensures err { OnErr result (self.new ≡ self.old) }
    {
        self.items.push(item)?;
        Ok(())
    }

    /// Takes off the last thing.
    pub fn pop(&mut self) -> Option<T>
        ensures none { IfNone result (self.old ≡ []) }
        ensures some { IfSome result (λ x. self.old ≡ self.new ++ x ∷ []) }
    {
        self.items.pop()
    }

    /// Adds other things at the end. Where memory is wanting the things stay as they were.
    pub fn append(&mut self, mut other: Many<T>) -> Result<(), NoMemory>
        ensures ok { OnOk result (self.new ≡ self.old ++ other) }
        ensures err { OnErr result (self.new ≡ self.old) }
    {
        self.items.append(&mut other.items)
    }
}

/// What leads out of a body: the paths to the next statement, those that leave the loop, those to
/// its next turn, and the values that are returned. Where none of them is taken there is a fault.
#[derive(Drop)]
pub struct Out<B: Copy> {
    pub next: Many<Path<B>>,
    pub broke: Many<Path<B>>,
    pub continued: Many<Path<B>>,
    pub returned: Many<Given<B>>,
}
