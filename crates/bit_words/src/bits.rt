//! A list of bits that is no number.

ghost use Rattle.std.specs.Prelude.{◌≡◌, ◌<◌, List, [], ◌∷◌, ◌++◌, length, Some, OnOk, OnErr, IfOk};
ghost use Rattle.std.specs.Prelude.{slice_get};

use crate::NoMemory;
use std::alloc::Global;
use std::marker::Model;

/// A list of bits.
#[derive(Drop)]
pub struct Bits<B: Copy> {
    bits: Vec<B>,
}

impl<B: Copy> Model for Bits<B> {
    ghost use Rattle.std.specs.Prelude.{List};

    ghost Value = { List B };

    ghost view = { λ w. w.bits.items };
}

impl<B: Copy> Bits<B> {
    /// The list of no bits.
    pub fn new(alloc: Global) -> Self
        ensures { result ≡ [] }
    {
        Bits {
            bits: Vec::new(alloc),
        }
    }

    /// The list of these bits.
    pub fn from_vec(bits: Vec<B>) -> Self
        ensures { result ≡ bits.items }
    {
        Bits { bits }
    }

    /// The bits.
    pub fn into_vec(self) -> Vec<B>
        ensures { result.items ≡ self }
    {
        self.bits
    }

    /// The bits, to be looked at.
    pub fn as_slice(&self) -> &[B]
        ensures { result.now ≡ self.now }
    {
        &self.bits
    }

    /// The number of bits.
    pub fn len(&self) -> usize
        ensures { result ≡ length self.now }
    {
        self.bits.len()
    }

    /// The bit at a place.
    pub fn at(&self, i: usize) -> B
        requires { i < length self.now }
        ensures { slice_get self.now i ≡ Some result }
    {
        self.bits[i]
    }

    /// Adds a bit at the end. Where memory is wanting the list stays as it was.
    pub fn push(&mut self, bit: B) -> Result<(), NoMemory>
        ensures ok { OnOk result (self.new ≡ self.old ++ bit ∷ []) }
        ensures err { OnErr result (self.new ≡ self.old) }
    {
        self.bits.push(bit)?;
        Ok(())
    }

    /// An equal list.
    pub fn copy(&self) -> Result<Bits<B>, NoMemory>
        ensures { IfOk result (λ r. r ≡ self.now) }
    {
        let bits = Vec::from_slice(*self.bits.allocator(), &self.bits)?;
        Ok(Bits { bits })
    }
}
