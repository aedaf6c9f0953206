//! A word: a list of bits, the lowest first.

ghost use Rattle.std.specs.Prelude.{◌≡◌, ◌<◌, ◌≤◌, List, [], ◌∷◌, ◌++◌, length, take, Some, OnOk};
ghost use Rattle.std.specs.Prelude.{OnErr, IfOk, slice_get};

use crate::NoMemory;
use std::alloc::Global;
use std::marker::Model;

/// A list of bits, the lowest first. As a number it is read in two's complement.
#[derive(Drop)]
pub struct Word<B: Copy> {
    bits: Vec<B>,
}

impl<B: Copy> Model for Word<B> {
    ghost use Rattle.std.specs.Prelude.{List};

    ghost Value = { List B };

    ghost view = { λ w. w.bits.items };
}

impl<B: Copy> Word<B> {
    /// The word of no bits.
    pub fn new(alloc: Global) -> Self
        ensures { result ≡ [] }
    {
        Word {
            bits: Vec::new(alloc),
        }
    }

    /// The word of these bits.
    pub fn from_vec(bits: Vec<B>) -> Self
        ensures { result ≡ bits.items }
    {
        Word { bits }
    }

    /// The bits.
    pub fn into_vec(self) -> Vec<B>
        ensures { result.items ≡ self }
    {
        self.bits
    }

    /// The bits, to be looked at.
    pub fn as_slice(&self) -> &[B]
        ensures { result.now ≡ self.now }
    {
        &self.bits
    }

    /// The number of bits.
    pub fn len(&self) -> usize
        ensures { result ≡ length self.now }
    {
        self.bits.len()
    }

    /// The bit at a place.
    pub fn at(&self, i: usize) -> B
        requires { i < length self.now }
        ensures { slice_get self.now i ≡ Some result }
    {
        self.bits[i]
    }

    /// Adds a highest bit. Where memory is wanting the word stays as it was.
    pub fn push(&mut self, bit: B) -> Result<(), NoMemory>
        ensures ok { OnOk result (self.new ≡ self.old ++ bit ∷ []) }
        ensures err { OnErr result (self.new ≡ self.old) }
    {
        self.bits.push(bit)?;
        Ok(())
    }

    /// Adds a lowest bit. Where memory is wanting the word stays as it was.
    pub fn push_low(&mut self, bit: B) -> Result<(), NoMemory>
        ensures ok { OnOk result (self.new ≡ bit ∷ self.old) }
        ensures err { OnErr result (self.new ≡ self.old) }
    {
        self.bits.insert(0, bit)?;
        Ok(())
    }

    /// The lowest bits of a word.
    pub fn low_bits(&self, width: usize) -> Result<Word<B>, NoMemory>
        requires { width ≤ length self.now }
        ensures { IfOk result (λ r. r ≡ take width self.now) }
    {
        let bits = Vec::from_slice(*self.bits.allocator(), &self.bits[..width])?;
        Ok(Word { bits })
    }

    /// An equal word.
    pub fn copy(&self) -> Result<Word<B>, NoMemory>
        ensures { IfOk result (λ r. r ≡ self.now) }
    {
        let bits = Vec::from_slice(*self.bits.allocator(), &self.bits)?;
        Ok(Word { bits })
    }
}
