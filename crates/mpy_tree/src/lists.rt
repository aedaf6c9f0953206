//! The numbers of a list, and the characters of a text.
ghost use Rattle.std.specs.Prelude.{◌≡◌, ◌≤◌, ◌++◌, ◌∷◌, [], ℕ, ℤ, List, All, length, IfOk, OnOk};
ghost use Rattle.mpy_tree.specs.Printable.{ArePrintable};

use crate::NoMemory;
use std::alloc::Global;
use std::marker::Model;

/// The numbers of a list.
#[derive(Drop)]
pub struct Ints {
    items: Vec<i32>,
}

impl Model for Ints {
    ghost Value = { List ℤ };

    ghost view = { λ a. a.items.items };
}

impl Ints {
    /// The list that has these numbers.
    pub fn from_vec(items: Vec<i32>) -> Ints
        ensures { result ≡ items.items }
    {
        Ints { items }
    }

    /// The numbers.
    pub fn items(&self) -> &[i32]
        ensures { result.now ≡ self.now }
    {
        self.items.as_slice()
    }

    /// The numbers, given back.
    pub fn into_vec(self) -> Vec<i32>
        ensures { result.items ≡ self }
    {
        self.items
    }

    /// How many numbers there are.
    pub fn len(&self) -> usize
        ensures { result ≡ length self.now }
    {
        self.items.len()
    }

    /// An equal list.
    pub fn copy(&self) -> Result<Ints, NoMemory>
        ensures { IfOk result (λ n. n ≡ self.now) }
    {
        let items = self.items.clone()?;
        Ok(Ints { items })
    }
}

/// The characters of a text, each a byte from 32 to 126.
#[derive(Drop)]
pub struct Chars {
    bytes: Vec<u8>,
}

impl Model for Chars {
    ghost Value = { List ℕ };

    ghost view = { λ a. a.bytes.items };

    ghost invariant = { λ a. ArePrintable a.bytes.items };
}

impl Chars {
    /// The text that has these characters.
    pub fn from_vec(bytes: Vec<u8>) -> Chars
        requires { ArePrintable bytes.items }
        ensures { result ≡ bytes.items }
    {
        Chars { bytes }
    }

    /// The characters.
    pub fn bytes(&self) -> &[u8]
        ensures same { result.now ≡ self.now }
        ensures printable { ArePrintable self.now }
    {
        self.bytes.as_slice()
    }

    /// The characters, given back.
    pub fn into_vec(self) -> Vec<u8>
        ensures same { result.items ≡ self }
        ensures printable { ArePrintable self }
    {
        self.bytes
    }

    /// How many characters there are.
    pub fn len(&self) -> usize
        ensures { result ≡ length self.now }
    {
        self.bytes.len()
    }

    /// An equal text.
    pub fn copy(&self) -> Result<Chars, NoMemory>
        ensures { IfOk result (λ n. n ≡ self.now) }
    {
        let bytes = self.bytes.clone()?;
        Ok(Chars { bytes })
    }
}
