//! Typed values as words of bits, and lists of them.

ghost use Rattle.std.specs.Prelude.{◌≡◌, ◌<◌, List, [], ◌∷◌, ◌++◌, length, Some, OnOk, OnErr, IfOk};
ghost use Rattle.std.specs.Prelude.{slice_get, slice_set};

use bit_words::NoMemory;
use bit_words::bits::Bits;
use bit_words::word::Word;
use bit_words::words::Words;
use std::alloc::Global;
use std::marker::Model;

/// A typed value as bits: a number is a word in two's complement, a truth value one bit. A list
/// and a text have a length without a sign and as many items as they may have at most, of which
/// those past the length aren't looked at. A text's items are characters, without a sign.
#[derive(Drop)]
pub enum SymValue<B: Copy> {
    Int(Word<B>),
    Bool(B),
    List { len: Bits<B>, items: Words<B> },
    Text { len: Bits<B>, items: Words<B> },
}

impl<B: Copy> SymValue<B> {
    /// An equal value.
    pub fn copy(&self) -> Result<SymValue<B>, NoMemory>
        ensures { IfOk result (λ r. r ≡ self.now) }
    {
        match self {
            SymValue::Int(word) => Ok(SymValue::Int(word.copy()?)),
            SymValue::Bool(bit) => Ok(SymValue::Bool(*bit)),
            SymValue::List { len, items } => {
                let len = len.copy()?;
                let items = items.copy()?;
                Ok(SymValue::List { len, items })
            }
            SymValue::Text { len, items } => {
                let len = len.copy()?;
                let items = items.copy()?;
                Ok(SymValue::Text { len, items })
            }
        }
    }
}

/// A value, or a fault where a bit says that there is one.
#[derive(Drop)]
pub struct SymOutcome<B: Copy> {
    pub value: SymValue<B>,
    /// Whether there is a fault; the value is then open.
    pub fault: B,
}

/// A list of values.
#[derive(Drop)]
pub struct SymValues<B: Copy> {
    values: Vec<SymValue<B>>,
}

impl<B: Copy> Model for SymValues<B> {
    ghost use Rattle.std.specs.Prelude.{List};
    ghost use Rattle.sym_values.specs.declared.value.SymValue.{SymValue as AnyValue};

    ghost Value = { List (AnyValue B) };

    ghost view = { λ v. v.values.items };
}

impl<B: Copy> SymValues<B> {
    /// The list of no values.
    pub fn new(alloc: Global) -> Self
        ensures { result ≡ [] }
    {
        SymValues {
            values: Vec::new(alloc),
        }
    }

    /// The list of these values.
    pub fn from_vec(values: Vec<SymValue<B>>) -> Self
        ensures { result ≡ values.items }
    {
        SymValues { values }
    }

    /// The values.
    pub fn into_vec(self) -> Vec<SymValue<B>>
        ensures { result.items ≡ self }
    {
        self.values
    }

    /// The number of values.
    pub fn len(&self) -> usize
        ensures { result ≡ length self.now }
    {
        self.values.len()
    }

    /// The value at a place.
    pub fn at(&self, i: usize) -> &SymValue<B>
        requires { i < length self.now }
        ensures { slice_get self.now i ≡ Some result.now }
    {
        &self.values[i]
    }

    /// Adds a value at the end. Where memory is wanting the list stays as it was.
    pub fn push(&mut self, value: SymValue<B>) -> Result<(), NoMemory>
        ensures ok { OnOk result (self.new ≡ self.old ++ value ∷ []) }
        ensures err { OnErr result (self.new ≡ self.old) }
    {
        self.values.push(value)?;
        Ok(())
    }

    /// Puts a value in the place of another.
    pub fn set(&mut self, i: usize, value: SymValue<B>)
        requires { i < length self.old }
        ensures { self.new ≡ slice_set self.old i value }
    {
        self.values[i] = value;
    }

    /// An equal list.
    pub fn copy(&self) -> Result<SymValues<B>, NoMemory>
        ensures { IfOk result (λ r. r ≡ self.now) }
    {
        let mut values = Vec::new(*self.values.allocator());
        for value in &self.values {
            values.push(value.copy()?)?;
        }
        Ok(SymValues { values })
    }
}
