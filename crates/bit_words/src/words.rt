//! A list of words.

ghost use Rattle.std.specs.Prelude.{◌≡◌, ◌<◌, List, [], ◌∷◌, ◌++◌, length, Some, OnOk, OnErr, IfOk};
ghost use Rattle.std.specs.Prelude.{slice_get};

use crate::NoMemory;
use crate::word::Word;
use std::alloc::Global;
use std::marker::Model;

/// A list of words.
#[derive(Drop)]
pub struct Words<B: Copy> {
    words: Vec<Word<B>>,
}

impl<B: Copy> Model for Words<B> {
    ghost use Rattle.std.specs.Prelude.{List};

    ghost Value = { List (List B) };

    ghost view = { λ w. w.words.items };
}

impl<B: Copy> Words<B> {
    /// The list of no words.
    pub fn new(alloc: Global) -> Self
        ensures { result ≡ [] }
    {
        Words {
            words: Vec::new(alloc),
        }
    }

    /// The list of these words.
    pub fn from_vec(words: Vec<Word<B>>) -> Self
        ensures { result ≡ words.items }
    {
        Words { words }
    }

    /// The words.
    pub fn into_vec(self) -> Vec<Word<B>>
        ensures { result.items ≡ self }
    {
        self.words
    }

    /// The number of words.
    pub fn len(&self) -> usize
        ensures { result ≡ length self.now }
    {
        self.words.len()
    }

    /// The word at a place.
    pub fn at(&self, i: usize) -> &Word<B>
        requires { i < length self.now }
        ensures { slice_get self.now i ≡ Some result.now }
    {
        &self.words[i]
    }

    /// Adds a word at the end. Where memory is wanting the list stays as it was.
    pub fn push(&mut self, word: Word<B>) -> Result<(), NoMemory>
        ensures ok { OnOk result (self.new ≡ self.old ++ word ∷ []) }
        ensures err { OnErr result (self.new ≡ self.old) }
    {
        self.words.push(word)?;
        Ok(())
    }

    /// An equal list.
    pub fn copy(&self) -> Result<Words<B>, NoMemory>
        ensures { IfOk result (λ r. r ≡ self.now) }
    {
        let mut words = Vec::new(*self.words.allocator());
        for word in &self.words {
            words.push(word.copy()?)?;
        }
        Ok(Words { words })
    }
}
