//! Tokens, and lists of them.
ghost use Rattle.std.specs.Prelude.{◌≡◌, ◌<◌, ◌++◌, ◌∷◌, [], length, slice_get, Some, OnOk, OnErr};
ghost use Rattle.std.specs.Prelude.{IfOk};

use crate::NoMemory;
use crate::forms::Kind;
use std::alloc::Global;
use std::marker::Model;

/// The bytes of a token.
#[derive(Drop)]
pub struct Spelling {
    bytes: Vec<u8>,
}

impl Model for Spelling {
    ghost use Rattle.std.specs.Prelude.{ℕ, List};

    ghost Value = { List ℕ };

    ghost view = { λ s. s.bytes.items };
}

impl Spelling {
    /// The spelling that has these bytes.
    pub fn from_vec(bytes: Vec<u8>) -> Spelling
        ensures { result ≡ bytes.items }
    {
        Spelling { bytes }
    }

    /// The bytes.
    pub fn bytes(&self) -> &[u8]
        ensures { result.now ≡ self.now }
    {
        self.bytes.as_slice()
    }

    /// The bytes, given back.
    pub fn into_vec(self) -> Vec<u8>
        ensures { result.items ≡ self }
    {
        self.bytes
    }

    /// How many bytes there are.
    pub fn len(&self) -> usize
        ensures { result ≡ length self.now }
    {
        self.bytes.len()
    }

    /// An equal spelling.
    pub fn copy(&self) -> Result<Spelling, NoMemory>
        ensures { IfOk result (λ s. s ≡ self.now) }
    {
        let bytes = self.bytes.clone()?;
        Ok(Spelling { bytes })
    }
}

/// A token: what it is, and the bytes of the source from place `from` up to and without place `to`.
#[derive(Drop)]
pub struct Token {
    pub kind: Kind,
    pub from: u32,
    pub to: u32,
    pub text: Spelling,
}

impl Token {
    /// An equal token.
    pub fn copy(&self) -> Result<Token, NoMemory>
        ensures { IfOk result (λ t. t ≡ self.now) }
    {
        let text = self.text.copy()?;
        Ok(Token {
            kind: self.kind,
            from: self.from,
            to: self.to,
            text,
        })
    }
}

/// A list of tokens.
#[derive(Drop)]
pub struct Tokens {
    items: Vec<Token>,
}

impl Model for Tokens {
    ghost use Rattle.std.specs.Prelude.{List};
    ghost use Rattle.mpy_lexer.specs.declared.token.Token.{Token};

    ghost Value = { List Token };

    ghost view = { λ s. s.items.items };
}

impl Tokens {
    /// The list of no tokens.
    pub fn new(alloc: Global) -> Tokens
        ensures { result ≡ [] }
    {
        Tokens {
            items: Vec::new(alloc),
        }
    }

    /// The list that has these tokens.
    pub fn from_vec(items: Vec<Token>) -> Tokens
        ensures { result ≡ items.items }
    {
        Tokens { items }
    }

    /// The tokens.
    pub fn items(&self) -> &[Token]
        ensures { result.now ≡ self.now }
    {
        self.items.as_slice()
    }

    /// The tokens, given back.
    pub fn into_vec(self) -> Vec<Token>
        ensures { result.items ≡ self }
    {
        self.items
    }

    /// How many tokens there are.
    pub fn len(&self) -> usize
        ensures { result ≡ length self.now }
    {
        self.items.len()
    }

    /// The token at a place, counted from 0.
    pub fn at(&self, place: usize) -> &Token
        requires { place < length self.now }
        ensures { slice_get self.now place ≡ Some result.now }
    {
        &self.items[place]
    }

    /// Adds a token at the end. Where memory is wanting the list stays as it was.
    pub fn push(&mut self, token: Token) -> Result<(), NoMemory>
        ensures ok { OnOk result (self.new ≡ self.old ++ token ∷ []) }
        ensures err { OnErr result (self.new ≡ self.old) }
    {
        self.items.push(token)?;
        Ok(())
    }

    /// Adds the tokens of another list at the end. Where memory is wanting the list stays as it
    /// was.
    pub fn append(&mut self, other: Tokens) -> Result<(), NoMemory>
        ensures ok { OnOk result (self.new ≡ self.old ++ other) }
        ensures err { OnErr result (self.new ≡ self.old) }
    {
        let mut items = other.items;
        self.items.append(&mut items)?;
        Ok(())
    }
}
