//! Logical lines, and why a text has none.
ghost use Rattle.std.specs.Prelude.{◌≡◌};
ghost use Rattle.mpy_lexer.specs.declared.line.LexError.TheVariants as lex_error;

use crate::token::Tokens;
use std::alloc::AllocError;

/// A logical line.
#[derive(Drop)]
pub struct Line {
    /// The number of the physical line on which it begins, counted from 1.
    pub line: u32,
    /// How many spaces stand before its first token.
    pub column: u32,
    /// Its tokens, at least one.
    pub tokens: Tokens,
}

/// Why a text has no logical lines.
#[derive(Clone, Copy, PartialEq, Eq, Debug, Drop)]
pub enum LexCause {
    /// A byte that stands nowhere outside comments.
    Byte,
    /// A tab in the white space at the front of a physical line of a program.
    Tab,
    /// What is no token, or a bracket without its partner.
    Token,
    /// A logical line of more than 400 tokens.
    LongLine,
}

/// What is answered in place of the logical lines.
#[derive(Clone, Copy, PartialEq, Eq, Debug, Drop)]
pub enum LexError {
    /// The first cause that stands in the text, and the physical line, counted from 1.
    Fault { cause: LexCause, line: u32 },
    /// There was no memory.
    NoMemory,
}

impl From<AllocError> for LexError {
    ghost from_gives = { λ _ e. e ≡ lex_error.NoMemory };

    fn from(_error: AllocError) -> LexError {
        LexError::NoMemory
    }
}
