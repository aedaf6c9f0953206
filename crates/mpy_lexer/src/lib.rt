//! The logical lines of programs and of rules, each with its tokens.
#![tactic(auto)]

mod brackets;
mod bytes;
mod foreign;
mod forms;
mod lexing;
mod line;
mod metavariables;
mod numbers;
mod pieces;
mod rows;
mod signs;
mod text_literals;
mod token;
mod words;

pub use bytes::is_name_byte;
pub use forms::{Form, Kind};
pub use lexing::{lines, lines_of_their_source, tokens_cover_their_source};
pub use line::{LexCause, LexError, Line};
pub use metavariables::{Metavariable, metavariable_of};
pub use numbers::number_of;
use std::alloc::AllocError;
pub use text_literals::literal_characters;
pub use token::{Spelling, Token, Tokens};
pub use words::{is_name, is_reserved};

/// Want of memory, where a call has no other refusal.
pub type NoMemory = AllocError;
