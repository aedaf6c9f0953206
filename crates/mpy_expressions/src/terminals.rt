//! What the grammar sees of tokens.
ghost use Rattle.std.specs.Prelude.{◌≡◌, map, IfOk};
ghost use Rattle.std.specs.Char.{is_ascii_digit};
ghost use Rattle.std.specs.List.{list_all};
ghost use Rattle.mpy_expressions.specs.Terminals.{terminal_of, terminals, word_terminal, word_of};
ghost use Rattle.mpy_expressions.specs.Terminals.{number_terminal, text_terminal, is_numeral};

use crate::NoMemory;
use crate::words::{Word, word_of};
use mpy_lexer::{Kind, Token, literal_characters, number_of};
use mpy_tree::{Chars, Name};
use std::alloc::Global;

/// What the grammar sees of a token.
#[derive(Drop)]
pub enum Terminal<X> {
    /// a name that isn't reserved
    Name(Name),
    /// a number literal, by its value
    Number(u32),
    /// a text literal, by its characters
    Text(Chars),
    /// a mark or a reserved word
    Word(Word),
    /// what only some kinds of expression have, in the place of an expression
    Special(X),
    /// an operator of the level of `+`, which only some kinds of expression have
    Operator(X),
    /// a comparison, which only some kinds of expression have
    Comparator(X),
    /// a token that no expression and no line has
    Other,
}

fn are_digits(bytes: &[u8]) -> bool
    ensures { result ≡ list_all is_ascii_digit bytes.now }
{
    bytes.iter().all(|b| b.is_ascii_digit())
}

fn is_numeral(bytes: &[u8]) -> bool
    ensures { result ≡ is_numeral bytes.now }
{
    match bytes {
        [] => false,
        [first, rest @ ..] => are_digits(bytes) && (*first != b'0' || rest.is_empty()),
    }
}

fn word_terminal(bytes: &[u8]) -> Terminal<()>
    ensures { result ≡ word_terminal (word_of bytes.now) }
{
    match word_of(bytes) {
        None => Terminal::Other,
        Some(w) => Terminal::Word(w),
    }
}

fn number_terminal(bytes: &[u8]) -> Terminal<()>
    ensures { result ≡ number_terminal bytes.now }
{
    if !is_numeral(bytes) {
        return Terminal::Other;
    }
    match number_of(bytes) {
        None => Terminal::Other,
        Some(n) => Terminal::Number(n),
    }
}

fn text_terminal(alloc: Global, bytes: &[u8]) -> Result<Terminal<()>, NoMemory>
    ensures { IfOk result (λ t. t ≡ text_terminal bytes.now) }
{
    match literal_characters(alloc, bytes)? {
        None => Ok(Terminal::Other),
        Some(found) => Ok(Terminal::Text(Chars::from_vec(found))),
    }
}

fn terminal_of(alloc: Global, token: &Token) -> Result<Terminal<()>, NoMemory>
    ensures { IfOk result (λ t. t ≡ terminal_of token.now) }
{
    let bytes = token.text.bytes();
    match token.kind {
        Kind::Name => Ok(Terminal::Name(Name::from_vec(Vec::from_slice(alloc, bytes)?))),
        Kind::Reserved | Kind::Mark => Ok(word_terminal(bytes)),
        Kind::Number => Ok(number_terminal(bytes)),
        Kind::Text => text_terminal(alloc, bytes),
        Kind::Meta => Ok(Terminal::Other),
    }
}

/// What the grammar sees of tokens, in their order.
pub fn terminals_of(alloc: Global, tokens: &[Token]) -> Result<Vec<Terminal<()>>, NoMemory>
    ensures { IfOk result (λ r. r.items ≡ terminals tokens.now) }
{
    let mut seen = Vec::new(alloc);
    for token in tokens {
        seen.push(terminal_of(alloc, token)?)?;
    }
    Ok(seen)
}
