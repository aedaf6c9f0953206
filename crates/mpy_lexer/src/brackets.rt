//! The brackets that are open at a place.
ghost use Rattle.std.specs.Prelude.{◌≡◌, ◌||◌, [], map, OnOk, IfOk, length};
ghost use Rattle.mpy_lexer.specs.Brackets.{first_of_mark, mark_of, is_opening, is_closing};
ghost use Rattle.mpy_lexer.specs.Brackets.{are_partners, is_empty, closes, open_behind, open_after};
ghost use Rattle.mpy_lexer.specs.Brackets.{has_unmatched};
ghost use Rattle.mpy_tree.specs.Leasts.{lesser, least};

use crate::NoMemory;
use crate::forms::Kind;
use crate::token::Token;
use std::alloc::Global;
use std::marker::Model;

/// An open bracket, and its physical line.
#[derive(Clone, Copy, Drop)]
pub(crate) struct Bracket {
    pub(crate) mark: u8,
    pub(crate) line: u32,
}

/// The open brackets, seen as a list with the innermost first.
#[derive(Drop)]
pub(crate) struct Brackets {
    items: Vec<Bracket>,
}

impl Model for Brackets {
    ghost use Rattle.std.specs.Prelude.{List, reverse};
    ghost use Rattle.mpy_lexer.specs.declared.brackets.Bracket.{Bracket};

    ghost Value = { List Bracket };

    ghost view = { λ s. reverse s.items.items };
}

// The first byte of a mark, and 0 for another token.
fn mark_of(token: &Token) -> u8
    ensures { result ≡ mark_of token.now }
{
    match (token.kind, token.text.bytes()) {
        (Kind::Mark, [first, ..]) => *first,
        _ => 0,
    }
}

fn is_opening(mark: u8) -> bool
    ensures { result ≡ is_opening mark }
{
    mark == b'(' || mark == b'[' || mark == b'{'
}

fn is_closing(mark: u8) -> bool
    ensures { result ≡ is_closing mark }
{
    mark == b')' || mark == b']' || mark == b'}'
}

fn are_partners(opening: u8, mark: u8) -> bool
    ensures { result ≡ are_partners opening mark }
{
    match opening {
        b'(' => mark == b')',
        b'[' => mark == b']',
        b'{' => mark == b'}',
        _ => false,
    }
}

// The lesser of two numbers, the first of which may be missing.
pub(crate) fn lesser(a: Option<u32>, b: u32) -> Option<u32>
    ensures { result ≡ lesser a (Some b) }
{
    match a {
        None => Some(b),
        Some(a) => Some(a.min(b)),
    }
}

impl Brackets {
    /// No open brackets.
    pub(crate) fn new(alloc: Global) -> Brackets
        ensures { result ≡ [] }
    {
        Brackets {
            items: Vec::new(alloc),
        }
    }

    /// Whether no bracket is open.
    pub(crate) fn is_empty(&self) -> bool
        ensures { result ≡ is_empty self.now }
    {
        self.items.is_empty()
    }

    // Whether the mark closes the innermost bracket.
    fn closes(&self, mark: u8) -> bool
        ensures { result ≡ closes self.now mark }
    {
        match self.items.last() {
            None => false,
            Some(bracket) => are_partners(bracket.mark, mark),
        }
    }

    // Goes past a mark on a line.
    fn meet(&mut self, line: u32, mark: u8) -> Result<(), NoMemory>
        ensures { OnOk result (self.new ≡ open_behind line self.old mark) }
    {
        if is_opening(mark) {
            self.items.push(Bracket { mark, line })?;
        } else if self.closes(mark) {
            self.items.pop();
        }
        Ok(())
    }

    /// Goes past the tokens of a line. Says whether a closing bracket among them closes nothing.
    #[tactic(auto, unfolding(crate::specs::Brackets::open_after, crate::specs::Brackets::has_unmatched))]
    pub(crate) fn pass(&mut self, line: u32, tokens: &[Token]) -> Result<bool, NoMemory>
        ensures opened { OnOk result (self.new ≡ open_after line self.old tokens.now) }
        ensures unmatched { IfOk result (λ u. u ≡ has_unmatched line self.old tokens.now) }
    {
        let mut unmatched = false;
        for token in tokens {
            let mark = mark_of(token);
            unmatched = unmatched || (is_closing(mark) && !self.closes(mark));
            self.meet(line, mark)?;
        }
        Ok(unmatched)
    }

    /// The least line with an open bracket.
    pub(crate) fn least_line(self) -> Option<u32>
        ensures { result ≡ least (map (λ b. b.line) self) }
    {
        let mut items = self.items;
        let mut line = None;
        while let Some(bracket) = items.pop() {
            line = lesser(line, bracket.line);
        }
        line
    }
}
