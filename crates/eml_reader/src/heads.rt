//! What stands before the sides of a rule, and the sides.
ghost use Rattle.std.specs.Prelude.{◌≡◌, option_map};
ghost use Rattle.eml_reader.specs.RuleReading.{at_arrow, cost_at, head_of, headed, number_at};
ghost use Rattle.eml_reader.specs.HeadViews.{behind_seen, head_seen, sides_seen};

use crate::tokens::{is_mark, is_name, is_number, is_word};
use mpy_lexer::{Token, number_of};

/// A rule's name and cost, and the tokens of its sides.
#[derive(Clone, Copy)]
pub struct Head<'a> {
    pub name: &'a Token,
    pub cost: u32,
    pub sides: &'a [Token],
}

/// What stands before the sides of a rule, if the tokens begin so.
pub fn head_of(tokens: &[Token]) -> Option<Head<'_>>
    ensures { option_map head_seen result ≡ head_of tokens.now }
{
    match tokens {
        [rule, name, behind @ ..] => {
            if is_word(b"rule", rule) && is_name(name.kind) {
                headed(name, cost_at(behind))
            } else {
                None
            }
        }
        _ => None,
    }
}

fn headed<'a>(name: &'a Token, cost: Option<(u32, &'a [Token])>) -> Option<Head<'a>>
    ensures { option_map head_seen result ≡ option_map (headed name.now.text) (option_map
        behind_seen cost.entry) }
{
    match cost {
        None => None,
        Some((cost, sides)) => Some(Head { name, cost, sides }),
    }
}

// The cost behind a rule's name, and what stands behind the colon.
fn cost_at(tokens: &[Token]) -> Option<(u32, &[Token])>
    ensures { option_map behind_seen result ≡ cost_at tokens.now }
{
    match tokens {
        [] => None,
        [first, behind @ ..] => {
            if is_mark(b":", first) {
                Some((1, behind))
            } else if is_word(b"cost", first) {
                number_at(behind)
            } else {
                None
            }
        }
    }
}

// The number before a colon, and what stands behind it.
fn number_at(tokens: &[Token]) -> Option<(u32, &[Token])>
    ensures { option_map behind_seen result ≡ number_at tokens.now }
{
    match tokens {
        [number, colon, behind @ ..] => {
            if is_number(number.kind) && is_mark(b":", colon) {
                before(number_of(number.text.bytes()), behind)
            } else {
                None
            }
        }
        _ => None,
    }
}

fn before(number: Option<u32>, behind: &[Token]) -> Option<(u32, &[Token])>
    ensures { option_map behind_seen result ≡ option_map (λ n. (n, behind.now)) number }
{
    match number {
        None => None,
        Some(n) => Some((n, behind)),
    }
}

/// What stands before the first arrow, and what stands behind it.
pub fn at_arrow(tokens: &[Token]) -> Option<(&[Token], &[Token])>
    ensures { option_map sides_seen result ≡ at_arrow tokens.now }
{
    for (i, t) in tokens.iter().enumerate() {
        if is_mark(b"=>", t) {
            return Some((&tokens[..i], &tokens[i + 1..]));
        }
    }
    None
}
