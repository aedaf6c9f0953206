//! What the grammar sees of the tokens of a side.
ghost use Rattle.std.specs.Prelude.{◌≡◌, option_map, IfOk};
ghost use Rattle.eml_sides.specs.RuleTerminals.{local_at, comparison_set, operator_set};
ghost use Rattle.eml_sides.specs.RuleTerminals.{terminal_at, rule_terminals};

use crate::NoMemory;
use crate::operator_sets::{ariths_at, comparisons_at};
use crate::singles::{is_mark, single};
use choice_tree::Mark;
use mpy_expressions::{Terminal, Word};
use mpy_lexer::Token;
use std::alloc::Global;

// What the grammar sees at the front of tokens, and the tokens behind it.
type Sight<'a> = (Terminal<Mark>, &'a [Token]);

// Behind a `?`.
fn local_at(alloc: Global, tokens: &[Token]) -> Result<Sight<'_>, NoMemory>
    ensures same { IfOk result (λ r. (r.0, r.1.now) ≡ local_at tokens.now) }
{
    let [first, rest @ ..] = tokens else {
        return Ok((Terminal::Other, tokens));
    };
    match single(alloc, first)? {
        Terminal::Special(Mark::Meta(m)) if !m.primed => {
            Ok((Terminal::Special(Mark::Local(m)), rest))
        }
        _ => Ok((Terminal::Other, tokens)),
    }
}

// Behind a brace that begins no set of operators of the level of `+`.
fn comparison_set(alloc: Global, tokens: &[Token]) -> Result<Sight<'_>, NoMemory>
    ensures same { IfOk result (λ r. (r.0, r.1.now) ≡ comparison_set tokens.now) }
{
    match comparisons_at(alloc, tokens)? {
        None => Ok((Terminal::Word(Word::LeftBrace), tokens)),
        Some((ops, rest)) => Ok((Terminal::Comparator(Mark::Comparisons(ops)), rest)),
    }
}

// Behind a brace.
fn operator_set(alloc: Global, tokens: &[Token]) -> Result<Sight<'_>, NoMemory>
    ensures same { IfOk result (λ r. (r.0, r.1.now) ≡ operator_set tokens.now) }
{
    match ariths_at(alloc, tokens)? {
        None => comparison_set(alloc, tokens),
        Some((ops, rest)) => Ok((Terminal::Operator(Mark::Ariths(ops)), rest)),
    }
}

// What the grammar sees at the front of the tokens, and the tokens behind it.
fn terminal_at(alloc: Global, tokens: &[Token]) -> Result<Option<Sight<'_>>, NoMemory>
    ensures same { IfOk result (λ r. option_map (λ x. (x.0, x.1.now)) r ≡ terminal_at tokens.now) }
{
    let [first, rest @ ..] = tokens else {
        return Ok(None);
    };
    if is_mark(first, b"?") {
        return Ok(Some(local_at(alloc, rest)?));
    }
    match single(alloc, first)? {
        Terminal::Word(Word::LeftBrace) => Ok(Some(operator_set(alloc, rest)?)),
        seen => Ok(Some((seen, rest))),
    }
}

/// What the grammar sees of the tokens of a side, in their order.
pub fn rule_terminals(alloc: Global, tokens: &[Token]) -> Result<Vec<Terminal<Mark>>, NoMemory>
    ensures { IfOk result (λ r. r.items ≡ rule_terminals tokens.now) }
{
    let mut seen = Vec::new(alloc);
    let mut rest = tokens;
    while let Some((terminal, behind)) = terminal_at(alloc, rest)? {
        seen.push(terminal)?;
        rest = behind;
    }
    Ok(seen)
}
