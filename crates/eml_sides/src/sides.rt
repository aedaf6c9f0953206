//! The sides of rules.
ghost use Rattle.std.specs.Prelude.{◌≡◌, option_map, IfOk};
ghost use Rattle.std.specs.List.{list_any};
ghost use Rattle.choice_tree.specs.RuleViews.{template_of};
ghost use Rattle.eml_sides.specs.Singles.{is_right_alone};
ghost use Rattle.eml_sides.specs.SideReading.{named, placed, front, is_ended, side_of, left_of};
ghost use Rattle.eml_sides.specs.SideReading.{right_of};
ghost use Rattle.eml_sides.specs.SideViews.{pattern_of, replacement_of};

use crate::NoMemory;
use crate::sights::rule_terminals;
use crate::singles::is_right_alone;
use choice_tree::{Mark, Meta, PExpr, Pattern, Place, Right};
use mpy_expressions::{Terminal, Word, expression};
use mpy_lexer::Token;
use mpy_tree::Level;
use std::alloc::Global;

// A place of a rule, and the terminals behind what names it.
type Front<'a> = (Place, &'a [Terminal<Mark>]);

// A place whose target is a metavariable for names.
fn named<'a>(m: Meta, place: Place, rest: &'a [Terminal<Mark>]) -> Option<Front<'a>>
    ensures { option_map (λ x. (x.0, x.1.now)) result ≡ named m place rest.now }
{
    if m.letter == b'v' {
        return Some((place, rest));
    }
    None
}

// The place that the front of a side names.
fn placed(ts: &[Terminal<Mark>]) -> Option<Front<'_>>
    ensures { option_map (λ x. (x.0, x.1.now)) result ≡ placed ts.now }
{
    match ts {
        [Terminal::Word(Word::Return), rest @ ..] => Some((Place::Return, rest)),
        [Terminal::Word(Word::If), rest @ ..] => Some((Place::If, rest)),
        [Terminal::Word(Word::While), rest @ ..] => Some((Place::While, rest)),
        [
            Terminal::Word(Word::For),
            Terminal::Special(Mark::Meta(m)),
            Terminal::Word(Word::In),
            rest @ ..,
        ] => named(*m, Place::For(*m), rest),
        [
            Terminal::Special(Mark::Meta(m)),
            Terminal::Word(Word::Assign),
            rest @ ..,
        ] => named(*m, Place::Assign(*m), rest),
        _ => None,
    }
}

fn front(ts: &[Terminal<Mark>]) -> Front<'_>
    ensures { (result.0, result.1.now) ≡ front ts.now }
{
    match placed(ts) {
        None => (Place::Anywhere, ts),
        Some(found) => found,
    }
}

// Whether a side ends so behind its expression.
fn is_ended(place: Place, rest: &[Terminal<Mark>]) -> bool
    ensures { result ≡ is_ended place rest.now }
{
    match place {
        Place::If | Place::While | Place::For(_) => {
            matches!(rest, [Terminal::Word(Word::Colon)])
        }
        _ => rest.is_empty(),
    }
}

// The side that all the terminals spell, if they spell one.
#[tactic(auto, unfolding(crate::specs::SideReading::side_of))]
fn side(alloc: Global, ts: &[Terminal<Mark>]) -> Result<Option<(Place, PExpr)>, NoMemory>
    ensures { IfOk result (λ r. option_map (λ x. (x.0, template_of x.1)) r ≡ side_of ts.now) }
{
    let (place, ts) = front(ts);
    let Some((term, rest)) = expression::<PExpr>(alloc, Level::Conditional, ts)? else {
        return Ok(None);
    };
    if is_ended(place, rest) {
        return Ok(Some((place, term)));
    }
    Ok(None)
}

fn are_right_alone(tokens: &[Token]) -> bool
    ensures { result ≡ list_any is_right_alone tokens.now }
{
    tokens.iter().any(|t| is_right_alone(t))
}

/// The left side that all the tokens spell, if they spell one: an expression with metavariables,
/// perhaps as a part of a statement.
///
/// Takes time linear in the number of tokens, and goes as deep as they nest brackets and operators.
#[tactic(auto, unfolding(crate::specs::SideReading::left_of))]
pub fn left_side(alloc: Global, tokens: &[Token]) -> Result<Option<Pattern>, NoMemory>
    ensures { IfOk result (λ r. option_map pattern_of r ≡ left_of tokens.now) }
{
    if are_right_alone(tokens) {
        return Ok(None);
    }
    let seen = rule_terminals(alloc, tokens)?;
    match side(alloc, &seen)? {
        None => Ok(None),
        Some((place, term)) => Ok(Some(Pattern { place, term })),
    }
}

/// The right side that all the tokens spell, if they spell one: as a left side, with sets, sets of
/// operators and `?` besides.
///
/// Takes time linear in the number of tokens, and goes as deep as they nest brackets and operators.
#[tactic(auto, unfolding(crate::specs::SideReading::right_of))]
pub fn right_side(alloc: Global, tokens: &[Token]) -> Result<Option<Right>, NoMemory>
    ensures { IfOk result (λ r. option_map replacement_of r ≡ right_of tokens.now) }
{
    let seen = rule_terminals(alloc, tokens)?;
    match side(alloc, &seen)? {
        None => Ok(None),
        Some((place, term)) => Ok(Some(Right { place, term })),
    }
}
