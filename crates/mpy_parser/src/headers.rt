//! Headers, up to their colon.
ghost use Rattle.std.specs.Prelude.{◌≡◌, ◌<◌, Option, Some, None, option_map, IfOk, length};
ghost use Rattle.mpy_parser.specs.ItemReading.{names_at, parameters_at, function_at, each_at};
ghost use Rattle.mpy_parser.specs.ItemReading.{tested_at, header_at};
ghost use Rattle.mpy_parser.specs.Views.{opening_of};

use crate::NoMemory;
use crate::items::Header;
use mpy_expressions::{Terminal, Word, expression};
use mpy_tree::{Expr, Level, Name, Names};
use std::alloc::Global;

// Names joined by commas, and the closing parenthesis.
fn names(alloc: Global, ts: &[Terminal<()>]) -> Result<Option<(Names, &[Terminal<()>])>, NoMemory>
    ensures { IfOk result (λ r. option_map (λ x. (x.0, x.1.now)) r ≡ names_at ts.now) }
{
    let mut found = Vec::new(alloc);
    let mut rest = ts;
    while let [Terminal::Name(name), Terminal::Word(word), behind @ ..] = rest {
        found.push(name.copy()?)?;
        match word {
            Word::RightParen => return Ok(Some((Names::from_vec(found), behind))),
            Word::Comma => rest = behind,
            _ => return Ok(None),
        }
    }
    Ok(None)
}

fn parameters(
    alloc: Global,
    ts: &[Terminal<()>],
) -> Result<Option<(Names, &[Terminal<()>])>, NoMemory>
    ensures { IfOk result (λ r. option_map (λ x. (x.0, x.1.now)) r ≡ parameters_at ts.now) }
{
    match ts {
        [Terminal::Word(Word::RightParen), rest @ ..] => {
            Ok(Some((Names::from_vec(Vec::new(alloc)), rest)))
        }
        _ => names(alloc, ts),
    }
}

fn function(
    alloc: Global,
    ts: &[Terminal<()>],
) -> Result<Option<(Header, &[Terminal<()>])>, NoMemory>
    ensures { IfOk result
        (λ r. option_map (λ x. (opening_of x.0, x.1.now)) r ≡ function_at ts.now) }
{
    let [
        Terminal::Name(name),
        Terminal::Word(Word::LeftParen),
        ts @ ..,
    ] = ts
    else {
        return Ok(None);
    };
    let Some((params, rest)) = parameters(alloc, ts)? else {
        return Ok(None);
    };
    Ok(Some((Header::Def(name.copy()?, params), rest)))
}

fn each(alloc: Global, ts: &[Terminal<()>]) -> Result<Option<(Header, &[Terminal<()>])>, NoMemory>
    ensures { IfOk result (λ r. option_map (λ x. (opening_of x.0, x.1.now)) r ≡ each_at ts.now) }
{
    let [Terminal::Name(name), Terminal::Word(Word::In), ts @ ..] = ts else {
        return Ok(None);
    };
    let name = name.copy()?;
    let Some((e, rest)) = expression::<Expr>(alloc, Level::Conditional, ts)? else {
        return Ok(None);
    };
    Ok(Some((Header::For(name, e), rest)))
}

// The header of a test, behind its word.
fn tested(
    alloc: Global,
    word: Word,
    ts: &[Terminal<()>],
) -> Result<Option<(Header, &[Terminal<()>])>, NoMemory>
    ensures { IfOk result
        (λ r. option_map (λ x. (opening_of x.0, x.1.now)) r ≡ tested_at word ts.now) }
{
    let Some((e, rest)) = expression::<Expr>(alloc, Level::Conditional, ts)? else {
        return Ok(None);
    };
    match word {
        Word::If => Ok(Some((Header::If(e), rest))),
        Word::Elif => Ok(Some((Header::Elif(e), rest))),
        _ => Ok(Some((Header::While(e), rest))),
    }
}

/// The header at the front up to its colon, and what stands behind it.
pub(crate) fn header(
    alloc: Global,
    ts: &[Terminal<()>],
) -> Result<Option<(Header, &[Terminal<()>])>, NoMemory>
    ensures { IfOk result (λ r. option_map (λ x. (opening_of x.0, x.1.now)) r ≡ header_at ts.now) }
{
    let [Terminal::Word(word), ts @ ..] = ts else {
        return Ok(None);
    };
    match word {
        Word::Def => function(alloc, ts),
        Word::For => each(alloc, ts),
        Word::Else => Ok(Some((Header::Else, ts))),
        Word::If | Word::Elif | Word::While => tested(alloc, *word, ts),
        _ => Ok(None),
    }
}
