//! Simple statements, each of all terminals there are.
ghost use Rattle.std.specs.Prelude.{◌≡◌, Option, Some, None, option_map, IfOk};
ghost use Rattle.mpy_tree.specs.Syntax as ast;
ghost use Rattle.mpy_tree.specs.View.{term_of, action_of};
ghost use Rattle.mpy_parser.specs.Items.{augmented};
ghost use Rattle.mpy_parser.specs.ItemReading.{ended, whole, augmenting, augmented_at, assigned};
ghost use Rattle.mpy_parser.specs.ItemReading.{at_place, is_append, argument, appending, method};
ghost use Rattle.mpy_parser.specs.ItemReading.{called, behind_name, given_at, simple_at};

use crate::NoMemory;
use mpy_expressions::{Bracket, Terminal, Word, behind_closing, expression};
use mpy_tree::{Act, ArithOp, Expr, Level, Name};
use std::alloc::Global;

// The operator of an augmented assignment.
fn augmented(word: Word) -> Option<ArithOp>
    ensures { result ≡ augmented word }
{
    match word {
        Word::PlusAssign => Some(ArithOp::Add),
        Word::MinusAssign => Some(ArithOp::Sub),
        Word::StarAssign => Some(ArithOp::Mul),
        Word::DoubleSlashAssign => Some(ArithOp::Floor),
        Word::PercentAssign => Some(ArithOp::Rem),
        _ => None,
    }
}

// What was read, where nothing is left.
fn ended(act: Act, rest: &[Terminal<()>]) -> Option<Act>
    ensures { option_map action_of result ≡ ended (action_of act) rest.now }
{
    rest.is_empty().then_some(act)
}

// The expression that all terminals spell.
fn whole(alloc: Global, ts: &[Terminal<()>]) -> Result<Option<Expr>, NoMemory>
    ensures { IfOk result (λ r. option_map term_of r ≡ whole ts.now) }
{
    let Some((e, rest)) = expression::<Expr>(alloc, Level::Conditional, ts)? else {
        return Ok(None);
    };
    Ok(rest.is_empty().then_some(e))
}

// The operator and the right side of an augmented assignment.
fn augmenting(
    alloc: Global,
    word: Word,
    ts: &[Terminal<()>],
) -> Result<Option<(ArithOp, Expr)>, NoMemory>
    ensures { IfOk result (λ r. option_map (λ x. (x.0, term_of x.1)) r ≡ augmenting word ts.now) }
{
    let Some(op) = augmented(word) else {
        return Ok(None);
    };
    let Some(e) = whole(alloc, ts)? else {
        return Ok(None);
    };
    Ok(Some((op, e)))
}

// An augmented assignment, behind its target in brackets.
fn augmented_at(
    alloc: Global,
    name: Name,
    index: Expr,
    word: Word,
    ts: &[Terminal<()>],
) -> Result<Option<Act>, NoMemory>
    ensures { IfOk result
        (λ r. option_map action_of r ≡ augmented_at name (term_of index) word ts.now) }
{
    augmenting(alloc, word, ts).map(|found| found.map(|(op, e)| Act::AugmentAt(name, index, op, e)))
}

// An assignment, behind its target in brackets.
fn assigned(
    alloc: Global,
    name: Name,
    index: Expr,
    ts: &[Terminal<()>],
) -> Result<Option<Act>, NoMemory>
    ensures { IfOk result (λ r. option_map action_of r ≡ assigned name (term_of index) ts.now) }
{
    let [Terminal::Word(word), rest @ ..] = ts else {
        return Ok(None);
    };
    match word {
        Word::Assign => { whole(alloc, rest).map(|found| found.map(|e| Act::Put(name, index, e))) }
        _ => augmented_at(alloc, name, index, *word, rest),
    }
}

fn at_place(alloc: Global, name: &Name, ts: &[Terminal<()>]) -> Result<Option<Act>, NoMemory>
    ensures { IfOk result (λ r. option_map action_of r ≡ at_place name.now ts.now) }
{
    let name = name.copy()?;
    let Some((index, ts)) = expression::<Expr>(alloc, Level::Conditional, ts)? else {
        return Ok(None);
    };
    let Some(rest) = behind_closing(Bracket::Square, ts) else {
        return Ok(None);
    };
    assigned(alloc, name, index, rest)
}

// The expression that all terminals spell but the last, a closing parenthesis.
fn argument(alloc: Global, ts: &[Terminal<()>]) -> Result<Option<Expr>, NoMemory>
    ensures { IfOk result (λ r. option_map term_of r ≡ argument ts.now) }
{
    let Some((e, ts)) = expression::<Expr>(alloc, Level::Conditional, ts)? else {
        return Ok(None);
    };
    let Some(rest) = behind_closing(Bracket::Round, ts) else {
        return Ok(None);
    };
    Ok(rest.is_empty().then_some(e))
}

fn is_append(name: &Name) -> bool
    ensures { result ≡ is_append name.now }
{
    name.bytes() == b"append".as_slice()
}

fn appending(alloc: Global, name: &Name, ts: &[Terminal<()>]) -> Result<Option<Act>, NoMemory>
    ensures { IfOk result (λ r. option_map action_of r ≡ appending name.now ts.now) }
{
    let name = name.copy()?;
    let Some(e) = argument(alloc, ts)? else {
        return Ok(None);
    };
    Ok(Some(Act::Append(name, e)))
}

// The one method, behind its dot.
fn method(alloc: Global, name: &Name, ts: &[Terminal<()>]) -> Result<Option<Act>, NoMemory>
    ensures { IfOk result (λ r. option_map action_of r ≡ method name.now ts.now) }
{
    match ts {
        [
            Terminal::Name(attribute),
            Terminal::Word(Word::LeftParen),
            rest @ ..,
        ] => {
            if is_append(attribute) {
                appending(alloc, name, rest)
            } else {
                Ok(None)
            }
        }
        _ => Ok(None),
    }
}

// The statement `print(e)`, behind a name and its parenthesis.
fn called(alloc: Global, name: &Name, ts: &[Terminal<()>]) -> Result<Option<Act>, NoMemory>
    ensures { IfOk result (λ r. option_map action_of r ≡ called name.now ts.now) }
{
    if !name.is_print() {
        return Ok(None);
    }
    let Some(e) = argument(alloc, ts)? else {
        return Ok(None);
    };
    Ok(Some(Act::Print(e)))
}

fn behind_name(
    alloc: Global,
    name: &Name,
    word: Word,
    ts: &[Terminal<()>],
) -> Result<Option<Act>, NoMemory>
    ensures { IfOk result (λ r. option_map action_of r ≡ behind_name name.now word ts.now) }
{
    match word {
        Word::Assign => {
            let name = name.copy()?;
            let Some(e) = whole(alloc, ts)? else {
                return Ok(None);
            };
            Ok(Some(Act::Assign(name, e)))
        }
        Word::LeftBracket => at_place(alloc, name, ts),
        Word::Dot => method(alloc, name, ts),
        Word::LeftParen => called(alloc, name, ts),
        _ => {
            let name = name.copy()?;
            let Some((op, e)) = augmenting(alloc, word, ts)? else {
                return Ok(None);
            };
            Ok(Some(Act::Augment(name, op, e)))
        }
    }
}

fn given(alloc: Global, ts: &[Terminal<()>]) -> Result<Option<Act>, NoMemory>
    ensures { IfOk result (λ r. option_map action_of r ≡ given_at ts.now) }
{
    if ts.is_empty() {
        return Ok(Some(Act::Return(None)));
    }
    match whole(alloc, ts)? {
        None => Ok(None),
        Some(e) => Ok(Some(Act::Return(Some(e)))),
    }
}

/// The simple statement that all terminals spell, if they spell one.
pub(crate) fn simple(alloc: Global, ts: &[Terminal<()>]) -> Result<Option<Act>, NoMemory>
    ensures { IfOk result (λ r. option_map action_of r ≡ simple_at ts.now) }
{
    match ts {
        [Terminal::Word(Word::Pass), rest @ ..] => Ok(ended(Act::Pass, rest)),
        [Terminal::Word(Word::Break), rest @ ..] => Ok(ended(Act::Break, rest)),
        [Terminal::Word(Word::Continue), rest @ ..] => Ok(ended(Act::Continue, rest)),
        [Terminal::Word(Word::Return), rest @ ..] => given(alloc, rest),
        [Terminal::Name(name), Terminal::Word(word), rest @ ..] => {
            behind_name(alloc, name, *word, rest)
        }
        _ => Ok(None),
    }
}
