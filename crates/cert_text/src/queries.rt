//! The lines of questions.
ghost use Rattle.std.specs.Prelude.{◌≡◌, ◌≤◌, ◌∷◌, ◌++◌, [], IfOk, IfSome, OnOk};
ghost use Rattle.std.specs.Fmt.{decimal};
ghost use Rattle.cert_text.specs.Drafts.{SpellsQuery};
ghost use Rattle.clause_base.specs.Readings.{IsReading};
ghost use Rattle.step_lines.specs.Lines.{spaced};
ghost use Rattle.cert_text.specs.LineForms.{most_text, query_line};
ghost use Rattle.cert_text.specs.Words.{AsksFail, AsksLow, SpellsLow, SpellsMost};

use crate::NoMemory;
use crate::choices::{choices, write_choices};
use crate::claims::GREATEST_COST;
use input_space::Query;
use std::alloc::Global;
use step_lines::numbers::{number, number_within, write_number};
use step_lines::words::{behind, next_word};

// The greatest cost that is asked for, if there is one.
fn most(word: &[u8]) -> Option<Option<u32>>
    ensures { IsReading (SpellsMost word.now) result }
{
    if word == b"any".as_slice() {
        return Some(None);
    }
    let bound = number_within(word, 0, GREATEST_COST)?;
    Some(Some(bound))
}

// A bound of the cost and a number of cases.
#[derive(Clone, Copy)]
struct Low {
    most: Option<u32>,
    cases: u32,
}

// The bound and the number, of at most `count`, that the words spell.
fn read_low(text: &[u8], count: usize) -> Option<Low>
    ensures { IsReading (λ l. SpellsLow count text.now l.most l.cases) result }
{
    let first = next_word(text)?;
    let second = next_word(first.rest)?;
    if !second.rest.is_empty() {
        return None;
    }
    let most = most(first.piece)?;
    let cases = number(second.piece)?;
    if cases as usize > count {
        return None;
    }
    Some(Low { most, cases })
}

fn low_query(text: &[u8], count: usize) -> Option<Query>
    ensures { IsReading (AsksLow count text.now) result }
{
    let low = read_low(text, count)?;
    Some(Query::Low {
        most: low.most,
        cases: low.cases,
    })
}

fn fail_query(alloc: Global, text: &[u8]) -> Result<Option<Query>, NoMemory>
    ensures { IfOk result (λ o. IsReading (AsksFail text.now) o) }
{
    match choices(alloc, text)? {
        Some(selection) => Ok(Some(Query::Fail(selection))),
        None => Ok(None),
    }
}

/// The question that the line spells, where there are so many cases.
pub(crate) fn read_query(
    alloc: Global,
    line: &[u8],
    count: usize,
) -> Result<Option<Query>, NoMemory>
    ensures { IfOk result (λ o. IsReading (SpellsQuery count line.now) o) }
{
    if line == b"session first".as_slice() {
        return Ok(Some(Query::First));
    }
    if let Some(text) = behind(line, b"session low") {
        return Ok(low_query(text, count));
    }
    match behind(line, b"session fail") {
        Some(text) => fail_query(alloc, text),
        None => Ok(None),
    }
}

fn write_most(out: &mut Vec<u8>, most: Option<u32>) -> Result<(), NoMemory>
    ensures { OnOk result (out.new.items ≡ out.old.items ++ most_text most) }
{
    match most {
        Some(k) => write_number(out, k),
        None => {
            out.extend_from_slice(b"any")?;
            Ok(())
        }
    }
}

fn write_low(out: &mut Vec<u8>, most: Option<u32>, cases: u32) -> Result<(), NoMemory>
    ensures { OnOk result
        (out.new.items ≡ out.old.items ++ spaced (most_text most ∷ decimal cases ∷ [])) }
{
    out.push(b' ')?;
    write_most(out, most)?;
    out.push(b' ')?;
    write_number(out, cases)
}

fn write_question(out: &mut Vec<u8>, q: &Query) -> Result<(), NoMemory>
    ensures { OnOk result (out.new.items ≡ out.old.items ++ query_line q.now) }
{
    match q {
        Query::First => {
            out.extend_from_slice(b"session first")?;
            Ok(())
        }
        Query::Low { most, cases } => {
            out.extend_from_slice(b"session low")?;
            write_low(out, *most, *cases)?;
            Ok(())
        }
        Query::Fail(selection) => {
            out.extend_from_slice(b"session fail")?;
            write_choices(out, selection.items())?;
            Ok(())
        }
    }
}

/// Adds the line of a question.
pub(crate) fn write_query(out: &mut Vec<u8>, q: &Query) -> Result<(), NoMemory>
    ensures { OnOk result (out.new.items ≡ out.old.items ++ (query_line q.now ++ 10 ∷ [])) }
{
    write_question(out, q)?;
    out.push(b'\n')?;
    Ok(())
}
