//! The items of a bounds file, one a line.
ghost use Rattle.std.specs.Prelude.{◌≡◌, option_map, IfOk, codes};
ghost use Rattle.bounds_reader.specs.Reading.{number_line, entry_line, int_form, list_form};
ghost use Rattle.bounds_reader.specs.Reading.{text_form};
ghost use Rattle.bounds_reader.specs.Reading.{at_end, form_behind, form_at, param_name, param_line};
ghost use Rattle.bounds_reader.specs.Reading.{compare_line, compare_or_param, item_at};
ghost use Rattle.bounds_reader.specs.Forms.{bool};
ghost use Rattle.bounds_reader.specs.Items.{entry, behind};
ghost use Rattle.bounds_reader.specs.Views.{form_view, named_view, item_view};

use crate::NoMemory;
use crate::place::Place;
use crate::words::{
    behind_word, carries_nothing, literal_word_at, name_at, number_at, plain_at, span_at,
};
use mpy_tree::{Chars, Name};
use std::alloc::Global;

/// What the line of a parameter says of its values.
#[derive(Drop)]
pub(crate) enum Form {
    Int {
        low: i32,
        high: i32,
    },
    Bool,
    List {
        least: i32,
        most: i32,
        low: i32,
        high: i32,
    },
    Text {
        least: i32,
        most: i32,
        alphabet: Chars,
    },
}

/// A parameter's name and the form of its values.
#[derive(Drop)]
pub(crate) struct Named {
    pub(crate) name: Name,
    pub(crate) form: Form,
}

/// What a line says.
#[derive(Drop)]
pub(crate) enum Item {
    Width(i32),
    Turns(i32),
    Depth(i32),
    Cap(i32),
    Entry(Name),
    Param(Named),
    Compare(i32),
}

impl Item {
    /// The place behind it.
    pub(crate) fn behind(&self) -> Place
        ensures { result ≡ behind (item_view self.now) }
    {
        match self {
            Item::Width(_) => Place::Turns,
            Item::Turns(_) => Place::Depth,
            Item::Depth(_) => Place::Cap,
            Item::Cap(_) => Place::Entry,
            Item::Entry(_) => Place::Param,
            Item::Param(_) => Place::Param,
            Item::Compare(_) => Place::End,
        }
    }
}

// The number behind the word, if the line has nothing else.
#[tactic(auto, unfolding(crate::specs::Reading::number_line))]
fn number_line(word: &[u8], line: &[u8]) -> Option<i32>
    ensures { result ≡ number_line word.now line.now }
{
    let (number, rest) = number_at(behind_word(word, line)?)?;
    carries_nothing(rest).then_some(number)
}

#[tactic(auto, unfolding(crate::specs::Reading::entry_line))]
fn entry_line(line: &[u8]) -> Option<&[u8]>
    ensures { option_map (λ x. x.now) result ≡ entry_line line.now }
{
    let (name, rest) = name_at(behind_word(b"entry", line)?)?;
    if carries_nothing(rest) {
        Some(name)
    } else {
        None
    }
}

#[tactic(auto, unfolding(crate::specs::Reading::int_form))]
fn int_form(line: &[u8]) -> Option<Form>
    ensures { option_map form_view result ≡ int_form line.now }
{
    let (low, high, rest) = span_at(line)?;
    if carries_nothing(rest) {
        Some(Form::Int { low, high })
    } else {
        None
    }
}

#[tactic(auto, unfolding(crate::specs::Reading::list_form))]
fn list_form(line: &[u8]) -> Option<Form>
    ensures { option_map form_view result ≡ list_form line.now }
{
    let (least, most, rest) = span_at(line)?;
    let (low, high, rest) = span_at(behind_word(b"of", rest)?)?;
    if carries_nothing(rest) {
        Some(Form::List {
            least,
            most,
            low,
            high,
        })
    } else {
        None
    }
}

#[tactic(auto, unfolding(crate::specs::Reading::text_form))]
fn text_form(alloc: Global, line: &[u8]) -> Result<Option<Form>, NoMemory>
    ensures { IfOk result (λ o. option_map form_view o ≡ text_form line.now) }
{
    let Some((least, most, rest)) = span_at(line) else {
        return Ok(None);
    };
    let Some(rest) = behind_word(b"of", rest) else {
        return Ok(None);
    };
    let Some((alphabet, rest)) = literal_word_at(alloc, rest)? else {
        return Ok(None);
    };
    if carries_nothing(rest) {
        Ok(Some(Form::Text {
            least,
            most,
            alphabet,
        }))
    } else {
        Ok(None)
    }
}

fn bool_form(line: &[u8]) -> Option<Form>
    ensures { option_map form_view result ≡ at_end bool line.now }
{
    if carries_nothing(line) {
        Some(Form::Bool)
    } else {
        None
    }
}

// The form whose first word was read.
fn form_behind(alloc: Global, word: &[u8], rest: &[u8]) -> Result<Option<Form>, NoMemory>
    ensures { IfOk result (λ o. option_map form_view o ≡ form_behind word.now rest.now) }
{
    match word {
        b"int" => Ok(int_form(rest)),
        b"bool" => Ok(bool_form(rest)),
        b"list" => Ok(list_form(rest)),
        b"text" => text_form(alloc, rest),
        _ => Ok(None),
    }
}

#[tactic(auto, unfolding(crate::specs::Reading::form_at))]
fn form_at(alloc: Global, line: &[u8]) -> Result<Option<Form>, NoMemory>
    ensures { IfOk result (λ o. option_map form_view o ≡ form_at line.now) }
{
    match plain_at(line) {
        None => Ok(None),
        Some((word, rest)) => form_behind(alloc, word, rest),
    }
}

// The name and what stands behind it on the line of a parameter.
#[tactic(auto, unfolding(crate::specs::Reading::param_name))]
fn param_name(line: &[u8]) -> Option<(&[u8], &[u8])>
    ensures { option_map (λ x. (x.0.now, x.1.now)) result ≡ param_name line.now }
{
    name_at(behind_word(b"param", line)?)
}

#[tactic(auto, unfolding(crate::specs::Reading::param_line))]
fn param_line(alloc: Global, line: &[u8]) -> Result<Option<Named>, NoMemory>
    ensures { IfOk result (λ o. option_map named_view o ≡ param_line line.now) }
{
    let Some((word, rest)) = param_name(line) else {
        return Ok(None);
    };
    let name = Name::from_vec(Vec::from_slice(alloc, word)?);
    let form = form_at(alloc, rest)?;
    Ok(form.map(|form| Named { name, form }))
}

fn entry_item(alloc: Global, line: &[u8]) -> Result<Option<Item>, NoMemory>
    ensures { IfOk result (λ o. option_map item_view o ≡ option_map entry (entry_line line.now)) }
{
    match entry_line(line) {
        None => Ok(None),
        Some(word) => Ok(Some(Item::Entry(Name::from_vec(Vec::from_slice(alloc, word)?)))),
    }
}

// How many printed values are compared.
#[tactic(auto, unfolding(crate::specs::Reading::compare_line))]
fn compare_line(line: &[u8]) -> Option<i32>
    ensures { result ≡ compare_line line.now }
{
    number_line(b"printed", behind_word(b"compare", line)?)
}

// How many printed values are compared, or else a parameter.
fn compare_or_param(alloc: Global, line: &[u8]) -> Result<Option<Item>, NoMemory>
    ensures { IfOk result (λ o. option_map item_view o
        ≡ compare_or_param (compare_line line.now) line.now) }
{
    match compare_line(line) {
        Some(number) => Ok(Some(Item::Compare(number))),
        None => Ok(param_line(alloc, line)?.map(Item::Param)),
    }
}

/// The item that the line spells at the place, if it spells one.
#[tactic(auto, unfolding(crate::specs::Reading::item_at))]
pub(crate) fn item_at(alloc: Global, place: Place, line: &[u8]) -> Result<Option<Item>, NoMemory>
    ensures { IfOk result (λ o. option_map item_view o ≡ item_at place line.now) }
{
    match place {
        Place::Width => Ok(number_line(b"width", line).map(Item::Width)),
        Place::Turns => Ok(number_line(b"turns", line).map(Item::Turns)),
        Place::Depth => Ok(number_line(b"depth", line).map(Item::Depth)),
        Place::Cap => Ok(number_line(b"cap", line).map(Item::Cap)),
        Place::Entry => entry_item(alloc, line),
        Place::Param => compare_or_param(alloc, line),
        Place::End => Ok(None),
    }
}
