//! Selections as words.
ghost use Rattle.std.specs.Prelude.{◌≡◌, ◌++◌, IfOk, OnOk};
ghost use Rattle.cert_text.specs.LineForms.{choice_text, choices_text};
ghost use Rattle.cert_text.specs.Words.{SpellsChoice, SpellsChoices};
ghost use Rattle.clause_base.specs.Readings.{IsReading};

use crate::NoMemory;
use choice_tree::{Choice, Selection};
use std::alloc::Global;
use step_lines::numbers::{number, write_number};
use step_lines::words::{behind, cut_at, next_word};

// The pick and the member that the word spells.
fn choice(word: &[u8]) -> Option<Choice>
    ensures { IsReading (SpellsChoice word.now) result }
{
    let cut = cut_at(word, b':');
    let pick = number(cut.piece)?;
    let digits = behind(cut.rest, b":")?;
    let member = number(digits)?;
    if member == 0 {
        return None;
    }
    Some(Choice { pick, member })
}

/// The selection that the words spell.
pub(crate) fn choices(alloc: Global, text: &[u8]) -> Result<Option<Selection>, NoMemory>
    ensures { IfOk result (λ o. IsReading (SpellsChoices text.now) o) }
{
    let mut found = Vec::new(alloc);
    let mut least = 0u64;
    let mut rest = text;
    'words: loop {
        if rest.is_empty() {
            return Ok(Some(Selection::from_vec(found)));
        }
        let Some(word) = next_word(rest) else {
            return Ok(None);
        };
        let Some(next) = choice(word.piece) else {
            return Ok(None);
        };
        if u64::from(next.pick) < least {
            return Ok(None);
        }
        found.push(next)?;
        least = u64::from(next.pick) + 1;
        rest = word.rest;
    }
}

fn write_choice(out: &mut Vec<u8>, c: Choice) -> Result<(), NoMemory>
    ensures { OnOk result (out.new.items ≡ out.old.items ++ choice_text c) }
{
    write_number(out, c.pick)?;
    out.push(b':')?;
    write_number(out, c.member)
}

/// Adds the words of a selection.
pub(crate) fn write_choices(out: &mut Vec<u8>, choices: &[Choice]) -> Result<(), NoMemory>
    ensures { OnOk result (out.new.items ≡ out.old.items ++ choices_text choices.now) }
{
    for c in choices {
        out.push(b' ')?;
        write_choice(out, *c)?;
    }
    Ok(())
}
