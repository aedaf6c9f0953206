//! Lists of literals as words.
ghost use Rattle.std.specs.Prelude.{◌≡◌, ◌++◌, ℕ, List, IfOk, MatchOption, OnOk};
ghost use Rattle.clause_base.specs.declared.lit.Lit.{Lit as AnyLit};
ghost use Rattle.step_lines.specs.LineForms.{list_end, literal_text, literals_text};
ghost use Rattle.step_lines.specs.Words.{SpellsLiteral, SpellsLiterals, SpellsVariable};
ghost use Rattle.clause_base.specs.Readings.{IsReading};

use crate::NoMemory;
use crate::numbers::{number, write_number};
use crate::words::{behind, next_word};
use clause_base::lit::Lit;
use clause_base::lits::Lits;
use std::alloc::Global;

// The literal of this sign and of one of the first `vars` variables.
fn signed(vars: u32, digits: &[u8], positive: bool) -> Option<Lit>
    ensures { IsReading (SpellsVariable vars digits.now positive) result }
{
    let var = number(digits)?;
    if var == 0 || var > vars {
        return None;
    }
    Some(Lit { var, positive })
}

/// The literal of one of the first `vars` variables that the word spells.
pub fn literal(vars: u32, word: &[u8]) -> Option<Lit>
    ensures { IsReading (SpellsLiteral vars word.now) result }
{
    match behind(word, b"-") {
        Some(digits) => signed(vars, digits, false),
        None => signed(vars, word, true),
    }
}

/// Literals, and what stands behind the end of their list.
#[derive(Drop)]
pub struct Literals<'a> {
    pub lits: Lits,
    pub behind: &'a [u8],
}

/// The literals of the first `vars` variables that the words spell, up to the word `0`.
pub fn read_literals(
    alloc: Global,
    vars: u32,
    text: &[u8],
) -> Result<Option<Literals<'_>>, NoMemory>
    ensures { IfOk result (λ o. MatchOption o
        ((lits : List AnyLit) (behind : List ℕ) → SpellsLiterals vars text.now lits behind → ⊥)
        (λ l. SpellsLiterals vars text.now l.lits l.behind.now)) }
{
    let mut lits = Lits::new(alloc);
    let mut rest = text;
    'words: loop {
        let Some(word) = next_word(rest) else {
            return Ok(None);
        };
        if word.piece == b"0".as_slice() {
            return Ok(Some(Literals {
                lits,
                behind: word.rest,
            }));
        }
        let Some(lit) = literal(vars, word.piece) else {
            return Ok(None);
        };
        lits.push(lit)?;
        rest = word.rest;
    }
}

fn write_literal(out: &mut Vec<u8>, l: Lit) -> Result<(), NoMemory>
    ensures { OnOk result (out.new.items ≡ out.old.items ++ literal_text l) }
{
    if !l.positive {
        out.push(b'-')?;
    }
    write_number(out, l.var)
}

/// Adds the words of literals and the end of their list.
pub fn write_literals(out: &mut Vec<u8>, lits: &[Lit]) -> Result<(), NoMemory>
    ensures { OnOk result (out.new.items ≡ out.old.items ++ (literals_text lits.now ++ list_end)) }
{
    for l in lits {
        out.push(b' ')?;
        write_literal(out, *l)?;
    }
    out.extend_from_slice(b" 0")?;
    Ok(())
}
