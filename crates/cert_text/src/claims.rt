//! The lines of a claim and of its selection.
ghost use Rattle.std.specs.Prelude.{◌≡◌, ◌∷◌, ◌++◌, [], IfOk, OnOk};
ghost use Rattle.cert_text.specs.Drafts.{SpellsClaim, SpellsSelection};
ghost use Rattle.cert_text.specs.LineForms.{claim_line, selection_line};
ghost use Rattle.clause_base.specs.Readings.{IsReading};

use crate::NoMemory;
use crate::cert::Claim;
use crate::choices::{choices, write_choices};
use choice_tree::{Choice, Selection};
use std::alloc::Global;
use step_lines::numbers::{number_within, write_number};
use step_lines::words::behind;

/// The greatest cost that is claimed or asked for.
pub(crate) const GREATEST_COST: u32 = 4096;

const GREATEST_BUDGET: u32 = 200_000;

/// The claim that the line spells.
pub(crate) fn read_claim(line: &[u8]) -> Option<Claim>
    ensures { IsReading (SpellsClaim line.now) result }
{
    if line == b"claim none".as_slice() {
        return Some(Claim::Nothing);
    }
    if let Some(text) = behind(line, b"claim cost ") {
        let cost = number_within(text, 0, GREATEST_COST)?;
        return Some(Claim::Cost(cost));
    }
    let text = behind(line, b"claim spent ")?;
    let budget = number_within(text, 1, GREATEST_BUDGET)?;
    Some(Claim::Spent(budget))
}

/// The selection that the line spells.
pub(crate) fn read_selection(alloc: Global, line: &[u8]) -> Result<Option<Selection>, NoMemory>
    ensures { IfOk result (λ o. IsReading (SpellsSelection line.now) o) }
{
    match behind(line, b"selection") {
        Some(text) => choices(alloc, text),
        None => Ok(None),
    }
}

/// Adds the line of a claim.
pub(crate) fn write_claim(out: &mut Vec<u8>, claim: Claim) -> Result<(), NoMemory>
    ensures { OnOk result (out.new.items ≡ out.old.items ++ (claim_line claim ++ 10 ∷ [])) }
{
    match claim {
        Claim::Cost(n) => {
            out.extend_from_slice(b"claim cost ")?;
            write_number(out, n)?;
        }
        Claim::Nothing => out.extend_from_slice(b"claim none")?,
        Claim::Spent(n) => {
            out.extend_from_slice(b"claim spent ")?;
            write_number(out, n)?;
        }
    }
    out.push(b'\n')?;
    Ok(())
}

/// Adds the line of a selection.
pub(crate) fn write_selection(out: &mut Vec<u8>, choices: &[Choice]) -> Result<(), NoMemory>
    ensures { OnOk result
        (out.new.items ≡ out.old.items ++ (selection_line choices.now ++ 10 ∷ [])) }
{
    out.extend_from_slice(b"selection")?;
    write_choices(out, choices)?;
    out.push(b'\n')?;
    Ok(())
}
