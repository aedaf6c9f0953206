//! The lines of cases.
ghost use Rattle.std.specs.Prelude.{◌≡◌, ◌≤◌, ◌∷◌, ◌++◌, [], ℕ, List, IfOk, IfSome};
ghost use Rattle.std.specs.Prelude.{MatchOption, OnOk, codes, length};
ghost use Rattle.cert_text.specs.Certificates.{WritesCase};
ghost use Rattle.cert_text.specs.LineForms.{SpellsCaseLine, set_apart};
ghost use Rattle.clause_base.specs.Readings.{IsReading};

use crate::NoMemory;
use input_space::{Case, CaseError, print_case, read_case};
use std::alloc::{AllocError, Global};

// The text of the values on the line of a case, which is empty where there are none.
fn case_text(line: &[u8]) -> Option<&[u8]>
    ensures text { MatchOption result
        ((text : List ℕ) → line.now ≡ codes "case" ++ set_apart text → ⊥)
        (λ text. line.now ≡ codes "case" ++ set_apart text.now) }
    ensures within { IfSome result (λ text. length text.now ≤ length line.now) }
{
    match line {
        [b'c', b'a', b's', b'e', rest @ ..] => match rest {
            [] => Some(rest),
            [b' '] => None,
            [b' ', text @ ..] => Some(text),
            _ => None,
        },
        _ => None,
    }
}

/// The case that the line spells.
pub(crate) fn read_case_line(alloc: Global, line: &[u8]) -> Result<Option<Case>, NoMemory>
    requires { length line.now ≤ 1073741824 }
    ensures { IfOk result (λ o. IsReading (SpellsCaseLine line.now) o) }
{
    let Some(text) = case_text(line) else {
        return Ok(None);
    };
    match read_case(alloc, text) {
        Ok(case) => Ok(Some(case)),
        Err(CaseError::NoCase) => Ok(None),
        Err(CaseError::NoMemory) => Err(AllocError),
    }
}

fn write_apart(out: &mut Vec<u8>, text: &[u8]) -> Result<(), NoMemory>
    ensures { OnOk result (out.new.items ≡ out.old.items ++ set_apart text.now) }
{
    if !text.is_empty() {
        out.push(b' ')?;
        out.extend_from_slice(text)?;
    }
    Ok(())
}

/// Adds the line of a case.
pub(crate) fn write_case(alloc: Global, out: &mut Vec<u8>, case: &Case) -> Result<(), NoMemory>
    ensures { OnOk result (WritesCase out.old.items out.new.items case.now) }
{
    let text = print_case(alloc, case)?;
    out.extend_from_slice(b"case")?;
    write_apart(out, text.as_slice())?;
    out.push(b'\n')?;
    Ok(())
}
