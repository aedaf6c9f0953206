//! The lines of a formula.
ghost use Rattle.std.specs.Prelude.{◌≡◌, ◌∷◌, ◌++◌, [], IfOk, OnOk};
ghost use Rattle.clause_base.specs.Readings.{IsReading};
ghost use Rattle.cert_text.specs.Drafts.{SpellsClause, SpellsVars};
ghost use Rattle.cert_text.specs.LineForms.{clause_line, vars_line};

use crate::NoMemory;
use clause_base::clause::Clause;
use std::alloc::Global;
use step_lines::literals::{read_literals, write_literals};
use step_lines::numbers::{number, write_number};
use step_lines::steps::clause_of;
use step_lines::words::behind;

/// The number of variables that the line spells.
pub(crate) fn read_vars(line: &[u8]) -> Option<u32>
    ensures { IsReading (SpellsVars line.now) result }
{
    number(behind(line, b"vars ")?)
}

/// The clause over the first `vars` variables that the line spells.
pub(crate) fn read_clause(alloc: Global, vars: u32, line: &[u8]) -> Result<Option<Clause>, NoMemory>
    ensures { IfOk result (λ o. IsReading (SpellsClause vars line.now) o) }
{
    let Some(text) = behind(line, b"f") else {
        return Ok(None);
    };
    let Some(found) = read_literals(alloc, vars, text)? else {
        return Ok(None);
    };
    if !found.behind.is_empty() {
        return Ok(None);
    }
    clause_of(alloc, found.lits)
}

/// Adds the line of the number of variables.
pub(crate) fn write_vars(out: &mut Vec<u8>, vars: u32) -> Result<(), NoMemory>
    ensures { OnOk result (out.new.items ≡ out.old.items ++ (vars_line vars ++ 10 ∷ [])) }
{
    out.extend_from_slice(b"vars ")?;
    write_number(out, vars)?;
    out.push(b'\n')?;
    Ok(())
}

/// Adds the line of a clause of a formula.
pub(crate) fn write_clause(out: &mut Vec<u8>, c: &Clause) -> Result<(), NoMemory>
    ensures { OnOk result (out.new.items ≡ out.old.items ++ (clause_line c.now ++ 10 ∷ [])) }
{
    out.push(b'f')?;
    write_literals(out, c.lits.as_slice())?;
    out.push(b'\n')?;
    Ok(())
}
