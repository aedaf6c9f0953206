//! The lines of a log.
ghost use Rattle.std.specs.Prelude.{◌≡◌, ◌∷◌, ◌++◌, [], IfOk, OnOk, MatchOption, false};
ghost use Rattle.clause_base.specs.Literals.{has_no_variable_twice};
ghost use Rattle.step_lines.specs.Steps.{SpellsStep};
ghost use Rattle.step_lines.specs.LineForms.{step_line};
ghost use Rattle.clause_base.specs.Readings.{IsReading};

use crate::NoMemory;
use crate::distinct::are_distinct;
use crate::hints::{hints, write_hints};
use crate::literals::{read_literals, write_literals};
use crate::words::behind;
use clause_base::clause::Clause;
use clause_base::lits::Lits;
use clause_base::log::Step;
use std::alloc::Global;

/// The clause of these literals, if no variable stands twice.
pub fn clause_of(alloc: Global, lits: Lits) -> Result<Option<Clause>, NoMemory>
    ensures { IfOk result (λ o. MatchOption o
        (has_no_variable_twice lits ≡ false)
        (λ c. c.lits ≡ lits)) }
{
    if are_distinct(alloc, lits.as_slice())? {
        Ok(Some(Clause::new(lits)))
    } else {
        Ok(None)
    }
}

/// The step over the first `vars` variables, whose clause has this number, that the line spells.
pub fn read_step(
    alloc: Global,
    vars: u32,
    own_number: usize,
    line: &[u8],
) -> Result<Option<Step>, NoMemory>
    ensures { IfOk result (λ o. IsReading (SpellsStep vars own_number line.now) o) }
{
    let Some(text) = behind(line, b"l") else {
        return Ok(None);
    };
    let Some(found) = read_literals(alloc, vars, text)? else {
        return Ok(None);
    };
    let Some(hints) = hints(alloc, own_number, found.behind)? else {
        return Ok(None);
    };
    let Some(clause) = clause_of(alloc, found.lits)? else {
        return Ok(None);
    };
    Ok(Some(Step { clause, hints }))
}

/// Adds the line of a step of a log.
pub fn write_step(out: &mut Vec<u8>, s: &Step) -> Result<(), NoMemory>
    ensures { OnOk result (out.new.items ≡ out.old.items ++ (step_line s.now ++ 10 ∷ [])) }
{
    out.push(b'l')?;
    write_literals(out, s.clause.lits.as_slice())?;
    write_hints(out, s.hints.as_slice())?;
    out.push(b'\n')?;
    Ok(())
}
