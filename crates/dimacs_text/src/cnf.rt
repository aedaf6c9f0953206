//! Reading formulas.
ghost use Rattle.std.specs.Prelude.{◌≡◌, ◌≤◌, ℕ, List, Err, IfOk, length};
ghost use Rattle.clause_base.specs.declared.lit.Lit.{Lit as AnyLit};
ghost use Rattle.dimacs_text.specs.CnfTexts.{SpellsCnf, StopsAt};
ghost use Rattle.dimacs_text.specs.TextLines.{lines_of};
ghost use Rattle.dimacs_text.specs.Tidy.{IsCnfOf};
ghost use Rattle.dimacs_text.specs.declared.error.CnfError.TheVariants as cnf_error;

use crate::draft::Draft;
use crate::error::CnfError;
use crate::heading::find_header;
use crate::lines::inside_line;
use clause_base::formula::Formula;
use std::alloc::Global;

/// The formula of whose form the text is. A line comes exactly where the text is of the form of
/// none; it is the least line at which the form can't go on, for a missing end the line after the
/// last.
pub fn read_cnf(alloc: Global, bytes: &[u8]) -> Result<Formula, CnfError>
    requires { length bytes.now ≤ 1073741824 }
    ensures read { IfOk result (λ f. IsCnfOf bytes.now f) }
    ensures line { (line : ℕ) → result ≡ Err (cnf_error.Line line) →
        (vars : ℕ) (clauses : List (List AnyLit)) →
        SpellsCnf (lines_of bytes.now) vars clauses → ⊥ }
    ensures place { (line : ℕ) → result ≡ Err (cnf_error.Line line) → StopsAt bytes.now line }
{
    let head = match find_header(bytes) {
        Ok(head) => head,
        Err(line) => return Err(CnfError::Line(line)),
    };
    let mut draft = Draft::new(alloc, head.header, head.rest.len())?;
    let mut rest = head.rest;
    let mut line = head.line;
    'lines: loop {
        let Some(cut) = inside_line(rest) else {
            return match draft.finished() {
                Some(formula) => Ok(formula),
                None => Err(CnfError::Line(line)),
            };
        };
        let Some(next) = draft.with_line(alloc, cut.piece)? else {
            return Err(CnfError::Line(line));
        };
        draft = next;
        rest = cut.rest;
        line += 1;
    }
}
