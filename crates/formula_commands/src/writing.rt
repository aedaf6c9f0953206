//! What the commands write.
ghost use Rattle.std.specs.Prelude.{◌≡◌, ◌<◌, ◌^◌, None, IfOk, codes, length};
ghost use Rattle.file_commands.specs.Reports.{bytes_of};
ghost use Rattle.formula_commands.specs.Texts.{satisfiable_text, spent_text, unsatisfiable_text};
ghost use Rattle.formula_commands.specs.Texts.{value_literals};
ghost use Rattle.grade_io.specs.Words.{refusal_line};

use crate::NoMemory;
use clause_base::lit::Lit;
use clause_base::truths::Truths;
use file_commands::Report;
use grade_io::{Status, refusal_line};
use std::alloc::Global;
use step_lines::literals::write_literals;

/// The report that a text isn't of its form: the line, and the form's name.
pub(crate) fn no_form(alloc: Global, file: &str, line: u32, form: &str) -> Result<Report, NoMemory>
    ensures text { IfOk result (λ r. r.text.items ≡ refusal_line file.now line form.now) }
    ensures status { IfOk result (λ r. r.status ≡ Status.Refused) }
    ensures kept { IfOk result (λ r. bytes_of r ≡ None) }
{
    Ok(Report {
        status: Status::Refused,
        text: refusal_line(alloc, file, line, form)?,
        kept: None,
    })
}

/// The report of such a text with its status, of which nothing is kept.
pub(crate) fn verdict(alloc: Global, status: Status, text: &str) -> Result<Report, NoMemory>
    ensures text { IfOk result (λ r. r.text.items ≡ text.now) }
    ensures status { IfOk result (λ r. r.status ≡ status) }
    ensures kept { IfOk result (λ r. bytes_of r ≡ None) }
{
    Ok(Report {
        status,
        text: text.as_bytes().to_vec(alloc)?,
        kept: None,
    })
}

// The literals that the values make true, one of each variable.
fn true_literals(alloc: Global, values: &Truths) -> Result<Vec<Lit>, NoMemory>
    requires { length values.now < 2 ^ 32 }
    ensures { IfOk result (λ v. v.items ≡ value_literals 1 values.now) }
{
    let mut lits = Vec::new(alloc);
    for i in 0..values.len() {
        lits.push(Lit {
            var: i as u32 + 1,
            positive: values.at(i),
        })?;
    }
    Ok(lits)
}

/// The lines of values that satisfy a formula.
pub(crate) fn values_text(alloc: Global, values: &Truths) -> Result<Vec<u8>, NoMemory>
    requires { length values.now < 2 ^ 32 }
    ensures { IfOk result (λ v. v.items ≡ satisfiable_text values.now) }
{
    let lits = true_literals(alloc, values)?;
    let mut text = b"satisfiable\nv".to_vec(alloc)?;
    write_literals(&mut text, lits.as_slice())?;
    text.push(b'\n')?;
    Ok(text)
}

/// The line that no values satisfy a formula.
pub(crate) fn none_text(alloc: Global) -> Result<Vec<u8>, NoMemory>
    ensures { IfOk result (λ v. v.items ≡ unsatisfiable_text) }
{
    Ok(b"unsatisfiable\n".to_vec(alloc)?)
}

/// The line that a budget is spent.
pub(crate) fn spent_text(alloc: Global, budget: u32) -> Result<Vec<u8>, NoMemory>
    ensures { IfOk result (λ v. v.items ≡ spent_text budget) }
{
    let text = format!(in alloc; "budget spent {budget}\n")?;
    Ok(text.into_bytes())
}
