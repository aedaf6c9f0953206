//! Five texts, from their task to what is said of the certificate.

ghost use Rattle.std.specs.Prelude.{◌≡◌, IfOk, MatchResult, None, length};
ghost use Rattle.cert_text.specs.Limits.{KeepsForm};
ghost use Rattle.check_core.specs.Commands.{check_command};
ghost use Rattle.check_core.specs.Decisions.{NoForm, check_sources, sources_step};
ghost use Rattle.check_core.specs.Reports.{IsReportOf};
ghost use Rattle.check_core.specs.Requests.{check_of};
ghost use Rattle.check_core.specs.Texts.{said_text};
ghost use Rattle.file_commands.specs.Reports.{IsFound, bytes_of};
ghost use Rattle.input_space.specs.TaskParts.{task_with};
ghost use Rattle.source_files.specs.Texts.{AllFit};
ghost use Rattle.source_files.specs.Fetches.{StopsAs};
ghost use Rattle.source_files.specs.Views.{texts_of};

use crate::NoMemory;
use crate::words::CheckWords;
use crate::writing::{behind, verdict_status, verdict_text};
use cert_text::{Cert, CertError, read_cert};
use certificate_judge::{Verdict, judge};
use file_commands::Report;
use grade_io::Status;
use input_space::Task;
use source_files::Stop;
use std::alloc::{AllocError, Global};
use task_read::read_task;

// The task that the first four texts spell.
fn read(alloc: Global, texts: &[Vec<u8>]) -> Result<Task, Stop>
    requires five { length texts.now ≡ 5 }
    requires fit { AllFit check_sources (texts_of texts.now) }
    ensures { MatchResult result (λ t. (sources_step (texts_of texts.now)).gives (task_with t))
        (StopsAs (sources_step (texts_of texts.now)).refuses) }
{
    let [bounds, reference, submission, rules, _] = texts else {
        unreachable!();
    };
    Ok(read_task(alloc, bounds, reference, submission, rules)?)
}

// What is written of a text that isn't of the form of a certificate.
fn no_form(alloc: Global, line: u32) -> Result<Report, NoMemory>
    ensures text { IfOk result (λ r. r.text.items ≡ said_text (NoForm line)) }
    ensures status { IfOk result (λ r. r.status ≡ Status.Rejected) }
    ensures kept { IfOk result (λ r. bytes_of r ≡ None) }
{
    let text = format!(in alloc; "rejected CertSyntax line {line}\n")?;
    Ok(Report {
        status: Status::Rejected,
        text: text.into_bytes(),
        kept: None,
    })
}

// What is written of the verdict on a certificate.
fn judged(alloc: Global, t: &Task, c: &Cert) -> Result<Report, NoMemory>
    requires { KeepsForm c.now }
    ensures { IfOk result (IsReportOf (task_with t.now) c.now) }
{
    let _cases = c.cases.count();
    let verdict = judge(alloc, t, c);
    if let Verdict::NoMemory = verdict {
        return Err(AllocError);
    }
    let status = verdict_status(&verdict);
    let mut text = verdict_text(alloc, c, &verdict)?;
    let more = behind(alloc, c, verdict)?;
    text.extend_from_slice(more.as_slice())?;
    Ok(Report {
        status,
        text,
        kept: None,
    })
}

/// What is written of what the texts decide.
pub(crate) fn report_texts(
    alloc: Global,
    words: &CheckWords<'_>,
    texts: &[Vec<u8>],
) -> Result<Report, Stop>
    requires five { length texts.now ≡ 5 }
    requires fit { AllFit check_sources (texts_of texts.now) }
    ensures { IsFound (check_command (check_of words.now)) (texts_of texts.now) result }
{
    let task = read(alloc, texts)?;
    match read_cert(alloc, texts[4].as_slice()) {
        Ok(cert) => Ok(judged(alloc, &task, &cert)?),
        Err(CertError::Syntax(line)) => Ok(no_form(alloc, line)?),
        Err(CertError::NoMemory) => Err(Stop::NoMemory),
    }
}
