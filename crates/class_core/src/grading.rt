//! Listed files, graded as `grade` does.
ghost use Rattle.std.specs.Prelude.{◌≡◌, ◌≢◌, IfErr, IfOk};
ghost use Rattle.std.specs.Option.{option_map};
ghost use Rattle.std.specs.String.{string_bytes};
ghost use Rattle.source_files.specs.declared.stop.Stop.TheVariants as stop;
ghost use Rattle.class_text.specs.EntryViews.{entry_of};
ghost use Rattle.class_core.specs.Gradings.{told_certificate};
ghost use Rattle.class_core.specs.Told.{TellsFound};
ghost use Rattle.grade_core.specs.Requests.{grade_of};

use crate::NoMemory;
use crate::words::ClassWords;
use class_run::{Grader, SharedTexts};
use class_text::Entry;
use file_commands::{Lines, Report};
use grade_core::{GradeWords, report_texts};
use grade_io::Status;
use source_files::Stop;
use std::alloc::{AllocError, Global};

/// The bytes as a text. A report and a certificate are ASCII but for the word of a file, so that
/// there is no other answer.
fn text(bytes: Vec<u8>) -> Result<String, NoMemory>
    ensures { IfOk result (λ s. string_bytes s ≡ bytes.items) }
{
    match String::from_utf8(bytes) {
        Ok(text) => Ok(text),
        Err(_) => Err(AllocError),
    }
}

/// The certificate that is told: that of a spent budget.
fn told(status: Status, kept: Option<Vec<u8>>) -> Result<Option<String>, NoMemory>
    ensures { IfOk result (λ o. option_map string_bytes o
        ≡ told_certificate status (option_map (λ v. v.items) kept)) }
{
    match (status, kept) {
        (Status::Spent, Some(bytes)) => Ok(Some(text(bytes)?)),
        _ => Ok(None),
    }
}

/// What is told of a file by what was found of its texts.
fn entry(
    alloc: Global,
    words: &GradeWords<'_>,
    found: Result<Report, Stop>,
) -> Result<Entry, NoMemory>
    requires { IfErr found (λ e. e ≢ stop.Failed) }
    ensures told { IfOk result (λ e. TellsFound (grade_of words.now) found (entry_of e)) }
    ensures file { IfOk result (λ e. string_bytes e.file ≡ words.now.submission.now) }
{
    let file = String::from_str(alloc, words.submission)?;
    match found {
        Ok(report) => Ok(Entry {
            file,
            status: report.status,
            report: text(report.text)?,
            certificate: told(report.status, report.kept)?,
        }),
        Err(Stop::Refused(refusal)) => Ok(Entry {
            file,
            status: Status::Refused,
            report: text(words.line(alloc, &refusal)?)?,
            certificate: None,
        }),
        Err(Stop::Failed) => unreachable!(),
        Err(Stop::NoMemory) => Err(AllocError),
    }
}

impl Grader for ClassWords<'_> {
    ghost use Rattle.class_core.specs.Gradings.{IsGradedFile};
    ghost use Rattle.class_core.specs.Requests.{words_of};

    ghost tells = { λ w. IsGradedFile (words_of w) };

    fn entry(
        &self,
        alloc: Global,
        shared: &SharedTexts<'_>,
        name: &str,
        text: Vec<u8>,
    ) -> Result<Entry, NoMemory> {
        let words = self.grade(name);
        let texts = [
            Vec::from_slice(alloc, shared.bounds)?,
            Vec::from_slice(alloc, shared.reference)?,
            text,
            Vec::from_slice(alloc, shared.rules)?,
        ];
        let found = report_texts(alloc, &words, &texts);
        entry(alloc, &words, found)
    }
}
