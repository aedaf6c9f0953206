//! An entry of a class.
ghost use Rattle.std.specs.Prelude.{◌≡◌, IfOk};
ghost use Rattle.serde_json.specs.View.{view};
ghost use Rattle.class_text.specs.EntryViews.{entry_of};
ghost use Rattle.class_text.specs.Reports.{entry_data};

use crate::NoMemory;
use grade_io::{Status, status_number};
use serde_json::{Value, json};
use std::alloc::Global;

/// What is told of a listed file: its name, the status and the report of its grading, and the text
/// of a certificate where the budget was spent.
#[derive(Drop)]
pub struct Entry {
    pub file: String,
    pub status: Status,
    pub report: String,
    pub certificate: Option<String>,
}

/// The object of an entry.
pub(crate) fn entry_value(alloc: Global, entry: Entry) -> Result<Value, NoMemory>
    ensures { IfOk result (λ v. view v ≡ entry_data (entry_of entry)) }
{
    let Entry {
        file,
        status,
        report,
        certificate,
    } = entry;
    let number = u64::from(status_number(status));
    match certificate {
        None => json!(in alloc; {"file": file, "report": report, "status": number}),
        Some(text) => json!(in alloc;
            {"certificate": text, "file": file, "report": report, "status": number}),
    }
}
