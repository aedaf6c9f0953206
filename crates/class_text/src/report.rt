//! The report of a class.
ghost use Rattle.std.specs.Prelude.{◌≡◌, IfOk, map};
ghost use Rattle.std.specs.String.{string_bytes};
ghost use Rattle.serde_json.specs.View.{view};
ghost use Rattle.class_text.specs.EntryViews.{entry_of};
ghost use Rattle.class_text.specs.Entries.{count_of};
ghost use Rattle.class_text.specs.Reports.{class_data, class_text, entry_data};

use crate::NoMemory;
use crate::entry::{Entry, entry_value};
use grade_io::{Status, status_number};
use serde_json::{Value, json};
use std::alloc::Global;

fn count_of(entries: &[Entry], status: Status) -> u64
    ensures { result ≡ count_of status (map entry_of entries.now) }
{
    let number = status_number(status);
    entries
        .iter()
        .filter(|e| status_number(e.status) == number)
        .count() as u64
}

/// The objects of the entries, in order.
fn entry_values(alloc: Global, entries: Vec<Entry>) -> Result<Vec<Value>, NoMemory>
    ensures { IfOk result (λ v. map view v.items
        ≡ map entry_data (map entry_of entries.items)) }
{
    let mut values = Vec::new(alloc);
    for entry in entries {
        values.push(entry_value(alloc, entry)?)?;
    }
    Ok(values)
}

/// The object of a class.
fn class_value(alloc: Global, entries: Vec<Entry>) -> Result<Value, NoMemory>
    ensures { IfOk result (λ v. view v ≡ class_data (map entry_of entries.items)) }
{
    let correct = count_of(&entries, Status::Correct);
    let corrected = count_of(&entries, Status::Corrected);
    let none = count_of(&entries, Status::NoCorrection);
    let refused = count_of(&entries, Status::Refused);
    let spent = count_of(&entries, Status::Spent);
    let unread = count_of(&entries, Status::ReadFailed);
    let list = Value::Array(entry_values(alloc, entries)?);
    json!(in alloc; {
        "correct": correct,
        "corrected": corrected,
        "entries": list,
        "none": none,
        "refused": refused,
        "spent": spent,
        "unread": unread
    })
}

/// The report of a class: one JSON value without spaces, and byte 10. It has the entries in order
/// and how many there are of each status.
pub fn class_text(alloc: Global, entries: Vec<Entry>) -> Result<String, NoMemory>
    ensures { IfOk result (λ s. string_bytes s ≡ class_text (map entry_of entries.items)) }
{
    let mut text = class_value(alloc, entries)?.to_string(alloc)?;
    text.push('\n')?;
    Ok(text)
}
