//! The words of a command line.
ghost use Rattle.std.specs.Prelude.{◌≡◌, ◌≢◌, ◌≤◌, IfErr, IfOk, IsErr, IsOk, drop, length};
ghost use Rattle.std.specs.IoError.{error_kind};
ghost use Rattle.std.specs.Vec.Iter.{into_iter_items, into_iter_len};
ghost use Rattle.grade_io.specs.Words.{IsUnread, words_in};

use crate::devices::NoMemory;
use std::alloc::{AllocError, Global};
use std::env::Args;
use std::io;
use std::io::ErrorKind;

/// All words but the first.
fn behind_first(alloc: Global, all: Args) -> Result<Vec<String>, NoMemory>
    ensures words { IfOk result (λ v. v.items ≡ drop 1 (into_iter_items all)) }
    ensures none { into_iter_len all ≤ 1 → IsOk result }
{
    let mut rest = all;
    let _name = rest.next();
    let mut words = Vec::new(alloc);
    'collect: while let Some(word) = rest.next() {
        words.push(word)?;
    }
    Ok(words)
}

/// The words after the program's name, out of all words as the system gave them. There are none
/// where a word isn't UTF-8.
///
/// # Errors
///
/// Want of memory, here or before.
pub fn words_from(alloc: Global, all: io::Result<Args>) -> Result<Vec<String>, NoMemory>
    ensures words { IfOk result (λ v. v.items ≡ words_in all) }
    ensures unread { IsUnread all → IsErr result }
    // Only a word that has to be kept needs memory here.
    ensures no_text { IfErr all (λ e. error_kind e ≢ ErrorKind.OutOfMemory → IsOk result) }
    ensures none { IfOk all (λ words. into_iter_len words ≤ 1 → IsOk result) }
{
    match all {
        Ok(all) => behind_first(alloc, all),
        Err(e) if e.kind() == ErrorKind::OutOfMemory => Err(AllocError),
        Err(_) => Ok(Vec::new(alloc)),
    }
}
