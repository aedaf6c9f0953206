//! Requests for classes.

use class_core::{ClassStatus, class_top};
use grade_io::{MemShelf, MemSink};
use std::alloc::{AllocError, Global};
use std::test::Fail;

pub(crate) const BOUNDS: &str = "width 6\nturns 4\ndepth 2\ncap 4\nentry f\nparam x int 4..4\n";

pub(crate) const REFERENCE: &str = "def f(x):\n    return x + 1\n";

pub(crate) const RULES: &str = "rule ret: return $a => return {$a + 1, $a - 1}\n";

pub(crate) const RIGHT: &str = REFERENCE;

pub(crate) const SHORT: &str = "def f(x):\n    return x\n";

/// The words of a request.
pub(crate) const REQUEST: [&str; 5] = ["b.txt", "ref.py", "rules.eml", "list.txt", "200000"];

pub(crate) fn words(alloc: Global, all: &[&str]) -> Result<Vec<String>, AllocError> {
    let mut words = Vec::new(alloc);
    for word in all {
        words.push(String::from_str(alloc, word)?)?;
    }
    Ok(words)
}

/// A shelf of a class with this list, whose calls with these numbers fail.
pub(crate) fn shelf_of(alloc: Global, list: &str, fails: Vec<u64>) -> Result<MemShelf, AllocError> {
    let mut shelf = MemShelf::new(alloc, fails);
    shelf.add("b.txt", BOUNDS.as_bytes())?;
    shelf.add("ref.py", REFERENCE.as_bytes())?;
    shelf.add("rules.eml", RULES.as_bytes())?;
    shelf.add("list.txt", list.as_bytes())?;
    shelf.add("a.py", RIGHT.as_bytes())?;
    shelf.add("b.py", SHORT.as_bytes())?;
    Ok(shelf)
}

/// What came of a class: its status, and what was written.
pub(crate) fn answered(
    alloc: Global,
    words: &Vec<String>,
    shelf: &mut MemShelf,
) -> Result<(ClassStatus, String), Fail> {
    let mut out = MemSink::new(alloc, 1000, Vec::new(alloc));
    let status = class_top(alloc, words, shelf, &mut out);
    match String::from_utf8(Vec::from_slice(alloc, out.bytes())?) {
        Ok(text) => Ok((status, text)),
        Err(_) => Err("no text")?,
    }
}
