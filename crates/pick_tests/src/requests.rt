//! Requests of `pick` over devices in memory.

use grade_io::{MemShelf, MemSink};
use grade_top::{Status, grade_top};
use std::alloc::{AllocError, Global};
use std::test::Fail;

/// What is picked for: the bounds, the reference, and up to 16 submissions, which are `s1.py`,
/// `s2.py` and so on.
#[derive(Clone, Copy)]
pub(crate) struct Request<'a> {
    pub(crate) bounds: &'a str,
    pub(crate) reference: &'a str,
    pub(crate) submissions: &'a [&'a str],
}

/// The names of submissions.
pub(crate) const FILES: [&str; 16] = [
    "s1.py", "s2.py", "s3.py", "s4.py", "s5.py", "s6.py", "s7.py", "s8.py", "s9.py", "s10.py",
    "s11.py", "s12.py", "s13.py", "s14.py", "s15.py", "s16.py",
];

/// The words of a request.
fn words_of(alloc: Global, request: Request<'_>) -> Result<Vec<String>, AllocError> {
    let mut words = Vec::new(alloc);
    for word in ["pick", "b.txt", "ref.py"] {
        words.push(String::from_str(alloc, word)?)?;
    }
    for (name, _) in FILES.iter().zip(request.submissions.iter()) {
        words.push(String::from_str(alloc, *name)?)?;
    }
    Ok(words)
}

/// A shelf of its sources, whose calls with these numbers fail.
fn shelf_of(alloc: Global, request: Request<'_>, fails: Vec<u64>) -> Result<MemShelf, AllocError> {
    let mut shelf = MemShelf::new(alloc, fails);
    shelf.add("b.txt", request.bounds.as_bytes())?;
    shelf.add("ref.py", request.reference.as_bytes())?;
    for (name, text) in FILES.iter().zip(request.submissions.iter()) {
        shelf.add(*name, text.as_bytes())?;
    }
    Ok(shelf)
}

/// The status of a request, and what is written, where the shelf's calls with these numbers fail.
pub(crate) fn picked(
    alloc: Global,
    request: Request<'_>,
    fails: Vec<u64>,
) -> Result<(Status, String), Fail> {
    let words = words_of(alloc, request)?;
    let mut shelf = shelf_of(alloc, request, fails)?;
    let mut out = MemSink::new(alloc, 8, Vec::new(alloc));
    let status = grade_top(alloc, &words, &mut shelf, &mut out);
    match String::from_utf8(Vec::from_slice(alloc, out.bytes())?) {
        Ok(text) => Ok((status, text)),
        Err(_) => Err("no text")?,
    }
}
