//! Requests over devices in memory, for the crates of tests.
#![tactic(auto)]

use grade_io::{MemShelf, MemSink, Shelf};
use grade_top::{Status, grade_top};
use std::alloc::{AllocError, Global};
use std::test::Fail;

/// The texts of a request.
#[derive(Clone, Copy)]
pub struct Texts<'a> {
    /// The text of the bounds.
    pub bounds: &'a str,
    /// The text of the reference.
    pub reference: &'a str,
    /// The text of the submission.
    pub submission: &'a str,
    /// The text of the rules.
    pub rules: &'a str,
}

/// A submission that is to be tripled, on one input.
pub const DOUBLE: Texts<'static> = Texts {
    bounds: "width 6\nturns 4\ndepth 2\ncap 4\nentry f\nparam x int 4..4\n",
    reference: "def f(x):\n    return x * 3\n",
    submission: "def f(x):\n    return x * 2\n",
    rules: "",
};

/// The bounds of a function without parameters, which has one input.
pub const NO_PARAMETER: &str = "width 3\nturns 1\ndepth 1\ncap 1\nentry f\n";

/// A right program for [`NO_PARAMETER`].
pub const ONE: &str = "def f():\n    return 1\n";

/// A program that differs from [`ONE`].
pub const ZERO: &str = "def f():\n    return 0\n";

/// The certificate of a right submission without parameters: variable 1 stands for true, no input
/// fails, and no formula here has a gate.
pub const RIGHT: &str = concat!(
    "mpycert 1\nclaim cost 0\nselection\ncase\nsession fail\n",
    "vars 1\nf 1 0\nf -1 0\nl 0 1 2 0\nend\n"
);

/// The words of a request.
pub const REQUEST: [&str; 7] = [
    "grade",
    "b.txt",
    "ref.py",
    "sub.py",
    "rules.eml",
    "cert.txt",
    "200000",
];

/// The words by which a certificate is judged.
pub const CHECK: [&str; 6] = [
    "check",
    "b.txt",
    "ref.py",
    "sub.py",
    "rules.eml",
    "cert.txt",
];

/// The words of a request as texts of their own.
pub fn words(alloc: Global, all: &[&str]) -> Result<Vec<String>, AllocError> {
    let mut words = Vec::new(alloc);
    for word in all {
        words.push(String::from_str(alloc, word)?)?;
    }
    Ok(words)
}

/// A shelf of a request's four sources, on which `cert.txt` holds `old`, and whose calls with these
/// numbers fail.
pub fn shelf_of(alloc: Global, texts: Texts<'_>, fails: Vec<u64>) -> Result<MemShelf, AllocError> {
    let mut shelf = MemShelf::new(alloc, fails);
    shelf.add("b.txt", texts.bounds.as_bytes())?;
    shelf.add("ref.py", texts.reference.as_bytes())?;
    shelf.add("sub.py", texts.submission.as_bytes())?;
    shelf.add("rules.eml", texts.rules.as_bytes())?;
    shelf.add("cert.txt", b"old")?;
    Ok(shelf)
}

/// Bytes as a text.
fn text_of(bytes: Vec<u8>) -> Result<String, Fail> {
    match String::from_utf8(bytes) {
        Ok(text) => Ok(text),
        Err(_) => Err("no text")?,
    }
}

/// The text that a name holds.
pub fn held(alloc: Global, shelf: &mut MemShelf, name: &str) -> Result<String, Fail> {
    text_of(shelf.fetch(alloc, name, 1_000_000)?)
}

/// The status of these words over a shelf, and what is written.
pub fn answered<S: Shelf>(
    alloc: Global,
    words: &Vec<String>,
    shelf: &mut S,
) -> Result<(Status, String), Fail> {
    let mut out = MemSink::new(alloc, 1000, Vec::new(alloc));
    let status = grade_top(alloc, words, shelf, &mut out);
    let text = text_of(Vec::from_slice(alloc, out.bytes())?)?;
    Ok((status, text))
}

/// What came of a request.
#[derive(Drop)]
pub struct Ending {
    /// Its status.
    pub status: Status,
    /// What was written.
    pub written: String,
    /// What `cert.txt` holds then.
    pub cert: String,
}

/// What comes of a request with a budget.
pub fn graded_within(alloc: Global, texts: Texts<'_>, budget: &str) -> Result<Ending, Fail> {
    let mut request = REQUEST;
    request[6] = budget;
    let words = words(alloc, request.as_slice())?;
    let mut shelf = shelf_of(alloc, texts, Vec::new(alloc))?;
    let (status, written) = answered(alloc, &words, &mut shelf)?;
    let cert = held(alloc, &mut shelf, "cert.txt")?;
    Ok(Ending {
        status,
        written,
        cert,
    })
}

/// The status of a request, and what is written.
pub fn graded(alloc: Global, texts: Texts<'_>) -> Result<(Status, String), Fail> {
    let words = words(alloc, REQUEST.as_slice())?;
    let mut shelf = shelf_of(alloc, texts, Vec::new(alloc))?;
    answered(alloc, &words, &mut shelf)
}
