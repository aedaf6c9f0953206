//! A file of a command, and how long it may be.
ghost use Rattle.std.specs.Prelude.{◌≡◌, ◌≤◌};
ghost use Rattle.source_files.specs.Files.{limit_of};

use mpy_tree::Source;

/// How many bytes a source may have.
const SOURCE_LIMIT: u64 = 65_536;

/// How many bytes a certificate, or a proof, may have.
const CERT_LIMIT: u64 = 1_073_741_824;

/// How many bytes a formula may have.
const FORMULA_LIMIT: u64 = 67_108_864;

/// A file that a command reads: what it is to the command, and the word that names it.
#[derive(Clone, Copy)]
pub struct File<'a> {
    pub source: Source,
    pub word: &'a str,
}

/// How many bytes a file may have that is this to its command: a certificate, or a proof,
/// 1,073,741,824; a formula, which is no source of a task but the file that a command's first word
/// names, 67,108,864; and any other source, also a program that a later word names, 65,536.
pub fn limit_of(source: Source) -> u64
    ensures value { result ≡ limit_of source }
    ensures fetched { result ≤ 1073741824 }
{
    match source {
        Source::Bounds | Source::Reference | Source::Submission | Source::Rules => SOURCE_LIMIT,
        Source::Cert => CERT_LIMIT,
        Source::Word(1) => FORMULA_LIMIT,
        Source::Word(_) => SOURCE_LIMIT,
    }
}
