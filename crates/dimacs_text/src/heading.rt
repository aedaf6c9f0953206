//! The lines up to the header.
ghost use Rattle.std.specs.Prelude.{◌≡◌, ◌≤◌, ◌||◌, MatchResult, length};
ghost use Rattle.dimacs_text.specs.CnfFronts.{IsHeadStop, IsHeading};
ghost use Rattle.dimacs_text.specs.CnfTexts.{is_passed};

use crate::header::{Header, read_header};
use crate::lines::{begins, first_line, has_no_words};

/// The header, what stands behind its line, and the number of the next line.
#[derive(Clone, Copy)]
pub(crate) struct Head<'a> {
    pub(crate) header: Header,
    pub(crate) rest: &'a [u8],
    pub(crate) line: u32,
}

fn is_passed(line: &[u8]) -> bool
    ensures { result ≡ is_passed line.now }
{
    begins(line, b'c') || has_no_words(line)
}

/// The header; where there is none, the line at which the form can't go on.
pub(crate) fn find_header(bytes: &[u8]) -> Result<Head<'_>, u32>
    requires { length bytes.now ≤ 1073741824 }
    ensures { MatchResult result
        (λ h. IsHeading bytes.now h.rest.now h.line h.header.vars h.header.count)
        (λ line. IsHeadStop bytes.now line) }
{
    let mut rest = bytes;
    let mut line = 1;
    'lines: loop {
        let Some(cut) = first_line(rest) else {
            return Err(line);
        };
        if !is_passed(cut.piece) {
            return match read_header(cut.piece) {
                Some(header) => Ok(Head {
                    header,
                    rest: cut.rest,
                    line: line + 1,
                }),
                None => Err(line),
            };
        }
        rest = cut.rest;
        line += 1;
    }
}
