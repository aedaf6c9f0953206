//! Reading certificates.
ghost use Rattle.std.specs.Prelude.{◌≡◌, ◌≤◌, ℕ, [], length, Err, IfOk};
ghost use Rattle.cert_text.specs.Certificates.{IsCertOf, StopsAt};
ghost use Rattle.cert_text.specs.declared.cert.Cert.{Cert as AnyCert};
ghost use Rattle.cert_text.specs.declared.draft.Draft.TheVariants as draft;
ghost use Rattle.clause_base.specs.Readings.{IsReading};
ghost use Rattle.cert_text.specs.declared.cert.CertError.TheVariants as cert_error;

use crate::cert::{Cert, CertError};
use crate::draft::Draft;
use input_space::one_case;
use std::alloc::Global;
use step_lines::words::next_line;

// The certificate of a draft, if its end was read and nothing stands behind it.
fn whole(last: Draft, rest: &[u8]) -> Option<Cert>
    ensures { IsReading (λ c. (last ≡ draft.Whole c) × (rest.now ≡ [])) result }
{
    match last {
        Draft::Whole(cert) if rest.is_empty() => Some(cert),
        _ => None,
    }
}

/// The certificate of whose form the text is. `Syntax` comes exactly where the text is of the form
/// of none; it has the least line at which the form can't go on, for a missing end the line after
/// the last.
pub fn read_cert(alloc: Global, bytes: &[u8]) -> Result<Cert, CertError>
    requires { length bytes.now ≤ 1073741824 }
    ensures read { IfOk result (λ c. IsCertOf bytes.now c) }
    ensures syntax { (line : ℕ) → result ≡ Err (cert_error.Syntax line) →
        (c : AnyCert) → IsCertOf bytes.now c → ⊥ }
    ensures place { (line : ℕ) → result ≡ Err (cert_error.Syntax line) → StopsAt bytes.now line }
{
    one_case();
    let mut draft = Draft::Start;
    let mut rest = bytes;
    let mut line = 1;
    'lines: loop {
        let Some(cut) = next_line(rest) else {
            return match whole(draft, rest) {
                Some(cert) => Ok(cert),
                None => Err(CertError::Syntax(line)),
            };
        };
        let Some(next) = draft.next(alloc, cut.piece)? else {
            return Err(CertError::Syntax(line));
        };
        draft = next;
        rest = cut.rest;
        line += 1;
    }
}
