//! Certificates.
ghost use Rattle.std.specs.Prelude.{◌≡◌, ◌<◌, ◌≤◌, length};
ghost use Rattle.cert_text.specs.Certificates.{case_line};
ghost use Rattle.cert_text.specs.declared.cert.CertError.TheVariants as cert_error;

use crate::NoMemory;
use choice_tree::Selection;
use input_space::{Cases, Session, Sessions};

/// What is claimed.
#[derive(Clone, Copy, PartialEq, Eq, Debug, Drop)]
pub enum Claim {
    /// The selection's program agrees with the reference, and this is the least cost at which one
    /// does.
    Cost(u32),
    /// No selection's program agrees.
    Nothing,
    /// So many clauses were derived, and the search didn't end.
    Spent(u32),
}

/// A claim, and what shows it.
#[derive(Drop)]
pub struct Cert {
    pub claim: Claim,
    /// Empty unless the claim is a cost.
    pub selection: Selection,
    pub cases: Cases,
    pub sessions: Sessions,
}

/// The parts of a certificate that stand elsewhere. Its sessions are those of two lists, one behind
/// the other.
#[derive(Drop)]
pub struct CertParts<'a> {
    pub claim: Claim,
    /// Empty unless the claim is a cost.
    pub selection: &'a Selection,
    pub cases: &'a Cases,
    pub sessions: &'a [Session],
    pub more: &'a [Session],
}

/// On which line of a certificate's text the case at a place stands, both counted from 1.
pub fn case_line(c: &Cert, place: u32) -> u32
    requires some { 0 < place }
    requires within { place ≤ length c.now.cases }
    ensures { result ≡ case_line c.now place }
{
    let few = place <= c.cases.count();
    prove!(few);
    match c.claim {
        Claim::Cost(_) => place + 3,
        Claim::Nothing | Claim::Spent(_) => place + 2,
    }
}

/// Why a text isn't read as a certificate.
#[derive(Clone, Copy, PartialEq, Eq, Debug, Drop)]
pub enum CertError {
    /// The text isn't of the form; the least line at which the form can't go on.
    Syntax(u32),
    /// There was no memory.
    NoMemory,
}

impl From<NoMemory> for CertError {
    ghost from_gives = { λ _ e. e ≡ cert_error.NoMemory };

    fn from(_error: NoMemory) -> CertError {
        CertError::NoMemory
    }
}
