//! Laws of certificates, the contracts of functions that do nothing.
ghost use Rattle.cert_text.specs.CertLaws.{CaseByLine, OneCert};

use input_space::one_case;

/// A text is of the form of one certificate at most.
pub fn one_cert()
    ensures { OneCert }
{
    one_case();
}

/// In lines that spell a certificate the line of a case spells that case.
pub fn case_by_line()
    ensures { CaseByLine }
{}
