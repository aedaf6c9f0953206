//! Laws of the texts of formulas, the contracts of functions that do nothing.
ghost use Rattle.dimacs_text.specs.CnfLaws.{KeptIsTrue, OneCnf};

/// Values make true what a formula keeps of the clauses of its text exactly where they make those
/// clauses true.
pub fn kept_is_true()
    ensures { KeptIsTrue }
{}

/// A text is of the form for one list of clauses at most.
pub fn one_cnf()
    ensures { OneCnf }
{}
