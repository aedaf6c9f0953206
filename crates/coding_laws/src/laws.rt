//! Laws of the codings of tasks.
ghost use Rattle.coding_laws.specs.CodingLaws.{AgreementIsDecided, CodingsAreFull};
ghost use Rattle.coding_laws.specs.CodingLaws.{TruthsSpellWhatFits};

/// Truth values spell each input on which the reference gives a value, and for each selection that
/// fits the task's tree one that makes the same program at the same cost.
pub fn codings_are_full()
    ensures { CodingsAreFull }
{}

/// A selection that truth values spell fits the task's tree.
pub fn truths_spell_what_fits()
    ensures { TruthsSpellWhatFits }
{}

/// Whether the program of a selection gives what is wanted on an input is decided.
pub fn agreement_is_decided()
    ensures { AgreementIsDecided }
{}
