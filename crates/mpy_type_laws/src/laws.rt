//! A program has one typing or one first fault, and never both.
ghost use Rattle.mpy_type_laws.specs.TypingLaws.{OneTyping, TypedOrAtFault, OneFault, EarlyIsFirst};
ghost use Rattle.mpy_type_laws.specs.TypingLaws.{FactsAreTyping, TypesHaveTheLeast};

/// A program that is entered so has one typing at most.
pub fn one_typing()
    ensures { OneTyping }
{}

/// A typed program has no fault.
pub fn typed_or_at_fault()
    ensures { TypedOrAtFault }
{}

/// The first fault by the least set of facts is one.
pub fn one_fault()
    ensures { OneFault }
{}

/// A fault of names or of the entry comes before all others.
pub fn early_is_first()
    ensures { EarlyIsFirst }
{}

/// The facts of a typing are the whole least set.
pub fn facts_are_typing()
    ensures { FactsAreTyping }
{}

/// Facts that type a program have those of its typing among them.
pub fn types_have_the_least()
    ensures { TypesHaveTheLeast }
{}
