//! Laws of what truth values spell: each input and each selection of a task has truth values, each
//! law the contract of a function without a body.
#![tactic(auto)]

mod alphabets;
mod laws;

pub use alphabets::alphabets_are_printable;
pub use laws::{agreement_is_decided, codings_are_full, truths_spell_what_fits};
