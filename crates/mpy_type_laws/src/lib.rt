//! Laws of typings, each the contract of a function without a body.
#![tactic(auto)]

mod laws;

pub use laws::{
    early_is_first, facts_are_typing, one_fault, one_typing, typed_or_at_fault,
    types_have_the_least,
};
