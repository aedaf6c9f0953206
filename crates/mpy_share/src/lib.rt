//! Whether two names of a program could share a list that is changed in place.
#![tactic(auto)]

mod calls;
mod program;
mod share;
mod walk;

pub use program::unshared;
