//! What rules make of a program is no worse than the program: laws, each the contract of a function
//! without a body.
#![tactic(auto)]

mod laws;

pub use laws::{
    candidates_are_proper, candidates_are_typed_and_unshared, rewritings_stay_proper,
    rewritings_stay_typed, rewritings_stay_unshared,
};
