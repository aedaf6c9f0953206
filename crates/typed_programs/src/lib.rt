//! Laws of typed programs, each the contract of a function without a body.
#![tactic(auto)]

mod laws;

pub use laws::{
    typed_arguments, typed_bodies, typed_calls, typed_expressions, typed_functions,
    typed_parameters, typed_programs, typed_statements, typings_are_types,
};
