//! The weighted trees that rules make of typed programs are typed: laws, each the contract of a
//! function without a body.
#![tactic(auto)]

mod laws;

pub use laws::{
    calls_follow_from_slots, grown_trees_have_the_type, node_types_follow_from_locals,
    numbers_change_no_type, rules_make_wholes, terms_are_whole, types_follow,
    types_follow_from_locals, weighted_functions_are_typed, weighted_programs_are_typed,
};
