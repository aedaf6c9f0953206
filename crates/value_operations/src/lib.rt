//! The operations of the language on values: what a node gives on the values of its parts.
#![tactic(auto)]

mod builtins;
mod comparisons;
mod lists;
mod numbers;
mod operators;
mod ranges;
mod stop;

pub use builtins::{call_builtin, length_of_value};
pub use comparisons::{compared, is_true, relate_numbers};
pub use lists::{
    append_to, byte_in, element_at, list_literal, member_at, number_in, part_between, replace_at,
    text_literal,
};
pub use numbers::{make_number, number_by, within};
pub use operators::{negate, operate};
pub use stop::{Stop, faulted, stuck};
