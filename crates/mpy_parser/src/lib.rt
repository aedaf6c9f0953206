//! Programs read from their text, exactly as the grammar spells them.
#![tactic(auto)]

mod blocks;
mod building;
mod columns;
mod entries;
mod headers;
mod items;
mod kinds;
mod nesting_laws;
mod piles;
mod places;
mod program_laws;
mod programs;
mod read_error;
mod stacks;
mod statements;

pub use nesting_laws::{
    nested_in_one_way, nested_without_block_fault, nested_without_fault,
    nested_without_indent_fault, same_indent_fault,
};
pub use program_laws::{
    not_read_and_refused, one_program, one_refusal, read_or_refused, refused_for_a_limit,
};
pub use programs::read_prog;
pub use read_error::ReadError;
use std::alloc::AllocError;

/// Want of memory, where a call has no other refusal.
pub type NoMemory = AllocError;
