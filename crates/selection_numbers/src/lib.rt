//! The selections of a weighted tree, each by a number.
#![tactic(auto)]

mod laws;
mod member_counts;

pub use laws::{few_picks, live_picks_fit, live_picks_suffice, selections_have_numbers};
pub use member_counts::MemberCounts;
use std::alloc::AllocError;

/// Want of memory, where a call has no other refusal.
pub type NoMemory = AllocError;
