//! Which terms the metavariables of a rule's left side stand for, and the resolutions of its right
//! side.
#![tactic(auto)]

mod bindings;
mod heads;
mod laws;
mod matching;
pub mod parts;
pub mod pattern_parts;
mod rules;
mod sites;

pub use bindings::{Binding, Bound};
pub use laws::{heads_have_parts, matching_rules_propose, resolutions_by_number};
pub use matching::match_expr;
pub use rules::{Matched, matched_rules};
pub use sites::Site;
use std::alloc::AllocError;

/// Want of memory, where a call has no other refusal.
pub type NoMemory = AllocError;
