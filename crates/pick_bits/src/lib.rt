//! Selections as bits: new variables for the members of a tree's picks, and the selection that
//! truth values spell.
#![tactic(auto)]

mod decode;
mod fresh;
mod members;

pub use decode::decode_selection;
pub use fresh::{RangedMembers, fresh_members};
pub use members::member_bits;
