//! A program and its text: what is read is proper, and a proper program is read from its printed
//! text.
#![tactic(auto)]

mod laws;
mod reading_proper;
mod reread;

pub use laws::{parenthesized_above_its_level, spelled_by_its_text, spelled_by_no_other};
pub use reading_proper::what_is_read_is_proper;
pub use reread::print_and_read;
