//! What the range of a number, of a length or of a character fixes of its bits.
#![tactic(auto)]

mod alphabets;
mod high_bits;
mod length_ranges;
mod number_ranges;

pub use alphabets::ranged_character;
pub use high_bits::KnownBits;
pub use length_ranges::{ranged_length, single_length};
pub use number_ranges::ranged_number;
