//! Words of bits over any logic: what a logic owes, and arithmetic on words in two's complement.
#![tactic(auto)]

pub mod bits;
pub mod bitwise;
pub mod checked;
pub mod compare;
pub mod floor;
pub mod gates;
pub mod inputs;
pub mod laws;
pub mod logic;
pub mod magnitude;
pub mod narrow;
pub mod number;
pub mod order;
pub mod power;
pub mod product;
pub mod quotient;
pub mod resize;
pub mod sums;
pub mod word;
pub mod words;

use std::alloc::AllocError;

/// Want of memory.
pub type NoMemory = AllocError;
