//! Typed values as words of bits, and the operations on them, over any logic.
#![tactic(auto)]

pub mod alike;
pub mod choose;
pub mod constant;
pub mod division;
mod done;
pub mod equality;
pub mod order;
pub mod printed;
pub mod size;
pub mod sums;
pub mod truth;
pub mod unary;
pub mod value;

pub use bit_words::NoMemory;
pub use done::{PrintSlot, PrintSlots, SymDone};
pub use value::{SymOutcome, SymValue, SymValues};
