//! The bounds file: the limits of a run, the function that is graded, and the inputs that count.
#![tactic(auto)]

mod bounds;
mod bounds_error;
mod building;
mod file;
mod foreign;
mod items;
mod laws;
mod lines;
mod params;
mod place;
mod ranges;
mod reading;
mod scan;
mod words;

pub use bounds::Bounds;
pub use bounds_error::BoundsError;
pub use laws::{not_read_and_refused, one_bounds, one_refusal, read_or_refused};
pub use params::{Param, Params};
pub use reading::read_bounds;
pub use scan::{literal_at, signed_at};
use std::alloc::AllocError;

/// Want of memory, where a call has no other refusal.
pub type NoMemory = AllocError;
