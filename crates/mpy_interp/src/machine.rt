//! What a run is handed.

use crate::calls::Calls;
use mpy_tree::Limits;
use std::alloc::Global;

/// What each part of a run is handed: memory, the limits, and the calls of the program's functions.
#[derive(Clone, Copy, Drop)]
pub struct Machine<'a, C: Calls> {
    pub alloc: Global,
    pub limits: &'a Limits,
    pub calls: &'a C,
}
