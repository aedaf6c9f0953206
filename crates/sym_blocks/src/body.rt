//! What the statements of a body are run in.

use sym_expr::Picks;
use sym_paths::Slots;

/// What the statements of a body are run in: the locals of its function, the picks, the functions
/// that may be called, and how deep the call is, from 1 on.
#[derive(Drop)]
pub struct Body<'a, B: Copy, C> {
    pub slots: &'a Slots,
    pub picks: &'a Picks<B>,
    pub functions: &'a C,
    pub depth: u32,
}
