//! Where lines stand.

/// What the lines below a line need to know of it.
#[derive(Clone, Copy)]
pub(crate) struct Place {
    pub(crate) column: u32,
    /// a header with nothing behind its colon
    pub(crate) is_open: bool,
    /// an `if` or an `elif`
    pub(crate) is_arm: bool,
    /// whether the line stands in a loop
    pub(crate) in_loop: bool,
    /// whether its body does
    pub(crate) body_in_loop: bool,
}
