//! The words of the command.

/// The names of bounds, of a reference, and of submissions.
#[derive(Clone, Copy)]
pub struct PickWords<'a> {
    pub bounds: &'a str,
    pub reference: &'a str,
    pub submissions: &'a [String],
}
