//! The words of the command.

/// The names of the four sources, how many corrections are written at most, and how many clauses
/// may be logged.
#[derive(Clone, Copy)]
pub struct AllWords<'a> {
    pub bounds: &'a str,
    pub reference: &'a str,
    pub submission: &'a str,
    pub rules: &'a str,
    pub most: u32,
    pub budget: u32,
}
