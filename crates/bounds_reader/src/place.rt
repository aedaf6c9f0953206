//! The order of a bounds file.

/// What the next line with words has to say.
#[derive(Clone, Copy)]
pub(crate) enum Place {
    Width,
    Turns,
    Depth,
    Cap,
    Entry,
    /// One more parameter, or how many printed values are compared.
    Param,
    /// No line is to follow.
    End,
}
