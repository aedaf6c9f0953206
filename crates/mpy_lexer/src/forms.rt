//! The two kinds of text, and the kinds of token in them.

/// What a text is.
#[derive(Clone, Copy, PartialEq, Eq, Debug, Drop)]
pub enum Form {
    /// A program.
    Program,
    /// A file of rules: with metavariables and some marks more, and tabs anywhere.
    Rules,
}

/// What a token is.
#[derive(Clone, Copy, PartialEq, Eq, Debug, Drop)]
pub enum Kind {
    /// A name that isn't reserved.
    Name,
    /// A reserved word.
    Reserved,
    /// Digits without a leading zero, at most 2147483647.
    Number,
    /// A text literal, with its quotes.
    Text,
    /// An operator, a bracket or other punctuation.
    Mark,
    /// A metavariable; in rules alone.
    Meta,
}
