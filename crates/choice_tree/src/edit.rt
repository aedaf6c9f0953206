//! Replacements.
use mpy_tree::Expr;

/// A replacement: its pick, its line, its rule, counted from 0, the expression that was there, and
/// the one that stands there afterwards, inner replacements included.
#[derive(Drop)]
pub struct Edit {
    pub pick: u32,
    pub line: u32,
    pub rule: u32,
    pub old: Expr,
    pub new: Expr,
}

/// Replacements in order of place, an outer one before its inner ones.
#[derive(Drop)]
pub struct Edits {
    pub items: Vec<Edit>,
}
