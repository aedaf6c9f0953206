//! How statements complete.

use mpy_tree::Value;

/// How statements complete, where nothing stops them.
#[derive(Drop)]
pub enum Completion {
    Next,
    Broke,
    Continued,
    /// With a value, or by a `return` alone that ends the run.
    Returned(Option<Value>),
}
