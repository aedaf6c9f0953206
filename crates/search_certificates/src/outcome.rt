//! What a search about a task leaves.

use cegis_loop::Least;
use choice_tree::Selection;
use input_space::{Cases, Sessions};

/// What a search found, the inputs that it kept, and the questions that it asked, in order, each
/// with its formula and its log.
#[derive(Drop)]
pub struct Search {
    pub found: Least<Selection>,
    pub kept: Cases,
    pub sessions: Sessions,
}
