//! The nodes of weighted expressions as words of bits, over any logic.
#![tactic(auto)]

pub mod arithmetic;
pub mod builtins;
pub mod choices;
pub mod comparisons;
pub mod decided;
pub mod env;
pub mod given;
pub mod known;
pub mod literals;
pub mod locals;
pub mod nodes;
pub mod operands;
pub mod operations;
pub mod sequences;
pub mod shortcuts;
pub mod strict;
pub mod view;

pub use env::{Env, Picks};
pub use locals::local;
pub use nodes::node_in_view;
pub use view::View;
