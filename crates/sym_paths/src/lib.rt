//! Ways through a body of statements as bits, over any logic.
#![tactic(auto)]

pub mod assign;
pub mod done;
pub mod entry;
pub mod finish;
pub mod join;
pub mod outs;
pub mod path;
pub mod printed;
pub mod slots;
pub mod split;
pub mod store;

pub use path::{Given, Many, Out, Path};
pub use slots::Slots;
