//! Calls that are built once: a logic that remembers what calls of functions gave, over any logic.
#![tactic(auto)]

mod call;
mod matching;
mod once;
mod remembering;
mod same;
mod setting;

pub use once::Once;
pub use remembering::Remembering;
pub use setting::Setting;
