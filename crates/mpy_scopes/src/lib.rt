//! The functions of a program with their locals and slots, and faults of names.
#![tactic(auto)]

mod callees;
mod faults;
mod flow;
mod index;
mod lines;
mod names;
mod nodes;
mod scope;

pub use callees::{Numbered, builtin_gives, called};
pub use faults::{entry_fault, names_fault};
pub use flow::Target;
pub use index::Index;
pub use lines::{sooner, sooner_if};
pub use names::assigned;
pub use nodes::{Site, push_nodes, push_site_nodes, push_sites};
pub use scope::{Scope, Scopes, read_scopes};
