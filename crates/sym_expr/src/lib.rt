//! Weighted expressions as words of bits, over any logic.
#![tactic(auto)]

pub mod alone;
pub mod bodiless;
pub mod calls;
pub mod functions;
pub mod laws;
pub mod walk;

pub use alone::{sym_expr, sym_node};
pub use functions::Functions;
pub use laws::plain_expressions_have_the_type;
pub use sym_nodes::{Env, Picks, View, local};
pub use walk::eval;
