//! Weighted trees, their selections, and the rules of error models.
#![tactic(auto)]

mod costing;
mod counting;
mod edit;
mod editing;
mod fitting;
mod forms;
mod head;
mod laws;
mod making;
mod node;
mod rules;
mod selection;
mod statements;
mod tree;

pub use costing::cost;
pub use counting::{choices, most_cost};
pub use edit::{Edit, Edits};
pub use editing::edits;
pub use fitting::fits;
pub use forms::{Mark, Operator};
pub use head::{Head, head_of, plain_node, weighted_node};
pub use laws::{
    greatest_cost_is_reached, selections_are_rewritings, trees_have_the_types_of_terms,
};
pub use making::plain_expr;
pub use node::{Node, Pick, expr_child};
pub use rules::{
    ArithOps, CmpOps, Meta, PArith, PCmp, PExpr, PExprs, Pattern, Place, Right, Rule, Rules,
};
pub use selection::{Choice, Selection};
pub use statements::plain;
use std::alloc::AllocError;
pub use tree::{
    Other, Others, WAct, WArm, WArms, WExpr, WExprs, WFunc, WFuncs, WProg, WStmt, WStmts,
};

/// Want of memory, where a call has no other refusal.
pub type NoMemory = AllocError;
