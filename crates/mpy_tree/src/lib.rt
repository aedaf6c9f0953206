//! The syntax of mPy programs, their values, types and refusals, and, in `specs/`, what programs
//! mean.
#![tactic(auto)]

mod builtins;
mod copying;
mod equality;
mod fitting;
mod levels;
mod limits;
mod lists;
mod names;
mod operators;
mod outcome;
mod refusal;
mod sequences;
mod tree;
mod typing;
mod value;

pub use builtins::Builtin;
pub use copying::{copy_expr, copy_prog, copy_stmts};
pub use equality::{same, same_expr};
pub use levels::Level;
pub use limits::Limits;
pub use lists::{Chars, Ints};
pub use names::{Name, Names};
pub use operators::{ArithOp, CmpOp};
pub use outcome::{FaultKind, Halt, Halted, Outcome};
pub use refusal::{Cause, Refusal, Source};
use std::alloc::AllocError;
pub use tree::{Act, Arm, Arms, Expr, Exprs, Func, Funcs, Prog, Stmt, Stmts};
pub use typing::{Fact, Facts, Signature, Slot, Ty, TypeError, TypeSet, Types, Tys};
pub use value::{Value, Values};

/// Want of memory, where a call has no other refusal.
pub type NoMemory = AllocError;
