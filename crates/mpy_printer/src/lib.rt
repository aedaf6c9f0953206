//! The text of expressions and programs.
#![tactic(auto)]

ghost use Rattle.std.specs.Prelude.{◌≡◌, IfOk};
ghost use Rattle.mpy_tree.specs.Printing.{program_text, text_of};
ghost use Rattle.mpy_tree.specs.View.{routines_of, term_of};

mod expressions;
mod functions;
mod levels;
mod lines;
mod literals;
mod operators;
mod statements;

use crate::expressions::write_expr;
use crate::functions::write_funcs;
use mpy_tree::{Expr, NoMemory, Prog};
use std::alloc::Global;

/// The text of an expression, with the parentheses that it needs and no others.
pub fn print_expr(alloc: Global, e: &Expr) -> Result<Vec<u8>, NoMemory>
    ensures { IfOk result (λ r. r.items ≡ text_of (term_of e.now)) }
{
    let mut out = Vec::new(alloc);
    write_expr(e, &mut out)?;
    Ok(out)
}

/// The text of a program. Each line ends with byte 10, and an empty line stands between functions.
pub fn print_prog(alloc: Global, p: &Prog) -> Result<Vec<u8>, NoMemory>
    ensures { IfOk result (λ r. r.items ≡ program_text (routines_of p.now)) }
{
    let mut out = Vec::new(alloc);
    write_funcs(&p.funcs, &mut out)?;
    Ok(out)
}
