//! The texts of numbers and expressions.
ghost use Rattle.std.specs.Prelude.{◌≡◌, ◌++◌, OnOk};
ghost use Rattle.std.specs.Fmt.{decimal};
ghost use Rattle.mpy_tree.specs.Printing.{text_of};
ghost use Rattle.mpy_tree.specs.View.{term_of};

use crate::NoMemory;
use mpy_printer::print_expr;
use mpy_tree::Expr;
use std::alloc::Global;

/// Adds a number.
pub(crate) fn push_number(alloc: Global, out: &mut Vec<u8>, n: u32) -> Result<(), NoMemory>
    ensures { OnOk result (out.new.items ≡ out.old.items ++ decimal n) }
{
    let text = format!(in alloc; "{n}")?;
    out.extend_from_slice(text.as_bytes())
}

/// Adds an expression.
pub(crate) fn push_expr(alloc: Global, out: &mut Vec<u8>, e: &Expr) -> Result<(), NoMemory>
    ensures { OnOk result (out.new.items ≡ out.old.items ++ text_of (term_of e.now)) }
{
    let text = print_expr(alloc, e)?;
    out.extend_from_slice(text.as_slice())
}
