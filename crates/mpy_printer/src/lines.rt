//! Lines, and what stands on one line.
ghost use Rattle.std.specs.Prelude.{◌≡◌, ◌++◌, ◌+◌, IfOk, OnOk, codes, suc};
ghost use Rattle.mpy_tree.specs.Operations.{copies};
ghost use Rattle.mpy_tree.specs.Printing.{action_text, arith_text, indented, return_text, text_of};
ghost use Rattle.mpy_tree.specs.Syntax as ast;
ghost use Rattle.mpy_tree.specs.View.{maybe_term, term_of};

use crate::expressions::write_expr;
use crate::operators::arith_word;
use mpy_tree::{ArithOp, Expr, Name, NoMemory};
use std::alloc::AllocError;

/// One block deeper. Memory has no room for a tree with more levels than a `usize` counts.
pub(crate) fn deeper(depth: usize) -> Result<usize, NoMemory>
    ensures { IfOk result (λ d. d ≡ suc depth) }
{
    depth.checked_add(1).ok_or(AllocError)
}

/// Adds the spaces at the front of a line.
#[tactic(auto, using(crate::proofs::Indentation::one_deeper))]
fn write_indent(depth: usize, out: &mut Vec<u8>) -> Result<(), NoMemory>
    ensures { OnOk result (out.new.items ≡ out.old.items ++ copies depth (codes "    ")) }
{
    for _block in 0..depth {
        out.extend_from_slice(b"    ")?;
    }
    Ok(())
}

/// Adds a line that is one word.
#[tactic(auto, using(crate::proofs::Indentation::line_steps))]
pub(crate) fn write_word(word: &[u8], depth: usize, out: &mut Vec<u8>) -> Result<(), NoMemory>
    ensures { OnOk result (out.new.items ≡ out.old.items ++ indented depth word.now) }
{
    write_indent(depth, out)?;
    out.extend_from_slice(word)?;
    out.extend_from_slice(b"\n")?;
    Ok(())
}

/// Adds the line of a test, after a word.
#[tactic(auto, using(crate::proofs::Indentation::line_steps))]
pub(crate) fn write_test(
    word: &[u8],
    test: &Expr,
    depth: usize,
    out: &mut Vec<u8>,
) -> Result<(), NoMemory>
    ensures { OnOk result
        (out.new.items ≡ out.old.items
        ++ indented depth (word.now ++ text_of (term_of test.now) ++ codes ":")) }
{
    write_indent(depth, out)?;
    out.extend_from_slice(word)?;
    write_expr(test, out)?;
    out.extend_from_slice(b":\n")?;
    Ok(())
}

/// Adds the line of a `for`.
#[tactic(auto, using(crate::proofs::Indentation::line_steps))]
pub(crate) fn write_for(x: &Name, e: &Expr, depth: usize, out: &mut Vec<u8>) -> Result<(), NoMemory>
    ensures { OnOk result
        (out.new.items ≡ out.old.items
        ++ indented depth
        (codes "for " ++ x.now ++ codes " in " ++ text_of (term_of e.now) ++ codes ":")) }
{
    write_indent(depth, out)?;
    out.extend_from_slice(b"for ")?;
    out.extend_from_slice(x.bytes())?;
    out.extend_from_slice(b" in ")?;
    write_expr(e, out)?;
    out.extend_from_slice(b":\n")?;
    Ok(())
}

/// Adds `x = e`.
#[tactic(auto, using(crate::proofs::Indentation::line_steps))]
pub(crate) fn write_assign(
    x: &Name,
    e: &Expr,
    depth: usize,
    out: &mut Vec<u8>,
) -> Result<(), NoMemory>
    ensures { OnOk result
        (out.new.items ≡ out.old.items ++ action_text depth (ast.Assign x.now (term_of e.now))) }
{
    write_indent(depth, out)?;
    out.extend_from_slice(x.bytes())?;
    out.extend_from_slice(b" = ")?;
    write_expr(e, out)?;
    out.extend_from_slice(b"\n")?;
    Ok(())
}

/// Adds `x op= e`.
#[tactic(auto, using(crate::proofs::Indentation::line_steps))]
pub(crate) fn write_augment(
    x: &Name,
    op: ArithOp,
    e: &Expr,
    depth: usize,
    out: &mut Vec<u8>,
) -> Result<(), NoMemory>
    ensures { OnOk result
        (out.new.items ≡ out.old.items
        ++ action_text depth (ast.Augment x.now op (term_of e.now))) }
{
    write_indent(depth, out)?;
    out.extend_from_slice(x.bytes())?;
    out.extend_from_slice(b" ")?;
    out.extend_from_slice(arith_word(op))?;
    out.extend_from_slice(b"= ")?;
    write_expr(e, out)?;
    out.extend_from_slice(b"\n")?;
    Ok(())
}

/// Adds `x[i] = e`.
#[tactic(auto, using(crate::proofs::Indentation::line_steps))]
pub(crate) fn write_put(
    x: &Name,
    i: &Expr,
    e: &Expr,
    depth: usize,
    out: &mut Vec<u8>,
) -> Result<(), NoMemory>
    ensures { OnOk result
        (out.new.items ≡ out.old.items
        ++ action_text depth (ast.Put x.now (term_of i.now) (term_of e.now))) }
{
    write_indent(depth, out)?;
    out.extend_from_slice(x.bytes())?;
    out.extend_from_slice(b"[")?;
    write_expr(i, out)?;
    out.extend_from_slice(b"] = ")?;
    write_expr(e, out)?;
    out.extend_from_slice(b"\n")?;
    Ok(())
}

/// Adds `x[i] op= e`.
#[tactic(auto, using(crate::proofs::Indentation::line_steps))]
pub(crate) fn write_augment_at(
    x: &Name,
    i: &Expr,
    op: ArithOp,
    e: &Expr,
    depth: usize,
    out: &mut Vec<u8>,
) -> Result<(), NoMemory>
    ensures { OnOk result
        (out.new.items ≡ out.old.items
        ++ action_text depth (ast.AugmentAt x.now (term_of i.now) op (term_of e.now))) }
{
    write_indent(depth, out)?;
    out.extend_from_slice(x.bytes())?;
    out.extend_from_slice(b"[")?;
    write_expr(i, out)?;
    out.extend_from_slice(b"] ")?;
    out.extend_from_slice(arith_word(op))?;
    out.extend_from_slice(b"= ")?;
    write_expr(e, out)?;
    out.extend_from_slice(b"\n")?;
    Ok(())
}

/// Adds `x.append(e)`.
#[tactic(auto, using(crate::proofs::Indentation::line_steps))]
pub(crate) fn write_append(
    x: &Name,
    e: &Expr,
    depth: usize,
    out: &mut Vec<u8>,
) -> Result<(), NoMemory>
    ensures { OnOk result
        (out.new.items ≡ out.old.items ++ action_text depth (ast.Append x.now (term_of e.now))) }
{
    write_indent(depth, out)?;
    out.extend_from_slice(x.bytes())?;
    out.extend_from_slice(b".append(")?;
    write_expr(e, out)?;
    out.extend_from_slice(b")\n")?;
    Ok(())
}

/// Adds `print(e)`.
#[tactic(auto, using(crate::proofs::Indentation::line_steps))]
pub(crate) fn write_print(e: &Expr, depth: usize, out: &mut Vec<u8>) -> Result<(), NoMemory>
    ensures { OnOk result
        (out.new.items ≡ out.old.items ++ action_text depth (ast.Print (term_of e.now))) }
{
    write_indent(depth, out)?;
    out.extend_from_slice(b"print(")?;
    write_expr(e, out)?;
    out.extend_from_slice(b")\n")?;
    Ok(())
}

/// Adds a `return`, with its value if it has one.
#[tactic(auto, using(crate::proofs::Indentation::line_steps))]
pub(crate) fn write_return(
    e: &Option<Expr>,
    depth: usize,
    out: &mut Vec<u8>,
) -> Result<(), NoMemory>
    ensures { OnOk result
        (out.new.items ≡ out.old.items ++ action_text depth (ast.Return (maybe_term e.now))) }
{
    match e {
        None => write_word(b"return", depth, out),
        Some(e) => {
            write_indent(depth, out)?;
            out.extend_from_slice(b"return ")?;
            write_expr(e, out)?;
            out.extend_from_slice(b"\n")?;
            Ok(())
        }
    }
}
