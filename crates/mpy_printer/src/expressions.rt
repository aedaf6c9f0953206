//! Expressions.
ghost use Rattle.std.specs.Prelude.{◌≡◌, ◌++◌, OnOk, codes};
ghost use Rattle.mpy_tree.specs.Printing.{at_level, commas, end_text, text_of, texts_of};
ghost use Rattle.mpy_tree.specs.View.{end_by, term_of, terms_of};

use crate::levels::level_of_expr;
use crate::literals::{write_number, write_quoted, write_truth};
use crate::operators::{arith_word, cmp_word, write_spaced};
use mpy_tree::{Expr, Exprs, Level, NoMemory};

/// Adds an expression.
#[cycle(expressions)]
pub(crate) fn write_expr(e: &Expr, out: &mut Vec<u8>) -> Result<(), NoMemory>
    ensures { OnOk result (out.new.items ≡ out.old.items ++ text_of (term_of e.now)) }
{
    match e {
        Expr::Int(n) => write_number(*n, out)?,
        Expr::Bool(b) => write_truth(*b, out)?,
        Expr::Text(text) => write_quoted(text, out)?,
        Expr::Name(x) => out.extend_from_slice(x.bytes())?,
        Expr::List(es) => {
            out.extend_from_slice(b"[")?;
            write_exprs(es, out)?;
            out.extend_from_slice(b"]")?;
        }
        Expr::Neg(a) => {
            out.extend_from_slice(b"-")?;
            write_part(a, Level::Unary, out)?;
        }
        Expr::Not(a) => {
            out.extend_from_slice(b"not ")?;
            write_part(a, Level::Negation, out)?;
        }
        Expr::Arith(op, a, b) => {
            write_part(a, Level::left_of(*op), out)?;
            write_spaced(arith_word(*op), out)?;
            write_part(b, Level::right_of(*op), out)?;
        }
        Expr::Cmp(op, a, b) => {
            write_part(a, Level::Sum, out)?;
            write_spaced(cmp_word(*op), out)?;
            write_part(b, Level::Sum, out)?;
        }
        Expr::And(a, b) => {
            write_part(a, Level::Conjunction, out)?;
            out.extend_from_slice(b" and ")?;
            write_part(b, Level::Negation, out)?;
        }
        Expr::Or(a, b) => {
            write_part(a, Level::Disjunction, out)?;
            out.extend_from_slice(b" or ")?;
            write_part(b, Level::Conjunction, out)?;
        }
        Expr::Cond { test, yes, no } => {
            write_part(yes, Level::Disjunction, out)?;
            out.extend_from_slice(b" if ")?;
            write_part(test, Level::Disjunction, out)?;
            out.extend_from_slice(b" else ")?;
            write_expr(no, out)?;
        }
        Expr::Index(v, i) => {
            write_part(v, Level::Postfix, out)?;
            out.extend_from_slice(b"[")?;
            write_expr(i, out)?;
            out.extend_from_slice(b"]")?;
        }
        Expr::Slice(v, from, to) => {
            write_part(v, Level::Postfix, out)?;
            write_from(from, out)?;
            write_to(to, out)?;
        }
        Expr::Call(f, es) => {
            out.extend_from_slice(f.bytes())?;
            write_arguments(es, out)?;
        }
    }
    Ok(())
}

/// Adds a part, in parentheses where its own level is below the one asked for.
#[cycle(expressions)]
fn write_part(e: &Expr, asked: Level, out: &mut Vec<u8>) -> Result<(), NoMemory>
    ensures { OnOk result
        (out.new.items ≡ out.old.items
        ++ at_level asked (term_of e.now) (text_of (term_of e.now))) }
{
    if level_of_expr(e).rank() < asked.rank() {
        out.extend_from_slice(b"(")?;
        write_expr(e, out)?;
        out.extend_from_slice(b")")?;
        return Ok(());
    }
    write_expr(e, out)
}

/// Adds expressions with a comma and a space between each two.
#[tactic(auto, using(crate::proofs::Joining::joined_steps))]
#[cycle(expressions)]
fn write_exprs(es: &Exprs, out: &mut Vec<u8>) -> Result<(), NoMemory>
    ensures { OnOk result (out.new.items ≡ out.old.items ++ commas (texts_of (terms_of es.now))) }
{
    let mut separator: &[u8] = b"";
    for e in &es.items {
        out.extend_from_slice(separator)?;
        write_expr(e, out)?;
        separator = b", ";
    }
    Ok(())
}

/// Adds the arguments of a call.
#[cycle(expressions)]
fn write_arguments(es: &Exprs, out: &mut Vec<u8>) -> Result<(), NoMemory>
    ensures { OnOk result
        (out.new.items ≡ out.old.items
        ++ (codes "(" ++ commas (texts_of (terms_of es.now)) ++ codes ")")) }
{
    out.extend_from_slice(b"(")?;
    write_exprs(es, out)?;
    out.extend_from_slice(b")")?;
    Ok(())
}

/// Adds the first end of a slice, with what stands round it.
#[cycle(expressions)]
fn write_from(from: &Option<Box<Expr>>, out: &mut Vec<u8>) -> Result<(), NoMemory>
    ensures { OnOk result
        (out.new.items ≡ out.old.items
        ++ (codes "[" ++ end_text (end_by (λ b. term_of b.value) from.now) ++ codes ":")) }
{
    out.extend_from_slice(b"[")?;
    write_end(from, out)?;
    out.extend_from_slice(b":")?;
    Ok(())
}

/// Adds the last end of a slice, with what stands after it.
#[cycle(expressions)]
fn write_to(to: &Option<Box<Expr>>, out: &mut Vec<u8>) -> Result<(), NoMemory>
    ensures { OnOk result
        (out.new.items ≡ out.old.items
        ++ (end_text (end_by (λ b. term_of b.value) to.now) ++ codes "]")) }
{
    write_end(to, out)?;
    out.extend_from_slice(b"]")?;
    Ok(())
}

/// Adds an end of a slice, which may be missing.
#[cycle(expressions)]
fn write_end(e: &Option<Box<Expr>>, out: &mut Vec<u8>) -> Result<(), NoMemory>
    ensures { OnOk result
        (out.new.items ≡ out.old.items ++ end_text (end_by (λ b. term_of b.value) e.now)) }
{
    match e {
        None => Ok(()),
        Some(e) => write_expr(e, out),
    }
}
