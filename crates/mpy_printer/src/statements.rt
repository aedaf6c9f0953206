//! Statements and bodies.
ghost use Rattle.std.specs.Prelude.{◌≡◌, ◌++◌, OnOk, codes};
ghost use Rattle.mpy_tree.specs.Printing.{action_text, arms_text, block_text, else_text};
ghost use Rattle.mpy_tree.specs.View.{action_of, block_of, block_or_none, branches_of};

use crate::lines::{
    deeper, write_append, write_assign, write_augment, write_augment_at, write_for, write_print,
    write_put, write_return, write_test, write_word,
};
use mpy_tree::{Act, Arms, NoMemory, Stmts};

/// Adds a body, so many blocks deep.
#[cycle(statements)]
pub(crate) fn write_block(b: &Stmts, depth: usize, out: &mut Vec<u8>) -> Result<(), NoMemory>
    ensures { OnOk result (out.new.items ≡ out.old.items ++ block_text depth (block_of b.now)) }
{
    for s in &b.items {
        write_act(&s.act, depth, out)?;
    }
    Ok(())
}

/// Adds a statement.
#[cycle(statements)]
fn write_act(act: &Act, depth: usize, out: &mut Vec<u8>) -> Result<(), NoMemory>
    ensures { OnOk result (out.new.items ≡ out.old.items ++ action_text depth (action_of act.now)) }
{
    match act {
        Act::Assign(x, e) => write_assign(x, e, depth, out),
        Act::Augment(x, op, e) => write_augment(x, *op, e, depth, out),
        Act::Put(x, i, e) => write_put(x, i, e, depth, out),
        Act::AugmentAt(x, i, op, e) => write_augment_at(x, i, *op, e, depth, out),
        Act::Append(x, e) => write_append(x, e, depth, out),
        Act::Print(e) => write_print(e, depth, out),
        Act::Return(e) => write_return(e, depth, out),
        Act::Pass => write_word(b"pass", depth, out),
        Act::Break => write_word(b"break", depth, out),
        Act::Continue => write_word(b"continue", depth, out),
        Act::If(arms, last) => {
            write_arms(arms, depth, out)?;
            write_else(last, depth, out)
        }
        Act::While(test, body) => {
            write_test(b"while ", test, depth, out)?;
            write_block(body, deeper(depth)?, out)
        }
        Act::For(x, e, body) => {
            write_for(x, e, depth, out)?;
            write_block(body, deeper(depth)?, out)
        }
    }
}

/// Adds the arms of an `if`.
#[cycle(statements)]
fn write_arms(arms: &Arms, depth: usize, out: &mut Vec<u8>) -> Result<(), NoMemory>
    ensures { OnOk result
        (out.new.items ≡ out.old.items ++ arms_text depth (codes "if ") (branches_of arms.now)) }
{
    let mut word: &[u8] = b"if ";
    for arm in &arms.items {
        write_test(word, &arm.test, depth, out)?;
        write_block(&arm.body, deeper(depth)?, out)?;
        word = b"elif ";
    }
    Ok(())
}

/// Adds an `else`, where there is one.
#[cycle(statements)]
fn write_else(last: &Option<Stmts>, depth: usize, out: &mut Vec<u8>) -> Result<(), NoMemory>
    ensures { OnOk result
        (out.new.items ≡ out.old.items ++ else_text depth (block_or_none last.now)) }
{
    match last {
        None => Ok(()),
        Some(body) => {
            write_word(b"else:", depth, out)?;
            write_block(body, deeper(depth)?, out)
        }
    }
}
