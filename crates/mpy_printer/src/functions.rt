//! Functions.
ghost use Rattle.std.specs.Prelude.{◌≡◌, ◌++◌, OnOk, codes, map};
ghost use Rattle.mpy_tree.specs.Printing.{commas, program_text, routine_text};
ghost use Rattle.mpy_tree.specs.View.{routine_of};

use crate::statements::write_block;
use mpy_tree::{Func, Funcs, Names, NoMemory};

/// Adds names with a comma and a space between each two.
#[tactic(auto, using(crate::proofs::Joining::joined_steps))]
fn write_names(names: &Names, out: &mut Vec<u8>) -> Result<(), NoMemory>
    ensures { OnOk result (out.new.items ≡ out.old.items ++ commas names.now) }
{
    let mut separator: &[u8] = b"";
    for x in names.items() {
        out.extend_from_slice(separator)?;
        out.extend_from_slice(x.bytes())?;
        separator = b", ";
    }
    Ok(())
}

/// Adds a function.
fn write_func(f: &Func, out: &mut Vec<u8>) -> Result<(), NoMemory>
    ensures { OnOk result (out.new.items ≡ out.old.items ++ routine_text (routine_of f.now)) }
{
    out.extend_from_slice(b"def ")?;
    out.extend_from_slice(f.name.bytes())?;
    out.extend_from_slice(b"(")?;
    write_names(&f.params, out)?;
    out.extend_from_slice(b"):\n")?;
    write_block(&f.body, 1, out)
}

/// Adds functions with an empty line between each two.
#[tactic(auto, using(crate::proofs::Joining::joined_steps))]
pub(crate) fn write_funcs(funcs: &Funcs, out: &mut Vec<u8>) -> Result<(), NoMemory>
    ensures { OnOk result
        (out.new.items ≡ out.old.items ++ program_text (map routine_of funcs.now.items.items)) }
{
    let mut separator: &[u8] = b"";
    for f in &funcs.items {
        out.extend_from_slice(separator)?;
        write_func(f, out)?;
        separator = b"\n";
    }
    Ok(())
}
