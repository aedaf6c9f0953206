//! How operators are written.
ghost use Rattle.std.specs.Prelude.{◌≡◌, ◌++◌, OnOk, codes};
ghost use Rattle.mpy_tree.specs.Printing.{arith_text, compare_text, spaced};

use mpy_tree::{ArithOp, CmpOp, NoMemory};

/// The text of an operator on numbers.
pub(crate) fn arith_word(op: ArithOp) -> &'static [u8]
    ensures { result.now ≡ arith_text op }
{
    match op {
        ArithOp::Add => b"+",
        ArithOp::Sub => b"-",
        ArithOp::Mul => b"*",
        ArithOp::Floor => b"//",
        ArithOp::Rem => b"%",
        ArithOp::Power => b"**",
    }
}

/// The text of a comparison.
pub(crate) fn cmp_word(op: CmpOp) -> &'static [u8]
    ensures { result.now ≡ compare_text op }
{
    match op {
        CmpOp::Eq => b"==",
        CmpOp::Ne => b"!=",
        CmpOp::Lt => b"<",
        CmpOp::Le => b"<=",
        CmpOp::Gt => b">",
        CmpOp::Ge => b">=",
        CmpOp::Member => b"in",
        CmpOp::NotMember => b"not in",
    }
}

/// Adds a word with a space on each side.
pub(crate) fn write_spaced(word: &[u8], out: &mut Vec<u8>) -> Result<(), NoMemory>
    ensures { OnOk result (out.new.items ≡ out.old.items ++ spaced word.now) }
{
    out.extend_from_slice(b" ")?;
    out.extend_from_slice(word)?;
    out.extend_from_slice(b" ")?;
    Ok(())
}
