//! Numbers, truth values, and quoted texts.
ghost use Rattle.std.specs.Prelude.{◌≡◌, ◌++◌, OnOk, codes};
ghost use Rattle.std.specs.Fmt.{decimal};
ghost use Rattle.mpy_tree.specs.Printing.{escaped, quoted_text, truth_text};

use itoa::Buffer;
use mpy_tree::{Chars, NoMemory};

/// Adds a number in decimal.
pub(crate) fn write_number(n: u32, out: &mut Vec<u8>) -> Result<(), NoMemory>
    ensures { OnOk result (out.new.items ≡ out.old.items ++ decimal n) }
{
    let mut buffer = Buffer::new();
    out.extend_from_slice(buffer.format(n).as_bytes())?;
    Ok(())
}

/// Adds a truth value.
pub(crate) fn write_truth(b: bool, out: &mut Vec<u8>) -> Result<(), NoMemory>
    ensures { OnOk result (out.new.items ≡ out.old.items ++ truth_text b) }
{
    if b {
        out.extend_from_slice(b"True")?;
    } else {
        out.extend_from_slice(b"False")?;
    }
    Ok(())
}

/// Adds a character of a quoted text.
fn write_escaped(c: u8, out: &mut Vec<u8>) -> Result<(), NoMemory>
    ensures { OnOk result (out.new.items ≡ out.old.items ++ escaped c) }
{
    match c {
        b'\\' => out.extend_from_slice(b"\\\\")?,
        b'\'' => out.extend_from_slice(b"\\'")?,
        _ => out.push(c)?,
    }
    Ok(())
}

/// Adds a text between single quotes.
pub(crate) fn write_quoted(text: &Chars, out: &mut Vec<u8>) -> Result<(), NoMemory>
    ensures { OnOk result (out.new.items ≡ out.old.items ++ quoted_text text.now) }
{
    out.extend_from_slice(b"'")?;
    for c in text.bytes() {
        write_escaped(*c, out)?;
    }
    out.extend_from_slice(b"'")?;
    Ok(())
}
