//! The texts of values and of cases.
ghost use Rattle.std.specs.Prelude.{◌≡◌, ◌++◌, true, All, IfOk, OnOk, codes, map};
ghost use Rattle.std.specs.Fmt.{signed_decimal};
ghost use Rattle.mpy_tree.specs.Operations.{fits_width};
ghost use Rattle.mpy_tree.specs.Printing.{commas, escaped, quoted_text, truth_text, value_text};
ghost use Rattle.mpy_tree.specs.Printing.{values_text};
ghost use Rattle.input_space.specs.CaseLaws.{IsPrintable};
ghost use Rattle.input_space.specs.Cases.{SpellsCase};

use crate::NoMemory;
use crate::case::Case;
use itoa::Buffer;
use mpy_tree::Value;
use std::alloc::Global;

fn print_number(out: &mut Vec<u8>, z: i32) -> Result<(), NoMemory>
    ensures { OnOk result (out.new.items ≡ out.old.items ++ signed_decimal z) }
{
    let mut buffer = Buffer::new();
    out.extend_from_slice(buffer.format(z).as_bytes())?;
    Ok(())
}

fn print_truth(out: &mut Vec<u8>, b: bool) -> Result<(), NoMemory>
    ensures { OnOk result (out.new.items ≡ out.old.items ++ truth_text b) }
{
    if b {
        out.extend_from_slice(b"True")?;
    } else {
        out.extend_from_slice(b"False")?;
    }
    Ok(())
}

#[tactic(auto, using(crate::proofs::Joining::joined_steps))]
fn print_numbers(out: &mut Vec<u8>, zs: &[i32]) -> Result<(), NoMemory>
    ensures text { OnOk result
        (out.new.items
        ≡ out.old.items ++ (codes "[" ++ commas (map signed_decimal zs.now) ++ codes "]")) }
    ensures fits { OnOk result (All (λ z. fits_width 32 z ≡ true) zs.now) }
{
    let mut separator: &[u8] = b"";
    out.extend_from_slice(b"[")?;
    for z in zs {
        out.extend_from_slice(separator)?;
        print_number(out, *z)?;
        separator = b", ";
    }
    out.extend_from_slice(b"]")?;
    Ok(())
}

fn print_character(out: &mut Vec<u8>, c: u8) -> Result<(), NoMemory>
    ensures { OnOk result (out.new.items ≡ out.old.items ++ escaped c) }
{
    match c {
        b'\\' => out.extend_from_slice(b"\\\\")?,
        b'\'' => out.extend_from_slice(b"\\'")?,
        _ => out.push(c)?,
    }
    Ok(())
}

fn print_text(out: &mut Vec<u8>, text: &[u8]) -> Result<(), NoMemory>
    ensures { OnOk result (out.new.items ≡ out.old.items ++ quoted_text text.now) }
{
    out.extend_from_slice(b"'")?;
    for c in text {
        print_character(out, *c)?;
    }
    out.extend_from_slice(b"'")?;
    Ok(())
}

/// Adds the text of a value: a number in decimal, `True` or `False`, a list as `[1, -2]`, a text in
/// single quotes. Each value is one that is read back from its text.
pub fn print_value(out: &mut Vec<u8>, v: &Value) -> Result<(), NoMemory>
    ensures text { OnOk result (out.new.items ≡ out.old.items ++ value_text v.now) }
    ensures printable { OnOk result (IsPrintable v.now) }
{
    match v {
        Value::Int(z) => print_number(out, *z),
        Value::Bool(b) => print_truth(out, *b),
        Value::List(zs) => print_numbers(out, zs.items()),
        Value::Text(cs) => print_text(out, cs.bytes()),
    }
}

/// Adds the texts of values, with a comma and a space between each two. Each value is one that is
/// read back from its text.
#[tactic(auto, using(crate::proofs::Joining::joined_steps))]
pub fn print_values(out: &mut Vec<u8>, vs: &[Value]) -> Result<(), NoMemory>
    ensures text { OnOk result (out.new.items ≡ out.old.items ++ values_text vs.now) }
    ensures printable { OnOk result (All IsPrintable vs.now) }
{
    let mut separator: &[u8] = b"";
    for v in vs {
        out.extend_from_slice(separator)?;
        print_value(out, v)?;
        separator = b", ";
    }
    Ok(())
}

/// The values of the case, with a comma and a space between each two; the text spells the case.
pub fn print_case(alloc: Global, c: &Case) -> Result<Vec<u8>, NoMemory>
    ensures text { IfOk result (λ t. t.items ≡ values_text c.now.values) }
    ensures spelled { IfOk result (λ t. SpellsCase t.items c.now.values) }
{
    let mut out = Vec::new(alloc);
    print_values(&mut out, c.values.items())?;
    Ok(out)
}
