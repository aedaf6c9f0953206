//! The first line that passes a limit, or has a number out of its range.
ghost use Rattle.std.specs.Prelude.{◌≡◌, ◌≤◌, ◌==◌, pos, false, map, nat_abs};
ghost use Rattle.std.specs.Prelude.{option_map};
ghost use Rattle.std.specs.List.{list_any};
ghost use Rattle.mpy_tree.specs.Operations.{fits_width};
ghost use Rattle.bounds_reader.specs.Ranges.{are_numbers, are_lengths, has_twice, is_alphabet};
ghost use Rattle.bounds_reader.specs.Ranges.{is_in_range};
ghost use Rattle.bounds_reader.specs.Files.{is_outside, limit_fault, range_fault};
ghost use Rattle.bounds_reader.specs.Files.{param_limit_fault, param_range_fault};
ghost use Rattle.bounds_reader.specs.Files.{compare_range_fault};
ghost use Rattle.bounds_reader.specs.Views.{form_view, param_lines, number_line, file_view};

use crate::file::{File, NumberLine, ParamLine};
use crate::items::Form;

const MOST_PARAMS: usize = 4;

// The first parameter behind the fourth, or with a long name.
fn param_limit_fault(params: &[ParamLine]) -> Option<u32>
    ensures { result ≡ param_limit_fault 0 (param_lines params.now) }
{
    for (before, p) in params.iter().enumerate() {
        if before >= MOST_PARAMS || p.param.name.is_long() {
            return Some(p.line);
        }
    }
    None
}

/// The first line with a long name, or with a fifth parameter.
pub(crate) fn limit_fault(file: &File) -> Option<u32>
    ensures { result ≡ limit_fault (file_view file.now) }
{
    if file.entry.name.is_long() {
        Some(file.entry.line)
    } else {
        param_limit_fault(&file.params)
    }
}

fn fits_width(width: u32, number: i32) -> bool
    requires least { 1 ≤ width }
    requires most { width ≤ 16 }
    ensures { result ≡ fits_width width number }
{
    let bound = 1i32 << (width - 1);
    -bound <= number && number < bound
}

fn are_numbers(width: u32, low: i32, high: i32) -> bool
    requires least { 1 ≤ width }
    requires most { width ≤ 16 }
    ensures { result ≡ are_numbers width low high }
{
    low <= high && fits_width(width, low) && fits_width(width, high)
}

fn are_lengths(cap: u32, least: i32, most: i32) -> bool
    requires { cap ≤ 16 }
    ensures { result ≡ are_lengths cap least most }
{
    0 <= least && least <= most && most <= cap as i32
}

fn has_twice(bytes: &[u8]) -> bool
    ensures { result ≡ has_twice bytes.now }
{
    for (i, byte) in bytes.iter().enumerate() {
        if bytes[..i].contains(byte) {
            return true;
        }
    }
    false
}

fn is_alphabet(bytes: &[u8]) -> bool
    ensures { result ≡ is_alphabet bytes.now }
{
    !bytes.is_empty() && !has_twice(bytes)
}

fn is_in_range(width: u32, cap: u32, form: &Form) -> bool
    requires least { 1 ≤ width }
    requires most { width ≤ 16 }
    requires cap { cap ≤ 16 }
    ensures { result ≡ is_in_range width cap (form_view form.now) }
{
    match form {
        Form::Int { low, high } => are_numbers(width, *low, *high),
        Form::Bool => true,
        Form::List {
            least,
            most,
            low,
            high,
        } => are_lengths(cap, *least, *most) && are_numbers(width, *low, *high),
        Form::Text {
            least,
            most,
            alphabet,
        } => are_lengths(cap, *least, *most) && is_alphabet(alphabet.bytes()),
    }
}

fn param_range_fault(width: u32, cap: u32, params: &[ParamLine]) -> Option<u32>
    requires least { 1 ≤ width }
    requires most { width ≤ 16 }
    requires cap { cap ≤ 16 }
    ensures { result ≡ param_range_fault width cap (param_lines params.now) }
{
    for p in params {
        if !is_in_range(width, cap, &p.param.form) {
            return Some(p.line);
        }
    }
    None
}

fn is_outside(least: u32, most: u32, number: i32) -> bool
    requires least { least ≤ 2147483647 }
    requires most { most ≤ 2147483647 }
    ensures { result ≡ is_outside least most number }
{
    !(least as i32 <= number && number <= most as i32)
}

fn compare_range_fault(compared: &Option<NumberLine>) -> Option<u32>
    ensures { result ≡ compare_range_fault (option_map number_line compared.now) }
{
    match compared {
        None => None,
        Some(n) => {
            if is_outside(1, 8, n.number) {
                Some(n.line)
            } else {
                None
            }
        }
    }
}

/// The first line with a number out of its range.
pub(crate) fn range_fault(file: &File) -> Option<u32>
    ensures { result ≡ range_fault (file_view file.now) }
{
    if is_outside(3, 16, file.width.number) {
        return Some(file.width.line);
    }
    if is_outside(1, 32, file.turns.number) {
        return Some(file.turns.line);
    }
    if is_outside(1, 8, file.depth.number) {
        return Some(file.depth.line);
    }
    if is_outside(1, 16, file.cap.number) {
        return Some(file.cap.line);
    }
    let width = file.width.number.unsigned_abs();
    let cap = file.cap.number.unsigned_abs();
    match param_range_fault(width, cap, &file.params) {
        Some(line) => Some(line),
        None => compare_range_fault(&file.compared),
    }
}
