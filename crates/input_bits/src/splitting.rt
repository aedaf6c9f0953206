//! Which values are split into cases.

ghost use Rattle.std.specs.Prelude.{◌≡◌, ◌≤◌, ◌<◌, ◌^◌, IfOk};
ghost use Rattle.std.specs.List.{AllZip};
ghost use Rattle.input_bits.specs.Cases.{Covers, CoversLengths, cases};

use crate::parts::Split;
use bit_words::NoMemory;
use bounds_reader::{Bounds, Param};
use std::alloc::Global;

/// How many cases there are at most.
const MOST: u32 = 64;

// One part, of all values.
fn undivided() -> Split
    ensures { result.parts ≡ 1 }
{
    Split { first: 0, parts: 1 }
}

// A part for each length, where there is room for them.
fn lengths(least: u32, most: u32, room: u32) -> Split
    requires { 1 ≤ room }
    ensures covers { CoversLengths result least most }
    ensures few { result.parts ≤ room }
{
    if most < least {
        return undivided();
    }
    if most == u32::MAX {
        return undivided();
    }
    let parts = most - least + 1;
    if room < parts {
        return undivided();
    }
    Split {
        first: least,
        parts,
    }
}

// The parts of a parameter, where there is room for them.
fn split(param: &Param, room: u32) -> Split
    requires { 1 ≤ room }
    ensures covers { Covers result param.now }
    ensures few { result.parts ≤ room }
{
    match param {
        Param::List { least, most, .. } => lengths(*least, *most, room),
        Param::Text { least, most, .. } => lengths(*least, *most, room),
        _ => undivided(),
    }
}

/// How the values of each parameter are split: lists and texts by their lengths, in order of the
/// parameters, as long as there are at most 64 cases.
pub fn splits(alloc: Global, bounds: &Bounds) -> Result<Vec<Split>, NoMemory>
    ensures covers { IfOk result (λ r. AllZip Covers r.items bounds.now.params) }
    ensures few { IfOk result (λ r. cases r.items ≤ MOST) }
{
    let mut found = Vec::new(alloc);
    let mut count = 1;
    for param in bounds.params.items() {
        let split = split(param, MOST / count);
        count *= split.parts;
        found.push(split)?;
    }
    Ok(found)
}

/// How many cases there are.
pub fn cases_count(splits: &[Split]) -> u32
    requires { cases splits.now < 2 ^ 32 }
    ensures { result ≡ cases splits.now }
{
    let mut count = 1;
    for split in splits {
        count *= split.parts;
    }
    count
}
