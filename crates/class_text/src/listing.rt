//! The list of a class: the names of its files, one a line.
ghost use Rattle.std.specs.Prelude.{◌≡◌, ◌∷◌, ◌++◌, ℕ, List, IfNone, IfSome, MatchResult, length};
ghost use Rattle.std.specs.Prelude.{◌<◌, map, true};
ghost use Rattle.std.specs.List.{list_all};
ghost use Rattle.std.specs.String.{string_bytes};
ghost use Rattle.class_text.specs.Faults.{IsFaultOf};
ghost use Rattle.class_text.specs.Listings.{Lists, is_name, is_name_byte};

use std::alloc::{AllocError, AllocFailed, Global};
use step_lines::words::next_line;

/// A list has at most this many names.
const MOST_NAMES: usize = 256;

/// A name has at most this many bytes.
const MOST_BYTES: usize = 255;

/// Why a text is no list.
#[derive(Clone, Copy, Debug, PartialEq, Eq)]
pub enum ListFault {
    /// No name that may be listed stands at this line, the first such one, counted from 1.
    Line(u32),
    /// Memory lacked.
    NoMemory,
}

impl From<AllocError> for ListFault {
    ghost use Rattle.class_text.specs.declared.listing.ListFault.TheVariants as fault;

    ghost from_gives = { λ _ e. e ≡ fault.NoMemory };

    fn from(_error: AllocError) -> ListFault {
        ListFault::NoMemory
    }
}

impl<T: Drop> From<AllocFailed<T>> for ListFault {
    ghost use Rattle.class_text.specs.declared.listing.ListFault.TheVariants as fault;

    ghost from_gives = { λ _ e. e ≡ fault.NoMemory };

    fn from(_error: AllocFailed<T>) -> ListFault {
        ListFault::NoMemory
    }
}

/// A name, and what stands behind its line.
#[derive(Clone, Copy)]
struct Named<'a> {
    name: &'a str,
    rest: &'a [u8],
}

fn is_name_byte(c: u8) -> bool
    ensures { result ≡ is_name_byte c }
{
    c >= b'!' && c <= b'~'
}

fn are_name_bytes(name: &[u8]) -> bool
    ensures { result ≡ list_all is_name_byte name.now }
{
    name.iter().all(|c| is_name_byte(*c))
}

fn is_name(name: &[u8]) -> bool
    ensures { result ≡ is_name name.now }
{
    name.len() >= 1 && name.len() <= MOST_BYTES && are_name_bytes(name)
}

/// The name at the front of the text, with the end of its line.
fn next_name(text: &[u8]) -> Option<Named<'_>>
    ensures name { IfSome result (λ x. is_name x.name.now ≡ true) }
    ensures cut { IfSome result (λ x. text.now ≡ x.name.now ++ (10 ∷ x.rest.now)) }
    ensures none { IfNone result ((name rest : List ℕ) → is_name name ≡ true
        → text.now ≡ name ++ (10 ∷ rest) → ⊥) }
{
    let cut = next_line(text)?;
    if !is_name(cut.piece) {
        return None;
    }
    let Ok(name) = str::from_utf8(cut.piece) else {
        unreachable!();
    };
    Some(Named {
        name,
        rest: cut.rest,
    })
}

/// The names that the text lists, each with byte 10 behind it: at most 256, each of 1 to 255 bytes
/// from 33 to 126.
///
/// # Errors
///
/// The first line at which no further name may stand, or want of memory.
pub fn read_list(alloc: Global, text: &[u8]) -> Result<Vec<String>, ListFault>
    ensures { MatchResult result (λ v. Lists text.now (map string_bytes v.items))
        (IsFaultOf text.now) }
{
    let mut names = Vec::new(alloc);
    let mut rest = text;
    'names: while !rest.is_empty() {
        let line = names.len() as u32 + 1;
        let Some(next) = next_name(rest) else {
            return Err(ListFault::Line(line));
        };
        if names.len() == MOST_NAMES {
            return Err(ListFault::Line(line));
        }
        let name = String::from_str(alloc, next.name)?;
        names.push(name)?;
        rest = next.rest;
    }
    Ok(names)
}
