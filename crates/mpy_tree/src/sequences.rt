//! Lists and texts that are made of others.
ghost use Rattle.std.specs.Prelude.{◌≡◌, ◌≤◌, ◌-◌, ◌++◌, ◌∷◌, [], ℕ, length, take, drop, map};
ghost use Rattle.std.specs.Prelude.{slice_get, option_map, IfOk};
ghost use Rattle.mpy_tree.specs.Operations.{copies};

use crate::NoMemory;
use crate::lists::{Chars, Ints};
use std::alloc::Global;

// The elements of one list, and then those of the other.
fn joined<T: Copy>(alloc: Global, xs: &[T], ys: &[T]) -> Result<Vec<T>, NoMemory>
    ensures { IfOk result (λ r. r.items ≡ xs.now ++ ys.now) }
{
    let mut items = Vec::new(alloc);
    items.extend_from_slice(xs)?;
    items.extend_from_slice(ys)?;
    Ok(items)
}

// So many copies of a list, one after another.
#[tactic(auto, using(crate::proofs::Repetition::copies_more))]
fn repeated<T: Copy>(alloc: Global, xs: &[T], times: usize) -> Result<Vec<T>, NoMemory>
    ensures { IfOk result (λ r. r.items ≡ copies times xs.now) }
{
    let mut items = Vec::new(alloc);
    for _turn in 0..times {
        items.extend_from_slice(xs)?;
    }
    Ok(items)
}

// The elements from one place up to another; none if the first isn't below the second.
fn between<T: Copy>(alloc: Global, xs: &[T], from: usize, to: usize) -> Result<Vec<T>, NoMemory>
    requires { to ≤ length xs.now }
    ensures { IfOk result (λ r. r.items ≡ take (to - from) (drop from xs.now)) }
{
    if to <= from {
        return Ok(Vec::new(alloc));
    }
    Ok(Vec::from_slice(alloc, &xs[from..to])?)
}

impl Ints {
    /// The numbers of this list, and then those of the other.
    pub fn concat(&self, alloc: Global, other: &Ints) -> Result<Ints, NoMemory>
        ensures { IfOk result (λ r. r ≡ self.now ++ other.now) }
    {
        Ok(Ints::from_vec(joined(alloc, self.items(), other.items())?))
    }

    /// So many copies of this list, one after another.
    pub fn repeat(&self, alloc: Global, times: usize) -> Result<Ints, NoMemory>
        ensures { IfOk result (λ r. r ≡ copies times self.now) }
    {
        Ok(Ints::from_vec(repeated(alloc, self.items(), times)?))
    }

    /// The numbers from one place up to another; none if the first isn't below the second.
    pub fn part(&self, alloc: Global, from: usize, to: usize) -> Result<Ints, NoMemory>
        requires { to ≤ length self.now }
        ensures { IfOk result (λ r. r ≡ take (to - from) (drop from self.now)) }
    {
        Ok(Ints::from_vec(between(alloc, self.items(), from, to)?))
    }
}

impl Chars {
    /// The characters of this text, and then those of the other.
    pub fn concat(&self, alloc: Global, other: &Chars) -> Result<Chars, NoMemory>
        ensures { IfOk result (λ r. r ≡ self.now ++ other.now) }
    {
        let bytes = joined(alloc, self.bytes(), other.bytes())?;
        Ok(Chars::from_vec(bytes))
    }

    /// So many copies of this text, one after another.
    #[tactic(auto, using(crate::proofs::Repetition::all_copies))]
    pub fn repeat(&self, alloc: Global, times: usize) -> Result<Chars, NoMemory>
        ensures { IfOk result (λ r. r ≡ copies times self.now) }
    {
        let bytes = repeated(alloc, self.bytes(), times)?;
        Ok(Chars::from_vec(bytes))
    }

    /// The characters from one place up to another; none if the first isn't below the second.
    pub fn part(&self, alloc: Global, from: usize, to: usize) -> Result<Chars, NoMemory>
        requires { to ≤ length self.now }
        ensures { IfOk result (λ r. r ≡ take (to - from) (drop from self.now)) }
    {
        let bytes = between(alloc, self.bytes(), from, to)?;
        Ok(Chars::from_vec(bytes))
    }

    /// The text of the one character at a place, if there is one.
    pub fn character(&self, alloc: Global, place: usize) -> Result<Option<Chars>, NoMemory>
        ensures { IfOk result (λ r. r ≡ option_map (λ c. c ∷ []) (slice_get self.now place)) }
    {
        match self.bytes().get(place) {
            None => Ok(None),
            Some(c) => Ok(Some(one_character(alloc, *c)?)),
        }
    }

    /// The texts of one character each.
    pub fn characters(&self, alloc: Global) -> Result<Vec<Chars>, NoMemory>
        ensures { IfOk result (λ r. r.items ≡ map (λ c. c ∷ []) self.now) }
    {
        let mut texts = Vec::new(alloc);
        for c in self.bytes() {
            texts.push(one_character(alloc, *c)?)?;
        }
        Ok(texts)
    }
}

// The text of one character.
fn one_character(alloc: Global, c: u8) -> Result<Chars, NoMemory>
    requires { (32 ≤ c) × (c ≤ 126) }
    ensures { IfOk result (λ r. r ≡ c ∷ []) }
{
    let mut bytes = Vec::new(alloc);
    bytes.push(c)?;
    Ok(Chars::from_vec(bytes))
}
