//! The numbers from one to another by a step.

ghost use Rattle.std.specs.Prelude.{◌≡◌, ◌<◌, ◌≤◌, ◌+◌, ◌-◌, ℕ, Bool, true, false, List, length};
ghost use Rattle.std.specs.Prelude.{◌&&◌, ◌+ℤ◌, IfOk};
ghost use Rattle.mpy_tree.specs.Operations.{before, is_zero};
ghost use Rattle.bit_words.specs.Logic.{Extends, OwnsAll};
ghost use Rattle.bit_words.specs.Results.{IsWordIn};
ghost use Rattle.bit_words.specs.Words.{fits, Holds, int_read};
ghost use Rattle.bit_lists.specs.Lists.{IsListIn, IsProper, list_read};
ghost use Rattle.bit_lists.specs.Ranges.{RangeIs};

use crate::NoMemory;
use crate::lengths::constant_length;
use crate::lists::CheckedList;
use bit_words::bits::Bits;
use bit_words::bitwise::choose_bits;
use bit_words::compare::less;
use bit_words::logic::Logic;
use bit_words::magnitude::sign_of;
use bit_words::narrow::narrow;
use bit_words::resize::resize;
use bit_words::sums::add;
use bit_words::word::Word;
use bit_words::words::Words;
use std::alloc::Global;

/// The ends of a range and its step, words of one width.
#[derive(Clone, Copy)]
pub struct RangeEnds<'a, B: Copy> {
    pub from: &'a Word<B>,
    pub to: &'a Word<B>,
    pub step: &'a Word<B>,
}

/// Where a range ends and its step, in one bit more.
#[derive(Drop)]
struct Course<B: Copy> {
    to: Word<B>,
    step: Word<B>,
}

/// The number to which a range has come, and whether it and all earlier ones stand before the end.
/// Where they don't the number has no meaning.
#[derive(Drop)]
struct Progress<B: Copy> {
    number: Word<B>,
    alive: B,
}

/// A word in one bit more.
#[tactic(auto, using(crate::proofs::Held::steps))]
fn longer<L: Logic>(g: &mut L, word: &Word<L::Bit>) -> Result<Word<L::Bit>, NoMemory>
    requires some { 0 < length word.now }
    requires few { length word.now ≤ 16 }
    requires word { OwnsAll L.owns g.old word.now }
    ensures extends { Extends L.owns L.reads L.count g.old g.new }
    ensures made { IfOk result (λ r. IsWordIn L.owns g.new (length word.now + 1) r) }
    ensures value { IfOk result (λ r. (vs : List Bool) →
        int_read L.reads g.new vs r ≡ int_read L.reads g.old vs word.now) }
{
    let wide = resize(g, word, word.len() + 1)?;
    Ok(wide.word)
}

/// Whether a number stands before the end of a range.
#[tactic(auto, using(crate::proofs::Held::steps))]
fn is_before<L: Logic>(
    alloc: Global,
    g: &mut L,
    number: &Word<L::Bit>,
    course: &Course<L::Bit>,
) -> Result<L::Bit, NoMemory>
    requires some { 0 < length number.now }
    requires to { IsWordIn L.owns g.old (length number.now) course.now.to }
    requires step { IsWordIn L.owns g.old (length number.now) course.now.step }
    requires number { OwnsAll L.owns g.old number.now }
    ensures extends { Extends L.owns L.reads L.count g.old g.new }
    ensures owned { IfOk result (λ r. L.owns g.new r) }
    ensures value { IfOk result (λ r. (vs : List Bool) → L.reads g.new vs r
        ≡ before (int_read L.reads g.old vs course.now.step) (int_read L.reads g.old vs number.now)
        (int_read L.reads g.old vs course.now.to)) }
{
    let up = less(alloc, g, number, &course.to)?;
    let down = less(alloc, g, &course.to, number)?;
    let falls = sign_of(g, &course.step);
    let ahead = g.choose(falls, down, up)?;
    Ok(ahead)
}

/// The next number of a range.
#[tactic(auto, using(crate::proofs::Held::steps))]
fn advanced<L: Logic>(
    alloc: Global,
    g: &mut L,
    last: &Progress<L::Bit>,
    course: &Course<L::Bit>,
) -> Result<Progress<L::Bit>, NoMemory>
    requires some { 0 < length last.now.number }
    requires to { IsWordIn L.owns g.old (length last.now.number) course.now.to }
    requires step { IsWordIn L.owns g.old (length last.now.number) course.now.step }
    requires number { OwnsAll L.owns g.old last.now.number }
    requires alive { L.owns g.old last.now.alive }
    ensures extends { Extends L.owns L.reads L.count g.old g.new }
    ensures made { IfOk result (λ r. IsWordIn L.owns g.new (length last.now.number) r.number) }
    ensures owned { IfOk result (λ r. L.owns g.new r.alive) }
    ensures number { IfOk result (λ r. (vs : List Bool) →
        Holds (int_read L.reads g.new vs r.number) (length last.now.number)
        (int_read L.reads g.old vs last.now.number
        +ℤ int_read L.reads g.old vs course.now.step)) }
    ensures alive { IfOk result (λ r. (vs : List Bool) → L.reads g.new vs r.alive
        ≡ (L.reads g.old vs last.now.alive
        && before (int_read L.reads g.old vs course.now.step)
        (int_read L.reads g.new vs r.number) (int_read L.reads g.old vs course.now.to))) }
{
    let next = add(alloc, g, &last.number, &course.step)?;
    let ahead = is_before(alloc, g, &next.word, course)?;
    let alive = g.and(last.alive, ahead)?;
    Ok(Progress {
        number: next.word,
        alive,
    })
}

/// The numbers from a first one on that stand before the end, in one bit less, and whether there
/// are more than `cap`.
#[tactic(auto, using(crate::proofs::Held::steps))]
fn listed<L: Logic>(
    alloc: Global,
    g: &mut L,
    first: Progress<L::Bit>,
    course: &Course<L::Bit>,
    cap: usize,
) -> Result<CheckedList<L::Bit>, NoMemory>
    ghost width: { ℕ }
    requires some { 0 < width }
    requires few { cap ≤ 16 }
    requires number { IsWordIn L.owns g.old (width + 1) first.number }
    requires to { IsWordIn L.owns g.old (width + 1) course.now.to }
    requires step { IsWordIn L.owns g.old (width + 1) course.now.step }
    requires alive { L.owns g.old first.alive }
    ensures extends { Extends L.owns L.reads L.count g.old g.new }
    ensures made { IfOk result (λ r. IsListIn L.owns g.new width cap r.len r.items) }
    ensures owned { IfOk result (λ r. L.owns g.new r.fault) }
    ensures proper { IfOk result (λ r. (vs : List Bool) → IsProper L.reads g.new vs r.len r.items) }
    ensures value { IfOk result (λ r. (vs : List Bool) →
        is_zero (int_read L.reads g.old vs course.now.step) ≡ false →
        fits width (int_read L.reads g.old vs first.number) ≡ true →
        fits width (int_read L.reads g.old vs course.now.to) ≡ true →
        fits width (int_read L.reads g.old vs course.now.step) ≡ true →
        L.reads g.old vs first.alive ≡ before (int_read L.reads g.old vs course.now.step)
        (int_read L.reads g.old vs first.number) (int_read L.reads g.old vs course.now.to) →
        RangeIs cap (L.reads g.new vs r.fault) (list_read L.reads g.new vs r.len r.items)
        (int_read L.reads g.old vs first.number) (int_read L.reads g.old vs course.now.to)
        (int_read L.reads g.old vs course.now.step)) }
{
    let width = first.number.len() - 1;
    let mut at = first;
    let mut len = constant_length(alloc, g, 0)?;
    let mut items = Words::new(alloc);
    for k in 0..cap {
        let item = narrow(g, &at.number, width)?;
        items.push(item.word)?;
        let more = constant_length(alloc, g, k as u32 + 1)?;
        len = choose_bits(alloc, g, at.alive, more.as_slice(), len.as_slice())?;
        at = advanced(alloc, g, &at, course)?;
    }
    Ok(CheckedList {
        len,
        items,
        fault: at.alive,
    })
}

/// The numbers from one on by a step that stand before an end: below it, or above it for a step
/// below zero. The fault says that there are more than `cap`. A step of 0 has no meaning here.
#[tactic(auto, using(crate::proofs::Held::steps))]
pub fn range<L: Logic>(
    alloc: Global,
    g: &mut L,
    ends: &RangeEnds<'_, L::Bit>,
    cap: usize,
) -> Result<CheckedList<L::Bit>, NoMemory>
    requires some { 0 < length ends.now.from.now }
    requires short { length ends.now.from.now ≤ 16 }
    requires few { cap ≤ 16 }
    requires from { OwnsAll L.owns g.old ends.now.from.now }
    requires to { IsWordIn L.owns g.old (length ends.now.from.now) ends.now.to.now }
    requires step { IsWordIn L.owns g.old (length ends.now.from.now) ends.now.step.now }
    ensures extends { Extends L.owns L.reads L.count g.old g.new }
    ensures made { IfOk result (λ r.
        IsListIn L.owns g.new (length ends.now.from.now) cap r.len r.items) }
    ensures owned { IfOk result (λ r. L.owns g.new r.fault) }
    ensures proper { IfOk result (λ r. (vs : List Bool) → IsProper L.reads g.new vs r.len r.items) }
    ensures value { IfOk result (λ r. (vs : List Bool) →
        is_zero (int_read L.reads g.old vs ends.now.step.now) ≡ false →
        RangeIs cap (L.reads g.new vs r.fault) (list_read L.reads g.new vs r.len r.items)
        (int_read L.reads g.old vs ends.now.from.now) (int_read L.reads g.old vs ends.now.to.now)
        (int_read L.reads g.old vs ends.now.step.now)) }
{
    let number = longer(g, ends.from)?;
    let to = longer(g, ends.to)?;
    let step = longer(g, ends.step)?;
    let course = Course { to, step };
    let alive = is_before(alloc, g, &number, &course)?;
    let numbers = listed(alloc, g, Progress { number, alive }, &course, cap)?;
    Ok(numbers)
}
