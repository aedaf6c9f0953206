//! Counters: numbers in unary, of which bit j, from 0, is true where the number is above j. Up to a
//! bound the bits past a counter's end are false: it has none for what its number can't reach.

ghost use Rattle.std.specs.Prelude.{◌≡◌, ◌+◌, ◌-◌, ◌++◌, ◌<◌, ◌≤◌, ℕ, Bool, List, false, length};
ghost use Rattle.std.specs.Prelude.{map, min, nat_le, nat_lt, replicate, IfOk};
ghost use Rattle.bit_words.specs.Logic.{Extends, OwnsAll};
ghost use Rattle.bit_words.specs.Results.{IsWordIn};
ghost use Rattle.sym_cost.specs.Notations.{Counts};

use bit_words::NoMemory;
use bit_words::gates::or;
use bit_words::logic::Logic;
use bit_words::word::Word;
use std::alloc::Global;

/// Whether a counter's number is at least a given one.
fn reaches<L: Logic>(g: &L, counter: &Word<L::Bit>, number: usize) -> L::Bit
    requires { OwnsAll L.owns g.now counter.now }
    ensures owned { L.owns g.now result }
    ensures value { (vs : List Bool) (bound n : ℕ) → number ≤ bound
        → Counts bound (map (L.reads g.now vs) counter.now) n
        → L.reads g.now vs result ≡ nat_le number n }
{
    if number == 0 {
        g.constant(true)
    } else if number <= counter.len() {
        counter.at(number - 1)
    } else {
        g.constant(false)
    }
}

/// Whether the sum of two counters' numbers is at least a given one.
#[tactic(auto, using(bit_words::proofs::Kept::steps))]
fn sum_reaches<L: Logic>(
    g: &mut L,
    a: &Word<L::Bit>,
    b: &Word<L::Bit>,
    number: usize,
) -> Result<L::Bit, NoMemory>
    requires left { OwnsAll L.owns g.old a.now }
    requires right { OwnsAll L.owns g.old b.now }
    ensures extends { Extends L.owns L.reads L.count g.old g.new }
    ensures owned { IfOk result (λ r. L.owns g.new r) }
    ensures value { IfOk result (λ r. (vs : List Bool) (bound m n : ℕ) → number ≤ bound
        → Counts bound (map (L.reads g.old vs) a.now) m
        → Counts bound (map (L.reads g.old vs) b.now) n
        → L.reads g.new vs r ≡ nat_le number (m + n)) }
{
    let start = number.saturating_sub(b.len()).saturating_sub(1);
    let end = number.min(a.len());
    let mut reached = reaches(g, b, number);
    for i in start..end {
        let first = a.at(i);
        let second = reaches(g, b, number - 1 - i);
        let both = g.and(first, second)?;
        reached = or(g, reached, both)?;
    }
    Ok(reached)
}

/// As many bits as two numbers together, and at most a bound.
fn width_within(bound: usize, first: usize, second: usize) -> usize
    ensures { result ≡ min bound (first + second) }
{
    bound.min(first.saturating_add(second))
}

/// The counter of the sum of two counters' numbers.
#[tactic(auto, using(bit_words::proofs::Kept::steps))]
pub fn counters_sum<L: Logic>(
    alloc: Global,
    g: &mut L,
    bound: usize,
    a: &Word<L::Bit>,
    b: &Word<L::Bit>,
) -> Result<Word<L::Bit>, NoMemory>
    requires left { OwnsAll L.owns g.old a.now }
    requires right { OwnsAll L.owns g.old b.now }
    ensures extends { Extends L.owns L.reads L.count g.old g.new }
    ensures made { IfOk result (λ r.
        IsWordIn L.owns g.new (min bound (length a.now + length b.now)) r) }
    ensures value { IfOk result (λ r. (vs : List Bool) (m n : ℕ)
        → Counts bound (map (L.reads g.old vs) a.now) m
        → Counts bound (map (L.reads g.old vs) b.now) n
        → Counts bound (map (L.reads g.new vs) r) (m + n)) }
{
    let width = width_within(bound, a.len(), b.len());
    let mut sum = Word::new(alloc);
    for i in 0..width {
        let reached = sum_reaches(g, a, b, i + 1)?;
        sum.push(reached)?;
    }
    Ok(sum)
}

/// A bit of the counter of a number and of a counter's number together.
fn raised_bit<L: Logic>(g: &L, counter: &Word<L::Bit>, first: usize, i: usize) -> L::Bit
    requires within { i < first + length counter.now }
    requires owned { OwnsAll L.owns g.now counter.now }
    ensures owned { L.owns g.now result }
    ensures value { (vs : List Bool) (bound n : ℕ)
        → Counts bound (map (L.reads g.now vs) counter.now) n
        → L.reads g.now vs result ≡ nat_lt i (first + n) }
{
    if i < first {
        g.constant(true)
    } else {
        counter.at(i - first)
    }
}

/// That counter.
#[tactic(auto, using(bit_words::proofs::Kept::steps))]
pub fn raised_counter<L: Logic>(
    alloc: Global,
    g: &L,
    bound: usize,
    number: u32,
    counter: &Word<L::Bit>,
) -> Result<Word<L::Bit>, NoMemory>
    requires { OwnsAll L.owns g.now counter.now }
    ensures made { IfOk result (λ r.
        IsWordIn L.owns g.now (min bound (number + length counter.now)) r) }
    ensures value { IfOk result (λ r. (vs : List Bool) (n : ℕ)
        → Counts bound (map (L.reads g.now vs) counter.now) n
        → Counts bound (map (L.reads g.now vs) r) (number + n)) }
{
    let first = number as usize;
    let width = width_within(bound, first, counter.len());
    let mut raised = Word::new(alloc);
    for i in 0..width {
        let bit = raised_bit(g, counter, first, i);
        raised.push(bit)?;
    }
    Ok(raised)
}

/// A word with bits behind its own that read as false, up to a width.
#[tactic(auto, using(bit_words::proofs::Kept::steps))]
pub fn padded<L: Logic>(g: &L, word: Word<L::Bit>, width: usize) -> Result<Word<L::Bit>, NoMemory>
    requires within { length word ≤ width }
    requires owned { OwnsAll L.owns g.now word }
    ensures made { IfOk result (λ r. IsWordIn L.owns g.now width r) }
    ensures value { IfOk result (λ r. (vs : List Bool) → map (L.reads g.now vs) r
        ≡ map (L.reads g.now vs) word ++ replicate (width - length word) false) }
{
    let no = g.constant(false);
    let more = width - word.len();
    let mut whole = word;
    for _ in 0..more {
        whole.push(no)?;
    }
    Ok(whole)
}
