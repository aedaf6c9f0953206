//! A bit for each place that a number in bits may say.

ghost use Rattle.std.specs.Prelude.{◌≡◌, ◌<◌, ◌+◌, ◌-◌, ◌/◌, ℕ, Bool, List, length, map, nat_eq};
ghost use Rattle.std.specs.Prelude.{IfOk};
ghost use Rattle.bit_words.specs.Logic.{Extends, OwnsAll};
ghost use Rattle.bit_words.specs.Results.{IsWordIn};
ghost use Rattle.bit_words.specs.Words.{bit_value, nat_read};
ghost use Rattle.bit_lists.specs.Decoders.{Decodes};

use crate::NoMemory;
use bit_words::bits::Bits;
use bit_words::logic::Logic;
use std::alloc::Global;

/// The bits of a number that is 0.
#[tactic(auto, using(crate::proofs::Held::steps))]
fn first_place<L: Logic>(alloc: Global, g: &L, count: usize) -> Result<Bits<L::Bit>, NoMemory>
    ensures made { IfOk result (λ r. IsWordIn L.owns g.now count r) }
    ensures value { IfOk result (λ r. (vs : List Bool) →
        Decodes count 0 (map (L.reads g.now vs) r)) }
{
    let mut places = Bits::new(alloc);
    for j in 0..count {
        let bit = g.constant(j == 0);
        places.push(bit)?;
    }
    Ok(places)
}

/// The bit of a place below a count, by whether a number without its lowest digit is half the
/// place. Where the next place isn't below the count, the digit tells nothing more.
#[tactic(auto, using(crate::proofs::Held::steps))]
fn with_lowest<L: Logic>(
    g: &mut L,
    half: L::Bit,
    digit: L::Bit,
    place: usize,
    count: usize,
) -> Result<L::Bit, NoMemory>
    requires within { place < count }
    requires half { L.owns g.old half }
    requires digit { L.owns g.old digit }
    ensures extends { Extends L.owns L.reads L.count g.old g.new }
    ensures owned { IfOk result (λ r. L.owns g.new r) }
    ensures value { IfOk result (λ r. (vs : List Bool) (n : ℕ) →
        bit_value (L.reads g.old vs digit) + (n + n) < count →
        L.reads g.old vs half ≡ nat_eq (place / 2) n →
        L.reads g.new vs r ≡ nat_eq place (bit_value (L.reads g.old vs digit) + (n + n))) }
{
    if place % 2 == 1 {
        let odd = g.and(half, digit)?;
        return Ok(odd);
    }
    if place + 1 == count {
        return Ok(half);
    }
    let unset = g.not(digit);
    let even = g.and(half, unset)?;
    Ok(even)
}

/// The bits of the places of a number with one digit more, the lowest.
#[tactic(auto, using(crate::proofs::Held::steps))]
fn with_digit<L: Logic>(
    alloc: Global,
    g: &mut L,
    halves: &Bits<L::Bit>,
    digit: L::Bit,
    count: usize,
) -> Result<Bits<L::Bit>, NoMemory>
    requires halves { IsWordIn L.owns g.old (count - count / 2) halves.now }
    requires digit { L.owns g.old digit }
    ensures extends { Extends L.owns L.reads L.count g.old g.new }
    ensures made { IfOk result (λ r. IsWordIn L.owns g.new count r) }
    ensures value { IfOk result (λ r. (vs : List Bool) (n : ℕ) →
        Decodes (count - count / 2) n (map (L.reads g.old vs) halves.now) →
        Decodes count (bit_value (L.reads g.old vs digit) + (n + n)) (map (L.reads g.new vs) r)) }
{
    let mut places = Bits::new(alloc);
    for j in 0..count {
        let half = halves.at(j / 2);
        let bit = with_lowest(g, half, digit, j, count)?;
        places.push(bit)?;
    }
    Ok(places)
}

/// A bit for each place below a count, which is true where the number is that place. Where the
/// number isn't below the count, the bits are open; so its high digits make no gate.
#[tactic(auto, using(crate::proofs::Held::steps))]
pub fn decoded<L: Logic>(
    alloc: Global,
    g: &mut L,
    number: &[L::Bit],
    count: usize,
) -> Result<Bits<L::Bit>, NoMemory>
    requires { OwnsAll L.owns g.old number.now }
    ensures extends { Extends L.owns L.reads L.count g.old g.new }
    ensures made { IfOk result (λ r. IsWordIn L.owns g.new count r) }
    ensures value { IfOk result (λ r. (vs : List Bool) →
        Decodes count (nat_read L.reads g.old vs number.now) (map (L.reads g.new vs) r)) }
{
    match number {
        [digit, rest @ ..] if count > 1 => {
            let halves = decoded(alloc, g, rest, count - count / 2)?;
            let places = with_digit(alloc, g, &halves, *digit, count)?;
            Ok(places)
        }
        _ => first_place(alloc, g, count),
    }
}
