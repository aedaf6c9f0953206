//! Characters of an alphabet.

ghost use Rattle.std.specs.Prelude.{◌≡◌, ◌<◌, ◌≤◌, ℕ, Bool, List, true, length, map, IfOk, IfSome};
ghost use Rattle.bit_words.specs.Logic.{Extends, OwnsAll};
ghost use Rattle.bit_words.specs.Results.{IsWordIn};
ghost use Rattle.bit_words.specs.Words.{nat_read};
ghost use Rattle.input_ranges.specs.Alphabets.{IsLower, IsRight, Spells, digit_of, guessed};
ghost use Rattle.input_ranges.specs.Alphabets.{is_among};

use crate::high_bits::KnownBits;
use bit_words::NoMemory;
use bit_words::bits::Bits;
use bit_words::gates::or;
use bit_words::logic::Logic;
use bit_words::order::equal_number;
use std::alloc::Global;

/// What a digit of a character is: a truth value, or the digit at a place, or its opposite.
#[derive(Clone, Copy)]
pub(crate) enum Guess {
    Constant(bool),
    Same(usize),
    Opposite(usize),
}

// A digit of a character.
fn digit(character: u8, place: usize) -> bool
    requires { place < 32 }
    ensures { result ≡ digit_of character place }
{
    (character as u32 >> place) % 2 == 1
}

// What a guess says of a character's digit.
fn guessed(guess: Guess, character: u8) -> bool
    requires { IsLower 32 guess }
    ensures { result ≡ guessed guess character }
{
    match guess {
        Guess::Constant(value) => value,
        Guess::Same(place) => digit(character, place),
        Guess::Opposite(place) => !digit(character, place),
    }
}

// Whether it is right of all characters' digits at a place.
fn is_right(guess: Guess, alphabet: &[u8], place: usize) -> bool
    requires place { place < 32 }
    requires lower { IsLower 32 guess }
    ensures { result ≡ true → IsRight guess alphabet.now place }
{
    for character in alphabet {
        let is = digit(*character, place);
        let said = guessed(guess, *character);
        if is != said {
            return false;
        }
    }
    true
}

// A guess, where it is right.
fn tried(guess: Guess, alphabet: &[u8], place: usize) -> Option<Guess>
    requires place { place < 32 }
    requires lower { IsLower place guess }
    ensures lower { IfSome result (IsLower place) }
    ensures right { IfSome result (λ r. IsRight r alphabet.now place) }
{
    if is_right(guess, alphabet, place) {
        Some(guess)
    } else {
        None
    }
}

// A lower digit that is the digit at a place, or its opposite, of all characters.
fn known_by(alphabet: &[u8], place: usize) -> Option<Guess>
    requires { place < 32 }
    ensures lower { IfSome result (IsLower place) }
    ensures right { IfSome result (λ r. IsRight r alphabet.now place) }
{
    for other in 0..place {
        if let Some(same) = tried(Guess::Same(other), alphabet, place) {
            return Some(same);
        }
        if let Some(opposite) = tried(Guess::Opposite(other), alphabet, place) {
            return Some(opposite);
        }
    }
    None
}

// What is right of all characters' digits at a place, if something is.
fn known(alphabet: &[u8], place: usize) -> Option<Guess>
    requires { place < 32 }
    ensures lower { IfSome result (IsLower place) }
    ensures right { IfSome result (λ r. IsRight r alphabet.now place) }
{
    if let Some(never) = tried(Guess::Constant(false), alphabet, place) {
        return Some(never);
    }
    if let Some(always) = tried(Guess::Constant(true), alphabet, place) {
        return Some(always);
    }
    known_by(alphabet, place)
}

// The bit that a guess says, from the bits of the lower digits.
fn guessed_bit<L: Logic>(g: &L, guess: Guess, lower: &[L::Bit]) -> L::Bit
    requires lower { IsLower (length lower.now) guess }
    requires owned { OwnsAll L.owns g.now lower.now }
    ensures owned { L.owns g.now result }
    ensures value { (vs : List Bool) (c : ℕ) → Spells (map (L.reads g.now vs) lower.now) c
        → L.reads g.now vs result ≡ guessed guess c }
{
    match guess {
        Guess::Constant(value) => g.constant(value),
        Guess::Same(place) => lower[place],
        Guess::Opposite(place) => {
            let bit = lower[place];
            g.not(bit)
        }
    }
}

// A digit, by the lower ones if it is known by them.
fn known_digit<L: Logic>(g: &L, alphabet: &[u8], lower: &[L::Bit], bit: L::Bit) -> L::Bit
    requires short { length lower.now < 32 }
    requires owned { L.owns g.now bit }
    requires owned_lower { OwnsAll L.owns g.now lower.now }
    ensures owned { L.owns g.now result }
    ensures value { (vs : List Bool) (c : ℕ) → is_among alphabet.now c ≡ true
        → Spells (map (L.reads g.now vs) lower.now) c
        → L.reads g.now vs bit ≡ digit_of c (length lower.now)
        → L.reads g.now vs result ≡ digit_of c (length lower.now) }
{
    match known(alphabet, lower.len()) {
        None => bit,
        Some(guess) => guessed_bit(g, guess, lower),
    }
}

// The digits of a character, of which some are known by lower ones.
fn known_digits<L: Logic>(
    alloc: Global,
    g: &mut L,
    word: &[L::Bit],
    alphabet: &[u8],
) -> Result<KnownBits<L::Bit>, NoMemory>
    requires short { length word.now ≤ 32 }
    requires owned { OwnsAll L.owns g.old word.now }
    ensures extends { Extends L.owns L.reads L.count g.old g.new }
    ensures made { IfOk result (λ r. IsWordIn L.owns g.new (length word.now) r.bits) }
    ensures owned { IfOk result (λ r. L.owns g.new r.within) }
    ensures right { IfOk result (λ r. (vs : List Bool)
        → is_among alphabet.now (nat_read L.reads g.old vs word.now) ≡ true
        → L.reads g.new vs r.within ≡ true) }
    ensures same { IfOk result (λ r. (vs : List Bool) → L.reads g.new vs r.within ≡ true
        → map (L.reads g.new vs) r.bits ≡ map (L.reads g.old vs) word.now) }
{
    let mut bits = Bits::new(alloc);
    let mut within = g.constant(true);
    for place in 0..word.len() {
        let bit = word[place];
        let known = known_digit(g, alphabet, bits.as_slice(), bit);
        let other = g.xor(bit, known)?;
        let same = g.not(other);
        within = g.and(within, same)?;
        bits.push(known)?;
    }
    Ok(KnownBits { bits, within })
}

// Whether bits spell a character of an alphabet.
#[tactic(auto, using(bit_words::proofs::Kept::steps))]
fn among<L: Logic>(g: &mut L, word: &[L::Bit], alphabet: &[u8]) -> Result<L::Bit, NoMemory>
    requires owned { OwnsAll L.owns g.old word.now }
    ensures extends { Extends L.owns L.reads L.count g.old g.new }
    ensures owned { IfOk result (λ r. L.owns g.new r) }
    ensures value { IfOk result (λ r. (vs : List Bool) → L.reads g.new vs r
        ≡ is_among alphabet.now (nat_read L.reads g.old vs word.now)) }
{
    let mut any = g.constant(false);
    for character in alphabet {
        let is = equal_number(g, word, *character as u32)?;
        any = or(g, any, is)?;
    }
    Ok(any)
}

/// A character with what its alphabet fixes, and whether it is of the alphabet.
#[tactic(auto, using(bit_words::proofs::Kept::steps))]
pub fn ranged_character<L: Logic>(
    alloc: Global,
    g: &mut L,
    word: &[L::Bit],
    alphabet: &[u8],
) -> Result<KnownBits<L::Bit>, NoMemory>
    requires short { length word.now ≤ 32 }
    requires owned { OwnsAll L.owns g.old word.now }
    ensures extends { Extends L.owns L.reads L.count g.old g.new }
    ensures made { IfOk result (λ r. IsWordIn L.owns g.new (length word.now) r.bits) }
    ensures owned { IfOk result (λ r. L.owns g.new r.within) }
    ensures within { IfOk result (λ r. (vs : List Bool) → L.reads g.new vs r.within
        ≡ is_among alphabet.now (nat_read L.reads g.old vs word.now)) }
    ensures same { IfOk result (λ r. (vs : List Bool) → L.reads g.new vs r.within ≡ true
        → map (L.reads g.new vs) r.bits ≡ map (L.reads g.old vs) word.now) }
{
    let digits = known_digits(alloc, g, word, alphabet)?;
    let right = digits.within;
    let bits = digits.bits;
    let member = among(g, bits.as_slice(), alphabet)?;
    let within = g.and(right, member)?;
    Ok(KnownBits { bits, within })
}
