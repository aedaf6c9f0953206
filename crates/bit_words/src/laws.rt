//! What a word's bits and its number say of one another.

ghost use Rattle.std.specs.Prelude.{◌≡◌, ◌<◌, true, Bool, List, length};
ghost use Rattle.bit_words.specs.Words.{fits, int_of, nat_of};

/// A word's number fits its width.
pub fn word_fits()
    ensures { (word : List Bool) → 0 < length word → fits (length word) (int_of word) ≡ true }
{}

/// A word's number decides its bits.
pub fn number_decides_word()
    ensures { (v w : List Bool) → length v ≡ length w → int_of v ≡ int_of w → v ≡ w }
{}

/// So does a number without a sign.
pub fn number_decides_bits()
    ensures { (v w : List Bool) → length v ≡ length w → nat_of v ≡ nat_of w → v ≡ w }
{}
