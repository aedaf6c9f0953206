//! What is kept of printed values on a path.

ghost use Rattle.std.specs.Prelude.{◌≡◌, ◌<◌, ◌^◌, ◌++◌, ℕ, suc, Bool, true, List, [], ◌∷◌, map};
ghost use Rattle.std.specs.Prelude.{drop, length, nat_lt, slice_set, Some, None, IfOk};
ghost use Rattle.mpy_tree.specs.declared.typing.Ty.{Ty as AnyType};
ghost use Rattle.mpy_tree.specs.declared.value.Value.{Value};
ghost use Rattle.mpy_tree.specs.Values.{State};
ghost use Rattle.mpy_tree.specs.Statements.{printed as printed_by};
ghost use Rattle.bit_words.specs.Logic.{Extends, OwnsAll};
ghost use Rattle.bit_words.specs.Results.{IsWordIn};
ghost use Rattle.bit_words.specs.Words.{nat_read};
ghost use Rattle.sym_values.specs.declared.value.SymValue.TheVariants as sym;
ghost use Rattle.sym_values.specs.Forms.{IntForm, form_for, form_of, forms_of, values_bits};
ghost use Rattle.sym_values.specs.Printed.{print_width as width_of_printed};
ghost use Rattle.sym_values.specs.Reading.{map_bits, read, sure};
ghost use Rattle.sym_values.specs.Results.{IsValueIn};
ghost use Rattle.sym_paths.specs.Kept.{with_printed, KeepsOneMore};
ghost use Rattle.sym_paths.specs.Paths.{way, gone_way, reached, HoldsKept, HoldsPath, BeginsKept};
ghost use Rattle.sym_paths.specs.Paths.{kept_proper, number_fits, printed_in, word_in, words_kept};
ghost use Rattle.sym_paths.specs.Sights.{state_next};
ghost use Rattle.sym_paths.specs.Slots.{kept_by, slot_forms};

use crate::path::Path;
use crate::slots::Slots;
use crate::split::narrow;
use bit_words::NoMemory;
use bit_words::bitwise::zeros;
use bit_words::gates::half_add;
use bit_words::logic::Logic;
use bit_words::order::equal_number;
use bit_words::word::Word;
use std::alloc::Global;
use sym_values::choose::choose_value;
use sym_values::printed::{print_width, printed_word};
use sym_values::{SymValue, SymValues};

/// How many bits the number of printed values has.
pub const LENGTH_BITS: usize = 5;

/// What is kept at first: that nothing was printed.
pub fn nothing_printed<L: Logic>(
    alloc: Global,
    g: &L,
    slots: &Slots,
) -> Result<SymValues<L::Bit>, NoMemory>
    ensures held { IfOk result (λ r. HoldsKept L.owns g.now slots.now r) }
    ensures value { IfOk result (λ r. (vs : List Bool) →
        printed_in slots.now.limits (map (map_bits (L.reads g.now vs)) r) ≡ kept_by slots.now) }
    ensures proper { IfOk result (λ r. (vs : List Bool) →
        kept_proper slots.now.limits (map (map_bits (L.reads g.now vs)) r) ≡ true) }
{
    let mut kept = SymValues::new(alloc);
    if slots.prints == 0 {
        return Ok(kept);
    }
    let none = zeros(alloc, g, LENGTH_BITS)?;
    kept.push(SymValue::Int(none))?;
    let width = print_width(&slots.limits);
    for _ in 0..slots.prints {
        let word = zeros(alloc, g, width)?;
        kept.push(SymValue::Int(word))?;
    }
    Ok(kept)
}

/// Adds to the values of the locals what is kept at first: that nothing was printed.
pub fn with_nothing_printed<L: Logic>(
    alloc: Global,
    g: &L,
    slots: &Slots,
    locals: SymValues<L::Bit>,
) -> Result<SymValues<L::Bit>, NoMemory>
    ensures { IfOk result (λ r. BeginsKept L.owns L.reads g.now slots.now locals r) }
{
    let kept = nothing_printed(alloc, g, slots)?;
    let mut values = locals.into_vec();
    values.append(&mut kept.into_vec())?;
    Ok(SymValues::from_vec(values))
}

/// What is kept on a path: the number of printed values, and the words of as many as may be kept.
pub fn printed_on<B: Copy>(
    alloc: Global,
    slots: &Slots,
    path: &Path<B>,
) -> Result<SymValues<B>, NoMemory>
    ensures { IfOk result (λ r. r ≡ drop (length slots.now.types) path.now.values) }
{
    let mut printed = SymValues::new(alloc);
    for i in slots.count()..path.values.len() {
        let value = path.values.at(i).copy()?;
        printed.push(value)?;
    }
    Ok(printed)
}

// A path with other values behind those of its locals.
fn with_kept<L: Logic>(
    _g: &L,
    slots: &Slots,
    path: Path<L::Bit>,
    kept: SymValues<L::Bit>,
) -> Result<Path<L::Bit>, NoMemory>
    requires held { HoldsPath L.owns _g.now (slot_forms slots.now) path }
    requires each { length slots.now.names ≡ length slots.now.types }
    requires kept { HoldsKept L.owns _g.now slots.now kept }
    ensures held { IfOk result (λ r. HoldsPath L.owns _g.now (slot_forms slots.now) r) }
    ensures value { IfOk result (λ r. (vs : List Bool) (s : State)
        → gone_way slots.now (way (L.reads _g.now vs) path ∷ []) ≡ reached (Some s)
        → kept_proper slots.now.limits (map (map_bits (L.reads _g.now vs)) kept) ≡ true
        → gone_way slots.now (way (L.reads _g.now vs) r ∷ [])
        ≡ reached (Some (with_printed s
        (printed_in slots.now.limits (map (map_bits (L.reads _g.now vs)) kept))))) }
    ensures none { IfOk result (λ r. (vs : List Bool)
        → gone_way slots.now (way (L.reads _g.now vs) path ∷ []) ≡ None
        → gone_way slots.now (way (L.reads _g.now vs) r ∷ []) ≡ None) }
{
    let mut values = path.values.into_vec();
    values.truncate(slots.count());
    values.append(&mut kept.into_vec())?;
    Ok(Path {
        bit: path.bit,
        values: SymValues::from_vec(values),
        set: path.set,
    })
}

/// The word of a number.
pub fn word_of<B: Copy>(value: &SymValue<B>) -> &Word<B>
    requires { (n : ℕ) × (form_of value.now ≡ IntForm n) }
    ensures { value.now ≡ sym.Int result.now }
{
    match value {
        SymValue::Int(word) => word,
        _ => unreachable!(),
    }
}

// A number and one more.
fn one_more<L: Logic>(
    alloc: Global,
    g: &mut L,
    number: &Word<L::Bit>,
) -> Result<Word<L::Bit>, NoMemory>
    requires { OwnsAll L.owns g.old number.now }
    ensures extends { Extends L.owns L.reads L.count g.old g.new }
    ensures made { IfOk result (λ r. IsWordIn L.owns g.new (length number.now) r) }
    ensures value { IfOk result (λ r. (vs : List Bool)
        → suc (nat_read L.reads g.old vs number.now) < 2 ^ length number.now
        → nat_read L.reads g.new vs r ≡ suc (nat_read L.reads g.old vs number.now)) }
{
    let mut sum = Word::new(alloc);
    let mut carry = g.constant(true);
    for i in 0..number.len() {
        let digit = number.at(i);
        let (both, one) = half_add(g, digit, carry)?;
        sum.push(one)?;
        carry = both;
    }
    Ok(sum)
}

// Kept words of which one is put at the place that a number says.
fn put_word<L: Logic>(
    alloc: Global,
    g: &mut L,
    slots: &Slots,
    kept: &SymValues<L::Bit>,
    number: &Word<L::Bit>,
    word: &SymValue<L::Bit>,
) -> Result<SymValues<L::Bit>, NoMemory>
    requires some { 0 < slots.now.prints }
    requires kept { HoldsKept L.owns g.old slots.now kept.now }
    requires number { OwnsAll L.owns g.old number.now }
    requires word { IsValueIn L.owns g.old (IntForm (width_of_printed slots.now.limits)) word.now }
    ensures extends { Extends L.owns L.reads L.count g.old g.new }
    ensures owned { IfOk result (λ r. OwnsAll L.owns g.new (values_bits r)) }
    ensures forms { IfOk result (λ r. forms_of r ≡ drop 1 (forms_of kept.now)) }
    ensures value { IfOk result (λ r. (vs : List Bool) → map (map_bits (L.reads g.new vs)) r
        ≡ slice_set (drop 1 (map (map_bits (L.reads g.old vs)) kept.now))
        (nat_read L.reads g.old vs number.now) (map_bits (L.reads g.old vs) word.now)) }
{
    let mut words = SymValues::new(alloc);
    for i in 0..slots.prints {
        let here = equal_number(g, number.as_slice(), i)?;
        let old = kept.at(1 + i as usize);
        let chosen = choose_value(alloc, g, here, word, old)?;
        words.push(chosen)?;
    }
    Ok(words)
}

// What is kept, with one word more, where there is a place for it.
fn with_word<L: Logic>(
    alloc: Global,
    g: &mut L,
    slots: &Slots,
    kept: &SymValues<L::Bit>,
    word: &SymValue<L::Bit>,
) -> Result<SymValues<L::Bit>, NoMemory>
    requires keeps { slots.now.prints ≡ slots.now.limits.prints }
    requires some { 0 < slots.now.prints }
    requires kept { HoldsKept L.owns g.old slots.now kept.now }
    requires word { IsValueIn L.owns g.old (IntForm (width_of_printed slots.now.limits)) word.now }
    ensures extends { Extends L.owns L.reads L.count g.old g.new }
    ensures held { IfOk result (λ r. HoldsKept L.owns g.new slots.now r) }
    ensures value { IfOk result (λ r. (vs : List Bool)
        → length (words_kept (map (map_bits (L.reads g.old vs)) kept.now)) < slots.now.prints
        → KeepsOneMore (map (map_bits (L.reads g.old vs)) kept.now)
        (map (map_bits (L.reads g.new vs)) r) (word_in (map_bits (L.reads g.old vs) word.now))) }
{
    let number = word_of(kept.at(0));
    let words = put_word(alloc, g, slots, kept, number, word)?;
    let more = one_more(alloc, g, number)?;
    let mut all = words.into_vec();
    all.insert(0, SymValue::Int(more))?;
    Ok(SymValues::from_vec(all))
}

// Whether one more printed value may be kept.
fn fits_more<L: Logic>(
    g: &mut L,
    slots: &Slots,
    kept: &SymValues<L::Bit>,
) -> Result<L::Bit, NoMemory>
    requires some { 0 < slots.now.prints }
    requires kept { HoldsKept L.owns g.old slots.now kept.now }
    ensures extends { Extends L.owns L.reads L.count g.old g.new }
    ensures owned { IfOk result (λ r. L.owns g.new r) }
    ensures value { IfOk result (λ r. (vs : List Bool)
        → number_fits (map (map_bits (L.reads g.old vs)) kept.now) ≡ true → L.reads g.new vs r
        ≡ nat_lt (length (words_kept (map (map_bits (L.reads g.old vs)) kept.now)))
        slots.now.prints) }
{
    let number = word_of(kept.at(0));
    let full = equal_number(g, number.as_slice(), slots.prints)?;
    Ok(g.not(full))
}

/// A path on which one more printed value is kept. It ends where no more are.
pub fn keep_printed<L: Logic>(
    alloc: Global,
    g: &mut L,
    slots: &Slots,
    path: Path<L::Bit>,
    value: &SymValue<L::Bit>,
) -> Result<Path<L::Bit>, NoMemory>
    requires held { HoldsPath L.owns g.old (slot_forms slots.now) path }
    requires each { length slots.now.names ≡ length slots.now.types }
    requires keeps { slots.now.prints ≡ slots.now.limits.prints }
    requires some { 0 < slots.now.prints }
    requires value { (t : AnyType)
        × IsValueIn L.owns g.old (form_for slots.now.limits t) value.now }
    ensures extends { Extends L.owns L.reads L.count g.old g.new }
    ensures held { IfOk result (λ r. HoldsPath L.owns g.new (slot_forms slots.now) r) }
    ensures value { IfOk result (λ r. (vs : List Bool) (s : State) (v : Value) (line : ℕ)
        → gone_way slots.now (way (L.reads g.old vs) path ∷ []) ≡ reached (Some s)
        → read (L.reads g.old vs) value.now ≡ sure v
        → gone_way slots.now (way (L.reads g.new vs) r ∷ [])
        ≡ reached (state_next (printed_by slots.now.limits.prints line s v))) }
    ensures none { IfOk result (λ r. (vs : List Bool)
        → gone_way slots.now (way (L.reads g.old vs) path ∷ []) ≡ None
        → gone_way slots.now (way (L.reads g.new vs) r ∷ []) ≡ None) }
{
    let kept = printed_on(alloc, slots, &path)?;
    let fits = fits_more(g, slots, &kept)?;
    let here = narrow(g, slots, path, fits)?;
    let bits = printed_word(alloc, g, &slots.limits, value)?;
    let word = SymValue::Int(bits);
    let more = with_word(alloc, g, slots, &kept, &word)?;
    let there = with_kept(g, slots, here, more)?;
    Ok(there)
}
