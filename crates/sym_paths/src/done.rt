//! The end of a run: its value, if it has one, and the values that it printed, where they are kept.

ghost use Rattle.std.specs.Prelude.{◌≡◌, ◌<◌, ◌+◌, ◌++◌, ℕ, Bool, true, false, List, [], ◌∷◌, map};
ghost use Rattle.std.specs.Prelude.{drop, length, IfOk, IsSome, option_map, option_to_list};
ghost use Rattle.std.specs.List.{All};
ghost use Rattle.mpy_tree.specs.Running.{done_by};
ghost use Rattle.mpy_tree.specs.Statements.{Ran};
ghost use Rattle.bit_words.specs.Logic.{Extends, OwnsAll};
ghost use Rattle.sym_values.specs.declared.value.SymValue.TheVariants as sym;
ghost use Rattle.sym_values.specs.Forms.{IntForm, form_of, values_bits};
ghost use Rattle.sym_values.specs.Printed.{DoneReads, IsDoneIn};
ghost use Rattle.sym_values.specs.Reading.{map_bits};
ghost use Rattle.sym_paths.specs.Paths.{first_handed, handed, way, ways, HoldsGiven};
ghost use Rattle.sym_paths.specs.Paths.{HoldsAllGiven, HoldsKept, HoldsPath, HoldsPaths};
ghost use Rattle.sym_paths.specs.Endings.{or_other, see, seen_of, HoldsOut};
ghost use Rattle.sym_paths.specs.Ends.{end_seen, first_end, met, HoldsEnded, IsMaybeBy};
ghost use Rattle.sym_paths.specs.Slots.{result_form, slot_forms};

use crate::finish::{finish, let_go};
use crate::join::choose_values;
use crate::path::{Given, Many, Out, Path};
use crate::printed::{LENGTH_BITS, nothing_printed, printed_on, word_of};
use crate::slots::Slots;
use bit_words::NoMemory;
use bit_words::bits::Bits;
use bit_words::bitwise::zeros;
use bit_words::gates::or;
use bit_words::logic::Logic;
use std::alloc::Global;
use sym_values::choose::choose_value;
use sym_values::constant::zero_value;
use sym_values::{PrintSlot, PrintSlots, SymDone, SymValue, SymValues};

// An end that is met where a bit holds: whether it has a value, which, and what is kept. A value
// that is missing is open.
#[derive(Drop)]
struct Ended<B: Copy> {
    bit: B,
    has: B,
    value: Option<SymValue<B>>,
    printed: SymValues<B>,
}

// One of two values, each of which may be missing. A missing one is open.
fn choose_maybe<L: Logic>(
    alloc: Global,
    g: &mut L,
    _slots: &Slots,
    test: L::Bit,
    yes: Option<SymValue<L::Bit>>,
    no: Option<SymValue<L::Bit>>,
) -> Result<Option<SymValue<L::Bit>>, NoMemory>
    requires test { L.owns g.old test }
    requires yes_is { IsMaybeBy _slots.now yes }
    requires no_is { IsMaybeBy _slots.now no }
    requires yes { OwnsAll L.owns g.old (values_bits (option_to_list yes)) }
    requires no { OwnsAll L.owns g.old (values_bits (option_to_list no)) }
    ensures extends { Extends L.owns L.reads L.count g.old g.new }
    ensures owned { IfOk result (λ r. OwnsAll L.owns g.new (values_bits (option_to_list r))) }
    ensures form { IfOk result (λ r. IsMaybeBy _slots.now r) }
    ensures yes { IfOk result (λ r. (vs : List Bool) → L.reads g.old vs test ≡ true → IsSome yes
        → option_map (map_bits (L.reads g.new vs)) r
        ≡ option_map (map_bits (L.reads g.old vs)) yes) }
    ensures no { IfOk result (λ r. (vs : List Bool) → L.reads g.old vs test ≡ false → IsSome no
        → option_map (map_bits (L.reads g.new vs)) r
        ≡ option_map (map_bits (L.reads g.old vs)) no) }
{
    match (yes, no) {
        (Some(a), Some(b)) => {
            let chosen = choose_value(alloc, g, test, &a, &b)?;
            Ok(Some(chosen))
        }
        (Some(a), None) => Ok(Some(a)),
        (None, b) => Ok(b),
    }
}

// One of two ends. The first counts where both are met.
fn join_ended<L: Logic>(
    alloc: Global,
    g: &mut L,
    slots: &Slots,
    a: Ended<L::Bit>,
    b: Ended<L::Bit>,
) -> Result<Ended<L::Bit>, NoMemory>
    requires first { HoldsEnded L.owns L.reads g.old slots.now a }
    requires second { HoldsEnded L.owns L.reads g.old slots.now b }
    ensures extends { Extends L.owns L.reads L.count g.old g.new }
    ensures held { IfOk result (λ r. HoldsEnded L.owns L.reads g.new slots.now r) }
    ensures value { IfOk result (λ r. (vs : List Bool) →
        met slots.now.limits (L.reads g.new vs) r
        ≡ or_other (met slots.now.limits (L.reads g.old vs) a)
        (met slots.now.limits (L.reads g.old vs) b)) }
{
    let bit = or(g, a.bit, b.bit)?;
    let has = g.choose(a.bit, a.has, b.has)?;
    let printed = choose_values(alloc, g, a.bit, &a.printed, &b.printed)?;
    let value = choose_maybe(alloc, g, slots, a.bit, a.value, b.value)?;
    Ok(Ended {
        bit,
        has,
        value,
        printed,
    })
}

// The same. Where it is known of one whether it is met, that decides.
fn join_ended_known<L: Logic>(
    alloc: Global,
    g: &mut L,
    slots: &Slots,
    a: Ended<L::Bit>,
    b: Ended<L::Bit>,
) -> Result<Ended<L::Bit>, NoMemory>
    requires first { HoldsEnded L.owns L.reads g.old slots.now a }
    requires second { HoldsEnded L.owns L.reads g.old slots.now b }
    ensures extends { Extends L.owns L.reads L.count g.old g.new }
    ensures held { IfOk result (λ r. HoldsEnded L.owns L.reads g.new slots.now r) }
    ensures value { IfOk result (λ r. (vs : List Bool) →
        met slots.now.limits (L.reads g.new vs) r
        ≡ or_other (met slots.now.limits (L.reads g.old vs) a)
        (met slots.now.limits (L.reads g.old vs) b)) }
{
    match g.known(a.bit) {
        Some(true) => {
            let_go(b);
            Ok(a)
        }
        Some(false) => {
            let_go(a);
            Ok(b)
        }
        None => match g.known(b.bit) {
            Some(false) => {
                let_go(b);
                Ok(a)
            }
            _ => join_ended(alloc, g, slots, a, b),
        },
    }
}

// The end by a path that leads out of the body: it has no value.
fn end_on<L: Logic>(
    alloc: Global,
    g: &L,
    slots: &Slots,
    path: &Path<L::Bit>,
) -> Result<Ended<L::Bit>, NoMemory>
    requires { HoldsPath L.owns g.now (slot_forms slots.now) path.now }
    ensures held { IfOk result (λ r. HoldsEnded L.owns L.reads g.now slots.now r) }
    ensures value { IfOk result (λ r. (vs : List Bool) →
        met slots.now.limits (L.reads g.now vs) r
        ≡ first_end slots.now (way (L.reads g.now vs) path.now ∷ [])) }
{
    let printed = printed_on(alloc, slots, path)?;
    let has = g.constant(false);
    Ok(Ended {
        bit: path.bit,
        has,
        value: None,
        printed,
    })
}

// The end by a `return`.
fn end_by<L: Logic>(g: &L, _slots: &Slots, given: Given<L::Bit>) -> Ended<L::Bit>
    requires { HoldsGiven L.owns g.now _slots.now given }
    ensures held { HoldsEnded L.owns L.reads g.now _slots.now result }
    ensures value { (vs : List Bool) →
        met _slots.now.limits (L.reads g.now vs) result
        ≡ first_handed _slots.now.limits (handed (L.reads g.now vs) given ∷ []) }
{
    let has = g.constant(given.value.is_some());
    Ended {
        bit: given.bit,
        has,
        value: given.value,
        printed: given.printed,
    }
}

// The first of the ends by paths that lead out of the body, and of one behind them.
fn join_paths<L: Logic>(
    alloc: Global,
    g: &mut L,
    slots: &Slots,
    mut paths: Many<Path<L::Bit>>,
    last: Ended<L::Bit>,
) -> Result<Ended<L::Bit>, NoMemory>
    requires paths { HoldsPaths L.owns g.old (slot_forms slots.now) paths }
    requires last { HoldsEnded L.owns L.reads g.old slots.now last }
    ensures extends { Extends L.owns L.reads L.count g.old g.new }
    ensures held { IfOk result (λ r. HoldsEnded L.owns L.reads g.new slots.now r) }
    ensures value { IfOk result (λ r. (vs : List Bool) →
        met slots.now.limits (L.reads g.new vs) r
        ≡ or_other (first_end slots.now (ways (L.reads g.old vs) paths))
        (met slots.now.limits (L.reads g.old vs) last)) }
{
    let mut joined = last;
    while let Some(path) = paths.pop() {
        let end = end_on(alloc, g, slots, &path)?;
        joined = join_ended_known(alloc, g, slots, end, joined)?;
    }
    Ok(joined)
}

// The first of the ends by a `return`, and of one behind them.
fn join_returned<L: Logic>(
    alloc: Global,
    g: &mut L,
    slots: &Slots,
    mut all: Many<Given<L::Bit>>,
    last: Ended<L::Bit>,
) -> Result<Ended<L::Bit>, NoMemory>
    requires all { HoldsAllGiven L.owns g.old slots.now all }
    requires last { HoldsEnded L.owns L.reads g.old slots.now last }
    ensures extends { Extends L.owns L.reads L.count g.old g.new }
    ensures held { IfOk result (λ r. HoldsEnded L.owns L.reads g.new slots.now r) }
    ensures value { IfOk result (λ r. (vs : List Bool) →
        met slots.now.limits (L.reads g.new vs) r
        ≡ or_other (first_handed slots.now.limits (map (handed (L.reads g.old vs)) all))
        (met slots.now.limits (L.reads g.old vs) last)) }
{
    let mut joined = last;
    while let Some(given) = all.pop() {
        let end = end_by(g, slots, given);
        joined = join_ended_known(alloc, g, slots, end, joined)?;
    }
    Ok(joined)
}

// An end that is not met.
fn no_end<L: Logic>(alloc: Global, g: &L, slots: &Slots) -> Result<Ended<L::Bit>, NoMemory>
    ensures held { IfOk result (λ r. HoldsEnded L.owns L.reads g.now slots.now r) }
    ensures value { IfOk result (λ r. (vs : List Bool) →
        met slots.now.limits (L.reads g.now vs) r ≡ None) }
{
    let no = g.constant(false);
    let printed = nothing_printed(alloc, g, slots)?;
    Ok(Ended {
        bit: no,
        has: no,
        value: None,
        printed,
    })
}

// The end of a body of which these ways lead out.
fn end_of_body<L: Logic>(
    alloc: Global,
    g: &mut L,
    slots: &Slots,
    out: Out<L::Bit>,
) -> Result<Ended<L::Bit>, NoMemory>
    requires { HoldsOut L.owns g.old slots.now out }
    ensures extends { Extends L.owns L.reads L.count g.old g.new }
    ensures held { IfOk result (λ r. HoldsEnded L.owns L.reads g.new slots.now r) }
    ensures value { IfOk result (λ r. (vs : List Bool) (run : Ran)
        → see (L.reads g.old vs) slots.now out ≡ seen_of run
        → met slots.now.limits (L.reads g.new vs) r ≡ end_seen run) }
{
    let none = no_end(alloc, g, slots)?;
    let returned = join_returned(alloc, g, slots, out.returned, none)?;
    let continued = join_paths(alloc, g, slots, out.continued, returned)?;
    let broke = join_paths(alloc, g, slots, out.broke, continued)?;
    let end = join_paths(alloc, g, slots, out.next, broke)?;
    Ok(end)
}

/// A printed value from its word.
pub fn slot_from<B: Copy>(value: &SymValue<B>) -> Result<PrintSlot<B>, NoMemory>
    requires { (n : ℕ) × (form_of value.now ≡ IntForm (2 + n)) }
    ensures word { IfOk result (λ r. value.now ≡ sym.Int (r.kind ++ r.bits)) }
    ensures kind { IfOk result (λ r. length r.kind ≡ 2) }
{
    let mut bits = word_of(value).copy()?.into_vec();
    let rest = bits.split_off(2)?;
    Ok(PrintSlot {
        kind: Bits::from_vec(bits),
        bits: Bits::from_vec(rest),
    })
}

// The printed values that are kept, as many as may be.
fn slots_from<L: Logic>(
    alloc: Global,
    _g: &L,
    slots: &Slots,
    kept: &SymValues<L::Bit>,
) -> Result<PrintSlots<L::Bit>, NoMemory>
    requires { HoldsKept L.owns _g.now slots.now kept.now }
    ensures words { IfOk result (λ r. map (λ s. sym.Int (s.kind ++ s.bits)) r ≡ drop 1 kept.now) }
    ensures kinds { IfOk result (λ r. All (λ s. length s.kind ≡ 2) r) }
{
    let mut all = PrintSlots::new(alloc);
    for i in 1..kept.len() {
        let slot = slot_from(kept.at(i))?;
        all.push(slot)?;
    }
    Ok(all)
}

// A value, or a zero where it is missing and the result has a type.
fn value_or_zero<L: Logic>(
    alloc: Global,
    g: &L,
    slots: &Slots,
    value: Option<SymValue<L::Bit>>,
) -> Result<Option<SymValue<L::Bit>>, NoMemory>
    requires is { IsMaybeBy slots.now value }
    requires owned { OwnsAll L.owns g.now (values_bits (option_to_list value)) }
    ensures owned { IfOk result (λ r. OwnsAll L.owns g.now (values_bits (option_to_list r))) }
    ensures form { IfOk result (λ r. option_map form_of r ≡ result_form slots.now) }
    ensures kept { IfOk result (λ r. IsSome value → r ≡ value) }
{
    if value.is_some() {
        return Ok(value);
    }
    match slots.result {
        None => Ok(None),
        Some(ty) => {
            let zero = zero_value(alloc, g, &slots.limits, ty)?;
            Ok(Some(zero))
        }
    }
}

// The end as it is told.
fn done_from<L: Logic>(
    alloc: Global,
    g: &L,
    slots: &Slots,
    end: Ended<L::Bit>,
) -> Result<SymDone<L::Bit>, NoMemory>
    requires held { HoldsEnded L.owns L.reads g.now slots.now end }
    requires keeps { slots.now.prints ≡ slots.now.limits.prints }
    requires some { 0 < slots.now.prints }
    ensures made { IfOk result (λ r.
        IsDoneIn L.owns g.now slots.now.limits (result_form slots.now) r) }
    ensures value { IfOk result (λ r. (vs : List Bool) (run : Ran) (line : ℕ)
        → met slots.now.limits (L.reads g.now vs) end ≡ end_seen run
        → DoneReads slots.now.limits (L.reads g.now vs) r (done_by line run)) }
{
    let number = word_of(end.printed.at(0)).copy()?;
    let len = Bits::from_vec(number.into_vec());
    let printed = slots_from(alloc, g, slots, &end.printed)?;
    let value = value_or_zero(alloc, g, slots, end.value)?;
    let fault = g.not(end.bit);
    Ok(SymDone {
        value,
        has: end.has,
        fault,
        len,
        slots: printed,
    })
}

// How a run ends whose printed values are kept.
fn finish_kept<L: Logic>(
    alloc: Global,
    g: &mut L,
    slots: &Slots,
    out: Out<L::Bit>,
) -> Result<SymDone<L::Bit>, NoMemory>
    requires held { HoldsOut L.owns g.old slots.now out }
    requires keeps { slots.now.prints ≡ slots.now.limits.prints }
    requires some { 0 < slots.now.prints }
    ensures extends { Extends L.owns L.reads L.count g.old g.new }
    ensures made { IfOk result (λ r.
        IsDoneIn L.owns g.new slots.now.limits (result_form slots.now) r) }
    ensures value { IfOk result (λ r. (vs : List Bool) (run : Ran) (line : ℕ)
        → see (L.reads g.old vs) slots.now out ≡ seen_of run
        → DoneReads slots.now.limits (L.reads g.new vs) r (done_by line run)) }
{
    let end = end_of_body(alloc, g, slots, out)?;
    let done = done_from(alloc, g, slots, end)?;
    Ok(done)
}

// How a run ends that keeps nothing: as a call does.
fn finish_alone<L: Logic>(
    alloc: Global,
    g: &mut L,
    slots: &Slots,
    out: Out<L::Bit>,
) -> Result<SymDone<L::Bit>, NoMemory>
    requires held { HoldsOut L.owns g.old slots.now out }
    requires keeps { slots.now.prints ≡ slots.now.limits.prints }
    requires dropped { slots.now.prints ≡ 0 }
    requires gives { IsSome slots.now.result }
    ensures extends { Extends L.owns L.reads L.count g.old g.new }
    ensures made { IfOk result (λ r.
        IsDoneIn L.owns g.new slots.now.limits (result_form slots.now) r) }
    ensures value { IfOk result (λ r. (vs : List Bool) (run : Ran) (line : ℕ)
        → see (L.reads g.old vs) slots.now out ≡ seen_of run
        → DoneReads slots.now.limits (L.reads g.new vs) r (done_by line run)) }
{
    let outcome = finish(alloc, g, slots, out.returned)?;
    let number = zeros(alloc, g, LENGTH_BITS)?;
    let len = Bits::from_vec(number.into_vec());
    let has = g.constant(true);
    Ok(SymDone {
        value: Some(outcome.value),
        has,
        fault: outcome.fault,
        len,
        slots: PrintSlots::new(alloc),
    })
}

/// How a run ends, from the ways out of the entry's body.
pub fn finish_run<L: Logic>(
    alloc: Global,
    g: &mut L,
    slots: &Slots,
    out: Out<L::Bit>,
) -> Result<SymDone<L::Bit>, NoMemory>
    requires held { HoldsOut L.owns g.old slots.now out }
    requires keeps { slots.now.prints ≡ slots.now.limits.prints }
    requires gives { slots.now.prints ≡ 0 → IsSome slots.now.result }
    ensures extends { Extends L.owns L.reads L.count g.old g.new }
    ensures made { IfOk result (λ r.
        IsDoneIn L.owns g.new slots.now.limits (result_form slots.now) r) }
    ensures value { IfOk result (λ r. (vs : List Bool) (run : Ran) (line : ℕ)
        → see (L.reads g.old vs) slots.now out ≡ seen_of run
        → DoneReads slots.now.limits (L.reads g.new vs) r (done_by line run)) }
{
    if slots.prints == 0 {
        finish_alone(alloc, g, slots, out)
    } else {
        finish_kept(alloc, g, slots, out)
    }
}
