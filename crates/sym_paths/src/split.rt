//! A path that a test divides.

ghost use Rattle.std.specs.Prelude.{◌≡◌, Bool, List, [], ◌∷◌, None, Some, ◌&&◌, IfOk};
ghost use Rattle.std.specs.Prelude.{if◌then◌else◌, option_to_list};
ghost use Rattle.bit_words.specs.Logic.{Extends};
ghost use Rattle.sym_paths.specs.Paths.{way, ways, gone_way, arrival, HoldsPath, HoldsPaths};
ghost use Rattle.sym_paths.specs.Slots.{slot_forms};

use crate::path::Path;
use crate::slots::Slots;
use bit_words::NoMemory;
use bit_words::logic::Logic;

/// The two sides of a test: the path where it holds, and where it doesn't. A side is none where it
/// is known not to be taken.
#[derive(Drop)]
pub struct Sides<B: Copy> {
    pub yes: Option<Path<B>>,
    pub no: Option<Path<B>>,
}

// Whether two bits both hold. Where the second is known that makes no gate.
#[tactic(auto, using(crate::proofs::Joins::known_bits))]
fn both<L: Logic>(g: &mut L, a: L::Bit, b: L::Bit) -> Result<L::Bit, NoMemory>
    requires left { L.owns g.old a }
    requires right { L.owns g.old b }
    ensures extends { Extends L.owns L.reads L.count g.old g.new }
    ensures owned { IfOk result (λ r. L.owns g.new r) }
    ensures value { IfOk result (λ r. (vs : List Bool) →
        L.reads g.new vs r ≡ (L.reads g.old vs a && L.reads g.old vs b)) }
{
    match g.known(b) {
        Some(true) => Ok(a),
        Some(false) => Ok(b),
        None => {
            let bit = g.and(a, b)?;
            Ok(bit)
        }
    }
}

/// A path, where a bit holds besides.
pub fn narrow<L: Logic>(
    g: &mut L,
    slots: &Slots,
    path: Path<L::Bit>,
    test: L::Bit,
) -> Result<Path<L::Bit>, NoMemory>
    requires held { HoldsPath L.owns g.old (slot_forms slots.now) path }
    requires test { L.owns g.old test }
    ensures extends { Extends L.owns L.reads L.count g.old g.new }
    ensures held { IfOk result (λ r. HoldsPath L.owns g.new (slot_forms slots.now) r) }
    ensures value { IfOk result (λ r. (vs : List Bool) →
        gone_way slots.now (way (L.reads g.new vs) r ∷ [])
        ≡ (if L.reads g.old vs test
        then gone_way slots.now (way (L.reads g.old vs) path ∷ []) else None)) }
{
    let bit = both(g, path.bit, test)?;
    Ok(Path {
        bit,
        values: path.values,
        set: path.set,
    })
}

/// A path, or none where it is known not to be taken.
pub fn living<L: Logic>(g: &L, slots: &Slots, path: Path<L::Bit>) -> Option<Path<L::Bit>>
    requires { HoldsPath L.owns g.now (slot_forms slots.now) path }
    ensures held { HoldsPaths L.owns g.now (slot_forms slots.now) (option_to_list result) }
    ensures value { (vs : List Bool) →
        gone_way slots.now (ways (L.reads g.now vs) (option_to_list result))
        ≡ gone_way slots.now (way (L.reads g.now vs) path ∷ []) }
{
    match g.known(path.bit) {
        Some(false) => None,
        _ => Some(path),
    }
}

// A path that is taken where a bit holds, in place of its own.
fn with_bit<L: Logic>(_g: &L, _slots: &Slots, path: Path<L::Bit>, bit: L::Bit) -> Path<L::Bit>
    requires held { HoldsPath L.owns _g.now (slot_forms _slots.now) path }
    requires bit { L.owns _g.now bit }
    ensures held { HoldsPath L.owns _g.now (slot_forms _slots.now) result }
    ensures value { (vs : List Bool) →
        gone_way _slots.now (way (L.reads _g.now vs) result ∷ [])
        ≡ (if L.reads _g.now vs bit
        then Some (arrival _slots.now (way (L.reads _g.now vs) path)) else None) }
{
    Path {
        bit,
        values: path.values,
        set: path.set,
    }
}

// The same of a copy.
fn copy_with_bit<L: Logic>(
    _g: &L,
    _slots: &Slots,
    path: &Path<L::Bit>,
    bit: L::Bit,
) -> Result<Path<L::Bit>, NoMemory>
    requires held { HoldsPath L.owns _g.now (slot_forms _slots.now) path.now }
    requires bit { L.owns _g.now bit }
    ensures held { IfOk result (λ r. HoldsPath L.owns _g.now (slot_forms _slots.now) r) }
    ensures value { IfOk result (λ r. (vs : List Bool) →
        gone_way _slots.now (way (L.reads _g.now vs) r ∷ [])
        ≡ (if L.reads _g.now vs bit
        then Some (arrival _slots.now (way (L.reads _g.now vs) path.now)) else None)) }
{
    let values = path.values.copy()?;
    let set = path.set.copy()?;
    Ok(Path { bit, values, set })
}

// The sides of a path of which one is taken where a bit holds and the other where another does.
fn both_sides<L: Logic>(
    g: &L,
    slots: &Slots,
    path: Path<L::Bit>,
    yes: L::Bit,
    no: L::Bit,
) -> Result<Sides<L::Bit>, NoMemory>
    requires held { HoldsPath L.owns g.now (slot_forms slots.now) path }
    requires owned_yes { L.owns g.now yes }
    requires owned_no { L.owns g.now no }
    ensures held_yes { IfOk result (λ r.
        HoldsPaths L.owns g.now (slot_forms slots.now) (option_to_list r.yes)) }
    ensures held_no { IfOk result (λ r.
        HoldsPaths L.owns g.now (slot_forms slots.now) (option_to_list r.no)) }
    ensures yes { IfOk result (λ r. (vs : List Bool) →
        gone_way slots.now (ways (L.reads g.now vs) (option_to_list r.yes))
        ≡ (if L.reads g.now vs yes
        then Some (arrival slots.now (way (L.reads g.now vs) path)) else None)) }
    ensures no { IfOk result (λ r. (vs : List Bool) →
        gone_way slots.now (ways (L.reads g.now vs) (option_to_list r.no))
        ≡ (if L.reads g.now vs no
        then Some (arrival slots.now (way (L.reads g.now vs) path)) else None)) }
{
    match g.known(no) {
        Some(false) => {
            let here = with_bit(g, slots, path, yes);
            let yes = living(g, slots, here);
            Ok(Sides { yes, no: None })
        }
        _ => match g.known(yes) {
            Some(false) => {
                let here = with_bit(g, slots, path, no);
                Ok(Sides {
                    yes: None,
                    no: Some(here),
                })
            }
            _ => {
                let other = copy_with_bit(g, slots, &path, no)?;
                let here = with_bit(g, slots, path, yes);
                Ok(Sides {
                    yes: Some(here),
                    no: Some(other),
                })
            }
        },
    }
}

// The two sides of a test of which nothing is known.
fn divide_by<L: Logic>(
    g: &mut L,
    slots: &Slots,
    path: Path<L::Bit>,
    test: L::Bit,
) -> Result<Sides<L::Bit>, NoMemory>
    requires held { HoldsPath L.owns g.old (slot_forms slots.now) path }
    requires test { L.owns g.old test }
    ensures extends { Extends L.owns L.reads L.count g.old g.new }
    ensures held_yes { IfOk result (λ r.
        HoldsPaths L.owns g.new (slot_forms slots.now) (option_to_list r.yes)) }
    ensures held_no { IfOk result (λ r.
        HoldsPaths L.owns g.new (slot_forms slots.now) (option_to_list r.no)) }
    ensures yes { IfOk result (λ r. (vs : List Bool) →
        gone_way slots.now (ways (L.reads g.new vs) (option_to_list r.yes))
        ≡ (if L.reads g.old vs test
        then gone_way slots.now (way (L.reads g.old vs) path ∷ []) else None)) }
    ensures no { IfOk result (λ r. (vs : List Bool) →
        gone_way slots.now (ways (L.reads g.new vs) (option_to_list r.no))
        ≡ (if L.reads g.old vs test
        then None else gone_way slots.now (way (L.reads g.old vs) path ∷ []))) }
{
    let other = g.not(test);
    let yes = g.and(path.bit, test)?;
    let no = g.and(path.bit, other)?;
    let sides = both_sides(g, slots, path, yes, no)?;
    Ok(sides)
}

// The two sides of a test without a fault.
fn divide<L: Logic>(
    g: &mut L,
    slots: &Slots,
    path: Path<L::Bit>,
    test: L::Bit,
) -> Result<Sides<L::Bit>, NoMemory>
    requires held { HoldsPath L.owns g.old (slot_forms slots.now) path }
    requires test { L.owns g.old test }
    ensures extends { Extends L.owns L.reads L.count g.old g.new }
    ensures held_yes { IfOk result (λ r.
        HoldsPaths L.owns g.new (slot_forms slots.now) (option_to_list r.yes)) }
    ensures held_no { IfOk result (λ r.
        HoldsPaths L.owns g.new (slot_forms slots.now) (option_to_list r.no)) }
    ensures yes { IfOk result (λ r. (vs : List Bool) →
        gone_way slots.now (ways (L.reads g.new vs) (option_to_list r.yes))
        ≡ (if L.reads g.old vs test
        then gone_way slots.now (way (L.reads g.old vs) path ∷ []) else None)) }
    ensures no { IfOk result (λ r. (vs : List Bool) →
        gone_way slots.now (ways (L.reads g.new vs) (option_to_list r.no))
        ≡ (if L.reads g.old vs test
        then None else gone_way slots.now (way (L.reads g.old vs) path ∷ []))) }
{
    match g.known(test) {
        Some(true) => {
            let yes = living(g, slots, path);
            Ok(Sides { yes, no: None })
        }
        Some(false) => {
            let no = living(g, slots, path);
            Ok(Sides { yes: None, no })
        }
        None => {
            let sides = divide_by(g, slots, path, test)?;
            Ok(sides)
        }
    }
}

// The two sides of a test, where nothing is known of its fault.
fn split_by<L: Logic>(
    g: &mut L,
    slots: &Slots,
    path: Path<L::Bit>,
    fault: L::Bit,
    test: L::Bit,
) -> Result<Sides<L::Bit>, NoMemory>
    requires held { HoldsPath L.owns g.old (slot_forms slots.now) path }
    requires fault { L.owns g.old fault }
    requires test { L.owns g.old test }
    ensures extends { Extends L.owns L.reads L.count g.old g.new }
    ensures held_yes { IfOk result (λ r.
        HoldsPaths L.owns g.new (slot_forms slots.now) (option_to_list r.yes)) }
    ensures held_no { IfOk result (λ r.
        HoldsPaths L.owns g.new (slot_forms slots.now) (option_to_list r.no)) }
    ensures yes { IfOk result (λ r. (vs : List Bool) →
        gone_way slots.now (ways (L.reads g.new vs) (option_to_list r.yes))
        ≡ (if L.reads g.old vs fault then None else if L.reads g.old vs test
        then gone_way slots.now (way (L.reads g.old vs) path ∷ []) else None)) }
    ensures no { IfOk result (λ r. (vs : List Bool) →
        gone_way slots.now (ways (L.reads g.new vs) (option_to_list r.no))
        ≡ (if L.reads g.old vs fault then None else if L.reads g.old vs test
        then None else gone_way slots.now (way (L.reads g.old vs) path ∷ []))) }
{
    let fine = g.not(fault);
    let here = narrow(g, slots, path, fine)?;
    let sides = divide(g, slots, here, test)?;
    Ok(sides)
}

/// The two sides of a test. Neither is taken where there is a fault.
pub fn split<L: Logic>(
    g: &mut L,
    slots: &Slots,
    path: Path<L::Bit>,
    fault: L::Bit,
    test: L::Bit,
) -> Result<Sides<L::Bit>, NoMemory>
    requires held { HoldsPath L.owns g.old (slot_forms slots.now) path }
    requires fault { L.owns g.old fault }
    requires test { L.owns g.old test }
    ensures extends { Extends L.owns L.reads L.count g.old g.new }
    ensures held_yes { IfOk result (λ r.
        HoldsPaths L.owns g.new (slot_forms slots.now) (option_to_list r.yes)) }
    ensures held_no { IfOk result (λ r.
        HoldsPaths L.owns g.new (slot_forms slots.now) (option_to_list r.no)) }
    ensures yes { IfOk result (λ r. (vs : List Bool) →
        gone_way slots.now (ways (L.reads g.new vs) (option_to_list r.yes))
        ≡ (if L.reads g.old vs fault then None else if L.reads g.old vs test
        then gone_way slots.now (way (L.reads g.old vs) path ∷ []) else None)) }
    ensures no { IfOk result (λ r. (vs : List Bool) →
        gone_way slots.now (ways (L.reads g.new vs) (option_to_list r.no))
        ≡ (if L.reads g.old vs fault then None else if L.reads g.old vs test
        then None else gone_way slots.now (way (L.reads g.old vs) path ∷ []))) }
{
    match g.known(fault) {
        Some(true) => Ok(Sides {
            yes: None,
            no: None,
        }),
        Some(false) => {
            let sides = divide(g, slots, path, test)?;
            Ok(sides)
        }
        None => {
            let sides = split_by(g, slots, path, fault, test)?;
            Ok(sides)
        }
    }
}
