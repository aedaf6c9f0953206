//! Unit propagation, and the look at the clauses of a variable.

ghost use Rattle.std.specs.Prelude.{◌≡◌, ◌-◌, ◌<◌, ◌≤◌, true, IfSome, MatchOption, length};
ghost use Rattle.clause_base.specs.Follows.{literals_at};
ghost use Rattle.clause_base.specs.Formulas.{in_range};
ghost use Rattle.sat_watch.specs.Listing.{IsListing};
ghost use Rattle.sat_watch.specs.Searching.{Gives, Grows, IsQuiet, IsSearch, IsSeen, IsUnitAt};
ghost use Rattle.sat_watch.specs.Searching.{all_of};
ghost use Rattle.sat_watch.specs.Trails.{IsConflict, IsValued, literals_of};

use crate::known::Known;
use crate::listing::Listing;
use crate::trail::{Scan, Trail};
use crate::watches::{Watches, number_of};
use clause_base::lit::Lit;

/// What a visit of a clause finds.
#[derive(Drop)]
pub enum Seen {
    /// All of its literals are false.
    Closed,
    /// One wasn't false, and became true.
    Implied,
    /// One is true, or two and more aren't false: here is one of them, and the place in the clause
    /// where the look ended, counted from 0.
    Other(Lit, usize),
}

/// A clause whose other literals are false, and the literal that is left.
#[derive(Clone, Copy)]
pub struct Given {
    pub number: u32,
    pub lit: Lit,
}

/// Looks at the clause of a number, from a place on and then from its front. One with a single
/// literal that isn't false makes that literal true.
pub fn visit(known: &Known<'_>, trail: &mut Trail, number: u32, from: usize, other: Lit) -> Seen
    requires vars { trail.old.vars ≡ known.now.vars }
    requires some { 0 < number }
    requires within { number ≤ length (all_of known.now) }
    requires search { IsSearch (record { base = known.now; entries = trail.old.entries }) }
    ensures vars { trail.new.vars ≡ trail.old.vars }
    ensures grows { Grows trail.old.entries trail.new.entries }
    ensures search { IsSearch (record { base = known.now; entries = trail.new.entries }) }
    ensures seen { IsSeen known.now trail.new.entries number result }
{
    let clause = known.at(number);
    match trail.look_over(clause.lits.as_slice(), from, other) {
        Scan::Closed => Seen::Closed,
        Scan::One(lit) => {
            trail.imply(lit, number);
            Seen::Implied
        }
        Scan::Other(lit, place) => Seen::Other(lit, place),
    }
}

/// Whether a literal is true; none is that has variable 0.
fn is_true(trail: &Trail, lit: Lit) -> bool
    requires { lit.var ≤ trail.now.vars }
{
    lit.var > 0 && trail.is_true(lit)
}

/// Visits the clauses that watch a literal, which is false, up to one whose literals are all false:
/// gives its number. One that comes to watch another literal leaves the list.
pub fn go_over(known: &Known<'_>, trail: &mut Trail, watches: &mut Watches, lit: Lit) -> Option<u32>
    requires vars { trail.old.vars ≡ known.now.vars }
    requires range { in_range known.now.vars lit ≡ true }
    requires watches { watches.old ≡ record {
      vars = known.now.vars;
      clauses = length (all_of known.now);
    } }
    requires search { IsSearch (record { base = known.now; entries = trail.old.entries }) }
    ensures watches { watches.new ≡ watches.old }
    ensures vars { trail.new.vars ≡ trail.old.vars }
    ensures grows { Grows trail.old.entries trail.new.entries }
    ensures search { IsSearch (record { base = known.now; entries = trail.new.entries }) }
    ensures conflict { IfSome result (IsConflict (all_of known.now) trail.new.entries) }
{
    let mut before = 0;
    let mut item = watches.first(lit);
    for _count in 0..2 * known.len() {
        if item == 0 {
            break;
        }
        let next = watches.next(item);
        let other = watches.other(item);
        if is_true(trail, other) {
            before = item;
        } else {
            let number = number_of(item);
            match visit(known, trail, number, watches.place(item), other) {
                Seen::Closed => return Some(number),
                Seen::Implied => before = item,
                Seen::Other(to, place) => watches.rewatch(lit, before, item, to, place),
            }
        }
        item = next;
    }
    None
}

/// Makes true what follows from the literals from a place on, each in its turn, up to a clause
/// whose literals are all false: gives its number.
pub fn propagate(
    known: &Known<'_>,
    trail: &mut Trail,
    watches: &mut Watches,
    from: usize,
) -> Option<u32>
    requires vars { trail.old.vars ≡ known.now.vars }
    requires watches { watches.old ≡ record {
      vars = known.now.vars;
      clauses = length (all_of known.now);
    } }
    requires search { IsSearch (record { base = known.now; entries = trail.old.entries }) }
    ensures watches { watches.new ≡ watches.old }
    ensures vars { trail.new.vars ≡ trail.old.vars }
    ensures grows { Grows trail.old.entries trail.new.entries }
    ensures search { IsSearch (record { base = known.now; entries = trail.new.entries }) }
    ensures conflict { IfSome result (IsConflict (all_of known.now) trail.new.entries) }
{
    let mut next = from;
    while next < trail.len() {
        let lit = trail.at(next).opposite();
        if let Some(number) = go_over(known, trail, watches, lit) {
            return Some(number);
        }
        next += 1;
    }
    None
}

/// Looks at a clause whose greatest variable is this one, which has no value: gives the literal by
/// which it gets its value, where the other literals are false.
fn look_at(
    known: &Known<'_>,
    trail: &Trail,
    listing: &mut Listing,
    number: u32,
    var: u32,
) -> Option<Lit>
    requires vars { trail.now.vars ≡ known.now.vars }
    requires some { 0 < number }
    requires within { number ≤ length (all_of known.now) }
    requires listed { number ≤ length listing.old.nexts }
    requires unset { IsValued (literals_of trail.now.entries) var → ⊥ }
    ensures same { listing.new ≡ listing.old }
    ensures answer { MatchOption result
        (IsUnitAt var (literals_of trail.now.entries) (literals_at (all_of known.now) (number - 1))
        → ⊥)
        (λ lit. Gives known.now trail.now.entries var number lit) }
{
    let _entries = trail.entries();
    let clause = known.at(number);
    let lits = clause.lits.as_slice();
    if let Some(place) = trail.true_place(lits, listing.place(number)) {
        listing.remember(number, place);
        return None;
    }
    if let Scan::One(lit) = trail.look_over(lits, 0, Lit::default()) {
        if lit.var == var {
            return Some(lit);
        }
    }
    None
}

/// Looks at the clauses whose greatest variable is this one, which has no value, for one by which
/// it gets its value.
pub fn look(known: &Known<'_>, trail: &Trail, listing: &mut Listing, var: u32) -> Option<Given>
    requires vars { trail.now.vars ≡ known.now.vars }
    requires some { 0 < var }
    requires within { var ≤ known.now.vars }
    requires listing { IsListing known.now.vars (all_of known.now) listing.old }
    requires unset { IsValued (literals_of trail.now.entries) var → ⊥ }
    ensures same { listing.new ≡ listing.old }
    ensures answer { MatchOption result
        (IsQuiet (all_of known.now) (literals_of trail.now.entries) var)
        (λ given. Gives known.now trail.now.entries var given.number given.lit) }
{
    let mut number = listing.first(var);
    while number > 0 {
        if let Some(lit) = look_at(known, trail, listing, number, var) {
            return Some(Given { number, lit });
        }
        number = listing.next(number);
    }
    None
}
