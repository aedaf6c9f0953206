//! Where two formulas differ.

ghost use Rattle.std.specs.Prelude.{◌≡◌, MatchOption};
ghost use Rattle.certificate_judge.specs.Places.{DifferAt};

use clause_base::formula::Formula;

/// The place, counted from 1, of the first clause that two formulas don't share; 0 where they share
/// all clauses and have other variables. Takes no memory.
pub(crate) fn difference(f: &Formula, g: &Formula) -> Option<u32>
    ensures { MatchOption result (f.now ≡ g.now) (DifferAt f.now g.now) }
{
    let first = f.clauses.count();
    let second = g.clauses.count();
    let common = first.min(second);
    for i in 0..common {
        if !f.clauses.at(i as usize).same(g.clauses.at(i as usize)) {
            return Some(i + 1);
        }
    }
    if first != second {
        return Some(common + 1);
    }
    if f.vars == g.vars { None } else { Some(0) }
}
