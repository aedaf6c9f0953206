//! What a formula keeps of a clause of a text.
ghost use Rattle.std.specs.Prelude.{◌≡◌, ◌==◌, ◌∷◌, ◌++◌, [], ℕ, IfOk, MatchOption, false, true};
ghost use Rattle.std.specs.Prelude.{filter_map};
ghost use Rattle.std.specs.List.{list_all, list_any};
ghost use Rattle.clause_base.specs.Formulas.{clauses_in_range, in_range};
ghost use Rattle.dimacs_text.specs.Tidy.{has_both, literals_of, once_onto, stands, tidied};

use crate::NoMemory;
use crate::signed::Signed;
use clause_base::clause::Clause;
use clause_base::formula::Clauses;
use clause_base::lit::Lit;
use clause_base::lits::Lits;
use std::alloc::Global;
use step_lines::distinct::are_distinct;

// As `tidied`, where a variable may stand twice. The copy at the end has no room to spare.
fn without_repeats(alloc: Global, lits: &[Lit]) -> Result<Option<Clause>, NoMemory>
    ensures { IfOk result (λ o. MatchOption o
        (has_both lits.now ≡ true)
        (λ c. (has_both lits.now ≡ false) × (c.lits ≡ once_onto [] lits.now))) }
{
    let mut kept = Signed::new(alloc);
    for lit in lits {
        match kept.sign_of(lit.var) {
            Some(sign) => {
                if sign != lit.positive {
                    return Ok(None);
                }
            }
            None => kept = kept.and(*lit)?,
        }
    }
    let exact = kept.lits.copy()?;
    Ok(Some(Clause::new(exact)))
}

// The clause of these literals, each where it stands first; none where a variable stands in both
// signs.
fn tidied(alloc: Global, lits: &[Lit]) -> Result<Option<Clause>, NoMemory>
    ensures { IfOk result (λ o. MatchOption o
        (has_both lits.now ≡ true)
        (λ c. (has_both lits.now ≡ false) × (c.lits ≡ once_onto [] lits.now))) }
{
    if !are_distinct(alloc, lits)? {
        return without_repeats(alloc, lits);
    }
    let whole = Lits::from_slice(alloc, lits)?;
    Ok(Some(Clause::new(whole)))
}

/// The clauses with what is kept of one more.
pub(crate) fn with_clause(
    alloc: Global,
    clauses: Clauses,
    lits: &[Lit],
) -> Result<Clauses, NoMemory>
    ensures kept { IfOk result (λ r.
        literals_of r ≡ literals_of clauses ++ filter_map tidied (lits.now ∷ [])) }
    ensures range { IfOk result (λ r. (vars : ℕ) → clauses_in_range vars clauses ≡ true
        → list_all (in_range vars) lits.now ≡ true → clauses_in_range vars r ≡ true) }
{
    let Some(clause) = tidied(alloc, lits)? else {
        return Ok(clauses);
    };
    let mut kept = clauses;
    kept.push(clause)?;
    Ok(kept)
}
