//! The four clauses of two variables, no values of which satisfy all.

ghost use Rattle.std.specs.Prelude.{◌≡◌, ◌+◌, true, IfOk, OnOk, length};
ghost use Rattle.clause_base.specs.Formulas.{clauses_in_range};

use clause_base::NoMemory;
use clause_base::clause::Clause;
use clause_base::formula::Clauses;
use clause_base::lit::Lit;
use clause_base::lits::Lits;
use std::alloc::Global;

/// Adds the clause of variables 1 and 2 with these signs.
pub(crate) fn push_signs(
    alloc: Global,
    known: &mut Clauses,
    first: bool,
    second: bool,
) -> Result<(), NoMemory>
    requires { clauses_in_range 2 known.old ≡ true }
    ensures range { OnOk result (clauses_in_range 2 known.new ≡ true) }
    ensures more { OnOk result (length known.new ≡ length known.old + 1) }
{
    let first = Lit {
        var: 1,
        positive: first,
    };
    let second = Lit {
        var: 2,
        positive: second,
    };
    let lits = Lits::from_slice(alloc, &[first, second])?;
    known.push(Clause::new(lits))?;
    Ok(())
}

/// All four.
pub(crate) fn all_signs(alloc: Global) -> Result<Clauses, NoMemory>
    ensures range { IfOk result (λ known. clauses_in_range 2 known ≡ true) }
    ensures four { IfOk result (λ known. length known ≡ 4) }
{
    let mut known = Clauses::new(alloc);
    push_signs(alloc, &mut known, true, true)?;
    push_signs(alloc, &mut known, true, false)?;
    push_signs(alloc, &mut known, false, true)?;
    push_signs(alloc, &mut known, false, false)?;
    Ok(known)
}
