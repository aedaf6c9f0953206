//! The checker on the four clauses of two variables.

ghost use Rattle.std.specs.Prelude.{◌≡◌, ◌<◌, ◌≤◌, true, All, length};
ghost use Rattle.std.specs.List.{list_all};
ghost use Rattle.clause_base.specs.Literals.{has_no_variable_twice};
ghost use Rattle.clause_base.specs.Formulas.{in_range};

use crate::all_signs::all_signs;
use clause_base::NoMemory;
use clause_base::answer::StepAnswer;
use clause_base::clause::Clause;
use clause_base::hints::Hints;
use clause_base::lit::Lit;
use clause_base::lits::Lits;
use derivation_check::checker::Checker;
use std::alloc::Global;
use std::test::Fail;

/// The answer for a clause of no literal or one, over variables 1 and 2.
fn answer(alloc: Global, lits: &[Lit], hints: &[u32]) -> Result<StepAnswer, NoMemory>
    requires distinct { has_no_variable_twice lits.now ≡ true }
    requires covered { list_all (in_range 2) lits.now ≡ true }
    requires named { All (λ h. (0 < h) × (h ≤ 4)) hints.now }
{
    let known = all_signs(alloc)?;
    let mut checker = Checker::new(alloc, 2)?;
    let clause = Clause::new(Lits::from_slice(alloc, lits)?);
    let hints = Hints::from_slice(alloc, hints)?;
    Ok(checker.step(&known, &clause, &hints))
}

#[test]
fn answers_over_all_signs(rt: HostRuntime) -> Result<(), Fail> {
    let alloc = rt.alloc();
    let one = Lit {
        var: 1,
        positive: true,
    };
    assert!(rt; answer(alloc, &[one], &[1, 2])? == StepAnswer::Good);
    assert!(rt; answer(alloc, &[one], &[1])? == StepAnswer::NoEnd);
    assert!(rt; answer(alloc, &[], &[1])? == StepAnswer::NotUnit(1));
    Ok(())
}
