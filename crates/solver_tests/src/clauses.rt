//! Each call that takes memory gives something else where memory is ample.

ghost use Rattle.std.specs.Prelude.{◌≡◌, ◌≢◌, [], ◌∷◌, IfOk};
ghost use Rattle.clause_base.specs.declared.lit.Lit.{Lit};

use clause_base::NoMemory;
use clause_base::clause::Clause;
use clause_base::formula::{Clauses, Formula};
use clause_base::hints::Hints;
use clause_base::lit::Lit;
use clause_base::lits::Lits;
use clause_base::log::{Log, Step, Steps};
use clause_base::truths::{Truths, clause_holds};
use std::alloc::Global;
use std::test::Fail;

fn clause_of_two(alloc: Global, a: Lit, b: Lit) -> Result<Clause, NoMemory>
    requires { b.var ≢ a.var }
    ensures { IfOk result (λ c. c.lits ≡ a ∷ b ∷ []) }
{
    let mut lits = Lits::new(alloc);
    lits.push(a)?;
    lits.push(b)?;
    Ok(Clause::new(lits))
}

fn empty_step(alloc: Global, hints: &[u32]) -> Result<Step, NoMemory> {
    let lits = Lits::from_slice(alloc, &[])?;
    let hints = Hints::from_slice(alloc, hints)?;
    Ok(Step {
        clause: Clause::new(lits),
        hints,
    })
}

#[test]
fn clauses_hold_and_logs_refute(rt: HostRuntime) -> Result<(), Fail> {
    let alloc = rt.alloc();
    let first = Lit {
        var: 1,
        positive: true,
    };
    let second = Lit {
        var: 2,
        positive: false,
    };
    let clause = clause_of_two(alloc, first, second)?;
    let mut truths = Truths::new(alloc);
    truths.push(false)?;
    truths.push(true)?;
    assert!(rt; !clause_holds(&clause, &truths.copy()?), "both are false");
    let other = clause_of_two(alloc, first.opposite(), second)?;
    assert!(rt; clause_holds(&other.copy()?, &truths), "the first is true");

    let mut clauses = Clauses::with_capacity(alloc, 1)?;
    clauses.push(clause)?;
    let formula = Formula { vars: 2, clauses };
    assert!(rt; formula.same(&formula.copy()?), "a copy is the same");
    assert!(rt;
        Formula::new(1, formula.clauses.copy()?).is_none(),
        "variable 2 is out of range"
    );
    assert!(rt;
        Formula::new(2, formula.clauses.copy()?).is_some(),
        "both are in range"
    );
    let items = formula.clauses.into_vec();
    assert_eq!(rt; items[0].greatest(), 2);

    let mut steps = Steps::new(alloc);
    let log = Log {
        steps: steps.copy()?,
    };
    assert!(rt; !log.refutes(), "no clause is empty");
    steps.push(empty_step(alloc, &[1, 2])?)?;
    let log = Log { steps };
    assert!(rt; log.copy()?.refutes(), "the last clause is empty");
    Ok(())
}
