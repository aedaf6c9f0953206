//! A clause: literals, one of which is to be true.

ghost use Rattle.std.specs.Prelude.{◌≡◌, ◌↔◌, true, IfOk, IsTrue};
ghost use Rattle.clause_base.specs.Literals.{IsGreatest, has_no_variable_twice};

use crate::NoMemory;
use crate::lits::Lits;

/// A disjunction of literals, in which no variable stands twice.
#[derive(Drop)]
pub struct Clause {
    pub lits: Lits,
    pub ghost distinct: { has_no_variable_twice lits ≡ true },
}

impl Clause {
    /// The clause of these literals.
    pub fn new(lits: Lits) -> Clause
        requires { has_no_variable_twice lits ≡ true }
        ensures { result.lits ≡ lits }
    {
        Clause { lits }
    }

    /// An equal clause.
    pub fn copy(&self) -> Result<Clause, NoMemory>
        ensures { IfOk result (λ r. r ≡ self.now) }
    {
        let lits = self.lits.copy()?;
        Ok(Clause { lits })
    }

    /// Whether two clauses have the same literals in the same order.
    pub fn same(&self, other: &Clause) -> bool
        ensures { IsTrue result ↔ (self.now ≡ other.now) }
    {
        self.lits.same(&other.lits)
    }

    /// The greatest variable, or 0 where there is no literal.
    pub fn greatest(&self) -> u32
        ensures { IsGreatest result self.now.lits }
    {
        let mut most = 0;
        for lit in self.lits.as_slice() {
            if most < lit.var {
                most = lit.var;
            }
        }
        most
    }
}
