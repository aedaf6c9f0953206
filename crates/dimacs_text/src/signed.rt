//! Literals of different variables, and the sign of each variable.
ghost use Rattle.std.specs.Prelude.{◌≡◌, ◌==◌, ◌∷◌, ◌++◌, [], ℕ, IfOk, MatchOption, false, true};
ghost use Rattle.std.specs.Prelude.{nat_eq};
ghost use Rattle.std.specs.HashMap.{get};
ghost use Rattle.std.specs.List.{list_any};
ghost use Rattle.dimacs_text.specs.Signs.{first_sign};
ghost use Rattle.dimacs_text.specs.Tidy.{stands};

use crate::NoMemory;
use clause_base::lit::Lit;
use clause_base::lits::Lits;
use std::alloc::Global;
use std::collections::HashMap;

/// Literals in order, whose variables are looked up.
#[derive(Drop)]
pub(crate) struct Signed {
    pub(crate) lits: Lits,
    signs: HashMap<u32, bool>,
    ghost linked: { (v : ℕ) → get nat_eq signs v ≡ first_sign v lits },
}

impl Signed {
    /// No literals.
    pub(crate) fn new(alloc: Global) -> Signed
        ensures { result.lits ≡ [] }
    {
        Signed {
            lits: Lits::new(alloc),
            signs: HashMap::new(alloc),
        }
    }

    /// The sign in which a variable stands among the literals.
    pub(crate) fn sign_of(&self, var: u32) -> Option<bool>
        ensures { MatchOption result
            (list_any (λ k. k.var == var) self.now.lits ≡ false)
            (λ sign. stands (record { var = var; positive = sign }) self.now.lits ≡ true) }
    {
        self.signs.get(&var).copied()
    }

    /// With a literal whose variable isn't there.
    pub(crate) fn and(self, lit: Lit) -> Result<Signed, NoMemory>
        requires { list_any (λ k. k.var == lit.var) self.lits ≡ false }
        ensures { IfOk result (λ r. r.lits ≡ self.lits ++ lit ∷ []) }
    {
        let Signed {
            mut lits,
            mut signs,
        } = self;
        signs.insert(lit.var, lit.positive)?;
        lits.push(lit)?;
        Ok(Signed { lits, signs })
    }
}
