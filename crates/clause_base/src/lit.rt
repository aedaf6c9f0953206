//! A literal.

ghost use Rattle.std.specs.Prelude.{◌≡◌};
ghost use Rattle.clause_base.specs.Formulas.{in_range};
ghost use Rattle.clause_base.specs.Literals.{opposite};

/// A variable, from 1 on, or its negation.
#[derive(Clone, Copy, Default, PartialEq, Eq)]
pub struct Lit {
    pub var: u32,
    pub positive: bool,
}

impl Lit {
    /// The literal of the same variable with the other sign.
    pub fn opposite(self) -> Lit
        ensures { result ≡ opposite self }
    {
        Lit {
            var: self.var,
            positive: !self.positive,
        }
    }

    /// Whether the variable is one of those from 1 to `vars`.
    pub fn is_in_range(self, vars: u32) -> bool
        ensures { result ≡ in_range vars self }
    {
        0 < self.var && self.var <= vars
    }
}
