//! What operators are applied to.
ghost use Rattle.std.specs.Prelude.{◌≡◌};
ghost use Rattle.mpy_interp.specs.Operands.{value_behind};

use mpy_tree::Value;

/// What an operator is applied to: a local's value, which is only looked at, or one that was made.
#[derive(Drop)]
pub enum Operand<'a> {
    Local(&'a Value),
    Made(Value),
}

impl Operand<'_> {
    /// The value.
    #[inline]
    pub fn value(&self) -> &Value
        ensures { result.now ≡ value_behind self.now }
    {
        match self {
            Operand::Local(v) => v,
            Operand::Made(v) => v,
        }
    }
}
