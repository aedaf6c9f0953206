//! What an expression is evaluated in, to be looked at.

ghost use Rattle.std.specs.Prelude.{◌≡◌};
ghost use Rattle.sym_nodes.specs.Views.{env_of};

use crate::env::{Env, Picks};
use bit_words::bits::Bits;
use mpy_tree::{Limits, Names};
use sym_values::SymValues;

/// What an expression is evaluated in, as an `Env` whose parts stand elsewhere.
#[derive(Drop)]
pub struct View<'a, B: Copy> {
    pub names: &'a Names,
    pub values: &'a SymValues<B>,
    pub set: &'a Bits<B>,
    pub picks: &'a Picks<B>,
    pub limits: &'a Limits,
    pub depth: u32,
}

/// A view of the parts of an `Env`.
pub fn view_of<B: Copy>(env: &Env<B>) -> View<'_, B>
    ensures { env_of result ≡ env.now }
{
    View {
        names: &env.names,
        values: &env.values,
        set: &env.set,
        picks: &env.picks,
        limits: &env.limits,
        depth: env.depth,
    }
}
