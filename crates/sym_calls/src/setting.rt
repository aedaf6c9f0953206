//! What is fixed while calls are remembered.

ghost use Rattle.std.specs.Prelude.{[], None, ⊤};
ghost use Rattle.sym_calls.specs.Remembered.{Fixed};

use std::marker::Brand;

/// What is fixed while calls are remembered. It stands in types alone, and has no value: where the
/// memory is made, the proof of a call at `Brand` picks it.
pub trait Setting<B> {
    ghost fixed: { Fixed B };
}

impl<B> Setting<B> for Brand {
    ghost fixed = { record {
      signatures = record { program = []; slots = λ i x. None };
      are_calls = λ n l m calls. ⊤;
      picks = [];
    } };
}
