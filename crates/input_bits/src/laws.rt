//! What the bits of values spell, and what splits say of values.
ghost use Rattle.std.specs.Prelude.{◌≡◌, ℕ, Bool, List};
ghost use Rattle.mpy_tree.specs.declared.limits.Limits.{Limits};
ghost use Rattle.mpy_tree.specs.declared.typing.Ty.{Ty};
ghost use Rattle.sym_values.specs.Reading.{spelled};
ghost use Rattle.input_space.specs.ValueBits.{value_at};
ghost use Rattle.input_bits.specs.Cases.{ValuesHaveCases};
ghost use Rattle.input_bits.specs.Layout.{decoded, laid_out};

/// What a value whose bits are these truth values reads as is the value that they spell, where they
/// spell one.
pub fn what_is_read_decodes()
    ensures { (l : Limits) (t : Ty) (vs : List Bool) (start : ℕ)
        → decoded (spelled (laid_out l t vs start)) ≡ value_at l t vs start }
{}

/// Values within the ranges of the parameters belong to some case.
pub fn values_have_cases()
    ensures { ValuesHaveCases }
{}
