//! The laws of numbers of selections.
ghost use Rattle.std.specs.Prelude.{◌≤◌, length};
ghost use Rattle.choice_tree.specs.WeightedTrees.{Weighted, numbered, size};
ghost use Rattle.selection_numbers.specs.Live.{LivePicksFit, LivePicksSuffice};
ghost use Rattle.selection_numbers.specs.MemberCounts.{member_counts};
ghost use Rattle.selection_numbers.specs.Numbers.{AreNumbered};

/// Where the picks of a tree are numbered in order, each number gives a selection that fits it, and
/// each that fits has one number below the number of choices, and no other. So there are as many
/// selections that fit as choices.
pub fn selections_have_numbers()
    ensures { (u : Weighted) → AreNumbered (numbered u 0) }
{}

/// There are no more picks than expression nodes.
pub fn few_picks()
    ensures { (w : Weighted) → length (member_counts w) ≤ size w }
{}

/// A selection may leave out the picks in members that aren't chosen: it makes the same tree at the
/// same cost.
pub fn live_picks_suffice()
    ensures { LivePicksSuffice }
{}

/// A member at each pick of a numbered tree makes a selection that fits, once picks in members that
/// aren't chosen are left out.
pub fn live_picks_fit()
    ensures { LivePicksFit }
{}
