//! The laws of levels, where the picks of a tree are numbered in order.
ghost use Rattle.choice_tree.specs.WeightedTrees.{Weighted, numbered};
ghost use Rattle.cost_levels.specs.Levels.{AreLevels};
ghost use Rattle.cost_levels.specs.Live.{LevelsAreLive, LevelsRise};

/// Each level has selections of its cost that fit the tree, and for each selection one that makes
/// the same tree stands in the level of its cost.
pub fn selections_have_levels()
    ensures { (u : Weighted) → AreLevels (numbered u 0) }
{}

/// In each level stand exactly the live selections of its cost: those that fit the tree, and name
/// no pick in a member that isn't chosen.
pub fn levels_are_live()
    ensures { (u : Weighted) → LevelsAreLive (numbered u 0) }
{}

/// Each level is in order by the members, the least pick first and the smaller member first, so no
/// selection stands in it twice.
pub fn levels_rise()
    ensures { (u : Weighted) → LevelsRise (numbered u 0) }
{}
