//! That the two walks over a program, its tree of nodes and its flat lists, are one.
ghost use Rattle.mpy_laws.specs.TreeLaws.{ListsFollowTheTrees, TreesDiffer};

/// Different expressions, and different programs, have different trees.
pub fn trees_of_different_programs_differ()
    ensures holds { TreesDiffer }
{}

/// The nodes of an expression and the statements of a body stand in the order of their trees.
pub fn lists_follow_the_trees()
    ensures holds { ListsFollowTheTrees }
{}
