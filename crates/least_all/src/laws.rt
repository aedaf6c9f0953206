//! Laws of best lists.
ghost use Rattle.least_all.specs.BestLists.{BestProgramsAreListed};

use cost_levels::selections_have_levels;
use selection_programs::selections_make_programs;

/// Each rewriting that agrees with the reference, of the least cost of those that do, is in the
/// best list of its cost, lines aside.
pub fn best_programs_are_listed()
    ensures { BestProgramsAreListed }
{
    selections_have_levels();
    selections_make_programs();
}
