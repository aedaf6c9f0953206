//! What the selections of a weighted program make.
ghost use Rattle.selection_programs.specs.Programs.{MakesPrograms};

/// Whatever members are chosen, a weighted program makes a program.
pub fn selections_make_programs()
    ensures { MakesPrograms }
{}
