//! Laws of weighted programs.
ghost use Rattle.sym_stmt.specs.ProgramLaws.{RewrittenProgramsAreTyped};

/// The weighted program that rules make of a program that facts type is typed by the same facts.
pub fn rewritten_programs_are_typed()
    ensures { RewrittenProgramsAreTyped }
{}
