//! Typed programs never get stuck, and their values have the types of their slots and fit.
ghost use Rattle.typed_programs.specs.TypedLaws.{TypedExpressions, TypedStatements, TypedBodies};
ghost use Rattle.typed_programs.specs.TypedLaws.{TypedParameters, TypedCalls, TypedPrograms};
ghost use Rattle.typed_programs.specs.TypedLaws.{TypedFunctions, TypedArguments, TypingsAreTypes};

/// A typed expression gives a value of its type that fits, or one of the ten faults.
pub fn typed_expressions()
    ensures { TypedExpressions }
{}

/// Typed statements keep the types of locals, and return values of the result's type that fit, or
/// none.
pub fn typed_statements()
    ensures { TypedStatements }
{}

/// In a program that facts type each statement is typed.
pub fn typed_bodies()
    ensures { TypedBodies }
{}

/// A function begins with values of its parameters' types.
pub fn typed_parameters()
    ensures { TypedParameters }
{}

/// The calls of such a program give values of the types of the functions' results that fit.
pub fn typed_calls()
    ensures { TypedCalls }
{}

/// A function of such a program, entered with arguments for its parameters, keeps the types of its
/// locals, and returns a value of its result's type that fits or none, or ends by one of the ten
/// faults.
pub fn typed_functions()
    ensures { TypedFunctions }
{}

/// A program that facts type ends with a value of the type of the entry's result that fits, without
/// a value, or by one of the ten faults.
pub fn typed_programs()
    ensures { TypedPrograms }
{}

/// Each call of a run of such a program has arguments of the parameters' types that fit: the run is
/// the same where each call checks them.
pub fn typed_arguments()
    ensures { TypedArguments }
{}

/// The facts of a program's typing type it, so the laws speak of each program that has one.
pub fn typings_are_types()
    ensures { TypingsAreTypes }
{}
