//! The values of `run`, each spelled by a word.
ghost use Rattle.std.specs.Prelude.{◌≡◌, ◌≢◌, ◌≤◌, ◌∷◌, ◌++◌, [], length, map, MatchOption};
ghost use Rattle.std.specs.Prelude.{MatchResult, OnOk};
ghost use Rattle.std.specs.String.{string_bytes};
ghost use Rattle.mpy_tree.specs.declared.value.Value.{Value as AnyValue};
ghost use Rattle.source_files.specs.Fetches.{StopsAs};
ghost use Rattle.grade_top.specs.Decisions.{spelled_step, value_step, values_step};

use bounds_reader::Param;
use input_space::{CaseError, is_within, param_type, read_case};
use mpy_tree::{Cause, NoMemory, Source, Value, Values};
use source_files::{Stop, refused};
use std::alloc::Global;

/// A value may have this many bytes.
const MOST_BYTES: usize = 1_073_741_824;

/// The value that a word spells, which is the one of a number.
fn spelled(alloc: Global, number: u32, word: &str) -> Result<Value, Stop>
    ensures { MatchResult result (spelled_step number word.now).gives
        (StopsAs (spelled_step number word.now).refuses) }
{
    if word.len() > MOST_BYTES {
        return Err(Stop::NoMemory);
    }
    let no_value = refused(Source::Word(number), Cause::Syntax, 0);
    match read_case(alloc, word.as_bytes()) {
        Ok(case) => match only(case.values.into_vec()) {
            Some(value) => Ok(value),
            None => Err(no_value),
        },
        Err(CaseError::NoCase) => Err(no_value),
        Err(CaseError::NoMemory) => Err(Stop::NoMemory),
    }
}

/// The one value of a list that has one.
fn only(mut values: Vec<Value>) -> Option<Value>
    ensures { MatchOption result ((v : AnyValue) → values.items ≢ v ∷ [])
        (λ v. values.items ≡ v ∷ []) }
{
    if values.len() == 1 {
        values.pop()
    } else {
        None
    }
}

/// The value of a number, for a parameter.
fn read_value(alloc: Global, number: u32, param: &Param, word: &str) -> Result<Value, Stop>
    ensures { MatchResult result (value_step number param.now word.now).gives
        (StopsAs (value_step number param.now word.now).refuses) }
{
    let value = spelled(alloc, number, word)?;
    if value.ty() != param_type(param) {
        return Err(refused(Source::Word(number), Cause::TypeFault, 0));
    }
    if !is_within(param, &value) {
        return Err(refused(Source::Word(number), Cause::BoundRange, 0));
    }
    Ok(value)
}

/// The values of all parameters, one after the other.
pub(crate) fn read_values(alloc: Global, params: &[Param], words: &[String]) -> Result<Values, Stop>
    requires same { length words.now ≡ length params.now }
    requires few { length params.now ≤ 4 }
    ensures { MatchResult result (values_step 1 params.now (map string_bytes words.now)).gives
        (StopsAs (values_step 1 params.now (map string_bytes words.now)).refuses) }
{
    let mut values = Vec::new(alloc);
    for (i, param) in params.iter().enumerate() {
        let value = read_value(alloc, i as u32 + 1, param, &words[i])?;
        push(&mut values, value)?;
    }
    Ok(Values::from_vec(values))
}

// One value more.
fn push(values: &mut Vec<Value>, value: Value) -> Result<(), NoMemory>
    ensures { OnOk result (values.new.items ≡ values.old.items ++ value ∷ []) }
{
    values.push(value)?;
    Ok(())
}
