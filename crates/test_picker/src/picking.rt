//! The picker.
ghost use Rattle.std.specs.Prelude.{◌≡◌, ◌<◌, All, IfOk, length};
ghost use Rattle.input_space.specs.Inputs.{inputs};
ghost use Rattle.test_picker.specs.Picks.{IsPicked};
ghost use Rattle.test_picker.specs.Programs.{GiveOneType, IsTypedFor};
ghost use Rattle.test_picker.specs.Settings.{IsWhole, typed_in};

use crate::NoMemory;
use crate::blocks::Setting;
use crate::program::Program;
use crate::typed_list::{Marks, Typed, TypedList};
use bounds_reader::Bounds;
use input_space::Cases;
use std::alloc::Global;

/// What is picked for programs.
#[derive(Drop)]
pub enum Picked {
    /// Cases, and the mark of each program: 0 where it agrees with the reference, and else the
    /// number of the first case on which it fails, counted from 1.
    Picked { cases: Cases, marks: Marks },
    /// The reference ends on no input.
    EmptyReference,
    /// There was no memory.
    NoMemory,
}

// The programs that are typed so.
fn programs_of(alloc: Global, others: &[Typed]) -> Result<Vec<Program<'_>>, NoMemory>
    ensures typed { IfOk result (λ v. typed_in v.items ≡ others.now) }
    ensures whole { IfOk result (λ v. All IsWhole v.items) }
{
    let mut programs = Vec::new(alloc);
    for typed in others {
        programs.push(Program::new(alloc, typed)?)?;
    }
    Ok(programs)
}

// What is picked, if there is memory.
fn pick_all(
    alloc: Global,
    bounds: &Bounds,
    reference: &Typed,
    others: &TypedList,
) -> Result<Picked, NoMemory>
    requires reference { IsTypedFor bounds.now reference.now }
    requires others { All (IsTypedFor bounds.now) others.now }
    requires one_type { All (GiveOneType bounds.now reference.now) others.now }
    requires counted { length (inputs bounds.now.params) < 1000000000000 }
    ensures { IfOk result (IsPicked bounds.now reference.now others.now) }
{
    let reference = Program::new(alloc, reference)?;
    let setting = Setting {
        alloc,
        bounds,
        reference: &reference,
    };
    let programs = programs_of(alloc, others.items())?;
    let found = setting.search(&programs)?;
    if !found.ended {
        return Ok(Picked::EmptyReference);
    }
    let chosen = setting.choose(&programs, &found)?;
    Ok(Picked::Picked {
        cases: chosen.cases,
        marks: chosen.marks,
    })
}

/// Few inputs that show the faults of programs: for each that doesn't agree with the reference one
/// on which it fails, the first of the order of inputs unless it fails on one that was taken
/// before. The inputs are run 64 at once.
pub fn pick(alloc: Global, b: &Bounds, reference: &Typed, others: &TypedList) -> Picked
    requires reference { IsTypedFor b.now reference.now }
    requires others { All (IsTypedFor b.now) others.now }
    requires one_type { All (GiveOneType b.now reference.now) others.now }
    requires counted { length (inputs b.now.params) < 1000000000000 }
    ensures { IsPicked b.now reference.now others.now result }
{
    match pick_all(alloc, b, reference, others) {
        Ok(picked) => picked,
        Err(_) => Picked::NoMemory,
    }
}
