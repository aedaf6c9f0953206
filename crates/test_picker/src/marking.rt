//! The cases that are chosen for programs, and the programs' marks.
ghost use Rattle.std.specs.Prelude.{◌≡◌, ◌↔◌, ◌<◌, IfOk, IfSome, IsTrue, length};
ghost use Rattle.input_space.specs.Agreement.{EndsAlike, ends_on};
ghost use Rattle.input_space.specs.Inputs.{inputs};
ghost use Rattle.test_picker.specs.Choosing.{Adds, IsChoice};
ghost use Rattle.test_picker.specs.Failing.{FailsFirstAt, IsFirstFailure};
ghost use Rattle.test_picker.specs.Findings.{IsFoundOn};
ghost use Rattle.test_picker.specs.Programs.{inputs_of, program_of};
ghost use Rattle.test_picker.specs.Settings.{bounds_of, reference_of, routines_in};

use crate::NoMemory;
use crate::blocks::Setting;
use crate::program::Program;
use crate::search::Found;
use crate::typed_list::{Marks, Typed};
use input_space::{Case, Cases, case_at};
use mpy_interp::run;
use mpy_tree::Outcome;

/// Cases, and the marks of programs.
#[derive(Drop)]
pub(crate) struct Chosen {
    pub(crate) cases: Cases,
    pub(crate) marks: Marks,
}

impl Setting<'_> {
    // How a program ends on a case.
    fn end(&self, typed: &Typed, case: &Case) -> Result<Outcome, NoMemory>
        ensures { IfOk result (λ o. o ≡ ends_on (bounds_of self.now) (program_of typed.now)
            case.now.values) }
    {
        run(
            self.alloc,
            &typed.prog,
            &typed.types,
            &self.bounds.limits,
            &self.bounds.entry,
            &case.values,
        )
    }

    // Whether a program gives the value of the reference on a case, where that gives one.
    fn meets(&self, typed: &Typed, case: &Case) -> Result<bool, NoMemory>
        ensures { IfOk result (λ m. IsTrue m ↔ EndsAlike (bounds_of self.now)
            (reference_of self.now) (program_of typed.now) case.now.values) }
    {
        let wanted = self.end(self.reference.typed, case)?;
        if wanted.is_done() {
            Ok(self.end(typed, case)?.is(&wanted))
        } else {
            Ok(true)
        }
    }

    // The place of the first of some cases on which a program fails.
    fn first_among(&self, cases: &Cases, typed: &Typed) -> Result<Option<u32>, NoMemory>
        ensures first { IfOk result (IsFirstFailure (bounds_of self.now) (reference_of self.now)
            (program_of typed.now) (inputs_of cases.now)) }
        ensures few { IfOk result (λ o. IfSome o (λ place. place < 2147483647)) }
    {
        let _count = cases.count();
        for (i, case) in cases.items().iter().enumerate() {
            if !self.meets(typed, case)? {
                return Ok(Some(i as u32));
            }
        }
        Ok(None)
    }

    // The mark of a program that fails first at a place of the order; where it fails on no case so
    // far, that input is one case more.
    fn mark_failing(&self, cases: &mut Cases, typed: &Typed, place: u64) -> Result<u32, NoMemory>
        requires first { FailsFirstAt (bounds_of self.now) (reference_of self.now)
            (program_of typed.now) (inputs self.now.bounds.now.params) place }
        requires counted { length (inputs self.now.bounds.now.params) < 1000000000000 }
        ensures { IfOk result (Adds (bounds_of self.now) (reference_of self.now)
            (program_of typed.now) (inputs_of cases.old) (inputs_of cases.new)) }
    {
        match self.first_among(cases, typed)? {
            Some(known) => Ok(known + 1),
            None => {
                let case = case_at(self.alloc, self.bounds, place)?;
                cases.push(case)?;
                Ok(cases.count())
            }
        }
    }

    // The mark of a program that fails first at a place of the order, if at any.
    fn mark(&self, cases: &mut Cases, typed: &Typed, first: Option<u64>) -> Result<u32, NoMemory>
        requires first { IsFirstFailure (bounds_of self.now) (reference_of self.now)
            (program_of typed.now) (inputs self.now.bounds.now.params) first }
        requires counted { length (inputs self.now.bounds.now.params) < 1000000000000 }
        ensures { IfOk result (Adds (bounds_of self.now) (reference_of self.now)
            (program_of typed.now) (inputs_of cases.old) (inputs_of cases.new)) }
    {
        match first {
            None => Ok(0),
            Some(place) => self.mark_failing(cases, typed, place),
        }
    }

    /// The cases and the marks of programs, of which it is known where each fails first.
    pub(crate) fn choose(&self, programs: &[Program<'_>], found: &Found) -> Result<Chosen, NoMemory>
        requires found { IsFoundOn (bounds_of self.now) (reference_of self.now)
            (routines_in programs.now) (inputs self.now.bounds.now.params) found.now }
        requires counted { length (inputs self.now.bounds.now.params) < 1000000000000 }
        ensures { IfOk result (λ c. IsChoice (bounds_of self.now) (reference_of self.now)
            (routines_in programs.now) (inputs_of c.cases) c.marks) }
    {
        let mut cases = Cases::from_vec(Vec::new(self.alloc));
        let mut marks = Vec::new(self.alloc);
        for (i, program) in programs.iter().enumerate() {
            let mark = self.mark(&mut cases, program.typed, found.firsts[i])?;
            marks.push(mark)?;
        }
        Ok(Chosen {
            cases,
            marks: Marks::from_vec(marks),
        })
    }
}
