//! The first inputs of the order on which programs fail.
ghost use Rattle.std.specs.Prelude.{◌≡◌, ◌<◌, ◌&&◌, ◌++◌, [], List, IfOk, None, is_some, length};
ghost use Rattle.std.specs.List.{list_all};
ghost use Rattle.mpy_tree.specs.declared.value.Value.{Value};
ghost use Rattle.input_space.specs.Inputs.{inputs};
ghost use Rattle.test_picker.specs.Failing.{IsFirstFailure};
ghost use Rattle.test_picker.specs.Findings.{IsFoundOn};
ghost use Rattle.test_picker.specs.LaneInputs.{IsBlock, IsBlockOf};
ghost use Rattle.test_picker.specs.Programs.{GiveOneType, IsTypedFor, program_of};
ghost use Rattle.test_picker.specs.Settings.{AreComparable, IsWhole, bounds_of, reference_of};
ghost use Rattle.test_picker.specs.Settings.{routines_in, typed_reference};

use crate::NoMemory;
use crate::blocks::{Block, LANES, Setting};
use crate::program::Program;
use input_space::inputs_count;

/// Where each program fails first of the inputs so far, and whether the reference ends on any.
#[derive(Drop)]
pub(crate) struct Found {
    pub(crate) firsts: Vec<Option<u64>>,
    pub(crate) ended: bool,
}

// Whether each program has failed.
fn all_failed(firsts: &[Option<u64>]) -> bool
    ensures { result ≡ list_all is_some firsts.now }
{
    firsts.iter().all(|first| first.is_some())
}

impl Found {
    // No input changes any of it: each program has failed, and the reference ended.
    fn is_settled(&self) -> bool
        ensures { result ≡ (self.now.ended && list_all is_some self.now.firsts.items) }
    {
        let failed = all_failed(&self.firsts);
        self.ended && failed
    }
}

impl Setting<'_> {
    // What is found of no inputs.
    fn found_nothing(&self, programs: &[Program<'_>]) -> Result<Found, NoMemory>
        ensures { IfOk result (IsFoundOn (bounds_of self.now) (reference_of self.now)
            (routines_in programs.now) []) }
    {
        let mut firsts = Vec::new(self.alloc);
        for _place in 0..programs.len() {
            firsts.push(None)?;
        }
        Ok(Found {
            firsts,
            ended: false,
        })
    }

    // Where a program fails first of the inputs so far and of those of the block behind them, which
    // begins at a place, if it fails on none so far.
    fn first_in(
        &self,
        block: &Block,
        program: &Program<'_>,
        place: u64,
    ) -> Result<Option<u64>, NoMemory>
        requires whole { IsWhole program.now }
        requires typed { IsTypedFor (bounds_of self.now) program.now.typed.now }
        requires one_type { GiveOneType (bounds_of self.now) (typed_reference self.now)
            program.now.typed.now }
        requires block { IsBlock (bounds_of self.now) (typed_reference self.now) block.now }
        requires place { place < 1000000000000 }
        ensures { IfOk result (λ o. (xs ys : List (List Value)) → length xs ≡ place
            → IsBlockOf (bounds_of self.now) (typed_reference self.now) ys block.now
            → IsFirstFailure (bounds_of self.now) (reference_of self.now)
            (program_of program.now.typed.now) xs None
            → IsFirstFailure (bounds_of self.now) (reference_of self.now)
            (program_of program.now.typed.now) (xs ++ ys) o) }
    {
        match self.first_failure(block, program)? {
            Some(lane) => Ok(Some(place + u64::from(lane))),
            None => Ok(None),
        }
    }

    // The same of any program. It isn't run any more where it has failed.
    fn later(
        &self,
        block: &Block,
        program: &Program<'_>,
        first: Option<u64>,
        place: u64,
    ) -> Result<Option<u64>, NoMemory>
        requires whole { IsWhole program.now }
        requires typed { IsTypedFor (bounds_of self.now) program.now.typed.now }
        requires one_type { GiveOneType (bounds_of self.now) (typed_reference self.now)
            program.now.typed.now }
        requires block { IsBlock (bounds_of self.now) (typed_reference self.now) block.now }
        requires place { place < 1000000000000 }
        ensures { IfOk result (λ o. (xs ys : List (List Value)) → length xs ≡ place
            → IsBlockOf (bounds_of self.now) (typed_reference self.now) ys block.now
            → IsFirstFailure (bounds_of self.now) (reference_of self.now)
            (program_of program.now.typed.now) xs first
            → IsFirstFailure (bounds_of self.now) (reference_of self.now)
            (program_of program.now.typed.now) (xs ++ ys) o) }
    {
        match first {
            Some(found) => Ok(Some(found)),
            None => self.first_in(block, program, place),
        }
    }

    // What is found of the inputs so far and of those of the block behind them.
    fn found_with(
        &self,
        found: &Found,
        block: &Block,
        place: u64,
        programs: &[Program<'_>],
    ) -> Result<Found, NoMemory>
        requires comparable { AreComparable self.now programs.now }
        requires block { IsBlock (bounds_of self.now) (typed_reference self.now) block.now }
        requires many { length found.now.firsts.items ≡ length programs.now }
        requires place { place < 1000000000000 }
        ensures { IfOk result (λ f. (xs ys : List (List Value)) → length xs ≡ place
            → IsBlockOf (bounds_of self.now) (typed_reference self.now) ys block.now
            → IsFoundOn (bounds_of self.now) (reference_of self.now) (routines_in programs.now)
            xs found.now
            → IsFoundOn (bounds_of self.now) (reference_of self.now) (routines_in programs.now)
            (xs ++ ys) f) }
    {
        let mut firsts = Vec::new(self.alloc);
        for (i, program) in programs.iter().enumerate() {
            let first = self.later(block, program, found.firsts[i], place)?;
            firsts.push(first)?;
        }
        let ends_here = self.ends_in(block);
        Ok(Found {
            firsts,
            ended: found.ended || ends_here,
        })
    }

    /// What is found of all inputs, 64 of them at once. The reference is run once on each of them,
    /// and a program until it fails.
    pub(crate) fn search(&self, programs: &[Program<'_>]) -> Result<Found, NoMemory>
        requires comparable { AreComparable self.now programs.now }
        requires counted { length (inputs self.now.bounds.now.params) < 1000000000000 }
        ensures { IfOk result (IsFoundOn (bounds_of self.now) (reference_of self.now)
            (routines_in programs.now) (inputs self.now.bounds.now.params)) }
    {
        let count = inputs_count(self.bounds);
        let mut found = self.found_nothing(programs)?;
        for k in 0..count.div_ceil(LANES) {
            let block = self.block_from(k * LANES, count)?;
            found = self.found_with(&found, &block, k * LANES, programs)?;
            if found.is_settled() {
                return Ok(found);
            }
        }
        Ok(found)
    }
}
