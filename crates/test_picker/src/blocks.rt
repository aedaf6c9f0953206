//! Inputs that are run at once, one in each lane of words of 64 bits.
ghost use Rattle.std.specs.Prelude.{◌≡◌, ◌≤◌, ◌<◌, ◌+◌, ℕ, false, true, List, All, IfOk};
ghost use Rattle.std.specs.Prelude.{MatchOption, length, take, drop};
ghost use Rattle.mpy_tree.specs.declared.value.Value.{Value};
ghost use Rattle.bit_lanes.specs.Lane.{lane_bit};
ghost use Rattle.bit_lanes.specs.declared.lanes.Lanes.{Lanes as AnyLanes};
ghost use Rattle.input_space.specs.Agreement.{IsInput};
ghost use Rattle.input_space.specs.Inputs.{inputs};
ghost use Rattle.task_bits.specs.Tasks.{AreArgumentsOf};
ghost use Rattle.test_picker.specs.Failing.{IsFirstFailure};
ghost use Rattle.test_picker.specs.Findings.{ends_on_some};
ghost use Rattle.test_picker.specs.LaneInputs.{Belongs, IsBlock, IsBlockOf, IsFirstLane};
ghost use Rattle.test_picker.specs.LaneInputs.{ReadInLanes};
ghost use Rattle.test_picker.specs.Settings.{IsWhole};
ghost use Rattle.test_picker.specs.Programs.{GiveOneType, IsTypedFor, inputs_of, program_of};

use crate::NoMemory;
use crate::compared::fails;
use crate::program::Program;
use bit_lanes::{Lanes, lane_values, lanes_are_numbers};
use bit_words::logic::Logic;
use bounds_reader::Bounds;
use input_space::{Cases, case_at, inputs_fit};
use std::alloc::Global;
use sym_values::{SymDone, SymValue};

/// How many inputs are run at once.
pub(crate) const LANES: u64 = 64;

/// Inputs that are run at once: how many they are, their values in lanes, and how the reference
/// ends on them.
#[derive(Drop)]
pub(crate) struct Block {
    pub(crate) many: u32,
    pub(crate) args: Vec<SymValue<u64>>,
    pub(crate) wanted: SymDone<u64>,
}

/// The bounds within which programs are compared, and the reference.
#[derive(Clone, Copy, Drop)]
pub(crate) struct Setting<'a> {
    pub(crate) alloc: Global,
    pub(crate) bounds: &'a Bounds,
    pub(crate) reference: &'a Program<'a>,
}

// The first of so many lanes in which a table is true.
fn first_lane(table: u64, many: u32) -> Option<u32>
    requires { many ≤ 64 }
    ensures { MatchOption result ((lane : ℕ) → lane < many → lane_bit table lane ≡ false)
        (IsFirstLane table many) }
{
    let lane = table.trailing_zeros();
    if lane < many { Some(lane) } else { None }
}

impl Setting<'_> {
    // Up to 64 inputs of the order, from a place on.
    fn cases_from(&self, first: u64, count: u64) -> Result<Cases, NoMemory>
        requires count { count ≡ length (inputs self.now.bounds.now.params) }
        requires counted { count < 1000000000000 }
        requires within { first < count }
        ensures { IfOk result (λ v. inputs_of v
            ≡ take 64 (drop first (inputs self.now.bounds.now.params))) }
    {
        let mut cases = Vec::new(self.alloc);
        for i in first..count.min(first + LANES) {
            cases.push(case_at(self.alloc, self.bounds, i)?)?;
        }
        Ok(Cases::from_vec(cases))
    }

    // The values of inputs in lanes.
    fn arguments(&self, cases: &Cases) -> Result<Vec<SymValue<u64>>, NoMemory>
        requires some { 0 < length cases.now }
        requires few { length cases.now ≤ 64 }
        requires inputs { All (IsInput self.now.bounds.now) (inputs_of cases.now) }
        ensures made { IfOk result (λ r. (s : AnyLanes)
            → AreArgumentsOf Belongs s self.now.bounds.now r.items) }
        ensures read { IfOk result (λ r. ReadInLanes (inputs_of cases.now) r.items) }
    {
        inputs_fit();
        lanes_are_numbers();
        let args = lane_values(self.alloc, &self.bounds.limits, cases)?;
        Ok(args)
    }

    /// The block of the inputs from a place on.
    pub(crate) fn block_from(&self, first: u64, count: u64) -> Result<Block, NoMemory>
        requires whole { IsWhole self.now.reference.now }
        requires typed { IsTypedFor self.now.bounds.now self.now.reference.now.typed.now }
        requires count { count ≡ length (inputs self.now.bounds.now.params) }
        requires counted { count < 1000000000000 }
        requires within { first < count }
        ensures formed { IfOk result (IsBlock self.now.bounds.now
            self.now.reference.now.typed.now) }
        ensures inputs { IfOk result (λ k. IsBlockOf self.now.bounds.now
            self.now.reference.now.typed.now
            (take 64 (drop first (inputs self.now.bounds.now.params))) k) }
    {
        lanes_are_numbers();
        let cases = self.cases_from(first, count)?;
        let args = self.arguments(&cases)?;
        let mut lanes = Lanes::new();
        let wanted = self
            .reference
            .run(self.alloc, &mut lanes, self.bounds, &args)?;
        Ok(Block {
            many: cases.count(),
            args,
            wanted,
        })
    }

    /// Where a program fails first of the inputs of a block.
    pub(crate) fn first_failure(
        &self,
        block: &Block,
        program: &Program<'_>,
    ) -> Result<Option<u32>, NoMemory>
        requires whole { IsWhole program.now }
        requires typed { IsTypedFor self.now.bounds.now program.now.typed.now }
        requires one_type { GiveOneType self.now.bounds.now self.now.reference.now.typed.now
            program.now.typed.now }
        requires block { IsBlock self.now.bounds.now self.now.reference.now.typed.now block.now }
        ensures { IfOk result (λ o. (xs : List (List Value))
            → IsBlockOf self.now.bounds.now self.now.reference.now.typed.now xs block.now
            → IsFirstFailure self.now.bounds.now (program_of self.now.reference.now.typed.now)
            (program_of program.now.typed.now) xs o) }
    {
        lanes_are_numbers();
        let mut lanes = Lanes::new();
        let given = program.run(self.alloc, &mut lanes, self.bounds, &block.args)?;
        let failing = fails(
            self.alloc,
            &mut lanes,
            &self.bounds.limits,
            &block.wanted,
            &given,
        )?;
        Ok(first_lane(failing, block.many))
    }

    /// Whether the reference ends with a value on some input of a block.
    pub(crate) fn ends_in(&self, block: &Block) -> bool
        requires { IsBlock self.now.bounds.now self.now.reference.now.typed.now block.now }
        ensures { (xs : List (List Value))
            → IsBlockOf self.now.bounds.now self.now.reference.now.typed.now xs block.now
            → result ≡ ends_on_some self.now.bounds.now
            (program_of self.now.reference.now.typed.now) xs }
    {
        lanes_are_numbers();
        let lanes = Lanes::new();
        let ended = lanes.not(block.wanted.fault);
        first_lane(ended, block.many).is_some()
    }
}
