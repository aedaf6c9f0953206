//! How much the runs of programs on all inputs weigh.
ghost use Rattle.std.specs.Prelude.{◌≡◌, ◌↔◌, ◌≤◌, ◌∷◌, IfOk, IsTrue, length, min};
ghost use Rattle.pick_command.specs.Requests.{request_of, typed_of};
ghost use Rattle.pick_command.specs.Weights.{AreTooLarge, runs, weight_of};

use crate::NoMemory;
use crate::request::Request;
use bounds_reader::Bounds;
use input_space::inputs_count;
use std::alloc::Global;
use test_picker::Typed;
use tree_weights::{lift, weight};

/// No program weighs more than this.
const MOST_WEIGHT: u64 = 1_000_000;

/// All runs together weigh no more than this.
const MOST_WORK: u64 = 500_000_000;

// What one run of a program weighs, or 1,000,001 where it is more.
fn weight_of(alloc: Global, bounds: &Bounds, typed: &Typed) -> Result<u64, NoMemory>
    ensures { IfOk result (λ n. n ≡ min (weight_of bounds.now (typed_of typed.now)) 1000001) }
{
    let tree = lift(alloc, &typed.prog)?;
    Ok(weight(&tree, &typed.types, &bounds.limits, &bounds.entry))
}

// How often a program is run at most, on 64 inputs at once.
fn runs(bounds: &Bounds) -> u64
    ensures value { result ≡ runs bounds.now }
    ensures few { result ≤ 15625000000 }
{
    inputs_count(bounds).div_ceil(64)
}

/// Whether the programs are too large to be run on all inputs.
pub(crate) fn are_too_large(alloc: Global, request: &Request) -> Result<bool, NoMemory>
    requires { length request.now.submissions ≤ 16 }
    ensures { IfOk result (λ b. IsTrue b ↔ AreTooLarge (request_of request.now).bounds
        ((request_of request.now).reference ∷ (request_of request.now).submissions)) }
{
    let bounds = &request.bounds;
    let mut sum = weight_of(alloc, bounds, &request.reference)?;
    let mut heaviest = sum;
    for typed in request.submissions.items() {
        let weight = weight_of(alloc, bounds, typed)?;
        heaviest = heaviest.max(weight);
        sum += weight;
    }
    let work = sum * runs(bounds);
    Ok(heaviest > MOST_WEIGHT || work > MOST_WORK)
}
