//! Levels of calls. A level is a type of its own, so that the outcome of each is proved to be found
//! by the program's tree alone.

ghost use Rattle.std.specs.Prelude.{◌≡◌, ⊤, ℕ, Bool, List, map, Some, IfOk, IsSome};
ghost use Rattle.mpy_tree.specs.declared.typing.Ty.{Ty as AnyType};
ghost use Rattle.mpy_tree.specs.declared.value.Value.{Value};
ghost use Rattle.mpy_tree.specs.Expressions.{Calls};
ghost use Rattle.mpy_tree.specs.Running.{no_calls};
ghost use Rattle.bit_words.specs.Logic.{Extends, OwnsAll};
ghost use Rattle.sym_values.specs.Forms.{form_for, joined};
ghost use Rattle.sym_values.specs.Reading.{OutcomeReads, read, sure};
ghost use Rattle.sym_values.specs.Results.{IsOutcomeIn};
ghost use Rattle.sym_nodes.specs.Environments.{PicksRead};
ghost use Rattle.sym_expr.specs.Signatures.{AreArgumentsIn, given_type, value_types};
ghost use Rattle.sym_nodes.specs.Views.{env_of};
ghost use Rattle.sym_stmt.specs.Levels.{AreDeeper, CanEnter};
ghost use Rattle.sym_stmt.specs.Programs.{signatures_of};

use crate::entering::entered;
use crate::program::Program;
use crate::slots::slots_of;
use bit_words::NoMemory;
use bit_words::logic::Logic;
use mpy_tree::{Name, Ty};
use std::alloc::Global;
use sym_blocks::Body;
use sym_expr::{Functions, View};
use sym_values::constant::zero_value;
use sym_values::{SymOutcome, SymValues};

/// No call goes deeper: the outcome of each is a fault.
#[derive(Clone, Copy, Drop)]
pub struct Deepest<'a> {
    pub program: Program<'a>,
}

impl<L: Logic> Functions<L> for Deepest<'_> {
    ghost signatures = { λ d.
        signatures_of d.program.tree.now d.program.types.now.facts };

    ghost are_calls = { λ d l m calls. (f : List ℕ) (vs : List Value) (line : ℕ)
        → calls f vs line ≡ no_calls f vs line };

    ghost have_picks = { λ d picks. ⊤ };

    fn result_type(&self, f: &Name) -> Ty {
        self.program.result_type(f)
    }

    fn call(
        &self,
        alloc: Global,
        g: &mut L,
        view: &View<'_, L::Bit>,
        f: &Name,
        _args: SymValues<L::Bit>,
    ) -> Result<SymOutcome<L::Bit>, NoMemory>
        requires typed { IsSome (given_type (signatures_of self.now.program.tree.now
            self.now.program.types.now.facts) f.now (value_types _args)) }
        ensures extends { Extends L.owns L.reads L.count g.old g.new }
        ensures made { IfOk result (λ r. (t : AnyType)
            → given_type (signatures_of self.now.program.tree.now
            self.now.program.types.now.facts) f.now (value_types _args) ≡ Some t
            → IsOutcomeIn L.owns g.new (form_for (env_of view.now).limits t) r) }
        ensures value { IfOk result (λ r.
            (vs : List Bool) (m : ℕ → ℕ) (calls : Calls) (values : List Value) (line : ℕ)
            → ((x : List ℕ) (ys : List Value) (n : ℕ) → calls x ys n ≡ no_calls x ys n)
            → PicksRead (L.reads g.old vs) (env_of view.now).picks m
            → map (read (L.reads g.old vs)) _args ≡ map sure values
            → OutcomeReads (L.reads g.new vs) r (calls f.now values line)) }
    {
        let ty = self.program.result_type(f);
        let value = zero_value(alloc, g, view.limits, ty)?;
        let fault = g.constant(true);
        Ok(SymOutcome { value, fault })
    }
}

/// Calls of a program's functions, whose own calls are those of `below`.
#[derive(Clone, Copy, Drop)]
pub struct Level<'a, C> {
    pub program: Program<'a>,
    pub below: C,
}

impl<L: Logic, C: Functions<L>> Functions<L> for Level<'_, C> {
    ghost signatures = { λ d.
        signatures_of d.program.tree.now d.program.types.now.facts };

    ghost are_calls = { λ d l m calls.
        AreDeeper d.program.tree.now (C.are_calls d.below l m) l m calls };

    ghost have_picks = { λ d picks.
        CanEnter d.program.tree.now d.program.types.now.facts
        (C.signatures d.below) (C.have_picks d.below) picks };

    fn result_type(&self, f: &Name) -> Ty {
        self.program.result_type(f)
    }

    fn call(
        &self,
        alloc: Global,
        g: &mut L,
        view: &View<'_, L::Bit>,
        f: &Name,
        args: SymValues<L::Bit>,
    ) -> Result<SymOutcome<L::Bit>, NoMemory>
        requires picks { OwnsAll L.owns g.old (joined (env_of view.now).picks) }
        requires many { CanEnter self.now.program.tree.now
            self.now.program.types.now.facts (C.signatures self.now.below)
            (C.have_picks self.now.below) (env_of view.now).picks }
        requires args { AreArgumentsIn L.owns g.old (env_of view.now).limits args }
        requires typed { IsSome (given_type (signatures_of self.now.program.tree.now
            self.now.program.types.now.facts) f.now (value_types args)) }
        ensures extends { Extends L.owns L.reads L.count g.old g.new }
        ensures made { IfOk result (λ r. (t : AnyType)
            → given_type (signatures_of self.now.program.tree.now
            self.now.program.types.now.facts) f.now (value_types args) ≡ Some t
            → IsOutcomeIn L.owns g.new (form_for (env_of view.now).limits t) r) }
        ensures value { IfOk result (λ r.
            (vs : List Bool) (m : ℕ → ℕ) (calls : Calls) (values : List Value) (line : ℕ)
            → AreDeeper self.now.program.tree.now
            (C.are_calls self.now.below (env_of view.now).limits m)
            (env_of view.now).limits m calls
            → PicksRead (L.reads g.old vs) (env_of view.now).picks m
            → map (read (L.reads g.old vs)) args ≡ map sure values
            → OutcomeReads (L.reads g.new vs) r (calls f.now values line)) }
    {
        match self.program.number(f) {
            None => unreachable!(),
            Some(i) => {
                let func = &self.program.tree.funcs.items[i];
                let slots = slots_of(alloc, &self.program, i, func, view.limits, 0)?;
                let run = Body {
                    slots: &slots,
                    picks: view.picks,
                    functions: &self.below,
                    depth: view.depth.saturating_add(1),
                };
                let outcome = entered(alloc, g, &run, func, args)?;
                Ok(outcome)
            }
        }
    }
}
