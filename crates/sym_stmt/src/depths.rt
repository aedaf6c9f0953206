//! Calls that go as deep as the limits allow, each of which is built once.

ghost use Rattle.std.specs.Prelude.{◌≡◌, ℕ, Bool, List, map, min, Some, IfOk, IsSome};
ghost use Rattle.mpy_tree.specs.declared.typing.Ty.{Ty as AnyType};
ghost use Rattle.mpy_tree.specs.declared.value.Value.{Value};
ghost use Rattle.mpy_tree.specs.Expressions.{Calls};
ghost use Rattle.mpy_tree.specs.Running.{evaluated};
ghost use Rattle.mpy_tree.specs.Shapes.{program_shape};
ghost use Rattle.mpy_tree.specs.Syntax.{Routine};
ghost use Rattle.bit_words.specs.Logic.{Extends, OwnsAll};
ghost use Rattle.choice_tree.specs.Selections.{plain};
ghost use Rattle.choice_tree.specs.StatementViews.{weighted_prog};
ghost use Rattle.sym_values.specs.Forms.{form_for, joined};
ghost use Rattle.sym_values.specs.Printed.{DoneReads, IsDoneIn};
ghost use Rattle.sym_values.specs.Reading.{OutcomeReads, read, sure};
ghost use Rattle.sym_values.specs.Results.{IsOutcomeIn};
ghost use Rattle.sym_nodes.specs.Environments.{HasPicks, PicksRead};
ghost use Rattle.sym_nodes.specs.Operands.{ty_of};
ghost use Rattle.sym_nodes.specs.Views.{env_of};
ghost use Rattle.sym_expr.specs.Signatures.{AreArgumentsIn, given_type, value_types};
ghost use Rattle.sym_calls.specs.Pairs.{paired};
ghost use Rattle.sym_stmt.specs.Levels.{Fixes, IsUpTo};
ghost use Rattle.sym_stmt.specs.Programs.{TypesProgram, end_form, entry_within, signatures_of};

use crate::entering::begun;
use crate::levels::{Deepest, Level};
use crate::program::Program;
use crate::slots::slots_of;
use bit_words::NoMemory;
use bit_words::logic::Logic;
use mpy_tree::{Name, Ty};
use std::alloc::Global;
use sym_blocks::Body;
use sym_calls::{Once, Remembering, Setting};
use sym_expr::{Functions, View};
use sym_values::{SymDone, SymOutcome, SymValues};

/// Calls of a program's functions at a level, each of which is built once, and whose own calls are
/// those of `below`. Where the most levels are fewer, the call is handed down to `below`.
#[derive(Clone, Copy, Drop)]
pub struct UpTo<'a, C> {
    pub program: Program<'a>,
    pub level: u32,
    pub most: u32,
    pub below: C,
}

impl<'a, L, K, C> Functions<Remembering<'a, L, K>> for UpTo<'_, C>
where
    L: Logic,
    K: Setting<L::Bit>,
    C: Functions<Remembering<'a, L, K>> + Copy,
{
    ghost signatures = { λ d.
        signatures_of d.program.tree.now d.program.types.now.facts };

    ghost are_calls = { λ d l m calls. K.fixed.are_calls (min d.level d.most) l m calls };

    ghost have_picks = { λ d picks. IsUpTo K.fixed d.program.tree.now d.program.types.now.facts
        d.level d.most (C.signatures d.below) (C.are_calls d.below) (C.have_picks d.below) picks };

    fn result_type(&self, f: &Name) -> Ty {
        self.program.result_type(f)
    }

    fn call(
        &self,
        alloc: Global,
        g: &mut Remembering<'a, L, K>,
        view: &View<'_, L::Bit>,
        f: &Name,
        args: SymValues<L::Bit>,
    ) -> Result<SymOutcome<L::Bit>, NoMemory>
        requires picks { OwnsAll (λ s b. L.owns s.logic.now b) g.old
            (joined (env_of view.now).picks) }
        requires many { IsUpTo K.fixed self.now.program.tree.now
            self.now.program.types.now.facts self.now.level self.now.most
            (C.signatures self.now.below) (C.are_calls self.now.below)
            (C.have_picks self.now.below) (env_of view.now).picks }
        requires args { AreArgumentsIn (λ s b. L.owns s.logic.now b) g.old
            (env_of view.now).limits args }
        requires typed { IsSome (given_type (signatures_of self.now.program.tree.now
            self.now.program.types.now.facts) f.now (value_types args)) }
        ensures extends { Extends (λ s b. L.owns s.logic.now b)
            (λ s vs b. L.reads s.logic.now vs b)
            (λ s. paired (L.count s.logic.now) s.logic.ghost_name) g.old g.new }
        ensures made { IfOk result (λ r. (t : AnyType)
            → given_type (signatures_of self.now.program.tree.now
            self.now.program.types.now.facts) f.now (value_types args) ≡ Some t
            → IsOutcomeIn (λ s b. L.owns s.logic.now b) g.new
            (form_for (env_of view.now).limits t) r) }
        ensures value { IfOk result (λ r.
            (vs : List Bool) (m : ℕ → ℕ) (calls : Calls) (values : List Value) (line : ℕ)
            → K.fixed.are_calls (min self.now.level self.now.most) (env_of view.now).limits m
            calls
            → PicksRead (L.reads g.old.logic.now vs) (env_of view.now).picks m
            → map (read (L.reads g.old.logic.now vs)) args ≡ map sure values
            → OutcomeReads (L.reads g.new.logic.now vs) r (calls f.now values line)) }
    {
        if self.level > self.most {
            let outcome = self.below.call(alloc, g, view, f, args)?;
            return Ok(outcome);
        }
        let functions = Level {
            program: self.program,
            below: self.below,
        };
        let level = self.level;
        let outcome = Once { level, functions }.call(alloc, g, view, f, args)?;
        Ok(outcome)
    }
}

// How a run of the entry ends, over a logic that remembers calls.
fn at_depth<L: Logic, K: Setting<L::Bit>>(
    alloc: Global,
    g: &mut Remembering<'_, L, K>,
    program: &Program<'_>,
    view: &View<'_, L::Bit>,
    entry: &Name,
    args: SymValues<L::Bit>,
) -> Result<SymDone<L::Bit>, NoMemory>
    requires picks { OwnsAll (λ s b. L.owns s.logic.now b) g.old (joined (env_of view.now).picks) }
    requires many { HasPicks (env_of view.now).picks (weighted_prog program.now.tree.now) }
    requires fixed { Fixes program.now.tree.now program.now.types.now.facts
        (env_of view.now).picks K.fixed }
    requires args { AreArgumentsIn (λ s b. L.owns s.logic.now b) g.old (env_of view.now).limits
        args }
    requires typed { TypesProgram program.now.types.now.facts program.now.tree.now
        (entry_within (env_of view.now).limits entry.now (map ty_of args)) }
    ensures extends { Extends (λ s b. L.owns s.logic.now b) (λ s vs b. L.reads s.logic.now vs b)
        (λ s. paired (L.count s.logic.now) s.logic.ghost_name) g.old g.new }
    ensures made { IfOk result (λ r. IsDoneIn (λ s b. L.owns s.logic.now b) g.new
        (env_of view.now).limits (end_form (env_of view.now).limits program.now.tree.now
        program.now.types.now.facts entry.now) r) }
    ensures value { IfOk result (λ r.
        (vs : List Bool) (m : ℕ → ℕ) (values : List Value) (p : List Routine)
        → PicksRead (L.reads g.old.logic.now vs) (env_of view.now).picks m
        → map (read (L.reads g.old.logic.now vs)) args ≡ map sure values
        → program_shape p ≡ plain m (weighted_prog program.now.tree.now)
        → DoneReads (env_of view.now).limits (L.reads g.new.logic.now vs) r
        (evaluated (env_of view.now).limits p entry.now values)) }
{
    let most = view.limits.depth - 1;
    let none = Deepest { program: *program };
    let one = UpTo {
        program: *program,
        level: 1,
        most,
        below: none,
    };
    let two = UpTo {
        program: *program,
        level: 2,
        most,
        below: one,
    };
    let three = UpTo {
        program: *program,
        level: 3,
        most,
        below: two,
    };
    let four = UpTo {
        program: *program,
        level: 4,
        most,
        below: three,
    };
    let five = UpTo {
        program: *program,
        level: 5,
        most,
        below: four,
    };
    let six = UpTo {
        program: *program,
        level: 6,
        most,
        below: five,
    };
    let seven = UpTo {
        program: *program,
        level: 7,
        most,
        below: six,
    };
    match program.number(entry) {
        None => unreachable!(),
        Some(i) => {
            let func = &program.tree.funcs.items[i];
            let slots = slots_of(alloc, program, i, func, view.limits, view.limits.prints)?;
            let run = Body {
                slots: &slots,
                picks: view.picks,
                functions: &seven,
                depth: 1,
            };
            let done = begun(alloc, g, &run, func, args)?;
            Ok(done)
        }
    }
}

// The logic as it is left.
fn keep<L>(logic: &mut L)
    ensures { logic.new ≡ logic.old }
{
    let _ = logic;
}

/// How a run of the entry ends, from which calls may go as deep as the limits allow. A call that
/// was made before gives what was built then.
pub fn remembering<L: Logic, K: Setting<L::Bit>>(
    alloc: Global,
    g: &mut L,
    program: &Program<'_>,
    view: &View<'_, L::Bit>,
    entry: &Name,
    args: SymValues<L::Bit>,
) -> Result<SymDone<L::Bit>, NoMemory>
    requires picks { OwnsAll L.owns g.old (joined (env_of view.now).picks) }
    requires many { HasPicks (env_of view.now).picks (weighted_prog program.now.tree.now) }
    requires fixed { Fixes program.now.tree.now program.now.types.now.facts
        (env_of view.now).picks K.fixed }
    requires args { AreArgumentsIn L.owns g.old (env_of view.now).limits args }
    requires typed { TypesProgram program.now.types.now.facts program.now.tree.now
        (entry_within (env_of view.now).limits entry.now (map ty_of args)) }
    ensures extends { Extends L.owns L.reads L.count g.old g.new }
    ensures made { IfOk result (λ r. IsDoneIn L.owns g.new (env_of view.now).limits
        (end_form (env_of view.now).limits program.now.tree.now program.now.types.now.facts
        entry.now) r) }
    ensures value { IfOk result (λ r.
        (vs : List Bool) (m : ℕ → ℕ) (values : List Value) (p : List Routine)
        → PicksRead (L.reads g.old vs) (env_of view.now).picks m
        → map (read (L.reads g.old vs)) args ≡ map sure values
        → program_shape p ≡ plain m (weighted_prog program.now.tree.now)
        → DoneReads (env_of view.now).limits (L.reads g.new vs) r
        (evaluated (env_of view.now).limits p entry.now values)) }
{
    let mut memory: Remembering<'_, L, K> = Remembering::new(alloc, g);
    let outcome = at_depth(alloc, &mut memory, program, view, entry, args);
    keep(memory.into_logic());
    outcome
}
