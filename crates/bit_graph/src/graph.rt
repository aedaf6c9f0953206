//! The graph: a logic with variables, whose gates are shared.

ghost use Rattle.std.specs.Prelude.{◌≡◌, ◌≢◌, ◌⊎◌, ◌+◌, ◌<◌, ◌≤◌, ◌↔◌, ◌&&◌, true, false, not, []};
ghost use Rattle.std.specs.Prelude.{Bool, List, IfSome, IfNone, IfOk, Ok, OnOk, IsTrue, length};
ghost use Rattle.std.specs.Prelude.{slice_get, Some, if◌then◌else◌};
ghost use Rattle.bit_words.specs.Bits.{differ};
ghost use Rattle.bit_words.specs.Logic.{Extends};
ghost use Rattle.bit_graph.specs.Gates.{AreGates, GainsAtMostOne, Owns, is_positive_bit};
ghost use Rattle.bit_graph.specs.Gates.{opposite_bit, reading, source_of};
ghost use Rattle.bit_graph.specs.Rules.{AreSame, GainsJoin, GainsNeeded, GainsXor, IsOpposedChoice};
ghost use Rattle.bit_graph.specs.Rules.{IsSettled, NeedsChoice};

use crate::choices::{Choice, choice_of};
use crate::gate::{Gate, GraphBit, Reduced, Source};
use crate::rules::are_same;
use crate::share::share;
use bit_words::NoMemory;
use bit_words::logic::{Logic, Variables};
use indexmap::IndexSet;
use std::alloc::{AllocError, Global};
use std::marker::Model;

/// A graph of gates, each of which joins two bits, and of the variables below them.
#[derive(Drop)]
pub struct Graph {
    pub(crate) variables: u32,
    pub(crate) gates: IndexSet<Gate>,
}

impl Model for Graph {
    ghost use Rattle.bit_graph.specs.Gates.{Gates, AreFewGates};

    ghost Value = { Gates };

    ghost view = { λ g. record { variables = g.variables; gates = g.gates.keys } };

    ghost invariant = { λ g. AreFewGates g.variables g.gates.keys };
}

impl Graph {
    /// The graph of no variables and no gates.
    pub fn new(alloc: Global) -> Result<Graph, NoMemory>
        ensures { IfOk result (λ g. g ≡ record { variables = 0; gates = [] }) }
    {
        Ok(Graph {
            variables: 0,
            gates: IndexSet::new(alloc),
        })
    }

    /// How many variables there are.
    pub fn variables(&self) -> u32
        ensures { result ≡ self.now.variables }
    {
        self.variables
    }

    /// How many gates there are.
    pub fn gate_count(&self) -> usize
        ensures count { result ≡ length self.now.gates }
        ensures gates { AreGates self.now.variables self.now.gates }
    {
        self.gates.len()
    }

    /// A gate, by its place in the order of making.
    pub fn gate(&self, k: usize) -> Gate
        requires { k < length self.now.gates }
        ensures { slice_get self.now.gates k ≡ Some result }
    {
        self.gates[k]
    }
}

impl Logic for Graph {
    type Bit = GraphBit;

    ghost owns = { Owns };

    ghost reads = { reading };

    ghost count = { λ g. g.variables };

    fn constant(&self, b: bool) -> GraphBit
        ensures owned { Owns self.now result }
        ensures value { (vs : List Bool) → reading self.now vs result ≡ b }
        ensures constant { source_of result ≡ Source.Constant }
    {
        GraphBit {
            source: Source::Constant,
            positive: b,
        }
    }

    fn not(&self, a: GraphBit) -> GraphBit
        requires { Owns self.now a }
        ensures owned { Owns self.now result }
        ensures value { (vs : List Bool) →
            reading self.now vs result ≡ not (reading self.now vs a) }
        ensures exact { result ≡ opposite_bit a }
    {
        GraphBit {
            source: a.source,
            positive: !a.positive,
        }
    }

    /// A gate is made only where none of the rules gives a bit and the gate isn't there.
    fn and(&mut self, a: GraphBit, b: GraphBit) -> Result<GraphBit, NoMemory>
        requires left { Owns self.old a }
        requires right { Owns self.old b }
        ensures extends { Extends Owns reading (λ g. g.variables) self.old self.new }
        ensures owned { IfOk result (λ r. Owns self.new r) }
        ensures value { IfOk result (λ r. (vs : List Bool) →
            reading self.new vs r ≡ (reading self.old vs a && reading self.old vs b)) }
        ensures gains { GainsAtMostOne self.old.gates self.new.gates }
        ensures needed { GainsNeeded self.old a b self.new.gates }
    {
        match self.reduce(a, b) {
            Reduced::Bit(bit) => Ok(bit),
            Reduced::New(gate) => {
                let made = share(&mut self.gates, gate)?;
                Ok(GraphBit {
                    source: Source::Made(made),
                    positive: true,
                })
            }
        }
    }

    /// The arm that is chosen, where the test is a constant or the arms are one bit. An arm that is
    /// a constant, the test or its opposite needs one gate, opposite arms an exclusive or. Of the
    /// others the test isn't negated: there the arms are exchanged.
    fn choose(&mut self, c: GraphBit, yes: GraphBit, no: GraphBit) -> Result<GraphBit, NoMemory>
        requires test { Owns self.old c }
        requires yes { Owns self.old yes }
        requires no { Owns self.old no }
        ensures extends { Extends Owns reading (λ g. g.variables) self.old self.new }
        ensures owned { IfOk result (λ r. Owns self.new r) }
        ensures value { IfOk result (λ r. (vs : List Bool) →
            reading self.new vs r
            ≡ (if reading self.old vs c then reading self.old vs yes else reading self.old vs no)) }
        ensures known_test { source_of c ≡ Source.Constant
            → (result ≡ Ok (if is_positive_bit c then yes else no)) × (self.new ≡ self.old) }
        ensures equal_arms { source_of c ≢ Source.Constant → AreSame yes no
            → (result ≡ Ok yes) × (self.new ≡ self.old) }
        ensures settled_arm { IsSettled c yes ⊎ IsSettled c no
            → length self.new.gates ≤ length self.old.gates + 1 }
        ensures opposite_arms { IsOpposedChoice c yes no
            → OnOk result (GainsXor self.old c yes self.new) }
        ensures join { NeedsChoice c yes no → is_positive_bit c ≡ true
            → OnOk result (GainsJoin self.old c yes no self.new) }
        ensures turned { NeedsChoice c yes no → is_positive_bit c ≡ false
            → OnOk result (GainsJoin self.old (opposite_bit c) no yes self.new) }
        ensures few { length self.new.gates ≤ length self.old.gates + 3 }
    {
        match choice_of(c, yes, no) {
            Choice::Is(bit) => Ok(bit),
            Choice::Both(a, b) => self.and(a, b),
            Choice::NotBoth(a, b) => {
                let both = self.and(a, b)?;
                Ok(self.not(both))
            }
            Choice::Alike(a, b) => {
                let one = self.xor(a, b)?;
                Ok(self.not(one))
            }
            Choice::Join(test, first, second) => self.join(test, first, second),
        }
    }

    /// The same bit for all signs of the two, but for its own sign: where their exclusive or was
    /// made, with either sign of either, it is found.
    fn xor(&mut self, a: GraphBit, b: GraphBit) -> Result<GraphBit, NoMemory>
        requires left { Owns self.old a }
        requires right { Owns self.old b }
        ensures extends { Extends Owns reading (λ g. g.variables) self.old self.new }
        ensures owned { IfOk result (λ r. Owns self.new r) }
        ensures value { IfOk result (λ r. (vs : List Bool) →
            reading self.new vs r ≡ differ (reading self.old vs a) (reading self.old vs b)) }
        ensures gains { OnOk result (GainsXor self.old a b self.new) }
        ensures few { length self.new.gates ≤ length self.old.gates + 3 }
    {
        let Some(bit) = self.find_differ(a.source, b.source) else {
            return self.make_xor(a, b);
        };
        if a.positive == b.positive {
            Ok(bit)
        } else {
            Ok(self.not(bit))
        }
    }

    /// Whether two bits are one.
    fn same(&self, a: GraphBit, b: GraphBit) -> bool
        ensures exact { IsTrue result ↔ AreSame a b }
        ensures value { IsTrue result → (vs : List Bool) →
            reading self.now vs a ≡ reading self.now vs b }
    {
        are_same(a, b)
    }

    /// The value of a bit that is one of the two constants.
    fn known(&self, a: GraphBit) -> Option<bool>
        ensures value { IfSome result (λ b. (vs : List Bool) → reading self.now vs a ≡ b) }
        ensures constant { IfSome result (λ b. source_of a ≡ Source.Constant) }
        ensures open { IfNone result (source_of a ≢ Source.Constant) }
    {
        if a.source == Source::Constant {
            Some(a.positive)
        } else {
            None
        }
    }
}

impl Variables for Graph {
    fn variable(&mut self) -> Result<GraphBit, NoMemory> {
        if self.variables >= 2147483647 {
            return Err(AllocError);
        }
        let number = self.variables;
        self.variables += 1;
        Ok(GraphBit {
            source: Source::Variable(number),
            positive: true,
        })
    }
}
