//! Which choices need less than three gates, and one by three.

ghost use Rattle.std.specs.Prelude.{◌≡◌, ◌≢◌, ◌+◌, ◌≤◌, ◌⊎◌, ℕ, Bool, List, true, false, not};
ghost use Rattle.std.specs.Prelude.{if◌then◌else◌, IfSome, IfNone, IfOk, OnOk, length};
ghost use Rattle.bit_words.specs.Logic.{Extends};
ghost use Rattle.bit_graph.specs.Gates.{IsBelow, Owns, bit_reads, is_positive_bit, opposite_bit};
ghost use Rattle.bit_graph.specs.Gates.{reading, source_of};
ghost use Rattle.bit_graph.specs.Rules.{AreSame, GainsJoin, IsChoiceBelow, IsOpposedChoice};
ghost use Rattle.bit_graph.specs.Rules.{IsSettled, NeedsChoice, choice_reads, most_gates};

use crate::gate::{GraphBit, Source};
use crate::graph::Graph;
use crate::rules::are_same;
use bit_words::NoMemory;
use bit_words::logic::Logic;

/// A form of one of two bits by a test.
#[derive(Clone, Copy)]
pub enum Choice {
    Is(GraphBit),
    Both(GraphBit, GraphBit),
    NotBoth(GraphBit, GraphBit),
    /// Both hold or neither does.
    Alike(GraphBit, GraphBit),
    /// The second where the first holds, and else the third.
    Join(GraphBit, GraphBit, GraphBit),
}

/// The opposite of a bit.
pub fn opposite(a: GraphBit) -> GraphBit
    ensures exact { result ≡ opposite_bit a }
    ensures value { (vs made : List Bool) → bit_reads vs made result ≡ not (bit_reads vs made a) }
{
    GraphBit {
        source: a.source,
        positive: !a.positive,
    }
}

/// What an arm reads as where the test holds, if that is known.
fn settled(c: GraphBit, arm: GraphBit) -> Option<bool>
    ensures value { IfSome result (λ b. (vs made : List Bool) → bit_reads vs made c ≡ true
        → bit_reads vs made arm ≡ b) }
    ensures some { IfSome result (λ b. IsSettled c arm) }
    ensures none { IfNone result (IsSettled c arm → ⊥) }
{
    if arm.source == Source::Constant {
        return Some(arm.positive);
    }
    if arm.source == c.source {
        return Some(arm.positive == c.positive);
    }
    None
}

/// The choice where an arm is settled, by what it reads as where it is chosen: `test` is the test
/// that chooses it.
fn settled_choice(test: GraphBit, reads: bool, other: GraphBit) -> Choice
    ensures value { (vs made : List Bool) →
        choice_reads vs made result
        ≡ (if bit_reads vs made test then reads else bit_reads vs made other) }
    ensures below { (variables made : ℕ) → IsBelow variables made (source_of test)
        → IsBelow variables made (source_of other) → IsChoiceBelow variables made result }
    ensures few { most_gates result ≤ 1 }
{
    if reads {
        Choice::NotBoth(opposite(test), opposite(other))
    } else {
        Choice::Both(opposite(test), other)
    }
}

/// The form of a choice: of a constant test one arm, of equal arms the arm, of an arm that is a
/// constant, the test or its opposite a conjunction, of opposite arms whether test and arm are
/// alike. The test of a join isn't negated: there the arms are exchanged.
pub fn choice_of(c: GraphBit, yes: GraphBit, no: GraphBit) -> Choice
    ensures value { (vs made : List Bool) →
        choice_reads vs made result
        ≡ (if bit_reads vs made c then bit_reads vs made yes else bit_reads vs made no) }
    ensures below { (variables made : ℕ) → IsBelow variables made (source_of c)
        → IsBelow variables made (source_of yes) → IsBelow variables made (source_of no)
        → IsChoiceBelow variables made result }
    ensures known_test { source_of c ≡ Source.Constant
        → result ≡ Choice.Is (if is_positive_bit c then yes else no) }
    ensures equal_arms { source_of c ≢ Source.Constant → AreSame yes no → result ≡ Choice.Is yes }
    ensures settled { IsSettled c yes ⊎ IsSettled c no → most_gates result ≤ 1 }
    ensures opposite_arms { IsOpposedChoice c yes no → result ≡ Choice.Alike c yes }
    ensures join { NeedsChoice c yes no → is_positive_bit c ≡ true → result ≡ Choice.Join c yes no }
    ensures turned { NeedsChoice c yes no → is_positive_bit c ≡ false
        → result ≡ Choice.Join (opposite_bit c) no yes }
{
    if c.source == Source::Constant {
        return Choice::Is(if c.positive { yes } else { no });
    }
    if are_same(yes, no) {
        return Choice::Is(yes);
    }
    if let Some(reads) = settled(c, yes) {
        return settled_choice(c, reads, no);
    }
    if let Some(reads) = settled(opposite(c), no) {
        return settled_choice(opposite(c), reads, yes);
    }
    if yes.source == no.source {
        return Choice::Alike(c, yes);
    }
    if c.positive {
        Choice::Join(c, yes, no)
    } else {
        Choice::Join(opposite(c), no, yes)
    }
}

impl Graph {
    /// One of two bits by a test, by three gates.
    pub(crate) fn join(
        &mut self,
        c: GraphBit,
        yes: GraphBit,
        no: GraphBit,
    ) -> Result<GraphBit, NoMemory>
        requires test { Owns self.old c }
        requires yes { Owns self.old yes }
        requires no { Owns self.old no }
        ensures extends { Extends Owns reading (λ g. g.variables) self.old self.new }
        ensures owned { IfOk result (λ r. Owns self.new r) }
        ensures value { IfOk result (λ r. (vs : List Bool) →
            reading self.new vs r
            ≡ (if reading self.old vs c then reading self.old vs yes else reading self.old vs no)) }
        ensures few { length self.new.gates ≤ length self.old.gates + 3 }
        ensures gains { OnOk result (GainsJoin self.old c yes no self.new) }
    {
        let first = self.and(c, yes)?;
        let second = self.and(self.not(c), no)?;
        let neither = self.and(self.not(first), self.not(second))?;
        Ok(self.not(neither))
    }
}
