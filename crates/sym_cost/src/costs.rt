//! The cost of a weighted program under the members that the picks' bits choose.

ghost use Rattle.std.specs.Prelude.{◌≡◌, ◌+◌, ◌<◌, ◌≤◌, ℕ, Bool, List, None, length, map};
ghost use Rattle.std.specs.Prelude.{pos, IfOk};
ghost use Rattle.choice_tree.specs.Costs.{sum_of};
ghost use Rattle.choice_tree.specs.NodeViews.{node_of, pick_of};
ghost use Rattle.choice_tree.specs.Selections.{cost, most_cost};
ghost use Rattle.choice_tree.specs.StatementViews.{weighted_prog};
ghost use Rattle.choice_tree.specs.WeightedTrees.{children};
ghost use Rattle.bit_words.specs.Logic.{Extends, OwnsAll};
ghost use Rattle.bit_words.specs.Results.{IsWordIn};
ghost use Rattle.bit_words.specs.Words.{int_read};
ghost use Rattle.sym_values.specs.Forms.{joined};
ghost use Rattle.sym_nodes.specs.Environments.{HasPicks, OthersHavePicks, PicksRead};
ghost use Rattle.sym_cost.specs.Notations.{HasRoom, IsCostIn, IsNotedIn, Spells, Writes, counter};
ghost use Rattle.sym_cost.specs.Picked.{HasNoPick, tree_of_pick};

use crate::counters::padded;
use crate::members::member_or;
use crate::notation::{Notation, raised, sum_of_both, written};
use bit_words::NoMemory;
use bit_words::bits::Bits;
use bit_words::logic::Logic;
use bit_words::word::Word;
use choice_tree::{Node, Pick, WProg};
use std::alloc::Global;
use sym_nodes::Picks;

/// The cost of the chosen members as a word of 14 bits. Members that aren't chosen cost nothing,
/// nor do picks in them. For a program without picks nothing is made.
pub fn sym_cost<L: Logic>(
    alloc: Global,
    g: &mut L,
    w: &WProg,
    picks: &Picks<L::Bit>,
) -> Result<Word<L::Bit>, NoMemory>
    requires owned { OwnsAll L.owns g.old (joined picks.now) }
    requires numbered { HasPicks picks.now (weighted_prog w.now) }
    requires small { most_cost (weighted_prog w.now) ≤ 4096 }
    ensures extends { Extends L.owns L.reads L.count g.old g.new }
    ensures untouched { HasNoPick (weighted_prog w.now) → g.new ≡ g.old }
    ensures made { IfOk result (λ r. IsWordIn L.owns g.new 14 r) }
    ensures value { IfOk result (λ r. (vs : List Bool) (m : ℕ → ℕ)
        → PicksRead (L.reads g.old vs) picks.now m
        → int_read L.reads g.new vs r ≡ pos (cost m (weighted_prog w.now))) }
{
    let notation = Notation::Binary;
    let cost = node_cost(alloc, g, Node::Prog(w), picks, notation)?;
    let word = written(alloc, g, notation, cost)?;
    Ok(word)
}

/// The same cost as a counter of so many bits, of which bit j, from 0, is true exactly where the
/// cost is at least j + 1.
pub fn cost_reaches<L: Logic>(
    alloc: Global,
    g: &mut L,
    w: &WProg,
    picks: &Picks<L::Bit>,
    bound: u32,
) -> Result<Bits<L::Bit>, NoMemory>
    requires owned { OwnsAll L.owns g.old (joined picks.now) }
    requires numbered { HasPicks picks.now (weighted_prog w.now) }
    ensures extends { Extends L.owns L.reads L.count g.old g.new }
    ensures untouched { HasNoPick (weighted_prog w.now) → g.new ≡ g.old }
    ensures made { IfOk result (λ r. IsWordIn L.owns g.new bound r) }
    ensures value { IfOk result (λ r. (vs : List Bool) (m : ℕ → ℕ)
        → PicksRead (L.reads g.old vs) picks.now m
        → map (L.reads g.new vs) r ≡ counter bound (cost m (weighted_prog w.now))) }
{
    let most = bound as usize;
    let notation = Notation::Unary(most);
    let cost = node_cost(alloc, g, Node::Prog(w), picks, notation)?;
    let counter = written(alloc, g, notation, cost)?;
    let whole = padded(g, counter, most)?;
    Ok(Bits::from_vec(whole.into_vec()))
}

// The cost of a node; no bits where there are no picks.
#[cycle(costs)]
#[tactic(auto, using(bit_words::proofs::Kept::steps))]
fn node_cost<L: Logic>(
    alloc: Global,
    g: &mut L,
    node: Node<'_>,
    picks: &Picks<L::Bit>,
    notation: Notation,
) -> Result<Option<Word<L::Bit>>, NoMemory>
    requires owned { OwnsAll L.owns g.old (joined picks.now) }
    requires numbered { HasPicks picks.now (node_of node) }
    ensures extends { Extends L.owns L.reads L.count g.old g.new }
    ensures untouched { HasNoPick (node_of node.entry) → g.new ≡ g.old }
    ensures none { IfOk result (λ r. HasNoPick (node_of node.entry) → r ≡ None) }
    ensures made { IfOk result (λ r. IsCostIn L.owns g.new notation r) }
    ensures value { IfOk result (λ r. (vs : List Bool) (m : ℕ → ℕ)
        → PicksRead (L.reads g.old vs) picks.now m
        → HasRoom notation (cost m (node_of node.entry))
        → Writes (L.reads g.new vs) notation r (cost m (node_of node.entry))) }
{
    match node.pick() {
        None => {
            let cost = parts_cost(alloc, g, node, picks, notation)?;
            Ok(cost)
        }
        Some(pick) => {
            let cost = pick_cost(alloc, g, pick, picks, notation)?;
            Ok(Some(cost))
        }
    }
}

// That of all children together.
#[cycle(costs)]
#[tactic(auto, using(bit_words::proofs::Kept::steps))]
fn parts_cost<L: Logic>(
    alloc: Global,
    g: &mut L,
    node: Node<'_>,
    picks: &Picks<L::Bit>,
    notation: Notation,
) -> Result<Option<Word<L::Bit>>, NoMemory>
    requires owned { OwnsAll L.owns g.old (joined picks.now) }
    requires numbered { HasPicks picks.now (node_of node) }
    ensures extends { Extends L.owns L.reads L.count g.old g.new }
    ensures untouched { HasNoPick (node_of node.entry) → g.new ≡ g.old }
    ensures none { IfOk result (λ r. HasNoPick (node_of node.entry) → r ≡ None) }
    ensures made { IfOk result (λ r. IsCostIn L.owns g.new notation r) }
    ensures value { IfOk result (λ r. (vs : List Bool) (m : ℕ → ℕ)
        → PicksRead (L.reads g.old vs) picks.now m
        → HasRoom notation (sum_of (cost m) (children (node_of node.entry)))
        → Writes (L.reads g.new vs) notation r
        (sum_of (cost m) (children (node_of node.entry)))) }
{
    let mut total = None;
    let mut i = 0u128;
    'parts: loop {
        match node.child(i) {
            None => return Ok(total),
            Some(part) => {
                let cost = node_cost(alloc, g, part, picks, notation)?;
                total = sum_of_both(alloc, g, notation, total, cost)?;
            }
        }
        i += 1;
    }
}

// That of the member that is chosen at a pick.
#[cycle(costs)]
#[tactic(auto, using(bit_words::proofs::Kept::steps))]
fn pick_cost<L: Logic>(
    alloc: Global,
    g: &mut L,
    pick: Pick<'_>,
    picks: &Picks<L::Bit>,
    notation: Notation,
) -> Result<Word<L::Bit>, NoMemory>
    requires owned { OwnsAll L.owns g.old (joined picks.now) }
    requires numbered { (pick_of pick).number < length picks.now }
    requires base { HasPicks picks.now (pick_of pick).base }
    requires others { OthersHavePicks picks.now (pick_of pick).others }
    ensures extends { Extends L.owns L.reads L.count g.old g.new }
    ensures made { IfOk result (λ r. IsNotedIn L.owns g.new notation r) }
    ensures value { IfOk result (λ r. (vs : List Bool) (m : ℕ → ℕ)
        → PicksRead (L.reads g.old vs) picks.now m
        → HasRoom notation (cost m (tree_of_pick pick.entry))
        → Spells notation (map (L.reads g.new vs) r) (cost m (tree_of_pick pick.entry))) }
{
    let bits = picks.at(pick.number() as usize);
    let named = bits.as_slice();
    let base = node_cost(alloc, g, pick.base(), picks, notation)?;
    let mut chosen = written(alloc, g, notation, base)?;
    for i in 0..pick.len() {
        let member = other_cost(alloc, g, pick.cost(i), pick.tree(i), picks, notation)?;
        chosen = member_or(alloc, g, named, i + 1, member, chosen)?;
    }
    Ok(chosen)
}

// That of a member besides the base: its own and its tree's.
#[cycle(costs)]
#[tactic(auto, using(bit_words::proofs::Kept::steps))]
fn other_cost<L: Logic>(
    alloc: Global,
    g: &mut L,
    own: u32,
    node: Node<'_>,
    picks: &Picks<L::Bit>,
    notation: Notation,
) -> Result<Word<L::Bit>, NoMemory>
    requires owned { OwnsAll L.owns g.old (joined picks.now) }
    requires numbered { HasPicks picks.now (node_of node) }
    ensures extends { Extends L.owns L.reads L.count g.old g.new }
    ensures made { IfOk result (λ r. IsNotedIn L.owns g.new notation r) }
    ensures value { IfOk result (λ r. (vs : List Bool) (m : ℕ → ℕ)
        → PicksRead (L.reads g.old vs) picks.now m
        → HasRoom notation (own + cost m (node_of node.entry))
        → Spells notation (map (L.reads g.new vs) r) (own + cost m (node_of node.entry))) }
{
    let tree = node_cost(alloc, g, node, picks, notation)?;
    let inner = written(alloc, g, notation, tree)?;
    let cost = raised(alloc, g, notation, own, &inner)?;
    Ok(cost)
}
