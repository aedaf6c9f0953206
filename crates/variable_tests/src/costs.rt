//! What the members that picks choose cost, as bits.

use bit_graph::gate::GraphBit;
use bit_graph::graph::Graph;
use bit_words::NoMemory;
use choice_tree::Selection;
use input_space::Task;
use selection_numbers::MemberCounts;
use std::alloc::Global;
use std::test::Fail;
use sym_cost::{cost_reaches, sym_cost};
use test_bits::{Texts, Truths, picks_of, push_members, selections_of, task_of, truths_of_number};

/// A submission, rules, and what its selections cost, in the order of their numbers.
type Priced = (&'static str, &'static str, &'static [u32]);

/// Two picks beside one another; a pick in the base and one in the other member of a pick, of which
/// one alone is chosen; two picks in either; and none.
const PRICED: [Priced; 4] = [
    (
        "def f(n):\n    return n + 2 - n\n",
        "rule number cost 3: $n => {0, 1}\nrule name cost 5: n => 4\n",
        &[0, 5, 3, 8, 3, 8, 5, 10, 8, 13, 8, 13],
    ),
    (
        "def f(n):\n    return n + 2\n",
        "rule turn cost 2: $a + $n => $n' - $a\nrule number cost 9: $n => 1\n",
        &[0, 2, 9, 2, 0, 11, 9, 11],
    ),
    (
        "def f(n):\n    return n + 2\n",
        "rule product cost 4: $a + $n => $a' * $n'\nrule two: 2 => 3\nrule name: n => 1\n",
        &[
            0, 4, 1, 4, 1, 4, 2, 4, 0, 5, 1, 5, 1, 5, 2, 5, 0, 5, 1, 5, 1, 5, 2, 5, 0, 6, 1, 6, 1,
            6, 2, 6,
        ],
    ),
    ("def f(n):\n    return n + 2\n", "", &[0]),
];

/// A cost over a graph.
#[derive(Drop)]
struct CostBits {
    graph: Graph,
    bits: Vec<GraphBit>,
}

/// The cost of variable picks as a word.
fn word(alloc: Global, task: &Task) -> Result<CostBits, NoMemory> {
    task.is_sound();
    let mut graph = Graph::new(alloc)?;
    let picks = picks_of(alloc, &mut graph, task, None)?;
    let word = sym_cost(alloc, &mut graph, task.tree(), &picks)?;
    let bits = word.into_vec();
    Ok(CostBits { graph, bits })
}

/// The same as a counter of so many bits.
fn counter(alloc: Global, task: &Task, length: u32) -> Result<CostBits, NoMemory> {
    let mut graph = Graph::new(alloc)?;
    let picks = picks_of(alloc, &mut graph, task, None)?;
    let counter = cost_reaches(alloc, &mut graph, task.tree(), &picks, length)?;
    let bits = counter.into_vec();
    Ok(CostBits { graph, bits })
}

impl CostBits {
    /// Whether the bits read as truth values under those of the members that a selection chooses.
    fn read(
        &self,
        alloc: Global,
        counts: &MemberCounts,
        selection: &Selection,
        wanted: &[bool],
    ) -> Result<bool, NoMemory> {
        let mut members = Vec::new(alloc);
        push_members(&mut members, counts, selection)?;
        let truths = Truths::under(alloc, &self.graph, members)?;
        let mut bits = self.bits.iter().zip(wanted.iter());
        let alike = bits.all(|(bit, truth)| truths.of(*bit) == *truth);
        Ok(alike && self.bits.len() == wanted.len())
    }
}

/// Whether a number is above each place of a counter.
fn counted(alloc: Global, number: u32, length: u32) -> Result<Vec<bool>, NoMemory> {
    let mut truths = Vec::new(alloc);
    for place in 0..length {
        truths.push(place < number)?;
    }
    Ok(truths)
}

/// Whether the word of each selection reads as its cost.
fn word_is_right(
    alloc: Global,
    task: &Task,
    selections: &[Selection],
    costs: &[u32],
) -> Result<bool, NoMemory> {
    let word = word(alloc, task)?;
    let counts = MemberCounts::of(alloc, task.tree())?;
    for (selection, cost) in selections.iter().zip(costs.iter()) {
        let wanted = truths_of_number(alloc, *cost, 14)?;
        if !word.read(alloc, &counts, selection, &wanted)? {
            return Ok(false);
        }
    }
    Ok(true)
}

/// The same of a counter of so many bits.
fn counter_is_right(
    alloc: Global,
    task: &Task,
    selections: &[Selection],
    costs: &[u32],
    length: u32,
) -> Result<bool, NoMemory> {
    let counter = counter(alloc, task, length)?;
    let counts = MemberCounts::of(alloc, task.tree())?;
    for (selection, cost) in selections.iter().zip(costs.iter()) {
        let wanted = counted(alloc, *cost, length)?;
        if !counter.read(alloc, &counts, selection, &wanted)? {
            return Ok(false);
        }
    }
    Ok(true)
}

/// Whether both are, for counters of no bits, of fewer than the greatest cost, and of more.
fn both_are_right(
    alloc: Global,
    task: &Task,
    selections: &[Selection],
    costs: &[u32],
) -> Result<bool, NoMemory> {
    for length in [0, 1, 4, 20] {
        if !counter_is_right(alloc, task, selections, costs, length)? {
            return Ok(false);
        }
    }
    let right = word_is_right(alloc, task, selections, costs)?;
    Ok(right && selections.len() == costs.len())
}

/// Whether they are for the selections of a submission and rules.
fn costs_are_right(alloc: Global, priced: &Priced) -> Result<bool, Fail> {
    let (submission, rules, costs) = *priced;
    let texts = Texts {
        bounds: "width 5\nturns 1\ndepth 1\ncap 1\nentry f\nparam n int 0..1\n",
        reference: "def f(n):\n    return n\n",
        submission,
        rules,
    };
    let task = task_of(alloc, &texts)?;
    let selections = selections_of(alloc, &task)?;
    let right = both_are_right(alloc, &task, &selections, costs)?;
    Ok(right)
}

/// The bits of a cost over variables read as what each selection costs.
#[test]
fn costs_read_as_those_of_selections(rt: HostRuntime) -> Result<(), Fail> {
    let alloc = rt.alloc();
    for priced in &PRICED {
        let right = costs_are_right(alloc, priced)?;
        assert!(rt; right, "{}", priced.1);
    }
    Ok(())
}
