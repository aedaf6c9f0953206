//! Picks as variables, and the selections that truth values spell.

ghost use Rattle.std.specs.Prelude.{◌≡◌, IfOk};
ghost use Rattle.choice_tree.specs.StatementViews.{weighted_prog};
ghost use Rattle.input_space.specs.SelectionBits.{all_member_bits};
ghost use Rattle.selection_numbers.specs.MemberCounts.{member_counts};

use bit_graph::graph::Graph;
use bit_words::NoMemory;
use choice_tree::{Selection, WProg};
use clause_base::truths;
use input_space::Task;
use pick_bits::{decode_selection, fresh_members};
use selection_numbers::MemberCounts;
use std::alloc::Global;
use std::test::Fail;
use test_bits::{Texts, Truths, task_of, truths_of_number, variable_members};

/// Pairs of a pick and a member.
type Pairs = &'static [(u32, u32)];

/// A submission, rules, and the selection that the digits of each number spell, if they do.
type Spelled = (&'static str, &'static str, &'static [Option<Pairs>]);

/// Three members and two beside one another; five members; a pick in the base and one in the other
/// member of a pick, of which one alone is chosen; and no picks.
const SPELLED: [Spelled; 5] = [
    (
        "def f(n):\n    return 2 + n\n",
        "rule number: $n => {0, 1}\nrule name: n => 4\n",
        &[
            Some(&[]),
            Some(&[(0, 1)]),
            Some(&[(0, 2)]),
            None,
            Some(&[(1, 1)]),
            Some(&[(0, 1), (1, 1)]),
            Some(&[(0, 2), (1, 1)]),
            None,
        ],
    ),
    (
        "def f(n):\n    return n + 2\n",
        "rule number: $n => {0, 1, 3, 4}\n",
        &[
            Some(&[]),
            Some(&[(0, 1)]),
            Some(&[(0, 2)]),
            Some(&[(0, 3)]),
            Some(&[(0, 4)]),
            None,
            None,
            None,
        ],
    ),
    (
        "def f(n):\n    return n + 2\n",
        "rule turn: $a + $n => $n' - $a\nrule number: $n => 1\n",
        &[
            Some(&[]),
            Some(&[(0, 1)]),
            Some(&[(1, 1)]),
            Some(&[(0, 1)]),
            Some(&[]),
            Some(&[(0, 1), (2, 1)]),
            Some(&[(1, 1)]),
            Some(&[(0, 1), (2, 1)]),
        ],
    ),
    (
        "def f(n):\n    return n + 2\n",
        "rule left: $a + $n => $a + {$n', 1}\n",
        &[Some(&[]), Some(&[(0, 1)]), Some(&[(0, 2)]), None],
    ),
    ("def f(n):\n    return n\n", "", &[Some(&[])]),
];

/// How many bits the members of a tree's picks have.
fn member_bits_of(alloc: Global, tree: &WProg) -> Result<u32, NoMemory>
    ensures { IfOk result (λ n. n ≡ all_member_bits (member_counts (weighted_prog tree.now))) }
{
    let mut g = Graph::new(alloc)?;
    let counts = MemberCounts::of(alloc, tree)?;
    let _members = fresh_members(alloc, &mut g, &counts)?;
    Ok(g.variables())
}

/// The selection that the digits of a number spell behind a first truth value.
fn spelled(alloc: Global, tree: &WProg, number: u32) -> Result<Option<Selection>, NoMemory> {
    let bits = member_bits_of(alloc, tree)?;
    if bits > 7 {
        return Ok(None);
    }
    let digits = truths_of_number(alloc, number.wrapping_mul(2), 8)?;
    let values = truths::Truths::from_vec(digits);
    if values.len() != 8 {
        return Ok(None);
    }
    let selection = decode_selection(alloc, tree, &values, 1)?;
    Ok(selection)
}

/// Whether the bit of variable picks tells that the digits of a number spell a selection.
fn is_within(alloc: Global, task: &Task, number: u32) -> Result<bool, NoMemory> {
    let mut g = Graph::new(alloc)?;
    let members = variable_members(alloc, &mut g, task)?;
    let digits = truths_of_number(alloc, number, 7)?;
    let truths = Truths::under(alloc, &g, digits)?;
    Ok(truths.of(members.within))
}

/// Whether a selection has these pairs, in order, if it is one.
fn is_selection(found: Option<&Selection>, wanted: Option<Pairs>) -> bool {
    match (found, wanted) {
        (None, None) => true,
        (Some(selection), Some(pairs)) => {
            let choices = selection.items();
            let mut both = choices.iter().zip(pairs.iter());
            choices.len() == pairs.len() && both.all(|(a, b)| a.pick == b.0 && a.member == b.1)
        }
        _ => false,
    }
}

/// Whether the digits of each number spell the selection in its place.
fn all_spell(alloc: Global, task: &Task, wanted: &[Option<Pairs>]) -> Result<bool, NoMemory> {
    let mut number = 0u32;
    for pairs in wanted {
        let found = spelled(alloc, task.tree(), number)?;
        let within = is_within(alloc, task, number)?;
        if !is_selection(found.as_ref(), *pairs) || within != pairs.is_some() {
            return Ok(false);
        }
        number = number.wrapping_add(1);
    }
    let bits = member_bits_of(alloc, task.tree())?;
    Ok(bits < 8 && wanted.len() == 1 << bits)
}

/// Whether they do so for a submission and rules.
fn task_spells(alloc: Global, row: &Spelled) -> Result<bool, Fail> {
    let (submission, rules, wanted) = *row;
    let texts = Texts {
        bounds: "width 5\nturns 1\ndepth 1\ncap 1\nentry f\nparam n int 0..1\n",
        reference: "def f(n):\n    return n\n",
        submission,
        rules,
    };
    let task = task_of(alloc, &texts)?;
    let right = all_spell(alloc, &task, wanted)?;
    Ok(right)
}

/// Each number's digits spell the selection of the table, or none.
#[test]
fn digits_spell_selections(rt: HostRuntime) -> Result<(), Fail> {
    let alloc = rt.alloc();
    for row in &SPELLED {
        let right = task_spells(alloc, row)?;
        assert!(rt; right, "{}", row.1);
    }
    Ok(())
}
