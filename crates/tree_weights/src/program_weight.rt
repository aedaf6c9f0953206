//! The weight of a weighted program.
ghost use Rattle.std.specs.Prelude.{◌≡◌, min};
ghost use Rattle.choice_tree.specs.StatementViews.{weighted_prog};
ghost use Rattle.tree_weights.specs.Weights.{program_weight};

use crate::frame::Frame;
use crate::program::{TypedProgram, find_function};
use choice_tree::{Node, WProg};
use mpy_tree::{Limits, Name, Types};
use mpy_types::FactList;

// One more than the greatest weight that is taken.
const STOP: u64 = 1_000_001;

/// The weight of a weighted program that is entered at a function, where `t` gives the types of its
/// names; 1,000,001 where it is greater.
pub fn weight(w: &WProg, t: &Types, l: &Limits, entry: &Name) -> u64
    ensures { result ≡ min (program_weight l.now t.now.facts entry.now (weighted_prog w.now))
        1000001 }
{
    let funcs = w.funcs.items.as_slice();
    match find_function(funcs, entry) {
        None => 0,
        Some(found) => {
            let program = TypedProgram {
                funcs,
                entry: found.number,
                facts: FactList {
                    facts: t.facts.items(),
                },
                limits: l,
            };
            let frame = Frame::new(program, found.number, l.depth - 1);
            STOP - frame.after(Node::Func(found.func), STOP)
        }
    }
}
