//! An expression that calls no function of a program, by itself, as bits.

ghost use Rattle.std.specs.Prelude.{◌≡◌, ◌∷◌, [], IfOk, length, map};
ghost use Rattle.mpy_tree.specs.declared.typing.Ty.TheVariants.{Int as int};
ghost use Rattle.choice_tree.specs.WeightedViews.{weighted_of};
ghost use Rattle.sym_nodes.specs.Environments.{IsEnvIn};
ghost use Rattle.sym_nodes.specs.Operands.{ty_of};
ghost use Rattle.variable_tests.specs.Expressions.{choice, quotient, sum, x};

use bit_graph::gate::GraphBit;
use bit_graph::graph::Graph;
use bit_words::NoMemory;
use bit_words::inputs::fresh_bits;
use bit_words::logic::Variables;
use choice_tree::{Other, Others, WExpr};
use input_bits::fresh_values;
use mpy_tree::{ArithOp, FaultKind, Limits, Name, Names, Outcome, Ty, Value, Values};
use std::alloc::Global;
use std::test::Fail;
use sym_expr::{sym_expr, sym_node};
use sym_nodes::{Env, Picks};
use sym_values::SymOutcome;
use test_bits::{Truths, truths_of_number};

/// The name `x`.
fn name(alloc: Global) -> Result<Name, NoMemory>
    ensures { IfOk result (λ n. n ≡ x) }
{
    let mut bytes = Vec::new(alloc);
    bytes.push(120)?;
    Ok(Name::from_vec(bytes))
}

/// `x + 1`.
fn sum(alloc: Global) -> Result<WExpr, NoMemory>
    ensures { IfOk result (λ e. weighted_of e ≡ sum) }
{
    let x = name(alloc)?;
    let first = Box::new(alloc, WExpr::Name(x))?;
    let second = Box::new(alloc, WExpr::Int(1))?;
    Ok(WExpr::Arith(ArithOp::Add, first, second))
}

/// `3 // x`.
fn quotient(alloc: Global) -> Result<WExpr, NoMemory>
    ensures { IfOk result (λ e. weighted_of e ≡ quotient) }
{
    let x = name(alloc)?;
    let first = Box::new(alloc, WExpr::Int(3))?;
    let second = Box::new(alloc, WExpr::Name(x))?;
    Ok(WExpr::Arith(ArithOp::Floor, first, second))
}

/// One of these by a pick.
fn choice(alloc: Global) -> Result<WExpr, NoMemory>
    ensures { IfOk result (λ e. weighted_of e ≡ choice) }
{
    let first = sum(alloc)?;
    let base = Box::new(alloc, first)?;
    let tree = quotient(alloc)?;
    let mut items = Vec::new(alloc);
    items.push(Other {
        rule: 0,
        cost: 1,
        tree,
    })?;
    Ok(WExpr::Pick {
        number: 0,
        base,
        others: Others { items },
    })
}

/// A number of 4 bits for `x`, whether it is set, and the member of the pick, as new variables.
fn environment<V: Variables>(alloc: Global, g: &mut V) -> Result<Env<V::Bit>, NoMemory>
    ensures made { IfOk result (λ r. IsEnvIn V.owns g.new r) }
    ensures names { IfOk result (λ r. r.names ≡ x ∷ []) }
    ensures types { IfOk result (λ r. map ty_of r.values ≡ int ∷ []) }
    ensures picks { IfOk result (λ r. length r.picks ≡ 1) }
{
    let limits = Limits {
        width: 4,
        turns: 1,
        depth: 1,
        cap: 1,
        prints: 0,
    };
    let values = fresh_values(alloc, g, &limits, &[Ty::Int])?;
    let set = fresh_bits(alloc, g, 1)?;
    let member = fresh_bits(alloc, g, 1)?;
    let mut picks = Picks::new(alloc);
    picks.push(member)?;
    let mut names = Vec::new(alloc);
    names.push(name(alloc)?)?;
    Ok(Env {
        names: Names::from_vec(names),
        values,
        set,
        picks,
        limits,
        depth: 1,
    })
}

/// The outcomes of the whole expression, and of its pick from those of its members.
#[derive(Drop)]
struct Outcomes {
    graph: Graph,
    limits: Limits,
    whole: SymOutcome<GraphBit>,
    node: SymOutcome<GraphBit>,
}

/// Those over variables.
fn variable_outcomes(alloc: Global) -> Result<Outcomes, NoMemory> {
    let mut graph = Graph::new(alloc)?;
    let env = environment(alloc, &mut graph)?;
    let e = choice(alloc)?;
    let whole = sym_expr(alloc, &mut graph, &e, &env)?;
    let first = sum(alloc)?;
    let base = sym_expr(alloc, &mut graph, &first, &env)?;
    let second = quotient(alloc)?;
    let other = sym_expr(alloc, &mut graph, &second, &env)?;
    let mut parts = Vec::new(alloc);
    parts.push(base)?;
    parts.push(other)?;
    let node = sym_node(alloc, &mut graph, &e, &env, &parts)?;
    let limits = env.limits;
    Ok(Outcomes {
        graph,
        limits,
        whole,
        node,
    })
}

impl Outcomes {
    /// Whether both read as an end under truth values of the variables.
    fn read(&self, alloc: Global, values: Vec<bool>, end: &Outcome) -> Result<bool, NoMemory> {
        let truths = Truths::under(alloc, &self.graph, values)?;
        let whole = truths.read(alloc, &self.graph, &self.limits, &self.whole, end)?;
        let node = truths.read(alloc, &self.graph, &self.limits, &self.node, end)?;
        Ok(whole && node)
    }
}

/// Stands for a fault.
const FAULT: i32 = 99;

/// What `x + 1` gives for `x` from 0 to 7 and from -8 to -1.
const SUMS: [i32; 16] = [1, 2, 3, 4, 5, 6, 7, FAULT, -7, -6, -5, -4, -3, -2, -1, 0];

/// What `3 // x` gives.
const QUOTIENTS: [i32; 16] = [FAULT, 3, 1, 1, 0, 0, 0, 0, -1, -1, -1, -1, -1, -1, -2, -3];

/// The end that a number stands for.
fn end_of(alloc: Global, number: i32) -> Outcome {
    if number == FAULT {
        Outcome::Fault {
            kind: FaultKind::Divisor,
            line: 1,
        }
    } else {
        Outcome::Done {
            value: Some(Value::Int(number)),
            printed: Values::from_vec(Vec::new(alloc)),
        }
    }
}

/// The outcome of an expression reads as what its plain expressions give, by itself and by those of
/// its parts; a name that isn't set is a fault.
#[test]
fn expressions_read_as_given(rt: HostRuntime) -> Result<(), Fail> {
    let alloc = rt.alloc();
    let outcomes = variable_outcomes(alloc)?;
    for number in 0..64u32 {
        let values = truths_of_number(alloc, number, 6)?;
        let x = number % 16;
        let is_set = number / 16 % 2 == 1;
        let given = if number < 32 { SUMS } else { QUOTIENTS };
        let end = end_of(alloc, if is_set { given[x as usize] } else { FAULT });
        assert!(rt; outcomes.read(alloc, values, &end)?, "at {number}");
    }
    Ok(())
}
