//! The formula of a graph and a goal.

ghost use Rattle.std.specs.Prelude.{◌≡◌, ◌≢◌, ◌+◌, ◌*◌, ◌<◌, ◌≤◌, All, [], ◌∷◌, ◌++◌, OnOk, IfOk};
ghost use Rattle.std.specs.Prelude.{length};
ghost use Rattle.bit_graph.specs.Gates.{IsBelow, IsGateAt, Owns, source_of};
ghost use Rattle.clause_base.specs.Formulas.{IsLedBy};
ghost use Rattle.cnf_build.specs.Gates.{IsEncoding, States, formula_of, gate_clauses, literal_of};
ghost use Rattle.cnf_build.specs.Gates.{literals};

use bit_graph::gate::{Gate, GraphBit, Source};
use bit_graph::graph::Graph;
use clause_base::NoMemory;
use clause_base::clause::Clause;
use clause_base::formula::{Clauses, Formula};
use clause_base::lit::Lit;
use clause_base::lits::Lits;
use std::alloc::{AllocError, Global};

/// Appends a clause of one literal.
fn push_one(alloc: Global, clauses: &mut Clauses, a: Lit) -> Result<(), NoMemory>
    ensures { OnOk result (literals clauses.new ≡ literals clauses.old ++ (a ∷ []) ∷ []) }
{
    let mut lits = Lits::new(alloc);
    lits.push(a)?;
    clauses.push(Clause::new(lits))?;
    Ok(())
}

/// Appends a clause of two literals.
fn push_two(alloc: Global, clauses: &mut Clauses, a: Lit, b: Lit) -> Result<(), NoMemory>
    requires { b.var ≢ a.var }
    ensures { OnOk result (literals clauses.new ≡ literals clauses.old ++ (a ∷ b ∷ []) ∷ []) }
{
    let mut lits = Lits::new(alloc);
    lits.push(a)?;
    lits.push(b)?;
    clauses.push(Clause::new(lits))?;
    Ok(())
}

/// Appends a clause of three literals.
fn push_three(alloc: Global, clauses: &mut Clauses, a: Lit, b: Lit, c: Lit) -> Result<(), NoMemory>
    requires second { b.var ≢ a.var }
    requires third { c.var ≢ a.var }
    requires last { c.var ≢ b.var }
    ensures { OnOk result (literals clauses.new ≡ literals clauses.old ++ (a ∷ b ∷ c ∷ []) ∷ []) }
{
    let mut lits = Lits::new(alloc);
    lits.push(a)?;
    lits.push(b)?;
    lits.push(c)?;
    clauses.push(Clause::new(lits))?;
    Ok(())
}

/// The literal of a bit.
fn literal(variables: u32, made: u32, bit: GraphBit) -> Lit
    requires below { IsBelow variables made (source_of bit) }
    requires room { made + (variables + 2) ≤ 2147483647 }
    ensures value { result ≡ literal_of variables bit }
    ensures under { result.var < made + (variables + 2) }
{
    let var = match bit.source() {
        Source::Constant => 1,
        Source::Variable(i) => i + 2,
        Source::Made(k) => k + (variables + 2),
    };
    Lit {
        var,
        positive: bit.is_positive(),
    }
}

/// Appends the clauses of a gate.
fn push_gate(
    alloc: Global,
    clauses: &mut Clauses,
    variables: u32,
    k: u32,
    gate: Gate,
) -> Result<(), NoMemory>
    requires room { k + (variables + 2) ≤ 2147483647 }
    requires gate { IsGateAt variables k gate }
    ensures { OnOk result
        (literals clauses.new ≡ literals clauses.old ++ gate_clauses variables k gate) }
{
    let var = k + (variables + 2);
    let left = literal(variables, k, gate.left);
    let right = literal(variables, k, gate.right);
    let no = Lit {
        var,
        positive: false,
    };
    let yes = Lit {
        var,
        positive: true,
    };
    push_two(alloc, clauses, no, left)?;
    push_two(alloc, clauses, no, right)?;
    push_three(alloc, clauses, yes, left.opposite(), right.opposite())?;
    Ok(())
}

/// The clauses of variable 1, of the gates in the order of making, and of the goal.
fn clauses_of(alloc: Global, g: &Graph, goal: GraphBit) -> Result<Clauses, NoMemory>
    requires owned { Owns g.now goal }
    requires room { length g.now.gates + (g.now.variables + 2) ≤ 2147483647 }
    ensures { IfOk result (λ clauses. literals clauses ≡ formula_of g.now goal) }
{
    let variables = g.variables();
    let count = g.gate_count();
    let made = count as u32;
    let mut clauses = Clauses::with_capacity(alloc, 3 * count + 2)?;
    let yes = Lit {
        var: 1,
        positive: true,
    };
    push_one(alloc, &mut clauses, yes)?;
    for k in 0..made {
        push_gate(alloc, &mut clauses, variables, k, g.gate(k as usize))?;
    }
    push_one(alloc, &mut clauses, literal(variables, made, goal))?;
    Ok(clauses)
}

/// The formula that exactly those values satisfy under which a goal reads true: of variable 1 as
/// true, of the graph's variables from 2 on, and of its gates in the order of making. The first
/// clause is that of variable 1, then come three for each gate, and the last is that of the goal.
/// A formula of more than 2147483647 variables or clauses is answered by want of memory.
pub fn to_formula(alloc: Global, g: &Graph, goal: GraphBit) -> Result<Formula, NoMemory>
    requires { Owns g.now goal }
    ensures clauses { IfOk result (λ f. literals f.clauses ≡ formula_of g.now goal) }
    ensures vars { IfOk result (λ f. f.vars ≡ g.now.variables + 1 + length g.now.gates) }
    ensures exact { IfOk result (λ f. IsEncoding g.now goal f.vars f.clauses) }
    ensures states { IfOk result (λ f. States g.now goal f.vars f.clauses) }
    ensures led { IfOk result (λ f. IsLedBy (g.now.variables + 1) f.vars f.clauses) }
    ensures size { IfOk result (λ f. length f.clauses ≡ 3 * length g.now.gates + 2) }
    ensures few { IfOk result (λ f. (f.vars ≤ 2147483647) × (length f.clauses ≤ 2147483647)) }
    ensures none_empty { IfOk result (λ f. All (λ lits. lits ≢ []) (literals f.clauses)) }
{
    let variables = g.variables();
    let count = g.gate_count();
    // three clauses a gate and two more are to be at most 2147483647
    if variables > 2147483645 || count > 715827881 || count > 2147483645 - variables as usize {
        return Err(AllocError);
    }
    let clauses = clauses_of(alloc, g, goal)?;
    Ok(Formula {
        vars: variables + 1 + count as u32,
        clauses,
    })
}
