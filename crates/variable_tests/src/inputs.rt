//! Inputs as variables, and the values that truth values spell.

ghost use Rattle.std.specs.Prelude.{◌≡◌, IfOk, map};
ghost use Rattle.bit_words.specs.Logic.{Extends, OwnsAll};
ghost use Rattle.input_space.specs.Inputs.{param_type};
ghost use Rattle.input_space.specs.ValueBits.{all_bits_for};
ghost use Rattle.sym_values.specs.Forms.{form_for, forms_of, values_bits};

use bit_graph::gate::GraphBit;
use bit_graph::graph::Graph;
use bit_words::NoMemory;
use bit_words::logic::Logic;
use bounds_reader::{Bounds, read_bounds};
use clause_base::truths;
use input_bits::{Ranged, decode_values, fresh_values, ranged_value};
use input_space::{Case, in_bounds, signature};
use mpy_tree::{Limits, Ty, Value, Values};
use std::alloc::Global;
use std::test::Fail;
use sym_values::SymValues;
use test_bits::{Truths, bytes_of, truths_of_number};

/// Bounds of one function, and how many truth values of the bits of an input spell values.
const BOUNDS: [(&str, u32); 10] = [
    // Numbers: all, some, and one alone.
    (
        "width 3\nturns 1\ndepth 1\ncap 1\nentry f\nparam n int -4..3\n",
        8,
    ),
    (
        "width 4\nturns 1\ndepth 1\ncap 1\nentry f\nparam n int 3..5\n",
        16,
    ),
    (
        "width 3\nturns 1\ndepth 1\ncap 1\nentry f\nparam n int -3..-3\n",
        8,
    ),
    // With a truth value.
    (
        "width 3\nturns 1\ndepth 1\ncap 1\nentry f\nparam b bool\nparam n int 1..2\n",
        16,
    ),
    // Lists of 5 bits of length and 1 or 2 numbers of 3 bits: 2 and 3 lengths of 32 are right.
    (
        "width 3\nturns 1\ndepth 1\ncap 1\nentry f\nparam v list 0..1 of -4..3\n",
        16,
    ),
    (
        "width 3\nturns 1\ndepth 1\ncap 2\nentry f\nparam v list 1..2 of 2..3\n",
        192,
    ),
    (
        "width 3\nturns 1\ndepth 1\ncap 2\nentry f\nparam v list 0..0 of 0..1\n",
        192,
    ),
    // Texts: 128 with the length 0, and as many characters from 32 to 126 with the length 1.
    (
        "width 3\nturns 1\ndepth 1\ncap 1\nentry f\nparam s text 0..1 of 'ab'\n",
        223,
    ),
    (
        "width 3\nturns 1\ndepth 1\ncap 1\nentry f\nparam s text 1..1 of ' 9~'\n",
        223,
    ),
    // Several.
    (
        "width 3\nturns 1\ndepth 1\ncap 1\nentry f\nparam b bool\nparam v list 0..1 of 0..1\n\
         param n int -2..1\n",
        256,
    ),
];

/// How many bits values of these types have.
fn bits_of(alloc: Global, limits: &Limits, types: &[Ty]) -> Result<u32, NoMemory>
    ensures { IfOk result (λ n. n ≡ all_bits_for limits.now types.now) }
{
    let mut g = Graph::new(alloc)?;
    let _values = fresh_values(alloc, &mut g, limits, types)?;
    Ok(g.variables())
}

/// The values of these types that truth values spell.
fn decoded(
    alloc: Global,
    limits: &Limits,
    types: &[Ty],
    values: Vec<bool>,
) -> Result<Option<Values>, NoMemory> {
    let values = truths::Truths::from_vec(values);
    let bits = bits_of(alloc, limits, types)?;
    if bits > 1000 || values.len() != bits as usize {
        return Ok(None);
    }
    let found = decode_values(alloc, limits, types, &values, 0)?;
    Ok(found)
}

/// Values with what the ranges of the parameters fix.
fn ranged_values<L: Logic>(
    alloc: Global,
    g: &mut L,
    bounds: &Bounds,
    values: &SymValues<L::Bit>,
) -> Result<Vec<Ranged<L::Bit>>, NoMemory>
    requires owned { OwnsAll L.owns g.old (values_bits values.now) }
    requires forms { forms_of values.now
        ≡ map (form_for bounds.now.limits) (map param_type bounds.now.params) }
    ensures { Extends L.owns L.reads L.count g.old g.new }
{
    let params = bounds.params.items();
    let mut all = Vec::new(alloc);
    for i in 0..params.len() {
        let ranged = ranged_value(alloc, g, &bounds.limits, &params[i], values.at(i))?;
        all.push(ranged)?;
    }
    Ok(all)
}

/// An input as variables, with what the ranges of its parameters fix.
#[derive(Drop)]
struct InputBits {
    graph: Graph,
    values: SymValues<GraphBit>,
    ranged: Vec<Ranged<GraphBit>>,
}

impl InputBits {
    /// Those of an input within bounds.
    fn of(alloc: Global, bounds: &Bounds) -> Result<InputBits, NoMemory> {
        let mut graph = Graph::new(alloc)?;
        let signature = signature(alloc, bounds)?;
        let types = signature.params.items();
        let values = fresh_values(alloc, &mut graph, &bounds.limits, types)?;
        let ranged = ranged_values(alloc, &mut graph, bounds, &values)?;
        Ok(InputBits {
            graph,
            values,
            ranged,
        })
    }

    /// Whether each value is in its range.
    fn are_within(&self, truths: &Truths) -> bool {
        self.ranged.iter().all(|ranged| truths.of(ranged.within))
    }

    /// Whether the variables read as values.
    fn all_read(
        &self,
        alloc: Global,
        truths: &Truths,
        limits: &Limits,
        values: &[Value],
    ) -> Result<bool, NoMemory> {
        for i in 0..self.values.len().min(values.len()) {
            let value = &values[i];
            if !truths.read_value(alloc, &self.graph, limits, self.values.at(i), value)? {
                return Ok(false);
            }
        }
        Ok(self.values.len() == values.len())
    }

    /// Whether under truth values that spell this, or nothing, the variables read as it, and the
    /// bits of the ranges tell whether it is within the bounds.
    fn are_right(
        &self,
        alloc: Global,
        bounds: &Bounds,
        truths: &Truths,
        found: Option<&Case>,
    ) -> Result<bool, NoMemory> {
        let within = self.are_within(truths);
        match found {
            None => Ok(!within),
            Some(case) => {
                let read = self.all_read(alloc, truths, &bounds.limits, case.values.items())?;
                Ok(read && within == in_bounds(bounds, case))
            }
        }
    }
}

/// Whether the digits of a number spell values, if all is right under them.
fn number_spells(
    alloc: Global,
    bounds: &Bounds,
    types: &[Ty],
    input: &InputBits,
    number: u32,
) -> Result<Option<bool>, NoMemory> {
    let width = input.graph.variables() as usize;
    let digits = truths_of_number(alloc, number, width)?;
    let found = decoded(alloc, &bounds.limits, types, digits)?;
    let case = found.map(|values| Case { values });
    let values = truths_of_number(alloc, number, width)?;
    let truths = Truths::under(alloc, &input.graph, values)?;
    let right = input.are_right(alloc, bounds, &truths, case.as_ref())?;
    Ok(right.then_some(case.is_some()))
}

/// How many truth values of inputs of at most 12 bits spell values, if all is right.
fn spelled_count(alloc: Global, bounds: &Bounds) -> Result<Option<u32>, NoMemory> {
    let signature = signature(alloc, bounds)?;
    let types = signature.params.items();
    let input = InputBits::of(alloc, bounds)?;
    let mut count = 0u32;
    for number in 0..1u32 << input.graph.variables().min(12) {
        match number_spells(alloc, bounds, types, &input, number)? {
            None => return Ok(None),
            Some(spells) => count = count.wrapping_add(spells as u32),
        }
    }
    Ok(Some(count))
}

/// How many do within bounds of a text.
fn count_of(alloc: Global, text: &'static str) -> Result<Option<u32>, Fail> {
    let bounds = read_bounds(alloc, bytes_of(text))?;
    let count = spelled_count(alloc, &bounds)?;
    Ok(count)
}

/// Under truth values of the bits of an input, `decode_values` gives the values that they spell, if
/// they do, and the bits of the ranges tell whether these are within the bounds.
#[test]
fn inputs_read_as_spelled(rt: HostRuntime) -> Result<(), Fail> {
    let alloc = rt.alloc();
    for (text, wanted) in &BOUNDS {
        let count = count_of(alloc, *text)?;
        assert!(rt; count == Some(*wanted), "{text}");
    }
    Ok(())
}
