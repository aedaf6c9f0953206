//! What the outcomes over a graph read as.

use bit_graph::gate::{GraphBit, Source};
use bit_graph::graph::Graph;
use bit_words::NoMemory;
use mpy_tree::{Limits, Outcome, Value};
use std::alloc::Global;
use sym_values::constant::constant_value;
use sym_values::printed::{kind_of, print_width, value_within};
use sym_values::{PrintSlot, SymDone, SymOutcome, SymValue};

/// The truth values of a graph's variables, and those of its gates that follow.
#[derive(Drop)]
pub struct Truths {
    variables: Vec<bool>,
    gates: Vec<bool>,
}

impl Truths {
    /// Those under which the variables, the first one first, have these truth values.
    pub fn under(alloc: Global, g: &Graph, variables: Vec<bool>) -> Result<Truths, NoMemory> {
        let mut truths = Truths {
            variables,
            gates: Vec::new(alloc),
        };
        for k in 0..g.gate_count() {
            let gate = g.gate(k);
            let both = truths.of(gate.left) && truths.of(gate.right);
            truths.gates.push(both)?;
        }
        Ok(truths)
    }

    /// The truth value of a bit.
    pub fn of(&self, bit: GraphBit) -> bool {
        let source = match bit.source() {
            Source::Constant => Some(true),
            Source::Variable(i) => self.variables.get(i as usize).copied(),
            Source::Made(k) => self.gates.get(k as usize).copied(),
        };
        source == Some(bit.is_positive())
    }

    /// Whether a value as bits reads as a value.
    pub fn read_value(
        &self,
        alloc: Global,
        g: &Graph,
        limits: &Limits,
        shown: &SymValue<GraphBit>,
        value: &Value,
    ) -> Result<bool, NoMemory> {
        if !value.fits(limits) {
            return Ok(false);
        }
        let wanted = constant_value(alloc, g, limits, value)?;
        let items = items_count(value);
        let wanted = shown_bits(alloc, &wanted, items)?;
        let shown = shown_bits(alloc, shown, items)?;
        Ok(self.are_alike(&wanted, &shown))
    }

    /// Whether an outcome reads as the end of a run.
    pub fn read(
        &self,
        alloc: Global,
        g: &Graph,
        limits: &Limits,
        outcome: &SymOutcome<GraphBit>,
        end: &Outcome,
    ) -> Result<bool, NoMemory> {
        let fault = self.of(outcome.fault);
        match end {
            Outcome::Fault { .. } => Ok(fault),
            Outcome::Done { value, .. } => match value {
                Some(value) if !fault => self.read_value(alloc, g, limits, &outcome.value, value),
                _ => Ok(false),
            },
        }
    }

    /// Whether the end of a run as bits reads as that end.
    pub fn read_done(
        &self,
        alloc: Global,
        g: &Graph,
        limits: &Limits,
        done: &SymDone<GraphBit>,
        end: &Outcome,
    ) -> Result<bool, NoMemory> {
        let fault = self.of(done.fault);
        match end {
            Outcome::Fault { .. } => Ok(fault),
            Outcome::Done { value, printed } => {
                let given = self.read_result(alloc, g, limits, done, value)?;
                let kept = self.read_printed(alloc, g, limits, done, printed.items())?;
                Ok(!fault && given && kept)
            }
        }
    }

    // Whether a run ends with the value, or without one.
    fn read_result(
        &self,
        alloc: Global,
        g: &Graph,
        limits: &Limits,
        done: &SymDone<GraphBit>,
        value: &Option<Value>,
    ) -> Result<bool, NoMemory> {
        let has = self.of(done.has);
        match (&done.value, value) {
            (_, None) => Ok(!has),
            (None, Some(_)) => Ok(false),
            (Some(shown), Some(value)) => {
                Ok(has && self.read_value(alloc, g, limits, shown, value)?)
            }
        }
    }

    // Whether these values were printed.
    fn read_printed(
        &self,
        alloc: Global,
        g: &Graph,
        limits: &Limits,
        done: &SymDone<GraphBit>,
        printed: &[Value],
    ) -> Result<bool, NoMemory> {
        if self.number(done.len.as_slice()) as usize != printed.len() {
            return Ok(false);
        }
        for i in 0..printed.len() {
            if i >= done.slots.len() {
                return Ok(false);
            }
            let slot = done.slots.at(i);
            if !self.read_slot(alloc, g, limits, slot, &printed[i])? {
                return Ok(false);
            }
        }
        Ok(true)
    }

    // Whether a printed value as bits reads as a value.
    fn read_slot(
        &self,
        alloc: Global,
        g: &Graph,
        limits: &Limits,
        slot: &PrintSlot<GraphBit>,
        value: &Value,
    ) -> Result<bool, NoMemory> {
        let bits = slot.bits.as_slice();
        if bits.len().saturating_add(2) < print_width(limits) {
            return Ok(false);
        }
        let ty = value.ty();
        let shown = value_within(alloc, limits, ty, bits)?;
        let is = self.number(slot.kind.as_slice()) == kind_of(ty);
        Ok(is && self.read_value(alloc, g, limits, &shown, value)?)
    }

    // The number that bits read as, without a sign.
    fn number(&self, bits: &[GraphBit]) -> u32 {
        let mut number = 0u32;
        for bit in bits.iter().rev() {
            let last = u32::from(self.of(*bit));
            number = number.wrapping_mul(2).wrapping_add(last);
        }
        number
    }

    // Whether two lists of bits have the same truth values.
    fn are_alike(&self, some: &[GraphBit], others: &[GraphBit]) -> bool {
        some.len() == others.len()
            && some
                .iter()
                .zip(others.iter())
                .all(|(a, b)| self.of(*a) == self.of(*b))
    }
}

/// How many elements or characters a value has.
fn items_count(value: &Value) -> usize {
    match value {
        Value::Int(_) | Value::Bool(_) => 0,
        Value::List(numbers) => numbers.len(),
        Value::Text(characters) => characters.len(),
    }
}

/// The bits of a value: of a list or a text those of its length and of so many items.
pub(crate) fn shown_bits<B: Copy>(
    alloc: Global,
    value: &SymValue<B>,
    items: usize,
) -> Result<Vec<B>, NoMemory> {
    let mut bits = Vec::new(alloc);
    match value {
        SymValue::Int(word) => push_all(&mut bits, word.as_slice())?,
        SymValue::Bool(bit) => bits.push(*bit)?,
        SymValue::List { len, items: words } | SymValue::Text { len, items: words } => {
            push_all(&mut bits, len.as_slice())?;
            for i in 0..words.len().min(items) {
                push_all(&mut bits, words.at(i).as_slice())?;
            }
        }
    }
    Ok(bits)
}

fn push_all<B: Copy>(bits: &mut Vec<B>, more: &[B]) -> Result<(), NoMemory> {
    for bit in more {
        bits.push(*bit)?;
    }
    Ok(())
}
