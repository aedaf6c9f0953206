//! How a run ends.
ghost use Rattle.std.specs.Prelude.{◌≡◌, ◌↔◌, IsTrue, IfOk};
ghost use Rattle.mpy_tree.specs.Outcomes.{fault_text, is_done, told};

use crate::NoMemory;
use crate::value::{Value, Values};

/// What goes wrong in a run.
#[derive(Clone, Copy, PartialEq, Eq, Debug, Drop)]
pub enum FaultKind {
    /// A number outside the width.
    Overflow,
    /// A division by 0.
    Divisor,
    /// An index outside a list or a text.
    Index,
    /// A local that isn't set.
    Unset,
    /// A loop makes more turns than it may.
    Turns,
    /// A call goes deeper than it may.
    Depth,
    /// A list or a text becomes longer than it may.
    Length,
    /// A negative exponent.
    Power,
    /// A `range` with the step 0.
    Step,
    /// A function ends without a value.
    NoValue,
}

impl FaultKind {
    /// The kind as it prints: its name.
    pub fn name(self) -> &'static str
        ensures { result.now ≡ fault_text self }
    {
        match self {
            FaultKind::Overflow => "Overflow",
            FaultKind::Divisor => "Divisor",
            FaultKind::Index => "Index",
            FaultKind::Unset => "Unset",
            FaultKind::Turns => "Turns",
            FaultKind::Depth => "Depth",
            FaultKind::Length => "Length",
            FaultKind::Power => "Power",
            FaultKind::Step => "Step",
            FaultKind::NoValue => "NoValue",
        }
    }
}

/// Why an operation has no value.
#[derive(Clone, Copy, PartialEq, Eq, Debug, Drop)]
pub enum Halt {
    /// One of the ten faults.
    Fault(FaultKind),
    /// Operands that the operator doesn't take, or a call that no function takes. No typed program
    /// comes there.
    Stuck,
}

impl Halt {
    /// The kind of fault that is told: a run that is stuck is told as one that reads what isn't
    /// set.
    pub fn told(self) -> FaultKind
        ensures { result ≡ told self }
    {
        match self {
            Halt::Fault(kind) => kind,
            Halt::Stuck => FaultKind::Unset,
        }
    }
}

/// Why an evaluation has no value, with the line of the innermost statement that was executed.
#[derive(Clone, Copy, PartialEq, Eq, Debug, Drop)]
pub struct Halted {
    pub halt: Halt,
    pub line: u32,
}

/// How a run ends: with a value, or where printed values are kept perhaps without one, and with the
/// printed values that were kept; or with a fault and its line.
#[derive(Drop)]
pub enum Outcome {
    Done {
        value: Option<Value>,
        printed: Values,
    },
    Fault {
        kind: FaultKind,
        line: u32,
    },
}

impl Outcome {
    /// Whether the run ends without a fault.
    pub fn is_done(&self) -> bool
        ensures { result ≡ is_done self.now }
    {
        match self {
            Outcome::Done { .. } => true,
            Outcome::Fault { .. } => false,
        }
    }

    /// Whether two runs end alike: with the same value or both without one, and the same printed
    /// values; or with the same fault on the same line.
    pub fn is(&self, other: &Outcome) -> bool
        ensures { IsTrue result ↔ (self.now ≡ other.now) }
    {
        match (self, other) {
            (
                Outcome::Done { value, printed },
                Outcome::Done {
                    value: v,
                    printed: p,
                },
            ) => { is_same(value, v) && printed.is(p) }
            (Outcome::Fault { kind, line }, Outcome::Fault { kind: k, line: l }) => {
                *kind == *k && *line == *l
            }
            _ => false,
        }
    }

    /// An equal end.
    pub fn copy(&self) -> Result<Outcome, NoMemory>
        ensures { IfOk result (λ o. o ≡ self.now) }
    {
        match self {
            Outcome::Done { value, printed } => Ok(Outcome::Done {
                value: copy_value(value)?,
                printed: printed.copy()?,
            }),
            Outcome::Fault { kind, line } => Ok(Outcome::Fault {
                kind: *kind,
                line: *line,
            }),
        }
    }
}

// Whether two values, each of which may be missing, are one.
fn is_same(a: &Option<Value>, b: &Option<Value>) -> bool
    ensures { IsTrue result ↔ (a.now ≡ b.now) }
{
    match (a, b) {
        (None, None) => true,
        (Some(v), Some(w)) => v.is(w),
        _ => false,
    }
}

// An equal value, if there is one.
fn copy_value(v: &Option<Value>) -> Result<Option<Value>, NoMemory>
    ensures { IfOk result (λ c. c ≡ v.now) }
{
    match v {
        None => Ok(None),
        Some(v) => Ok(Some(v.copy()?)),
    }
}
