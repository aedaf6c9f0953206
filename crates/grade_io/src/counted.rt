//! Readers and writers of the system, with a count of the calls that failed. Only here a fault is
//! counted for one of them, so nothing else can be told as one.
ghost use Rattle.std.specs.Prelude.{◌≡◌, ◌<◌, ◌≤◌, [], ◌∷◌, Ok, IfOk, IsErr, OnErr, length, take};
ghost use Rattle.std.specs.Io.KnownBytes.{Appends, Consumes, IsAtEnd, Keeps};
ghost use Rattle.grade_io.specs.Counting.{CallFaults, StallFaults, counted, faults_of, inner_of};
ghost use Rattle.grade_io.specs.Devices.{added};
ghost use Rattle.grade_io.specs.Plans.{one_more};
ghost use Rattle.grade_io.specs.Turns.{Tried};

use crate::plan::count_fault;
use crate::system::{Input, Output, Stall};
use std::io;

/// How often a read or a write is tried that a signal interrupts each time.
const TRIES: u32 = 1000;

/// A call of the system failed, and was counted.
#[derive(Clone, Copy, Debug, PartialEq, Eq)]
pub struct Fault;

/// A reader or a writer of the system, with a count of faults.
#[derive(Drop)]
pub struct Counted<T> {
    inner: T,
    faults: u64,
}

impl<T> Counted<T> {
    /// With the faults that were counted before.
    pub fn new(inner: T, faults: u64) -> Counted<T>
        ensures { result ≡ counted inner faults }
    {
        Counted { inner, faults }
    }

    /// What the system opened. Each error is a fault, also that there is no such file.
    pub(crate) fn opened(call: io::Result<T>, faults: &mut u64) -> Result<Counted<T>, Fault>
        ensures ok { IfOk call (λ inner. result ≡ Ok (counted inner faults.old)) }
        ensures failed { OnErr call (IsErr result) }
        ensures faults { CallFaults call faults.old faults.new }
        ensures later { faults.old ≤ faults.new }
    {
        match call {
            Ok(inner) => Ok(Counted::new(inner, *faults)),
            Err(_) => {
                count_fault(faults);
                Err(Fault)
            }
        }
    }

    /// How many faults were counted.
    pub fn faults(&self) -> u64
        ensures { result ≡ faults_of self.now }
    {
        self.faults
    }

    /// The reader or writer.
    pub fn inner(&self) -> &T
        ensures { result.now ≡ inner_of self.now }
    {
        &self.inner
    }

    /// Counts a fault, and nothing else.
    fn fail(&mut self) -> Fault
        ensures counted { self.new
            ≡ counted (inner_of self.old) (one_more (faults_of self.old)) }
        ensures later { faults_of self.old ≤ faults_of self.new }
    {
        count_fault(&mut self.faults);
        Fault
    }

    /// Counts a fault where a call failed.
    fn count<U>(&mut self, call: &Result<U, Stall>)
        ensures inner { inner_of self.new ≡ inner_of self.old }
        ensures faults { StallFaults call.now (faults_of self.old) (faults_of self.new) }
        ensures later { faults_of self.old ≤ faults_of self.new }
    {
        if let Err(Stall::Failed) = call {
            count_fault(&mut self.faults);
        }
    }
}

impl<F: Input> Counted<F> {
    /// One read, which is counted where it failed.
    fn read_once(&mut self, buf: &mut [u8]) -> Result<usize, Stall>
        ensures most { IfOk result (λ n. n ≤ length buf.new) }
        ensures ok { IfOk result (λ n. Consumes (F.remaining (inner_of self.old))
            (F.remaining (inner_of self.new)) (take n buf.new)) }
        ensures end { IfOk result (λ n. n ≡ 0 → 0 < length buf.old
            → IsAtEnd (F.remaining (inner_of self.new))) }
        ensures err { OnErr result (Keeps (F.remaining (inner_of self.old))
            (F.remaining (inner_of self.new))) }
        ensures turn { F.turns (inner_of self.new) ≡ added (F.turns (inner_of self.old))
            (result ∷ []) }
        ensures faults { StallFaults result (faults_of self.old) (faults_of self.new) }
    {
        let read = self.inner.read_once(buf);
        self.count(&read);
        read
    }

    /// Reads once, and again where a signal interrupted the read. One that failed isn't made again.
    pub(crate) fn read_some(&mut self, buf: &mut [u8]) -> Result<usize, Fault>
        ensures most { IfOk result (λ n. n ≤ length buf.new) }
        ensures ok { IfOk result (λ n. Consumes (F.remaining (inner_of self.old))
            (F.remaining (inner_of self.new)) (take n buf.new)) }
        ensures end { IfOk result (λ n. n ≡ 0 → 0 < length buf.old
            → IsAtEnd (F.remaining (inner_of self.new))) }
        ensures err { OnErr result (Keeps (F.remaining (inner_of self.old))
            (F.remaining (inner_of self.new))) }
        ensures calls { Tried result (F.turns (inner_of self.old)) (F.turns (inner_of self.new)) }
        ensures faults { CallFaults result (faults_of self.old) (faults_of self.new) }
    {
        for _tries in 0..TRIES {
            match self.read_once(buf) {
                Ok(count) => return Ok(count),
                Err(Stall::Failed) => return Err(Fault),
                Err(Stall::Interrupted) => {}
            }
        }
        Err(self.fail())
    }
}

impl<W: Output> Counted<W> {
    /// One write, which is counted where it failed. One that takes no byte failed.
    fn write_once(&mut self, piece: &[u8]) -> Result<usize, Stall>
        ensures most { IfOk result (λ n. n ≤ length piece.now) }
        ensures some { IfOk result (λ n. 0 < n) }
        ensures ok { IfOk result (λ n. Appends (W.contents (inner_of self.old))
            (W.contents (inner_of self.new)) (take n piece.now)) }
        ensures err { OnErr result (Keeps (W.contents (inner_of self.old))
            (W.contents (inner_of self.new))) }
        ensures turn { W.turns (inner_of self.new) ≡ added (W.turns (inner_of self.old))
            (result ∷ []) }
        ensures faults { StallFaults result (faults_of self.old) (faults_of self.new) }
        ensures later { faults_of self.old ≤ faults_of self.new }
    {
        let written = self.inner.write_once(piece);
        self.count(&written);
        written
    }

    /// Writes once, and again where a signal interrupted the write. One that failed isn't made
    /// again.
    pub(crate) fn write_some(&mut self, piece: &[u8]) -> Result<usize, Fault>
        ensures most { IfOk result (λ n. n ≤ length piece.now) }
        ensures some { IfOk result (λ n. 0 < n) }
        ensures ok { IfOk result (λ n. Appends (W.contents (inner_of self.old))
            (W.contents (inner_of self.new)) (take n piece.now)) }
        ensures err { OnErr result (Keeps (W.contents (inner_of self.old))
            (W.contents (inner_of self.new))) }
        ensures calls { Tried result (W.turns (inner_of self.old)) (W.turns (inner_of self.new)) }
        ensures faults { CallFaults result (faults_of self.old) (faults_of self.new) }
        ensures later { faults_of self.old ≤ faults_of self.new }
    {
        for _tries in 0..TRIES {
            match self.write_once(piece) {
                Ok(count) => return Ok(count),
                Err(Stall::Failed) => return Err(Fault),
                Err(Stall::Interrupted) => {}
            }
        }
        Err(self.fail())
    }
}
