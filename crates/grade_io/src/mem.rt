//! Devices in memory that fail at calls that are chosen beforehand.
ghost use Rattle.std.specs.Prelude.{◌≡◌, ◌≢◌, ◌≤◌, ℕ, List, [], Some, IsTrue, IsFalse, OnOk, OnErr};
ghost use Rattle.std.specs.Prelude.{map, min, not};
ghost use Rattle.std.specs.Option.{is_none};
ghost use Rattle.std.specs.BTreeMap.{get_by_text};
ghost use Rattle.grade_io.specs.Files.{text_at};
ghost use Rattle.grade_io.specs.Calls.{call_of};
ghost use Rattle.grade_io.specs.Kept.{OthersKept};
ghost use Rattle.grade_io.specs.PlansInCode.{plan_of};

use crate::calls::MadeCall;
use crate::devices::{FetchError, NoMemory, PutError, Shelf, Sink, StoreError};
use crate::files;
use crate::files::Texts;
use crate::plan::{CallPlan, count_fault, next_fails};
use std::alloc::Global;
use std::collections::BTreeMap;

/// A shelf that tells its files, its calls and its plan. Fetches and stores are numbered together
/// from 1; those whose numbers stand in `fails`, and fetches of an absent name, fail.
#[derive(Drop)]
pub struct MemShelf {
    texts: Texts,
    made: Vec<MadeCall>,
    plan: CallPlan,
    faults: u64,
    taken: u64,
    alloc: Global,
}

impl MemShelf {
    /// A shelf with no file, of which nothing was asked yet. An absent name tells the empty text.
    pub fn new(alloc: Global, fails: Vec<u64>) -> MemShelf
        ensures files { (name : List ℕ) → (⟦<MemShelf as Shelf>⟧.seen result).holds name ≡ Some [] }
        ensures absent { (name : List ℕ)
            → IsTrue ((⟦<MemShelf as Shelf>⟧.seen result).absent name) }
        ensures calls { (⟦<MemShelf as Shelf>⟧.seen result).calls ≡ Some [] }
        ensures faults { (⟦<MemShelf as Shelf>⟧.seen result).faults ≡ 0 }
        ensures plan { (⟦<MemShelf as Shelf>⟧.seen result).plan
            ≡ Some (record { fails = fails.items; number = 0 }) }
    {
        MemShelf {
            texts: BTreeMap::new(alloc),
            made: Vec::new(alloc),
            plan: CallPlan { fails, number: 0 },
            faults: 0,
            taken: 0,
            alloc,
        }
    }

    /// Makes the name hold these bytes. This is no call of the shelf, so it has no number.
    pub fn add(&mut self, name: &str, bytes: &[u8]) -> Result<(), NoMemory>
        ensures file { OnOk result ((⟦<MemShelf as Shelf>⟧.seen self.new).holds name.now
            ≡ Some bytes.now) }
        ensures present { OnOk result
            (IsFalse ((⟦<MemShelf as Shelf>⟧.seen self.new).absent name.now)) }
        ensures others { OthersKept name.now
            (⟦<MemShelf as Shelf>⟧.seen self.old) (⟦<MemShelf as Shelf>⟧.seen self.new) }
        ensures err { OnErr result ((other : List ℕ)
            → (⟦<MemShelf as Shelf>⟧.seen self.new).holds other
            ≡ (⟦<MemShelf as Shelf>⟧.seen self.old).holds other) }
        // Nothing but the files changes.
        ensures rest { ⟦<MemShelf as Shelf>⟧.seen self.new
            ≡ record (⟦<MemShelf as Shelf>⟧.seen self.old) {
              holds = (⟦<MemShelf as Shelf>⟧.seen self.new).holds;
              absent = (⟦<MemShelf as Shelf>⟧.seen self.new).absent;
            } }
    {
        files::replace(self.alloc, &mut self.texts, name, bytes)
    }
}

impl Shelf for MemShelf {
    ghost seen = { λ s. record {
      holds = λ name. Some (text_at s.texts name);
      calls = Some (map call_of s.made.items);
      faults = s.faults;
      taken = s.taken;
      plan = Some (plan_of s.plan);
      absent = λ name. is_none (get_by_text s.texts name);
    } };

    fn fetch(&mut self, alloc: Global, name: &str, most: u64) -> Result<Vec<u8>, FetchError> {
        let is_to_fail = next_fails(&mut self.plan);
        let call = MadeCall::Fetch(String::from_str(self.alloc, name)?);
        self.made.push(call)?;
        if is_to_fail {
            count_fault(&mut self.faults);
            return Err(FetchError::Failed);
        }
        let Some(text) = self.texts.get(name) else {
            count_fault(&mut self.faults);
            return Err(FetchError::Failed);
        };
        if text.len() as u64 > most {
            self.taken = most + 1;
            return Err(FetchError::Long);
        }
        self.taken = text.len() as u64;
        Ok(text.as_slice().to_vec(alloc)?)
    }

    fn store(&mut self, name: &str, bytes: &Vec<u8>) -> Result<(), StoreError> {
        let is_to_fail = next_fails(&mut self.plan);
        let call = MadeCall::Store(String::from_str(self.alloc, name)?);
        self.made.push(call)?;
        if is_to_fail {
            count_fault(&mut self.faults);
            return Err(StoreError::Failed);
        }
        files::replace(self.alloc, &mut self.texts, name, bytes)?;
        Ok(())
    }
}

/// A sink that tells its bytes and its plan, and takes at most `most` bytes a put. Puts of pieces
/// that aren't empty are numbered from 1, and those whose numbers stand in `fails` fail.
#[derive(Drop)]
pub struct MemSink {
    bytes: Vec<u8>,
    plan: CallPlan,
    most: usize,
    faults: u64,
    ghost takes_some: { 1 ≤ most },
}

impl MemSink {
    /// A sink to which nothing was written, and which takes at least one byte a put.
    pub fn new(alloc: Global, most: usize, fails: Vec<u64>) -> MemSink
        requires { 1 ≤ most }
        ensures written { (⟦<MemSink as Sink>⟧.seen result).written ≡ Some [] }
        ensures faults { (⟦<MemSink as Sink>⟧.seen result).faults ≡ 0 }
        ensures plan { (⟦<MemSink as Sink>⟧.seen result).plan
            ≡ Some (record { fails = fails.items; number = 0 }) }
        ensures share { (⟦<MemSink as Sink>⟧.seen result).share ≡ Some (min most) }
    {
        MemSink {
            bytes: Vec::new(alloc),
            plan: CallPlan { fails, number: 0 },
            most,
            faults: 0,
        }
    }

    /// The bytes that were written.
    pub fn bytes(&self) -> &[u8]
        ensures { (⟦<MemSink as Sink>⟧.seen self.now).written ≡ Some result.now }
    {
        self.bytes.as_slice()
    }
}

impl Sink for MemSink {
    ghost seen = { λ s. record {
      written = Some s.bytes.items;
      faults = s.faults;
      plan = Some (plan_of s.plan);
      share = Some (min s.most);
    } };

    fn put(&mut self, piece: &[u8]) -> Result<usize, PutError> {
        if piece.is_empty() {
            return Ok(0);
        }
        if next_fails(&mut self.plan) {
            count_fault(&mut self.faults);
            return Err(PutError::Failed);
        }
        let taken = self.most.min(piece.len());
        self.bytes.extend_from_slice(&piece[..taken])?;
        Ok(taken)
    }
}
