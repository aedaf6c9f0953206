//! Devices in memory that never fail.
ghost use Rattle.std.specs.Prelude.{◌≡◌, ℕ, List, [], Some, None, OnOk, OnErr, false};
ghost use Rattle.grade_io.specs.Files.{text_at};
ghost use Rattle.grade_io.specs.Kept.{OthersKept};

use crate::devices::{FetchError, NoMemory, PutError, Shelf, Sink, StoreError};
use crate::files;
use crate::files::Texts;
use std::alloc::Global;
use std::collections::BTreeMap;

/// A shelf whose count of faults is the constant 0. It tells its files but not its calls, and an
/// absent name holds the empty text.
#[derive(Drop)]
pub struct SureShelf {
    texts: Texts,
    taken: u64,
    alloc: Global,
}

impl SureShelf {
    ghost use Rattle.grade_io.specs.declared.sure.SureShelf.{SureShelf};

    /// A shelf on which every name holds the empty text.
    pub fn new(alloc: Global) -> SureShelf
        ensures files { (name : List ℕ)
            → (⟦<SureShelf as Shelf>⟧.seen result).holds name ≡ Some [] }
        ensures sure { (shelf : SureShelf) → (⟦<SureShelf as Shelf>⟧.seen shelf).faults ≡ 0 }
    {
        SureShelf {
            texts: BTreeMap::new(alloc),
            taken: 0,
            alloc,
        }
    }

    /// Makes the name hold these bytes.
    pub fn add(&mut self, name: &str, bytes: &[u8]) -> Result<(), NoMemory>
        ensures file { OnOk result ((⟦<SureShelf as Shelf>⟧.seen self.new).holds name.now
            ≡ Some bytes.now) }
        ensures others { OthersKept name.now
            (⟦<SureShelf as Shelf>⟧.seen self.old) (⟦<SureShelf as Shelf>⟧.seen self.new) }
        ensures err { OnErr result ((other : List ℕ)
            → (⟦<SureShelf as Shelf>⟧.seen self.new).holds other
            ≡ (⟦<SureShelf as Shelf>⟧.seen self.old).holds other) }
        // Nothing but the files changes.
        ensures rest { ⟦<SureShelf as Shelf>⟧.seen self.new
            ≡ record (⟦<SureShelf as Shelf>⟧.seen self.old) {
              holds =
                  (⟦<SureShelf as Shelf>⟧.seen self.new).holds;
            } }
    {
        files::replace(self.alloc, &mut self.texts, name, bytes)
    }
}

impl Shelf for SureShelf {
    ghost seen = { λ s. record {
      holds = λ name. Some (text_at s.texts name);
      calls = None;
      faults = 0;
      taken = s.taken;
      plan = None;
      absent = λ _. false;
    } };

    fn fetch(&mut self, alloc: Global, name: &str, most: u64) -> Result<Vec<u8>, FetchError> {
        let Some(text) = self.texts.get(name) else {
            self.taken = 0;
            return Ok(Vec::new(alloc));
        };
        if text.len() as u64 > most {
            self.taken = most + 1;
            return Err(FetchError::Long);
        }
        self.taken = text.len() as u64;
        Ok(text.as_slice().to_vec(alloc)?)
    }

    fn store(&mut self, name: &str, bytes: &Vec<u8>) -> Result<(), StoreError> {
        files::replace(self.alloc, &mut self.texts, name, bytes)?;
        Ok(())
    }
}

/// A sink whose count of faults is the constant 0, and which takes each piece whole.
#[derive(Drop)]
pub struct SureSink {
    bytes: Vec<u8>,
}

impl SureSink {
    ghost use Rattle.grade_io.specs.declared.sure.SureSink.{SureSink};

    /// A sink to which nothing was written, and which takes each piece whole.
    pub fn new(alloc: Global) -> SureSink
        ensures written { (⟦<SureSink as Sink>⟧.seen result).written ≡ Some [] }
        ensures whole { (⟦<SureSink as Sink>⟧.seen result).share ≡ Some (λ n. n) }
        ensures sure { (sink : SureSink) → (⟦<SureSink as Sink>⟧.seen sink).faults ≡ 0 }
    {
        SureSink {
            bytes: Vec::new(alloc),
        }
    }

    /// The bytes that were written.
    pub fn bytes(&self) -> &[u8]
        ensures { (⟦<SureSink as Sink>⟧.seen self.now).written ≡ Some result.now }
    {
        self.bytes.as_slice()
    }
}

impl Sink for SureSink {
    ghost seen = { λ s. record {
      written = Some s.bytes.items;
      faults = 0;
      plan = None;
      share = Some (λ n. n);
    } };

    fn put(&mut self, piece: &[u8]) -> Result<usize, PutError> {
        if piece.is_empty() {
            return Ok(0);
        }
        self.bytes.extend_from_slice(piece)?;
        Ok(piece.len())
    }
}
