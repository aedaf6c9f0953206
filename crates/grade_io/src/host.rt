//! The real files and the standard output. What they hold isn't told.
//!
//! What is said of a read or a write stands in `counted` and `whole`, over any reader and writer.
//! Here files are opened by the names that were given, their calls' answers are handed on, and
//! nothing is decided.
ghost use Rattle.std.specs.Prelude.{◌≡◌, None, false};
ghost use Rattle.grade_io.specs.Counting.{faults_of};

use crate::counted::Counted;
use crate::devices::{FetchError, PutError, Shelf, Sink, StoreError};
use crate::whole::{put_piece, read_whole, taken_of, write_whole};
use std::alloc::Global;
use std::io::Printer;
use std::rt::Files;
use std::{fs, io};

/// The real files, by their paths. Each error of the system raises the count of faults.
#[derive(Drop)]
pub struct HostShelf<'a, R> {
    rt: &'a R,
    faults: u64,
    taken: u64,
}

impl<'a, R: Files> HostShelf<'a, R> {
    /// The files of the runtime. No fault has been counted.
    pub fn new(rt: &'a R) -> HostShelf<'a, R>
        ensures { (⟦<HostShelf<'a, R> as Shelf>⟧.seen result).faults ≡ 0 }
    {
        HostShelf {
            rt,
            faults: 0,
            taken: 0,
        }
    }
}

impl<R: Files> Shelf for HostShelf<'_, R> {
    ghost seen = { λ s. record {
      holds = λ _. None;
      calls = None;
      faults = s.faults;
      taken = s.taken;
      plan = None;
      absent = λ _. false;
    } };

    fn fetch(&mut self, alloc: Global, name: &str, most: u64) -> Result<Vec<u8>, FetchError> {
        let mut file = Counted::opened(fs::open(self.rt, name), &mut self.faults)?;
        let fetched = read_whole(&mut file, alloc, most);
        self.faults = file.faults();
        self.taken = taken_of(&fetched, most);
        fetched
    }

    fn store(&mut self, name: &str, bytes: &Vec<u8>) -> Result<(), StoreError> {
        let mut file = Counted::opened(fs::create(self.rt, name), &mut self.faults)?;
        let stored = write_whole(&mut file, bytes);
        self.faults = file.faults();
        stored
    }
}

/// The standard output. Each error of the system raises the count of faults.
#[derive(Drop)]
pub struct HostSink<'a, R> {
    out: Counted<Printer<'a, R>>,
}

impl<'a, R: Print> HostSink<'a, R> {
    /// The standard output of the runtime. No fault has been counted.
    pub fn new(rt: &'a R) -> HostSink<'a, R>
        ensures { (⟦<HostSink<'a, R> as Sink>⟧.seen result).faults ≡ 0 }
    {
        HostSink {
            out: Counted::new(io::writer(rt), 0),
        }
    }
}

impl<R: Print> Sink for HostSink<'_, R> {
    ghost seen = { λ s. record {
      written = None;
      faults = faults_of s.out;
      plan = None;
      share = None;
    } };

    fn put(&mut self, piece: &[u8]) -> Result<usize, PutError> {
        put_piece(&mut self.out, piece)
    }
}
