//! What a shelf of files and a sink of bytes promise.
ghost use Rattle.std.specs.Prelude.{◌≡◌, ◌≢◌, ◌⊎◌, ◌+◌, ◌<◌, ◌≤◌, ℕ, List, Some, IfOk, IfSome};
ghost use Rattle.std.specs.Prelude.{IsOkAnd};
ghost use Rattle.std.specs.Prelude.{OnOk, OnErr, IsErrOf, IsTrue, IsFalse, length, vec_len, take};
ghost use Rattle.grade_io.specs.declared.devices.FetchError.TheVariants as fetch_error;
ghost use Rattle.grade_io.specs.declared.devices.StoreError.TheVariants as store_error;
ghost use Rattle.grade_io.specs.declared.devices.PutError.TheVariants as put_error;
ghost use Rattle.std.specs.Option.{option_map};
ghost use Rattle.grade_io.specs.Devices.{ShelfState, SinkState, Fetch, Store, FetchCalls};
ghost use Rattle.grade_io.specs.Devices.{StoreCalls};
ghost use Rattle.grade_io.specs.Faults.{FetchFails, FetchFaults, PutFails, PutFaults, StoreFails};
ghost use Rattle.grade_io.specs.Faults.{StoreFaults};
ghost use Rattle.grade_io.specs.Plans.{IsToFail, after_call};
ghost use Rattle.grade_io.specs.Kept.{FilesLeft, OthersKept};
ghost use Rattle.grade_io.specs.Written.{Wrote, WroteNothing};

use crate::counted::Fault;
use std::alloc::{AllocError, AllocFailed, Global};

/// Want of memory, where a call has no other refusal.
pub type NoMemory = AllocError;

/// Why a file wasn't fetched.
#[derive(Clone, Copy, Debug, PartialEq, Eq)]
pub enum FetchError {
    /// The device failed. A missing file is such a fault.
    Failed,
    /// The file is longer than was allowed.
    Long,
    /// Memory lacked.
    NoMemory,
}

/// Why a file wasn't stored. What its name holds is then open.
#[derive(Clone, Copy, Debug, PartialEq, Eq)]
pub enum StoreError {
    /// The device failed.
    Failed,
    /// Memory lacked.
    NoMemory,
}

/// Why no byte was taken.
#[derive(Clone, Copy, Debug, PartialEq, Eq)]
pub enum PutError {
    /// The device failed.
    Failed,
    /// Memory lacked.
    NoMemory,
}

impl From<Fault> for FetchError {
    ghost from_gives = { λ _ e. e ≡ fetch_error.Failed };

    fn from(_fault: Fault) -> FetchError {
        FetchError::Failed
    }
}

impl From<AllocError> for FetchError {
    ghost from_gives = { λ _ e. e ≡ fetch_error.NoMemory };

    fn from(_error: AllocError) -> FetchError {
        FetchError::NoMemory
    }
}

impl<T: Drop> From<AllocFailed<T>> for FetchError {
    ghost from_gives = { λ _ e. e ≡ fetch_error.NoMemory };

    fn from(_error: AllocFailed<T>) -> FetchError {
        FetchError::NoMemory
    }
}

impl From<Fault> for StoreError {
    ghost from_gives = { λ _ e. e ≡ store_error.Failed };

    fn from(_fault: Fault) -> StoreError {
        StoreError::Failed
    }
}

impl From<AllocError> for StoreError {
    ghost from_gives = { λ _ e. e ≡ store_error.NoMemory };

    fn from(_error: AllocError) -> StoreError {
        StoreError::NoMemory
    }
}

impl<T: Drop> From<AllocFailed<T>> for StoreError {
    ghost from_gives = { λ _ e. e ≡ store_error.NoMemory };

    fn from(_error: AllocFailed<T>) -> StoreError {
        StoreError::NoMemory
    }
}

impl From<Fault> for PutError {
    ghost from_gives = { λ _ e. e ≡ put_error.Failed };

    fn from(_fault: Fault) -> PutError {
        PutError::Failed
    }
}

impl From<AllocError> for PutError {
    ghost from_gives = { λ _ e. e ≡ put_error.NoMemory };

    fn from(_error: AllocError) -> PutError {
        PutError::NoMemory
    }
}

/// Files by their names. `seen` is what is known of them.
pub trait Shelf {
    ghost seen: { Self → ShelfState };

    /// Reads a whole file of at most `most` bytes.
    ///
    /// # Errors
    ///
    /// `Failed` where the device failed, `Long` where the file is longer than `most`.
    fn fetch(&mut self, alloc: Global, name: &str, most: u64) -> Result<Vec<u8>, FetchError>
        requires { most ≤ 1073741824 }
        // Files stay as they are, and the call is added to the list.
        ensures files { (seen self.new).holds ≡ (seen self.old).holds }
        ensures absent { (seen self.new).absent ≡ (seen self.old).absent }
        ensures calls { FetchCalls result (Fetch name.now) (seen self.old).calls
            (seen self.new).calls }

        // The count never falls. It rose where the answer is `Failed`, and else it is as it was.
        ensures later { (seen self.old).faults ≤ (seen self.new).faults }
        ensures faults { FetchFaults result (seen self.old).faults (seen self.new).faults }

        // Where the plan is told, exactly the calls that it names fail, and those of an absent
        // name.
        ensures fails { IfSome (seen self.old).plan
            (λ p. FetchFails result (IsToFail p ⊎ IsTrue ((seen self.old).absent name.now))) }
        ensures plan { (seen self.new).plan ≡ option_map after_call (seen self.old).plan }

        // The file as it is told.
        ensures short { IfOk result (λ v. vec_len v ≤ most) }
        ensures whole { IfOk result (λ v. (file : List ℕ)
            → (seen self.old).holds name.now ≡ Some file → v.items ≡ file) }

        // `Long` comes only where one byte more was taken and the file is longer. By `short`,
        // `whole` and `faults` nothing else comes there, unless the count rose or memory lacked.
        ensures taken { IfOk result (λ v. (seen self.new).taken ≡ vec_len v) }
        ensures taken_long { IsErrOf result FetchError.Long → (seen self.new).taken ≡ most + 1 }
        ensures long { IsErrOf result FetchError.Long → (file : List ℕ)
            → (seen self.old).holds name.now ≡ Some file → most < length file };

    /// Makes the name hold these bytes. Other names keep theirs, whatever the answer.
    ///
    /// # Errors
    ///
    /// `Failed` where the device failed. After an error what the name holds is open, but that a
    /// call that failed by the shelf's plan left it.
    fn store(&mut self, name: &str, bytes: &Vec<u8>) -> Result<(), StoreError>
        ensures stored { OnOk result ((seen self.new).holds name.now
            ≡ option_map (λ _. bytes.now.items) ((seen self.old).holds name.now)) }
        ensures present { OnOk result (IsFalse ((seen self.new).absent name.now)) }
        ensures others { OthersKept name.now (seen self.old) (seen self.new) }
        ensures calls { StoreCalls result (Store name.now) (seen self.old).calls
            (seen self.new).calls }

        // The count never falls. It rose where the answer is `Failed`, and else it is as it was.
        ensures later { (seen self.old).faults ≤ (seen self.new).faults }
        ensures faults { StoreFaults result (seen self.old).faults (seen self.new).faults }

        // Where the plan is told, exactly the calls that it names fail, and they change no file.
        ensures fails { IfSome (seen self.old).plan (λ p. StoreFails result (IsToFail p)) }
        ensures plan { (seen self.new).plan ≡ option_map after_call (seen self.old).plan }
        ensures left { IfSome (seen self.old).plan
            (λ _. IsErrOf result StoreError.Failed → FilesLeft (seen self.old) (seen self.new)) };
}

/// Where the report goes. `seen` is what is known of it.
pub trait Sink {
    ghost seen: { Self → SinkState };

    /// Takes bytes from the front of the piece, at least one where there is one, and answers how
    /// many.
    ///
    /// # Errors
    ///
    /// `Failed` where the device failed. After an error nothing was taken.
    fn put(&mut self, piece: &[u8]) -> Result<usize, PutError>
        ensures most { IfOk result (λ n. n ≤ length piece.now) }
        ensures some { IfOk result (λ n. 0 < length piece.now → 0 < n) }
        ensures written { IfOk result
            (λ n. Wrote (seen self.old) (seen self.new) (take n piece.now)) }
        ensures kept { OnErr result (WroteNothing (seen self.old) (seen self.new)) }
        ensures empty { length piece.now ≡ 0 → IsOkAnd result (λ n. n ≡ 0) }

        // How much is taken, where that is told.
        ensures share { IfSome (seen self.old).share (λ f. IfOk result (λ n. n
            ≡ f (length piece.now))) }
        ensures same_share { (seen self.new).share ≡ (seen self.old).share }

        // The count never falls. It rose where the answer is `Failed`, and else it is as it was.
        ensures later { (seen self.old).faults ≤ (seen self.new).faults }
        ensures faults { PutFaults result (seen self.old).faults (seen self.new).faults }

        // Where the plan is told, exactly the puts that it names fail. An empty piece is none of
        // them.
        ensures fails { 0 < length piece.now
            → IfSome (seen self.old).plan (λ p. PutFails result (IsToFail p)) }
        ensures plan { 0 < length piece.now
            → (seen self.new).plan ≡ option_map after_call (seen self.old).plan }
        ensures no_call { length piece.now ≡ 0 → (seen self.new).plan ≡ (seen self.old).plan };
}
