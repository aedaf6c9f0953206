//! Reading a file to its end, writing one whole and putting a piece, over any reader and writer.
ghost use Rattle.std.specs.Prelude.{◌≡◌, ◌≢◌, ◌+◌, ◌<◌, ◌≤◌, ℕ, List, IsErrOf, IsOkAnd, Err};
ghost use Rattle.std.specs.Prelude.{IfErr, IfOk, IfSome, OnErr, OnOk, length, take, vec_len};
ghost use Rattle.std.specs.Io.KnownBytes.{Appends, Consumes, IsAtEnd, Keeps};
ghost use Rattle.grade_io.specs.Counting.{CallFaults, ReadFaults, faults_of, inner_of};
ghost use Rattle.grade_io.specs.Moves.{AppendsFront, TakesSo};
ghost use Rattle.grade_io.specs.Turns.{ReadsBy, Tried, WritesBy};

use crate::counted::Counted;
use crate::devices::{FetchError, PutError, StoreError};
use crate::system::{Input, Output};
use std::alloc::Global;

/// Reads to the end of the file, or one byte past `most`.
fn read_within<F: Input>(
    file: &mut Counted<F>,
    alloc: Global,
    most: u64,
) -> Result<Vec<u8>, FetchError>
    requires { most ≤ 1073741824 }
    ensures read { IfOk result (λ v. vec_len v ≤ most + 1) }
    ensures not_long { result ≢ Err FetchError.Long }
    // The bytes are those that the reader gave, and all that it had unless they are more than
    // `most`.
    ensures bytes { IfOk result (λ v. Consumes (F.remaining (inner_of file.old))
        (F.remaining (inner_of file.new)) v.items) }
    ensures whole { IfOk result (λ v. vec_len v ≤ most
        → IsAtEnd (F.remaining (inner_of file.new))) }
    ensures faults { ReadFaults result (faults_of file.old) (faults_of file.new) }
    ensures calls { ReadsBy result (F.turns (inner_of file.old)) (F.turns (inner_of file.new)) }
{
    let mut bytes = Vec::new(alloc);
    let mut buf = [0u8; 4096];
    'fill: while bytes.len() as u64 <= most {
        let room = most + 1 - bytes.len() as u64;
        let want = room.min(4096) as usize;
        let count = file.read_some(&mut buf[..want])?;
        if count == 0 {
            return Ok(bytes);
        }
        bytes.extend_from_slice(&buf[..count])?;
    }
    Ok(bytes)
}

/// Reads a file of at most `most` bytes to its end.
///
/// # Errors
///
/// `Failed` where a read failed, `Long` where the file goes on behind `most` bytes.
pub fn read_whole<F: Input>(
    file: &mut Counted<F>,
    alloc: Global,
    most: u64,
) -> Result<Vec<u8>, FetchError>
    requires { most ≤ 1073741824 }
    ensures short { IfOk result (λ v. vec_len v ≤ most) }
    // All that the reader had, or, exactly where that is more than `most`, one byte more than
    // `most`.
    ensures whole { IfOk result (λ v. IfSome (F.remaining (inner_of file.old))
        (λ all. v.items ≡ all)) }
    ensures end { OnOk result (IsAtEnd (F.remaining (inner_of file.new))) }
    ensures long { IsErrOf result FetchError.Long
        → IfSome (F.remaining (inner_of file.old)) (λ all. most < length all) }
    ensures taken { IsErrOf result FetchError.Long
        → TakesSo (F.remaining (inner_of file.old)) (F.remaining (inner_of file.new)) (most + 1) }
    // A read that failed is one fault, and nothing else is any. It is the last.
    ensures faults { ReadFaults result (faults_of file.old) (faults_of file.new) }
    ensures calls { ReadsBy result (F.turns (inner_of file.old)) (F.turns (inner_of file.new)) }
{
    let bytes = read_within(file, alloc, most)?;
    if bytes.len() as u64 > most {
        return Err(FetchError::Long);
    }
    Ok(bytes)
}

/// How many bytes were read for this answer of a reading up to `most` bytes. One that stopped at a
/// fault or for want of memory doesn't tell.
pub(crate) fn taken_of(read: &Result<Vec<u8>, FetchError>, most: u64) -> u64
    requires { most ≤ 1073741824 }
    ensures ok { IfOk read.now (λ v. result ≡ vec_len v) }
    ensures long { IsErrOf read.now FetchError.Long → result ≡ most + 1 }
{
    match read {
        Ok(bytes) => bytes.len() as u64,
        Err(_) => most + 1,
    }
}

/// Writes bytes from the front of the piece, and answers how many. A write of no byte is a fault.
///
/// # Errors
///
/// `Failed` where the write failed.
pub fn put_piece<W: Output>(out: &mut Counted<W>, piece: &[u8]) -> Result<usize, PutError>
    ensures most { IfOk result (λ n. n ≤ length piece.now) }
    ensures some { IfOk result (λ n. 0 < length piece.now → 0 < n) }
    ensures bytes { IfOk result (λ n. Appends (W.contents (inner_of out.old))
        (W.contents (inner_of out.new)) (take n piece.now)) }
    ensures kept { OnErr result (Keeps (W.contents (inner_of out.old))
        (W.contents (inner_of out.new))) }
    ensures empty { length piece.now ≡ 0 → IsOkAnd result (λ n. n ≡ 0) }
    ensures failed { IfErr result (λ e. e ≡ PutError.Failed) }
    // A write that failed is one fault, and isn't made again; an empty piece makes none.
    ensures faults { CallFaults result (faults_of out.old) (faults_of out.new) }
    ensures later { faults_of out.old ≤ faults_of out.new }
    ensures calls { 0 < length piece.now
        → Tried result (W.turns (inner_of out.old)) (W.turns (inner_of out.new)) }
    ensures no_call { length piece.now ≡ 0
        → W.turns (inner_of out.new) ≡ W.turns (inner_of out.old) }
{
    if piece.is_empty() {
        return Ok(0);
    }
    Ok(out.write_some(piece)?)
}

/// Writes all of the bytes. A write of no byte is a fault.
///
/// # Errors
///
/// `Failed` where a write failed.
pub fn write_whole<W: Output>(file: &mut Counted<W>, bytes: &[u8]) -> Result<(), StoreError>
    // All were appended where the answer is Ok, and else a front of them.
    ensures bytes { OnOk result (Appends (W.contents (inner_of file.old))
        (W.contents (inner_of file.new)) bytes.now) }
    ensures front { AppendsFront (W.contents (inner_of file.old))
        (W.contents (inner_of file.new)) bytes.now }
    ensures failed { IfErr result (λ e. e ≡ StoreError.Failed) }
    // A write that failed is one fault, and is the last.
    ensures faults { CallFaults result (faults_of file.old) (faults_of file.new) }
    ensures calls { WritesBy result (W.turns (inner_of file.old)) (W.turns (inner_of file.new)) }
{
    let mut done = 0;
    'write: while done < bytes.len() {
        done += file.write_some(&bytes[done..])?;
    }
    Ok(())
}
