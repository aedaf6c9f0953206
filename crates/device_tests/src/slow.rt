//! Files and pieces over a reader and a writer that move one byte a call, are interrupted, and
//! fail.
use grade_io::{Counted, FetchError, PutError, StoreError, put_piece, read_whole, write_whole};
use std::io;
use std::io::{ErrorKind, Read, Write};
use std::test::Fail;

/// One byte a call. Calls with an odd number, from 1, are interrupted, the call `fails` fails, and
/// behind `room` bytes nothing is moved.
#[derive(Drop)]
struct Slow {
    bytes: Vec<u8>,
    moved: usize,
    room: usize,
    number: u32,
    fails: u32,
}

impl Slow {
    /// Whether the next call moves a byte, or why it doesn't.
    fn turn(&mut self) -> io::Result<bool> {
        self.number = self.number.saturating_add(1);
        if self.number == self.fails {
            return Err(io::Error::from(ErrorKind::BrokenPipe));
        }
        if self.number % 2 == 1 {
            return Err(io::Error::from(ErrorKind::Interrupted));
        }
        Ok(self.moved < self.room)
    }
}

impl Read for Slow {
    fn read(&mut self, buf: &mut [u8]) -> io::Result<usize> {
        if !self.turn()? || buf.is_empty() || self.moved >= self.bytes.len() {
            return Ok(0);
        }
        buf[0] = self.bytes[self.moved];
        self.moved += 1;
        Ok(1)
    }
}

impl Write for Slow {
    fn write(&mut self, buf: &[u8]) -> io::Result<usize> {
        if !self.turn()? || buf.is_empty() {
            return Ok(0);
        }
        self.bytes.push(buf[0])?;
        self.moved = self.moved.saturating_add(1);
        Ok(1)
    }

    fn flush(&mut self) -> io::Result<()> {
        Ok(())
    }
}

/// With so much room, or so many bytes to read, and no fault so far.
fn counted(bytes: Vec<u8>, room: usize, fails: u32) -> Counted<Slow> {
    let file = Slow {
        bytes,
        moved: 0,
        room,
        number: 0,
        fails,
    };
    Counted::new(file, 0)
}

/// Each row: the limit, the call that fails (0: none), what is read of five bytes, and the number
/// of the last call. One that fails isn't made again.
#[test]
fn reads_one_byte_a_call(rt: HostRuntime) -> Result<(), Fail> {
    let alloc = rt.alloc();
    let rows: [(u64, u32, Result<&[u8], FetchError>, u32); 6] = [
        (5, 0, Ok(b"12345"), 12),
        (9, 0, Ok(b"12345"), 12),
        (4, 0, Err(FetchError::Long), 10),
        (5, 4, Err(FetchError::Failed), 4),
        (5, 12, Err(FetchError::Failed), 12),
        (5, 13, Ok(b"12345"), 12),
    ];
    for (most, fails, wanted, last) in rows {
        let mut file = counted(b"12345".to_vec(alloc)?, 5, fails);
        let read = read_whole(&mut file, alloc, most);
        let given = read.as_ref().map(|bytes| bytes.as_slice()).map_err(|e| *e);
        assert!(rt; given == wanted, "up to {most}, with call {fails} failing");
        assert_eq!(rt; file.inner().number, last, "with call {fails} failing");
        assert_eq!(rt; file.faults(), u64::from(wanted == Err(FetchError::Failed)));
    }
    Ok(())
}

/// Each row: the room, the call that fails (0: none), the answer, and what was written of five
/// bytes.
#[test]
fn writes_one_byte_a_call(rt: HostRuntime) -> Result<(), Fail> {
    let alloc = rt.alloc();
    let rows: [(usize, u32, Result<(), StoreError>, &[u8]); 4] = [
        (5, 0, Ok(()), b"12345"),
        (3, 0, Err(StoreError::Failed), b"123"),
        (5, 6, Err(StoreError::Failed), b"12"),
        (5, 11, Ok(()), b"12345"),
    ];
    for (room, fails, wanted, written) in rows {
        let mut file = counted(Vec::new(alloc), room, fails);
        assert_eq!(rt;
            write_whole(&mut file, b"12345"),
            wanted,
            "with call {fails} failing"
        );
        assert!(rt; file.inner().bytes.as_slice() == written);
        assert_eq!(rt; file.faults(), u64::from(wanted.is_err()));
    }
    Ok(())
}

/// Each row: the room, the call that fails (0: none), the piece, the answer, and the number of the
/// last call. One that fails isn't made again.
#[test]
fn puts_one_byte_a_call(rt: HostRuntime) -> Result<(), Fail> {
    let alloc = rt.alloc();
    let rows: [(usize, u32, &[u8], Result<usize, PutError>, u32); 4] = [
        (1, 0, b"123", Ok(1), 2),
        (0, 0, b"123", Err(PutError::Failed), 2),
        (1, 2, b"123", Err(PutError::Failed), 2),
        (0, 1, b"", Ok(0), 0),
    ];
    for (room, fails, piece, wanted, last) in rows {
        let mut out = counted(Vec::new(alloc), room, fails);
        assert_eq!(rt;
            put_piece(&mut out, piece),
            wanted,
            "with call {fails} failing"
        );
        assert_eq!(rt; out.inner().number, last, "with call {fails} failing");
    }
    Ok(())
}
