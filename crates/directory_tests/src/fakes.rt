//! Readers and writers that do little at a time, have little room, and fail when they are told to.

ghost use Rattle.std.specs.Prelude.{Some};

use std::alloc::Global;
use std::io::{self, Read, Write};

/// Gives some bytes at a time. Once it was read so many times, a read fails; the next one is well again.
#[derive(Drop)]
pub(crate) struct SparseReader<'a> {
    /// What is still to be given.
    pub(crate) rest: &'a [u8],
    /// How many bytes a read gives at most; at least one comes.
    pub(crate) most: usize,
    /// How many reads are well before one that fails.
    pub(crate) reads: u64,
}

impl Read for SparseReader<'_> {
    ghost remaining = { λ reader. Some reader.rest.now };

    fn read(&mut self, buf: &mut [u8]) -> io::Result<usize> {
        if self.reads == 0 {
            self.reads = u64::MAX;
            return Err(io::Error::from(io::ErrorKind::Interrupted));
        }
        self.reads -= 1;
        let most = usize::min(usize::max(self.most, 1), buf.len());
        self.rest.read(&mut buf[..most])
    }
}

/// How a writer refuses.
#[derive(Clone, Copy)]
pub(crate) enum Refusal {
    /// It fails.
    Fails,
    /// It takes no byte, and says so.
    TakesNothing,
}

/// Takes some bytes at a time and keeps them. Once it was written to so many times, it refuses a write, and takes the next one.
#[derive(Drop)]
pub(crate) struct SparseWriter {
    /// What it took.
    pub(crate) taken: Vec<u8>,
    /// How many bytes a write takes at most.
    pub(crate) most: usize,
    /// How many writes are well before one that is refused.
    pub(crate) writes: u64,
    /// How that is refused.
    pub(crate) refusal: Refusal,
}

impl SparseWriter {
    /// Takes all that comes.
    pub(crate) fn willing(alloc: Global) -> SparseWriter {
        SparseWriter {
            taken: Vec::new(alloc),
            most: usize::MAX,
            writes: u64::MAX,
            refusal: Refusal::Fails,
        }
    }
}

impl Write for SparseWriter {
    ghost contents = { λ writer. Some writer.taken.items };

    fn write(&mut self, buf: &[u8]) -> io::Result<usize> {
        if self.writes == 0 {
            self.writes = u64::MAX;
            return match self.refusal {
                Refusal::Fails => Err(io::Error::from(io::ErrorKind::Interrupted)),
                Refusal::TakesNothing => Ok(0),
            };
        }
        self.writes -= 1;
        let count = usize::min(self.most, buf.len());
        self.taken.extend_from_slice(&buf[..count])?;
        Ok(count)
    }

    fn flush(&mut self) -> io::Result<()> {
        Ok(())
    }
}

/// How many bytes a remark has, with its line feed.
const REMARK: usize = 8192;

/// Gives so many bytes of remarks, of which it holds one.
#[derive(Drop)]
pub(crate) struct Remarks {
    remark: [u8; REMARK],
    /// How many more bytes there are.
    pub(crate) left: u64,
}

impl Remarks {
    pub(crate) fn of(left: u64) -> Remarks {
        let mut remark = [b' '; REMARK];
        remark[0] = b';';
        remark[REMARK - 1] = b'\n';
        Remarks { remark, left }
    }
}

impl Read for Remarks {
    // One remark at most, and less at the end.
    fn read(&mut self, buf: &mut [u8]) -> io::Result<usize> {
        let room = usize::min(buf.len(), REMARK);
        let given = u64::min(self.left, room as u64);
        let count = given as usize;
        buf[..count].copy_from_slice(&self.remark[..count]);
        self.left -= given;
        Ok(count)
    }
}

/// Counts the bytes that it takes.
#[derive(Drop)]
pub(crate) struct Counter {
    pub(crate) taken: u64,
}

impl Write for Counter {
    fn write(&mut self, buf: &[u8]) -> io::Result<usize> {
        self.taken = self.taken.saturating_add(buf.len() as u64);
        Ok(buf.len())
    }

    fn flush(&mut self) -> io::Result<()> {
        Ok(())
    }
}

/// Gives nothing: each read fails.
#[derive(Drop)]
pub(crate) struct BrokenReader;

impl Read for BrokenReader {
    fn read(&mut self, _buf: &mut [u8]) -> io::Result<usize> {
        Err(io::Error::from(io::ErrorKind::Other))
    }
}

/// Keeps so many bytes; a write behind them fails.
#[derive(Drop)]
pub(crate) struct NarrowWriter {
    /// What it took.
    pub(crate) taken: Vec<u8>,
    room: usize,
}

impl NarrowWriter {
    pub(crate) fn new(alloc: Global, room: usize) -> NarrowWriter {
        let taken = Vec::new(alloc);
        NarrowWriter { taken, room }
    }
}

impl Write for NarrowWriter {
    fn write(&mut self, buf: &[u8]) -> io::Result<usize> {
        if self.room == 0 {
            return Err(io::Error::from(io::ErrorKind::Other));
        }
        let count = usize::min(self.room, buf.len());
        self.taken.extend_from_slice(&buf[..count])?;
        self.room -= count;
        Ok(count)
    }

    fn flush(&mut self) -> io::Result<()> {
        Ok(())
    }
}
