// The devices that fail. Their calls are counted from 0. Contracts know nothing of what they give or take,
// as of a device.
ghost use Rattle.std.specs.Prelude.{◌≡◌, IfOk, IfSome, ⊤};

use book::{KeepFailed, Keeper, Record};
use std::alloc::{AllocError, Global};
use std::io::{self, ErrorKind, Read, Write};

/// The calls of a device that fail: so many from the first one on.
#[derive(Clone, Copy, Debug)]
pub(crate) struct Failing {
    pub(crate) first: u64,
    pub(crate) count: u64,
    /// The error, or none where the call moves no byte.
    pub(crate) kind: Option<ErrorKind>,
}

/// Counts the calls of a device.
#[derive(Clone, Copy, Debug)]
struct Calls {
    made: u64,
    failing: Failing,
}

impl Calls {
    fn new(failing: Failing) -> Self {
        Calls { made: 0, failing }
    }

    /// How the next call fails, if it does.
    fn next(&mut self) -> Option<io::Result<usize>>
        ensures { IfSome result (λ failed. IfOk failed (λ count. count ≡ 0)) }
    {
        let call = self.made;
        self.made = call.saturating_add(1);
        let after_first = call.checked_sub(self.failing.first)?;
        if after_first >= self.failing.count {
            return None;
        }
        match self.failing.kind {
            Some(kind) => Some(Err(io::Error::from(kind))),
            None => Some(Ok(0)),
        }
    }

    /// Whether a call failed.
    fn have_failed(&self) -> bool {
        self.failing.count > 0 && self.made > self.failing.first
    }
}

/// Gives bytes in pieces.
#[derive(Drop)]
pub(crate) struct CutReader<'a> {
    rest: &'a [u8],
    piece: usize,
    calls: Calls,
}

impl<'a> CutReader<'a> {
    /// Gives these bytes, at most so many a call.
    pub(crate) fn new(bytes: &'a [u8], piece: usize, failing: Failing) -> Self {
        CutReader {
            rest: bytes,
            piece,
            calls: Calls::new(failing),
        }
    }

    /// Whether a read failed.
    pub(crate) fn has_failed(&self) -> bool {
        self.calls.have_failed()
    }
}

impl Read for CutReader<'_> {
    fn read(&mut self, buf: &mut [u8]) -> io::Result<usize> {
        if let Some(failed) = self.calls.next() {
            return failed;
        }
        let count = buf.len().min(self.piece);
        self.rest.read(&mut buf[..count])
    }
}

/// Takes bytes in pieces, into room that it has from the start.
#[derive(Drop)]
pub(crate) struct CutWriter {
    /// The bytes that were taken, and behind them those that the last call failed to write.
    offered: Vec<u8>,
    taken: usize,
    piece: usize,
    calls: Calls,
}

impl CutWriter {
    /// Has room for so many bytes.
    pub(crate) fn new(alloc: Global, room: usize) -> Result<Self, AllocError> {
        Ok(CutWriter {
            offered: Vec::with_capacity(alloc, room)?,
            taken: 0,
            piece: 0,
            calls: Calls::new(Failing {
                first: 0,
                count: 0,
                kind: None,
            }),
        })
    }

    /// Begins anew, and takes at most so many bytes a call.
    pub(crate) fn begin(&mut self, piece: usize, failing: Failing) {
        self.offered.clear();
        self.taken = 0;
        self.piece = piece;
        self.calls = Calls::new(failing);
    }

    /// The bytes that were taken.
    pub(crate) fn taken(&self) -> &[u8] {
        match self.offered.get(..self.taken) {
            Some(taken) => taken,
            None => &[],
        }
    }

    /// The same, and the bytes that the last call failed to write.
    pub(crate) fn offered(&self) -> &[u8] {
        self.offered.as_slice()
    }

    /// Whether a write failed.
    pub(crate) fn has_failed(&self) -> bool {
        self.calls.have_failed()
    }
}

impl Write for CutWriter {
    fn write(&mut self, buf: &[u8]) -> io::Result<usize> {
        self.offered.truncate(self.taken);
        if let Some(failed) = self.calls.next() {
            self.offered.extend_from_slice(buf)?;
            return failed;
        }
        let count = buf.len().min(self.piece);
        self.offered.extend_from_slice(&buf[..count])?;
        self.taken = self.offered.len();
        Ok(count)
    }

    fn flush(&mut self) -> io::Result<()> {
        Ok(())
    }
}

/// Keeps nothing, and fails at one call.
#[derive(Drop)]
pub(crate) struct LossyKeeper {
    made: u64,
    failing: u64,
}

impl LossyKeeper {
    /// Fails at the call of this number, and never at `None`.
    pub(crate) fn new(failing: Option<u64>) -> Self {
        LossyKeeper {
            made: 0,
            failing: failing.unwrap_or(u64::MAX),
        }
    }
}

impl Keeper for LossyKeeper {
    ghost kept = { λ before what after. ⊤ };

    ghost failed = { λ before what after. ⊤ };

    fn keep(&mut self, _what: &Record) -> Result<(), KeepFailed> {
        let call = self.made;
        self.made = call.saturating_add(1);
        if call == self.failing {
            return Err(KeepFailed);
        }
        Ok(())
    }
}
