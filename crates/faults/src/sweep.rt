// The runs of a sweep.
use crate::devices::{CutReader, CutWriter, Failing};
use crate::job::{Input, Job, Outcome};
use crate::row::{counted, tell};
use questions::Case;
use std::alloc::{AllocError, Global};
use std::fmt;
use std::io::{BufReader, ErrorKind};

/// How the devices of a sweep fail.
#[derive(Clone, Copy, Debug)]
struct Devices<'a> {
    input: &'a [u8],
    /// The most bytes of a read and of a write.
    piece: usize,
    /// The calls of the reader that fail, and those of the writer.
    reads: u64,
    writes: u64,
    kind: Option<ErrorKind>,
}

/// The devices of a word, of pieces of so many bytes and an input.
fn read_devices<'a>(case: &mut Case<'a>) -> Devices<'a> {
    let (reads, writes, kind) = match case.word() {
        b"never" => (0, 0, None),
        b"read-fails" => (1, 0, Some(ErrorKind::ConnectionReset)),
        b"read-interrupted" => (1, 0, Some(ErrorKind::Interrupted)),
        b"read-interrupted-twice" => (2, 0, Some(ErrorKind::Interrupted)),
        b"write-fails" => (0, 1, Some(ErrorKind::BrokenPipe)),
        b"write-takes-nothing" => (0, 1, None),
        b"write-interrupted" => (0, 1, Some(ErrorKind::Interrupted)),
        b"write-interrupted-twice" => (0, 2, Some(ErrorKind::Interrupted)),
        _ => {
            case.spoil();
            (0, 0, None)
        }
    };
    Devices {
        piece: case.number_to(MOST),
        input: case.bytes(),
        reads,
        writes,
        kind,
    }
}

/// The most bytes of a read and of a write: more than is read or written at once.
const MOST: usize = 8192;

/// Room for the longest output.
const ROOM: usize = 1 << 20;

/// How a run ended, and what was written.
#[derive(Clone, Copy, Debug, PartialEq, Eq)]
struct Ending {
    outcome: Outcome,
    /// How many bytes were written, where they are a beginning of the whole output.
    written: Option<usize>,
}

impl fmt::Display for Ending {
    fn fmt<W: fmt::Write>(&self, f: &mut fmt::Formatter<W>) -> fmt::Result {
        match self.outcome.fault {
            Some(fault) => write!(f, "{fault}")?,
            None => write!(f, "ok")?,
        }
        match self.written {
            Some(count) => write!(f, " {count}")?,
            None => write!(f, " other")?,
        }
        if let Some(epoch) = self.outcome.next {
            write!(f, " next {epoch}")?;
        }
        Ok(())
    }
}

/// Runs the job once. The first failing call of its devices is this one. Tells whether that call was made.
fn run(
    alloc: Global,
    job: &Job<'_>,
    devices: Devices<'_>,
    first: u64,
    writer: &mut CutWriter,
) -> Result<(Outcome, bool), AllocError> {
    let failing = |count: u64| Failing {
        first,
        count,
        kind: devices.kind,
    };
    writer.begin(devices.piece, failing(devices.writes));
    let reader = CutReader::new(devices.input, devices.piece, failing(devices.reads));
    let Ok(mut reader) = BufReader::with_capacity(alloc, devices.piece, reader) else {
        return Err(AllocError);
    };
    let outcome = job.run(alloc, &mut reader, writer);
    Ok((
        outcome,
        reader.get_ref().has_failed() || writer.has_failed(),
    ))
}

/// Whether a run lacked memory and tells no more: what was written is a beginning of the whole output, and
/// the next session was served.
fn is_lacking(ending: &Ending) -> bool {
    let outcome = ending.outcome;
    let is_told = outcome.is_of_memory() && ending.written.is_some() && outcome.next != Some(0);
    is_told || outcome.is_spoiled
}

/// How many bytes were written, where they are a beginning of the whole output.
fn beginning(whole: &[u8], written: &[u8]) -> Option<usize> {
    if whole.starts_with(written) {
        Some(written.len())
    } else {
        None
    }
}

/// Runs the job without a failure, and tells its output.
fn whole_output(
    case: &mut Case<'_>,
    job: &Job<'_>,
    devices: Devices<'_>,
    writer: &mut CutWriter,
) -> Result<Vec<u8>, AllocError> {
    let (outcome, _) = run(case.alloc(), job, devices, u64::MAX, writer)?;
    if outcome.is_of_memory() || outcome.is_spoiled {
        return Err(AllocError);
    }
    if job.writes_text() {
        case.say_text(writer.taken());
    } else {
        case.say_bytes(writer.taken());
    }
    Vec::from_slice(case.alloc(), writer.taken())
}

/// Runs the job again and again, with each call of its devices failing in turn, and tells how the runs end.
fn sweep_calls(case: &mut Case<'_>, job: &Job<'_>, devices: Devices<'_>) -> Result<(), AllocError> {
    let mut writer = CutWriter::new(case.alloc(), ROOM)?;
    let whole = whole_output(case, job, devices, &mut writer)?;
    let mut row = None;
    for first in 0..u64::MAX {
        let (outcome, has_failed) = run(case.alloc(), job, devices, first, &mut writer)?;
        let ending = Ending {
            outcome,
            written: beginning(&whole, writer.taken()),
        };
        if is_lacking(&ending) {
            return Err(AllocError);
        }
        row = Some(counted(case, row, ending));
        if !has_failed {
            break;
        }
    }
    tell(case, row);
    Ok(())
}

/// Sweeps over the devices of the next words.
pub(crate) fn sweep(case: &mut Case<'_>, job: &Job<'_>) {
    let devices = read_devices(case);
    if sweep_calls(case, job, devices).is_err() {
        case.lack_memory();
    }
}
