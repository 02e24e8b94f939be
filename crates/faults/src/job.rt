// What is run over a reader and a writer.
use crate::devices::{CutReader, CutWriter};
use crate::provider;
use audits::{AuditOrder, audit, judge_file};
use book::NoKeeper;
use items::{HashChoice, ProveOrder, RootOrder, prove, root};
use nodehash::GroupSize;
use play::play;
use questions::{Case, tells_of_memory};
use server::{ServeFault, serve};
use std::alloc::Global;
use std::fmt;
use std::io::BufReader;
use textio::{ProgramFault, StreamFault, next_line, read_some, write_text};

/// The reader of a run.
pub(crate) type Input<'a> = BufReader<CutReader<'a>>;

/// What is run.
#[derive(Drop)]
pub(crate) enum Job<'a> {
    /// Writes a text.
    Write(&'a [u8]),
    /// Tells the fault of a line of this number.
    Tell(u64),
    /// Reads to the end, at most so many bytes at once, and writes what was read.
    Read(usize),
    /// Reads lines to the end, and writes the first bytes of each.
    Lines,
    Root(RootOrder<'a>),
    Prove(ProveOrder<'a>),
    Audit(AuditOrder<'a>),
    Judge {
        signing_key: &'a str,
        file: &'a [u8],
    },
    /// Plays a script.
    Play,
    /// Serves a directory.
    Serve,
    /// Serves two sessions of one hub. The second one asks for the head, by devices that do not fail.
    Sessions,
}

/// Why a run stopped.
#[derive(Clone, Copy, Debug, PartialEq, Eq)]
pub(crate) enum Fault {
    Stream(StreamFault),
    Session(ServeFault),
    Program(ProgramFault),
}

impl fmt::Display for Fault {
    fn fmt<W: fmt::Write>(&self, f: &mut fmt::Formatter<W>) -> fmt::Result {
        match self {
            Fault::Stream(fault) => write!(f, "{fault}"),
            Fault::Session(fault) => write!(f, "{fault}"),
            Fault::Program(fault) => write!(f, "{fault}"),
        }
    }
}

/// How a run ended.
#[derive(Clone, Copy, Debug, PartialEq, Eq)]
pub(crate) struct Outcome {
    pub(crate) fault: Option<Fault>,
    /// The epoch that the next session was told, 0 for none.
    pub(crate) next: Option<u64>,
    /// Whether memory ran out where the run could go on, so that it tells nothing of the devices.
    pub(crate) is_spoiled: bool,
}

impl Outcome {
    /// Whether memory ran out.
    pub(crate) fn is_of_memory(self) -> bool {
        self.fault == Some(Fault::Program(ProgramFault::OutOfMemory))
            || self.fault == Some(Fault::Session(ServeFault::OutOfMemory))
            || self.fault == Some(Fault::Session(ServeFault::OutOfMemoryAndCannotWrite))
    }
}

/// A hash function and a nonce.
fn root_order<'a>(case: &mut Case<'a>) -> RootOrder<'a> {
    let hash = match case.word() {
        b"sum" => HashChoice::Sum,
        _ => HashChoice::Sha256,
    };
    RootOrder {
        hash,
        nonce: case.option_text(),
    }
}

impl<'a> Job<'a> {
    /// The job of a verb, with its arguments.
    pub(crate) fn read(verb: &[u8], case: &mut Case<'a>) -> Option<Self> {
        match verb {
            b"write" => Some(Job::Write(case.bytes())),
            b"tell" => Some(Job::Tell(case.number())),
            b"read" => Some(Job::Read(case.number_to(ROOM))),
            b"lines" => Some(Job::Lines),
            b"root" => Some(Job::Root(root_order(case))),
            b"prove" => Some(Job::Prove(ProveOrder {
                index: case.text(),
                root: root_order(case),
            })),
            b"audit" => Some(Job::Audit(AuditOrder {
                signing_key: case.text(),
            })),
            b"judge" => Some(Job::Judge {
                signing_key: case.text(),
                file: case.bytes(),
            }),
            b"play" => Some(Job::Play),
            b"serve" => Some(Job::Serve),
            b"sessions" => Some(Job::Sessions),
            _ => None,
        }
    }

    /// Whether its output is text.
    pub(crate) fn writes_text(&self) -> bool {
        !matches!(self, Job::Serve | Job::Sessions)
    }

    /// Runs it.
    pub(crate) fn run(
        &self,
        alloc: Global,
        reader: &mut Input<'_>,
        writer: &mut CutWriter,
    ) -> Outcome {
        match self {
            Job::Write(text) => streamed(write_text(writer, text)),
            Job::Tell(line) => ended(ProgramFault::IndexRepeated(*line).tell(writer)),
            Job::Read(most) => streamed(copy_bytes(*most, reader, writer)),
            Job::Lines => streamed(copy_lines(reader, writer)),
            Job::Root(order) => ended(root(alloc, *order, GroupSize::Four, reader, writer)),
            Job::Prove(order) => ended(prove(alloc, *order, GroupSize::Four, reader, writer)),
            Job::Audit(order) => ended(audit(alloc, *order, reader, writer)),
            Job::Judge { signing_key, file } => match judge_file(alloc, signing_key, file, writer) {
                Ok(_) => ended(Ok(())),
                Err(fault) => ended(Err(fault)),
            },
            Job::Play => ended(play(alloc, reader, writer)),
            // The reader itself, so that it shows how much is asked for at once.
            Job::Serve => serve_one(alloc, reader.get_mut(), writer),
            Job::Sessions => serve_two(alloc, reader.get_mut(), writer),
        }
    }
}

/// The most bytes that are read at once.
const ROOM: usize = 4096;

/// The first bytes of a line that are written.
const LINE: usize = 130;

/// The outcome of a run with this fault, if it has one.
fn stopped(fault: Option<Fault>) -> Outcome {
    Outcome {
        fault,
        next: None,
        is_spoiled: false,
    }
}

fn ended(done: Result<(), ProgramFault>) -> Outcome {
    match done {
        Ok(()) => stopped(None),
        Err(fault) => stopped(Some(Fault::Program(fault))),
    }
}

fn streamed(done: Result<(), StreamFault>) -> Outcome {
    match done {
        Ok(()) => stopped(None),
        Err(fault) => stopped(Some(Fault::Stream(fault))),
    }
}

fn served(done: Result<(), ServeFault>) -> Outcome {
    match done {
        Ok(()) => stopped(None),
        Err(fault) => stopped(Some(Fault::Session(fault))),
    }
}

fn copy_bytes(
    most: usize,
    reader: &mut Input<'_>,
    writer: &mut CutWriter,
) -> Result<(), StreamFault> {
    let mut room = [0; ROOM];
    let size = most.min(ROOM);
    for _ in 0..u64::MAX {
        let count = read_some(reader, &mut room[..size])?;
        if count == 0 {
            break;
        }
        write_text(writer, &room[..count])?;
    }
    Ok(())
}

fn copy_lines(reader: &mut Input<'_>, writer: &mut CutWriter) -> Result<(), StreamFault> {
    for _ in 0..u64::MAX {
        let Some(line) = next_line::<LINE, _>(reader)? else {
            break;
        };
        write_text(writer, line.bytes())?;
        write_text(writer, b"\n")?;
    }
    Ok(())
}

/// The one session that is open at a time.
const SESSION: u32 = 1;

/// Marks an outcome where a reply tells that the directory was out of memory, also one that was not written.
fn marked(outcome: Outcome, offered: &[u8]) -> Outcome {
    let mut marked = outcome;
    if tells_of_memory(offered) {
        marked.is_spoiled = true;
    }
    marked
}

fn serve_one(alloc: Global, reader: &mut CutReader<'_>, writer: &mut CutWriter) -> Outcome {
    let Ok(mut hub) = provider::hub(alloc, NoKeeper) else {
        return ended(Err(ProgramFault::OutOfMemory));
    };
    let outcome = served(serve(alloc, &mut hub, SESSION, reader, writer));
    marked(outcome, writer.offered())
}

/// A frame that asks for the head.
const HEAD: &[u8] = &[0, 0, 0, 1, 6];

/// Room for the reply.
const REPLY: usize = 512;

/// The epoch of the root that a frame tells, or 0.
fn told_epoch(frame: &[u8]) -> u64 {
    match frame.get(7..15) {
        Some(epoch) => match epoch.try_into() {
            Ok(bytes) => u64::from_be_bytes(bytes),
            Err(_) => 0,
        },
        None => 0,
    }
}

fn serve_two(alloc: Global, reader: &mut CutReader<'_>, writer: &mut CutWriter) -> Outcome {
    let lacking = ended(Err(ProgramFault::OutOfMemory));
    let Ok(mut hub) = provider::hub(alloc, NoKeeper) else {
        return lacking;
    };
    let Ok(mut reply) = Vec::with_capacity(alloc, REPLY) else {
        return lacking;
    };
    let first = serve(alloc, &mut hub, SESSION, reader, writer);
    let mut head = HEAD;
    let second = serve(alloc, &mut hub, SESSION, &mut head, &mut reply);
    let mut outcome = served(first);
    outcome.next = Some(told_epoch(&reply));
    if second == Err(ServeFault::OutOfMemory) && first != second {
        outcome.is_spoiled = true;
    }
    marked(outcome, writer.offered())
}
