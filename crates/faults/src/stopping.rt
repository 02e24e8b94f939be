// A journal stops where its writer fails, and what is there is opened.
use crate::devices::{CutWriter, Failing};
use crate::keeping::ask_directory;
use crate::provider::{self, Provided};
use crate::row::{counted, tell};
use book::{Keeper, NoKeeper};
use commands::Command;
use journal::{Journal, Refusal};
use questions::{Case, read_commands};
use std::alloc::{AllocError, Global};
use std::fmt;
use std::io::{self, ErrorKind, Write};

/// A directory's run, and what is asked of it then.
#[derive(Clone, Copy, Debug)]
struct Story<'a> {
    /// The most bytes of a write.
    piece: usize,
    run: &'a [Command<'a>],
    asked: &'a [Command<'a>],
}

/// What a stopped run left.
#[derive(Clone, Copy, Debug, PartialEq, Eq)]
enum Left {
    /// No directory.
    Nothing,
    /// The directory after so many commands.
    After(usize),
    /// No beginning of the run.
    Other,
}

impl fmt::Display for Left {
    fn fmt<W: fmt::Write>(&self, f: &mut fmt::Formatter<W>) -> fmt::Result {
        match *self {
            Left::Nothing => write!(f, "nothing"),
            Left::After(count) => write!(f, "after {count}"),
            Left::Other => write!(f, "other"),
        }
    }
}

/// A writer that is read once the journal is gone.
#[derive(Drop)]
struct Lent<'a> {
    writer: &'a mut CutWriter,
}

impl Write for Lent<'_> {
    fn write(&mut self, buf: &[u8]) -> io::Result<usize> {
        self.writer.write(buf)
    }

    fn flush(&mut self) -> io::Result<()> {
        Ok(())
    }
}

/// Runs a new directory whose journal's writer fails at this call, and works again then.
fn stopped(
    alloc: Global,
    story: Story<'_>,
    failing: u64,
    writer: &mut CutWriter,
) -> Result<Provided, AllocError> {
    let failing = Failing {
        first: failing,
        count: 1,
        kind: Some(ErrorKind::BrokenPipe),
    };
    writer.begin(story.piece, failing);
    let mut directory = provider::directory(alloc)?;
    let mut journal = Journal::new(Lent { writer });
    let _kept = journal.keep(&provider::start());
    let mut replies = Vec::new(alloc);
    ask_directory(&mut directory, &mut journal, story.run, &mut replies)?;
    Ok(directory)
}

/// What a directory answers.
fn answers(
    alloc: Global,
    directory: Provided,
    commands: &[Command<'_>],
) -> Result<Vec<u8>, AllocError> {
    let mut directory = directory;
    let mut output = Vec::new(alloc);
    ask_directory(&mut directory, &mut NoKeeper, commands, &mut output)?;
    Ok(output)
}

/// What directories answer that did the first commands of the run: none of them, one, and so on.
fn beginnings(alloc: Global, story: Story<'_>) -> Result<Vec<Vec<u8>>, AllocError> {
    let mut beginnings = Vec::new(alloc);
    for count in 0..=story.run.len() {
        let mut directory = provider::directory(alloc)?;
        let mut replies = Vec::new(alloc);
        ask_directory(
            &mut directory,
            &mut NoKeeper,
            story.run.split_at(count).0,
            &mut replies,
        )?;
        beginnings.push(answers(alloc, directory, story.asked)?)?;
    }
    Ok(beginnings)
}

/// Opens what is written. The directory has to answer as the stopped one, and as one after a beginning of
/// the run.
fn opened(
    alloc: Global,
    story: Story<'_>,
    stopped: Provided,
    beginnings: &[Vec<u8>],
    written: &[u8],
) -> Result<Left, AllocError> {
    let opened = match provider::reopened(alloc, written) {
        Ok(Some(opened)) => opened,
        Ok(None) => return Ok(Left::Nothing),
        Err(Refusal::Memory) => return Err(AllocError),
        Err(_) => return Ok(Left::Other),
    };
    let told = answers(alloc, opened, story.asked)?;
    if told != answers(alloc, stopped, story.asked)? {
        return Ok(Left::Other);
    }
    match beginnings.iter().position(|beginning| *beginning == told) {
        Some(count) => Ok(Left::After(count)),
        None => Ok(Left::Other),
    }
}

/// Room for the longest journal.
const ROOM: usize = 1 << 16;

/// Tells the journal of a run whose writer does not fail, and then what is left where its first call fails,
/// its second one, and so on, until a run ends before that call.
fn sweep(case: &mut Case<'_>, story: Story<'_>) -> Result<(), AllocError> {
    let alloc = case.alloc();
    let mut writer = CutWriter::new(alloc, ROOM)?;
    let beginnings = beginnings(alloc, story)?;
    stopped(alloc, story, u64::MAX, &mut writer)?;
    case.say_bytes(writer.taken());
    let mut row = None;
    for failing in 0..u64::MAX {
        let stopped = stopped(alloc, story, failing, &mut writer)?;
        let left = opened(alloc, story, stopped, &beginnings, writer.taken())?;
        row = Some(counted(case, row, left));
        if !writer.has_failed() {
            break;
        }
    }
    tell(case, row);
    Ok(())
}

/// `journal PIECE COUNT MESSAGE..`: a run of so many messages, and what is asked then.
pub(crate) fn journal(case: &mut Case<'_>) {
    let piece = case.number_to(4096);
    let count = case.number_to(1000);
    let commands = read_commands(case);
    let (run, asked) = commands.split_at(count.min(commands.len()));
    if sweep(case, Story { piece, run, asked }).is_err() {
        case.lack_memory();
    }
}
