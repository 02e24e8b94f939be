// Whether the last epoch that was watched of a name, or the head's, is as late as an order wants it.
ghost use Rattle.std.specs.Prelude.{◌≡◌, IfErr, IfOk, None, OnOk, Some, option_map};
ghost use Rattle.std.specs.Io.KnownBytes.{Appends};
ghost use Rattle.textio.specs.Output.{WritesSome};
ghost use Rattle.textio.specs.declared.program_fault.ProgramFault.TheVariants.{CannotWrite};
ghost use Rattle.play.specs.Scripts.{line_seen};
ghost use Rattle.runs.specs.AskOptions.{ask_values};
ghost use Rattle.runs.specs.Lateness.{last_above, stale_line, subject_in, subject_of, wanted_of, BeganBehind, Finds, HasNoted, IsLast, IsLimitOf, IsMarkedTo, IsSameLimit, IsWatchedTo};
ghost use Rattle.runs.specs.Runs.{Grows};

use crate::AskOrder;
use crate::run::line_of_words;
use asking::Asker;
use encoding::Name;
use itoa::Buffer;
use memory::{Mark, begins_behind, watched_up_to};
use monitor::Monitor;
use nodehash::NodeHash;
use play::{Ask, Line, read_line};
use sigiface::Verifier;
use std::alloc::{AllocError, Global};
use std::io::Write;
use textio::{ProgramFault, write_text};
use vrfiface::VufCheck;

/// What has a last epoch.
#[derive(Debug, Drop)]
pub(crate) enum Subject {
    /// A name that is watched: the last epoch that was.
    Name(Name),
    /// The directory: the epoch of the head of its chain.
    Head,
}

/// What the last epoch is wanted to be above.
#[derive(Debug, Drop)]
pub(crate) struct Limit {
    /// Of what, if it is wanted.
    subject: Option<Subject>,
    above: u64,
    /// The last epoch so far, 0 if there is none yet; `None` while it is not known.
    last: Option<u64>,
}

/// What a line is about.
fn subject_of(line: &Option<Line>) -> Option<Subject>
    ensures { result ≡ subject_of (option_map line_seen line.now) }
{
    match line {
        Some(Line::Watch { name, .. }) => Some(Subject::Name(name.copied())),
        Some(Line::Ask(Ask::Head)) => Some(Subject::Head),
        _ => None,
    }
}

/// What the words of an order are about.
fn subject_in(alloc: Global, order: &AskOrder<'_>) -> Result<Option<Subject>, AllocError>
    ensures { IfOk result (λ subject. subject ≡ subject_in (ask_values order.now).words) }
{
    if order.command.is_none() {
        return Ok(None);
    }
    let words = line_of_words(alloc, *order)?;
    let line = read_line(alloc, &words)?;
    Ok(subject_of(&line))
}

/// What the last epoch is wanted of by an order.
fn wanted(alloc: Global, order: &AskOrder<'_>) -> Result<Option<Subject>, AllocError>
    ensures { IfOk result (λ subject. subject ≡ wanted_of (ask_values order.now).after (ask_values order.now).words) }
{
    match order.after {
        Some(_) => subject_in(alloc, order),
        None => Ok(None),
    }
}

impl Limit {
    /// A limit that wants nothing.
    pub(crate) fn none() -> Self
        ensures none { (result.subject ≡ None) × (result.last ≡ None) }
    {
        Limit {
            subject: None,
            above: 0,
            last: None,
        }
    }

    /// The limit of an order.
    pub(crate) fn of(alloc: Global, order: &AskOrder<'_>) -> Result<Self, AllocError>
        ensures is { IfOk result (IsLimitOf (ask_values order.now)) }
        ensures last { IfOk result (λ limit. limit.last ≡ None) }
    {
        Ok(Limit {
            subject: wanted(alloc, order)?,
            above: order.after.unwrap_or(0),
            last: None,
        })
    }

    /// Notes that there is no last epoch yet.
    pub(crate) fn begin(&mut self)
        ensures same { IsSameLimit self.old self.new }
        ensures last { (self.new).last ≡ Some 0 }
    {
        self.last = Some(0);
    }

    /// Notes the last epoch of what asks.
    pub(crate) fn note<H, V, S>(&mut self, asker: &Asker<H, V, S>)
    where
        H: NodeHash + Drop,
        V: VufCheck + Drop,
        S: Verifier + Drop,
        ensures same { IsSameLimit self.old self.new }
        ensures notes { HasNoted asker.now self.new }
    {
        if let Some(subject) = &self.subject {
            self.last = Some(last_of(asker, subject));
        }
    }

    /// The last epoch, if it is not above what is wanted.
    pub(crate) fn stale(&self) -> Option<u64>
        ensures { Finds self.now result }
    {
        match (&self.subject, self.last) {
            (Some(_), Some(epoch)) if epoch <= self.above => Some(epoch),
            _ => None,
        }
    }
}

/// The last epoch of what asks.
fn last_of<H, V, S>(asker: &Asker<H, V, S>, subject: &Subject) -> u64
where
    H: NodeHash + Drop,
    V: VufCheck + Drop,
    S: Verifier + Drop,
    ensures { IsLast asker.now.marks.items asker.now.client asker.now.monitors.items subject.now result }
{
    match subject {
        Subject::Name(name) => {
            let since = began_behind(&asker.marks, &asker.monitors, name);
            last_above(since, watched_to(&asker.marks, &asker.monitors, name))
        }
        Subject::Head => asker.head(),
    }
}

/// Behind which epoch the watching of a name began, 0 if it did not.
fn began_behind<H, V, S>(marks: &[Mark], monitors: &[Monitor<H, V, S>], name: &Name) -> u64
where
    H: NodeHash,
    V: VufCheck,
    S: Verifier,
    ensures { BeganBehind marks.now monitors.now name.now result }
{
    for mark in marks {
        if mark.name == *name {
            return mark.since;
        }
    }
    for monitor in monitors {
        if monitor.name() == name {
            return begins_behind(monitor);
        }
    }
    0
}

/// Up to which epoch a name was watched, 0 if it was not.
fn watched_to<H, V, S>(marks: &[Mark], monitors: &[Monitor<H, V, S>], name: &Name) -> u64
where
    H: NodeHash,
    V: VufCheck,
    S: Verifier,
    ensures { IsWatchedTo marks.now monitors.now name.now result }
{
    match watched_up_to(monitors, name) {
        Some(epoch) => epoch,
        None => marked_epoch(marks, name),
    }
}

/// The epoch, if it is above the one behind which the watching began; else 0.
fn last_above(since: u64, epoch: u64) -> u64
    ensures { result ≡ last_above since epoch }
{
    if since < epoch { epoch } else { 0 }
}

/// The epoch of the mark of a name, or 0.
fn marked_epoch(marks: &[Mark], name: &Name) -> u64
    ensures { IsMarkedTo name.now result marks.now }
{
    for mark in marks {
        if mark.name == *name {
            return mark.epoch;
        }
    }
    0
}

/// Writes the line of the last epoch. It takes no memory.
pub(crate) fn write_stale<W: Write>(writer: &mut W, epoch: u64) -> Result<(), ProgramFault>
    ensures writes { OnOk result (Appends (W.contents writer.old) (W.contents writer.new) (stale_line epoch)) }
    ensures some { WritesSome (W.contents writer.old) (W.contents writer.new) (stale_line epoch) }
    ensures err { IfErr result (λ fault. fault ≡ CannotWrite) }
    ensures grows { Grows (W.contents writer.old) (W.contents writer.new) }
{
    write_text(writer, b"stale ")?;
    let mut digits = Buffer::new();
    write_text(writer, digits.format(epoch).as_bytes())?;
    write_text(writer, b"\n")?;
    Ok(())
}
