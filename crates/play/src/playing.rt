// Lines are taken one by one and played, and what they print is kept together. It is written before a read that
// may wait, once it is long, and at the end or at a fault.

ghost use Rattle.std.specs.Prelude.{◌≡◌, [], IfErr, IfOk, IsNone, OnOk};
ghost use Rattle.std.specs.Io.KnownBytes.{IsAtEnd, Keeps};
ghost use Rattle.textio.specs.Faults.{IsDeviceFault};
ghost use Rattle.textio.specs.Lines.{lines_of};
ghost use Rattle.textio.specs.Output.{WritesBeginning, WritesBut};
ghost use Rattle.book.specs.Shows.{index_of};
ghost use Rattle.epochs.specs.DirectoryStates.{provider};
ghost use Rattle.play.specs.Parties.{AreAt};
ghost use Rattle.play.specs.Played.{Stand};
ghost use Rattle.play.specs.PlayedLines.{PlaysLine, PlaysNext};
ghost use Rattle.play.specs.Plays.{PlaysTo};
ghost use Rattle.play.specs.Beginnings.{script_index, script_salts};
ghost use Rattle.play.specs.Printing.{played_from, printed};
ghost use Rattle.play.specs.Reading.{TakesWholeLine};

use crate::beginning::begin;
use crate::engine::Engine;
use crate::line::{read_asked, read_line};
use crate::lines::next_line;
use nodehash::NodeHash;
use rand_core::Rng;
use sigiface::Signer;
use std::alloc::Global;
use std::io::{BufRead, ErrorKind, Write};
use std::mem;
use textio::{ProgramFault, StreamFault, file_fault, write_text};
use vrfiface::Vuf;

/// The text is written once it has so many bytes, though the reader has more lines.
const FULL_TEXT: usize = 65_536;

/// What is kept from one line to the next: room for the line, and for what it prints; and how many of the next
/// bytes are whole lines which the reader has without a wait.
#[derive(Drop)]
struct Room {
    line: Vec<u8>,
    said: Vec<u8>,
    ready: usize,
}

/// Plays the script that the reader has, and writes what it prints (CONIKS, sections 3 and 4: a directory,
/// its users, the owners of names and an auditor). What the parties hold is never freed: `play` is for a process
/// that ends then.
///
/// # Errors
///
/// `NotACommand` at the first line that is no command, with what the lines before it print written;
/// `CannotRead`, `OutOfMemory` and `CannotWrite`, with a beginning of what the script prints written.
pub fn play<R: BufRead, W: Write>(
    alloc: Global,
    reader: &mut R,
    writer: &mut W,
) -> Result<(), ProgramFault>
    ensures { PlaysTo (printed script_index script_salts) (R.remaining reader.old) (W.contents writer.old) (W.contents writer.new) result }
{
    let mut engine = begin(alloc)?;
    let played = play_lines(alloc, &mut engine, reader, writer);
    // To free the parties part by part would take a tenth of the time of a long script.
    mem::forget(engine);
    played
}

/// Plays the lines of the reader.
fn play_lines<H, V, S, R, I, W>(
    alloc: Global,
    engine: &mut Engine<H, V, S, R>,
    reader: &mut I,
    writer: &mut W,
) -> Result<(), ProgramFault>
where
    H: NodeHash + Drop,
    V: Vuf + Drop,
    S: Signer + Drop,
    R: Rng + Drop,
    I: BufRead,
    W: Write,
    requires at { (stand : Stand) × AreAt H.digest_of V.value_of S.signature_of R.stream V.accepted S.verified engine.old stand }
    ensures { (stand : Stand) → AreAt H.digest_of V.value_of S.signature_of R.stream V.accepted S.verified engine.old stand
        → PlaysTo (λ script. played_from (index_of (provider H.digest_of V.value_of S.signature_of (engine.old).hub.service.directory)) 1 stand (lines_of script)) (I.remaining reader.old) (W.contents writer.old) (W.contents writer.new) result }
{
    let mut room = Room {
        line: Vec::new(alloc),
        said: Vec::new(alloc),
        ready: 0,
    };
    let mut text = Vec::new(alloc);
    // Every loop of Rattle has an end: this one's is past any script.
    for number in 1..u64::MAX {
        write_due(room.ready, writer, &mut text)?;
        match play_next(alloc, engine, number, reader, &mut room, &mut text) {
            Ok(true) => {}
            Ok(false) => {
                write_text(writer, &text)?;
                return Ok(());
            }
            // What is played is written, whatever the fault.
            Err(why) => {
                write_text(writer, &text)?;
                return Err(why);
            }
        }
    }
    Err(ProgramFault::CannotRead)
}

/// Writes the text and clears it, before a read that may wait, and if it is long.
fn write_due<W: Write>(ready: usize, writer: &mut W, text: &mut Vec<u8>) -> Result<(), StreamFault>
    ensures ok { OnOk result (WritesBut (W.contents writer.old) (W.contents writer.new) text.old.items text.new.items) }
    ensures err { IfErr result (λ fault. (fault ≡ StreamFault.CannotWrite) × WritesBeginning (W.contents writer.old) (W.contents writer.new) text.old.items) }
{
    if 0 < ready && text.len() < FULL_TEXT {
        return Ok(());
    }
    write_text(writer, text)?;
    text.clear();
    Ok(())
}

/// Takes the line of this number and plays it, and appends what it prints, all or nothing. Returns whether
/// there was one.
fn play_next<H, V, S, R, I>(
    alloc: Global,
    engine: &mut Engine<H, V, S, R>,
    number: u64,
    reader: &mut I,
    room: &mut Room,
    text: &mut Vec<u8>,
) -> Result<bool, ProgramFault>
where
    H: NodeHash + Drop,
    V: Vuf + Drop,
    S: Signer + Drop,
    R: Rng + Drop,
    I: BufRead,
    requires at { (stand : Stand) × AreAt H.digest_of V.value_of S.signature_of R.stream V.accepted S.verified engine.old stand }
    ensures { (stand : Stand) → AreAt H.digest_of V.value_of S.signature_of R.stream V.accepted S.verified engine.old stand
        → PlaysNext H.digest_of V.value_of S.signature_of R.stream V.accepted S.verified engine.old stand number (I.remaining reader.old) (I.remaining reader.new) text.old.items result text.new.items engine.new }
{
    if !take_line(reader, &mut room.line, &mut room.ready)? {
        return Ok(false);
    }
    room.said.clear();
    play_text(alloc, engine, number, &room.line, &mut room.said)?;
    text.extend_from_slice(&room.said)?;
    Ok(true)
}

/// Takes the next line, as `next_line` does. The bytes that are ready are whole lines which the reader has
/// without a wait.
fn take_line<R: BufRead>(
    reader: &mut R,
    line: &mut Vec<u8>,
    ready: &mut usize,
) -> Result<bool, ProgramFault>
    ensures ok { IfOk result (λ more. TakesWholeLine (R.remaining reader.old) (R.remaining reader.new) more line.new.items) }
    ensures err { IfErr result (λ fault. IsDeviceFault fault) }
{
    let Some(some) = lines_ready(reader, *ready)? else {
        return Ok(false);
    };
    let more = next_line(reader, line)?;
    *ready = some.saturating_sub(line.len()).saturating_sub(1);
    Ok(more)
}

/// How many of the next bytes are whole lines that the reader has: this many, unless it is 0. Then it waits
/// until the reader has bytes, and answers `None` at the end.
fn lines_ready<R: BufRead>(reader: &mut R, ready: usize) -> Result<Option<usize>, ProgramFault>
    ensures keeps { OnOk result (Keeps (R.remaining reader.old) (R.remaining reader.new)) }
    ensures end { IfOk result (λ more. IsNone more → IsAtEnd (R.remaining reader.old)) }
    ensures err { IfErr result (λ fault. IsDeviceFault fault) }
{
    if ready > 0 {
        return Ok(Some(ready));
    }
    match reader.fill_buf() {
        Ok(shown) => Ok(whole_lines(shown)),
        Err(error) if error.kind() == ErrorKind::Interrupted => Ok(Some(0)),
        Err(error) => Err(file_fault(&error)),
    }
}

/// How many of the bytes are whole lines, or `None` if there are no bytes.
fn whole_lines(shown: &[u8]) -> Option<usize>
    ensures { IsNone result → shown.now ≡ [] }
{
    if shown.is_empty() {
        return None;
    }
    match shown.iter().rposition(|byte| *byte == b'\n') {
        Some(place) => Some(place.saturating_add(1)),
        None => Some(0),
    }
}

/// Plays the line of this number, and appends what it prints.
fn play_text<H, V, S, R>(
    alloc: Global,
    engine: &mut Engine<H, V, S, R>,
    number: u64,
    line: &[u8],
    text: &mut Vec<u8>,
) -> Result<(), ProgramFault>
where
    H: NodeHash + Drop,
    V: Vuf + Drop,
    S: Signer + Drop,
    R: Rng + Drop,
    requires at { (stand : Stand) × AreAt H.digest_of V.value_of S.signature_of R.stream V.accepted S.verified engine.old stand }
    ensures { (stand : Stand) → AreAt H.digest_of V.value_of S.signature_of R.stream V.accepted S.verified engine.old stand
        → PlaysLine H.digest_of V.value_of S.signature_of R.stream V.accepted S.verified engine.old stand number line.now text.old.items result text.new.items engine.new }
{
    let Some(asked) = read_asked(alloc, line)? else {
        return play_other(alloc, engine, number, line, text);
    };
    let Some(ask) = asked else {
        return Err(ProgramFault::NotACommand(number));
    };
    engine.answer(&ask, text)?;
    Ok(())
}

/// The same, for any line. A function of its own, since what a line says has room for a name and a key.
#[inline(never)]
fn play_other<H, V, S, R>(
    alloc: Global,
    engine: &mut Engine<H, V, S, R>,
    number: u64,
    line: &[u8],
    text: &mut Vec<u8>,
) -> Result<(), ProgramFault>
where
    H: NodeHash + Drop,
    V: Vuf + Drop,
    S: Signer + Drop,
    R: Rng + Drop,
    requires at { (stand : Stand) × AreAt H.digest_of V.value_of S.signature_of R.stream V.accepted S.verified engine.old stand }
    ensures { (stand : Stand) → AreAt H.digest_of V.value_of S.signature_of R.stream V.accepted S.verified engine.old stand
        → PlaysLine H.digest_of V.value_of S.signature_of R.stream V.accepted S.verified engine.old stand number line.now text.old.items result text.new.items engine.new }
{
    let Some(line) = read_line(alloc, line)? else {
        return Err(ProgramFault::NotACommand(number));
    };
    engine.play_line(&line, text)?;
    Ok(())
}
