// One line at a time from a buffered reader. Each step takes what the reader's buffer shows of the
// line, up to and including its LF, and keeps as many of its first bytes as there is room for. So a
// line of any length takes no memory, and a caller who keeps one byte more than its longest good line
// can tell that a line is longer.
ghost use Rattle.std.specs.Prelude.{◌≡◌, ◌↔◌, ◌-◌, ◌<◌, ◌≤◌, ◌++◌, length, take, IfOk, IfErr};
ghost use Rattle.std.specs.Io.KnownBytes.{Keeps};
ghost use Rattle.textio.specs.Lines.{TakesLine};
ghost use Rattle.textio.specs.Pieces.{IsPiece, LosesPart, LosesPiece};

use crate::stream_fault::{StreamFault, after_error};
use encoding::FixedText;
use std::io::BufRead;

/// How far a step through the input came.
#[derive(Clone, Copy, Debug, PartialEq, Eq)]
enum Step {
    /// Into the line.
    Within,
    /// Past the line's LF.
    Past,
    /// To the end of the input.
    End,
}

/// Appends as many of the bytes as there is room for.
fn keep<const MOST: usize>(line: &mut FixedText<MOST>, bytes: &[u8])
    ensures { line.new ≡ line.old ++ take (MOST - length line.old) bytes.now }
{
    let room = MOST - line.bytes().len();
    if bytes.len() <= room {
        line.push_slice(bytes);
    } else {
        line.push_slice(bytes.split_at(room).0);
    }
}

/// Keeps the bytes before the first LF, and counts the bytes up to and including it.
fn keep_line<const MOST: usize>(line: &mut FixedText<MOST>, shown: &[u8]) -> (usize, Step)
    ensures within { result.0 ≤ length shown.now }
    ensures piece { IsPiece MOST result.1 (take result.0 shown.now) line.old line.new }
    ensures all { result.1 ≡ Step.Within → result.0 ≡ length shown.now }
    ensures end { (result.1 ≡ Step.End) ↔ (length shown.now ≡ 0) }
{
    if shown.is_empty() {
        return (0, Step::End);
    }
    match shown.iter().position(|byte| *byte == b'\n') {
        Some(place) => {
            keep(line, shown.split_at(place).0);
            (place + 1, Step::Past)
        }
        None => {
            keep(line, shown);
            (shown.len(), Step::Within)
        }
    }
}

/// Takes what the reader's buffer shows of a line.
fn take_step<const MOST: usize, R: BufRead>(
    reader: &mut R,
    line: &mut FixedText<MOST>,
) -> Result<Step, StreamFault>
    ensures ok { IfOk result (λ step. LosesPiece MOST step (R.remaining reader.old) (R.remaining reader.new) line.old line.new) }
    ensures err { IfErr result (λ fault. (fault ≡ StreamFault.CannotRead) × Keeps (R.remaining reader.old) (R.remaining reader.new)) }
{
    let shown = match reader.fill_buf() {
        Ok(shown) => shown,
        Err(error) => {
            after_error(&error, StreamFault::CannotRead)?;
            return Ok(Step::Within);
        }
    };
    let (count, step) = keep_line(line, shown);
    reader.consume(count);
    Ok(step)
}

/// The first `MOST` bytes of the next line, without its LF, or `None` at the end of the input. The
/// line is taken whole, however long it is. Without room for a byte, the end of the input could not be
/// told from a line, so `MOST` is at least 1.
///
/// # Errors
///
/// `CannotRead`. Then less than a line was taken.
pub fn next_line<const MOST: usize, R: BufRead>(
    reader: &mut R,
) -> Result<Option<FixedText<MOST>>, StreamFault>
    requires { 0 < MOST }
    ensures ok { IfOk result (λ line. TakesLine MOST (R.remaining reader.old) (R.remaining reader.new) line) }
    ensures err { IfErr result (λ fault. (fault ≡ StreamFault.CannotRead) × LosesPart (R.remaining reader.old) (R.remaining reader.new)) }
{
    let mut line = FixedText::new();
    // Every loop of Rattle has an end: this one's is past any input.
    for _ in 0..u64::MAX {
        match take_step(reader, &mut line)? {
            Step::Within => {}
            Step::Past => return Ok(Some(line)),
            Step::End if line.bytes().is_empty() => return Ok(None),
            Step::End => return Ok(Some(line)),
        }
    }
    Err(StreamFault::CannotRead)
}
