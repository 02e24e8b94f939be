//! Reports on how a server stands, every so often.
ghost use Rattle.std.specs.Prelude.{◌≡◌, ℕ, Bool, List, Option, IfOk};
ghost use Rattle.connections.specs.Telling.{line_text, Report, TellsLines};

use crate::{Connections, Sessions};
use std::alloc::{AllocError, Global};
use std::io::Write;
use textio::write_text;

/// When reports are written.
#[derive(Clone, Copy, Debug, PartialEq, Eq)]
pub(crate) struct Reports {
    /// Every how many milliseconds; 0 for never.
    every: u64,
    /// The time of the next one.
    next: u64,
}

impl Reports {
    pub(crate) fn new(every: u64) -> Self
        ensures { result.every ≡ every }
    {
        Reports { every, next: every }
    }

    /// Writes a report if it is time for one. One that cannot be written, or has no memory, is passed over.
    pub(crate) fn tell<S: Sessions, C: Connections<S>, E: Write>(
        &mut self,
        alloc: Global,
        sessions: &S,
        connections: &C,
        now: u64,
        errors: &mut E,
    )
        ensures every { (self.new).every ≡ (self.old).every }
        ensures lines { (told : Bool) (count : ℕ) (start : Option (List ℕ)) → TellsLines (self.old).every told count start (E.contents errors.old) → TellsLines (self.old).every told count start (E.contents errors.new) }
    {
        if self.every == 0 || now < self.next {
            return;
        }
        self.next = now.saturating_add(self.every);
        if let Ok(line) = report_line(alloc, sessions, connections) {
            let _told = write_text(errors, &line);
        }
    }
}

/// The line of a report: what the sessions say, and what the connections do.
fn report_line<S: Sessions, C: Connections<S>>(
    alloc: Global,
    sessions: &S,
    connections: &C,
) -> Result<Vec<u8>, AllocError>
    ensures { IfOk result (λ line. (words : List ℕ) × (line.items ≡ line_text (Report words))) }
{
    let (answered, open) = (sessions.report(alloc)?, connections.report(alloc)?);
    let mut line = Vec::from_slice(alloc, b"report: ")?;
    line.extend_from_slice(answered.as_bytes())?;
    line.push(b' ')?;
    line.extend_from_slice(open.as_bytes())?;
    line.push(b'\n')?;
    Ok(line)
}
