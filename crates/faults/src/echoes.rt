// Sessions that answer each line by itself, with no directory behind them.
ghost use Rattle.std.specs.Prelude.{◌≢◌, ◌≤◌, [], length};

use connections::{SessionFault, Sessions};
use std::alloc::{AllocError, Global};
use std::io::Write;

/// The bytes of the answer to a line that begins with X.
const LONG_ANSWER: usize = 30_000;

/// A session: how many lines it heard, and what it heard of the next one.
#[derive(Drop)]
struct Echo {
    lines: u64,
    line: Vec<u8>,
}

/// Sessions, by their numbers.
#[derive(Drop)]
pub(crate) struct Echoes {
    alloc: Global,
    echoes: Vec<Option<Echo>>,
    /// How many are open, and how many may be.
    open: usize,
    most: usize,
}

impl Echoes {
    /// None is open. Their numbers are below `count`, and at most so many may be open at once.
    pub(crate) fn new(alloc: Global, count: usize, most: usize) -> Result<Self, AllocError> {
        let mut echoes = Vec::with_capacity(alloc, count)?;
        for _ in 0..count {
            echoes.push(None)?;
        }
        Ok(Echoes {
            alloc,
            echoes,
            open: 0,
            most,
        })
    }
}

/// How many of these bytes are the next part: those up to the first LF, if there is one.
fn part_size(bytes: &[u8]) -> usize
    ensures some { bytes.now ≢ [] → 1 ≤ result }
    ensures most { result ≤ length bytes.now }
{
    for place in 0..bytes.len() {
        if bytes[place] == b'\n' {
            return place + 1;
        }
    }
    bytes.len()
}

/// The answer to the line of a session: its number, that of the line, and the line. For a line that begins with
/// M memory is wanting.
fn answer(alloc: Global, session: usize, echo: &Echo) -> Result<Vec<u8>, AllocError> {
    if echo.line.starts_with(b"M") {
        return Err(AllocError);
    }
    if echo.line.starts_with(b"X") {
        return Vec::from_elem(alloc, b'X', LONG_ANSWER);
    }
    let mut answer = Vec::new(alloc);
    let lines = echo.lines;
    if write!(&mut answer, "{session}.{lines} ").is_err() {
        return Err(AllocError);
    }
    answer.extend_from_slice(&echo.line)?;
    Ok(answer)
}

/// What a session answers to a part, if anything.
fn hear_part(
    alloc: Global,
    session: usize,
    echo: &mut Echo,
    part: &[u8],
) -> Result<Vec<u8>, AllocError> {
    echo.line.extend_from_slice(part)?;
    if !part.ends_with(b"\n") {
        return Ok(Vec::new(alloc));
    }
    echo.lines = echo.lines.saturating_add(1);
    let answered = answer(alloc, session, echo);
    echo.line.clear();
    answered
}

impl Sessions for Echoes {
    ghost use Rattle.std.specs.Prelude.{⊤, false, refl};

    ghost opens = { λ _ _ _. ⊤ };

    ghost refuses = { λ _ _ _. ⊤ };

    ghost hears = { λ _ _ _ _ _. ⊤ };

    ghost misses = { λ _ _ _ _ _. ⊤ };

    ghost ends = { λ _ _ _. ⊤ };

    // None of them keeps anything.
    ghost is_unkept = { λ _. false };

    ghost any_unkept = { λ _. false };

    ghost opens_as = { λ _ _ _ _. refl };

    ghost hears_as = { λ _ _ _ _ _ _. refl };

    ghost misses_as = { λ _ _ _ _ _ _. refl };

    ghost ends_as = { λ _ _ _ _. refl };

    fn open(&mut self, session: usize) -> Result<(), SessionFault> {
        if self.open >= self.most {
            return Err(SessionFault::Refused);
        }
        let Some(None) = self.echoes.get(session) else {
            return Err(SessionFault::Refused);
        };
        if let Some(free) = self.echoes.get_mut(session) {
            *free = Some(Echo {
                lines: 0,
                line: Vec::new(self.alloc),
            });
        }
        self.open = self.open.saturating_add(1);
        Ok(())
    }

    fn hear(
        &mut self,
        session: usize,
        bytes: &[u8],
        output: &mut Vec<u8>,
    ) -> Result<usize, SessionFault> {
        let Some(Some(echo)) = self.echoes.get_mut(session) else {
            return Err(SessionFault::Refused);
        };
        let count = part_size(bytes);
        let Ok(answer) = hear_part(self.alloc, session, echo, &bytes[..count]) else {
            return Err(SessionFault::Memory);
        };
        match output.extend_from_slice(&answer) {
            Ok(()) => Ok(count),
            Err(_) => Err(SessionFault::Memory),
        }
    }

    fn end(&mut self, session: usize) {
        if let Some(echo) = self.echoes.get_mut(session) {
            if echo.is_some() {
                self.open = self.open.saturating_sub(1);
            }
            *echo = None;
        }
    }

    fn has_unkept(&self) -> bool {
        false
    }

    fn report(&self, alloc: Global) -> Result<String, AllocError> {
        format!(in alloc; "sessions={}", self.open)
    }
}
