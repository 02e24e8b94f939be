//! What is kept of an open connection. What was read is heard part by part, as long as the output is not full;
//! the rest waits, and nothing is read before it is heard.

ghost use Rattle.std.specs.Prelude.{◌≡◌, ◌≢◌, ◌⊎◌, ◌↔◌, ◌<◌, ◌≤◌, ◌||◌, [], ℕ, length, drop, IsTrue, IfOk, IfErr, Some, true, false};
ghost use Rattle.connections.specs.Rounds.{InRound, offers, was_busy};
ghost use Rattle.connections.specs.Fitting.{Adds, Attends, Hearkens, HearsFrom, IsDone, IsIdleDue, IsJudged, IsStopDue, Judged, KeepsCourse, KeepsTalk, Knows, MayHearFrom};
ghost use Rattle.connections.specs.Histories.{History, Telling, course, or_now, stage};
ghost use Rattle.connections.specs.Pauses.{until_due, until_idle, until_stopped};
ghost use Rattle.connections.specs.Soundness.{Here};
ghost use Rattle.connections.specs.Telling.{lost_by};
ghost use Rattle.connections.specs.declared.loop_limits.TheConstants.{FULL_OUTPUT};

use crate::connections::{Connections, Reading, Writing};
use crate::ending::ending_of;
use crate::loop_limits::{FULL_OUTPUT, KEPT_MILLISECONDS, KEPT_ROOM, LAST_MILLISECONDS};
use crate::{Ending, Sessions};
use std::alloc::Global;
use textio::PIECE_SIZE;

/// An open connection, whose session is open.
#[derive(Drop)]
pub(crate) struct Talk {
    /// What was read and not yet heard.
    input: Vec<u8>,
    /// What was answered and not yet taken.
    output: Vec<u8>,
    /// Since when it is idle, unless something was read from it or taken by it in this round, or it came in it.
    idle_since: Option<u64>,
    /// The peer sends no more.
    is_over: bool,
}

impl Talk {
    /// A connection that was just taken.
    pub(crate) fn new(alloc: Global) -> Self
        ensures empty { (result.input.items ≡ []) × (result.output.items ≡ []) }
        ensures fresh { (result.idle_since ≡ None) × (result.is_over ≡ false) }
    {
        Talk {
            input: Vec::new(alloc),
            output: Vec::new(alloc),
            idle_since: None,
            is_over: false,
        }
    }

    /// A round is over now. It is idle from now on, unless it was so before.
    pub(crate) fn rest(&mut self, now: u64)
        ensures { self.new ≡ record self.old { idle_since = or_now self.old.idle_since now } }
    {
        if self.idle_since.is_none() {
            self.idle_since = Some(now);
        }
    }

    pub(crate) fn has_output(&self) -> bool
        ensures { IsTrue result ↔ (self.now.output.items ≢ []) }
    {
        !self.output.is_empty()
    }

    fn has_room(&self) -> bool
        ensures { IsTrue result ↔ (length self.now.output.items ≤ FULL_OUTPUT) }
    {
        self.output.len() <= FULL_OUTPUT
    }

    /// Whether nothing that was read waits to be heard, more may come, and its answers have room.
    fn may_read(&self) -> bool
        ensures { IsTrue result ↔ ((self.now.input.items ≡ []) × (self.now.is_over ≡ false) × (length self.now.output.items ≤ FULL_OUTPUT)) }
    {
        self.input.is_empty() && !self.is_over && self.has_room()
    }

    /// Has the session hear what waits to be heard, as long as its answers have room. Says whether it heard
    /// anything.
    fn hear_rest<S: Sessions>(&mut self, sessions: &mut S, place: usize) -> Result<bool, Ending>
        ensures hears { Hearkens S.opens S.refuses S.hears S.misses S.ends (λ done. done) place sessions.old (KeepsTalk self.old) result sessions.new (λ _. KeepsTalk self.new) }
        ensures all { IfOk result (λ _. (self.new.input.items ≡ []) ⊎ (FULL_OUTPUT < length self.new.output.items)) }
        ensures nothing { result ≡ Ok false → (self.new ≡ self.old) × (sessions.new ≡ sessions.old) }
    {
        if self.input.is_empty() || !self.has_room() {
            return Ok(false);
        }
        let heard = hear_parts(sessions, place, &self.input, &mut self.output)?;
        drop_front(&mut self.input, heard);
        Ok(true)
    }

    /// Has the session hear bytes that were just read, as long as its answers have room, and keeps the
    /// rest.
    fn hear_new<S: Sessions>(
        &mut self,
        alloc: Global,
        sessions: &mut S,
        place: usize,
        bytes: &[u8],
    ) -> Result<(), Ending>
        requires none { self.old.input.items ≡ [] }
        requires some { MayHearFrom bytes.now self.old.output.items }
        ensures hears { Hearkens S.opens S.refuses S.hears S.misses S.ends (λ _. true) place sessions.old (KeepsCourse bytes.now self.old.output.items self.old.idle_since self.old.is_over) result sessions.new (λ _. KeepsTalk self.new) }
        ensures all { IfOk result (λ _. (self.new.input.items ≡ []) ⊎ (FULL_OUTPUT < length self.new.output.items)) }
    {
        let heard = hear_parts(sessions, place, bytes, &mut self.output)?;
        if heard == bytes.len() {
            return Ok(());
        }
        match Vec::from_slice(alloc, bytes.split_at(heard).1) {
            Ok(rest) => {
                self.input = rest;
                Ok(())
            }
            Err(_) => Err(Ending::Memory),
        }
    }

    /// Reads a piece, if none waits and its answers have room, and has the session hear it. Says whether
    /// anything was done.
    pub(crate) fn attend<S: Sessions, C: Connections<S>>(
        &mut self,
        alloc: Global,
        sessions: &mut S,
        connections: &mut C,
        place: usize,
        room: &mut [u8; PIECE_SIZE],
    ) -> Result<bool, Ending>
        ensures { Attends S.opens S.refuses S.hears S.misses S.ends C.has place connections.old sessions.old self.old result connections.new sessions.new self.new }
    {
        if !self.may_read() {
            return self.hear_rest(sessions, place);
        }
        match connections.read(place, room) {
            Reading::Bytes(count) => {
                self.idle_since = None;
                self.hear_new(alloc, sessions, place, &room[..count])?;
                Ok(true)
            }
            Reading::End => {
                self.is_over = true;
                Ok(true)
            }
            Reading::Wait => Ok(false),
            Reading::Fault => Err(Ending::Fault),
        }
    }

    /// Writes what the connection takes of the output, and says whether it took any.
    fn write<S: Sessions, C: Connections<S>>(
        &mut self,
        connections: &mut C,
        place: usize,
    ) -> Result<bool, Ending>
        requires { self.old.output.items ≢ [] }
        ensures writes { (idle : ℕ) (acts : History) → Knows C.has idle connections.old acts → stage acts ≡ Telling true
            → Here (course acts place) (KeepsTalk self.old)
            → (after : History) × Adds place acts after × Knows C.has idle connections.new after × Judged idle after place result self.new
            × IfOk result (λ done. InRound offers after place × (was_busy after ≡ done || was_busy acts)) }
        ensures other { IfErr result (λ why. lost_by why ≡ 0) }
    {
        match connections.write(place, &self.output) {
            Writing::Took(count) => {
                drop_front(&mut self.output, count);
                self.idle_since = None;
                Ok(true)
            }
            Writing::Wait => Ok(false),
            Writing::Fault => Err(Ending::Fault),
        }
    }

    /// Writes output, if there is any and it may leave. Says whether any left.
    pub(crate) fn tell<S: Sessions, C: Connections<S>>(
        &mut self,
        alloc: Global,
        connections: &mut C,
        place: usize,
        now: u64,
        is_synced: bool,
    ) -> Result<bool, Ending>
        ensures tells { (idle : ℕ) (acts : History) → Knows C.has idle connections.old acts → stage acts ≡ Telling is_synced
            → Here (course acts place) (KeepsTalk self.old)
            → (after : History) × Adds place acts after × Knows C.has idle connections.new after × Judged idle after place result self.new
            × IfOk result (λ done. ((self.new.output.items ≡ []) ⊎ InRound offers after place) × (was_busy after ≡ done || was_busy acts)) }
        ensures unsynced { IfOk result (λ _. is_synced ≡ false → self.new.output.items ≡ []) }
        ensures other { IfErr result (λ why. lost_by why ≡ 0) }
    {
        if self.output.is_empty() {
            let idle = self.idle_since.map_or(0, |since| now.saturating_sub(since));
            give_back(alloc, &mut self.output, idle);
            return Ok(false);
        }
        if !is_synced {
            return Err(Ending::Unsynced);
        }
        self.write(connections, place)
    }

    /// For how many milliseconds the connection may stay as it is, at most so many. It is closed now if it
    /// is done, if it was idle for too long, or if a stop was ordered and it is told or its time is up.
    pub(crate) fn patience(
        &self,
        now: u64,
        idle: u64,
        stopped: Option<u64>,
        most: u64,
    ) -> Result<u64, Ending>
        ensures judged { IsJudged now idle stopped self.now result }
        ensures left { IfOk result (λ left. left ≡ until_due now idle stopped self.now.idle_since most) }
        ensures other { IfErr result (λ why. lost_by why ≡ 0) }
    {
        if self.wants_no_more() {
            return Err(Ending::Done);
        }
        let most = self.patience_of_stop(now, stopped, most)?;
        self.patience_of_idle(now, idle, most)
    }

    /// Whether the peer sends no more, and all is heard and told.
    fn wants_no_more(&self) -> bool
        ensures { IsTrue result ↔ IsDone self.now }
    {
        self.is_over && self.input.is_empty() && self.output.is_empty()
    }

    fn patience_of_stop(&self, now: u64, stopped: Option<u64>, most: u64) -> Result<u64, Ending>
        ensures due { IfErr result (λ why. (why ≡ Ending.Stopped) × IsStopDue now stopped self.now) }
        ensures not_due { IfOk result (λ _. ¬ IsStopDue now stopped self.now) }
        ensures left { IfOk result (λ left. left ≡ until_stopped now stopped most) }
    {
        let Some(then) = stopped else {
            return Ok(most);
        };
        let passed = now.saturating_sub(then);
        if self.output.is_empty() || passed >= LAST_MILLISECONDS {
            return Err(Ending::Stopped);
        }
        Ok(most.min(LAST_MILLISECONDS - passed))
    }

    fn patience_of_idle(&self, now: u64, idle: u64, most: u64) -> Result<u64, Ending>
        ensures due { IfErr result (λ why. (why ≡ Ending.Idle) × IsIdleDue now idle self.now) }
        ensures not_due { IfOk result (λ _. ¬ IsIdleDue now idle self.now) }
        ensures left { IfOk result (λ left. left ≡ until_idle now idle self.now.idle_since most) }
    {
        if idle == 0 {
            return Ok(most);
        }
        let Some(since) = self.idle_since else {
            return Ok(most);
        };
        let passed = now.saturating_sub(since);
        if passed >= idle {
            return Err(Ending::Idle);
        }
        Ok(most.min(idle - passed))
    }
}

/// Has a session hear the next part of the bytes, and says how many bytes the part has.
fn hear_part<S: Sessions>(
    sessions: &mut S,
    place: usize,
    bytes: &[u8],
    output: &mut Vec<u8>,
) -> Result<usize, Ending>
    requires { MayHearFrom bytes.now output.old.items }
    ensures { HearsFrom S.opens S.refuses S.hears S.misses S.ends place sessions.old bytes.now output.old.items result sessions.new output.new.items }
{
    match sessions.hear(place, bytes, output) {
        Ok(count) => Ok(count),
        Err(fault) => Err(ending_of(fault)),
    }
}

/// Has a session hear the bytes, part by part, as long as its answers have room. Returns how many it heard.
fn hear_parts<S: Sessions>(
    sessions: &mut S,
    place: usize,
    bytes: &[u8],
    output: &mut Vec<u8>,
) -> Result<usize, Ending>
    requires { MayHearFrom bytes.now output.old.items }
    ensures hears { HearsFrom S.opens S.refuses S.hears S.misses S.ends place sessions.old bytes.now output.old.items result sessions.new output.new.items }
    ensures all { IfOk result (λ count. (count ≡ length bytes.now) ⊎ (FULL_OUTPUT < length output.new.items)) }
{
    let mut heard = hear_part(sessions, place, bytes, output)?;
    while heard < bytes.len() && output.len() <= FULL_OUTPUT {
        let rest = bytes.split_at(heard).1;
        let count = hear_part(sessions, place, rest, output)?;
        heard += count;
    }
    Ok(heard)
}

/// Drops the first bytes.
fn drop_front(bytes: &mut Vec<u8>, count: usize)
    requires { count ≤ length bytes.old.items }
    ensures { bytes.new.items ≡ drop count bytes.old.items }
{
    let left = bytes.len() - count;
    bytes.copy_within(count.., 0);
    bytes.truncate(left);
}

/// Gives back a large room of a buffer that has been empty for so many milliseconds, unless these are few.
fn give_back(alloc: Global, bytes: &mut Vec<u8>, since: u64)
    requires { bytes.old.items ≡ [] }
    ensures { bytes.new.items ≡ [] }
{
    if since >= KEPT_MILLISECONDS && bytes.capacity() > KEPT_ROOM {
        *bytes = Vec::new(alloc);
    }
}
