//! One place: what happens to the connection there, if there is one, in each part of a round.

ghost use Rattle.std.specs.Prelude.{◌≡◌, ◌≢◌, ◌⊎◌, ◌+◌, ◌-◌, ◌^◌, ◌<◌, ◌≤◌, ℕ, [], true, false, Option, None, Some, IfOk, IfErr};
ghost use Rattle.connections.specs.Rounds.{InRound, IsUnread, offers, was_busy};
ghost use Rattle.connections.specs.Fairness.{IsAttended, IsNotDue, IsServed};
ghost use Rattle.connections.specs.Fitting.{Adds, Has, HasTried, Fits, IsKnownBusy, Judged, KeepsTalk, Knows, KnowsPauseAt, ServesPlace, Stays, came_by};
ghost use Rattle.connections.specs.Histories.{Course, History, Hearing, IfThere, Telling, clock, course, rested, stage, stopped};
ghost use Rattle.connections.specs.Pauses.{until_due};
ghost use Rattle.connections.specs.Soundness.{Here, MayBeClosed};
ghost use Rattle.connections.specs.Telling.{lost_by};

use crate::connections::Connections;
use crate::ending::ending_of;
use crate::talk::Talk;
use crate::{Ending, Sessions};
use std::alloc::Global;
use textio::PIECE_SIZE;

/// What was done in a round.
#[derive(Clone, Copy, Debug, PartialEq, Eq)]
pub(crate) struct Work {
    /// Whether anything was done, so that the next round does not wait.
    pub(crate) is_busy: bool,
    /// Otherwise, how many milliseconds it waits at most.
    pub(crate) pause: u64,
    /// How many connections were closed for want of memory.
    pub(crate) wanting: u64,
}

/// What a round goes by. Times are in milliseconds.
#[derive(Clone, Copy, Debug, PartialEq, Eq)]
pub(crate) struct Round {
    /// When it began.
    pub(crate) now: u64,
    /// For how long a connection may be idle; 0 for ever.
    pub(crate) idle: u64,
    /// When a stop was ordered, if one was.
    pub(crate) stopped: Option<u64>,
    /// Whether what was answered is on its disk, so that it may leave.
    pub(crate) is_synced: bool,
}

impl Work {
    pub(crate) fn new(pause: u64) -> Self
        ensures none { (result.wanting ≡ 0) × (result.is_busy ≡ false) }
        ensures pause { result.pause ≡ pause }
    {
        Work {
            is_busy: false,
            pause,
            wanting: 0,
        }
    }

    /// A connection was closed, so its place is free for another.
    fn close(&mut self, why: Ending)
        requires { self.old.wanting < 2 ^ 64 - 1 }
        ensures wanting { self.new.wanting ≡ self.old.wanting + lost_by why }
        ensures busy { (self.new.is_busy ≡ true) × (self.new.pause ≡ self.old.pause) }
    {
        self.is_busy = true;
        if why == Ending::Memory {
            self.wanting += 1;
        }
    }
}

/// Ends the session of a connection, and closes it.
fn close<S: Sessions, C: Connections<S>>(
    sessions: &mut S,
    connections: &mut C,
    place: usize,
    why: Ending,
)
    ensures { (idle : ℕ) (start : S) (acts : History) → Has S.opens S.refuses S.hears S.misses S.ends C.has idle start connections.old sessions.old acts
        → Here (course acts place) (λ of. (of.is_open ≡ true) × MayBeClosed idle acts place why of)
        → (after : History) × Stays place 0 0 (lost_by why) acts after × Has S.opens S.refuses S.hears S.misses S.ends C.has idle start connections.new sessions.new after × (course after place ≡ None) × (was_busy after ≡ true) }
{
    sessions.end(place);
    connections.close(sessions, place, why);
}

/// A round is over now, so the connection at a place is idle from now on, unless it was so before.
pub(crate) fn rest_at(slot: &mut Option<Talk>, now: u64)
    ensures { (there : Option Course) → Fits slot.old there → Fits slot.new (rested now there) }
{
    if let Some(talk) = slot {
        talk.rest(now);
    }
}

/// Takes the next connection into a free place, if one waits, and says whether one did. If its session
/// cannot be opened, it is closed.
pub(crate) fn take_at<S: Sessions, C: Connections<S>>(
    alloc: Global,
    slot: &mut Option<Talk>,
    sessions: &mut S,
    connections: &mut C,
    place: usize,
    round: Round,
    work: &mut Work,
) -> bool
    requires free { slot.old ≡ None }
    requires goes_on { round.stopped ≡ None }
    requires few { work.old.wanting < 2 ^ 64 - 1 }
    ensures serves { ServesPlace S.opens S.refuses S.hears S.misses S.ends C.has Hearing round.idle round.now round.stopped place (came_by result) work.old.wanting work.new.wanting (λ before. IsUnread place before × IsKnownBusy work.old.is_busy before) (λ after. HasTried result place after × IsUnread place after × IsKnownBusy work.new.is_busy after) connections.old sessions.old slot.old connections.new sessions.new slot.new }
    ensures few { work.new.wanting ≤ work.old.wanting + 1 }
    ensures pause { work.new.pause ≡ work.old.pause }
{
    if !connections.take(place) {
        return false;
    }
    work.is_busy = true;
    match sessions.open(place) {
        Ok(()) => {
            *slot = Some(Talk::new(alloc));
            true
        }
        Err(fault) => {
            let ending = ending_of(fault);
            work.close(ending);
            connections.close(sessions, place, ending);
            true
        }
    }
}

/// Reads and hears the connection at a place.
pub(crate) fn hear_at<S: Sessions, C: Connections<S>>(
    alloc: Global,
    slot: &mut Option<Talk>,
    sessions: &mut S,
    connections: &mut C,
    place: usize,
    round: Round,
    room: &mut [u8; PIECE_SIZE],
    work: &mut Work,
)
    requires goes_on { round.stopped ≡ None }
    requires few { work.old.wanting < 2 ^ 64 - 1 }
    ensures serves { ServesPlace S.opens S.refuses S.hears S.misses S.ends C.has Hearing round.idle round.now round.stopped place 0 work.old.wanting work.new.wanting (λ before. IsUnread place before × IsKnownBusy work.old.is_busy before) (λ after. IfThere (course after place) (IsAttended after place) × IsKnownBusy work.new.is_busy after) connections.old sessions.old slot.old connections.new sessions.new slot.new }
    ensures few { work.new.wanting ≤ work.old.wanting + 1 }
    ensures pause { work.new.pause ≡ work.old.pause }
{
    let Some(talk) = slot else {
        return;
    };
    match talk.attend(alloc, sessions, connections, place, room) {
        Ok(has_done) => work.is_busy = work.is_busy || has_done,
        Err(why) => {
            work.close(why);
            close(sessions, connections, place, why);
            *slot = None;
        }
    }
}

/// Tells the connection at a place, and closes it if it is time.
pub(crate) fn tell_at<S: Sessions, C: Connections<S>>(
    alloc: Global,
    slot: &mut Option<Talk>,
    sessions: &mut S,
    connections: &mut C,
    place: usize,
    round: Round,
    work: &mut Work,
)
    ensures { ServesPlace S.opens S.refuses S.hears S.misses S.ends C.has (Telling round.is_synced) round.idle round.now round.stopped place 0 work.old.wanting work.new.wanting (IsKnownBusy work.old.is_busy) (λ after. IfThere (course after place) (IsServed round.idle after place) × KnowsPauseAt round.idle place work.old.is_busy work.old.pause work.new.is_busy work.new.pause after) connections.old sessions.old slot.old connections.new sessions.new slot.new }
{
    let Some(talk) = slot else {
        return;
    };
    match tell(alloc, talk, connections, place, round, work) {
        Ok(()) => {}
        Err(why) => {
            work.is_busy = true;
            close(sessions, connections, place, why);
            *slot = None; // The place is free.
        }
    }
}

/// Tells a connection, and says why it is to be closed, if it is.
fn tell<S: Sessions, C: Connections<S>>(
    alloc: Global,
    talk: &mut Talk,
    connections: &mut C,
    place: usize,
    round: Round,
    work: &mut Work,
) -> Result<(), Ending>
    ensures happens { (acts : History) → Knows C.has round.idle connections.old acts → stage acts ≡ Telling round.is_synced → clock acts ≡ round.now → stopped acts ≡ round.stopped
        → Here (course acts place) (KeepsTalk talk.old)
        → (after : History) × Adds place acts after × Knows C.has round.idle connections.new after × Judged round.idle after place result talk.new
        × IfOk result (λ _. Here (course after place) (IsServed round.idle after place) × (IsKnownBusy work.old.is_busy acts → IsKnownBusy work.new.is_busy after)) }
    ensures other { IfErr result (λ why. lost_by why ≡ 0) }
    ensures same { work.new.wanting ≡ work.old.wanting }
    ensures pause { IfOk result (λ _. work.new.pause ≡ until_due round.now round.idle round.stopped talk.new.idle_since work.old.pause) }
    ensures busy { work.new.is_busy ≡ false → work.old.is_busy ≡ false }
{
    if talk.tell(alloc, connections, place, round.now, round.is_synced)? {
        work.is_busy = true;
    }
    work.pause = judge(talk, round, work.pause)?;
    Ok(())
}

/// For how many milliseconds a connection may stay as it is, or why it is closed now.
fn judge(talk: &Talk, round: Round, most: u64) -> Result<u64, Ending>
    ensures due { (acts : History) (place : ℕ) → clock acts ≡ round.now → stopped acts ≡ round.stopped → (stage acts ≡ Telling false → talk.now.output.items ≡ [])
        → stage acts ≢ Hearing → (talk.now.output.items ≡ []) ⊎ InRound offers acts place → Here (course acts place) (KeepsTalk talk.now)
        → Judged round.idle acts place result talk.now × IfOk result (λ _. Here (course acts place) (IsNotDue round.idle acts)) }
    ensures left { IfOk result (λ left. left ≡ until_due round.now round.idle round.stopped talk.now.idle_since most) }
    ensures other { IfErr result (λ why. lost_by why ≡ 0) }
{
    talk.patience(round.now, round.idle, round.stopped, most)
}
