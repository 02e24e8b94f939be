//! The loop. A round waits, takes connections into free places, reads and hears each, puts what was answered on
//! its disk, and then tells each. A round that did anything is followed by one that does not wait: a place may
//! have become free, and there may be more to read.

ghost use Rattle.std.specs.Prelude.{◌≡◌, ◌≢◌, ◌⊎◌, ◌↔◌, ◌||◌, ◌+◌, ◌^◌, ◌<◌, ◌≤◌, ℕ, Bool, List, Option, [], None, IsTrue, get_or, if◌then◌else◌, length, true};
ghost use Rattle.connections.specs.Endings.{AreInside, AreWithin, HasEnded, IsStopped, most_comers};
ghost use Rattle.connections.specs.Fairness.{AreAttended, AreUsed, IsFair, IsWhole, NoneOrdered, NoneWaited};
ghost use Rattle.connections.specs.Fitting.{AreFree, AreUnread, Begins, FitAll, Has, IsKnownBusy, MayOrder, Tours, Turns, size_of};
ghost use Rattle.connections.specs.Histories.{History, Hearing, clock, stopped};
ghost use Rattle.connections.specs.Pauses.{IsPause, pause_of};
ghost use Rattle.connections.specs.Telling.{TellsAll, TellsLines, TellsSome};

use crate::connections::Connections;
use crate::loop_limits::LONGEST_WAIT;
use crate::places::{Places, are_free, hear_all, rest_all, take_all, tell_all};
use crate::reports::Reports;
use crate::slots::{Round, Work};
use crate::talk::Talk;
use crate::{Limits, Sessions};
use std::alloc::Global;
use std::io::Write;
use textio::{PIECE_SIZE, write_text};

/// When a stop was ordered, if one was by now, where this was known before.
fn stop_by<S: Sessions, C: Connections<S>>(
    sessions: &S,
    connections: &mut C,
    now: u64,
    known: Option<u64>,
) -> Option<u64>
    ensures { (idle : ℕ) (start : S) (acts : History) → Has S.opens S.refuses S.hears S.misses S.ends C.has idle start connections.old sessions.now acts → clock acts ≡ now → stopped acts ≡ known
        → (after : History) × MayOrder acts after × Has S.opens S.refuses S.hears S.misses S.ends C.has idle start connections.new sessions.now after × (stopped after ≡ result)
        × (IsStopped after ⊎ NoneOrdered after) }
{
    if known.is_some() {
        return known;
    }
    if connections.is_stopped(sessions) {
        return Some(now);
    }
    None
}

/// Takes new connections, unless a stop was ordered. Returns how many more may be taken.
fn take_new<S: Sessions, C: Connections<S>>(
    alloc: Global,
    places: &mut [Option<Talk>],
    sessions: &mut S,
    connections: &mut C,
    round: Round,
    left: u64,
    work: &mut Work,
) -> u64
    requires { work.old.wanting + length places.old < 2 ^ 64 }
    ensures tours { Tours S.opens S.refuses S.hears S.misses S.ends C.has Hearing round.idle round.now round.stopped left result work.old.wanting work.new.wanting (λ before. AreUnread before × IsKnownBusy work.old.is_busy before) (λ after. (IsStopped after ⊎ (result ≡ 0) ⊎ NoneWaited after ⊎ AreUsed (length places.old) after) × AreUnread after × IsKnownBusy work.new.is_busy after) connections.old sessions.old places.old connections.new sessions.new places.new }
    ensures few { work.new.wanting ≤ work.old.wanting + length places.old }
    ensures pause { work.new.pause ≡ work.old.pause }
{
    if round.stopped.is_some() {
        return left;
    }
    take_all(alloc, places, sessions, connections, round, left, work)
}

/// Reads and hears each connection, unless a stop was ordered.
fn hear_new<S: Sessions, C: Connections<S>>(
    alloc: Global,
    places: &mut [Option<Talk>],
    sessions: &mut S,
    connections: &mut C,
    round: Round,
    room: &mut [u8; PIECE_SIZE],
    work: &mut Work,
)
    requires { work.old.wanting + length places.old < 2 ^ 64 }
    ensures tours { Tours S.opens S.refuses S.hears S.misses S.ends C.has Hearing round.idle round.now round.stopped 0 0 work.old.wanting work.new.wanting (λ before. AreUnread before × IsKnownBusy work.old.is_busy before) (λ after. (IsStopped after ⊎ AreAttended after) × IsKnownBusy work.new.is_busy after) connections.old sessions.old places.old connections.new sessions.new places.new }
    ensures pause { work.new.pause ≡ work.old.pause }
{
    if round.stopped.is_some() {
        return;
    }
    hear_all(alloc, places, sessions, connections, round, room, work);
}

/// Writes so many lines about connections that were closed for want of memory. One that cannot be written is
/// passed over.
fn tell_wanting<E: Write>(errors: &mut E, wanting: u64)
    ensures { (every : ℕ) (told : Bool) (count : ℕ) (start : Option (List ℕ)) → TellsLines every told count start (E.contents errors.old) → TellsLines every told (count + wanting) start (E.contents errors.new) }
{
    for _line in 0..wanting {
        let _told = write_text(errors, b"out of memory\n");
    }
}

/// Writes a line if something could not be kept, unless one was written before. Returns whether one was written by now. A
/// line that cannot be written is passed over.
fn tell_unkept<S: Sessions, E: Write>(
    sessions: &S,
    is_synced: bool,
    errors: &mut E,
    was_told: bool,
) -> bool
    ensures told { result ≡ (was_told || (if is_synced then S.any_unkept sessions.now else true)) }
    ensures lines { (every count : ℕ) (start : Option (List ℕ)) → TellsLines every was_told count start (E.contents errors.old) → TellsLines every result count start (E.contents errors.new) }
{
    if was_told || (is_synced && !sessions.has_unkept()) {
        return was_told;
    }
    let _told = write_text(
        errors,
        b"journal: cannot write, edits are refused until a restart\n",
    );
    true
}

/// Where the loop stands between two rounds.
#[derive(Clone, Copy, Debug, PartialEq, Eq)]
struct State {
    round: Round,
    work: Work,
    /// How many more connections may be taken.
    left: u64,
}

impl State {
    /// Before the first round.
    fn new(limits: Limits) -> Self
        ensures round { (result.round.idle ≡ limits.idle) × (result.round.stopped ≡ None) }
        ensures left { result.left ≡ most_comers limits.count }
        ensures pause { pause_of result.work.is_busy result.work.pause ≡ 0 }
    {
        State {
            round: Round {
                now: 0,
                idle: limits.idle,
                stopped: None,
                is_synced: false,
            },
            work: Work::new(0),
            left: if limits.count == 0 {
                u64::MAX
            } else {
                limits.count
            },
        }
    }

    /// How many milliseconds the next round may wait: none after one that did anything.
    fn pause(self) -> u64
        ensures { result ≡ pause_of self.work.is_busy self.work.pause }
    {
        if self.work.is_busy {
            0
        } else {
            self.work.pause
        }
    }

    /// Whether no more connections are taken.
    fn is_closing(self) -> bool
        ensures { IsTrue result ↔ ((self.left ≡ 0) ⊎ (self.round.stopped ≢ None)) }
    {
        self.left == 0 || self.round.stopped.is_some()
    }
}

/// Whether no more connections are taken, and no place has one.
fn is_finished(state: State, places: &[Option<Talk>]) -> bool
    ensures { IsTrue result ↔ (((state.left ≡ 0) ⊎ (state.round.stopped ≢ None)) × ((place : ℕ) → get_or places.now place None ≡ None)) }
{
    state.is_closing() && are_free(places)
}

/// Begins a round: waits, and asks whether a stop was ordered. By then the last round is over.
fn begin<S: Sessions, C: Connections<S>>(
    places: &mut [Option<Talk>],
    sessions: &S,
    connections: &mut C,
    last: State,
) -> Round
    ensures begins { (start : S) (acts : History) → Has S.opens S.refuses S.hears S.misses S.ends C.has last.round.idle start connections.old sessions.now acts → stopped acts ≡ last.round.stopped → FitAll places.old acts
        → IsPause last.round.idle acts (pause_of last.work.is_busy last.work.pause)
        → (after : History) × Has S.opens S.refuses S.hears S.misses S.ends C.has last.round.idle start connections.new sessions.now after × Begins result.now acts after × FitAll places.new after × (stopped after ≡ result.stopped)
        × (IsStopped after ⊎ NoneOrdered after) }
    ensures same { result.idle ≡ last.round.idle }
{
    let now = connections.wait(sessions, last.pause());
    rest_all(places, now);
    let stopped = stop_by(sessions, connections, now, last.round.stopped);
    Round {
        now,
        idle: last.round.idle,
        stopped,
        is_synced: false,
    }
}

/// One round.
fn turn<S: Sessions, C: Connections<S>>(
    alloc: Global,
    places: &mut [Option<Talk>],
    sessions: &mut S,
    connections: &mut C,
    last: State,
    room: &mut [u8; PIECE_SIZE],
) -> State
    ensures turns { Turns S.opens S.refuses S.hears S.misses S.ends C.has last.round.idle last.round.stopped last.left (pause_of last.work.is_busy last.work.pause) connections.old sessions.old places.old result.round.stopped result.left (pause_of result.work.is_busy result.work.pause) result.work.wanting result.round.is_synced connections.new sessions.new places.new }
    ensures same { result.round.idle ≡ last.round.idle }
{
    let mut round = begin(places, sessions, connections, last);
    let mut work = Work::new(LONGEST_WAIT);
    let left = take_new(
        alloc,
        places,
        sessions,
        connections,
        round,
        last.left,
        &mut work,
    );
    hear_new(alloc, places, sessions, connections, round, room, &mut work);
    round.is_synced = connections.sync(sessions);
    tell_all(alloc, places, sessions, connections, round, &mut work);
    State { round, work, left }
}

/// Round after round, over places that are free, until no more connections are taken and those that were
/// taken have ended.
fn turn_all<S: Sessions, C: Connections<S>, E: Write>(
    alloc: Global,
    places: &mut [Option<Talk>],
    sessions: &mut S,
    connections: &mut C,
    limits: Limits,
    errors: &mut E,
)
    requires { (place : ℕ) → get_or places.old place None ≡ None }
    ensures tells { (told : Bool) × TellsSome limits.report told (E.contents errors.old) (E.contents errors.new) }
    ensures happens { C.has connections.old [] → (acts : History) × Has S.opens S.refuses S.hears S.misses S.ends C.has limits.idle sessions.old connections.new sessions.new acts × AreWithin limits.count acts × HasEnded limits.count acts
        × IsFair limits.idle limits.count (length places.old) acts × IsWhole limits.idle acts × AreInside (length places.old) acts
        × TellsAll S.is_unkept limits.report (S.any_unkept sessions.old) acts (E.contents errors.old) (E.contents errors.new) }
{
    let mut is_told = tell_unkept(sessions, true, errors, false);
    let mut state = State::new(limits);
    let mut reports = Reports::new(limits.report);
    // Pieces are read into this one room: what is heard at once is kept nowhere else.
    let mut room = [0; PIECE_SIZE];
    // Every loop of Rattle has an end: this one's is past any life of a server.
    for _round in 0..u64::MAX {
        state = turn(alloc, places, sessions, connections, state, &mut room);
        tell_wanting(errors, state.work.wanting);
        is_told = tell_unkept(sessions, state.round.is_synced, errors, is_told);
        reports.tell(alloc, sessions, connections, state.round.now, errors);
        if is_finished(state, places) {
            return;
        }
    }
}

/// Answers connections, each at a place and by a session of its own, until so many were taken and have ended,
/// or until a stop is ordered and those that were open have ended. Whatever the connections do, what happens
/// is sound: each connection takes a beginning of what its session was answered, in order, and is closed for
/// a reason that holds; and each round gives each connection its turn, until the loop is over. A connection
/// that is closed for want of memory is told of in a line to the errors, and so is, once, that something could not be kept:
/// an answer said so, or a sync failed. A report is written as often as the limits say.
pub fn answer_all<S: Sessions, C: Connections<S>, E: Write>(
    alloc: Global,
    places: Places,
    sessions: &mut S,
    connections: &mut C,
    limits: Limits,
    errors: &mut E,
)
    requires { AreFree places }
    ensures tells { (told : Bool) × TellsSome limits.report told (E.contents errors.old) (E.contents errors.new) }
    ensures happens { C.has connections.old [] → (acts : History) × Has S.opens S.refuses S.hears S.misses S.ends C.has limits.idle sessions.old connections.new sessions.new acts × AreWithin limits.count acts × HasEnded limits.count acts
        × IsFair limits.idle limits.count (size_of places) acts × IsWhole limits.idle acts × AreInside (size_of places) acts
        × TellsAll S.is_unkept limits.report (S.any_unkept sessions.old) acts (E.contents errors.old) (E.contents errors.new) }
{
    let mut places = places;
    turn_all(
        alloc,
        places.slots.as_mut_slice(),
        sessions,
        connections,
        limits,
        errors,
    );
}
