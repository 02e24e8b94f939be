//! All places, one after another, in each part of a round.

ghost use Rattle.std.specs.Prelude.{◌≡◌, ◌⊎◌, ◌↔◌, ◌+◌, ◌^◌, ◌<◌, ◌≤◌, ◌∷◌, ℕ, None, IsTrue, IfOk, get_or, length};
ghost use Rattle.connections.specs.Fairness.{AreAttended, AreServed, AreUsed, NoneWaited};
ghost use Rattle.connections.specs.Fitting.{AreFree, AreUnread, FitAll, IsKnownBusy, KnowsPause, Tours, size_of};
ghost use Rattle.connections.specs.Histories.{At, History, Hearing, Telling};

use crate::Sessions;
use crate::connections::Connections;
use crate::slots::{Round, Work, hear_at, rest_at, take_at, tell_at};
use crate::talk::Talk;
use std::alloc::{AllocError, Global};
use textio::PIECE_SIZE;

/// Places of connections.
#[derive(Drop)]
pub struct Places {
    pub(crate) slots: Vec<Option<Talk>>,
}

impl Places {
    /// So many places, all of them free.
    ///
    /// # Errors
    ///
    /// `AllocError`.
    pub fn free(alloc: Global, count: usize) -> Result<Places, AllocError>
        ensures free { IfOk result AreFree }
        ensures size { IfOk result (λ places. size_of places ≡ count) }
    {
        Ok(Places {
            slots: free_slots(alloc, count)?,
        })
    }
}

fn free_slots(alloc: Global, count: usize) -> Result<Vec<Option<Talk>>, AllocError>
    ensures free { IfOk result (λ slots. (place : ℕ) → get_or slots.items place None ≡ None) }
    ensures size { IfOk result (λ slots. length slots.items ≡ count) }
{
    let mut slots = Vec::with_capacity(alloc, count)?;
    for _place in 0..count {
        slots.push(None)?;
    }
    Ok(slots)
}

/// Whether no place has a connection.
pub(crate) fn are_free(places: &[Option<Talk>]) -> bool
    ensures { IsTrue result ↔ ((place : ℕ) → get_or places.now place None ≡ None) }
{
    for slot in places {
        if slot.is_some() {
            return false;
        }
    }
    true
}

/// A round is over now, so all connections are idle from now on that were not so before.
pub(crate) fn rest_all(places: &mut [Option<Talk>], now: u64)
    ensures { (acts : History) (pause : ℕ) → FitAll places.old acts → FitAll places.new (At pause now ∷ acts) }
{
    for place in 0..places.len() {
        rest_at(&mut places[place], now);
    }
}

/// Takes connections that wait into the free places, at most so many. Returns how many more may be taken.
pub(crate) fn take_all<S: Sessions, C: Connections<S>>(
    alloc: Global,
    places: &mut [Option<Talk>],
    sessions: &mut S,
    connections: &mut C,
    round: Round,
    left: u64,
    work: &mut Work,
) -> u64
    requires goes_on { round.stopped ≡ None }
    requires few { work.old.wanting + length places.old < 2 ^ 64 }
    ensures tours { Tours S.opens S.refuses S.hears S.misses S.ends C.has Hearing round.idle round.now round.stopped left result work.old.wanting work.new.wanting (λ before. AreUnread before × IsKnownBusy work.old.is_busy before) (λ after. ((result ≡ 0) ⊎ NoneWaited after ⊎ AreUsed (length places.old) after) × AreUnread after × IsKnownBusy work.new.is_busy after) connections.old sessions.old places.old connections.new sessions.new places.new }
    ensures few { work.new.wanting ≤ work.old.wanting + length places.old }
    ensures pause { work.new.pause ≡ work.old.pause }
{
    let mut left = left;
    for place in 0..places.len() {
        if left == 0 {
            return left;
        }
        if places[place].is_some() {
            continue;
        }
        if !take_at(
            alloc,
            &mut places[place],
            sessions,
            connections,
            place,
            round,
            work,
        ) {
            return left;
        }
        left -= 1;
    }
    left
}

/// Reads and hears each connection.
pub(crate) fn hear_all<S: Sessions, C: Connections<S>>(
    alloc: Global,
    places: &mut [Option<Talk>],
    sessions: &mut S,
    connections: &mut C,
    round: Round,
    room: &mut [u8; PIECE_SIZE],
    work: &mut Work,
)
    requires goes_on { round.stopped ≡ None }
    requires few { work.old.wanting + length places.old < 2 ^ 64 }
    ensures tours { Tours S.opens S.refuses S.hears S.misses S.ends C.has Hearing round.idle round.now round.stopped 0 0 work.old.wanting work.new.wanting (λ before. AreUnread before × IsKnownBusy work.old.is_busy before) (λ after. AreAttended after × IsKnownBusy work.new.is_busy after) connections.old sessions.old places.old connections.new sessions.new places.new }
    ensures few { work.new.wanting ≤ work.old.wanting + length places.old }
    ensures pause { work.new.pause ≡ work.old.pause }
{
    for place in 0..places.len() {
        hear_at(
            alloc,
            &mut places[place],
            sessions,
            connections,
            place,
            round,
            room,
            work,
        );
    }
}

/// Tells each connection, and closes those whose time it is.
pub(crate) fn tell_all<S: Sessions, C: Connections<S>>(
    alloc: Global,
    places: &mut [Option<Talk>],
    sessions: &mut S,
    connections: &mut C,
    round: Round,
    work: &mut Work,
)
    ensures { Tours S.opens S.refuses S.hears S.misses S.ends C.has (Telling round.is_synced) round.idle round.now round.stopped 0 0 work.old.wanting work.new.wanting (IsKnownBusy work.old.is_busy) (λ after. AreServed round.idle after × KnowsPause round.idle (length places.old) work.old.pause work.new.is_busy work.new.pause after) connections.old sessions.old places.old connections.new sessions.new places.new }
{
    for place in 0..places.len() {
        tell_at(
            alloc,
            &mut places[place],
            sessions,
            connections,
            place,
            round,
            work,
        );
    }
}
