ghost use Rattle.std.specs.Prelude.{◌≡◌, ◌≤◌, ◌∷◌, ℕ, List, true, false, take, length};
ghost use Rattle.connections.specs.Histories.{Act, At, Deed, Ordered, GoesOn, IsOfSession, Leads, Syncs, NoneWaits, On, Comes, Reads, IsOver, IsSilent, Takes, TakesNone, Fails, Closes};

use crate::{Ending, Sessions};
use std::alloc::{AllocError, Global};

/// What a read of a connection gave.
#[derive(Clone, Copy, Debug, PartialEq, Eq)]
pub enum Reading {
    /// So many bytes, at least one, at the front of the room.
    Bytes(usize),
    /// The peer sends no more.
    End,
    /// Nothing has come since the last read.
    Wait,
    /// The connection failed.
    Fault,
}

/// What a write to a connection did.
#[derive(Clone, Copy, Debug, PartialEq, Eq)]
pub enum Writing {
    /// It took so many of the first bytes, at least one.
    Took(usize),
    /// It takes nothing now.
    Wait,
    /// The connection failed.
    Fault,
}

/// Connections, each in a place of its own, which is free until one is taken there. No call but `wait`
/// waits for a peer, and none but `sync` for a disk.
///
/// `wait`, `is_stopped`, `close` and `sync` are passed the sessions. Their clauses hold of a history that leads to
/// the sessions as they are then, so what was done to sessions before such a call stands before its act. The type
/// of the sessions is a parameter of the trait, so that code which is generic over both cannot pass sessions of
/// a type of its own. `take`, `read` and `write` are not passed them, and say nothing of how what was done to
/// sessions stands to their acts: what they read and write depends on what the sessions heard and answered.
pub trait Connections<S: Sessions> {
    // These acts have happened, the latest first. Of what happens to sessions it says nothing.
    ghost has: { Self → List Act → Type 0 };

    /// Waits until a connection may be taken, read or written, or a stop may have been ordered, but for
    /// at most so many milliseconds. Returns the time, in milliseconds since some start.
    fn wait(&mut self, sessions: &S, most: u64) -> u64
        ensures { (start : S) (acts : List Act) → Leads S.opens S.refuses S.hears S.misses S.ends start acts sessions.now → has self.old acts → has self.new (At most result ∷ acts) };

    /// Whether a stop has been ordered.
    fn is_stopped(&mut self, sessions: &S) -> bool
        ensures yes { result ≡ true → (start : S) (acts : List Act) → Leads S.opens S.refuses S.hears S.misses S.ends start acts sessions.now → has self.old acts → has self.new (Ordered ∷ acts) }
        ensures no { result ≡ false → (start : S) (acts : List Act) → Leads S.opens S.refuses S.hears S.misses S.ends start acts sessions.now → has self.old acts → has self.new (GoesOn ∷ acts) };

    /// Takes the next connection, if one waits and can be taken now, into a free place.
    fn take(&mut self, place: usize) -> bool
        ensures yes { result ≡ true → (acts : List Act) → has self.old acts → has self.new (On place Comes ∷ acts) }
        ensures no { result ≡ false → (acts : List Act) → has self.old acts → has self.new (NoneWaits ∷ acts) };

    /// Reads some bytes from the connection at a place.
    fn read(&mut self, place: usize, room: &mut [u8]) -> Reading
        ensures room { length room.new ≡ length room.old }
        ensures count { (count : ℕ) → result ≡ Reading.Bytes count → (1 ≤ count) × (count ≤ length room.new) }
        ensures bytes { (count : ℕ) → result ≡ Reading.Bytes count
            → (acts : List Act) → has self.old acts → has self.new (On place (Reads (take count room.new)) ∷ acts) }
        ensures end { result ≡ Reading.End → (acts : List Act) → has self.old acts → has self.new (On place IsOver ∷ acts) }
        ensures wait { result ≡ Reading.Wait → (acts : List Act) → has self.old acts → has self.new (On place IsSilent ∷ acts) }
        ensures fault { result ≡ Reading.Fault → (acts : List Act) → has self.old acts → has self.new (On place Fails ∷ acts) };

    /// Writes some of the bytes to the connection at a place.
    fn write(&mut self, place: usize, bytes: &[u8]) -> Writing
        ensures count { (count : ℕ) → result ≡ Writing.Took count → (1 ≤ count) × (count ≤ length bytes.now) }
        ensures bytes { (count : ℕ) → result ≡ Writing.Took count
            → (acts : List Act) → has self.old acts → has self.new (On place (Takes (take count bytes.now)) ∷ acts) }
        ensures wait { result ≡ Writing.Wait → (acts : List Act) → has self.old acts → has self.new (On place TakesNone ∷ acts) }
        ensures fault { result ≡ Writing.Fault → (acts : List Act) → has self.old acts → has self.new (On place Fails ∷ acts) };

    /// Closes the connection at a place, which is free again.
    fn close(&mut self, sessions: &S, place: usize, why: Ending)
        ensures { (start : S) (acts : List Act) → Leads S.opens S.refuses S.hears S.misses S.ends start acts sessions.now → has self.old acts → has self.new (On place (Closes why) ∷ acts) };

    /// Puts on its disk what the answers so far tell of, and says whether it is there.
    fn sync(&mut self, sessions: &S) -> bool
        ensures { (start : S) (acts : List Act) → Leads S.opens S.refuses S.hears S.misses S.ends start acts sessions.now → has self.old acts → has self.new (Syncs result ∷ acts) };

    /// Says how many are open, for a report, and what else it knows, in words `key=value`. No clause speaks of them.
    fn report(&self, alloc: Global) -> Result<String, AllocError>;

    // What happens to a session leaves the connections as they are.
    ghost passes: { (connections : Self) (acts : List Act) (place : ℕ) (deed : Deed) → IsOfSession deed → has connections acts → has connections (On place deed ∷ acts) };
}
