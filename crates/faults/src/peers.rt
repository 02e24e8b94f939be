// Connections that do what a script says. Each wait of the loop is a step of the script, whose acts come before it
// returns. Once the script is at its end, the loop goes on until it has nothing to do, and then a stop is ordered.
ghost use Rattle.std.specs.Prelude.{◌≡◌, ◌≤◌, ℕ, length, Ok};

use connections::{Connections, Ending, Reading, Sessions, Writing};
use std::alloc::{AllocError, Global};

/// What happens.
#[derive(Clone, Copy, Debug)]
pub(crate) enum Act<'a> {
    /// A step begins, at this time.
    At(u64),
    /// So many connections come.
    Come(usize),
    /// What happens to so many connections, from this one on.
    To(usize, usize, Change<'a>),
    /// A stop is ordered.
    Stop,
    /// What is answered in this step does not get on its disk.
    Unsynced,
}

/// What happens to a connection.
#[derive(Clone, Copy, Debug)]
pub(crate) enum Change<'a> {
    /// The peer sends these bytes.
    Gives(&'a [u8]),
    /// The peer sends no more.
    IsOver,
    /// A read gives at most so many bytes, and a write takes at most so many.
    Piece(usize),
    Width(usize),
    /// The peer takes so many bytes from now on.
    Room(usize),
    /// The reads that follow this byte fail, and the writes that do.
    ReadFails(usize),
    WriteFails(usize),
}

/// The peer of a connection.
#[derive(Drop)]
pub(crate) struct Peer {
    given: Vec<u8>,
    /// How many of the bytes that were given are read.
    pub(crate) read: usize,
    pub(crate) taken: Vec<u8>,
    pub(crate) ending: Option<Ending>,
    is_over: bool,
    piece: usize,
    width: usize,
    room: usize,
    read_fails: usize,
    write_fails: usize,
}

impl Peer {
    fn new(alloc: Global) -> Self {
        Peer {
            given: Vec::new(alloc),
            read: 0,
            taken: Vec::new(alloc),
            ending: None,
            is_over: false,
            piece: usize::MAX,
            width: usize::MAX,
            room: usize::MAX,
            read_fails: usize::MAX,
            write_fails: usize::MAX,
        }
    }

    fn change(&mut self, change: Change<'_>) -> Result<(), AllocError> {
        match change {
            Change::Gives(bytes) => return self.given.extend_from_slice(bytes),
            Change::IsOver => self.is_over = true,
            Change::Piece(size) => self.piece = size,
            Change::Width(size) => self.width = size,
            Change::Room(size) => self.room = size,
            Change::ReadFails(count) => self.read_fails = count,
            Change::WriteFails(count) => self.write_fails = count,
        }
        Ok(())
    }

    fn read(&mut self, room: &mut [u8]) -> Reading
        ensures room { length room.new ≡ length room.old }
        ensures count { (count : ℕ) → result ≡ Reading.Bytes count → (1 ≤ count) × (count ≤ length room.new) }
    {
        let allowed = self.read_fails.saturating_sub(self.read);
        if allowed == 0 {
            return Reading::Fault;
        }
        let unread = self.given.len().saturating_sub(self.read);
        let count = least(unread, self.piece.min(allowed), room.len());
        if count == 0 {
            return if self.is_over {
                Reading::End
            } else {
                Reading::Wait
            };
        }
        let end = self.read + count;
        room[..count].copy_from_slice(&self.given[self.read..end]);
        self.read = end;
        Reading::Bytes(count)
    }

    /// Takes some of the bytes, and says how many.
    fn write(&mut self, bytes: &[u8]) -> Result<Writing, AllocError>
        ensures count { (count : ℕ) → result ≡ Ok (Writing.Took count) → (1 ≤ count) × (count ≤ length bytes.now) }
    {
        let allowed = self.write_fails.saturating_sub(self.taken.len());
        if allowed == 0 {
            return Ok(Writing::Fault);
        }
        let count = least(bytes.len(), self.width.min(allowed), self.room);
        if count == 0 {
            return Ok(Writing::Wait);
        }
        self.taken.extend_from_slice(&bytes[..count])?;
        if self.room < usize::MAX {
            self.room = self.room.saturating_sub(count);
        }
        Ok(Writing::Took(count))
    }
}

/// The least of these numbers.
fn least(one: usize, other: usize, third: usize) -> usize
    ensures { (result ≤ one) × (result ≤ third) }
{
    one.min(other).min(third)
}

/// The connections of a script.
#[derive(Drop)]
pub(crate) struct Peers<'a> {
    alloc: Global,
    script: &'a [Act<'a>],
    /// How many acts have happened.
    done: usize,
    now: u64,
    is_stopped: bool,
    is_synced: bool,
    pub(crate) peers: Vec<Peer>,
    /// How many were taken. They are taken in the order in which they come.
    taken: usize,
    /// The connection at each place.
    places: Vec<Option<usize>>,
    pub(crate) lacks_memory: bool,
}

impl<'a> Peers<'a> {
    /// No connection, at so many places.
    pub(crate) fn new(
        alloc: Global,
        script: &'a [Act<'a>],
        places: usize,
    ) -> Result<Self, AllocError> {
        Ok(Peers {
            alloc,
            script,
            done: 0,
            now: 0,
            is_stopped: false,
            is_synced: true,
            peers: Vec::new(alloc),
            taken: 0,
            places: Vec::from_elem(alloc, None, places)?,
            lacks_memory: false,
        })
    }

    fn act(&mut self, act: Act<'_>) -> Result<(), AllocError> {
        match act {
            Act::At(now) => self.now = now,
            Act::Come(count) => {
                for _ in 0..count {
                    self.peers.push(Peer::new(self.alloc))?;
                }
            }
            Act::To(first, count, change) => {
                for peer in self.peers.iter_mut().skip(first).take(count) {
                    peer.change(change)?;
                }
            }
            Act::Stop => self.is_stopped = true,
            Act::Unsynced => self.is_synced = false,
        }
        Ok(())
    }

    /// What happens from the next step to the one after it.
    fn step(&mut self) {
        let script = self.script;
        let first = self.done;
        for place in first..script.len() {
            let act = script[place];
            if place > first && matches!(act, Act::At(_)) {
                return;
            }
            self.done = place + 1;
            if self.act(act).is_err() {
                self.lacks_memory = true;
            }
        }
    }

    /// The connection at a place.
    fn at(&mut self, place: usize) -> Option<&mut Peer> {
        let number = match self.places.get(place) {
            Some(Some(number)) => *number,
            _ => return None,
        };
        self.peers.get_mut(number)
    }
}

impl<S: Sessions> Connections<S> for Peers<'_> {
    ghost use Rattle.std.specs.Prelude.{⊤};

    // What happens is told by the script, and contracts know nothing of it.
    ghost has = { λ _ _. ⊤ };

    ghost passes = { λ _ _ _ _ _ _. tt };

    fn wait(&mut self, _sessions: &S, most: u64) -> u64 {
        self.is_synced = true;
        if self.done >= self.script.len() {
            if most > 0 {
                self.is_stopped = true;
                self.now = self.now.saturating_add(most);
            }
            return self.now;
        }
        self.step();
        self.now
    }

    fn is_stopped(&mut self, _sessions: &S) -> bool {
        self.is_stopped
    }

    fn take(&mut self, place: usize) -> bool {
        if self.taken >= self.peers.len() {
            return false;
        }
        if let Some(free) = self.places.get_mut(place) {
            *free = Some(self.taken);
        }
        self.taken = self.taken.saturating_add(1);
        true
    }

    fn read(&mut self, place: usize, room: &mut [u8]) -> Reading {
        match self.at(place) {
            Some(peer) => peer.read(room),
            None => Reading::Fault,
        }
    }

    fn write(&mut self, place: usize, bytes: &[u8]) -> Writing {
        let wrote = match self.at(place) {
            Some(peer) => peer.write(bytes),
            None => Ok(Writing::Fault),
        };
        match wrote {
            Ok(writing) => writing,
            Err(_) => {
                self.lacks_memory = true;
                Writing::Fault
            }
        }
    }

    fn close(&mut self, _sessions: &S, place: usize, why: Ending) {
        if let Some(peer) = self.at(place) {
            peer.ending = Some(why);
        }
        if let Some(place) = self.places.get_mut(place) {
            *place = None;
        }
    }

    fn sync(&mut self, _sessions: &S) -> bool {
        self.is_synced
    }

    fn report(&self, alloc: Global) -> Result<String, AllocError> {
        let open = self.places.iter().filter(|place| place.is_some()).count();
        format!(in alloc; "connections={open}")
    }
}
