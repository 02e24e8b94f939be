//! Of `client`: clients that are there for one question alone take lists of roots, whole or in pieces.

use crate::clients::{Kept, refuse};
use crate::feeds::in_pieces;
use crate::stand_ins::{Keyed, keyed};
use client::{Client, Refusal};
use encoding::Hash32;
use nodehash::Sha256Hash;
use questions::Case;
use rootchain::RootFeed;
use vrfiface::KeyedVuf;

/// How a list comes to a client.
#[derive(Clone, Copy, Debug)]
enum Way {
    /// By `update`.
    Whole,
    /// By `update_from` in pieces of so many bytes, or in one piece if it is 0.
    Pieces(usize),
    /// By `update_from` in two pieces, of which the first has so many bytes.
    Two(usize),
}

/// A client, and the functions under which it takes lists.
#[derive(Drop)]
struct Taker {
    by: Keyed,
    client: Kept<Sha256Hash, KeyedVuf>,
}

impl Taker {
    /// The client that starts at a root, or none and the refusal.
    fn start(case: &mut Case<'_>, key: Hash32, root: &[u8]) -> Option<Taker> {
        let by = keyed();
        match Client::start(case.alloc(), &by.verifier, key, root) {
            Ok(client) => Some(Taker { by, client }),
            Err(why) => {
                refuse(case, why);
                None
            }
        }
    }

    fn take_piece(&mut self, feed: &mut RootFeed, piece: &[u8]) -> Result<(), Refusal> {
        self.client
            .update_from(&mut self.by.hash, &self.by.verifier, feed, piece)
    }

    /// Takes a list, up to the first piece that is refused.
    fn take(&mut self, feed: &mut RootFeed, way: Way, list: &[u8]) -> Result<(), Refusal> {
        match way {
            Way::Whole => self
                .client
                .update(&mut self.by.hash, &self.by.verifier, list),
            Way::Pieces(size) => in_pieces(size, list, |piece| self.take_piece(feed, piece)),
            Way::Two(place) => {
                let (front, rest) = list.split_at(place.min(list.len()));
                self.take_piece(feed, front)?;
                self.take_piece(feed, rest)
            }
        }
    }

    /// Tells the head, and whether the list has come whole.
    fn say_state(&self, case: &mut Case<'_>, feed: &RootFeed) {
        case.say_bytes(self.client.chain().head().write().bytes());
        case.say_truth(feed.done());
    }

    /// Tells what a call answered, and what it left. Returns whether it had memory.
    fn tell(&self, case: &mut Case<'_>, feed: &RootFeed, taken: Result<(), Refusal>) -> bool {
        let had_memory = !matches!(&taken, Err(Refusal::Memory));
        match taken {
            Ok(()) => case.say("ok"),
            Err(why) => case.refuse(why.number(), why),
        }
        self.say_state(case, feed);
        had_memory
    }

    /// Tells the state, then what a list or a piece comes to, and once more where memory runs out for it.
    fn ask(&mut self, case: &mut Case<'_>, feed: &mut RootFeed, way: Way, list: &[u8]) {
        self.say_state(case, feed);
        let first = self.take(feed, way, list);
        if self.tell(case, feed, first) {
            return;
        }
        let second = self.take(feed, way, list);
        if !self.tell(case, feed, second) {
            case.lack_memory();
        }
    }

    /// Tells whether the list has come whole, or what an empty piece is answered: the feed waits, or has failed.
    fn say_end(&mut self, case: &mut Case<'_>, feed: &mut RootFeed) {
        if feed.done() {
            return case.say("done");
        }
        match self.take_piece(feed, &[]) {
            Ok(()) => case.say("waits"),
            Err(Refusal::Memory) => case.lack_memory(),
            Err(_) => case.say("failed"),
        }
    }

    /// Takes a list, and tells the answer, the epoch of the head then, and of pieces what the feed has come to.
    fn tell_way(&mut self, case: &mut Case<'_>, way: Way, list: &[u8]) {
        let mut feed = RootFeed::new();
        match self.take(&mut feed, way, list) {
            Ok(()) => case.say("ok"),
            Err(Refusal::Memory) => case.lack_memory(),
            Err(why) => case.say_shown(why.number()),
        }
        case.say_shown(self.client.chain().head().body.epoch);
        if !matches!(way, Way::Whole) {
            self.say_end(case, &mut feed);
        }
    }
}

/// `ways KEY ROOT LIST PLACE`: four clients start at the root. The list comes to one of them whole, and to the
/// others in one piece, one byte a piece, and in two pieces, of which the first ends at the place.
pub(crate) fn ways(case: &mut Case<'_>) {
    let key = case.hash();
    let root = case.bytes();
    let list = case.bytes();
    let place = case.number_to(list.len());
    if case.is_spoiled() {
        return;
    }
    let mut heads = Vec::new(case.alloc());
    for way in [Way::Whole, Way::Pieces(0), Way::Pieces(1), Way::Two(place)] {
        let Some(mut taker) = Taker::start(case, key, root) else {
            return;
        };
        taker.tell_way(case, way, list);
        let head = taker.client.chain().head().write();
        if heads.extend_from_slice(head.bytes()).is_err() {
            case.lack_memory();
        }
    }
    case.say_bytes(&heads);
}

/// `room KEY ROOT PIECE..`: the last piece of a list goes to a client, and those before it to another one. Where
/// memory runs out for it, the client gets it once more.
pub(crate) fn room(case: &mut Case<'_>) {
    let key = case.hash();
    let root = case.bytes();
    let Some(mut other) = Taker::start(case, key, root) else {
        return;
    };
    let Some(mut taker) = Taker::start(case, key, root) else {
        return;
    };
    let mut feed = RootFeed::new();
    for _ in 1..case.left() {
        if let Err(Refusal::Memory) = other.take_piece(&mut feed, case.bytes()) {
            return case.lack_memory();
        }
    }
    let last = case.bytes();
    taker.ask(case, &mut feed, Way::Pieces(0), last);
}

/// `room-more KEY ROOT LIST PIECE`: a client takes a list in one piece, and then the first piece of another one.
/// Where memory runs out for that, it gets it once more.
pub(crate) fn room_more(case: &mut Case<'_>) {
    let Some((mut taker, list)) = begin(case) else {
        return;
    };
    if let Err(Refusal::Memory) = taker.take_piece(&mut RootFeed::new(), list) {
        return case.lack_memory();
    }
    let piece = case.bytes();
    taker.ask(case, &mut RootFeed::new(), Way::Pieces(0), piece);
}

/// `room-whole KEY ROOT LIST`: the list goes to a client whole, once more where memory runs out.
pub(crate) fn room_whole(case: &mut Case<'_>) {
    if let Some((mut taker, list)) = begin(case) {
        taker.ask(case, &mut RootFeed::new(), Way::Whole, list);
    }
}

/// The client that starts at `KEY ROOT`, and the list in the next word.
fn begin<'a>(case: &mut Case<'a>) -> Option<(Taker, &'a [u8])> {
    let key = case.hash();
    let root = case.bytes();
    let list = case.bytes();
    Some((Taker::start(case, key, root)?, list))
}
