//! Of `journal`: records that are kept, and records that are counted.

use book::{Keeper, Record};
use commands::Verb;
use journal::{Journal, records};
use questions::Case;

/// The most room that a question gives.
const ROOM: usize = 5000;

pub(crate) fn answer(case: &mut Case<'_>) {
    match case.word() {
        b"start" => start(case),
        b"register" => bound(case, Verb::Register, false),
        b"change" => bound(case, Verb::Change, false),
        b"register2" => bound(case, Verb::Register, true),
        b"change2" => bound(case, Verb::Change, true),
        b"turn" => turned(case),
        b"rotate" => rotated(case),
        b"records" => count(case),
        _ => case.spoil(),
    }
}

/// `start ROOM EPOCH NONCE SIGNING-KEY VUF-KEY`
fn start(case: &mut Case<'_>) {
    let room = case.number_to(ROOM);
    let what = Record::Start {
        epoch: case.number(),
        nonce: case.hash(),
        signing_key: case.hash(),
        vuf_key: case.hash(),
    };
    keep_twice(case, room, &what);
}

/// `register ROOM SALT NAME KEY`, and `change` the same; `register2` and `change2` with a policy behind the key
fn bound(case: &mut Case<'_>, verb: Verb, has_policy: bool) {
    let room = case.number_to(ROOM);
    let what = Record::Bound {
        verb,
        salt: case.hash(),
        name: case.name(),
        key: case.bound_key(has_policy),
    };
    keep_twice(case, room, &what);
}

/// `turn ROOM EPOCH`
fn turned(case: &mut Case<'_>) {
    let room = case.number_to(ROOM);
    let what = Record::Turned {
        epoch: case.number(),
        nonce: None,
    };
    keep_twice(case, room, &what);
}

/// `rotate ROOM EPOCH NONCE`
fn rotated(case: &mut Case<'_>) {
    let room = case.number_to(ROOM);
    let what = Record::Turned {
        epoch: case.number(),
        nonce: Some(case.hash()),
    };
    keep_twice(case, room, &what);
}

/// Whether a journal with so much room keeps the record, and whether it keeps it once more; and what the
/// room holds then, with zeros where nothing was written.
fn keep_twice(case: &mut Case<'_>, room: usize, what: &Record) {
    let room = room.min(ROOM);
    let mut bytes = [0; ROOM];
    let mut journal = Journal::new(bytes.split_at_mut(room).0);
    case.say_truth(journal.keep(what).is_ok());
    case.say_truth(journal.keep(what).is_ok());
    case.say_bytes(bytes.split_at(room).0);
}

/// `records BYTES`
fn count(case: &mut Case<'_>) {
    let bytes = case.bytes();
    case.say_shown(records(bytes));
}
