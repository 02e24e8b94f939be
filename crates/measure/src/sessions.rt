use crate::directory::{FIRST, Provided, close, new_directory, promise_byte, register_all};
use crate::held::{key_of, name_of};
use crate::run::Run;
use commands::{Put, Query, Verb};
use encoding::{Hash32, ProofText};
use epochs::{NoKeeper, Refusal};
use hub::{Desk, Event, Hub};
use nodehash::Sha256Hash;
use rand_chacha::ChaCha20Rng;
use sigiface::KeyedSign;
use vrfiface::KeyedVuf;
use wire::{Answer, Request};

/// A hub of a directory as a provider would run it.
type ProvidedHub = Hub<Desk<Sha256Hash, KeyedVuf, KeyedSign, ChaCha20Rng, NoKeeper>>;

/// The sessions that are open.
const SESSIONS: u32 = 16;

/// What is asked.
#[derive(Clone, Copy)]
enum Kind {
    Head,
    LookUp,
    Register,
}

/// A name, and a key for it.
#[derive(Clone, Copy)]
struct Entry {
    name: [u8; 16],
    key: [u8; 32],
}

/// The number of a name that is asked for in a round: one of the names of the page, or a new one that is to
/// be registered.
fn number_of(kind: Kind, names: u64, frames: u64, round: u64, place: u64) -> u64 {
    match kind {
        Kind::Register => {
            let behind = frames.wrapping_mul(round);
            names.wrapping_add(behind).wrapping_add(place)
        }
        _ => {
            let step = (names / frames.max(1)).max(1);
            place.wrapping_mul(step).wrapping_add(round) % names.max(1)
        }
    }
}

/// The entries of a round, each with its first key.
fn entries_of(run: &Run, kind: Kind, names: usize, frames: usize, round: usize) -> Vec<Entry> {
    let mut entries = run.list(frames);
    for place in 0..frames as u64 {
        let number = number_of(kind, names as u64, frames as u64, round as u64, place);
        let (name, key) = (name_of(number), key_of(number, 1));
        run.push(&mut entries, Entry { name, key });
    }
    entries
}

/// The streams of the sessions, among which the requests go round.
fn streams_of(run: &Run, kind: Kind, entries: &[Entry]) -> Vec<Vec<u8>> {
    let mut streams = run.list(SESSIONS as usize);
    for _ in 0..SESSIONS {
        let stream = run.list(0);
        run.push(&mut streams, stream);
    }
    for (place, entry) in entries.iter().enumerate() {
        if let Some(stream) = streams.get_mut(place % SESSIONS as usize) {
            write_frame(run, kind, entry, stream);
        }
    }
    streams
}

/// Appends a frame. All requests are made here, since the checker has to see a query wherever a request
/// is held.
fn write_frame(run: &Run, kind: Kind, entry: &Entry, stream: &mut Vec<u8>) {
    let (name, key) = (entry.name.as_slice(), entry.key.as_slice());
    let request = match kind {
        Kind::Head => Request::Query(Query::Head),
        Kind::LookUp => Request::Query(Query::Lookup { name, epoch: 0 }),
        Kind::Register => Request::Put(Put {
            verb: Verb::Register,
            name,
            key,
            policy: None,
        }),
    };
    if !request.fits() || request.write(stream).is_err() {
        run.fail();
    }
}

/// Appends a frame that asks for the head.
pub(crate) fn write_head(run: &Run, stream: &mut Vec<u8>) {
    let (name, key) = (name_of(0), key_of(0, 1));
    write_frame(run, Kind::Head, &Entry { name, key }, stream);
}

/// The pieces of the streams, of so many bytes, as events of the sessions in turn.
fn events_of<'a>(run: &Run, streams: &'a [Vec<u8>], bytes: usize) -> Vec<Event<'a>> {
    let mut events = run.list(0);
    let longest = streams.first().map_or(0, |stream| stream.len());
    for number in 0..longest {
        let mut session = 0;
        for stream in streams {
            put_piece(run, &mut events, session, piece_of(stream, bytes, number));
            session = u32::wrapping_add(session, 1);
        }
    }
    events
}

/// The event of a piece, unless it is empty.
fn put_piece<'a>(run: &Run, events: &mut Vec<Event<'a>>, session: u32, piece: &'a [u8]) {
    if !piece.is_empty() {
        run.push(events, Event::Bytes(session, piece));
    }
}

/// The piece of this number of a stream that is cut in pieces of so many bytes. Behind the last it is empty.
fn piece_of(stream: &[u8], bytes: usize, number: usize) -> &[u8] {
    let start = number.saturating_mul(bytes).min(stream.len());
    let rest = stream.split_at(start).1;
    rest.split_at(bytes.min(rest.len())).0
}

/// A directory whose page has so many names.
fn directory_of(run: &Run, names: usize) -> Option<Provided> {
    match new_directory(run) {
        Some(mut directory) => {
            register_all(run, &mut directory, &mut NoKeeper, names);
            close(run, &mut directory, &mut NoKeeper, FIRST);
            Some(directory)
        }
        None => None,
    }
}

/// Opens the sessions.
fn open_sessions(run: &Run, hub: &mut ProvidedHub) {
    let mut output = run.list(0);
    for session in 0..SESSIONS {
        if hub.event(&Event::Open(session), &mut output).is_err() {
            run.fail();
        }
    }
}

/// A hub of such a directory, with its sessions open.
fn hub_of(run: &Run, names: usize) -> Option<ProvidedHub> {
    match directory_of(run, names) {
        Some(directory) => {
            let mut hub = Hub::new(run.alloc(), directory, NoKeeper, Hash32::default());
            open_sessions(run, &mut hub);
            Some(hub)
        }
        None => None,
    }
}

/// The last byte of a reply.
fn reply_byte(run: &Run, reply: Result<ProofText, Refusal>) -> u64 {
    match reply {
        Ok(reply) => match reply.bytes().last() {
            Some(byte) => u64::from(*byte),
            None => 0,
        },
        Err(_) => {
            run.fail();
            0
        }
    }
}

/// Makes the call for a request, and lets the reply go. Returns one byte of it, so that the compiler has to
/// make it.
fn call(run: &Run, directory: &mut Provided, kind: Kind, entry: &Entry) -> u64 {
    match kind {
        Kind::Head => u64::from(directory.head().body.root.bytes()[0]),
        Kind::LookUp => reply_byte(run, directory.lookup(&entry.name, 0)),
        Kind::Register => {
            let promised = directory.register(&mut NoKeeper, &entry.name, &entry.key);
            promise_byte(run, promised)
        }
    }
}

/// The step of the calls for the requests: adds the bytes up.
fn make_calls(run: &Run, directory: &mut Provided, kind: Kind, entries: &[Entry]) {
    let mut sum: u64 = 0;
    for entry in entries {
        sum = sum.wrapping_add(call(run, directory, kind, entry));
    }
    run.step(sum);
}

/// Makes the call for a request, and appends the frame of the reply.
fn write_call(
    run: &Run,
    directory: &mut Provided,
    kind: Kind,
    entry: &Entry,
    output: &mut Vec<u8>,
) {
    let is_written = match kind {
        Kind::Head => Answer::Root(directory.head()).write(output).is_ok(),
        Kind::LookUp => match directory.lookup(&entry.name, 0) {
            Ok(reply) => Answer::Proof(&reply).write(output).is_ok(),
            Err(_) => false,
        },
        Kind::Register => match directory.register(&mut NoKeeper, &entry.name, &entry.key) {
            Ok(promise) => Answer::Promise(&promise).write(output).is_ok(),
            Err(_) => false,
        },
    };
    if !is_written {
        run.fail();
    }
}

/// The step of the calls for the requests, with the frames of the replies written: counts their bytes.
fn write_calls(run: &Run, directory: &mut Provided, kind: Kind, entries: &[Entry]) {
    let mut output = run.list(0);
    for entry in entries {
        write_call(run, directory, kind, entry, &mut output);
    }
    run.step(output.len() as u64);
}

/// The step of handling the events: counts the bytes of all outputs.
fn run_hub(run: &Run, hub: &mut ProvidedHub, events: &[Event<'_>]) {
    match hub.run(events) {
        Ok(outputs) => {
            let mut bytes: u64 = 0;
            for (_, output) in &outputs {
                bytes = bytes.saturating_add(output.len() as u64);
            }
            run.step(bytes);
        }
        Err(_) => run.fail(),
    }
}

/// Three directories with the same names, of which a hub has the third. All are asked the same.
#[derive(Drop)]
struct Sides {
    /// Its replies are let go.
    called: Provided,
    /// The frames of its replies are written.
    written: Provided,
    hub: ProvidedHub,
}

/// Directories with so many names on their pages.
fn sides_of(run: &Run, names: usize) -> Option<Sides> {
    Some(Sides {
        called: directory_of(run, names)?,
        written: directory_of(run, names)?,
        hub: hub_of(run, names)?,
    })
}

/// The steps of one kind of request in a round: the events made, the calls, the calls with the frames of
/// their replies written, and the events.
fn measure_kind(run: &Run, sides: &mut Sides, kind: Kind, entries: &[Entry], piece: usize) {
    let streams = streams_of(run, kind, entries);
    let events = events_of(run, &streams, piece);
    run.step(events.len() as u64);
    make_calls(run, &mut sides.called, kind, entries);
    write_calls(run, &mut sides.written, kind, entries);
    run_hub(run, &mut sides.hub, &events);
}

/// The steps of so many rounds: in each those of requests for the head, of look-ups, and of registrations.
fn measure_rounds(run: &Run, sides: &mut Sides, sizes: [usize; 4]) {
    let [names, frames, piece, rounds] = sizes;
    run.step(0);
    for round in 0..rounds {
        for kind in [Kind::Head, Kind::LookUp, Kind::Register] {
            let entries = entries_of(run, kind, names, frames, round);
            measure_kind(run, sides, kind, &entries, piece);
        }
    }
}

/// `hub NAMES FRAMES PIECE ROUNDS`. The steps: those of `measure_rounds`. The requests come in pieces of so
/// many bytes. The numbers of the last two steps of a kind are the bytes of the replies' frames.
pub(crate) fn measure(run: &Run, numbers: &[usize]) {
    let sizes = run.numbers::<4>(numbers);
    match sides_of(run, sizes[0]) {
        Some(mut sides) => measure_rounds(run, &mut sides, sizes),
        None => run.fail(),
    }
}
