//! Of `hub`: what users see of a run, as an example of what `Hub::run` ensures of one.

use crate::clients;
use crate::directories::{Made, common_secrets, make_keyed, make_summed, read_first};
use crate::hubs::{TOKEN, events, refuse};
use crate::stand_ins::{Functions, summed};
use book::{NoKeeper, Refusal};
use client::Client;
use commands::Query;
use encoding::{Hash32, Name};
use hub::{Desk, Event, Hub};
use nodehash::{NodeHash, Sha256Hash};
use questions::{Case, tells_of_memory};
use rand_chacha::ChaCha20Rng;
use sigiface::KeyedSign;
use std::alloc::Global;
use vrfiface::{KeyedVuf, Vuf, index_of};
use wire::{Feed, FeedRefusal, Next, PROMISED, PROOF, ReadRefusal, Request};

mod reply;
mod telling;

use reply::{body_of, proof_epoch};
use telling::{Printed, tell_client, tell_response, tell_statement};

type SeenHub<H, V> = Hub<Desk<H, V, KeyedSign, ChaCha20Rng, NoKeeper>>;

/// A client that follows the directory, and what it is handed: the functions, and the names that the
/// sessions asked about.
#[derive(Drop)]
struct User<H: NodeHash + Drop, V: Vuf + Drop> {
    alloc: Global,
    by: Functions<H, V>,
    client: Client<H, V, KeyedSign>,
    names: Vec<Name>,
}

/// `seen EPOCH NONCE (open S|bytes S PIECE|end S)..`
pub(crate) fn answer_keyed(case: &mut Case<'_>) {
    let secrets = common_secrets();
    let made = make_keyed(case.alloc(), &read_first(case), &secrets);
    let by = Functions {
        hash: Sha256Hash::new(),
        vuf: KeyedVuf::new(secrets.vuf),
        verifier: KeyedSign::new(secrets.sign),
    };
    answer(case, made, by);
}

/// `seen-sum EPOCH NONCE (open S|bytes S PIECE|end S)..`
pub(crate) fn answer_summed(case: &mut Case<'_>) {
    let made = make_summed(case.alloc(), &read_first(case), &common_secrets());
    answer(case, made, summed());
}

fn answer<H, V>(case: &mut Case<'_>, made: Result<Made<H, V>, Refusal>, by: Functions<H, V>)
where
    H: NodeHash + Drop,
    V: Vuf + Drop,
{
    match made {
        Ok(directory) => begin(
            case,
            Hub::new(case.alloc(), directory, NoKeeper, Hash32::new(TOKEN)),
            by,
        ),
        Err(why) => refuse(case, why),
    }
}

/// Lets a client start at the first root.
fn begin<H, V>(case: &mut Case<'_>, hub: SeenHub<H, V>, by: Functions<H, V>)
where
    H: NodeHash + Drop,
    V: Vuf + Drop,
{
    let alloc = case.alloc();
    let root = hub.head().write();
    match Client::start(alloc, &by.verifier, common_secrets().sign, root.bytes()) {
        Ok(client) => run(
            case,
            hub,
            User {
                alloc,
                by,
                client,
                names: Vec::new(alloc),
            },
        ),
        Err(why) => clients::refuse(case, why),
    }
}

fn run<H, V>(case: &mut Case<'_>, made: SeenHub<H, V>, started: User<H, V>)
where
    H: NodeHash + Drop,
    V: Vuf + Drop,
{
    let mut hub = made;
    let mut user = started;
    let events = events(case);
    if case.is_spoiled() {
        return;
    }
    match hub.run(&events) {
        Ok(outputs) => tell(case, &mut hub, &mut user, &events, &outputs),
        Err(_) => case.lack_memory(),
    }
}

fn tell<H, V>(
    case: &mut Case<'_>,
    hub: &mut SeenHub<H, V>,
    user: &mut User<H, V>,
    events: &[Event<'_>],
    outputs: &[(u32, Vec<u8>)],
)
where
    H: NodeHash + Drop,
    V: Vuf + Drop,
{
    tell_head(case, hub, user);
    for (session, output) in outputs {
        tell_session(case, user, events, *session, output);
    }
    tell_indices(case, user);
}

/// The session in which the roots are asked for. If it is open, it ends.
const ASKING: u32 = 0;

/// Asks for the first 64 roots.
const HISTORY: [u8; 15] = [0, 0, 0, 11, 5, 0, 0, 0, 0, 0, 0, 0, 0, 0, 64];

/// Lets the client take the first 64 roots, and tells whether the last root is the client's.
fn tell_head<H, V>(case: &mut Case<'_>, hub: &mut SeenHub<H, V>, user: &mut User<H, V>)
where
    H: NodeHash + Drop,
    V: Vuf + Drop,
{
    let mut reply = Vec::new(case.alloc());
    if !ask_roots(hub, &mut reply) {
        return case.lack_memory();
    }
    let by = &mut user.by;
    match user
        .client
        .update(&mut by.hash, &by.verifier, body_of(&reply))
    {
        Ok(()) => case.say(if has_head(hub, user) {
            "head"
        } else {
            "other head"
        }),
        Err(why) => clients::refuse(case, why),
    }
    case.say_shown(hub.head().body.epoch);
}

fn ask_roots<H, V>(hub: &mut SeenHub<H, V>, reply: &mut Vec<u8>) -> bool
where
    H: NodeHash + Drop,
    V: Vuf + Drop,
{
    let _ended = hub.event(&Event::End(ASKING), reply);
    hub.event(&Event::Open(ASKING), reply).is_ok()
        && hub.event(&Event::Bytes(ASKING, &HISTORY), reply).is_ok()
}

/// Whether the client's last root is that of the directory.
fn has_head<H, V>(hub: &SeenHub<H, V>, user: &User<H, V>) -> bool
where
    H: NodeHash + Drop,
    V: Vuf + Drop,
{
    user.client.chain().head().write().bytes() == hub.head().write().bytes()
}

/// What a session has sent on its stream that is not read, and what it was told that is not told here.
#[derive(Drop)]
struct Session {
    number: u32,
    asked: Option<Feed>,
    told: Feed,
}

/// Tells a line for each message of a session.
fn tell_session<H, V>(
    case: &mut Case<'_>,
    user: &mut User<H, V>,
    events: &[Event<'_>],
    number: u32,
    output: &[u8],
)
where
    H: NodeHash + Drop,
    V: Vuf + Drop,
{
    let mut printed = Printed::new(case.alloc());
    let mut session = Session {
        number,
        asked: None,
        told: Feed::new(case.alloc()),
    };
    if session.told.feed(output).is_err() || tells_of_memory(output) {
        printed.lack_memory();
    }
    for event in events {
        take(user, &mut session, event, &mut printed);
    }
    // There is no more.
    tell_next(&mut session.told, &mut printed);
    tell_printed(case, number, &printed);
}

fn tell_printed(case: &mut Case<'_>, number: u32, printed: &Printed) {
    if printed.lacks_memory() {
        case.lack_memory();
    }
    case.say_shown(number);
    case.join(":");
    case.say_text(printed.text());
}

/// Takes an event, if it is one of the session.
fn take<H, V>(
    user: &mut User<H, V>,
    session: &mut Session,
    event: &Event<'_>,
    printed: &mut Printed,
)
where
    H: NodeHash + Drop,
    V: Vuf + Drop,
{
    match event {
        Event::Open(number) if *number == session.number => open(session, user.alloc),
        Event::Bytes(number, piece) if *number == session.number => {
            hear(user, session, piece, printed);
        }
        Event::End(number) if *number == session.number => session.asked = None,
        _ => {}
    }
}

fn open(session: &mut Session, alloc: Global) {
    if session.asked.is_none() {
        session.asked = Some(Feed::new(alloc));
    }
}

/// Reads the messages that are whole with a piece, each with the reply to it.
fn hear<H, V>(user: &mut User<H, V>, session: &mut Session, piece: &[u8], printed: &mut Printed)
where
    H: NodeHash + Drop,
    V: Vuf + Drop,
{
    let Some(asked) = &mut session.asked else {
        return;
    };
    if matches!(asked.feed(piece), Err(FeedRefusal::Memory)) {
        return printed.lack_memory();
    }
    read_all(user, asked, &mut session.told, printed);
}

fn read_all<H, V>(user: &mut User<H, V>, asked: &mut Feed, told: &mut Feed, printed: &mut Printed)
where
    H: NodeHash + Drop,
    V: Vuf + Drop,
{
    // No piece completes so many messages.
    for _ in 0..u64::MAX {
        match asked.next() {
            Next::Frame(kind, body) => read_next(user, &Request::read(kind, body), told, printed),
            Next::Failed => return tell_next(told, printed),
            Next::Wait => return,
        }
    }
}

/// Tells the next reply as it is.
fn tell_next(told: &mut Feed, printed: &mut Printed) {
    if let Next::Frame(kind, reply) = told.next() {
        tell_response(printed, kind, reply);
    }
}

/// Tells the next reply, which is to this message.
fn read_next<H, V>(
    user: &mut User<H, V>,
    message: &Result<Request<'_>, ReadRefusal>,
    told: &mut Feed,
    printed: &mut Printed,
)
where
    H: NodeHash + Drop,
    V: Vuf + Drop,
{
    if let Ok(request) = message {
        note(user, request, printed);
    }
    let Next::Frame(kind, reply) = told.next() else {
        return;
    };
    match (message, kind) {
        (Ok(Request::Query(Query::Lookup { name, epoch })), PROOF) => {
            look(user, name, *epoch, reply, printed)
        }
        (_, PROMISED) => read_promise(user, reply, printed),
        _ => tell_response(printed, kind, reply),
    }
}

/// Tells a promise that the client can keep.
fn read_promise<H, V>(user: &mut User<H, V>, reply: &[u8], printed: &mut Printed)
where
    H: NodeHash + Drop,
    V: Vuf + Drop,
{
    let by = &mut user.by;
    match user.client.read_promise(&mut by.hash, &by.verifier, reply) {
        Ok(_) => tell_response(printed, PROMISED, reply),
        Err(why) => tell_client(user.alloc, printed, why),
    }
}

/// Keeps the name that a request is about. One that no page can have is passed over.
fn note<H, V>(user: &mut User<H, V>, request: &Request<'_>, printed: &mut Printed)
where
    H: NodeHash + Drop,
    V: Vuf + Drop,
{
    if let Ok(name) = Name::new(name_of(request)) {
        if user.names.push(name).is_err() {
            printed.lack_memory();
        }
    }
}

/// The name that a request is about, or no byte.
fn name_of<'a>(request: &Request<'a>) -> &'a [u8] {
    match request {
        Request::Put(put) => put.name,
        Request::Query(Query::Promise { name } | Query::Lookup { name, .. }) => name,
        Request::Query(Query::History { .. } | Query::Head) | Request::Turn { .. } => &[],
    }
}

/// Tells what the client accepts of a reply to a look-up. Epoch 0 asks for the page that was the latest.
fn look<H, V>(user: &mut User<H, V>, name: &[u8], asked: u64, reply: &[u8], printed: &mut Printed)
where
    H: NodeHash + Drop,
    V: Vuf + Drop,
{
    let Ok(name) = Name::new(name) else {
        return;
    };
    let epoch = if asked == 0 {
        proof_epoch(reply)
    } else {
        asked
    };
    let by = &mut user.by;
    match user.client.look(&mut by.hash, &by.vuf, &name, epoch, reply) {
        Ok(statement) => tell_statement(printed, epoch, statement),
        Err(why) => tell_client(user.alloc, printed, why),
    }
}

/// Tells whether two names that were asked about have one index.
fn tell_indices<H, V>(case: &mut Case<'_>, user: &mut User<H, V>)
where
    H: NodeHash + Drop,
    V: Vuf + Drop,
{
    for name in &user.names {
        if meets(&mut user.by, &user.names, name) {
            return case.say("indices meet");
        }
    }
    case.say("indices differ");
}

/// Whether another of the names has the index of this one.
fn meets<H, V>(by: &mut Functions<H, V>, names: &[Name], name: &Name) -> bool
where
    H: NodeHash + Drop,
    V: Vuf + Drop,
{
    let index = index_of(&mut by.hash, by.vuf.value(name).bytes());
    for other in names {
        let also = index_of(&mut by.hash, by.vuf.value(other).bytes());
        if also.bytes() == index.bytes() && other.bytes() != name.bytes() {
            return true;
        }
    }
    false
}
