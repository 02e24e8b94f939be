//! Of `monitor`: a monitor, which stays for the next lines. It takes the client.

use crate::clients::{
    KeyedClients, reconcile_both, refuse as refuse_client, say_cause, say_option, tell_done,
};
use crate::feeds;
use crate::stand_ins::{Functions, keyed};
use client::Client;
use encoding::{Hash32, KeyData};
use monitor::{Monitor, Refusal, Step};
use nodehash::{NodeHash, Sha256Hash};
use questions::{AnySign, Case, say_policy, say_statement};
use sigiface::{KeyedSign, Verifier};
use vrfiface::{KeyedVuf, VufCheck};

type Kept<H, V> = Monitor<H, V, KeyedSign>;

pub(crate) type KeyedMonitor = Kept<Sha256Hash, KeyedVuf>;

pub(crate) fn answer(
    case: &mut Case<'_>,
    clients: &mut KeyedClients,
    kept: &mut Option<KeyedMonitor>,
) {
    match case.word() {
        b"new" => new(case, &mut clients.client, kept),
        b"new2" => new_with_policy(case, &mut clients.client, kept),
        b"any" => any(case, &mut keyed()),
        b"reconcile" => {
            let client = kept.as_ref().map(|monitor| monitor.client());
            reconcile_both(case, &mut keyed(), client, clients.other.as_ref());
        }
        b"from" => match kept {
            Some(monitor) => {
                let mut by = keyed();
                let feed = &mut clients.feed;
                feeds::update(case, |piece| {
                    monitor.update_from(&mut by.hash, &by.verifier, feed, piece)
                });
            }
            None => case.spoil(),
        },
        verb => match kept {
            Some(monitor) => answer_on(case, &mut keyed(), verb, monitor),
            None => case.spoil(),
        },
    }
}

fn answer_on<H, V>(
    case: &mut Case<'_>,
    by: &mut Functions<H, V>,
    verb: &[u8],
    monitor: &mut Kept<H, V>,
)
where
    H: NodeHash + Drop,
    V: VufCheck + Drop,
{
    match verb {
        b"update" => {
            let updated = monitor.update(&mut by.hash, &by.verifier, case.bytes());
            tell_done(case, updated);
        }
        b"expect" => expect(case, &mut by.hash, &by.verifier, monitor),
        b"expect2" => expect_with_policy(case, by, monitor),
        b"step" => step(case, by, monitor),
        b"next" => say_option(case, monitor.next_epoch()),
        b"expected" => expected(case, monitor),
        b"name" => case.say_bytes(monitor.name().bytes()),
        b"client" => case.say_shown(monitor.client().chain().head().body.epoch),
        _ => case.spoil(),
    }
}

/// The next word as a key, or `none`.
fn some_key(case: &mut Case<'_>) -> Option<KeyData> {
    let bytes = case.option()?;
    match KeyData::new(bytes) {
        Ok(key) => Some(key),
        Err(_) => {
            case.spoil();
            None
        }
    }
}

/// `new NAME KEY|none`
fn new<H, V>(
    case: &mut Case<'_>,
    client: &mut Option<Client<H, V, KeyedSign>>,
    kept: &mut Option<Kept<H, V>>,
)
where
    H: NodeHash + Drop,
    V: VufCheck + Drop,
{
    let name = case.name();
    let key = some_key(case);
    if case.is_spoiled() {
        return;
    }
    let Some(client) = client.take() else {
        return case.spoil();
    };
    *kept = Some(Monitor::new(case.alloc(), client, name, key));
    case.say("ok");
}

/// `new2 NAME KEY POLICY`
fn new_with_policy<H, V>(
    case: &mut Case<'_>,
    client: &mut Option<Client<H, V, KeyedSign>>,
    kept: &mut Option<Kept<H, V>>,
)
where
    H: NodeHash + Drop,
    V: VufCheck + Drop,
{
    let name = case.name();
    let key = case.key();
    let policy = case.policy();
    if case.is_spoiled() {
        return;
    }
    let Some(client) = client.take() else {
        return case.spoil();
    };
    *kept = Some(Monitor::new2(case.alloc(), client, name, key, policy));
    case.say("ok");
}

/// `any NAME ROOT LIST KEY PROMISE`: a monitor of its own, under a verifier that accepts each signature,
/// starts at the root, takes the list and expects the change.
fn any<H, V>(case: &mut Case<'_>, by: &mut Functions<H, V>)
where
    H: NodeHash + Drop,
    V: VufCheck + Drop,
{
    let name = case.name();
    let root = case.bytes();
    match Client::<H, V, AnySign>::start(case.alloc(), &AnySign, Hash32::default(), root) {
        Ok(client) => {
            case.say("ok");
            let mut monitor = Monitor::new(case.alloc(), client, name, None);
            let updated = monitor.update(&mut by.hash, &AnySign, case.bytes());
            tell_done(case, updated);
            expect(case, &mut by.hash, &AnySign, &mut monitor);
        }
        Err(why) => refuse_client(case, why),
    }
}

fn refuse(case: &mut Case<'_>, why: Refusal) {
    if let Refusal::Client(why) = &why {
        say_cause(case, why);
    }
    case.refuse(why.number(), why);
}

/// `expect KEY PROMISE`
fn expect<H, V, S>(case: &mut Case<'_>, hash: &mut H, verifier: &S, monitor: &mut Monitor<H, V, S>)
where
    H: NodeHash + Drop,
    V: VufCheck + Drop,
    S: Verifier + Drop,
{
    let key = case.key();
    let promise = case.bytes();
    if case.is_spoiled() {
        return;
    }
    tell_expected(case, monitor.expect_change(hash, verifier, &key, promise));
}

/// `expect2 KEY POLICY PROMISE`
fn expect_with_policy<H, V>(case: &mut Case<'_>, by: &mut Functions<H, V>, monitor: &mut Kept<H, V>)
where
    H: NodeHash + Drop,
    V: VufCheck + Drop,
{
    let key = case.key();
    let policy = case.policy();
    let promise = case.bytes();
    if case.is_spoiled() {
        return;
    }
    let expected = monitor.expect_change2(&mut by.hash, &by.verifier, &key, policy, promise);
    tell_expected(case, expected);
}

fn tell_expected(case: &mut Case<'_>, expected: Result<(), Refusal>) {
    match expected {
        Ok(()) => case.say("ok"),
        Err(why) => refuse(case, why),
    }
}

/// `step REPLY`
fn step<H, V>(case: &mut Case<'_>, by: &mut Functions<H, V>, monitor: &mut Kept<H, V>)
where
    H: NodeHash + Drop,
    V: VufCheck + Drop,
{
    let reply = case.bytes();
    if case.is_spoiled() {
        return;
    }
    match monitor.step(&mut by.hash, &by.vuf, reply) {
        Ok(Step::Kept) => case.say("kept"),
        Ok(Step::Alarm { epoch, found }) => {
            case.say("alarm");
            case.say_shown(epoch);
            say_statement(case, found);
        }
        Err(why) => refuse(case, why),
    }
}

/// `expected EPOCH`
fn expected<H, V>(case: &mut Case<'_>, monitor: &Kept<H, V>)
where
    H: NodeHash + Drop,
    V: VufCheck + Drop,
{
    match monitor.expected(case.number()) {
        Some(key) => {
            case.say_bytes(key.bytes());
            say_policy(case, key.policy);
        }
        None => case.say("none"),
    }
}
