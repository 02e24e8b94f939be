//! Of `client`: a client, and another one, which stay for the next lines.

use crate::evidences::say_changed;
use crate::stand_ins::{Functions, keyed, summed};
use crate::{feeds, lists};
use client::{Client, Due, Outcome, Refusal, reconcile};
use encoding::Hash32;
use nodehash::{NodeHash, Sha256Hash, SumHash};
use questions::{AnySign, Case, say_evidence, say_statement};
use rootchain::RootFeed;
use sigiface::KeyedSign;
use vrfiface::{KeyedVuf, PlainVuf, VufCheck};

pub(crate) type Kept<H, V> = Client<H, V, KeyedSign>;

/// A client, the one that was put aside, and a list of roots that comes in pieces.
#[derive(Drop)]
pub(crate) struct Clients<H: NodeHash + Drop, V: VufCheck + Drop> {
    pub(crate) client: Option<Kept<H, V>>,
    pub(crate) other: Option<Kept<H, V>>,
    pub(crate) feed: RootFeed,
}

pub(crate) type KeyedClients = Clients<Sha256Hash, KeyedVuf>;

pub(crate) type SummedClients = Clients<SumHash, PlainVuf>;

pub(crate) fn answer_keyed(case: &mut Case<'_>, clients: &mut KeyedClients) {
    match case.word() {
        b"ways" => lists::ways(case),
        b"room" => lists::room(case),
        b"room-more" => lists::room_more(case),
        b"room-whole" => lists::room_whole(case),
        verb => answer(case, &mut keyed(), verb, clients),
    }
}

pub(crate) fn answer_summed(case: &mut Case<'_>, clients: &mut SummedClients) {
    let verb = case.word();
    answer(case, &mut summed(), verb, clients);
}

fn answer<H, V>(
    case: &mut Case<'_>,
    by: &mut Functions<H, V>,
    verb: &[u8],
    clients: &mut Clients<H, V>,
)
where
    H: NodeHash + Drop,
    V: VufCheck + Drop,
{
    match verb {
        b"start" => start(case, by, &mut clients.client),
        b"any" => any(case, by),
        b"put-aside" => put_aside(case, clients),
        b"feed" => feeds::begin(case, &mut clients.feed),
        b"done" => feeds::done(case, &clients.feed),
        b"from" => match &mut clients.client {
            Some(client) => {
                let feed = &mut clients.feed;
                feeds::update(case, |piece| {
                    client.update_from(&mut by.hash, &by.verifier, feed, piece)
                });
            }
            None => case.spoil(),
        },
        b"reconcile" => {
            reconcile_both(case, by, clients.client.as_ref(), clients.other.as_ref());
        }
        b"reconcile-self" => {
            reconcile_both(case, by, clients.client.as_ref(), clients.client.as_ref());
        }
        _ => match &mut clients.client {
            Some(client) => answer_on(case, by, verb, client),
            None => case.spoil(),
        },
    }
}

fn answer_on<H, V>(
    case: &mut Case<'_>,
    by: &mut Functions<H, V>,
    verb: &[u8],
    client: &mut Kept<H, V>,
)
where
    H: NodeHash + Drop,
    V: VufCheck + Drop,
{
    match verb {
        b"update" => {
            let updated = client.update(&mut by.hash, &by.verifier, case.bytes());
            tell_done(case, updated);
        }
        b"look" => look(case, by, client),
        b"look-next" => look_next(case, by, client),
        b"keep" => {
            let kept = client.keep_promise(&mut by.hash, &by.verifier, case.bytes());
            tell_done(case, kept);
        }
        b"due" => due(case, by, client),
        b"due-epoch" => due_epoch(case, client),
        b"finality" => finality(case, client),
        b"key" => case.say_bytes(client.key().bytes()),
        b"head" => case.say_bytes(client.chain().head().write().bytes()),
        _ => case.spoil(),
    }
}

/// The evidence of a refusal, if it has some.
pub(crate) fn say_cause(case: &mut Case<'_>, why: &Refusal) {
    match why {
        Refusal::Memory => case.lack_memory(),
        Refusal::RootDiffers(evidence) => say_evidence(case, evidence),
        _ => {}
    }
}

/// Refuses a call of a client.
pub(crate) fn refuse(case: &mut Case<'_>, why: Refusal) {
    say_cause(case, &why);
    case.refuse(why.number(), why);
}

pub(crate) fn tell_done(case: &mut Case<'_>, done: Result<(), Refusal>) {
    match done {
        Ok(()) => case.say("ok"),
        Err(why) => refuse(case, why),
    }
}

/// `start KEY ROOT`
fn start<H, V>(case: &mut Case<'_>, by: &Functions<H, V>, kept: &mut Option<Kept<H, V>>)
where
    H: NodeHash + Drop,
    V: VufCheck + Drop,
{
    let key = case.hash();
    let root = case.bytes();
    if case.is_spoiled() {
        return;
    }
    match Client::start(case.alloc(), &by.verifier, key, root) {
        Ok(client) => {
            *kept = Some(client);
            case.say("ok");
        }
        Err(why) => refuse(case, why),
    }
}

/// `any ROOT LIST PROMISE`: a client of its own, under a verifier that accepts each signature, starts at
/// the root, takes the list and keeps the promise.
fn any<H, V>(case: &mut Case<'_>, by: &mut Functions<H, V>)
where
    H: NodeHash + Drop,
    V: VufCheck + Drop,
{
    let root = case.bytes();
    match Client::<H, V, AnySign>::start(case.alloc(), &AnySign, Hash32::default(), root) {
        Ok(mut client) => {
            case.say("ok");
            let updated = client.update(&mut by.hash, &AnySign, case.bytes());
            tell_done(case, updated);
            let kept = client.keep_promise(&mut by.hash, &AnySign, case.bytes());
            tell_done(case, kept);
        }
        Err(why) => refuse(case, why),
    }
}

/// `look NAME EPOCH REPLY`
fn look<H, V>(case: &mut Case<'_>, by: &mut Functions<H, V>, client: &mut Kept<H, V>)
where
    H: NodeHash + Drop,
    V: VufCheck + Drop,
{
    let name = case.name();
    let epoch = case.number();
    let reply = case.bytes();
    if case.is_spoiled() {
        return;
    }
    match client.look(&mut by.hash, &by.vuf, &name, epoch, reply) {
        Ok(statement) => say_statement(case, statement),
        Err(why) => refuse(case, why),
    }
}

/// `look-next NAME EPOCH REPLY`
fn look_next<H, V>(case: &mut Case<'_>, by: &mut Functions<H, V>, client: &mut Kept<H, V>)
where
    H: NodeHash + Drop,
    V: VufCheck + Drop,
{
    let name = case.name();
    let after = case.number();
    let reply = case.bytes();
    if case.is_spoiled() {
        return;
    }
    match client.look_next(&mut by.hash, &by.vuf, &name, after, reply) {
        Ok((epoch, statement)) => {
            case.say_shown(epoch);
            say_statement(case, statement);
        }
        Err(why) => refuse(case, why),
    }
}

/// `due NAME REPLY`
fn due<H, V>(case: &mut Case<'_>, by: &mut Functions<H, V>, client: &mut Kept<H, V>)
where
    H: NodeHash + Drop,
    V: VufCheck + Drop,
{
    let name = case.name();
    let reply = case.bytes();
    if case.is_spoiled() {
        return;
    }
    match client.due(&mut by.hash, &by.vuf, &name, reply) {
        Ok(due) => say_due(case, &due),
        Err(why) => refuse(case, why),
    }
}

fn say_due(case: &mut Case<'_>, due: &Due) {
    match due {
        Due::Kept => case.say("kept"),
        Due::OtherIndex => case.say("other index"),
        Due::Broken(broken) => {
            case.say("broken");
            case.say_bytes(broken.promise.write().bytes());
            case.say_bytes(broken.root.write().bytes());
            case.say_bytes(broken.proof.bytes());
        }
    }
}

/// `due-epoch NAME`
fn due_epoch<H, V>(case: &mut Case<'_>, client: &Kept<H, V>)
where
    H: NodeHash + Drop,
    V: VufCheck + Drop,
{
    let name = case.name();
    say_option(case, client.due_epoch(&name));
}

/// `finality NAME`
fn finality<H, V>(case: &mut Case<'_>, client: &Kept<H, V>)
where
    H: NodeHash + Drop,
    V: VufCheck + Drop,
{
    let name = case.name();
    match client.finality(&name) {
        Some(broken) => say_changed(case, &broken),
        None => case.say("none"),
    }
}

/// The last word of the number that may be there.
pub(crate) fn say_option(case: &mut Case<'_>, number: Option<u64>) {
    match number {
        Some(number) => case.say_shown(number),
        None => case.say("none"),
    }
}

/// `put-aside`
fn put_aside<H, V>(case: &mut Case<'_>, clients: &mut Clients<H, V>)
where
    H: NodeHash + Drop,
    V: VufCheck + Drop,
{
    match clients.client.take() {
        Some(client) => {
            clients.other = Some(client);
            case.say("ok");
        }
        None => case.spoil(),
    }
}

/// Reconciles two clients, if both are there.
pub(crate) fn reconcile_both<H, V>(
    case: &mut Case<'_>,
    by: &mut Functions<H, V>,
    one: Option<&Kept<H, V>>,
    other: Option<&Kept<H, V>>,
)
where
    H: NodeHash + Drop,
    V: VufCheck + Drop,
{
    match (one, other) {
        (Some(one), Some(other)) => reconcile_two(case, &mut by.hash, one, other),
        _ => case.spoil(),
    }
}

fn reconcile_two<H, V>(case: &mut Case<'_>, hash: &mut H, one: &Kept<H, V>, other: &Kept<H, V>)
where
    H: NodeHash + Drop,
    V: VufCheck + Drop,
{
    if *one.key() != *other.key() {
        return case.spoil();
    }
    let outcome = reconcile(hash, one, other);
    say_outcome(case, &outcome);
}

fn say_outcome(case: &mut Case<'_>, outcome: &Outcome) {
    match outcome {
        Outcome::Agree => case.say("agree"),
        Outcome::Evidence(evidence) => say_evidence(case, evidence),
        Outcome::Collision(one, other) => {
            case.say("collision");
            case.say_bytes(one.bytes());
            case.say_bytes(other.bytes());
        }
        Outcome::TwoValues => case.say("two values"),
    }
}
