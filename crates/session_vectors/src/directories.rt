//! Of `epochs`: a directory, which stays for the next lines, and runs of fresh ones.

use crate::hubs::refuse;
use crate::journals;
use book::{NoKeeper, Record, Refusal, Reply};
use commands::Verb;
use encoding::{Hash32, PROOF_TEXT_ROOM};
use epochs::Directory;
use nodehash::{NodeHash, Sha256Hash, SumHash};
use questions::{Case, read_commands};
use rand_chacha::ChaCha20Rng;
use rand_core::SeedableRng;
use rootchain::{MAX_ROOTS, SignedPromise, SignedRoot};
use sigiface::KeyedSign;
use std::alloc::{AllocError, Global};
use vrfiface::{KeyedVuf, PlainVuf, Vuf};
use wire::Answer;

pub(crate) type Made<H, V> = Directory<H, V, KeyedSign, ChaCha20Rng>;

/// A directory under SHA-256 and keyed values.
pub(crate) type KeyedDirectory = Made<Sha256Hash, KeyedVuf>;

/// A directory under sums of bytes, in which a name is its own value.
pub(crate) type SummedDirectory = Made<SumHash, PlainVuf>;

/// The epoch and the nonce that a directory begins with.
#[derive(Clone, Copy)]
pub(crate) struct First {
    pub(crate) epoch: u64,
    pub(crate) nonce: Hash32,
}

/// The secrets of a directory.
#[derive(Clone, Copy)]
pub(crate) struct Secrets {
    pub(crate) sign: Hash32,
    pub(crate) vuf: Hash32,
    pub(crate) salt: Hash32,
}

/// The secrets of each directory that is not given its own.
pub(crate) fn common_secrets() -> Secrets {
    Secrets {
        sign: Hash32::new([1; 32]),
        vuf: Hash32::new([2; 32]),
        salt: Hash32::new([0; 32]),
    }
}

/// The next two words, as what a directory begins with.
pub(crate) fn read_first(case: &mut Case<'_>) -> First {
    let epoch = case.number();
    let nonce = case.hash();
    First { epoch, nonce }
}

pub(crate) fn make_keyed(
    alloc: Global,
    first: &First,
    secrets: &Secrets,
) -> Result<KeyedDirectory, Refusal> {
    Directory::new(
        alloc,
        first.epoch,
        first.nonce,
        Sha256Hash::new(),
        KeyedVuf::new(secrets.vuf),
        KeyedSign::new(secrets.sign),
        ChaCha20Rng::from_seed(secrets.salt.to_bytes()),
    )
}

pub(crate) fn make_summed(
    alloc: Global,
    first: &First,
    secrets: &Secrets,
) -> Result<SummedDirectory, Refusal> {
    Directory::new(
        alloc,
        first.epoch,
        first.nonce,
        SumHash::new(),
        PlainVuf,
        KeyedSign::new(secrets.sign),
        ChaCha20Rng::from_seed(secrets.salt.to_bytes()),
    )
}

pub(crate) fn answer_keyed(case: &mut Case<'_>, kept: &mut Option<KeyedDirectory>) {
    match case.word() {
        b"new" => new_keyed(case, kept),
        b"open" => journals::open_keyed(case, kept),
        b"run" => {
            let made = make_keyed(case.alloc(), &read_first(case), &common_secrets());
            run(case, made);
        }
        verb => answer(case, verb, kept),
    }
}

pub(crate) fn answer_summed(case: &mut Case<'_>, kept: &mut Option<SummedDirectory>) {
    match case.word() {
        b"new" => new_summed(case, kept),
        b"open" => journals::open_summed(case, kept),
        b"run" => {
            let made = make_summed(case.alloc(), &read_first(case), &common_secrets());
            run(case, made);
        }
        verb => answer(case, verb, kept),
    }
}

fn answer<H, V>(case: &mut Case<'_>, verb: &[u8], kept: &mut Option<Made<H, V>>)
where
    H: NodeHash + Drop,
    V: Vuf + Drop,
{
    match kept {
        Some(directory) => answer_on(case, verb, directory),
        None => case.spoil(),
    }
}

fn answer_on<H, V>(case: &mut Case<'_>, verb: &[u8], directory: &mut Made<H, V>)
where
    H: NodeHash + Drop,
    V: Vuf + Drop,
{
    match verb {
        b"register" => register(case, directory),
        b"change" => change(case, directory),
        b"register2" => register_with_policy(case, directory),
        b"change2" => change_with_policy(case, directory),
        b"promise" => {
            let promised = directory.promise(case.bytes());
            tell_promise(case, promised);
        }
        b"close" => close(case, directory),
        b"rotate" => rotate(case, directory),
        b"head" => case.say_bytes(directory.head().write().bytes()),
        b"lookup" => look_up(case, directory),
        b"history" => history(case, directory),
        b"replay" => replay(case, directory),
        _ => case.spoil(),
    }
}

/// `replay register SALT NAME KEY`, `replay change` the same, `replay register2 SALT NAME KEY POLICY`, `replay
/// change2` the same, `replay turn EPOCH`, or `replay rotate EPOCH NONCE`
fn replay<H, V>(case: &mut Case<'_>, directory: &mut Made<H, V>)
where
    H: NodeHash + Drop,
    V: Vuf + Drop,
{
    match case.word() {
        b"register" => replay_put(case, directory, Verb::Register, false),
        b"change" => replay_put(case, directory, Verb::Change, false),
        b"register2" => replay_put(case, directory, Verb::Register, true),
        b"change2" => replay_put(case, directory, Verb::Change, true),
        b"turn" => {
            let epoch = case.number();
            replay_turn(case, directory, epoch, None);
        }
        b"rotate" => {
            let epoch = case.number();
            let nonce = case.hash();
            replay_turn(case, directory, epoch, Some(nonce));
        }
        _ => case.spoil(),
    }
}

fn replay_turn<H, V>(
    case: &mut Case<'_>,
    directory: &mut Made<H, V>,
    epoch: u64,
    nonce: Option<Hash32>,
)
where
    H: NodeHash + Drop,
    V: Vuf + Drop,
{
    let replayed = directory.replay(&Record::Turned { epoch, nonce });
    tell_replayed(case, replayed);
}

fn replay_put<H, V>(case: &mut Case<'_>, directory: &mut Made<H, V>, verb: Verb, has_policy: bool)
where
    H: NodeHash + Drop,
    V: Vuf + Drop,
{
    let replayed = directory.replay(&Record::Bound {
        verb,
        salt: case.hash(),
        name: case.name(),
        key: case.bound_key(has_policy),
    });
    tell_replayed(case, replayed);
}

fn tell_replayed(case: &mut Case<'_>, replayed: Result<(), Refusal>) {
    match replayed {
        Ok(()) => case.say("ok"),
        Err(why) => refuse(case, why),
    }
}

/// Keeps the directory that was made, and tells its root.
fn keep<H, V>(case: &mut Case<'_>, kept: &mut Option<Made<H, V>>, made: Result<Made<H, V>, Refusal>)
where
    H: NodeHash + Drop,
    V: Vuf + Drop,
{
    match made {
        Ok(made) => {
            case.say_bytes(made.head().write().bytes());
            *kept = Some(made);
        }
        Err(why) => refuse(case, why),
    }
}

/// `new EPOCH NONCE SIGN VUF SALT`
fn new_keyed(case: &mut Case<'_>, kept: &mut Option<KeyedDirectory>) {
    let first = read_first(case);
    let sign = case.hash();
    let vuf = case.hash();
    let salt = case.hash();
    if !case.is_spoiled() {
        let made = make_keyed(case.alloc(), &first, &Secrets { sign, vuf, salt });
        keep(case, kept, made);
    }
}

/// `new EPOCH NONCE SIGN SALT`
fn new_summed(case: &mut Case<'_>, kept: &mut Option<SummedDirectory>) {
    let first = read_first(case);
    let sign = case.hash();
    let vuf = Hash32::default();
    let salt = case.hash();
    if !case.is_spoiled() {
        let made = make_summed(case.alloc(), &first, &Secrets { sign, vuf, salt });
        keep(case, kept, made);
    }
}

fn tell_promise(case: &mut Case<'_>, promised: Result<SignedPromise, Refusal>) {
    match promised {
        Ok(signed) => case.say_bytes(signed.write().bytes()),
        Err(why) => refuse(case, why),
    }
}

/// `register NAME KEY`
fn register<H, V>(case: &mut Case<'_>, directory: &mut Made<H, V>)
where
    H: NodeHash + Drop,
    V: Vuf + Drop,
{
    let name = case.bytes();
    let key = case.bytes();
    if !case.is_spoiled() {
        tell_promise(case, directory.register(&mut NoKeeper, name, key));
    }
}

/// `change NAME KEY`
fn change<H, V>(case: &mut Case<'_>, directory: &mut Made<H, V>)
where
    H: NodeHash + Drop,
    V: Vuf + Drop,
{
    let name = case.bytes();
    let key = case.bytes();
    if !case.is_spoiled() {
        tell_promise(case, directory.change(&mut NoKeeper, name, key));
    }
}

/// `register2 NAME KEY POLICY`, POLICY a byte in decimal
fn register_with_policy<H, V>(case: &mut Case<'_>, directory: &mut Made<H, V>)
where
    H: NodeHash + Drop,
    V: Vuf + Drop,
{
    let name = case.bytes();
    let key = case.bytes();
    let policy = case.number_to(255) as u8;
    if !case.is_spoiled() {
        tell_promise(case, directory.register2(&mut NoKeeper, name, key, policy));
    }
}

/// `change2 NAME KEY POLICY`, the same
fn change_with_policy<H, V>(case: &mut Case<'_>, directory: &mut Made<H, V>)
where
    H: NodeHash + Drop,
    V: Vuf + Drop,
{
    let name = case.bytes();
    let key = case.bytes();
    let policy = case.number_to(255) as u8;
    if !case.is_spoiled() {
        tell_promise(case, directory.change2(&mut NoKeeper, name, key, policy));
    }
}

fn tell_root(case: &mut Case<'_>, closed: Result<SignedRoot, Refusal>) {
    match closed {
        Ok(root) => case.say_bytes(root.write().bytes()),
        Err(why) => refuse(case, why),
    }
}

/// `close EPOCH`
fn close<H, V>(case: &mut Case<'_>, directory: &mut Made<H, V>)
where
    H: NodeHash + Drop,
    V: Vuf + Drop,
{
    let epoch = case.number();
    if !case.is_spoiled() {
        tell_root(case, directory.close(&mut NoKeeper, epoch));
    }
}

/// `rotate EPOCH NONCE`
fn rotate<H, V>(case: &mut Case<'_>, directory: &mut Made<H, V>)
where
    H: NodeHash + Drop,
    V: Vuf + Drop,
{
    let epoch = case.number();
    let nonce = case.hash();
    if !case.is_spoiled() {
        tell_root(case, directory.rotate(&mut NoKeeper, epoch, nonce));
    }
}

/// `lookup NAME EPOCH`
fn look_up<H, V>(case: &mut Case<'_>, directory: &mut Made<H, V>)
where
    H: NodeHash + Drop,
    V: Vuf + Drop,
{
    let name = case.bytes();
    let epoch = case.number();
    match directory.lookup(name, epoch) {
        Ok(proof) => {
            case.say_bytes(proof.bytes());
            compare_written(case, directory, name, epoch, proof.bytes());
        }
        Err(why) => refuse(case, why),
    }
}

/// Spoils the answer unless these are the bytes that the directory writes.
fn compare_written<H, V>(
    case: &mut Case<'_>,
    directory: &mut Made<H, V>,
    name: &[u8],
    epoch: u64,
    proof: &[u8],
)
where
    H: NodeHash + Drop,
    V: Vuf + Drop,
{
    let Ok(mut bytes) = Vec::with_capacity(case.alloc(), PROOF_TEXT_ROOM) else {
        return case.lack_memory();
    };
    let has_failed = directory.lookup_into(name, epoch, &mut bytes).is_err();
    if has_failed || bytes.as_slice() != proof {
        case.spoil();
    }
}

/// `history FROM COUNT`
fn history<H, V>(case: &mut Case<'_>, directory: &Made<H, V>)
where
    H: NodeHash + Drop,
    V: Vuf + Drop,
{
    let from = case.number();
    let count = case.number_to(65_535) as u16;
    match directory.history(from, count) {
        Ok(roots) => tell_roots(case, roots),
        Err(why) => refuse(case, why),
    }
}

fn tell_roots(case: &mut Case<'_>, roots: &[SignedRoot]) {
    let mut bytes = Vec::new(case.alloc());
    for root in roots {
        if bytes.extend_from_slice(root.write().bytes()).is_err() {
            case.lack_memory();
        }
    }
    case.say_shown(roots.len());
    case.say_bytes(&bytes);
}

/// `run EPOCH NONCE MESSAGE..`, of a directory that was made for it.
fn run<H, V>(case: &mut Case<'_>, made: Result<Made<H, V>, Refusal>)
where
    H: NodeHash + Drop,
    V: Vuf + Drop,
{
    match made {
        Ok(directory) => run_on(case, directory),
        Err(why) => refuse(case, why),
    }
}

fn run_on<H, V>(case: &mut Case<'_>, made: Made<H, V>)
where
    H: NodeHash + Drop,
    V: Vuf + Drop,
{
    let mut directory = made;
    let commands = read_commands(case);
    match directory.run(&mut NoKeeper, &commands) {
        Ok(replies) => tell_replies(case, &replies),
        Err(_) => case.lack_memory(),
    }
}

fn tell_replies(case: &mut Case<'_>, replies: &[Reply]) {
    let mut frames = Vec::new(case.alloc());
    for reply in replies {
        if write_reply(reply, &mut frames).is_err() {
            case.lack_memory();
        }
    }
    case.say_shown(replies.len());
    case.say_bytes(&frames);
}

/// Appends the frame of a reply. An `Err` also where the reply is that memory ran out.
fn write_reply(reply: &Reply, frames: &mut Vec<u8>) -> Result<(), AllocError> {
    match reply {
        Reply::Promised(signed) => Answer::Promise(signed).write(frames),
        Reply::Found(text) => Answer::Proof(text).write(frames),
        Reply::Told(roots) => write_roots(roots, frames),
        Reply::Last(root) => Answer::Root(root).write(frames),
        Reply::Refused(Refusal::Memory) => Err(AllocError),
        Reply::Refused(why) => Answer::Refused(why.number()).write(frames),
    }
}

/// Appends the frame of a list of roots, of which a directory tells no more than a frame has.
fn write_roots(roots: &[SignedRoot], frames: &mut Vec<u8>) -> Result<(), AllocError> {
    if roots.len() > MAX_ROOTS {
        return Ok(());
    }
    Answer::Roots(roots).write(frames)
}
