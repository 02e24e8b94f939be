//! What C calls. What is asked for goes out through the last parameters, which a refusal leaves as they were.
ghost use Rattle.std.specs.Prelude.{◌≡◌, ◌≢◌, ◌⊎◌, ◌↔◌, length, IsTrue, MatchOption};
ghost use Rattle.sha2.specs.Sha256.{sha256};
ghost use Rattle.encoding.specs.Limits.{IsName};
ghost use Rattle.rootchain.specs.Chains.{Names};
ghost use Rattle.sigiface.specs.StandIn.{keyed_signature};
ghost use Rattle.vrfiface.specs.StandIns.{keyed_value};
ghost use Rattle.coniks.specs.Asking.{WritesHead, WritesHistory, WritesLookup, WritesPromise, WritesPut, WritesTurn};
ghost use Rattle.coniks.specs.Comparing.{ComparesReplies};
ghost use Rattle.coniks.specs.Finals.{TestsFinal};
ghost use Rattle.coniks.specs.Hearing.{ReadsFrame, ReadsRefused, ReadsRoots};
ghost use Rattle.coniks.specs.Exports.{AreRoots, ChecksReply, ReadsPromise, ReadsReply, ReadsRoot, ShowsEvidence, TestsPromise};

use crate::asking::{
    HEAD, HISTORY, LOOKUP, PROMISE, asks_nonce, asks_policy, history_body, lookup_body,
    promise_body, put_body, put_frame, put_kind, turn_body, turn_kind,
};
use crate::checking::accept_told;
use crate::comparing::tell;
use crate::finals::changes;
use crate::hearing::place_roots;
use crate::parts::{Binding, FrameParts, Lens, Part, PromiseParts, ReplyParts, RootParts};
use crate::promises::{is_next, verdict};
use crate::roots::holds;
use encoding::{Hash32, KeyData, Name, Text};
use nodehash::Sha256Hash;
use proofs::ReplyView;
use rootchain::{Body, MAX_ROOTS, RootEvidence, RootList, SignedPromise, SignedRoot};
use sigiface::{KeyedSign, Verifier};
use vrfiface::{KeyedVuf, VufCheck};
use wire::{Front, front_of};

/// What an export answers that refuses nothing.
const OK: u8 = 0;

/// The bytes are not of the form.
const MALFORMED: u8 = 1;

/// A root does not name the other as the one before it.
const BAD_LINK: u8 = 4;

/// A name has no or more than 255 bytes.
const BAD_NAME: u8 = 8;

/// A body does not have the form.
const BAD_BODY: u8 = 9;

/// Two bodies of one epoch.
const FORK: u8 = 16;

/// The second names the epoch of the first as the one before, but not its hash.
const LINK: u8 = 17;

/// The epoch of the first lies between that of the second and the one that the second names.
const SKIP: u8 = 18;

/// A signed promise does not have the form.
const BAD_PROMISE: u8 = 10;

/// A signed root does not have the form.
const BAD_ROOT: u8 = 11;

/// The root is not the one that follows that of the promise.
const NOT_NEXT: u8 = 12;

/// A key has no or more than 2,048 bytes.
const BAD_KEY: u8 = 24;

/// A byte is neither 0 nor that of a policy.
const BAD_POLICY: u8 = 25;

/// A token does not have 32 bytes.
const BAD_TOKEN: u8 = 26;

/// A nonce has neither 32 bytes nor none.
const BAD_NONCE: u8 = 27;

/// The bytes end within a frame.
const SHORT_FRAME: u8 = 28;

/// How many bytes stand before the body of a frame.
const FRONT_LEN: usize = 5;

/// A buffer has fewer than 2,400 bytes, or room for fewer than 64 parts.
const SHORT_BUFFER: u8 = 13;

/// How many bytes a buffer for a frame, or for a text of a collision, has at least.
const BUFFER_LEN: usize = 2400;

/// How far the number of a refusal of the second reply lies above that of the first.
const OF_SECOND: u8 = 32;

/// The second root is not of a later epoch than the first.
const NOT_LATER: u8 = 14;

/// A final binding was changed.
const CHANGED: u8 = 23;

/// Reads a signed root. 1 if the bytes are none.
#[unsafe(no_mangle)]
pub extern "C" fn coniks_read_root(root: &[u8], parts: &mut RootParts) -> u8
    ensures { ReadsRoot root.now result parts.old parts.new }
{
    match SignedRoot::read(root) {
        Ok(signed) => {
            *parts = RootParts::of(&signed);
            OK
        }
        Err(why) => why.number(),
    }
}

/// Whether the second of two roots names the first as the one before it: 0, or 4 if it does not. 1 if one is no root.
#[unsafe(no_mangle)]
pub extern "C" fn coniks_follows(earlier: &[u8], later: &[u8]) -> u8
    ensures { AreRoots earlier.now later.now (λ one other answer. (Names sha256 one other × (answer ≡ 0)) ⊎ ((¬ Names sha256 one other) × (answer ≡ 4))) result }
{
    let Ok(earlier) = SignedRoot::read(earlier) else {
        return MALFORMED;
    };
    let Ok(later) = SignedRoot::read(later) else {
        return MALFORMED;
    };
    if later.names(&mut Sha256Hash::new(), &earlier) {
        OK
    } else {
        BAD_LINK
    }
}

/// What two roots show of their provider, if both verify under its key: 0 for nothing, 16 for a fork, 17 for a link, 18
/// for a skip. 1 if one is no root.
#[unsafe(no_mangle)]
pub extern "C" fn coniks_evidence(one: &[u8], other: &[u8]) -> u8
    ensures { AreRoots one.now other.now (ShowsEvidence sha256) result }
{
    let Ok(one) = SignedRoot::read(one) else {
        return MALFORMED;
    };
    let Ok(other) = SignedRoot::read(other) else {
        return MALFORMED;
    };
    let mut hash = Sha256Hash::new();
    if holds(&mut hash, &RootEvidence::Fork(one.copied(), other.copied())) {
        return FORK;
    }
    if holds(&mut hash, &RootEvidence::Link(one.copied(), other.copied())) {
        return LINK;
    }
    if holds(&mut hash, &RootEvidence::Skip(one, other)) {
        SKIP
    } else {
        OK
    }
}

/// Reads a reply to a look-up, and does not check it. 1 if the bytes are none, 2 if more bytes follow one.
#[unsafe(no_mangle)]
pub extern "C" fn coniks_read_reply(reply: &[u8], parts: &mut ReplyParts) -> u8
    ensures { ReadsReply reply.now result parts.old parts.new }
{
    match ReplyView::read(reply) {
        Ok(view) => {
            *parts = ReplyParts::of(&view);
            OK
        }
        Err(why) => why.number(),
    }
}

/// Checks a reply for a name under the body of a signed root, where the caller says whether its value is accepted.
#[unsafe(no_mangle)]
pub extern "C" fn coniks_check(
    body: &[u8],
    name: &[u8],
    reply: &[u8],
    value_is_accepted: bool,
    binding: &mut Binding,
) -> u8
    ensures { ChecksReply sha256 body.now name.now reply.now value_is_accepted result binding.old binding.new }
{
    let Ok(body) = Body::read(body) else {
        return BAD_BODY;
    };
    let Ok(name) = Name::new(name) else {
        return BAD_NAME;
    };
    let mut hash = Sha256Hash::new();
    match accept_told(&mut hash, &body, &name, reply, value_is_accepted) {
        Ok(accepted) => {
            *binding = Binding::of(accepted.statement(), accepted.value().len());
            OK
        }
        Err(why) => why.number(),
    }
}

/// Compares two replies for a name under the body of a signed root, where the caller says of each whether its value is
/// accepted: 0 if they state the same, 21 if two values were accepted, 22 with two different texts that have one digest.
#[unsafe(no_mangle)]
pub extern "C" fn coniks_compare(
    body: &[u8],
    name: &[u8],
    first: &[u8],
    second: &[u8],
    first_is_accepted: bool,
    second_is_accepted: bool,
    one: &mut [u8],
    other: &mut [u8],
    lens: &mut Lens,
) -> u8
    ensures { ComparesReplies sha256 body.now name.now first.now second.now first_is_accepted second_is_accepted result one.old one.new other.old other.new lens.old lens.new }
{
    if one.len() < BUFFER_LEN || other.len() < BUFFER_LEN {
        return SHORT_BUFFER;
    }
    let Ok(body) = Body::read(body) else {
        return BAD_BODY;
    };
    let Ok(name) = Name::new(name) else {
        return BAD_NAME;
    };
    let mut hash = Sha256Hash::new();
    let first = match accept_told(&mut hash, &body, &name, first, first_is_accepted) {
        Ok(first) => first,
        Err(why) => return why.number(),
    };
    let second = match accept_told(&mut hash, &body, &name, second, second_is_accepted) {
        Ok(second) => second,
        Err(why) => return OF_SECOND + why.number(),
    };
    tell(&mut hash, &first, &second, one, other, lens)
}

/// Reads a signed promise. 1 if the bytes are none.
#[unsafe(no_mangle)]
pub extern "C" fn coniks_read_promise(promise: &[u8], parts: &mut PromiseParts) -> u8
    ensures { ReadsPromise promise.now result parts.old parts.new }
{
    match SignedPromise::read(promise) {
        Ok(signed) => {
            *parts = PromiseParts::of(&signed);
            OK
        }
        Err(why) => why.number(),
    }
}

/// Tests a promise against a reply for its name under the root that follows the promise's: 0 if it was kept, 19 if it
/// was broken, 20 if the name has another index than the promise says.
#[unsafe(no_mangle)]
pub extern "C" fn coniks_test_promise(
    promise: &[u8],
    root: &[u8],
    reply: &[u8],
    value_is_accepted: bool,
) -> u8
    ensures { TestsPromise sha256 promise.now root.now reply.now value_is_accepted result }
{
    let Ok(signed) = SignedPromise::read(promise) else {
        return BAD_PROMISE;
    };
    let Ok(root) = SignedRoot::read(root) else {
        return BAD_ROOT;
    };
    let promise = &signed.promise;
    if !is_next(promise, &root) {
        return NOT_NEXT;
    }
    let mut hash = Sha256Hash::new();
    match accept_told(
        &mut hash,
        &root.body,
        &promise.name,
        reply,
        value_is_accepted,
    ) {
        Ok(accepted) => verdict(promise, &accepted),
        Err(why) => why.number(),
    }
}

/// Whether the second of two replies for a name, each under a root, changes what the first states to be final: 23 if it
/// does, 0 if not.
#[unsafe(no_mangle)]
pub extern "C" fn coniks_test_final(
    name: &[u8],
    root: &[u8],
    reply: &[u8],
    later_root: &[u8],
    later_reply: &[u8],
    value_is_accepted: bool,
    later_value_is_accepted: bool,
) -> u8
    ensures { TestsFinal sha256 name.now root.now reply.now later_root.now later_reply.now value_is_accepted later_value_is_accepted result }
{
    let Ok(name) = Name::new(name) else {
        return BAD_NAME;
    };
    let Ok(root) = SignedRoot::read(root) else {
        return BAD_ROOT;
    };
    let Ok(later_root) = SignedRoot::read(later_root) else {
        return BAD_ROOT;
    };
    if later_root.body.epoch <= root.body.epoch {
        return NOT_LATER;
    }
    let mut hash = Sha256Hash::new();
    let one = match accept_told(&mut hash, &root.body, &name, reply, value_is_accepted) {
        Ok(one) => one,
        Err(why) => return why.number(),
    };
    let other = match accept_told(
        &mut hash,
        &later_root.body,
        &name,
        later_reply,
        later_value_is_accepted,
    ) {
        Ok(other) => other,
        Err(why) => return OF_SECOND + why.number(),
    };
    if changes(&one, &other) { CHANGED } else { OK }
}

/// Writes the request to bind a key to a name, or to change its key, with a policy or with 0 for none.
#[unsafe(no_mangle)]
pub extern "C" fn coniks_write_put(
    is_change: bool,
    name: &[u8],
    key: &[u8],
    policy: u8,
    frame: &mut [u8],
    len: &mut usize,
) -> u8
    ensures { WritesPut is_change name.now key.now policy result (record { bytes = frame.old; len = len.old }) (record { bytes = frame.new; len = len.new }) }
{
    if frame.len() < BUFFER_LEN {
        return SHORT_BUFFER;
    }
    let Ok(name) = Name::new(name) else {
        return BAD_NAME;
    };
    let Ok(key) = KeyData::new(key) else {
        return BAD_KEY;
    };
    if !asks_policy(policy) {
        return BAD_POLICY;
    }
    let body = put_body(&name, &key, policy);
    *len = put_frame(put_kind(is_change, policy), &body, frame);
    OK
}

/// Writes the request for the promise of a name, of which an operation waits.
#[unsafe(no_mangle)]
pub extern "C" fn coniks_write_promise(name: &[u8], frame: &mut [u8], len: &mut usize) -> u8
    ensures { WritesPromise name.now result (record { bytes = frame.old; len = len.old }) (record { bytes = frame.new; len = len.new }) }
{
    if frame.len() < BUFFER_LEN {
        return SHORT_BUFFER;
    }
    let Ok(name) = Name::new(name) else {
        return BAD_NAME;
    };
    *len = put_frame(PROMISE, &promise_body(&name), frame);
    OK
}

/// Writes the look-up of a name at an epoch, or at the latest with 0.
#[unsafe(no_mangle)]
pub extern "C" fn coniks_write_lookup(
    name: &[u8],
    epoch: u64,
    frame: &mut [u8],
    len: &mut usize,
) -> u8
    ensures { WritesLookup name.now epoch result (record { bytes = frame.old; len = len.old }) (record { bytes = frame.new; len = len.new }) }
{
    if frame.len() < BUFFER_LEN {
        return SHORT_BUFFER;
    }
    let Ok(name) = Name::new(name) else {
        return BAD_NAME;
    };
    *len = put_frame(LOOKUP, &lookup_body(&name, epoch), frame);
    OK
}

/// Writes the request for so many roots, from an epoch on.
#[unsafe(no_mangle)]
pub extern "C" fn coniks_write_history(
    from: u64,
    count: u16,
    frame: &mut [u8],
    len: &mut usize,
) -> u8
    ensures { WritesHistory from count result (record { bytes = frame.old; len = len.old }) (record { bytes = frame.new; len = len.new }) }
{
    if frame.len() < BUFFER_LEN {
        return SHORT_BUFFER;
    }
    *len = put_frame(HISTORY, &history_body(from, count), frame);
    OK
}

/// Writes the request for the latest root.
#[unsafe(no_mangle)]
pub extern "C" fn coniks_write_head(frame: &mut [u8], len: &mut usize) -> u8
    ensures { WritesHead result (record { bytes = frame.old; len = len.old }) (record { bytes = frame.new; len = len.new }) }
{
    if frame.len() < BUFFER_LEN {
        return SHORT_BUFFER;
    }
    *len = put_frame(HEAD, &Text::new(), frame);
    OK
}

/// Writes the operator's order to end the epoch, under a nonce, or with no byte under that of the last page.
#[unsafe(no_mangle)]
pub extern "C" fn coniks_write_turn(
    token: &[u8],
    epoch: u64,
    nonce: &[u8],
    frame: &mut [u8],
    len: &mut usize,
) -> u8
    ensures { WritesTurn token.now epoch nonce.now result (record { bytes = frame.old; len = len.old }) (record { bytes = frame.new; len = len.new }) }
{
    if frame.len() < BUFFER_LEN {
        return SHORT_BUFFER;
    }
    if token.len() != 32 {
        return BAD_TOKEN;
    }
    if !asks_nonce(nonce) {
        return BAD_NONCE;
    }
    let body = turn_body(token, epoch, nonce);
    *len = put_frame(turn_kind(nonce), &body, frame);
    OK
}

/// Reads the frame at the front of bytes: 28 if they end within it, 1 if none begins so.
#[unsafe(no_mangle)]
pub extern "C" fn coniks_read_frame(bytes: &[u8], parts: &mut FrameParts) -> u8
    ensures { ReadsFrame bytes.now result parts.old parts.new }
{
    match front_of(bytes) {
        Front::Whole(view) => {
            *parts = FrameParts {
                kind: view.kind,
                body: Part {
                    start: FRONT_LEN,
                    len: view.body.len(),
                },
            };
            OK
        }
        Front::Short => SHORT_FRAME,
        Front::Bad => MALFORMED,
    }
}

/// Reads a list of signed roots, and says where each stands.
#[unsafe(no_mangle)]
pub extern "C" fn coniks_read_roots(list: &[u8], roots: &mut [Part], count: &mut usize) -> u8
    ensures { ReadsRoots list.now result roots.old roots.new count.old count.new }
{
    if roots.len() < MAX_ROOTS {
        return SHORT_BUFFER;
    }
    match RootList::read(list) {
        Ok(read) => {
            *count = place_roots(read, roots);
            OK
        }
        Err(_) => MALFORMED,
    }
}

/// Reads the body of a refusal: its one byte is the number.
#[unsafe(no_mangle)]
pub extern "C" fn coniks_read_refused(body: &[u8], number: &mut u8) -> u8
    ensures { ReadsRefused body.now result number.old number.new }
{
    match body {
        [only] => {
            *number = *only;
            OK
        }
        _ => MALFORMED,
    }
}

/// Whether a signature verifies under the stand-in for signatures, which gives no security. A key of another length than
/// 32 bytes verifies nothing.
#[unsafe(no_mangle)]
pub extern "C" fn coniks_keyed_verifies(key: &[u8], message: &[u8], signature: &[u8]) -> bool
    ensures { IsTrue result ↔ ((length key.now ≡ 32) × (signature.now ≡ keyed_signature key.now message.now)) }
{
    let Some(key) = key_of(key) else {
        return false;
    };
    KeyedSign::new(Hash32::default()).verify(&key, message, signature)
}

/// Whether a value is accepted for a name under the stand-in for verifiable functions, which gives no security. A key of
/// another length than 32 bytes accepts nothing, and nothing is accepted for what is no name.
#[unsafe(no_mangle)]
pub extern "C" fn coniks_keyed_accepts(key: &[u8], name: &[u8], value: &[u8]) -> bool
    ensures { IsTrue result ↔ ((length key.now ≡ 32) × IsName name.now × (value.now ≡ keyed_value key.now name.now)) }
{
    let Some(key) = key_of(key) else {
        return false;
    };
    let Ok(name) = Name::new(name) else {
        return false;
    };
    KeyedVuf::new(Hash32::default()).accepts(&key, &name, value)
}

/// The key of 32 bytes.
fn key_of(bytes: &[u8]) -> Option<Hash32>
    ensures { MatchOption result (length bytes.now ≢ 32) (λ key. (length bytes.now ≡ 32) × (key ≡ bytes.now)) }
{
    match <[u8; 32]>::try_from(bytes) {
        Ok(key) => Some(Hash32::new(key)),
        Err(_) => None,
    }
}
