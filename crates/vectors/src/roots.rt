//! Of `rootchain`: roots and promises, read and written. Lists of roots stand in `root_lists`, evidence in
//! `evidence`, and forms in front of other bytes in `fronts`.

use crate::evidence::holds;
use crate::fronts::front;
use crate::root_lists::{list, written_list};
use encoding::Hash32;
use questions::{Case, say_policy};
use rootchain::{Body, Promise, Refusal, SignedPromise, SignedRoot};
use sigiface::KeyedSign;

pub(crate) fn answer(case: &mut Case<'_>) {
    match case.word() {
        b"body" => body(case),
        b"root" => root(case),
        b"promise" => promise(case),
        b"signed-promise" => signed_promise(case),
        b"front" => front(case),
        b"list" => list(case),
        b"write-list" => written_list(case),
        kind => holds(case, kind),
    }
}

/// A verifier, which needs no key.
pub(crate) fn verifier() -> KeyedSign {
    KeyedSign::new(Hash32::default())
}

pub(crate) fn say_body(case: &mut Case<'_>, body: &Body) {
    case.say_shown(body.epoch);
    case.say_shown(body.previous_epoch);
    case.say_bytes(body.root.bytes());
    case.say_bytes(body.previous_hash.bytes());
    case.say_bytes(body.nonce.bytes());
    case.say_bytes(body.vuf_key.bytes());
}

/// `body BYTES`: its fields, and its bytes written again.
fn body(case: &mut Case<'_>) {
    match Body::read(case.bytes()) {
        Ok(body) => {
            say_body(case, &body);
            case.say_bytes(body.write().bytes());
        }
        Err(refusal) => case.refuse(refusal.number(), refusal),
    }
}

/// `root BYTES`: also whether it verifies under the key of 32 ones.
fn root(case: &mut Case<'_>) {
    match signed_root(case) {
        Ok(root) => {
            say_body(case, &root.body);
            case.say_bytes(root.signature.bytes());
            case.say_bytes(root.copied().write().bytes());
            case.say_truth(root.verifies(&verifier(), &Hash32::new([1; 32])));
        }
        Err(refusal) => case.refuse(refusal.number(), refusal),
    }
}

/// The next argument, a signed root.
pub(crate) fn signed_root(case: &mut Case<'_>) -> Result<SignedRoot, Refusal> {
    SignedRoot::read(case.bytes())
}

pub(crate) fn say_promise(case: &mut Case<'_>, promise: &Promise) {
    case.say_shown(promise.epoch);
    case.say_bytes(promise.body_hash.bytes());
    case.say_bytes(promise.index.bytes());
    case.say_bytes(promise.name.bytes());
    case.say_bytes(promise.key.bytes());
    say_policy(case, promise.key.policy);
}

/// `promise BYTES`: its fields, and its bytes written again.
fn promise(case: &mut Case<'_>) {
    match Promise::read(case.bytes()) {
        Ok(promise) => {
            say_promise(case, &promise);
            case.say_bytes(promise.copied().write().bytes());
        }
        Err(refusal) => case.refuse(refusal.number(), refusal),
    }
}

/// `signed-promise BYTES`: also whether it verifies under the key of 32 ones.
fn signed_promise(case: &mut Case<'_>) {
    match SignedPromise::read(case.bytes()) {
        Ok(signed) => {
            say_promise(case, &signed.promise);
            case.say_bytes(signed.signature.bytes());
            case.say_bytes(signed.copied().write().bytes());
            case.say_truth(signed.verifies(&verifier(), &Hash32::new([1; 32])));
        }
        Err(refusal) => case.refuse(refusal.number(), refusal),
    }
}
