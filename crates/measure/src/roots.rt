use crate::run::Run;
use encoding::Hash32;
use nodehash::{NodeHash, Sha256Hash};
use rootchain::{Body, MAX_ROOTS, SignedRoot, write_list};
use sigiface::{KeyedSign, Signer};
use vrfiface::KeyedVuf;

/// The bytes of a body, and those that the stand-in digests to sign it: a letter and a key before it.
pub(crate) const BODY_BYTES: usize = 146;

pub(crate) const KEYED_BYTES: usize = 33;

pub(crate) const SIGNED_BYTES: usize = KEYED_BYTES + BODY_BYTES;

/// The provider, whose key is the signer's.
pub(crate) fn provider() -> KeyedSign {
    KeyedSign::new(Hash32::new([1; 32]))
}

/// The verifiable function of the provider.
pub(crate) fn provider_vuf() -> KeyedVuf {
    KeyedVuf::new(Hash32::new([2; 32]))
}

pub(crate) fn hash_of(body: &Body) -> Hash32 {
    Sha256Hash::new().digest(body.write().bytes())
}

/// The body of epoch 1, with this root of the tree.
pub(crate) fn first_body(root: Hash32) -> Body {
    Body {
        epoch: 1,
        previous_epoch: 0,
        root,
        previous_hash: Hash32::default(),
        nonce: Hash32::default(),
        vuf_key: Hash32::new([2; 32]),
    }
}

/// The body that follows this one, so many epochs later.
pub(crate) fn after(body: &Body, epochs: u64) -> Body {
    Body {
        epoch: body.epoch.saturating_add(epochs),
        previous_epoch: body.epoch,
        previous_hash: hash_of(body),
        ..*body
    }
}

pub(crate) fn signed(body: Body) -> SignedRoot {
    let signature = provider().sign(body.write().bytes());
    SignedRoot { body, signature }
}

/// So many bodies of roots with this root of the tree, of which each follows the one before it by an epoch.
pub(crate) fn bodies(run: &Run, root: Hash32, count: usize) -> Vec<Body> {
    let mut bodies = run.list(count);
    let mut body = first_body(root);
    for _ in 0..count {
        run.push(&mut bodies, body);
        body = after(&body, 1);
    }
    bodies
}

/// The list of the signed roots of these bodies, at most as many as a list may have.
pub(crate) fn list_of(run: &Run, bodies: &[Body]) -> Vec<u8> {
    let mut roots = run.list(bodies.len());
    for body in bodies {
        run.push(&mut roots, signed(*body));
    }
    let mut list = run.list(0);
    if roots.len() > MAX_ROOTS || write_list(&roots, &mut list).is_err() {
        run.fail();
    }
    list
}

/// The lists of the signed roots of these bodies, each with as many as a list may have.
pub(crate) fn lists_of(run: &Run, bodies: &[Body]) -> Vec<Vec<u8>> {
    let mut lists = run.list(0);
    for part in bodies.chunks(MAX_ROOTS) {
        let list = list_of(run, part);
        run.push(&mut lists, list);
    }
    lists
}
