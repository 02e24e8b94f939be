ghost use Rattle.std.specs.Prelude.{◌≡◌, ◌≢◌, ◌↔◌, ◌+◌, ◌*◌, ◌≤◌, true, IsTrue};
ghost use Rattle.prefixtree.specs.declared.path.TheConstants.{MAX_SIBLINGS};
ghost use Rattle.auditor.specs.Evidence.{IsEvidence};
ghost use Rattle.proofs.specs.Accepts.{stated};
ghost use Rattle.proofs.specs.BrokenFinals.{states_final, Changes, IsBrokenFinal};
ghost use Rattle.proofs.specs.BrokenPromises.{Contradicts, IsBrokenPromise};

use crate::Evidence;
use encoding::Hash32;
use nodehash::NodeHash;
use proofs::{Accepted, BrokenFinal, BrokenPromise, accept};
use rootchain::{Body, Promise};
use sigiface::Verifier;
use vrfiface::VufCheck;

/// Whether this is evidence against the provider that has this public key, whoever made it: whether each
/// signature verifies under the key, and the parts stand to each other as the kind of evidence says.
/// Takes at most 518 digests.
pub fn judge<H: NodeHash, V: VufCheck, S: Verifier>(
    hash: &mut H,
    vuf: &V,
    verifier: &S,
    key: &Hash32,
    evidence: &Evidence,
) -> bool
    ensures value { IsTrue result ↔ IsEvidence H.digest_of V.accepted S.verified key.now evidence.now }
    ensures counted { H.digests hash.new ≤ H.digests hash.old + 2 * (MAX_SIBLINGS + 3) }
{
    match evidence {
        Evidence::Root(roots) => roots.holds(hash, verifier, key),
        Evidence::Broken(broken) => is_broken(hash, vuf, verifier, key, broken),
        Evidence::Final(broken) => is_broken_final(hash, vuf, verifier, key, broken),
    }
}

/// Whether the promise was broken.
fn is_broken<H: NodeHash, V: VufCheck, S: Verifier>(
    hash: &mut H,
    vuf: &V,
    verifier: &S,
    key: &Hash32,
    broken: &BrokenPromise,
) -> bool
    ensures value { IsTrue result ↔ IsBrokenPromise H.digest_of V.accepted S.verified key.now broken.now.promise broken.now.root broken.now.proof }
    ensures counted { H.digests hash.new ≤ H.digests hash.old + (MAX_SIBLINGS + 3) }
{
    let promise = &broken.promise.promise;
    let body = &broken.root.body;
    broken.promise.verifies(verifier, key)
        && broken.root.verifies(verifier, key)
        && body.previous_epoch == promise.epoch
        && body.previous_hash == promise.body_hash
        && contradicts(hash, vuf, promise, body, broken.proof.bytes())
}

/// Whether the reply is accepted under this body for the promised name, has the promised index, and does
/// not state the promised key.
fn contradicts<H: NodeHash, V: VufCheck>(
    hash: &mut H,
    vuf: &V,
    promise: &Promise,
    body: &Body,
    bytes: &[u8],
) -> bool
    ensures value { IsTrue result ↔ Contradicts H.digest_of V.accepted promise.now body.now bytes.now }
    ensures counted { H.digests hash.new ≤ H.digests hash.old + (MAX_SIBLINGS + 3) }
{
    match accept(hash, vuf, body, &promise.name, bytes) {
        Ok(reply) => { reply.index() == promise.index && !reply.statement().binds(&promise.key) }
        Err(_) => false,
    }
}

/// Whether the final binding was changed.
fn is_broken_final<H: NodeHash, V: VufCheck, S: Verifier>(
    hash: &mut H,
    vuf: &V,
    verifier: &S,
    key: &Hash32,
    broken: &BrokenFinal,
) -> bool
    ensures value { IsTrue result ↔ IsBrokenFinal H.digest_of V.accepted S.verified key.now broken.now }
    ensures counted { H.digests hash.new ≤ H.digests hash.old + 2 * (MAX_SIBLINGS + 3) }
{
    broken.root.verifies(verifier, key)
        && broken.later_root.verifies(verifier, key)
        && broken.root.body.epoch < broken.later_root.body.epoch
        && changes(hash, vuf, broken)
}

/// Whether both replies are accepted for the name with one index, and the second changes what the first
/// states to be final.
fn changes<H: NodeHash, V: VufCheck>(hash: &mut H, vuf: &V, broken: &BrokenFinal) -> bool
    ensures value { IsTrue result
        ↔ Changes H.digest_of V.accepted broken.now.name broken.now.root.body broken.now.proof broken.now.later_root.body broken.now.later_proof }
    ensures counted { H.digests hash.new ≤ H.digests hash.old + 2 * (MAX_SIBLINGS + 3) }
{
    let name = &broken.name;
    let Ok(reply) = accept::<H, V>(hash, vuf, &broken.root.body, name, broken.proof.bytes()) else {
        return false;
    };
    let later_bytes = broken.later_proof.bytes();
    let Ok(later) = accept::<H, V>(hash, vuf, &broken.later_root.body, name, later_bytes) else {
        return false;
    };
    is_changed(&reply, &later)
}

/// Whether two accepted replies have one index, the first states a key with Final, and the second anything
/// else.
fn is_changed<H: NodeHash, V: VufCheck>(
    reply: &Accepted<'_, H, V>,
    later: &Accepted<'_, H, V>,
) -> bool
    ensures { IsTrue result ↔ ((H.digest_of reply.now.reply.value ≡ H.digest_of later.now.reply.value)
        × (states_final (stated reply.now.reply.end) ≡ true) × (stated later.now.reply.end ≢ stated reply.now.reply.end)) }
{
    reply.index() == later.index()
        && reply.statement().is_final()
        && later.statement() != reply.statement()
}
