// Which of the kept promises is tested for a name: one goes through them in order and keeps the one of the least
// epoch so far, of equals the first. It is then compared with what a reply under the next root states.
ghost use Rattle.std.specs.Prelude.{◌≡◌, ◌↔◌, ◌+◌, ◌≤◌, ◌++◌, ◌∷◌, [], List, Some, length, IsTrue};
ghost use Rattle.proofs.specs.Accepts.{stated};
ghost use Rattle.proofs.specs.Replies.{SpellsReply};
ghost use Rattle.rootchain.specs.Chains.{IsChain};
ghost use Rattle.rootchain.specs.declared.signed_promise.SignedPromise.{SignedPromise};
ghost use Rattle.prefixtree.specs.declared.path.TheConstants.{MAX_SIBLINGS};
ghost use Rattle.client.specs.Dues.{IsTestedAs, ShowsKept, Tests};
ghost use Rattle.client.specs.Testing.{IsTestedAmong};

use crate::{Due, Refusal};
use encoding::{Name, ProofText};
use nodehash::NodeHash;
use proofs::{Accepted, BrokenPromise, ReplyView, accept};
use rootchain::{Chain, SignedPromise, SignedRoot};
use sigiface::Verifier;
use vrfiface::{VufCheck, index_of};

/// The promise that is tested for a name, and its place among the promises: of those for the name the one
/// of the least epoch, and of equals the first.
pub(crate) fn tested<'a>(
    promises: &'a [SignedPromise],
    name: &Name,
) -> Option<(usize, &'a SignedPromise)>
    ensures { IsTestedAmong promises.entry.now name.now result }
{
    let mut least = None;
    for place in 0..promises.len() {
        least = earlier(least, place, &promises[place], name);
    }
    least
}

/// The promise that is tested after one more is added behind the others.
fn earlier<'a>(
    least: Option<(usize, &'a SignedPromise)>,
    place: usize,
    signed: &'a SignedPromise,
    name: &Name,
) -> Option<(usize, &'a SignedPromise)>
    ensures { (promises : List SignedPromise) → length promises ≡ place → IsTestedAmong promises name.now least.entry
        → IsTestedAmong (promises ++ signed.entry.now ∷ []) name.now result }
{
    if signed.promise.name != *name {
        return least;
    }
    let Some((_, other)) = least else {
        return Some((place, signed));
    };
    if other.promise.epoch <= signed.promise.epoch {
        return least;
    }
    Some((place, signed))
}

/// Tests a promise by a reply for a name: it is checked against the first root after that of the promise.
pub(crate) fn test<H: NodeHash, V: VufCheck, S: Verifier>(
    chain: &Chain<H, S>,
    signed: &SignedPromise,
    hash: &mut H,
    vuf: &V,
    name: &Name,
    bytes: &[u8],
) -> Result<Due, Refusal>
    ensures tests { Tests H.digest_of V.accepted chain.now name.now bytes.now signed.now result }
    ensures chain { IsChain H.digest_of S.verified chain.now }
    ensures counted { H.digests hash.new ≤ H.digests hash.old + (MAX_SIBLINGS + 3) }
{
    let Some(root) = chain.after(signed.promise.epoch) else {
        return Err(Refusal::UnknownRoot);
    };
    match accept::<H, V>(hash, vuf, &root.body, name, bytes) {
        Ok(accepted) => Ok(tell(&accepted, signed, root, bytes)),
        Err(why) => Err(Refusal::Proof(why)),
    }
}

/// Whether a reply under the first root after that of a promise shows that it was kept, if it is accepted.
pub(crate) fn shows_kept<H: NodeHash, S: Verifier>(
    chain: &Chain<H, S>,
    signed: &SignedPromise,
    hash: &mut H,
    bytes: &[u8],
) -> bool
    ensures shows { IsTrue result ↔ ShowsKept H.digest_of chain.now signed.now bytes.now }
    ensures counted { H.digests hash.new ≤ H.digests hash.old + 1 }
{
    let Some(root) = chain.after(signed.promise.epoch) else {
        return false;
    };
    match ReplyView::read(bytes) {
        Ok(view) => is_under(&view, root) && states_kept(signed, hash, &view),
        Err(_) => false,
    }
}

/// Whether a reply has the body of a root.
fn is_under(view: &ReplyView<'_>, root: &SignedRoot) -> bool
    ensures { IsTrue result ↔ (view.now.body ≡ root.now.body) }
{
    view.body() == &root.body
}

/// Whether a reply states the promised key, for the promised index.
fn states_kept<H: NodeHash>(signed: &SignedPromise, hash: &mut H, view: &ReplyView<'_>) -> bool
    ensures states { IsTrue result ↔ ((H.digest_of view.now.value ≡ signed.now.promise.index) × (stated view.now.end ≡ Some signed.now.promise.key)) }
    ensures counted { H.digests hash.new ≤ H.digests hash.old + 1 }
{
    view.statement().binds(&signed.promise.key)
        && index_of(hash, view.value()) == signed.promise.index
}

/// What an accepted reply under the next root shows of a promise.
fn tell<H: NodeHash, V: VufCheck>(
    accepted: &Accepted<'_, H, V>,
    signed: &SignedPromise,
    root: &SignedRoot,
    bytes: &[u8],
) -> Due
    requires spelled { SpellsReply bytes.now accepted.now.reply }
    ensures { IsTestedAs H.digest_of V.accepted signed.now root.now bytes.now accepted.now.reply result }
{
    if accepted.index() != signed.promise.index {
        return Due::OtherIndex;
    }
    if accepted.statement().binds(&signed.promise.key) {
        return Due::Kept;
    }
    let mut proof = ProofText::new();
    proof.push_slice(bytes);
    Due::Broken(BrokenPromise {
        promise: signed.copied(),
        root: root.copied(),
        proof,
    })
}
