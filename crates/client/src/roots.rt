ghost use Rattle.std.specs.Prelude.{◌≡◌, ◌↔◌, ◌+◌, ◌≤◌, IsTrue, Some, option_copied};
ghost use Rattle.rootchain.specs.declared.signed_root.SignedRoot.{SignedRoot};
ghost use Rattle.client.specs.Clients.{HasRootOf};
ghost use Rattle.client.specs.Looking.{IsLookRoot};

use nodehash::NodeHash;
use rootchain::{Chain, Promise, SignedRoot};
use sigiface::Verifier;

/// The root that a look at an epoch is checked under: for 0 the head, else the one of the epoch.
pub(crate) fn asked<H: NodeHash, S: Verifier>(
    chain: &Chain<H, S>,
    epoch: u64,
) -> Option<&SignedRoot>
    ensures { (root : SignedRoot) → (option_copied result ≡ Some root) ↔ IsLookRoot chain.now epoch root }
{
    if epoch == 0 {
        return Some(chain.head());
    }
    chain.at(epoch)
}

/// Whether a root of the chain has the epoch and the hash of a promise.
pub(crate) fn has_root_of<H: NodeHash, S: Verifier>(
    chain: &Chain<H, S>,
    hash: &mut H,
    promise: &Promise,
) -> bool
    ensures has { IsTrue result ↔ HasRootOf H.digest_of chain.now promise.now }
    ensures counted { H.digests hash.new ≤ H.digests hash.old + 1 }
{
    match chain.at(promise.epoch) {
        Some(root) => promise.body_hash == hash.digest(root.body.write().bytes()),
        None => false,
    }
}
