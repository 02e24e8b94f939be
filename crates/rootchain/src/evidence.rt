ghost use Rattle.std.specs.Prelude.{◌≡◌, ◌≢◌, ◌↔◌, ◌+◌, ◌≤◌, IsTrue};
ghost use Rattle.rootchain.specs.Evidence.{IsFork, IsLink, IsRootEvidence, IsSkip, NamesEpoch};

use crate::SignedRoot;
use encoding::Hash32;
use nodehash::NodeHash;
use sigiface::Verifier;

/// Two roots that cannot both stand in one chain of well-formed roots. If both verify under a provider's
/// key, they show anyone that the provider told two histories (CONIKS, section 4).
#[derive(Debug, Drop, PartialEq, Eq)]
pub enum RootEvidence {
    /// Two bodies of one epoch.
    Fork(SignedRoot, SignedRoot),
    /// The second names the epoch of the first as the one before its own, but not the hash of its body.
    Link(SignedRoot, SignedRoot),
    /// The epoch of the first lies between that of the second and the one that the second names as the
    /// one before.
    Skip(SignedRoot, SignedRoot),
}

impl RootEvidence {
    /// Whether both roots verify under the provider's public key and stand as the kind says.
    pub fn holds<H: NodeHash, S: Verifier>(&self, hash: &mut H, verifier: &S, key: &Hash32) -> bool
        ensures value { IsTrue result ↔ IsRootEvidence H.digest_of S.verified key.now self.now }
        ensures counted { H.digests hash.new ≤ H.digests hash.old + 1 }
        ensures spared { ¬ NamesEpoch self.now → H.digests hash.new ≡ H.digests hash.old }
    {
        let (one, other) = match self {
            RootEvidence::Fork(one, other) => (one, other),
            RootEvidence::Link(one, other) => (one, other),
            RootEvidence::Skip(one, other) => (one, other),
        };
        if !one.verifies(verifier, key) || !other.verifies(verifier, key) {
            return false;
        }
        match self {
            RootEvidence::Fork(one, other) => is_fork(one, other),
            RootEvidence::Link(one, other) => is_link(hash, one, other),
            RootEvidence::Skip(one, other) => is_skip(one, other),
        }
    }
}

/// Whether these are two bodies of one epoch.
fn is_fork(one: &SignedRoot, other: &SignedRoot) -> bool
    ensures { IsTrue result ↔ IsFork one.now other.now }
{
    one.body.epoch == other.body.epoch && one.body != other.body
}

/// Whether the other names the epoch of this one as the one before, but not its hash.
fn is_link<H: NodeHash>(hash: &mut H, one: &SignedRoot, other: &SignedRoot) -> bool
    ensures value { IsTrue result ↔ IsLink H.digest_of one.now other.now }
    ensures counted { H.digests hash.new ≤ H.digests hash.old + 1 }
    ensures spared { other.now.body.previous_epoch ≢ one.now.body.epoch → H.digests hash.new ≡ H.digests hash.old }
{
    other.body.previous_epoch == one.body.epoch && !other.names(hash, one)
}

/// Whether the epoch of this one lies between that of the other and the one that the other names.
fn is_skip(one: &SignedRoot, other: &SignedRoot) -> bool
    ensures { IsTrue result ↔ IsSkip one.now other.now }
{
    other.body.previous_epoch < one.body.epoch && one.body.epoch < other.body.epoch
}
