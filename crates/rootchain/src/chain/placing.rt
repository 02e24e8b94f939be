//! Where a root stands to a chain, by its epoch. Above the head and below the first root, the epoch that
//! the later of the two names decides, and its hash only if that epoch is the other's. Between them, the
//! chain's root of the same epoch decides, or the first one after it, which passes over the epoch.
ghost use Rattle.std.specs.Prelude.{◌≡◌, ◌≢◌, ◌↔◌, ◌+◌, ◌<◌, ◌≤◌, length, IfOk, IsOk, IsOkUnless, OnErr};
ghost use Rattle.std.specs.List.Sorted.{IsPartitionPoint};
ghost use Rattle.rootchain.specs.declared.root_refusal.Refusal.TheVariants.{BadSignature};
ghost use Rattle.rootchain.specs.Chains.{Ascend, IsChain, IsHead, Verifies};
ghost use Rattle.rootchain.specs.Places.{EvidenceHolds, IsFirst, IsHashed, IsPlace, IsPlaceAbove, IsPlaceBelow, IsPlaceWithin};

use super::Chain;
use crate::{Refusal, RootEvidence, SignedRoot};
use nodehash::NodeHash;
use sigiface::Verifier;

/// Where a root stands to a chain.
#[derive(Debug, Drop, PartialEq, Eq)]
pub enum Place {
    /// The chain has its body.
    Known,
    /// It is evidence with a root of the chain.
    Evidence(RootEvidence),
    /// It may follow the head.
    Next,
    /// It names a later epoch than the head's as the one before.
    Ahead,
    /// Its epoch is before the first one, and it is no evidence with the first root.
    BeforeStart,
}

impl<H: NodeHash, S: Verifier> Chain<H, S> {
    /// Where a root stands to the chain.
    ///
    /// # Errors
    ///
    /// `BadSignature` if the root does not verify under the chain's key.
    pub fn place(&self, hash: &mut H, verifier: &S, root: &SignedRoot) -> Result<Place, Refusal>
        ensures verifies { IsOk result ↔ Verifies S.verified self.now.key root.now }
        ensures refused { IsOkUnless result BadSignature }
        ensures place { IfOk result (IsPlace H.digest_of self.now root.now) }
        ensures evidence { IfOk result (EvidenceHolds H.digest_of S.verified self.now.key) }
        ensures chain { IsChain H.digest_of S.verified self.now }
        ensures counted { H.digests hash.new ≤ H.digests hash.old + 1 }
        ensures spared { ¬ IsHashed self.now root.now → H.digests hash.new ≡ H.digests hash.old }
        ensures unverified { OnErr result (H.digests hash.new ≡ H.digests hash.old) }
    {
        if !root.verifies(verifier, &self.key) {
            return Err(Refusal::BadSignature);
        }
        Ok(self.place_of(hash, root))
    }

    /// The place of a root, whether it verifies or not.
    pub(super) fn place_of(&self, hash: &mut H, root: &SignedRoot) -> Place
        ensures place { IsPlace H.digest_of self.now root.now result }
        ensures chain { IsChain H.digest_of S.verified self.now }
        ensures counted { H.digests hash.new ≤ H.digests hash.old + 1 }
        ensures spared { ¬ IsHashed self.now root.now → H.digests hash.new ≡ H.digests hash.old }
    {
        let (first, head) = (self.first(), self.head());
        if root.body.epoch < first.body.epoch {
            return place_below(hash, first, root);
        }
        if head.body.epoch < root.body.epoch {
            return place_above(hash, head, root);
        }
        self.place_within(root)
    }

    /// The place of a root whose epoch is not above the head's.
    fn place_within(&self, root: &SignedRoot) -> Place
        requires { (head : SignedRoot) → IsHead self.now head → root.now.body.epoch ≤ head.body.epoch }
        ensures { IsPlaceWithin self.now root.now result }
    {
        let roots = self.roots();
        let own = &roots[not_before(roots, root.body.epoch)];
        if own.body.epoch != root.body.epoch {
            return Place::Evidence(RootEvidence::Skip(root.copied(), own.copied()));
        }
        if own.body == root.body {
            Place::Known
        } else {
            Place::Evidence(RootEvidence::Fork(own.copied(), root.copied()))
        }
    }

    /// The roots, whose epochs ascend.
    pub(super) fn roots(&self) -> &[SignedRoot]
        ensures value { result.now ≡ self.now.roots }
        ensures chain { IsChain H.digest_of S.verified self.now }
        ensures ascend { Ascend result.now }
    {
        &self.roots
    }

    /// The first root.
    pub(super) fn first(&self) -> &SignedRoot
        ensures { IsFirst self.now result.now }
    {
        &self.roots[0]
    }
}

/// The place of a root of an earlier epoch than the chain's first.
fn place_below<H: NodeHash>(hash: &mut H, first: &SignedRoot, root: &SignedRoot) -> Place
    ensures place { IsPlaceBelow H.digest_of first.now root.now result }
    ensures counted { H.digests hash.new ≤ H.digests hash.old + 1 }
    ensures spared { first.now.body.previous_epoch ≢ root.now.body.epoch → H.digests hash.new ≡ H.digests hash.old }
{
    if first.body.previous_epoch < root.body.epoch {
        return Place::Evidence(RootEvidence::Skip(root.copied(), first.copied()));
    }
    if root.body.epoch < first.body.previous_epoch || first.names(hash, root) {
        return Place::BeforeStart;
    }
    Place::Evidence(RootEvidence::Link(root.copied(), first.copied()))
}

/// The place of a root of a later epoch than the head.
pub(super) fn place_above<H: NodeHash>(hash: &mut H, head: &SignedRoot, root: &SignedRoot) -> Place
    ensures place { IsPlaceAbove H.digest_of head.now root.now result }
    ensures counted { H.digests hash.new ≤ H.digests hash.old + 1 }
    ensures spared { root.now.body.previous_epoch ≢ head.now.body.epoch → H.digests hash.new ≡ H.digests hash.old }
{
    if root.body.previous_epoch < head.body.epoch {
        return Place::Evidence(RootEvidence::Skip(head.copied(), root.copied()));
    }
    if head.body.epoch < root.body.previous_epoch {
        return Place::Ahead;
    }
    if root.names(hash, head) {
        Place::Next
    } else {
        Place::Evidence(RootEvidence::Link(head.copied(), root.copied()))
    }
}

/// How many of the roots have an epoch before this one.
pub(super) fn not_before(roots: &[SignedRoot], epoch: u64) -> usize
    requires { Ascend roots.now }
    ensures within { result ≤ length roots.now }
    ensures point { IsPartitionPoint (λ root. root.body.epoch < epoch) (λ root. epoch ≤ root.body.epoch) roots.now result }
{
    roots.partition_point(|root| root.body.epoch < epoch)
}
