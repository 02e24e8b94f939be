ghost use Rattle.std.specs.Prelude.{◌≡◌, ◌↔◌, ◌<◌, ◌≤◌, length, All, None, Some, option_copied};
ghost use Rattle.std.specs.List.Sorted.{IsPartitionPoint};
ghost use Rattle.rootchain.specs.Chains.{Ascend, IsChain};
ghost use Rattle.rootchain.specs.Places.{IsNextAfter};

use super::Chain;
use crate::SignedRoot;
use nodehash::NodeHash;
use sigiface::Verifier;

impl<H: NodeHash, S: Verifier> Chain<H, S> {
    /// The first root of a later epoch than this one, if the chain has one.
    pub fn after(&self, epoch: u64) -> Option<&SignedRoot>
        ensures next { (root : SignedRoot) → (option_copied result ≡ Some root) ↔ IsNextAfter self.now epoch root }
        ensures none { (option_copied result ≡ None) ↔ All (λ root. root.body.epoch ≤ epoch) self.now.roots }
        ensures chain { IsChain H.digest_of S.verified self.now }
    {
        // Epochs ascend along a chain, so the roots that are not after the epoch come first.
        let roots = self.roots();
        let place = not_after(roots, epoch);
        if place == roots.len() {
            return None;
        }
        Some(&roots[place])
    }
}

/// How many of the roots have this epoch or one before it.
pub(super) fn not_after(roots: &[SignedRoot], epoch: u64) -> usize
    requires { Ascend roots.now }
    ensures within { result ≤ length roots.now }
    ensures point { IsPartitionPoint (λ root. root.body.epoch ≤ epoch) (λ root. epoch < root.body.epoch) roots.now result }
{
    roots.partition_point(|root| root.body.epoch <= epoch)
}
