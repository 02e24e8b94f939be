ghost use Rattle.std.specs.Prelude.{◌≡◌, ◌+◌, ◌≤◌, IfErr, IfOk, OnErr};
ghost use Rattle.rootchain.specs.Chains.{IsChain, Verifies};
ghost use Rattle.rootchain.specs.Places.{EvidenceHolds, IsHashed, IsPlace};
ghost use Rattle.rootchain.specs.Taking.{with_taken, IsTakeRefusal};

use super::Chain;
use crate::{Place, Refusal, SignedRoot};
use nodehash::NodeHash;
use sigiface::Verifier;

impl<H: NodeHash, S: Verifier> Chain<H, S> {
    /// Places a root, and appends it if it is the next one. So the root is verified and the head's body
    /// hashed once, where `place` and `extend` would each do both.
    ///
    /// # Errors
    ///
    /// `BadSignature` if the root does not verify under the chain's key, else `Memory` if it is the next
    /// one and memory runs out. The chain then stays as it was.
    pub fn take(&mut self, hash: &mut H, verifier: &S, root: SignedRoot) -> Result<Place, Refusal>
        ensures verifies { IfOk result (λ _. Verifies S.verified self.old.key root) }
        ensures place { IfOk result (IsPlace H.digest_of self.old root) }
        ensures evidence { IfOk result (EvidenceHolds H.digest_of S.verified self.old.key) }
        ensures taken { IfOk result (λ place. self.new ≡ with_taken self.old root place) }
        ensures refused { IfErr result (IsTakeRefusal H.digest_of S.verified self.old root) }
        ensures stays { OnErr result (self.new ≡ self.old) }
        ensures chain { IsChain H.digest_of S.verified self.old }
        ensures counted { H.digests hash.new ≤ H.digests hash.old + 1 }
        ensures spared { ¬ IsHashed self.old root → H.digests hash.new ≡ H.digests hash.old }
        ensures unverified { ¬ Verifies S.verified self.old.key root → H.digests hash.new ≡ H.digests hash.old }
    {
        let place = self.place(hash, verifier, &root)?;
        if let Place::Next = place {
            self.roots.push(root)?;
        }
        Ok(place)
    }
}
