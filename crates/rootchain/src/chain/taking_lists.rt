//! A list of roots is taken whole or not at all. Memory for all of them is reserved first; then each is
//! placed, and appended if it is the next one. If one is refused, those that were appended are taken off again.
ghost use Rattle.std.specs.Prelude.{◌≡◌, ◌+◌, ◌≤◌, List, length, IfErr, OnErr, OnOk};
ghost use Rattle.std.specs.List.{AllByRecursion};
ghost use Rattle.rootchain.specs.declared.signed_root.SignedRoot.{SignedRoot};
ghost use Rattle.rootchain.specs.Chains.{IsChain};
ghost use Rattle.rootchain.specs.SignedRoots.{IsSignedRoot};
ghost use Rattle.rootchain.specs.TakingLists.{with_roots, IsListRefusal, Takes, TakesEach, ListRefusalHolds, ListRefusalIsSpelled};

use super::Chain;
use super::room::make_room;
use crate::{ListRefusal, RootList};
use nodehash::NodeHash;
use sigiface::Verifier;

impl<H: NodeHash, S: Verifier> Chain<H, S> {
    /// Takes the roots of a list in order: those that the chain has are passed over, and those that
    /// follow the head are appended.
    ///
    /// # Errors
    ///
    /// `Memory` if there is no memory for all roots of the list. Else the refusal of the first root that does
    /// not verify under the chain's key, is before the first root, ahead of the head, or evidence. The chain
    /// then stays as it was.
    pub fn take_list(
        &mut self,
        hash: &mut H,
        verifier: &S,
        list: RootList<'_>,
    ) -> Result<(), ListRefusal>
        ensures taken { OnOk result (Takes H.digest_of S.verified self.old list.entry self.new) }
        ensures grows { (more : List SignedRoot) × (self.new ≡ with_roots self.old more) }
        ensures refused { IfErr result (IsListRefusal H.digest_of S.verified self.old list.entry) }
        ensures stays { OnErr result (self.new ≡ self.old) }
        ensures evidence { IfErr result (ListRefusalHolds H.digest_of S.verified self.old.key) }
        ensures spelled { AllByRecursion IsSignedRoot self.old.roots → AllByRecursion IsSignedRoot list.entry → IfErr result ListRefusalIsSpelled }
        ensures form { AllByRecursion IsSignedRoot self.old.roots → AllByRecursion IsSignedRoot list.entry → AllByRecursion IsSignedRoot self.new.roots }
        ensures chain { IsChain H.digest_of S.verified self.old }
        ensures counted { H.digests hash.new ≤ H.digests hash.old + length list.entry }
    {
        if !make_room(&mut self.roots, list.len()) {
            return Err(ListRefusal::Memory);
        }
        let before = self.roots.len();
        match self.take_each(hash, verifier, list) {
            Ok(()) => Ok(()),
            Err(why) => {
                self.roots.truncate(before);
                Err(why)
            }
        }
    }

    /// Takes the roots of a list up to the first that is refused.
    fn take_each(
        &mut self,
        hash: &mut H,
        verifier: &S,
        list: RootList<'_>,
    ) -> Result<(), ListRefusal>
        ensures each { TakesEach H.digest_of S.verified self.old list.entry result self.new }
        ensures counted { H.digests hash.new ≤ H.digests hash.old + length list.entry }
    {
        let mut list = list;
        let mut why = ListRefusal::Memory;
        while let Some(root) = list.next() {
            if !self.take_one(hash, verifier, root, &mut why) {
                return Err(why);
            }
        }
        Ok(())
    }
}
