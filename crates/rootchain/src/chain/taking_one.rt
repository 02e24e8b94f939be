//! One root of a list. A refusal may have two roots in it, and a function that makes one clears the room for
//! it whenever it is called. So a small value first says what kind of root it is; a refusal is written into a
//! place of the caller's, by functions that are called for nothing else.
ghost use Rattle.std.specs.Prelude.{◌≡◌, ◌+◌, ◌≤◌, false, IfErr};
ghost use Rattle.std.specs.List.{AllByRecursion};
ghost use Rattle.rootchain.specs.declared.chain.placing.Place.TheVariants as place;
ghost use Rattle.rootchain.specs.declared.chain.taking_one.Kind.TheVariants as kind;
ghost use Rattle.rootchain.specs.declared.list_refusal.ListRefusal.TheVariants as list;
ghost use Rattle.rootchain.specs.Chains.{IsHead, Verifies};
ghost use Rattle.rootchain.specs.Places.{IsFirst, IsPlace};
ghost use Rattle.rootchain.specs.SignedRoots.{IsSignedRoot};
ghost use Rattle.rootchain.specs.TakingLists.{answer, IsKind, IsNotNamed, ListRefusalIsSpelled, TakesOne};

use super::Chain;
use crate::{ListRefusal, Place, RootEvidence, SignedRoot};
use nodehash::NodeHash;
use sigiface::Verifier;

/// What kind of root it is to a chain. Only the kinds that are decided without evidence, or by a hash, are
/// told apart.
#[derive(Clone, Copy, Debug)]
enum Kind {
    /// It does not verify.
    Unsigned,
    /// The chain has its body.
    Known,
    /// It follows the head.
    Next,
    /// It names the head's epoch as the one before, but not the hash of the head's body.
    NotNamed,
    /// Its place decides.
    Other,
}

impl<H: NodeHash, S: Verifier> Chain<H, S> {
    /// Takes one root of a list, and returns whether it did. If it is refused, `why` is the refusal.
    pub(super) fn take_one(
        &mut self,
        hash: &mut H,
        verifier: &S,
        root: SignedRoot,
        why: &mut ListRefusal,
    ) -> bool
        ensures one { TakesOne H.digest_of S.verified self.old root (answer result why.new) self.new }
        ensures spelled { AllByRecursion IsSignedRoot self.old.roots → IsSignedRoot root → IfErr (answer result why.new) ListRefusalIsSpelled }
        ensures form { AllByRecursion IsSignedRoot self.old.roots → IsSignedRoot root → AllByRecursion IsSignedRoot self.new.roots }
        ensures counted { H.digests hash.new ≤ H.digests hash.old + 1 }
    {
        match self.kind(hash, verifier, &root) {
            Kind::Known => true,
            Kind::Next => self.append(root, why),
            Kind::Unsigned => refuse_unsigned(why),
            Kind::NotNamed => self.refuse_link(root, why),
            Kind::Other => self.take_other(hash, root, why),
        }
    }

    /// What kind of root it is. The head's body is hashed only if the root names its epoch.
    fn kind(&self, hash: &mut H, verifier: &S, root: &SignedRoot) -> Kind
        ensures kind { IsKind H.digest_of S.verified self.now root.now result }
        ensures counted { H.digests hash.new ≤ H.digests hash.old + 1 }
        ensures spared { result ≡ kind.Other → H.digests hash.new ≡ H.digests hash.old }
    {
        if !root.verifies(verifier, &self.key) {
            return Kind::Unsigned;
        }
        let (first, head) = (self.first(), self.head());
        if root.body.epoch < first.body.epoch {
            return Kind::Other;
        }
        if root.body.epoch <= head.body.epoch {
            return self.kind_within(root);
        }
        if root.body.previous_epoch != head.body.epoch {
            return Kind::Other;
        }
        if root.names(hash, head) {
            Kind::Next
        } else {
            Kind::NotNamed
        }
    }

    /// Appends the root that follows the head. The refusal is `Memory`.
    #[inline(always)]
    fn append(&mut self, root: SignedRoot, why: &mut ListRefusal) -> bool
        requires verifies { Verifies S.verified self.old.key root }
        requires place { IsPlace H.digest_of self.old root place.Next }
        ensures one { TakesOne H.digest_of S.verified self.old root (answer result why.new) self.new }
        ensures spelled { IfErr (answer result why.new) ListRefusalIsSpelled }
        ensures form { AllByRecursion IsSignedRoot self.old.roots → IsSignedRoot root → AllByRecursion IsSignedRoot self.new.roots }
    {
        if self.roots.reserve(1).is_err() {
            return refuse_memory(why);
        }
        self.roots.push_reserved(root);
        true
    }

    /// Refuses a root that names the head's epoch, but not its hash.
    #[cold]
    #[inline(never)]
    fn refuse_link(&self, root: SignedRoot, why: &mut ListRefusal) -> bool
        requires verifies { Verifies S.verified self.now.key root }
        requires place { IsNotNamed H.digest_of S.verified self.now root }
        ensures one { TakesOne H.digest_of S.verified self.now root (answer result why.new) self.now }
        ensures spelled { AllByRecursion IsSignedRoot self.now.roots → IsSignedRoot root → IfErr (answer result why.new) ListRefusalIsSpelled }
    {
        *why = ListRefusal::Evidence(RootEvidence::Link(self.head().copied(), root));
        false
    }

    /// Takes a root that verifies, by its place.
    #[cold]
    #[inline(never)]
    fn take_other(&mut self, hash: &mut H, root: SignedRoot, why: &mut ListRefusal) -> bool
        requires { Verifies S.verified self.old.key root }
        ensures one { TakesOne H.digest_of S.verified self.old root (answer result why.new) self.new }
        ensures spelled { AllByRecursion IsSignedRoot self.old.roots → IsSignedRoot root → IfErr (answer result why.new) ListRefusalIsSpelled }
        ensures form { AllByRecursion IsSignedRoot self.old.roots → IsSignedRoot root → AllByRecursion IsSignedRoot self.new.roots }
        ensures counted { H.digests hash.new ≤ H.digests hash.old + 1 }
    {
        match self.place_of(hash, &root) {
            Place::Known => true,
            Place::Next => self.append(root, why),
            Place::BeforeStart => {
                *why = ListRefusal::BeforeStart;
                false
            }
            Place::Ahead => {
                *why = ListRefusal::Ahead;
                false
            }
            Place::Evidence(evidence) => {
                *why = ListRefusal::Evidence(evidence);
                false
            }
        }
    }

    /// What kind of root it is, where its epoch is neither before the first one nor after the head's.
    fn kind_within(&self, root: &SignedRoot) -> Kind
        requires verifies { Verifies S.verified self.now.key root.now }
        requires first { (first : SignedRoot) → IsFirst self.now first → first.body.epoch ≤ root.now.body.epoch }
        requires head { (head : SignedRoot) → IsHead self.now head → root.now.body.epoch ≤ head.body.epoch }
        ensures { IsKind H.digest_of S.verified self.now root.now result }
    {
        match self.at(root.body.epoch) {
            Some(own) => {
                if own.body == root.body {
                    Kind::Known
                } else {
                    Kind::Other
                }
            }
            None => Kind::Other,
        }
    }
}

/// Refuses a root that does not verify.
#[cold]
#[inline(never)]
fn refuse_unsigned(why: &mut ListRefusal) -> bool
    ensures refused { result ≡ false }
    ensures why { why.new ≡ list.BadSignature }
{
    *why = ListRefusal::BadSignature;
    false
}

/// Refuses a root for which there is no memory.
#[cold]
#[inline(never)]
fn refuse_memory(why: &mut ListRefusal) -> bool
    ensures refused { result ≡ false }
    ensures why { why.new ≡ list.Memory }
{
    *why = ListRefusal::Memory;
    false
}
