ghost use Rattle.std.specs.Prelude.{◌≡◌, ◌↔◌, ◌+◌, ◌++◌, ◌∷◌, [], ◌≤◌, Some, IfErr, IfOk, OnErr, option_copied};
ghost use Rattle.rootchain.specs.Chains.{IsAt, IsChain, IsExtendRefusal, IsHead, IsStartRefusal, Links, Verifies};

use crate::{Refusal, SignedRoot};
use encoding::Hash32;
use nodehash::NodeHash;
use sigiface::Verifier;
use std::alloc::Global;
use std::marker::{Model, PhantomData};

mod comparing;
mod next_root;
mod placing;
mod room;

pub use placing::Place;

/// The signed roots of one provider, in order (CONIKS, section 3), under the functions of `H` and
/// `S`: each verifies under the provider's key, and each but the first names the one before it and
/// has a later epoch.
#[derive(Drop)]
pub struct Chain<H: NodeHash, S: Verifier> {
    key: Hash32,
    roots: Vec<SignedRoot>,
    types: PhantomData<(H, S)>,
}

impl<H: NodeHash, S: Verifier> Model for Chain<H, S> {
    ghost use Rattle.rootchain.specs.Chains.{IsChain, KeyedRoots};

    ghost Value = { KeyedRoots };

    ghost view = { λ chain. record { key = chain.key; roots = chain.roots.items } };

    ghost invariant = { λ chain. IsChain H.digest_of S.verified (record { key = chain.key; roots = chain.roots.items }) };
}

impl<H: NodeHash, S: Verifier> Chain<H, S> {
    /// The chain of this root alone, if it verifies under the provider's public key.
    ///
    /// # Errors
    ///
    /// `BadSignature` if it does not verify, else `Memory` if memory runs out.
    pub fn start(
        alloc: Global,
        verifier: &S,
        key: Hash32,
        root: SignedRoot,
    ) -> Result<Self, Refusal>
        ensures started { IfOk result (λ chain. chain ≡ record { key = key; roots = root ∷ [] }) }
        ensures verifies { IfOk result (λ _. Verifies S.verified key root) }
        ensures refused { IfErr result (IsStartRefusal S.verified key root) }
    {
        if !root.verifies(verifier, &key) {
            return Err(Refusal::BadSignature);
        }
        let mut roots = Vec::new(alloc);
        roots.push(root)?;
        Ok(Chain {
            key,
            roots,
            types: PhantomData,
        })
    }

    /// Appends the root if it verifies, has a later epoch than the head, and names the head as the root
    /// before it.
    ///
    /// # Errors
    ///
    /// `BadSignature`, `NotLater`, `BadLink`, `Memory`: the first that applies. The chain then stays
    /// as it was.
    #[tactic(auto, using(crate::proofs::Chains::chain_push))]
    pub fn extend(&mut self, hash: &mut H, verifier: &S, root: SignedRoot) -> Result<(), Refusal>
        ensures extended { IfOk result (λ _. self.new ≡ record self.old { roots = self.old.roots ++ root ∷ [] }) }
        ensures linked { (head : SignedRoot) → IsHead self.old head
            → IfOk result (λ _. Verifies S.verified self.old.key root × Links H.digest_of head root) }
        ensures refused { (head : SignedRoot) → IsHead self.old head
            → IfErr result (IsExtendRefusal H.digest_of S.verified self.old.key head root) }
        ensures stays { OnErr result (self.new ≡ self.old) }
        ensures counted { H.digests hash.new ≤ H.digests hash.old + 1 }
    {
        if !root.verifies(verifier, self.key()) {
            return Err(Refusal::BadSignature);
        }
        let head = self.head();
        if root.body.epoch <= head.body.epoch {
            return Err(Refusal::NotLater);
        }
        if !root.names(hash, head) {
            return Err(Refusal::BadLink);
        }
        self.roots.push(root)?;
        Ok(())
    }

    /// The root of an epoch, if the chain has one.
    pub fn at(&self, epoch: u64) -> Option<&SignedRoot>
        ensures { (root : SignedRoot) → (option_copied result ≡ Some root) ↔ IsAt self.now epoch root }
    {
        // Epochs ascend along a chain, so a binary search finds the one root of an epoch.
        match self
            .roots
            .binary_search_by_key(&epoch, |root| root.body.epoch)
        {
            Ok(place) => Some(&self.roots[place]),
            Err(_) => None,
        }
    }

    /// The last root.
    pub fn head(&self) -> &SignedRoot
        ensures head { IsHead self.now result.now }
        ensures chain { IsChain H.digest_of S.verified self.now }
    {
        &self.roots[self.roots.len() - 1]
    }

    /// The public key of the provider.
    pub fn key(&self) -> &Hash32
        ensures { result.now ≡ self.now.key }
    {
        &self.key
    }
}

mod taking;
mod taking_bytes;
mod taking_lists;
mod taking_one;
mod taking_pieces;
