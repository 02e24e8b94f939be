//! An auditor has one chain for each provider, in a map by public key. The first root of a key starts a
//! chain, and each later one is taken by it: the chain keeps it if it is the next one, and else says where
//! it stands.
ghost use Rattle.std.specs.Prelude.{◌≡◌, ◌+◌, ◌≤◌, [], IfOk, IfSome, IsSome, None, option_map};
ghost use Rattle.auditor.specs.Chains.{chain_of, IsHeld};
ghost use Rattle.auditor.specs.declared.auditor.Observed.TheVariants.{Started};
ghost use Rattle.auditor.specs.Observing.{compared_as, observed_as, ComparesBytes, ComparesRoot, ObservedHolds, Observes, ObservesRoot, PlaceHolds};
ghost use Rattle.auditor.specs.Taking.{TakesAt};
ghost use Rattle.rootchain.specs.SignedRoots.{IsSignedRoot};

use encoding::Hash32;
use nodehash::NodeHash;
use rootchain::{Chain, Place, Refusal, RootEvidence, SignedRoot};
use sigiface::Verifier;
use std::alloc::Global;
use std::collections::BTreeMap;
use std::marker::Model;

/// What an auditor answers on a root that it observed.
#[derive(Debug, Drop, PartialEq, Eq)]
pub enum Observed {
    /// It is the first root of its provider, and a chain starts with it.
    Started,
    /// It follows the head of the provider's chain, and is now the head.
    Extended,
    /// The chain has its body.
    Known,
    /// It names a later epoch than the head's as the one before.
    Ahead,
    /// Its epoch is before the first one, and it is no evidence with the first root.
    BeforeStart,
    /// It is evidence with a root of the chain.
    Evidence(RootEvidence),
}

/// An auditor holds one chain for each provider that it observes, under the functions of `H` and `S`.
#[derive(Drop)]
pub struct Auditor<H: NodeHash + Drop, S: Verifier + Drop> {
    alloc: Global,
    chains: BTreeMap<Hash32, Chain<H, S>>,
}

impl<H: NodeHash + Drop, S: Verifier + Drop> Model for Auditor<H, S> {
    ghost use Rattle.auditor.specs.Chains.{AreHeld, Chains};

    ghost Value = { Chains };

    ghost view = { λ auditor. auditor.chains.entries };

    ghost invariant = { λ auditor. AreHeld auditor.chains.entries };
}

impl<H: NodeHash + Drop, S: Verifier + Drop> Auditor<H, S> {
    /// An auditor that has observed no provider.
    pub fn new(alloc: Global) -> Self
        ensures { result ≡ [] }
    {
        Auditor {
            alloc,
            chains: BTreeMap::new(alloc),
        }
    }

    /// The chain of the provider that has this public key, if the auditor observed a root of it.
    pub fn chain(&self, provider_key: &Hash32) -> Option<&Chain<H, S>>
        ensures value { option_map (λ chain. chain.now) result ≡ chain_of self.now provider_key.now }
        ensures held { IfSome (chain_of self.now provider_key.now) (IsHeld provider_key.now) }
    {
        self.chains.get(provider_key)
    }

    /// Observes the signed root that these bytes spell as one of this provider's: it starts the
    /// provider's chain or extends it, else the answer says where it stands to that chain.
    ///
    /// # Errors
    ///
    /// `Malformed`, `BadSignature`, `Memory`: the first that applies. The auditor then stays as it was.
    pub fn observe(
        &mut self,
        hash: &mut H,
        verifier: &S,
        provider_key: &Hash32,
        bytes: &[u8],
    ) -> Result<Observed, Refusal>
        ensures observes { Observes H.digest_of S.verified self.old provider_key.now bytes.now result self.new }
        ensures evidence { IfOk result (ObservedHolds H.digest_of S.verified provider_key.now) }
        ensures counted { H.digests hash.new ≤ H.digests hash.old + 1 }
    {
        let root = SignedRoot::read(bytes)?;
        // The chain is looked for once more in `take`, whose contract then speaks of one that is there.
        if !self.chains.contains_key(provider_key) {
            return self.start(verifier, provider_key, root);
        }
        let place = self.take(hash, verifier, provider_key, root)?;
        Ok(tell_observed(place))
    }

    /// Compares the signed root that these bytes spell with this provider's chain. The answer is `Ahead`
    /// for one that may follow, and for one of a provider that the auditor did not observe.
    ///
    /// # Errors
    ///
    /// `Malformed`, `BadSignature`: the first that applies.
    pub fn compare(
        &self,
        hash: &mut H,
        verifier: &S,
        provider_key: &Hash32,
        bytes: &[u8],
    ) -> Result<Place, Refusal>
        ensures compares { ComparesBytes H.digest_of S.verified self.now provider_key.now bytes.now result }
        ensures evidence { IfOk result (PlaceHolds H.digest_of S.verified provider_key.now) }
        ensures counted { H.digests hash.new ≤ H.digests hash.old + 1 }
    {
        let root = SignedRoot::read(bytes)?;
        self.compare_root(hash, verifier, provider_key, &root)
    }

    /// Compares a root that was read.
    fn compare_root(
        &self,
        hash: &mut H,
        verifier: &S,
        provider_key: &Hash32,
        root: &SignedRoot,
    ) -> Result<Place, Refusal>
        requires form { IsSignedRoot root.now }
        ensures compares { ComparesRoot H.digest_of S.verified self.now provider_key.now root.now result }
        ensures evidence { IfOk result (PlaceHolds H.digest_of S.verified provider_key.now) }
        ensures counted { H.digests hash.new ≤ H.digests hash.old + 1 }
    {
        match self.chain(provider_key) {
            Some(chain) => {
                let place = chain.place(hash, verifier, root)?;
                Ok(tell_compared(place))
            }
            None if root.verifies(verifier, provider_key) => Ok(Place::Ahead),
            None => Err(Refusal::BadSignature),
        }
    }

    /// Starts the chain of a provider that has none.
    fn start(
        &mut self,
        verifier: &S,
        provider_key: &Hash32,
        root: SignedRoot,
    ) -> Result<Observed, Refusal>
        requires form { IsSignedRoot root }
        requires none { chain_of self.old provider_key.now ≡ None }
        ensures observes { ObservesRoot H.digest_of S.verified self.old provider_key.now root result self.new }
        ensures started { IfOk result (λ told. told ≡ Started) }
    {
        let chain = Chain::start(self.alloc, verifier, *provider_key, root)?;
        self.chains.insert(*provider_key, chain)?;
        Ok(Observed::Started)
    }

    /// Lets the chain of a provider that has one take a root.
    fn take(
        &mut self,
        hash: &mut H,
        verifier: &S,
        provider_key: &Hash32,
        root: SignedRoot,
    ) -> Result<Place, Refusal>
        requires form { IsSignedRoot root }
        requires some { IsSome (chain_of self.old provider_key.now) }
        ensures takes { TakesAt H.digest_of S.verified self.old provider_key.now root result self.new }
        ensures evidence { IfOk result (PlaceHolds H.digest_of S.verified provider_key.now) }
        ensures counted { H.digests hash.new ≤ H.digests hash.old + 1 }
    {
        let Some(chain) = self.chains.get_mut(provider_key) else {
            unreachable!()
        };
        chain.take(hash, verifier, root)
    }
}

/// The answer on an observed root of this place.
fn tell_observed(place: Place) -> Observed
    ensures { result ≡ observed_as place }
{
    match place {
        Place::Known => Observed::Known,
        Place::Evidence(evidence) => Observed::Evidence(evidence),
        Place::Next => Observed::Extended,
        Place::Ahead => Observed::Ahead,
        Place::BeforeStart => Observed::BeforeStart,
    }
}

/// The answer on a compared root of this place.
fn tell_compared(place: Place) -> Place
    ensures { result ≡ compared_as place }
{
    match place {
        Place::Next => Place::Ahead,
        other => other,
    }
}
