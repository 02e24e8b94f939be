ghost use Rattle.std.specs.Prelude.{◌≡◌, ◌+◌, ◌≤◌, IsOkUnless, OnErr, OnOk};
ghost use Rattle.client.specs.Clients.{with_promise, IsPromised, IsSoundClient};
ghost use Rattle.client.specs.Promising.{KeepsPromise, ReadsPromise};
ghost use Rattle.client.specs.Starting.{Starts};
ghost use Rattle.client.specs.declared.client_refusal.Refusal.TheVariants.{Memory};

use crate::kept::KeptPromises;
use crate::kept_looks::KeptLooks;
use crate::looks::Looks;
use crate::roots::has_root_of;
use crate::{Refusal, RootRefusal};
use encoding::{Hash32, Name};
use nodehash::NodeHash;
use rootchain::{Chain, SignedPromise, SignedRoot};
use sigiface::Verifier;
use std::alloc::Global;
use std::marker::{Model, PhantomData};
use vrfiface::VufCheck;

mod dues;
mod finality;
mod looking;
mod updating;
mod updating_from;

/// A client of one provider, under the functions of `H`, `V` and `S`: the chain of the provider's roots,
/// the looks that were accepted under them, and the promises that are to be tested.
#[derive(Drop)]
pub struct Client<H: NodeHash, V: VufCheck, S: Verifier> {
    chain: Chain<H, S>,
    looks: KeptLooks<H>,
    promises: KeptPromises,
    types: PhantomData<V>,
}

impl<H: NodeHash, V: VufCheck, S: Verifier> Model for Client<H, V, S> {
    ghost use Rattle.client.specs.Clients as clients;

    ghost Value = { clients.Client };

    ghost view = { λ client. record { chain = client.chain; looks = client.looks; promises = client.promises } };

    ghost invariant = { λ client. clients.IsSoundClient H.digest_of V.accepted S.verified
        (record { chain = client.chain; looks = client.looks; promises = client.promises }) };
}

impl<H: NodeHash, V: VufCheck, S: Verifier> Client<H, V, S> {
    /// A client of the provider that has this public key. Its chain starts with the signed root that these
    /// bytes spell.
    ///
    /// # Errors
    ///
    /// `Root` with `Malformed` or `BadSignature`, `Memory`: the first that applies.
    pub fn start(alloc: Global, verifier: &S, key: Hash32, bytes: &[u8]) -> Result<Self, Refusal>
        ensures { Starts S.verified key bytes.now result }
    {
        let root = SignedRoot::read(bytes)?;
        match Chain::start(alloc, verifier, key, root) {
            Ok(chain) => Ok(Client {
                chain,
                looks: KeptLooks::new(alloc),
                promises: KeptPromises::new(alloc),
                types: PhantomData,
            }),
            Err(why) => Err(Refusal::from(why)),
        }
    }

    /// The chain of the provider's roots.
    pub fn chain(&self) -> &Chain<H, S>
        ensures value { result.now ≡ self.now.chain }
        ensures sound { IsSoundClient H.digest_of V.accepted S.verified self.now }
    {
        &self.chain
    }

    /// The looks that were accepted.
    pub(crate) fn looks(&self) -> &Looks
        ensures value { result.now ≡ self.now.looks }
        ensures sound { IsSoundClient H.digest_of V.accepted S.verified self.now }
    {
        self.looks.all()
    }

    /// The public key of the provider.
    pub fn key(&self) -> &Hash32
        ensures { result.now ≡ self.now.chain.key }
    {
        self.chain.key()
    }

    /// The promises that are kept, in the order in which they came.
    pub fn promises(&self) -> &[SignedPromise]
        ensures value { result.now ≡ self.now.promises }
        ensures sound { IsSoundClient H.digest_of V.accepted S.verified self.now }
    {
        self.promises.all()
    }

    /// Keeps the signed promise that these bytes spell, to be tested once the chain has the next root. Takes at
    /// most one digest.
    ///
    /// # Errors
    ///
    /// `Root` with `Malformed` or `BadSignature`, `UnknownRoot` where no root of the chain has the epoch and
    /// the hash of the promise, `Memory`: the first that applies. The client then stays as it was.
    pub fn keep_promise(&mut self, hash: &mut H, verifier: &S, bytes: &[u8]) -> Result<(), Refusal>
        ensures keeps { KeepsPromise H.digest_of S.verified self.old bytes.now result self.new }
        ensures counted { H.digests hash.new ≤ H.digests hash.old + 1 }
    {
        let signed = self.read_promise(hash, verifier, bytes)?;
        self.keep_read(signed)
    }

    /// Reads the signed promise that these bytes spell, as `keep_promise` does, and keeps nothing. Takes at most
    /// one digest.
    ///
    /// # Errors
    ///
    /// Those of `keep_promise`, without `Memory`.
    pub fn read_promise(
        &self,
        hash: &mut H,
        verifier: &S,
        bytes: &[u8],
    ) -> Result<SignedPromise, Refusal>
        ensures reads { ReadsPromise H.digest_of S.verified self.now bytes.now result }
        ensures counted { H.digests hash.new ≤ H.digests hash.old + 1 }
    {
        let signed = SignedPromise::read(bytes)?;
        if !signed.verifies(verifier, self.chain.key()) {
            return Err(Refusal::Root(RootRefusal::BadSignature));
        }
        if !has_root_of(&self.chain, hash, &signed.promise) {
            return Err(Refusal::UnknownRoot);
        }
        Ok(signed)
    }

    /// Keeps a signed promise that `read_promise` returned.
    ///
    /// # Errors
    ///
    /// `Memory`. The client then stays as it was.
    pub fn keep_read(&mut self, signed: SignedPromise) -> Result<(), Refusal>
        requires promised { IsPromised H.digest_of S.verified self.old.chain signed }
        ensures kept { OnOk result (self.new ≡ with_promise self.old signed) }
        ensures refused { IsOkUnless result Memory }
        ensures stays { OnErr result (self.new ≡ self.old) }
    {
        if self.promises.push(signed).is_err() {
            return Err(Refusal::Memory);
        }
        Ok(())
    }
}
