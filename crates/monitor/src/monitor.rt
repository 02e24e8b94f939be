//! A monitor keeps the changes that its owner expects, ascending by the epochs of their promises, and the
//! epoch that it watched last. A step looks the name up at the next epoch of the chain, and compares what
//! is stated there with the last change that was promised before.
ghost use Rattle.std.specs.Prelude.{◌≡◌, ◌↔◌, ◌+◌, ◌<◌, ◌≤◌, All, AllPairs, IfErr, IsTrue, None, OnOk, Some, length, option_map};
ghost use Rattle.std.specs.List.Sorted.{IsPartitionPoint};
ghost use Rattle.rootchain.specs.RootFeeds.{told_from};
ghost use Rattle.rootchain.specs.TakingBytes.{announced};
ghost use Rattle.rootchain.specs.declared.signed_promise.SignedPromise.{SignedPromise};
ghost use Rattle.prefixtree.specs.declared.path.TheConstants.{MAX_SIBLINGS};
ghost use Rattle.proofs.specs.Views.{key_stated};
ghost use Rattle.proofs.specs.Watches.{expected};
ghost use Rattle.client.specs.Promising.{IsGiven};
ghost use Rattle.client.specs.Updating.{RefusalHolds, Updates};
ghost use Rattle.client.specs.UpdatingFrom.{UpdatesFrom};
ghost use Rattle.monitor.specs.Expecting.{Expects, ExpectsAbove, IsExpected, MayExpect, ReadsChange};
ghost use Rattle.monitor.specs.Monitors.{new_monitor, IsWatching};
ghost use Rattle.monitor.specs.Stepping.{IsNextEpoch, StepTells, Steps};

use crate::{Refusal, Step};
use client::Client;
use encoding::{BoundKey, KeyData, Name, Policy};
use nodehash::NodeHash;
use proofs::Statement;
use rootchain::{Promise, RootFeed, SignedPromise};
use sigiface::Verifier;
use std::alloc::Global;
use std::marker::Model;
use vrfiface::VufCheck;

/// A change of the key that is expected above the epoch of its promise.
#[derive(Drop)]
struct Change {
    epoch: u64,
    key: BoundKey,
}

impl Model for Change {
    ghost use Rattle.std.specs.Prelude.{ℕ};
    ghost use Rattle.encoding.specs.declared.bound_key.BoundKey.{BoundKey};

    ghost Value = { ℕ × BoundKey };

    ghost view = { λ change. (change.epoch, change.key) };
}

/// A monitor of one name, under the functions of `H`, `V` and `S`: its client, the name, what its owner
/// expects, and how far it watched.
#[derive(Drop)]
pub struct Monitor<H: NodeHash, V: VufCheck, S: Verifier> {
    client: Client<H, V, S>,
    name: Name,
    start: Option<BoundKey>,
    changes: Vec<Change>,
    /// The epoch that was watched last; 0 if none was, since epochs begin at 1.
    watched: u64,
}

impl<H: NodeHash, V: VufCheck, S: Verifier> Model for Monitor<H, V, S> {
    ghost use Rattle.monitor.specs.Monitors as monitors;

    ghost Value = { monitors.Monitor };

    ghost use Rattle.monitor.specs.Views.{monitor_of};

    ghost view = { monitor_of };

    ghost invariant = { λ monitor. monitors.IsWatching (monitor_of monitor) };
}

impl<H: NodeHash, V: VufCheck, S: Verifier> Monitor<H, V, S> {
    /// A monitor of this name, with a client of its own. From the first epoch of the client's chain on it
    /// expects this key without a policy, or no key.
    pub fn new(alloc: Global, client: Client<H, V, S>, name: Name, start: Option<KeyData>) -> Self
        ensures { result ≡ new_monitor client name (option_map (λ value. record { value = value; policy = None }) start) }
    {
        let start = match start {
            Some(value) => Some(BoundKey {
                value,
                policy: None,
            }),
            None => None,
        };
        Monitor::from_start(alloc, client, name, start)
    }

    /// A monitor of this name, which from the first epoch of the client's chain on expects this key with
    /// this policy.
    pub fn new2(
        alloc: Global,
        client: Client<H, V, S>,
        name: Name,
        key: KeyData,
        policy: Policy,
    ) -> Self
        ensures { result ≡ new_monitor client name (Some (record { value = key; policy = Some policy })) }
    {
        let start = BoundKey {
            value: key,
            policy: Some(policy),
        };
        Monitor::from_start(alloc, client, name, Some(start))
    }

    /// A monitor of this name, with a client of its own. From the first epoch of the client's chain on it
    /// expects this key with its policy or with none, or no key.
    pub fn from_start(
        alloc: Global,
        client: Client<H, V, S>,
        name: Name,
        start: Option<BoundKey>,
    ) -> Self
        ensures { result ≡ new_monitor client name start }
    {
        Monitor {
            client,
            name,
            start,
            changes: Vec::new(alloc),
            watched: 0,
        }
    }

    /// The client of the monitor.
    pub fn client(&self) -> &Client<H, V, S>
        ensures value { result.now ≡ self.now.client }
        ensures watching { IsWatching self.now }
    {
        &self.client
    }

    /// The name that is watched.
    pub fn name(&self) -> &Name
        ensures { result.now ≡ self.now.name }
    {
        &self.name
    }

    /// The epoch that `step` will take, if one of the chain is not yet watched.
    pub fn next_epoch(&self) -> Option<u64>
        ensures { IsNextEpoch self.now result }
    {
        let root = self.client.chain().after(self.watched)?;
        Some(root.body.epoch)
    }

    /// What is expected of an epoch: the key of the last change that was promised before it, else what was
    /// expected at the start.
    pub fn expected(&self, epoch: u64) -> Option<&BoundKey>
        ensures value { option_map (λ key. key.now) result ≡ expected self.now.watch epoch }
        ensures greatest { IsExpected self.now.watch epoch (expected self.now.watch epoch) }
    {
        match promised_before(&self.changes, epoch).checked_sub(1) {
            Some(last) => Some(&self.changes[last].key),
            None => self.start.as_ref(),
        }
    }

    /// Updates the chain of the client. Takes as many digests as `Client::update`.
    ///
    /// # Errors
    ///
    /// Those of `Client::update`. The monitor then stays as it was.
    pub fn update(
        &mut self,
        hash: &mut H,
        verifier: &S,
        bytes: &[u8],
    ) -> Result<(), client::Refusal>
        ensures updates { Updates H.digest_of S.verified self.old.client bytes.now result self.new.client }
        ensures others { self.new ≡ record self.old { client = self.new.client } }
        ensures evidence { IfErr result (RefusalHolds H.digest_of S.verified self.old.client.chain.key) }
        ensures counted { H.digests hash.new ≤ H.digests hash.old + announced bytes.now }
    {
        self.client.update(hash, verifier, bytes)
    }

    /// Takes each root that the next piece of a list makes whole, as `Client::update_from`, with as many digests.
    ///
    /// # Errors
    ///
    /// Those of `Client::update_from`.
    #[inline(always)]
    pub fn update_from(
        &mut self,
        hash: &mut H,
        verifier: &S,
        feed: &mut RootFeed,
        piece: &[u8],
    ) -> Result<(), client::Refusal>
        ensures updates { UpdatesFrom H.digest_of S.verified self.old.client feed.old piece.now result self.new.client feed.new }
        ensures others { self.new ≡ record self.old { client = self.new.client } }
        ensures evidence { IfErr result (RefusalHolds H.digest_of S.verified self.old.client.chain.key) }
        ensures counted { H.digests hash.new ≤ H.digests hash.old + length (told_from feed.old piece.now).0 }
    {
        self.client.update_from(hash, verifier, feed, piece)
    }

    /// Expects as `expect` does, a key without a policy.
    ///
    /// # Errors
    ///
    /// Those of `expect`.
    pub fn expect_change(
        &mut self,
        hash: &mut H,
        verifier: &S,
        key: &KeyData,
        promise_bytes: &[u8],
    ) -> Result<(), Refusal>
        ensures expects { Expects H.digest_of S.verified self.old (record { value = key.now; policy = None }) promise_bytes.now result self.new }
        ensures above { OnOk result ((signed : SignedPromise) × IsGiven H.digest_of S.verified self.old.client promise_bytes.now signed
            × ExpectsAbove self.old.watch signed.promise.epoch (record { value = key.now; policy = None }) self.new.watch) }
        ensures counted { H.digests hash.new ≤ H.digests hash.old + 1 }
    {
        let key = BoundKey {
            value: key.copied(),
            policy: None,
        };
        self.expect(hash, verifier, &key, promise_bytes)
    }

    /// Expects as `expect` does, a key with this policy.
    ///
    /// # Errors
    ///
    /// Those of `expect`.
    pub fn expect_change2(
        &mut self,
        hash: &mut H,
        verifier: &S,
        key: &KeyData,
        policy: Policy,
        promise_bytes: &[u8],
    ) -> Result<(), Refusal>
        ensures expects { Expects H.digest_of S.verified self.old (record { value = key.now; policy = Some policy }) promise_bytes.now result self.new }
        ensures above { OnOk result ((signed : SignedPromise) × IsGiven H.digest_of S.verified self.old.client promise_bytes.now signed
            × ExpectsAbove self.old.watch signed.promise.epoch (record { value = key.now; policy = Some policy }) self.new.watch) }
        ensures counted { H.digests hash.new ≤ H.digests hash.old + 1 }
    {
        let key = BoundKey {
            value: key.copied(),
            policy: Some(policy),
        };
        self.expect(hash, verifier, &key, promise_bytes)
    }

    /// Expects this key, with its policy or with none, above the epoch of the signed promise that these bytes
    /// spell. The client keeps the promise. Takes at most one digest.
    ///
    /// # Errors
    ///
    /// `Client` with the refusal of `Client::keep_promise` except `Memory`; `OtherPromise`; `Client` with
    /// `Memory`: the first that applies. The monitor then stays as it was.
    pub fn expect(
        &mut self,
        hash: &mut H,
        verifier: &S,
        key: &BoundKey,
        promise_bytes: &[u8],
    ) -> Result<(), Refusal>
        ensures expects { Expects H.digest_of S.verified self.old key.now promise_bytes.now result self.new }
        ensures above { OnOk result ((signed : SignedPromise) × IsGiven H.digest_of S.verified self.old.client promise_bytes.now signed
            × ExpectsAbove self.old.watch signed.promise.epoch key.now self.new.watch) }
        ensures counted { H.digests hash.new ≤ H.digests hash.old + 1 }
    {
        let signed = self.read_change(hash, verifier, key, promise_bytes)?;
        let change = Change {
            epoch: signed.promise.epoch,
            key: key.copied(),
        };
        if self.changes.reserve(1).is_err() {
            return Err(Refusal::Client(client::Refusal::Memory));
        }
        if self.client.keep_read(signed).is_err() {
            return Err(Refusal::Client(client::Refusal::Memory));
        }
        self.changes.push(change).unwrap();
        Ok(())
    }

    /// Watches the next epoch by this reply to a look-up of the name at that epoch. The client keeps the
    /// look, and the epoch counts as watched, even if the step is an alarm. Takes at most 259 digests.
    ///
    /// # Errors
    ///
    /// `Client` with `UnknownRoot` if each epoch of the chain was watched, else with the refusal of the reply,
    /// or with `Memory`. The monitor then stays as it was.
    pub fn step<'a>(&mut self, hash: &mut H, vuf: &V, bytes: &'a [u8]) -> Result<Step<'a>, Refusal>
        ensures steps { Steps H.digest_of V.accepted self.old bytes.entry.now result self.new }
        ensures counted { H.digests hash.new ≤ H.digests hash.old + (MAX_SIBLINGS + 3) }
    {
        match self
            .client
            .look_next(hash, vuf, &self.name, self.watched, bytes)
        {
            Ok((epoch, found)) => {
                self.watched = epoch;
                Ok(self.tell(epoch, found))
            }
            Err(refusal) => Err(Refusal::Client(refusal)),
        }
    }

    /// Reads the signed promise of a change that may be expected.
    fn read_change(
        &self,
        hash: &mut H,
        verifier: &S,
        key: &BoundKey,
        bytes: &[u8],
    ) -> Result<SignedPromise, Refusal>
        ensures reads { ReadsChange H.digest_of S.verified self.now key.now bytes.now result }
        ensures counted { H.digests hash.new ≤ H.digests hash.old + 1 }
    {
        match self.client.read_promise(hash, verifier, bytes) {
            Ok(signed) => {
                if self.may_expect(key, &signed.promise) {
                    Ok(signed)
                } else {
                    Err(Refusal::OtherPromise)
                }
            }
            Err(why) => Err(Refusal::Client(why)),
        }
    }

    /// The step for the statement at an epoch.
    fn tell<'a>(&self, epoch: u64, found: Statement<'a>) -> Step<'a>
        ensures { StepTells self.now.watch epoch (key_stated found.entry) result }
    {
        if is_expected(found, self.expected(epoch)) {
            Step::Kept
        } else {
            Step::Alarm { epoch, found }
        }
    }

    /// Whether this key may be expected above the epoch of the promise.
    fn may_expect(&self, key: &BoundKey, promise: &Promise) -> bool
        ensures { IsTrue result ↔ MayExpect self.now key.now promise.now }
    {
        promise.name == self.name
            && promise.key == *key
            && are_before(&self.changes, promise.epoch)
            && self.watched <= promise.epoch
    }
}

/// How many of the changes were promised before this epoch.
fn promised_before(changes: &[Change], epoch: u64) -> usize
    requires { AllPairs (λ earlier later. earlier.0 < later.0) changes.now }
    ensures within { result ≤ length changes.now }
    ensures point { IsPartitionPoint (λ change. change.0 < epoch) (λ change. epoch ≤ change.0) changes.now result }
{
    changes.partition_point(|change| change.epoch < epoch)
}

/// Whether all of the changes were promised before this epoch.
fn are_before(changes: &[Change], epoch: u64) -> bool
    requires { AllPairs (λ earlier later. earlier.0 < later.0) changes.now }
    ensures { IsTrue result ↔ All (λ change. change.0 < epoch) changes.now }
{
    promised_before(changes, epoch) == changes.len()
}

/// Whether the statement is the expected key with its policy or with none, or absence if no key is expected.
fn is_expected(found: Statement<'_>, expected: Option<&BoundKey>) -> bool
    ensures { IsTrue result ↔ (key_stated found.entry ≡ option_map (λ key. key.now) expected.entry) }
{
    match (found, expected) {
        (Statement::Present(stated, policy), Some(key)) => {
            stated == key.bytes() && policy == key.policy
        }
        (Statement::Absent, None) => true,
        _ => false,
    }
}
