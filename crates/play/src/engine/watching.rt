// A monitor asks for each new epoch of its chain in order, steps through it by the reply, and what it says is
// told. It stops at an epoch whose reply its client refuses, and stays there.

ghost use Rattle.std.specs.Prelude.{◌≡◌, ◌<◌, ◌++◌, ◌∷◌, [], IfOk, OnOk, Some, length, option_map, slice_get, slice_set};
ghost use Rattle.encoding.specs.Limits.{IsName};
ghost use Rattle.rootchain.specs.declared.signed_root.SignedRoot.{SignedRoot};
ghost use Rattle.commands.specs.Operations.{Lookup};
ghost use Rattle.wire.specs.Requests.{Query};
ghost use Rattle.book.specs.Books.{pages};
ghost use Rattle.book.specs.Shows.{index_of};
ghost use Rattle.book.specs.Sound.{IsSound};
ghost use Rattle.epochs.specs.DirectoryStates.{provider, HasKeysOf};
ghost use Rattle.monitor.specs.Monitors.{IsNext};
ghost use Rattle.play.specs.Parties.{AreAt, HasAsked, HaveDone, IsReady};
ghost use Rattle.play.specs.Played as played;
ghost use Rattle.play.specs.Played.{Stand, watcher_of};
ghost use Rattle.play.specs.Steps.{HasStepped, IsNextOf, Watches};
ghost use Rattle.play.specs.Watchers.{ahead, through, Watcher};

use super::Engine;
use super::asking::body_of;
use super::wanting::start;
use crate::Checks;
use crate::ask::Ask;
use crate::telling::{tell_refusal, tell_step};
use encoding::{BoundKey, Name};
use monitor::Monitor;
use nodehash::NodeHash;
use rand_core::Rng;
use sigiface::Signer;
use std::alloc::AllocError;
use vrfiface::Vuf;

impl<H, V, S, R> Engine<H, V, S, R>
where
    H: NodeHash + Drop,
    V: Vuf + Drop,
    S: Signer + Drop,
    R: Rng + Drop,
{
    /// Adds a monitor of a name, whose client starts at the head, and lets it watch the head's epoch.
    #[inline(never)]
    pub(super) fn watch(
        &mut self,
        name: &Name,
        key: Option<&BoundKey>,
        text: &mut Vec<u8>,
    ) -> Result<(), AllocError>
        requires at { (stand : Stand) × AreAt H.digest_of V.value_of S.signature_of R.stream V.accepted S.verified self.old stand }
        ensures keys { OnOk result (HasKeysOf (self.old).hub.service.directory (self.new).hub.service.directory) }
        ensures done { (stand : Stand) → AreAt H.digest_of V.value_of S.signature_of R.stream V.accepted S.verified self.old stand → OnOk result (let now = played.watch (index_of (provider H.digest_of V.value_of S.signature_of (self.old).hub.service.directory)) stand name.now (option_map (λ k. k.now) key.entry) in HaveDone H.digest_of V.value_of S.signature_of R.stream V.accepted S.verified text.old.items now.0 now.1 text.new.items self.new) }
    {
        let place = self.monitors.len();
        self.add_monitor(name, key)?;
        self.step_through(place, text)
    }

    /// Adds a monitor of a name, whose client starts at the head.
    fn add_monitor(&mut self, name: &Name, key: Option<&BoundKey>) -> Result<(), AllocError>
        requires at { (stand : Stand) × AreAt H.digest_of V.value_of S.signature_of R.stream V.accepted S.verified self.old stand }
        ensures keys { OnOk result (HasKeysOf (self.old).hub.service.directory (self.new).hub.service.directory) }
        ensures added { (stand : Stand) → AreAt H.digest_of V.value_of S.signature_of R.stream V.accepted S.verified self.old stand → OnOk result (AreAt H.digest_of V.value_of S.signature_of R.stream V.accepted S.verified self.new (record stand { watchers = stand.watchers ++ watcher_of stand.book name.now (option_map (λ k. k.now) key.entry) ∷ [] })) }
        ensures sound { (stand : Stand) → AreAt H.digest_of V.value_of S.signature_of R.stream V.accepted S.verified self.old stand → OnOk result (IsSound (index_of (provider H.digest_of V.value_of S.signature_of (self.old).hub.service.directory)) stand.book) }
    {
        let reply = self.ask(&Ask::Head)?;
        let client = start(self.alloc, &self.checks.verifier, self.key, body_of(&reply))?;
        let key = match key {
            Some(key) => Some(key.copied()),
            None => None,
        };
        self.monitors.push(Monitor::from_start(self.alloc, client, name.copied(), key))?;
        Ok(())
    }

    /// Lets a monitor watch each epoch of its chain that it has not watched, up to one whose proof its client
    /// refuses, and appends the line of each.
    pub(super) fn step_through(
        &mut self,
        place: usize,
        text: &mut Vec<u8>,
    ) -> Result<(), AllocError>
        requires at { (stand : Stand) × AreAt H.digest_of V.value_of S.signature_of R.stream V.accepted S.verified self.old stand }
        requires there { place < length (self.old).monitors }
        ensures keys { OnOk result (HasKeysOf (self.old).hub.service.directory (self.new).hub.service.directory) }
        ensures looks { OnOk result ((self.new).client.looks ≡ (self.old).client.looks) }
        ensures done { (stand : Stand) (watcher : Watcher) → AreAt H.digest_of V.value_of S.signature_of R.stream V.accepted S.verified self.old stand → slice_get stand.watchers place ≡ Some watcher → OnOk result (let now = through (index_of (provider H.digest_of V.value_of S.signature_of (self.old).hub.service.directory)) watcher (ahead watcher (pages stand.book)) in HaveDone H.digest_of V.value_of S.signature_of R.stream V.accepted S.verified text.old.items now.0 (record stand { watchers = slice_set stand.watchers place now.1 }) text.new.items self.new) }
    {
        // Every loop of Rattle has an end: this one's is past any chain.
        for _ in 0..u64::MAX {
            let Some(epoch) = self.monitors[place].next_epoch() else {
                return Ok(());
            };
            if !self.step(place, epoch, text)? {
                return Ok(());
            }
        }
        Err(AllocError)
    }

    /// Lets a monitor watch its next epoch, and appends the line of it. Returns whether its client accepted
    /// the proof.
    fn step(&mut self, place: usize, epoch: u64, text: &mut Vec<u8>) -> Result<bool, AllocError>
        requires at { (stand : Stand) × AreAt H.digest_of V.value_of S.signature_of R.stream V.accepted S.verified self.old stand }
        requires next { IsNextOf (self.old).monitors place epoch }
        ensures { (stand : Stand) (watcher : Watcher) → AreAt H.digest_of V.value_of S.signature_of R.stream V.accepted S.verified self.old stand → slice_get stand.watchers place ≡ Some watcher → IfOk result (λ went. HasStepped H.digest_of V.value_of S.signature_of R.stream V.accepted S.verified self.old stand place watcher text.old.items went text.new.items self.new) }
    {
        let name = self.monitors[place].name().copied();
        let reply = self.look_up(&name, epoch)?;
        watch_epoch(
            &mut self.monitors[place],
            &mut self.checks,
            epoch,
            body_of(&reply),
            text,
        )
    }

    /// Looks a name up through session 0, and returns the frame of the reply.
    fn look_up(&mut self, name: &Name, epoch: u64) -> Result<Vec<u8>, AllocError>
        requires { IsReady H.digest_of V.value_of S.signature_of R.stream V.accepted S.verified self.old }
        ensures asked { IfOk result (λ reply. HasAsked H.digest_of V.value_of S.signature_of R.stream V.accepted S.verified self.old (Query (Lookup name.now epoch)) reply.items self.new) }
        ensures named { IsName name.now }
    {
        let mut asked = Vec::new(self.alloc);
        asked.extend_from_slice(name.bytes())?;
        self.ask(&Ask::Lookup { name: asked, epoch })
    }
}

/// Lets a monitor watch its next epoch by a reply, and appends the line of it. Returns whether its client
/// accepted the proof.
fn watch_epoch<H, V, S>(
    monitor: &mut Monitor<H, V, S>,
    checks: &mut Checks<H, V, S>,
    epoch: u64,
    reply: &[u8],
    text: &mut Vec<u8>,
) -> Result<bool, AllocError>
where
    H: NodeHash + Drop,
    V: Vuf + Drop,
    S: Signer + Drop,
    requires { (root : SignedRoot) × IsNext monitor.old root }
    ensures { IfOk result (λ went. Watches H.digest_of V.accepted (monitor.old) epoch reply.now text.old.items went text.new.items monitor.new) }
{
    match monitor.step(&mut checks.hash, &checks.vuf, reply) {
        Ok(step) => {
            tell_step(text, monitor.name().bytes(), epoch, step)?;
            Ok(true)
        }
        Err(monitor::Refusal::Client(why)) => {
            tell_refusal(text, why)?;
            Ok(false)
        }
        Err(monitor::Refusal::OtherPromise) => unreachable!(),
    }
}
