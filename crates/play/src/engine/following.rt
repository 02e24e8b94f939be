// After a line that made new epochs, all take the new roots, and then each monitor watches them.

ghost use Rattle.std.specs.Prelude.{◌≡◌, List, OnOk};
ghost use Rattle.std.specs.List.{AllByRecursion, AllZip};
ghost use Rattle.rootchain.specs.Chains.{Verifies};
ghost use Rattle.rootchain.specs.RootLists.{SpellsRoots};
ghost use Rattle.rootchain.specs.declared.signed_root.SignedRoot.{SignedRoot};
ghost use Rattle.book.specs.Books.{pages};
ghost use Rattle.book.specs.Shows.{index_of};
ghost use Rattle.epochs.specs.DirectoryStates.{provider, HasKeysOf};
ghost use Rattle.play.specs.Parties.{AreAt, AreBehind, HaveDone};
ghost use Rattle.play.specs.Played.{Stand};
ghost use Rattle.play.specs.Taking.{AllTake, AuditorTakes, MonitorTakes};
ghost use Rattle.play.specs.Wanting.{IsOffered, MayTake};
ghost use Rattle.play.specs.Watchers.{all_through};

use super::Engine;
use super::asking::body_of;
use super::wanting::{client_memory, observe};
use crate::Checks;
use crate::ask::Ask;
use auditor::Auditor;
use encoding::Hash32;
use monitor::Monitor;
use nodehash::NodeHash;
use rand_core::Rng;
use rootchain::{MAX_ROOTS, RootList};
use sigiface::Signer;
use std::alloc::AllocError;
use vrfiface::Vuf;

impl<H, V, S, R> Engine<H, V, S, R>
where
    H: NodeHash + Drop,
    V: Vuf + Drop,
    S: Signer + Drop,
    R: Rng + Drop,
{
    /// Lets the client, the auditor and the monitors take the roots that are new, and then each monitor
    /// watch their epochs.
    #[inline(never)]
    pub(super) fn follow(&mut self, text: &mut Vec<u8>) -> Result<(), AllocError>
        requires behind { (stand : Stand) × AreBehind H.digest_of V.value_of S.signature_of R.stream V.accepted S.verified self.old stand }
        ensures done { (stand : Stand) → AreBehind H.digest_of V.value_of S.signature_of R.stream V.accepted S.verified self.old stand → OnOk result (let now = all_through (index_of (provider H.digest_of V.value_of S.signature_of (self.old).hub.service.directory)) (pages stand.book) stand.watchers in HaveDone H.digest_of V.value_of S.signature_of R.stream V.accepted S.verified text.old.items now.0 (record stand { watchers = now.1 }) text.new.items self.new) }
        ensures keys { OnOk result (HasKeysOf (self.old).hub.service.directory (self.new).hub.service.directory) }
        ensures looks { OnOk result ((self.new).client.looks ≡ (self.old).client.looks) }
    {
        self.take_roots()?;
        for place in 0..self.monitors.len() {
            self.step_through(place, text)?;
        }
        Ok(())
    }

    /// Lets all take the roots that are new.
    fn take_roots(&mut self) -> Result<(), AllocError>
        requires behind { (stand : Stand) × AreBehind H.digest_of V.value_of S.signature_of R.stream V.accepted S.verified self.old stand }
        ensures at { (stand : Stand) → AreBehind H.digest_of V.value_of S.signature_of R.stream V.accepted S.verified self.old stand → OnOk result (AreAt H.digest_of V.value_of S.signature_of R.stream V.accepted S.verified self.new stand) }
        ensures keys { OnOk result (HasKeysOf (self.old).hub.service.directory (self.new).hub.service.directory) }
        ensures looks { OnOk result ((self.new).client.looks ≡ (self.old).client.looks) }
    {
        // Every loop of Rattle has an end: this one's is past any chain.
        for _ in 0..u64::MAX {
            if self.client.chain().head().body.epoch == self.latest() {
                return Ok(());
            }
            self.take_list()?;
        }
        Err(AllocError)
    }

    /// Lets all take the next roots, as many as a list has.
    fn take_list(&mut self) -> Result<(), AllocError>
        requires behind { (stand : Stand) × AreBehind H.digest_of V.value_of S.signature_of R.stream V.accepted S.verified self.old stand }
        ensures behind { (stand : Stand) → AreBehind H.digest_of V.value_of S.signature_of R.stream V.accepted S.verified self.old stand → OnOk result (AreBehind H.digest_of V.value_of S.signature_of R.stream V.accepted S.verified self.new stand) }
        ensures keys { OnOk result (HasKeysOf (self.old).hub.service.directory (self.new).hub.service.directory) }
        ensures looks { OnOk result ((self.new).client.looks ≡ (self.old).client.looks) }
    {
        let Some(from) = self.client.chain().head().body.epoch.checked_add(1) else {
            return Ok(());
        };
        let count = MAX_ROOTS as u16;
        let reply = self.ask(&Ask::History { from, count })?;
        self.hand_list(body_of(&reply))
    }

    /// Hands a list of roots to all.
    fn hand_list(&mut self, list: &[u8]) -> Result<(), AllocError>
        requires offered { IsOffered H.digest_of S.verified list.now self.old }
        ensures { (roots : List SignedRoot) → SpellsRoots list.now roots → OnOk result (AllTake H.digest_of S.verified roots self.old self.new) }
    {
        observe_all(&mut self.auditor, &mut self.checks, &self.key, list)?;
        update_all(&mut self.monitors, &mut self.checks, list)?;
        let checks = &mut self.checks;
        match self.client.update(&mut checks.hash, &checks.verifier, list) {
            Ok(()) => Ok(()),
            Err(why) => Err(client_memory(why)),
        }
    }
}

/// Lets an auditor observe each root of a list.
fn observe_all<H: NodeHash + Drop, V: Vuf + Drop, S: Signer + Drop>(
    auditor: &mut Auditor<H, S>,
    checks: &mut Checks<H, V, S>,
    key: &Hash32,
    list: &[u8],
) -> Result<(), AllocError>
    requires offered { (roots : List SignedRoot) × SpellsRoots list.now roots × AllByRecursion (Verifies S.verified key.now) roots }
    ensures { (roots : List SignedRoot) → SpellsRoots list.now roots → OnOk result (AuditorTakes H.digest_of S.verified roots key.now auditor.old auditor.new) }
{
    let Ok(mut roots) = RootList::read(list) else {
        unreachable!()
    };
    for _ in 0..roots.len() {
        let Some(root) = roots.next() else {
            unreachable!()
        };
        observe(auditor, checks, key, root.write().bytes())?;
    }
    Ok(())
}

/// Lets each monitor update its chain by a list of roots.
fn update_all<H: NodeHash + Drop, V: Vuf + Drop, S: Signer + Drop>(
    monitors: &mut [Monitor<H, V, S>],
    checks: &mut Checks<H, V, S>,
    list: &[u8],
) -> Result<(), AllocError>
    requires offered { AllByRecursion (λ monitor. MayTake H.digest_of S.verified list.now monitor.client.chain) monitors.old }
    ensures { (roots : List SignedRoot) → SpellsRoots list.now roots → OnOk result (AllZip (MonitorTakes H.digest_of S.verified roots) monitors.old monitors.new) }
{
    for monitor in monitors.iter_mut() {
        update(monitor, checks, list)?;
    }
    Ok(())
}

/// Lets a monitor update its chain by a list of roots.
fn update<H: NodeHash + Drop, V: Vuf + Drop, S: Signer + Drop>(
    monitor: &mut Monitor<H, V, S>,
    checks: &mut Checks<H, V, S>,
    list: &[u8],
) -> Result<(), AllocError>
    requires offered { MayTake H.digest_of S.verified list.now monitor.old.client.chain }
    ensures { (roots : List SignedRoot) → SpellsRoots list.now roots → OnOk result (MonitorTakes H.digest_of S.verified roots monitor.old monitor.new) }
{
    match monitor.update(&mut checks.hash, &checks.verifier, list) {
        Ok(()) => Ok(()),
        Err(why) => Err(client_memory(why)),
    }
}
