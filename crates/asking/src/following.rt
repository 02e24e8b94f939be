// The client and its monitors take the roots that are new.
ghost use Rattle.std.specs.Prelude.{◌≡◌, ◌≢◌, Err, IfErr, IfOk, OnOk};
ghost use Rattle.std.specs.List.{AllZip};
ghost use Rattle.asking.specs.Askers.{asker_client};
ghost use Rattle.asking.specs.Catching.{Advances, AdvancesSome};
ghost use Rattle.asking.specs.Exchanges.{ExchangesFrames};
ghost use Rattle.asking.specs.Following.{AllUpdate, AnyRefuses, IsBelow, MonitorUpdates, OneRefuses, RefusesList, StopsList, TakesList, TellsRootRefusal};
ghost use Rattle.asking.specs.Scenes.{scene, HaltsAfter, HaltsIn, StaysWhole};
ghost use Rattle.asking.specs.Reports.{report_of};
ghost use Rattle.asking.specs.declared.ask_fault.AskFault.TheVariants.{NoReply, Stopped};

use crate::answering::{body_of, tell_other};
use crate::checking::tell_client;
use crate::exchange::frame_in;
use crate::{AskFault, Asker, Checks, Said};
use monitor::Monitor;
use nodehash::NodeHash;
use play::Ask;
use rootchain::MAX_ROOTS;
use sigiface::Verifier;
use std::alloc::Global;
use std::io::{Read, Write};
use vrfiface::VufCheck;

/// The most lists of roots that a run takes for one reply.
pub const MAX_LISTS: u16 = 1024;

/// The bytes of a list of no root.
const EMPTY_LIST: [u8; 2] = [0, 0];

impl<H, V, S> Asker<H, V, S>
where
    H: NodeHash + Drop,
    V: VufCheck + Drop,
    S: Verifier + Drop,
{
    /// Lets the client and the monitors take the next list of roots, if the head is below an epoch. If it still is, the
    /// monitors watch the epochs that are new. Returns whether that was done: then one more list is needed.
    ///
    /// # Errors
    ///
    /// `NoReply`; `Stopped` if what comes is no answer, or a root is refused, or none is above the head;
    /// `OutOfMemory`.
    pub fn advance<T: Read + Write>(
        &mut self,
        stream: &mut T,
        epoch: u64,
        said: &mut Said,
    ) -> Result<bool, AskFault>
        ensures advances { IfOk result (λ goes. Advances H.digest_of V.accepted S.verified (ExchangesFrames T.contents T.remaining) epoch (scene self.old said.old stream.old) goes (scene self.new said.new stream.new)) }
        ensures stays { StaysWhole self.old self.new }
        ensures stops { result ≡ Err Stopped → IsBelow epoch (asker_client self.old) × StopsList H.digest_of S.verified (ExchangesFrames T.contents T.remaining) (scene self.old said.old stream.old) (scene self.new said.new stream.new) }
        ensures halts { IfErr result (λ fault. fault ≢ Stopped → IsBelow epoch (asker_client self.old)
            × HaltsAfter (AdvancesSome H.digest_of V.accepted S.verified (ExchangesFrames T.contents T.remaining) epoch (scene self.old said.old stream.old)) fault self.new said.new) }
    {
        if epoch <= self.head() {
            return Ok(false);
        }
        if !self.take_list(stream, said)? {
            return Ok(false);
        }
        if epoch <= self.head() {
            return Ok(false);
        }
        self.step_all(stream, said)?;
        Ok(true)
    }

    /// Takes the next roots, as many as a list has. Returns whether there were any.
    fn take_list<T: Read + Write>(
        &mut self,
        stream: &mut T,
        said: &mut Said,
    ) -> Result<bool, AskFault>
        ensures takes { IfOk result (λ went. TakesList H.digest_of S.verified (ExchangesFrames T.contents T.remaining) (scene self.old said.old stream.old) went (scene self.new said.new stream.new)) }
        ensures stays { StaysWhole self.old self.new }
        ensures stops { result ≡ Err Stopped → StopsList H.digest_of S.verified (ExchangesFrames T.contents T.remaining) (scene self.old said.old stream.old) (scene self.new said.new stream.new) }
        ensures halts { IfErr result (λ fault. fault ≢ Stopped → HaltsIn fault (scene self.old said.old stream.old) self.new said.new) }
    {
        let Some(from) = self.head().checked_add(1) else {
            return Ok(false);
        };
        let count = MAX_ROOTS as u16;
        let ask = Ask::History { from, count };
        let reply = self.request(stream, &ask)?;
        let Some(list) = body_of(self.alloc, &ask, &frame_in(&reply)?, said)? else {
            return Err(AskFault::Stopped);
        };
        if list == EMPTY_LIST.as_slice() {
            return Ok(false);
        }
        self.take(list, said)?;
        if self.head() < from {
            tell_other(self.alloc, said)?;
            return Err(AskFault::Stopped);
        }
        Ok(true)
    }

    /// Hands a list of new roots to the client and the monitors.
    fn take(&mut self, list: &[u8], said: &mut Said) -> Result<(), AskFault>
        ensures updates { OnOk result (AllUpdate H.digest_of S.verified list.now (self.old).client (self.old).monitors.items (self.new).client (self.new).monitors.items) }
        ensures said { OnOk result (said.new ≡ said.old) }
        ensures finals { (self.new).finals ≡ (self.old).finals }
        ensures stays { StaysWhole self.old self.new }
        ensures refused { result ≡ Err Stopped → TellsRootRefusal (λ why. AnyRefuses H.digest_of S.verified list.now (self.old).client (self.old).monitors.items why (self.new).client (self.new).monitors.items) said.old said.new }
        ensures halts { IfErr result (λ fault. fault ≢ Stopped → (report_of said.new ≡ report_of said.old) × (fault ≢ NoReply)) }
    {
        let checks = &mut self.checks;
        match self.client.update(&mut checks.hash, &checks.verifier, list) {
            Ok(()) => update_all(self.alloc, &mut self.monitors, checks, list, said),
            Err(why) => {
                tell_client(self.alloc, b"client refuses root", why, said)?;
                Err(AskFault::Stopped)
            }
        }
    }
}

/// Hands a list of new roots to the monitors.
fn update_all<H, V, S>(
    alloc: Global,
    monitors: &mut [Monitor<H, V, S>],
    checks: &mut Checks<H, V, S>,
    list: &[u8],
    said: &mut Said,
) -> Result<(), AskFault>
where
    H: NodeHash + Drop,
    V: VufCheck + Drop,
    S: Verifier + Drop,
    ensures updates { OnOk result (AllZip (MonitorUpdates H.digest_of S.verified list.now) monitors.old monitors.new) }
    ensures said { OnOk result (said.new ≡ said.old) }
    ensures refused { result ≡ Err Stopped → TellsRootRefusal (λ why. OneRefuses H.digest_of S.verified list.now monitors.old why monitors.new) said.old said.new }
    ensures halts { IfErr result (λ fault. fault ≢ Stopped → (report_of said.new ≡ report_of said.old) × (fault ≢ NoReply)) }
{
    for monitor in monitors.iter_mut() {
        update(alloc, monitor, checks, list, said)?;
    }
    Ok(())
}

/// Hands a list of new roots to a monitor.
fn update<H, V, S>(
    alloc: Global,
    monitor: &mut Monitor<H, V, S>,
    checks: &mut Checks<H, V, S>,
    list: &[u8],
    said: &mut Said,
) -> Result<(), AskFault>
where
    H: NodeHash + Drop,
    V: VufCheck + Drop,
    S: Verifier + Drop,
    ensures updates { OnOk result (MonitorUpdates H.digest_of S.verified list.now monitor.old monitor.new) }
    ensures said { OnOk result (said.new ≡ said.old) }
    ensures refused { result ≡ Err Stopped → TellsRootRefusal (λ why. RefusesList H.digest_of S.verified list.now monitor.old.client why × (monitor.new ≡ monitor.old)) said.old said.new }
    ensures halts { IfErr result (λ fault. fault ≢ Stopped → (report_of said.new ≡ report_of said.old) × (fault ≢ NoReply)) }
{
    match monitor.update(&mut checks.hash, &checks.verifier, list) {
        Ok(()) => Ok(()),
        Err(why) => {
            tell_client(alloc, b"client refuses root", why, said)?;
            Err(AskFault::Stopped)
        }
    }
}
