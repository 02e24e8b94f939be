// The monitors of names.
ghost use Rattle.std.specs.Prelude.{◌≡◌, ◌≢◌, ◌⊎◌, ◌-◌, ◌++◌, ◌∷◌, [], ℕ, codes, length, option_map, slice_get, false, IfErr, IfOk, IsTrue, OnErr, OnOk, Some};
ghost use Rattle.commands.specs.Operations.{Lookup};
ghost use Rattle.wire.specs.Frames.{Frame};
ghost use Rattle.wire.specs.Requests.{Query};
ghost use Rattle.client.specs.declared.client_refusal.Refusal.TheVariants.{Memory};
ghost use Rattle.rootchain.specs.declared.signed_promise.SignedPromise.{SignedPromise};
ghost use Rattle.asking.specs.Askers.{asker_marks};
ghost use Rattle.asking.specs.Asking.{handed_told, HandsAll, HandsTo, NotesLast};
ghost use Rattle.asking.specs.Exchanges.{ExchangesFrames};
ghost use Rattle.asking.specs.FinalBindings.{NotesReply};
ghost use Rattle.asking.specs.Refused.{client_refuses};
ghost use Rattle.asking.specs.Scenes.{scene, GivesBody, HaltsAfter, HaltsIn, Remains, StaysWhole};
ghost use Rattle.asking.specs.Reports.{report_of, silent, Report, Tells};
ghost use Rattle.asking.specs.Watching.{step_told, AllStep, IsAcceptedAt, TestsShown, GoesOn, GoesSome, SomeStep, StepsOnce, StepsSome, StepsThrough, WatchesAt, WatchesEpoch};
ghost use Rattle.asking.specs.declared.ask_fault.AskFault.TheVariants.{Stopped};

use crate::answering::ask_for;
use crate::checking::tell_client;
use crate::promises::tell_broken;
use crate::said::CAUGHT;
use crate::{AskFault, Asker, Checks, Said};
use client::Due;
use encoding::Name;
use monitor::{Monitor, Refusal, Step};
use nodehash::NodeHash;
use play::{Ask, push_number, tell_step};
use rootchain::SignedPromise;
use sigiface::Verifier;
use std::alloc::{AllocError, Global};
use std::io::{Read, Write};
use vrfiface::VufCheck;

impl<H, V, S> Asker<H, V, S>
where
    H: NodeHash + Drop,
    V: VufCheck + Drop,
    S: Verifier + Drop,
{
    /// Lets each monitor watch the epochs that are new, and tests the promises that are due.
    ///
    /// # Errors
    ///
    /// `NoReply`; `OutOfMemory`.
    pub fn go_on<T: Read + Write>(
        &mut self,
        stream: &mut T,
        said: &mut Said,
    ) -> Result<(), AskFault>
        ensures goes { OnOk result (GoesOn H.digest_of V.accepted (ExchangesFrames T.contents T.remaining) (asker_marks self.old) (scene self.old said.old stream.old) (scene self.new said.new stream.new)) }
        ensures stays { StaysWhole self.old self.new }
        ensures err { IfErr result (λ fault. fault ≢ Stopped) }
        ensures halts { IfErr result (λ fault. HaltsAfter (GoesSome H.digest_of V.accepted (ExchangesFrames T.contents T.remaining) (asker_marks self.old) (scene self.old said.old stream.old)) fault self.new said.new) }
    {
        self.step_all(stream, said)?;
        self.test_promises(stream, said)
    }

    /// Lets each monitor watch the epochs that are new, up to one whose proof is refused.
    pub(crate) fn step_all<T: Read + Write>(
        &mut self,
        stream: &mut T,
        said: &mut Said,
    ) -> Result<(), AskFault>
        ensures steps { OnOk result (AllStep H.digest_of V.accepted (ExchangesFrames T.contents T.remaining) (length (self.old).monitors.items) (scene self.old said.old stream.old) 0 (scene self.new said.new stream.new)) }
        ensures stays { StaysWhole self.old self.new }
        ensures err { IfErr result (λ fault. fault ≢ Stopped) }
        ensures halts { IfErr result (λ fault. HaltsAfter (SomeStep H.digest_of V.accepted (ExchangesFrames T.contents T.remaining) (length (self.old).monitors.items) (scene self.old said.old stream.old) 0) fault self.new said.new) }
    {
        for place in 0..self.monitors.len() {
            self.step_through(stream, place, said)?;
        }
        Ok(())
    }

    /// Notes the last promise that the client kept, of which these are the bytes, as one for a change of its own,
    /// and gives it to each monitor of its name. What they refuse is told, whole or not at all.
    pub(crate) fn hand_out(&mut self, promise: &[u8], said: &mut Said) -> Result<(), AllocError>
        ensures client { (self.new).client ≡ (self.old).client }
        ensures finals { (self.new).finals ≡ (self.old).finals }
        ensures hands { OnOk result ((signed : SignedPromise) → slice_get (self.old).client.promises (length (self.old).client.promises - 1) ≡ Some signed
            → (told : Report) × HandsAll H.digest_of V.accepted S.verified signed promise.now (self.old).monitors.items silent told (self.new).monitors.items × Tells said.old told said.new) }
        ensures untold { OnErr result (report_of said.new ≡ report_of said.old) }
        ensures notes { OnOk result ((signed : SignedPromise) → slice_get (self.old).client.promises (length (self.old).client.promises - 1) ≡ Some signed → (self.new).changes.items ≡ (self.old).changes.items ++ signed ∷ []) }
        ensures noted { ((self.new).changes.items ≡ (self.old).changes.items) ⊎ NotesLast (self.old).client.promises (self.old).changes.items (self.new).changes.items }
        ensures stays { Remains self.old self.new }
    {
        match self.client.promises().last() {
            Some(signed) => {
                self.changes.push(signed.copied())?;
                let mut now = Said::new(self.alloc);
                let (monitors, checks) = (&mut self.monitors, &mut self.checks);
                hand_to(self.alloc, monitors, checks, signed, promise, &mut now)?;
                said.join(now)
            }
            None => Ok(()),
        }
    }

    /// Lets a monitor watch each epoch of its chain that it has not watched, up to one whose proof is refused.
    pub(crate) fn step_through<T: Read + Write>(
        &mut self,
        stream: &mut T,
        place: usize,
        said: &mut Said,
    ) -> Result<(), AskFault>
        ensures steps { OnOk result ((count : ℕ) × StepsThrough H.digest_of V.accepted (ExchangesFrames T.contents T.remaining) count (scene self.old said.old stream.old) place (scene self.new said.new stream.new)) }
        ensures stays { StaysWhole self.old self.new }
        ensures err { IfErr result (λ fault. fault ≢ Stopped) }
        ensures halts { IfErr result (λ fault. HaltsAfter (StepsSome H.digest_of V.accepted (ExchangesFrames T.contents T.remaining) (scene self.old said.old stream.old) place) fault self.new said.new) }
    {
        // Every loop of Rattle has an end: this one's is past any chain.
        for _ in 0..u64::MAX {
            if !self.step(stream, place, said)? {
                return Ok(());
            }
        }
        Err(AskFault::NoReply)
    }

    /// Lets a monitor watch its next epoch. A promise for its name that is due there is tested by the same reply. Returns
    /// whether the monitor had an epoch, and its client accepted the proof.
    fn step<T: Read + Write>(
        &mut self,
        stream: &mut T,
        place: usize,
        said: &mut Said,
    ) -> Result<bool, AskFault>
        ensures steps { IfOk result (λ went. StepsOnce H.digest_of V.accepted (ExchangesFrames T.contents T.remaining) (scene self.old said.old stream.old) place went (scene self.new said.new stream.new)) }
        ensures stays { StaysWhole self.old self.new }
        ensures err { IfErr result (λ fault. fault ≢ Stopped) }
        ensures halts { IfErr result (λ fault. HaltsIn fault (scene self.old said.old stream.old) self.new said.new) }
    {
        let Some(monitor) = self.monitors.get(place) else {
            return Ok(false);
        };
        let Some(epoch) = monitor.next_epoch() else {
            return Ok(false);
        };
        let name = monitor.name().copied();
        let Some(found) = self.look_up(stream, &name, epoch, said)? else {
            return Ok(false);
        };
        let mut now = Said::new(self.alloc);
        let (monitors, checks) = (&mut self.monitors, &mut self.checks);
        let went = watch_at(self.alloc, monitors, place, checks, epoch, &found, &mut now)?;
        self.note(&name, &found, &mut now)?;
        self.test_shown(&name, epoch, went, &found, &mut now)?;
        said.join(now)?;
        Ok(went)
    }

    /// Tests the promise for a name by a reply that came for its monitor, if it is due in this epoch. One that was kept is
    /// dropped, and so not asked for; where the monitor's client accepted the reply, it is not verified once more. Evidence
    /// of one that was not is told; it stays, and is tested again.
    fn test_shown(
        &mut self,
        name: &Name,
        epoch: u64,
        is_accepted: bool,
        reply: &[u8],
        said: &mut Said,
    ) -> Result<(), AllocError>
        requires { IsTrue is_accepted → IsAcceptedAt H.digest_of V.accepted name.now epoch reply.now }
        ensures tests { OnOk result ((found : Report) × TestsShown H.digest_of V.accepted (self.old).client name.now epoch reply.now found (self.new).client × Tells said.old found said.new) }
        ensures monitors { (self.new).monitors ≡ (self.old).monitors }
        ensures finals { (self.new).finals ≡ (self.old).finals }
        ensures stays { StaysWhole self.old self.new }
    {
        if self.drop_shown(name, epoch, is_accepted, reply) {
            return Ok(());
        }
        self.test_due(name, epoch, reply, said)
    }

    /// Drops the promise for a name that is due in this epoch, if a reply that was accepted shows that it was kept. Returns
    /// whether it did.
    fn drop_shown(&mut self, name: &Name, epoch: u64, is_accepted: bool, reply: &[u8]) -> bool
        requires { IsTrue is_accepted → IsAcceptedAt H.digest_of V.accepted name.now epoch reply.now }
        ensures tests { IsTrue result → TestsShown H.digest_of V.accepted (self.old).client name.now epoch reply.now silent (self.new).client }
        ensures client { result ≡ false → (self.new).client ≡ (self.old).client }
        ensures monitors { (self.new).monitors ≡ (self.old).monitors }
        ensures finals { (self.new).finals ≡ (self.old).finals }
        ensures stays { StaysWhole self.old self.new }
    {
        if !is_accepted {
            return false;
        }
        let checks = &mut self.checks;
        self.client.drop_kept(&mut checks.hash, name, reply)
    }

    /// Tests the promise for a name by a reply that came for its monitor, if it is due in this epoch.
    fn test_due(
        &mut self,
        name: &Name,
        epoch: u64,
        reply: &[u8],
        said: &mut Said,
    ) -> Result<(), AllocError>
        ensures tests { OnOk result ((found : Report) × TestsShown H.digest_of V.accepted (self.old).client name.now epoch reply.now found (self.new).client × Tells said.old found said.new) }
        ensures monitors { (self.new).monitors ≡ (self.old).monitors }
        ensures finals { (self.new).finals ≡ (self.old).finals }
        ensures stays { StaysWhole self.old self.new }
    {
        if self.client.due_epoch(name) != Some(epoch) {
            return Ok(());
        }
        let checks = &mut self.checks;
        match self.client.due(&mut checks.hash, &checks.vuf, name, reply) {
            Ok(Due::Broken(broken)) => tell_broken(self.alloc, name, broken, said),
            Ok(Due::Kept) => Ok(()),
            Ok(Due::OtherIndex) => Ok(()),
            Err(_) => Ok(()),
        }
    }

    /// Notes bytes that came back for a name. What they show of a final binding is told.
    pub(crate) fn note(
        &mut self,
        name: &Name,
        reply: &[u8],
        said: &mut Said,
    ) -> Result<(), AllocError>
        ensures notes { OnOk result ((told : Report) × NotesReply H.digest_of V.accepted (self.old).client.chain name.now reply.now (self.old).finals told (self.new).finals × Tells said.old told said.new) }
        ensures err { OnErr result ((self.new).finals ≡ (self.old).finals) }
        ensures client { (self.new).client ≡ (self.old).client }
        ensures monitors { (self.new).monitors ≡ (self.old).monitors }
        ensures stays { StaysWhole self.old self.new }
    {
        let (finals, checks) = (&mut self.finals, &mut self.checks);
        finals.note(self.alloc, self.client.chain(), checks, name, reply, said)
    }

    /// Looks a name up at an epoch. Returns the body of the reply if it is an answer; else tells why it is none.
    pub(crate) fn look_up<T: Read + Write>(
        &self,
        stream: &mut T,
        name: &Name,
        epoch: u64,
        said: &mut Said,
    ) -> Result<Option<Vec<u8>>, AskFault>
        ensures gives { IfOk result (λ body. (frame : Frame) × ExchangesFrames T.contents T.remaining stream.old (Query (Lookup name.now epoch)) frame stream.new
            × GivesBody (Query (Lookup name.now epoch)) frame said.old (option_map (λ bytes. bytes.items) body) said.new) }
        ensures err { IfErr result (λ fault. fault ≢ Stopped) }
        ensures untold { OnErr result (report_of said.new ≡ report_of said.old) }
    {
        let name = Vec::from_slice(self.alloc, name.bytes())?;
        let ask = Ask::Lookup { name, epoch };
        ask_for(self.alloc, stream, self.token, &ask, said)
    }
}

/// Gives a promise, of which these are the bytes, to each monitor of its name, and tells what they refuse.
fn hand_to<H, V, S>(
    alloc: Global,
    monitors: &mut [Monitor<H, V, S>],
    checks: &mut Checks<H, V, S>,
    signed: &SignedPromise,
    promise: &[u8],
    said: &mut Said,
) -> Result<(), AllocError>
where
    H: NodeHash + Drop,
    V: VufCheck + Drop,
    S: Verifier + Drop,
    ensures { OnOk result (HandsAll H.digest_of V.accepted S.verified signed.now promise.now monitors.old (report_of said.old) (report_of said.new) monitors.new) }
{
    for monitor in monitors.iter_mut() {
        let why = hand_one(monitor, checks, signed, promise)?;
        tell_handed(alloc, &signed.promise.name, why, said)?;
    }
    Ok(())
}

/// Gives a promise to a monitor, if it is one of its name. Returns why the monitor refuses it, if it does.
pub(crate) fn hand_one<H, V, S>(
    monitor: &mut Monitor<H, V, S>,
    checks: &mut Checks<H, V, S>,
    signed: &SignedPromise,
    promise: &[u8],
) -> Result<Option<Refusal>, AllocError>
where
    H: NodeHash + Drop,
    V: VufCheck + Drop,
    S: Verifier + Drop,
    ensures { IfOk result (λ why. HandsTo H.digest_of V.accepted S.verified signed.now promise.now monitor.old why monitor.new) }
{
    if *monitor.name() != signed.promise.name {
        return Ok(None);
    }
    let key = &signed.promise.key;
    match monitor.expect(&mut checks.hash, &checks.verifier, key, promise) {
        Ok(()) => Ok(None),
        Err(Refusal::Client(client::Refusal::Memory)) => Err(AllocError),
        Err(why) => Ok(Some(why)),
    }
}

/// Tells why a monitor of this name refuses a promise that it was given, if it does.
fn tell_handed(
    alloc: Global,
    name: &Name,
    refused: Option<Refusal>,
    said: &mut Said,
) -> Result<(), AllocError>
    ensures { OnOk result (Tells said.old (handed_told refused) said.new) }
{
    let Some(why) = refused else {
        return Ok(());
    };
    said.begin(b"watching ", name)?;
    said.words.extend_from_slice(b": ")?;
    let words = format!(in alloc; "{why}")?;
    said.refuse(b"client refuses promise", why.number(), words.as_bytes())
}

/// Lets the monitor at a place watch its next epoch by a reply.
fn watch_at<H, V, S>(
    alloc: Global,
    monitors: &mut [Monitor<H, V, S>],
    place: usize,
    checks: &mut Checks<H, V, S>,
    epoch: u64,
    reply: &[u8],
    said: &mut Said,
) -> Result<bool, AllocError>
where
    H: NodeHash + Drop,
    V: VufCheck + Drop,
    S: Verifier + Drop,
    ensures watches { IfOk result (λ went. WatchesAt H.digest_of V.accepted monitors.old place epoch reply.now said.old went said.new monitors.new) }
    ensures untold { OnErr result (report_of said.new ≡ report_of said.old) }
{
    if monitors.len() <= place {
        return Ok(false);
    }
    watch_epoch(alloc, &mut monitors[place], checks, epoch, reply, said)
}

/// Tells what a step of a monitor found.
fn tell_watched(name: &[u8], epoch: u64, step: Step<'_>, said: &mut Said) -> Result<(), AllocError>
    ensures { OnOk result (Tells said.old (step_told name.now epoch step.entry) said.new) }
{
    match step {
        Step::Kept => tell_step(&mut said.text, name, epoch, Step::Kept),
        Step::Alarm { epoch: at, found } => {
            tell_step(
                &mut said.text,
                name,
                epoch,
                Step::Alarm { epoch: at, found },
            )?;
            said.raise(CAUGHT);
            Ok(())
        }
    }
}

/// Tells that the client of a monitor refuses a proof. The words name what is watched.
fn refuse_proof(
    alloc: Global,
    name: &Name,
    epoch: u64,
    why: client::Refusal,
    said: &mut Said,
) -> Result<(), AllocError>
    ensures told { OnOk result (Tells said.old (client_refuses (codes "client refuses proof") why) said.new) }
    ensures known { OnOk result (why ≢ Memory) }
{
    said.begin(b"watching ", name)?;
    said.words.extend_from_slice(b" at epoch ")?;
    push_number(&mut said.words, epoch)?;
    said.words.extend_from_slice(b": ")?;
    tell_client(alloc, b"client refuses proof", why, said)
}

/// Lets a monitor watch its next epoch by a reply, and tells its step, whole or not at all. Returns whether
/// its client accepted the proof.
fn watch_epoch<H, V, S>(
    alloc: Global,
    monitor: &mut Monitor<H, V, S>,
    checks: &mut Checks<H, V, S>,
    epoch: u64,
    reply: &[u8],
    said: &mut Said,
) -> Result<bool, AllocError>
where
    H: NodeHash + Drop,
    V: VufCheck + Drop,
    S: Verifier + Drop,
    ensures watches { IfOk result (λ went. WatchesEpoch H.digest_of V.accepted monitor.old epoch reply.now said.old went said.new monitor.new) }
    ensures untold { OnErr result (report_of said.new ≡ report_of said.old) }
{
    let mut now = Said::new(alloc);
    let went = step_by(alloc, monitor, checks, epoch, reply, &mut now)?;
    said.join(now)?;
    Ok(went)
}

/// Lets a monitor watch its next epoch by a reply, and tells its step. Returns whether its client accepted the
/// proof.
fn step_by<H, V, S>(
    alloc: Global,
    monitor: &mut Monitor<H, V, S>,
    checks: &mut Checks<H, V, S>,
    epoch: u64,
    reply: &[u8],
    said: &mut Said,
) -> Result<bool, AllocError>
where
    H: NodeHash + Drop,
    V: VufCheck + Drop,
    S: Verifier + Drop,
    ensures { IfOk result (λ went. WatchesEpoch H.digest_of V.accepted monitor.old epoch reply.now said.old went said.new monitor.new) }
{
    match monitor.step(&mut checks.hash, &checks.vuf, reply) {
        Ok(step) => {
            tell_watched(monitor.name().bytes(), epoch, step, said)?;
            Ok(true)
        }
        Err(Refusal::Client(why)) => {
            refuse_proof(alloc, monitor.name(), epoch, why, said)?;
            Ok(false)
        }
        Err(Refusal::OtherPromise) => unreachable!(),
    }
}
