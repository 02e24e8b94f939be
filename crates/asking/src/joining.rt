// A monitor of a name joins the others, and begins to watch.
ghost use Rattle.std.specs.Prelude.{◌≡◌, ◌≢◌, ◌↔◌, ℕ, IfErr, IfOk, Any, IsTrue, None, Option, OnErr, OnOk, Err, Ok, option_map};
ghost use Rattle.client.specs.declared.client_refusal.Refusal.TheVariants.{Memory};
ghost use Rattle.memory.specs.Watching.{IsAwaited};
ghost use Rattle.asking.specs.Askers.{asker_changes, asker_earlier, asker_key, asker_known, asker_marks};
ghost use Rattle.asking.specs.Exchanges.{ExchangesFrames};
ghost use Rattle.monitor.specs.declared.monitor_refusal.Refusal.{Refusal as MonitorRefusal};
ghost use Rattle.rootchain.specs.Promises.{signed_promise_bytes};
ghost use Rattle.asking.specs.Asking.{HandsTo};
ghost use Rattle.asking.specs.Joining.{first_expected, noted_for, own_for, AllHand, BeginsAt, BeginsSome, BeginsSomeAt, BeginsWatch, IsJoined, IsLaterPromise, IsLatest, IsLeftToWatch, RefusesOne, Retraces, RetracesOne, StartsFrom, watched_told, WatchesNew, WatchesSome};
ghost use Rattle.asking.specs.Recalled.{TellsAlarms};
ghost use Rattle.asking.specs.Reports.{report_of, Report, Tells};
ghost use Rattle.asking.specs.Scenes.{scene, HaltsAfter, StaysWhole};
ghost use Rattle.asking.specs.declared.ask_fault.AskFault.TheVariants.{Stopped};

use crate::checking::tell_client;
use crate::promises::is_marked;
use crate::said::CAUGHT;
use crate::watching::hand_one;
use crate::{AskFault, Asker, Checks, Said};
use client::{Client, Refusal};
use encoding::{BoundKey, Hash32, Name};
use memory::{Mark, is_awaited};
use monitor::Monitor;
use nodehash::NodeHash;
use play::{push_hex, push_number};
use rootchain::{SignedPromise, SignedRoot, write_list};
use sigiface::Verifier;
use std::alloc::{AllocError, Global};
use std::io::{Read, Write};
use vrfiface::VufCheck;

impl<H, V, S> Asker<H, V, S>
where
    H: NodeHash + Drop,
    V: VufCheck + Drop,
    S: Verifier + Drop,
{
    /// Tells the alarms of a name again that earlier runs told. Then it adds a monitor of the name that expects this key,
    /// or none, and lets it watch each epoch that is new: those behind the mark of the name, or the latest one if there
    /// is no mark. Where none is new, nothing is added, and it is told up to which epoch the name was watched.
    ///
    /// # Errors
    ///
    /// `NoReply`; `OutOfMemory`.
    pub fn watch<T: Read + Write>(
        &mut self,
        stream: &mut T,
        name: &Name,
        key: Option<&BoundKey>,
        said: &mut Said,
    ) -> Result<(), AskFault>
        ensures begins { OnOk result (BeginsWatch H.digest_of V.accepted S.verified (ExchangesFrames T.contents T.remaining) (asker_known self.old) (asker_marks self.old) (asker_key self.old) (own_for (asker_marks self.old) name.now (asker_earlier self.old) (asker_changes self.old)) name.now (option_map (λ key. key.now) key.entry)
            (scene self.old said.old stream.old) (scene self.new said.new stream.new)) }
        ensures stays { StaysWhole self.old self.new }
        ensures err { IfErr result (λ fault. fault ≢ Stopped) }
        ensures halts { IfErr result (λ fault. HaltsAfter (BeginsSome H.digest_of V.accepted S.verified (ExchangesFrames T.contents T.remaining) (asker_known self.old) (asker_marks self.old) (asker_key self.old) (own_for (asker_marks self.old) name.now (asker_earlier self.old) (asker_changes self.old)) name.now (option_map (λ key. key.now) key.entry)
            (scene self.old said.old stream.old)) fault self.new said.new) }
    {
        self.tell_alarms(name, said)?;
        self.watch_new(stream, name, key, said)
    }

    /// Tells the alarms of a name again that earlier runs told, whole or not at all.
    fn tell_alarms(&self, name: &Name, said: &mut Said) -> Result<(), AllocError>
        ensures tells { OnOk result ((again : Report) × TellsAlarms name.now (self.now).known again × Tells said.old again said.new) }
        ensures untold { OnErr result (report_of said.new ≡ report_of said.old) }
    {
        let now = alarms_said(self.alloc, &self.known, name)?;
        said.join(now)
    }

    /// Adds a monitor of a name, and lets it watch each epoch that is new. Where none is, tells up to which epoch the name
    /// was watched.
    fn watch_new<T: Read + Write>(
        &mut self,
        stream: &mut T,
        name: &Name,
        key: Option<&BoundKey>,
        said: &mut Said,
    ) -> Result<(), AskFault>
        ensures begins { OnOk result (WatchesNew H.digest_of V.accepted S.verified (ExchangesFrames T.contents T.remaining) (asker_marks self.old) (asker_key self.old) (own_for (asker_marks self.old) name.now (asker_earlier self.old) (asker_changes self.old)) name.now (option_map (λ key. key.now) key.entry)
            (scene self.old said.old stream.old) (scene self.new said.new stream.new)) }
        ensures stays { StaysWhole self.old self.new }
        ensures err { IfErr result (λ fault. fault ≢ Stopped) }
        ensures halts { IfErr result (λ fault. HaltsAfter (WatchesSome H.digest_of V.accepted S.verified (ExchangesFrames T.contents T.remaining) (asker_marks self.old) (asker_key self.old) (own_for (asker_marks self.old) name.now (asker_earlier self.old) (asker_changes self.old)) name.now (option_map (λ key. key.now) key.entry)
            (scene self.old said.old stream.old)) fault self.new said.new) }
    {
        match left_to_watch(&self.client, &self.marks, name) {
            ToWatch::FromRoot(first) => {
                self.begin_watch(stream, &first, name, key, said)?;
                self.test_named(stream, name, said)
            }
            ToWatch::Nothing(epoch) => Ok(tell_watched(self.alloc, name, epoch, said)?),
        }
    }

    /// Adds a monitor that watches from this root on, and lets it watch.
    fn begin_watch<T: Read + Write>(
        &mut self,
        stream: &mut T,
        first: &SignedRoot,
        name: &Name,
        key: Option<&BoundKey>,
        said: &mut Said,
    ) -> Result<(), AskFault>
        ensures begins { OnOk result (BeginsAt H.digest_of V.accepted S.verified (ExchangesFrames T.contents T.remaining) (self.old).marks.items (self.old).key (own_for (self.old).marks.items name.now (self.old).earlier.items (self.old).changes.items) name.now (option_map (λ key. key.now) key.entry)
            first.now (scene self.old said.old stream.old) (scene self.new said.new stream.new)) }
        ensures stays { StaysWhole self.old self.new }
        ensures err { IfErr result (λ fault. fault ≢ Stopped) }
        ensures halts { IfErr result (λ fault. HaltsAfter (BeginsSomeAt H.digest_of V.accepted S.verified (ExchangesFrames T.contents T.remaining) (self.old).marks.items (self.old).key (own_for (self.old).marks.items name.now (self.old).earlier.items (self.old).changes.items) name.now (option_map (λ key. key.now) key.entry)
            first.now (scene self.old said.old stream.old)) fault self.new said.new) }
    {
        let place = self.monitors.len();
        match self.monitor_from(first, name, key) {
            Ok(monitor) => {
                self.monitors.push(monitor)?;
                self.step_through(stream, place, said)
            }
            Err(why) => {
                tell_client(self.alloc, b"client refuses root", why, said)?;
                Ok(())
            }
        }
    }

    /// A monitor whose chain is that of the client from this root on. What was promised for the name before that
    /// root is expected at first, if a mark awaits it, and what was promised there changes it. That is of earlier runs
    /// and, if the name has a mark, of this one.
    fn monitor_from(
        &mut self,
        first: &SignedRoot,
        name: &Name,
        key: Option<&BoundKey>,
    ) -> Result<Monitor<H, V, S>, Refusal>
        ensures begun { IfOk result (λ monitor. IsJoined H.digest_of V.accepted S.verified (self.old).marks.items (self.old).key (own_for (self.old).marks.items name.now (self.old).earlier.items (self.old).changes.items) (self.old).client.chain first.now name.now (option_map (λ key. key.now) key.entry) monitor) }
        ensures refused { IfErr result (λ why. why ≢ Memory → StartsFrom H.digest_of S.verified (self.old).client.chain (self.old).key first.now (Err why)) }
        ensures same { ((self.new).client ≡ (self.old).client) × ((self.new).monitors ≡ (self.old).monitors) × StaysWhole self.old self.new }
        ensures finals { (self.new).finals ≡ (self.old).finals }
    {
        let own = client_from(self.alloc, &mut self.checks, &self.client, self.key, first)?;
        let (marks, earlier, changes) = (&self.marks, &self.earlier, &self.changes);
        let last = last_before(marks, earlier, changes, name, first.body.epoch);
        let start = expected_at_first(last, key);
        let mut monitor = Monitor::from_start(self.alloc, own, name.copied(), start);
        if hand_own(
            &mut self.checks,
            &mut monitor,
            marks,
            earlier,
            changes,
            name,
        )
        .is_err()
        {
            return Err(Refusal::Memory);
        }
        Ok(monitor)
    }
}

/// What is said of the alarms of a name that earlier runs told.
fn alarms_said(alloc: Global, known: &memory::Memory, name: &Name) -> Result<Said, AllocError>
    ensures { IfOk result (λ said. TellsAlarms name.now known.now (report_of said)) }
{
    let mut said = Said::new(alloc);
    let count = known.tell_again(name, &mut said.text)?;
    if count == 0 {
        return Ok(said);
    }
    said.raise(CAUGHT);
    Ok(said)
}

/// Where the watching of a name goes on.
#[derive(Drop)]
enum ToWatch {
    /// At this root.
    FromRoot(SignedRoot),
    /// Nowhere: all was watched up to this epoch.
    Nothing(u64),
}

/// The first root whose epoch was not watched for a name in an earlier run, or the last epoch that was.
fn left_to_watch<H, V, S>(client: &Client<H, V, S>, marks: &[Mark], name: &Name) -> ToWatch
where
    H: NodeHash + Drop,
    V: VufCheck + Drop,
    S: Verifier + Drop,
    ensures { IsLeftToWatch client.now.chain name.now marks.now result }
{
    for mark in marks {
        if mark.name == *name {
            return match client.chain().after(mark.epoch) {
                Some(root) => ToWatch::FromRoot(root.copied()),
                None => ToWatch::Nothing(mark.epoch),
            };
        }
    }
    ToWatch::FromRoot(client.chain().head().copied())
}

/// Tells up to which epoch a name was watched, whole or not at all.
fn tell_watched(alloc: Global, name: &Name, epoch: u64, said: &mut Said) -> Result<(), AllocError>
    ensures tells { OnOk result (Tells said.old (watched_told name.now epoch) said.new) }
    ensures untold { OnErr result (report_of said.new ≡ report_of said.old) }
{
    let mut line = Vec::from_slice(alloc, b"watched ")?;
    push_hex(&mut line, name.bytes())?;
    line.push(b' ')?;
    push_number(&mut line, epoch)?;
    line.push(b'\n')?;
    said.text.extend_from_slice(&line)
}

/// A client whose chain is that of another one from this root on.
fn client_from<H, V, S>(
    alloc: Global,
    checks: &mut Checks<H, V, S>,
    other: &Client<H, V, S>,
    key: Hash32,
    first: &SignedRoot,
) -> Result<Client<H, V, S>, Refusal>
where
    H: NodeHash + Drop,
    V: VufCheck + Drop,
    S: Verifier + Drop,
    ensures ok { IfOk result (λ own. StartsFrom H.digest_of S.verified other.now.chain key first.now (Ok own)) }
    ensures err { IfErr result (λ why. why ≢ Memory → StartsFrom H.digest_of S.verified other.now.chain key first.now (Err why)) }
{
    let root = first.write();
    let mut own = Client::start(alloc, &checks.verifier, key, root.bytes())?;
    retrace(alloc, &mut own, checks, other, first.body.epoch)?;
    Ok(own)
}

/// Lets a client take the roots of another one's chain after an epoch.
fn retrace<H, V, S>(
    alloc: Global,
    own: &mut Client<H, V, S>,
    checks: &mut Checks<H, V, S>,
    other: &Client<H, V, S>,
    first: u64,
) -> Result<(), Refusal>
where
    H: NodeHash + Drop,
    V: VufCheck + Drop,
    S: Verifier + Drop,
    ensures ok { OnOk result ((count : ℕ) × Retraces H.digest_of S.verified other.now.chain count first own.old (Ok own.new)) }
    ensures err { IfErr result (λ why. why ≢ Memory → (count : ℕ) × Retraces H.digest_of S.verified other.now.chain count first own.old (Err why)) }
{
    let mut epoch = first;
    // Every loop of Rattle has an end: this one's is past any chain.
    for _ in 0..u64::MAX {
        match retrace_one(alloc, own, checks, other, epoch) {
            Ok(Some(next)) => epoch = next,
            Ok(None) => return Ok(()),
            Err(why) => return Err(why),
        }
    }
    Err(Refusal::Memory)
}

/// Lets a client take the first root of another one's chain after an epoch. Returns the root's epoch, if
/// there is one.
fn retrace_one<H, V, S>(
    alloc: Global,
    own: &mut Client<H, V, S>,
    checks: &mut Checks<H, V, S>,
    other: &Client<H, V, S>,
    epoch: u64,
) -> Result<Option<u64>, Refusal>
where
    H: NodeHash + Drop,
    V: VufCheck + Drop,
    S: Verifier + Drop,
    ensures ok { IfOk result (λ next. RetracesOne H.digest_of S.verified other.now.chain epoch own.old next own.new) }
    ensures err { IfErr result (λ why. why ≢ Memory → RefusesOne H.digest_of S.verified other.now.chain epoch own.old why) }
{
    let Some(root) = other.chain().after(epoch) else {
        return Ok(None);
    };
    let mut list = Vec::new(alloc);
    if write_list(&[root.copied()], &mut list).is_err() {
        return Err(Refusal::Memory);
    }
    match own.update(&mut checks.hash, &checks.verifier, &list) {
        Ok(()) => Ok(Some(root.body.epoch)),
        Err(why) => Err(why),
    }
}

/// The changes of this run that a monitor of a name is given: all of them if the name has a mark. Without one a run
/// tells what `play` tells, whose monitors do not know what was promised before they began.
fn changes_for<'a>(marks: &[Mark], changes: &'a [SignedPromise], name: &Name) -> &'a [SignedPromise]
    ensures { result.now ≡ noted_for marks.now name.now changes.entry.now }
{
    if changes.is_empty() {
        return changes;
    }
    if is_marked(marks, name) {
        changes
    } else {
        &changes[..0]
    }
}

/// The last promise for a name from before this epoch that a mark awaits: of earlier runs, or of the changes of this
/// one that a monitor of the name is given.
fn last_before<'a>(
    marks: &[Mark],
    earlier: &'a [SignedPromise],
    changes: &'a [SignedPromise],
    name: &Name,
    epoch: u64,
) -> Option<&'a SignedPromise>
    ensures { IsLatest marks.now name.now epoch None (own_for marks.now name.now earlier.entry.now changes.entry.now) (option_map (λ signed. signed.now) result) }
{
    let last = last_of(None, marks, earlier, name, epoch);
    let noted = changes_for(marks, changes, name);
    last_of(last, marks, noted, name, epoch)
}

/// The last of these promises that is one for a name from before this epoch, and that a mark awaits; or the one before
/// them.
fn last_of<'a>(
    before: Option<&'a SignedPromise>,
    marks: &[Mark],
    promises: &'a [SignedPromise],
    name: &Name,
    epoch: u64,
) -> Option<&'a SignedPromise>
    ensures { IsLatest marks.now name.now epoch (option_map (λ signed. signed.now) before.entry) promises.entry.now (option_map (λ signed. signed.now) result) }
{
    let mut last = before;
    for signed in promises {
        if is_later(marks, last, signed, name, epoch) {
            last = Some(signed);
        }
    }
    last
}

/// Whether a promise is one for a name from before this epoch that a mark awaits, and later than the last one that
/// was.
fn is_later(
    marks: &[Mark],
    last: Option<&SignedPromise>,
    signed: &SignedPromise,
    name: &Name,
    epoch: u64,
) -> bool
    ensures { IsTrue result ↔ IsLaterPromise marks.now name.now epoch (option_map (λ signed. signed.now) last.entry) signed.now }
{
    if signed.promise.name != *name || epoch <= signed.promise.epoch || !awaits(marks, signed) {
        return false;
    }
    match last {
        Some(other) => other.promise.epoch < signed.promise.epoch,
        None => true,
    }
}

/// Whether a mark awaits the promise.
fn awaits(marks: &[Mark], signed: &SignedPromise) -> bool
    ensures { IsTrue result ↔ Any (IsAwaited signed.now) marks.now }
{
    for mark in marks {
        if is_awaited(signed, mark) {
            return true;
        }
    }
    false
}

/// What a monitor expects at first: the key of the last promise, or else the one that is given.
fn expected_at_first(last: Option<&SignedPromise>, given: Option<&BoundKey>) -> Option<BoundKey>
    ensures { result ≡ first_expected (option_map (λ signed. signed.now) last.entry) (option_map (λ key. key.now) given.entry) }
{
    match (last, given) {
        (Some(signed), _) => Some(signed.promise.key.copied()),
        (None, Some(key)) => Some(key.copied()),
        (None, None) => None,
    }
}

/// Gives a monitor of a name the promises of earlier runs, and behind them the changes of this one that it is given.
fn hand_own<H, V, S>(
    checks: &mut Checks<H, V, S>,
    monitor: &mut Monitor<H, V, S>,
    marks: &[Mark],
    earlier: &[SignedPromise],
    changes: &[SignedPromise],
    name: &Name,
) -> Result<(), AllocError>
where
    H: NodeHash + Drop,
    V: VufCheck + Drop,
    S: Verifier + Drop,
    ensures { OnOk result (AllHand H.digest_of V.accepted S.verified (own_for marks.now name.now earlier.now changes.now) monitor.old monitor.new) }
{
    hand_all(checks, monitor, earlier)?;
    hand_all(checks, monitor, changes_for(marks, changes, name))
}

/// Gives a monitor each of these promises that is one for its name. One from before the first root, or one that is not later
/// than those it was given, is refused.
fn hand_all<H, V, S>(
    checks: &mut Checks<H, V, S>,
    monitor: &mut Monitor<H, V, S>,
    promises: &[SignedPromise],
) -> Result<(), AllocError>
where
    H: NodeHash + Drop,
    V: VufCheck + Drop,
    S: Verifier + Drop,
    ensures { OnOk result (AllHand H.digest_of V.accepted S.verified promises.now monitor.old monitor.new) }
{
    for signed in promises {
        hand_written(checks, monitor, signed)?;
    }
    Ok(())
}

/// Gives a monitor a promise, if it is one for its name.
fn hand_written<H, V, S>(
    checks: &mut Checks<H, V, S>,
    monitor: &mut Monitor<H, V, S>,
    signed: &SignedPromise,
) -> Result<(), AllocError>
where
    H: NodeHash + Drop,
    V: VufCheck + Drop,
    S: Verifier + Drop,
    ensures { OnOk result ((why : Option MonitorRefusal) × HandsTo H.digest_of V.accepted S.verified signed.now (signed_promise_bytes signed.now) monitor.old why monitor.new) }
{
    if *monitor.name() != signed.promise.name {
        return Ok(());
    }
    write_and_hand(checks, monitor, signed)
}

/// Gives a monitor a promise in its bytes. A function clears the room of its texts when it is called, so this one is called for a
/// promise for the monitor's name alone.
fn write_and_hand<H, V, S>(
    checks: &mut Checks<H, V, S>,
    monitor: &mut Monitor<H, V, S>,
    signed: &SignedPromise,
) -> Result<(), AllocError>
where
    H: NodeHash + Drop,
    V: VufCheck + Drop,
    S: Verifier + Drop,
    ensures { OnOk result ((why : Option MonitorRefusal) × HandsTo H.digest_of V.accepted S.verified signed.now (signed_promise_bytes signed.now) monitor.old why monitor.new) }
{
    let _refused = hand_one(monitor, checks, signed, signed.write().bytes())?;
    Ok(())
}
