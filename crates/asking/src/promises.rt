// The promises that the client keeps are tested once the chain has the next root.
ghost use Rattle.std.specs.Prelude.{◌≡◌, ◌≢◌, ◌↔◌, ℕ, codes, IfErr, IfOk, IsTrue, OnErr, OnOk};
ghost use Rattle.auditor.specs.declared.evidence.Evidence.TheVariants as evidence;
ghost use Rattle.audits.specs.Files.{evidence_text};
ghost use Rattle.asking.specs.Askers.{asker_marks};
ghost use Rattle.asking.specs.Exchanges.{ExchangesFrames};
ghost use Rattle.asking.specs.Refused.{refuses_text};
ghost use Rattle.asking.specs.Scenes.{scene, HaltsAfter, HaltsIn, StaysWhole};
ghost use Rattle.asking.specs.Testing.{TellsDue};
ghost use Rattle.asking.specs.declared.said.TheConstants.{OTHER_INDEX};
ghost use Rattle.asking.specs.Reports.{caught, refused, report_of, Tells};
ghost use Rattle.asking.specs.Visiting.{AwaitsMonitor, FindsKept, FindsSomeKept, HasMonitor, IsMarked, TestsAll, TestsName, TestsNamed, TestsSome, TestsSomeNamed, Visits};
ghost use Rattle.asking.specs.declared.ask_fault.AskFault.TheVariants.{Stopped};

use crate::checking::{tell_client, tell_evidence};
use crate::said::OTHER_INDEX;
use crate::{AskFault, Asker, Checks, Said};
use auditor::Evidence;
use client::{Client, Due};
use encoding::Name;
use memory::Mark;
use monitor::Monitor;
use nodehash::NodeHash;
use proofs::BrokenPromise;
use sigiface::Verifier;
use std::alloc::{AllocError, Global};
use std::io::{Read, Write};
use vrfiface::VufCheck;

impl<H, V, S> Asker<H, V, S>
where
    H: NodeHash + Drop,
    V: VufCheck + Drop,
    S: Verifier + Drop,
{
    /// Tests each promise that is due. One of a name that has a mark waits for its monitor, which needs it.
    ///
    /// # Errors
    ///
    /// `NoReply`; `OutOfMemory`.
    pub fn test_promises<T: Read + Write>(
        &mut self,
        stream: &mut T,
        said: &mut Said,
    ) -> Result<(), AskFault>
        ensures tests { OnOk result (TestsAll H.digest_of V.accepted (ExchangesFrames T.contents T.remaining) (asker_marks self.old) (scene self.old said.old stream.old) (scene self.new said.new stream.new)) }
        ensures stays { StaysWhole self.old self.new }
        ensures err { IfErr result (λ fault. fault ≢ Stopped) }
        ensures halts { IfErr result (λ fault. HaltsAfter (TestsSome H.digest_of V.accepted (ExchangesFrames T.contents T.remaining) (asker_marks self.old) (scene self.old said.old stream.old)) fault self.new said.new) }
    {
        let mut place = 0;
        // Every loop of Rattle has an end: this one's is past any list.
        for _ in 0..u64::MAX {
            match self.visit(stream, place, said)? {
                Some(next) => place = next,
                None => return Ok(()),
            }
        }
        Err(AskFault::NoReply)
    }

    /// Tests the promise at a place, if it is due. Returns the place that is next, or `None` at the end of the list.
    fn visit<T: Read + Write>(
        &mut self,
        stream: &mut T,
        place: usize,
        said: &mut Said,
    ) -> Result<Option<usize>, AskFault>
        ensures visits { IfOk result (λ next. Visits H.digest_of V.accepted (ExchangesFrames T.contents T.remaining) (self.old).marks.items (scene self.old said.old stream.old) place next (scene self.new said.new stream.new)) }
        ensures stays { StaysWhole self.old self.new }
        ensures err { IfErr result (λ fault. fault ≢ Stopped) }
        ensures halts { IfErr result (λ fault. HaltsIn fault (scene self.old said.old stream.old) self.new said.new) }
    {
        let Some(signed) = self.client.promises().get(place) else {
            return Ok(None);
        };
        let name = signed.promise.name.copied();
        if self.waits_for_monitor(&name) {
            return Ok(Some(place + 1));
        }
        if self.test(stream, &name, said)? {
            return Ok(Some(place));
        }
        Ok(Some(place + 1))
    }

    /// Tests the promises for a name that are due, one after another, up to one that is not found kept. If the name has a
    /// mark and no monitor, they wait.
    ///
    /// # Errors
    ///
    /// `NoReply`; `OutOfMemory`.
    pub(crate) fn test_named<T: Read + Write>(
        &mut self,
        stream: &mut T,
        name: &Name,
        said: &mut Said,
    ) -> Result<(), AskFault>
        ensures tests { OnOk result (TestsNamed H.digest_of V.accepted (ExchangesFrames T.contents T.remaining) (self.old).marks.items name.now (scene self.old said.old stream.old) (scene self.new said.new stream.new)) }
        ensures stays { StaysWhole self.old self.new }
        ensures err { IfErr result (λ fault. fault ≢ Stopped) }
        ensures halts { IfErr result (λ fault. HaltsAfter (TestsSomeNamed H.digest_of V.accepted (ExchangesFrames T.contents T.remaining) (self.old).marks.items name.now (scene self.old said.old stream.old)) fault self.new said.new) }
    {
        if self.waits_for_monitor(name) {
            return Ok(());
        }
        self.test_each(stream, name, said)
    }

    /// Tests the promises for a name that are due, one after another, up to one that is not found kept.
    fn test_each<T: Read + Write>(
        &mut self,
        stream: &mut T,
        name: &Name,
        said: &mut Said,
    ) -> Result<(), AskFault>
        ensures tests { OnOk result ((count : ℕ) × FindsKept H.digest_of V.accepted (ExchangesFrames T.contents T.remaining) count (scene self.old said.old stream.old) name.now (scene self.new said.new stream.new)) }
        ensures stays { StaysWhole self.old self.new }
        ensures err { IfErr result (λ fault. fault ≢ Stopped) }
        ensures halts { IfErr result (λ fault. HaltsAfter (FindsSomeKept H.digest_of V.accepted (ExchangesFrames T.contents T.remaining) name.now (scene self.old said.old stream.old)) fault self.new said.new) }
    {
        // Every loop of Rattle has an end: this one's is past any list.
        for _ in 0..u64::MAX {
            if !self.test(stream, name, said)? {
                return Ok(());
            }
        }
        Err(AskFault::NoReply)
    }

    /// Whether a name was watched in an earlier run, and not in this one.
    fn waits_for_monitor(&self, name: &Name) -> bool
        ensures { IsTrue result ↔ AwaitsMonitor (self.now).marks.items (self.now).monitors.items name.now }
    {
        !is_watched(&self.monitors, name) && is_marked(&self.marks, name)
    }

    /// Tests the promise of a name that is due, if there is one. Returns whether it was found kept.
    fn test<T: Read + Write>(
        &mut self,
        stream: &mut T,
        name: &Name,
        said: &mut Said,
    ) -> Result<bool, AskFault>
        ensures tests { IfOk result (λ kept. TestsName H.digest_of V.accepted (ExchangesFrames T.contents T.remaining) (scene self.old said.old stream.old) name.now kept (scene self.new said.new stream.new)) }
        ensures stays { StaysWhole self.old self.new }
        ensures err { IfErr result (λ fault. fault ≢ Stopped) }
        ensures halts { IfErr result (λ fault. HaltsIn fault (scene self.old said.old stream.old) self.new said.new) }
    {
        let Some(epoch) = self.client.due_epoch(name) else {
            return Ok(false);
        };
        let Some(found) = self.look_up(stream, name, epoch, said)? else {
            return Ok(false);
        };
        let mut now = Said::new(self.alloc);
        let checks = &mut self.checks;
        let kept = tell_due(self.alloc, &mut self.client, checks, name, &found, &mut now)?;
        self.note(name, &found, &mut now)?;
        said.join(now)?;
        Ok(kept)
    }
}

/// Whether a name was watched in an earlier run.
pub(crate) fn is_marked(marks: &[Mark], name: &Name) -> bool
    ensures { IsTrue result ↔ IsMarked marks.now name.now }
{
    for mark in marks {
        if mark.name == *name {
            return true;
        }
    }
    false
}

/// Whether a name is watched in this run. The last monitors are looked at first: one that begins is the last.
fn is_watched<H, V, S>(monitors: &[Monitor<H, V, S>], name: &Name) -> bool
where
    H: NodeHash + Drop,
    V: VufCheck + Drop,
    S: Verifier + Drop,
    ensures { IsTrue result ↔ HasMonitor monitors.now name.now }
{
    let mut place = monitors.len();
    while 0 < place {
        place -= 1;
        if monitors[place].name() == name {
            return true;
        }
    }
    false
}

/// Tells that a promise was not kept, by the evidence of it.
fn tell_proof(alloc: Global, broken: BrokenPromise, said: &mut Said) -> Result<(), AllocError>
    ensures { OnOk result (Tells said.old (caught (evidence_text (evidence.Broken broken))) said.new) }
{
    tell_evidence(alloc, &Evidence::Broken(broken), said)
}

/// Tells that the promise for a name was not kept.
pub(crate) fn tell_broken(
    alloc: Global,
    name: &Name,
    broken: BrokenPromise,
    said: &mut Said,
) -> Result<(), AllocError>
    ensures { OnOk result (Tells said.old (caught (evidence_text (evidence.Broken broken))) said.new) }
{
    tell_proof(alloc, broken, said)?;
    said.begin(b"promise for ", name)?;
    said.explain(b"it was not kept")
}

/// Tells that a name has another index than its promise says.
fn tell_other_index(said: &mut Said) -> Result<(), AllocError>
    ensures { OnOk result (Tells said.old (refused (refuses_text (codes "client refuses promise") OTHER_INDEX)) said.new) }
{
    said.refuse(
        b"client refuses promise",
        OTHER_INDEX,
        b"the name has another index",
    )
}

/// Tells what a reply shows of the promise that is tested for a name, whole or not at all. Returns whether it
/// was kept.
fn tell_due<H, V, S>(
    alloc: Global,
    client: &mut Client<H, V, S>,
    checks: &mut Checks<H, V, S>,
    name: &Name,
    reply: &[u8],
    said: &mut Said,
) -> Result<bool, AllocError>
where
    H: NodeHash + Drop,
    V: VufCheck + Drop,
    S: Verifier + Drop,
    ensures tells { IfOk result (λ kept. TellsDue H.digest_of V.accepted client.old name.now reply.now said.old kept said.new client.new) }
    ensures untold { OnErr result (report_of said.new ≡ report_of said.old) }
{
    let mut now = Said::new(alloc);
    let kept = test_by(alloc, client, checks, name, reply, &mut now)?;
    said.join(now)?;
    Ok(kept)
}

/// Tells what a reply shows of the promise that is tested for a name: nothing where it was kept. Returns whether it
/// was.
fn test_by<H, V, S>(
    alloc: Global,
    client: &mut Client<H, V, S>,
    checks: &mut Checks<H, V, S>,
    name: &Name,
    reply: &[u8],
    said: &mut Said,
) -> Result<bool, AllocError>
where
    H: NodeHash + Drop,
    V: VufCheck + Drop,
    S: Verifier + Drop,
    ensures { IfOk result (λ kept. TellsDue H.digest_of V.accepted client.old name.now reply.now said.old kept said.new client.new) }
{
    match client.due(&mut checks.hash, &checks.vuf, name, reply) {
        Ok(Due::Kept) => Ok(true),
        Ok(Due::Broken(broken)) => {
            tell_broken(alloc, name, broken, said)?;
            Ok(false)
        }
        Ok(Due::OtherIndex) => {
            tell_other_index(said)?;
            Ok(false)
        }
        Err(why) => {
            said.begin(b"promise for ", name)?;
            said.words.extend_from_slice(b": ")?;
            tell_client(alloc, b"client refuses proof", why, said)?;
            Ok(false)
        }
    }
}
