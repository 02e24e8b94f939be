// What replies show of final bindings: the first that stated a key with Final is kept for each name, and each later one is
// compared with it.
ghost use Rattle.std.specs.Prelude.{◌≡◌, ◌↔◌, ◌++◌, true, Contains, IfOk, IsTrue, MatchOption, None, OnErr, OnOk, Some};
ghost use Rattle.audits.specs.Files.{evidence_text};
ghost use Rattle.auditor.specs.declared.evidence.Evidence.TheVariants as evidence;
ghost use Rattle.proofs.specs.Accepts.{stated};
ghost use Rattle.proofs.specs.BrokenFinals.{states_final};
ghost use Rattle.proofs.specs.Comparisons.{IsAcceptedReply};
ghost use Rattle.proofs.specs.Replies.{Reply, SpellsReply};
ghost use Rattle.proofs.specs.declared.broken_final.BrokenFinal.{BrokenFinal as Broken};
ghost use Rattle.asking.specs.FinalBindings as bindings;
ghost use Rattle.asking.specs.FinalBindings.{listed, no_finals, with_change, AreChanged, IsFinalChange, IsFinalIn, IsKeptFor, IsKnownIn, KeepsFinal, MayChange, NotesReply, NotesSeen, Show, ShowsChange, ShowsNothing, StayApart};
ghost use Rattle.asking.specs.Reports.{caught, Report, Tells};

use crate::checking::tell_evidence;
use crate::{Checks, Said};
use auditor::{Evidence, judge};
use audits::{ReadFault, read_evidence};
use client::state_a_change;
use encoding::{Name, ProofText};
use memory::{EvidenceLine, FinalSeen, Memory, ReplyText, copied_finals};
use nodehash::NodeHash;
use proofs::{BrokenFinal, ReplyView, accept};
use rootchain::{Chain, SignedRoot};
use sigiface::Verifier;
use std::alloc::{AllocError, Global};
use std::marker::Model;
use vrfiface::VufCheck;

/// What is known of final bindings.
#[derive(Drop)]
pub struct Finals {
    /// The first reply for each name that stated a key with Final.
    seen: Vec<FinalSeen>,
    /// The names of which evidence of a change was told.
    changed: Vec<Name>,
}

impl Model for Finals {
    ghost use Rattle.asking.specs.FinalBindings as bindings;

    ghost Value = { bindings.Finals };

    ghost view = { λ finals. record { seen = finals.seen.items; changed = finals.changed.items } };
}

impl Finals {
    /// Nothing is known.
    pub fn new(alloc: Global) -> Self
        ensures { result ≡ no_finals }
    {
        Finals {
            seen: Vec::new(alloc),
            changed: Vec::new(alloc),
        }
    }

    /// What a memory of earlier runs knows.
    ///
    /// # Errors
    ///
    /// `AllocError` if memory runs out.
    pub fn remembered(alloc: Global, memory: &Memory) -> Result<Self, AllocError>
        ensures { IfOk result (IsKnownIn memory.now) }
    {
        let seen = copied_finals(alloc, memory.finals())?;
        let changed = changed_names(alloc, memory.evidence())?;
        Ok(Finals { seen, changed })
    }

    /// The replies that are kept, in the order in which they came.
    pub fn seen(&self) -> &[FinalSeen]
        ensures { result.now ≡ self.now.seen }
    {
        &self.seen
    }

    /// Notes bytes that came back for a name. What they show with the reply that is kept for it is told.
    pub(crate) fn note<H, V, S>(
        &mut self,
        alloc: Global,
        chain: &Chain<H, S>,
        checks: &mut Checks<H, V, S>,
        name: &Name,
        reply: &[u8],
        said: &mut Said,
    ) -> Result<(), AllocError>
    where
        H: NodeHash + Drop,
        V: VufCheck + Drop,
        S: Verifier + Drop,
        ensures notes { OnOk result ((told : Report) × NotesReply H.digest_of V.accepted chain.now name.now reply.now self.old told self.new × Tells said.old told said.new) }
        ensures err { OnErr result (self.new ≡ self.old) }
    {
        let Ok(view) = ReplyView::read(reply) else {
            return Ok(());
        };
        let epoch = view.body().epoch;
        // Most replies end here, and are not copied.
        if self.shows_nothing(name, epoch, reply) {
            return Ok(());
        }
        let reply = ReplyText::copy_of(alloc, reply)?;
        let name = name.copied();
        self.note_seen(alloc, chain, checks, FinalSeen { name, epoch, reply }, said)
    }

    /// Whether a reply for a name shows nothing new: a change was told of it, or neither this reply nor the one that is kept for
    /// it can change the other, or none is kept and this one states no key with Final.
    fn shows_nothing(&self, name: &Name, epoch: u64, reply: &[u8]) -> bool
        ensures { IsTrue result → ShowsNothing name.now epoch reply.now self.now }
    {
        if self.changed.contains(name) {
            return true;
        }
        match kept_for(&self.seen, name) {
            Some(kept) => stay_apart(kept, epoch, reply),
            None => !states_final(reply),
        }
    }

    /// Notes a reply for a name.
    fn note_seen<H, V, S>(
        &mut self,
        alloc: Global,
        chain: &Chain<H, S>,
        checks: &mut Checks<H, V, S>,
        seen: FinalSeen,
        said: &mut Said,
    ) -> Result<(), AllocError>
    where
        H: NodeHash + Drop,
        V: VufCheck + Drop,
        S: Verifier + Drop,
        ensures notes { OnOk result ((told : Report) × NotesSeen H.digest_of V.accepted chain.now seen self.old told self.new × Tells said.old told said.new) }
        ensures err { OnErr result (self.new ≡ self.old) }
    {
        if self.changed.contains(&seen.name) {
            return Ok(());
        }
        let Some(kept) = kept_for(&self.seen, &seen.name) else {
            return self.keep_first(chain, checks, seen);
        };
        let Some(evidence) = shown(chain, checks, kept, &seen) else {
            return Ok(());
        };
        self.tell(alloc, seen.name, &evidence, said)
    }

    /// Tells the evidence that the final binding of a name was changed.
    pub(crate) fn tell(
        &mut self,
        alloc: Global,
        name: Name,
        evidence: &Evidence,
        said: &mut Said,
    ) -> Result<(), AllocError>
        ensures tells { OnOk result ((self.new ≡ with_change name (Some evidence.now) self.old) × Tells said.old (caught (evidence_text evidence.now)) said.new) }
        ensures err { OnErr result (self.new ≡ self.old) }
    {
        tell_change(alloc, &name, evidence, said)?;
        self.changed.push(name)?;
        Ok(())
    }

    /// Whether a change of the final binding of a name was told.
    pub(crate) fn is_told(&self, name: &Name) -> bool
        ensures { IsTrue result ↔ Contains self.now.changed name.now }
    {
        self.changed.contains(name)
    }

    /// Keeps a reply if it states a key with Final, and is accepted.
    fn keep_first<H, V, S>(
        &mut self,
        chain: &Chain<H, S>,
        checks: &mut Checks<H, V, S>,
        seen: FinalSeen,
    ) -> Result<(), AllocError>
    where
        H: NodeHash + Drop,
        V: VufCheck + Drop,
        S: Verifier + Drop,
        ensures keeps { OnOk result (KeepsFinal H.digest_of V.accepted chain.now seen self.old self.new) }
        ensures err { OnErr result (self.new ≡ self.old) }
    {
        if is_final_in(chain, checks, &seen) {
            self.seen.push(seen)?;
        }
        Ok(())
    }
}

/// The names of which lines of evidence show that a final binding was changed.
fn changed_names(alloc: Global, evidence: &[EvidenceLine]) -> Result<Vec<Name>, AllocError>
    ensures { IfOk result (λ names. AreChanged evidence.now names.items) }
{
    let mut names = Vec::new(alloc);
    for line in evidence {
        let found = changed_in(alloc, line.bytes())?;
        push_listed(&mut names, found)?;
    }
    Ok(names)
}

/// Appends the name, if there is one.
fn push_listed(names: &mut Vec<Name>, found: Option<Name>) -> Result<(), AllocError>
    ensures { OnOk result (names.new.items ≡ names.old.items ++ listed found) }
{
    if let Some(name) = found {
        names.push(name)?;
    }
    Ok(())
}

/// The name of which a line of evidence shows that its final binding was changed, if it does.
fn changed_in(alloc: Global, line: &[u8]) -> Result<Option<Name>, AllocError>
    ensures { IfOk result (ShowsChange line.now) }
{
    match read_evidence(alloc, line) {
        Ok(Evidence::Final(broken)) => Ok(Some(broken.name)),
        Ok(Evidence::Root(_)) => Ok(None),
        Ok(Evidence::Broken(_)) => Ok(None),
        Err(ReadFault::OutOfMemory) => Err(AllocError),
        Err(ReadFault::NotEvidence) => Ok(None),
    }
}

/// The reply that is kept for a name.
fn kept_for<'a>(seen: &'a [FinalSeen], name: &Name) -> Option<&'a FinalSeen>
    ensures { MatchOption result (IsKeptFor name.now seen.entry.now None) (λ kept. IsKeptFor name.now seen.entry.now (Some kept.now)) }
{
    for kept in seen {
        if kept.name == *name {
            return Some(kept);
        }
    }
    None
}

/// Whether neither of two replies for a name can change the other.
fn stay_apart(kept: &FinalSeen, epoch: u64, reply: &[u8]) -> bool
    ensures { IsTrue result → StayApart kept.now epoch reply.now }
{
    !may_change(kept.epoch, kept.reply.bytes(), epoch, reply)
        && !may_change(epoch, reply, kept.epoch, kept.reply.bytes())
}

/// Whether the first of two replies states a key with Final, and the second, at a later epoch, anything else.
fn may_change(epoch: u64, reply: &[u8], later_epoch: u64, later: &[u8]) -> bool
    ensures { IsTrue result ↔ MayChange epoch reply.now later_epoch later.now }
{
    epoch < later_epoch && state_a_change(reply, later)
}

/// The evidence that one of two replies for a name changes the other.
fn shown<H, V, S>(
    chain: &Chain<H, S>,
    checks: &mut Checks<H, V, S>,
    one: &FinalSeen,
    other: &FinalSeen,
) -> Option<Evidence>
where
    H: NodeHash + Drop,
    V: VufCheck + Drop,
    S: Verifier + Drop,
    ensures { Show H.digest_of V.accepted chain.now one.now other.now result }
{
    match change(chain, checks, one, other) {
        Some(evidence) => Some(evidence),
        None => change(chain, checks, other, one),
    }
}

/// The evidence that the second of two replies for a name changes the first.
fn change<H, V, S>(
    chain: &Chain<H, S>,
    checks: &mut Checks<H, V, S>,
    one: &FinalSeen,
    other: &FinalSeen,
) -> Option<Evidence>
where
    H: NodeHash + Drop,
    V: VufCheck + Drop,
    S: Verifier + Drop,
    ensures { MatchOption result ((broken : Broken) → ¬ IsFinalChange H.digest_of V.accepted chain.now one.now other.now broken)
        (λ made. (broken : Broken) × (made ≡ evidence.Final broken) × IsFinalChange H.digest_of V.accepted chain.now one.now other.now broken) }
{
    // Most replies end here, and are not verified once more.
    if !may_change(
        one.epoch,
        one.reply.bytes(),
        other.epoch,
        other.reply.bytes(),
    ) {
        return None;
    }
    let Some(root) = chain.at(one.epoch) else {
        return None;
    };
    let Some(later_root) = chain.at(other.epoch) else {
        return None;
    };
    let evidence = Evidence::Final(broken(one, root, other, later_root));
    // Its contract says that this is a chain, whose roots verify.
    let _head = chain.head();
    if judge(
        &mut checks.hash,
        &checks.vuf,
        &checks.verifier,
        chain.key(),
        &evidence,
    ) {
        Some(evidence)
    } else {
        None
    }
}

/// Two replies, each with a root.
fn broken(
    one: &FinalSeen,
    root: &SignedRoot,
    other: &FinalSeen,
    later_root: &SignedRoot,
) -> BrokenFinal
    ensures { result ≡ record { name = one.now.name; root = root.now; proof = one.now.reply; later_root = later_root.now; later_proof = other.now.reply } }
{
    BrokenFinal {
        name: one.name.copied(),
        root: root.copied(),
        proof: ProofText::of(one.reply.bytes()),
        later_root: later_root.copied(),
        later_proof: ProofText::of(other.reply.bytes()),
    }
}

/// Whether a reply states a key with Final, and is accepted for its name under the chain's root of its epoch.
pub fn is_final_in<H, V, S>(
    chain: &Chain<H, S>,
    checks: &mut Checks<H, V, S>,
    seen: &FinalSeen,
) -> bool
where
    H: NodeHash + Drop,
    V: VufCheck + Drop,
    S: Verifier + Drop,
    ensures { IsTrue result ↔ IsFinalIn H.digest_of V.accepted chain.now seen.now }
{
    // Most replies end here, and are not verified once more.
    if !states_final(seen.reply.bytes()) {
        return false;
    }
    match chain.at(seen.epoch) {
        Some(root) => is_final_under(checks, root, seen),
        None => false,
    }
}

/// Whether bytes spell a reply that states a key with Final.
fn states_final(bytes: &[u8]) -> bool
    ensures { IsTrue result ↔ ((reply : Reply) × SpellsReply bytes.now reply × (states_final (stated reply.end) ≡ true)) }
{
    match ReplyView::read(bytes) {
        Ok(view) => view.statement().is_final(),
        Err(_) => false,
    }
}

/// Whether a reply is accepted for its name under a root, and states a key with Final.
fn is_final_under<H, V, S>(
    checks: &mut Checks<H, V, S>,
    root: &SignedRoot,
    seen: &FinalSeen,
) -> bool
where
    H: NodeHash + Drop,
    V: VufCheck + Drop,
    S: Verifier + Drop,
    ensures { IsTrue result ↔ ((reply : Reply) × IsAcceptedReply H.digest_of V.accepted root.now.body seen.now.name seen.now.reply reply × (states_final (stated reply.end) ≡ true)) }
{
    match accept::<H, V>(
        &mut checks.hash,
        &checks.vuf,
        &root.body,
        &seen.name,
        seen.reply.bytes(),
    ) {
        Ok(reply) => reply.statement().is_final(),
        Err(_) => false,
    }
}

/// Tells that the final binding of a name was changed, by the evidence of it.
fn tell_change(
    alloc: Global,
    name: &Name,
    evidence: &Evidence,
    said: &mut Said,
) -> Result<(), AllocError>
    ensures { OnOk result (Tells said.old (caught (evidence_text evidence.now)) said.new) }
{
    tell_evidence(alloc, evidence, said)?;
    said.begin(b"final binding of ", name)?;
    said.explain(b"it was changed")
}
