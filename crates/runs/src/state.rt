// The state of a run: what is remembered, and what of it was handed on to be kept. Each line is handed on before more is
// told.
ghost use Rattle.std.specs.Prelude.{◌≡◌, ◌⊎◌, ◌+◌, ◌<◌, ◌≤◌, ◌++◌, ◌∷◌, ◌||◌, ℕ, [], false, true, if◌then◌else◌, List, None, Option, Some, Contains, drop, length, map, option_map, IfErr, IfOk, IsTrue, OnErr, OnOk};
ghost use Rattle.std.specs.List.{AllByRecursion};
ghost use Rattle.rootchain.specs.Promises.{IsSignedPromise};
ghost use Rattle.rootchain.specs.declared.signed_promise.SignedPromise.{SignedPromise as Signed};
ghost use Rattle.memory.specs.Leaving.{Leaves, Settles};
ghost use Rattle.memory.specs.Learning.{Each, MarksOne};
ghost use Rattle.memory.specs.Memories.{nothing, signed_of, Memory as Known};
ghost use Rattle.memory.specs.Texts.{items_text, memory_text, TakesAll};
ghost use Rattle.memory.specs.declared.item.Item.{Item as Remembered};
ghost use Rattle.monitor.specs.Monitors.{Monitor as Watcher};
ghost use Rattle.runs.specs.Keeping.{AreTested, IsNewHead, LearnsAfter, LearnsBefore, LearnsKept, LearnsPromises, MayMove};
ghost use Rattle.asking.specs.FinalBindings.{IsKnownIn};
ghost use Rattle.runs.specs.Remembering.{AreWithin};
ghost use Rattle.asking.specs.Reports.{report_of};
ghost use Rattle.runs.specs.RunFaults.{IsFaultOfSaving, IsFaultOfState};
ghost use Rattle.runs.specs.Runs.{IsSoundFor, KeepsAll};
ghost use Rattle.runs.specs.Saves.{roots_above, stored_nothing, Act, AddsLines, AddsRoots, AreEarlier, Found, HasOneOfEachName, IsHeadEpoch, Loads, LoadsFor, Writes};
ghost use Rattle.runs.specs.Standing.{standing, AddsNoOwn, AddsOwn, AreAsked, AreLate, IsKept, IsUpTo, KeepsMarks, Stands};

use crate::keeper::{Keeper, Loaded};
use asking::{Asker, Checks, Said};
use encoding::{Hash32, Name};
use memory::{Kind, Memory, Promised};
use nodehash::NodeHash;
use rootchain::SignedPromise;
use sigiface::Verifier;
use std::alloc::{AllocError, Global};
use std::io::Write;
use textio::ProgramFault;
use vrfiface::VufCheck;

/// The state of a run.
#[derive(Drop)]
pub(crate) struct State {
    alloc: Global,
    /// Whether it was loaded. If not, something may be kept that this run does not know.
    is_loaded: bool,
    /// The epoch of the last root that is kept, or 0.
    epoch: u64,
    /// What is to be kept of the memory.
    memory: Memory,
    /// How many bytes are kept of it, if that is known.
    size: Option<usize>,
    /// How many changes of this run were looked at, and how many replies that stated keys with Final.
    changes: usize,
    finals: usize,
    /// The head, and how many monitors there were, when it was last looked.
    head: u64,
    monitors: usize,
    /// Whether the head was new then.
    was_new: bool,
}

/// What stands behind so many elements.
fn behind<A>(elements: &[A], count: usize) -> &[A]
    ensures { result.now ≡ drop count elements.now }
{
    elements.split_at(count.min(elements.len())).1
}

/// Copies of promises.
pub(crate) fn copies_of(
    alloc: Global,
    promises: &[SignedPromise],
) -> Result<Vec<SignedPromise>, AllocError>
    ensures { IfOk result (λ copies. copies.items ≡ promises.now) }
{
    let mut copies = Vec::new(alloc);
    for signed in promises {
        copies.push(signed.copied())?;
    }
    Ok(copies)
}

/// Whether these are the promises that are remembered, in the same order. If so, none was tested, and the slower search is not
/// needed.
fn are_remembered(remembered: &[Promised], kept: &[SignedPromise]) -> bool
    ensures { IsTrue result → map signed_of remembered.now ≡ kept.now }
{
    let mut rest = kept;
    for promised in remembered {
        match rest.split_first() {
            Some((signed, more)) if promised.signed == *signed => rest = more,
            _ => return false,
        }
    }
    rest.is_empty()
}

impl State {
    /// A state that is not loaded.
    pub(crate) fn new(alloc: Global) -> Self
        ensures fresh { (result.memory ≡ nothing) × (result.epoch ≡ 0) × (result.is_loaded ≡ false) }
        ensures looked { (result.changes ≡ 0) × (result.finals ≡ 0) × (result.monitors ≡ 0) }
    {
        State {
            alloc,
            is_loaded: false,
            epoch: 0,
            memory: Memory::new(alloc),
            size: Some(0),
            changes: 0,
            finals: 0,
            head: 0,
            monitors: 0,
            was_new: false,
        }
    }

    /// Loads what is kept. What asks with the chain and the promises, or the checks back if there is no chain yet.
    ///
    /// # Errors
    ///
    /// Those of `Keeper::load`.
    pub(crate) fn load<K, H, V, S>(
        &mut self,
        keeper: &mut K,
        checks: Checks<H, V, S>,
        key: Hash32,
        token: Hash32,
        said: &mut Said,
    ) -> Result<Result<Asker<H, V, S>, Checks<H, V, S>>, ProgramFault>
    where
        K: Keeper,
        H: NodeHash + Drop,
        V: VufCheck + Drop,
        S: Verifier + Drop,
        ensures loads { IfOk result (λ loaded. IfOk loaded (λ asker. LoadsFor (K.has keeper.old) (K.has keeper.new) asker)) }
        ensures fresh { IfOk result (λ loaded. IfErr loaded (λ unused. (acts : List Act) → K.has keeper.old acts → K.has keeper.new (Loads stored_nothing ∷ acts))) }
        ensures fails { OnErr result (((acts : List Act) → K.has keeper.old acts → K.has keeper.new acts) × ((self.new).is_loaded ≡ (self.old).is_loaded)) }
        ensures knows { IfOk result (λ loaded. IfOk loaded (λ asker. (asker.key ≡ key) × (asker.token ≡ token) × (asker.monitors.items ≡ []) × (asker.changes.items ≡ []))) }
        ensures memory { IfOk result (λ loaded. IfOk loaded (λ asker. ((self.new).memory ≡ asker.known) × (asker.marks.items ≡ asker.known.marks))) }
        ensures marks { IfOk result (λ loaded. IfOk loaded (λ asker. AreWithin asker.client.chain asker.known × HasOneOfEachName asker.known × IsHeadEpoch asker.client.chain (self.new).epoch)) }
        ensures looked { ((self.new).changes ≡ (self.old).changes) × ((self.new).monitors ≡ (self.old).monitors) }
        ensures none { IfOk result (λ loaded. IfErr loaded (λ unused. ((self.new).memory ≡ (self.old).memory) × ((self.new).epoch ≡ (self.old).epoch))) }
        ensures sound { IfOk result (λ loaded. IfOk loaded (λ asker. IsSoundFor H.digest_of V.accepted S.verified key asker.client)) }
        ensures kept { IfOk result (λ loaded. IfOk loaded (λ asker. KeepsAll asker.client asker.earlier.items)) }
        ensures own { IfOk result (λ loaded. IfOk loaded (λ asker. AreEarlier asker.known asker.earlier.items)) }
        ensures finals { IfOk result (λ loaded. IfOk loaded (λ asker. IsKnownIn asker.known asker.finals × ((self.new).finals ≡ length asker.finals.seen))) }
        ensures unseen { IfOk result (λ loaded. IfErr loaded (λ unused. (self.new).finals ≡ (self.old).finals)) × OnErr result ((self.new).finals ≡ (self.old).finals) }
        ensures said { report_of said.new ≡ report_of said.old }
        ensures err { IfErr result IsFaultOfState }
    {
        match keeper.load(checks, key, token, said)? {
            Ok(
                Loaded {
                    asker,
                    memory,
                    size,
                },
            ) => {
                self.is_loaded = true;
                self.epoch = asker.head();
                self.memory = memory;
                self.size = Some(size);
                self.head = asker.head();
                self.finals = asker.finals.seen().len();
                Ok(Ok(asker))
            }
            Err(unused) => {
                self.is_loaded = true;
                Ok(Err(unused))
            }
        }
    }

    /// Adds the roots, the promises, the replies that stated keys with Final and the evidence that are new to what is kept, and
    /// from where names are watched. The text is what will be told.
    ///
    /// # Errors
    ///
    /// `CannotWrite`; `OutOfMemory`.
    pub(crate) fn add<K, W, H, V, S>(
        &mut self,
        keeper: &mut K,
        writer: &W,
        asker: &Asker<H, V, S>,
        told: &[u8],
    ) -> Result<(), ProgramFault>
    where
        K: Keeper,
        W: Write,
        H: NodeHash + Drop,
        V: VufCheck + Drop,
        S: Verifier + Drop,
        ensures err { IfErr result IsFaultOfSaving }
        ensures learns { OnOk result (LearnsBefore (drop (self.old).changes asker.now.changes.items) asker.now.client.promises (drop (self.old).finals asker.now.finals.seen) told.now (drop (self.old).monitors asker.now.monitors.items) (self.old).memory (self.new).memory) }
        ensures looked { ((self.new).head ≡ (self.old).head) × ((self.new).monitors ≡ (self.old).monitors) × ((self.new).was_new ≡ (self.old).was_new) }
        ensures changes { OnOk result ((self.new).changes ≡ length asker.now.changes.items) }
        ensures finals { OnOk result ((self.new).finals ≡ length asker.now.finals.seen) }
        ensures up_to { OnOk result (IsUpTo asker.now.client (self.new).epoch) }
        ensures loaded { (self.new).is_loaded ≡ (self.old).is_loaded }
        ensures kept { (lines : Option (List (List ℕ))) (key : List ℕ) (start : Found) (old : List ℕ) (acts : List Act) → AreAsked lines start.known asker.now.changes.items × AreLate (self.old).memory (drop (self.old).changes asker.now.changes.items) → IsKept H.digest_of V.accepted S.verified lines key start old (λ done. K.has keeper.old (done ++ acts)) (self.old).epoch (self.old).memory [] (W.contents writer.now)
            → (unsaved : List Remembered) × IsKept H.digest_of V.accepted S.verified lines key start old (λ done. K.has keeper.new (done ++ acts)) (self.new).epoch (self.new).memory unsaved (W.contents writer.now) }
        ensures stands { OnOk result ((lines : Option (List (List ℕ))) (key : List ℕ) (start : Found) (old : List ℕ) (acts : List Act) (said : List ℕ) → AreAsked lines start.known asker.now.changes.items × AreLate (self.old).memory (drop (self.old).changes asker.now.changes.items) → Stands H.digest_of V.accepted S.verified lines key start old (λ done. K.has keeper.old (done ++ acts)) (self.old).epoch (self.old).memory [] (W.contents writer.now) asker.now.changes.items (standing asker.now.client asker.now.monitors.items said)
            → Stands H.digest_of V.accepted S.verified lines key start old (λ done. K.has keeper.new (done ++ acts)) (self.new).epoch (self.new).memory [] (W.contents writer.now) asker.now.changes.items (standing asker.now.client asker.now.monitors.items said)) }
    {
        // If a fault comes before all is handed on, nothing tells how much is kept.
        let size = self.size.take();
        let mut lines = Vec::new(self.alloc);
        // Evidence is remembered even if no root can be added.
        self.memory
            .learn_told(self.alloc, told, Kind::EvidenceLines, &mut lines)?;
        self.size = if lines.is_empty() { size } else { None };
        self.hand_roots(keeper, writer, asker)?;
        self.size = None;
        self.learn_kept(asker, &mut lines)?;
        let begun = behind(&asker.monitors, self.monitors);
        self.memory.mark_begun(begun, &mut lines)?;
        self.hand_on(keeper, writer, size, &lines)
    }

    /// Adds the alarms that were told, and how far names were watched.
    ///
    /// # Errors
    ///
    /// `CannotWrite`; `OutOfMemory`.
    pub(crate) fn save<K, W, H, V, S>(
        &mut self,
        keeper: &mut K,
        writer: &W,
        asker: &Asker<H, V, S>,
        told: &[u8],
    ) -> Result<(), ProgramFault>
    where
        K: Keeper,
        W: Write,
        H: NodeHash + Drop,
        V: VufCheck + Drop,
        S: Verifier + Drop,
        ensures err { IfErr result IsFaultOfSaving }
        ensures learns { OnOk result ((some : List Watcher) × MayMove asker.now.client.chain (self.old).head (self.old).was_new (self.old).monitors asker.now.monitors.items some
            × LearnsAfter told.now asker.now.monitors.items some (self.old).memory (self.new).memory) }
        ensures looked { OnOk result (((self.new).monitors ≡ length asker.now.monitors.items) × IsHeadEpoch asker.now.client.chain (self.new).head × IsNewHead asker.now.client.chain (self.old).head (self.new).was_new) }
        ensures changes { (self.new).changes ≡ (self.old).changes }
        ensures finals { (self.new).finals ≡ (self.old).finals }
        ensures loaded { (self.new).is_loaded ≡ (self.old).is_loaded }
        ensures kept { (lines : Option (List (List ℕ))) (key : List ℕ) (start : Found) (old : List ℕ) (acts : List Act) → IsUpTo asker.now.client (self.old).epoch
            → Stands H.digest_of V.accepted S.verified lines key start old (λ done. K.has keeper.old (done ++ acts)) (self.old).epoch (self.old).memory [] (W.contents writer.now) asker.now.changes.items (standing asker.now.client asker.now.monitors.items [])
            → (unsaved : List Remembered) × Stands H.digest_of V.accepted S.verified lines key start old (λ done. K.has keeper.new (done ++ acts)) (self.new).epoch (self.new).memory unsaved (W.contents writer.now) asker.now.changes.items (standing asker.now.client asker.now.monitors.items [])
            × OnOk result (unsaved ≡ []) }
    {
        let size = self.size.take();
        let mut lines = Vec::new(self.alloc);
        self.memory
            .learn_told(self.alloc, told, Kind::Alarms, &mut lines)?;
        self.learn_marks(asker, &mut lines)?;
        self.hand_on(keeper, writer, size, &lines)
    }

    /// Hands on the roots that are new.
    fn hand_roots<K, W, H, V, S>(
        &mut self,
        keeper: &mut K,
        writer: &W,
        asker: &Asker<H, V, S>,
    ) -> Result<(), ProgramFault>
    where
        K: Keeper,
        W: Write,
        H: NodeHash + Drop,
        V: VufCheck + Drop,
        S: Verifier + Drop,
        ensures err { IfErr result IsFaultOfSaving }
        ensures same { ((self.new).memory ≡ (self.old).memory) × ((self.new).changes ≡ (self.old).changes) × ((self.new).head ≡ (self.old).head) × ((self.new).monitors ≡ (self.old).monitors) × ((self.new).was_new ≡ (self.old).was_new) }
        ensures finals { (self.new).finals ≡ (self.old).finals }
        ensures loaded { (self.new).is_loaded ≡ (self.old).is_loaded }
        ensures hands { (acts : List Act) → K.has keeper.old acts → K.has keeper.new (AddsRoots (roots_above (self.old).epoch asker.now.client.chain.roots) (W.contents writer.now) ∷ acts) }
        ensures rises { (self.old).epoch ≤ (self.new).epoch }
        ensures exact { ((self.new).epoch ≡ (self.old).epoch) ⊎ IsHeadEpoch asker.now.client.chain (self.new).epoch }
        ensures up_to { OnOk result (IsUpTo asker.now.client (self.new).epoch) }
    {
        keeper.add_roots(&asker.client, self.epoch, writer)?;
        self.epoch = self.epoch.max(asker.head());
        Ok(())
    }

    /// Drops the alarms of a name, and returns how many there were.
    pub(crate) fn settle(&mut self, name: &Name) -> usize
        ensures settles { Settles name.now (self.old).memory (self.new).memory }
        ensures counted { result + length (self.new).memory.alarms ≡ length (self.old).memory.alarms }
        ensures same { ((self.new).is_loaded ≡ (self.old).is_loaded) × ((self.new).epoch ≡ (self.old).epoch) }
        ensures unsaved { 0 < result → (self.new).size ≡ None }
    {
        let count = self.memory.settle(name);
        if 0 < count {
            // What the file has is no longer what it is to have, whatever its size.
            self.size = None;
        }
        count
    }

    /// Learns the promises of the client that are new, with those for its own changes, and then the replies that stated keys
    /// with Final, and appends their lines.
    fn learn_kept<H, V, S>(
        &mut self,
        asker: &Asker<H, V, S>,
        lines: &mut Vec<u8>,
    ) -> Result<(), AllocError>
    where
        H: NodeHash + Drop,
        V: VufCheck + Drop,
        S: Verifier + Drop,
        ensures learns { OnOk result ((news : List Remembered) × LearnsKept (drop (self.old).changes asker.now.changes.items) asker.now.client.promises (drop (self.old).finals asker.now.finals.seen) (self.old).memory news (self.new).memory
            × (lines.new.items ≡ lines.old.items ++ items_text news)) }
        ensures takes { AllByRecursion IsSignedPromise asker.now.changes.items → OnOk result ((news : List Remembered) × TakesAll news (self.old).memory (self.new).memory × (lines.new.items ≡ lines.old.items ++ items_text news)) }
        ensures taken { AllByRecursion IsSignedPromise asker.now.changes.items → OnErr result ((news : List Remembered) × TakesAll news (self.old).memory (self.new).memory) }
        ensures some { OnErr result (KeepsMarks (self.old).memory (self.new).memory) }
        ensures own { AddsOwn (drop (self.old).changes asker.now.changes.items) (self.old).memory (self.new).memory }
        ensures changes { OnOk result ((self.new).changes ≡ length asker.now.changes.items) }
        ensures finals { OnOk result ((self.new).finals ≡ length asker.now.finals.seen) }
        ensures same { ((self.new).epoch ≡ (self.old).epoch) × ((self.new).head ≡ (self.old).head) × ((self.new).monitors ≡ (self.old).monitors) × ((self.new).was_new ≡ (self.old).was_new) }
        ensures loaded { (self.new).is_loaded ≡ (self.old).is_loaded }
    {
        self.learn_promises(asker, lines)?;
        let seen = behind(asker.finals.seen(), self.finals);
        self.memory.learn_finals(self.alloc, seen, lines)?;
        self.finals = asker.finals.seen().len();
        Ok(())
    }

    /// Learns the promises of the client that are new, with those for its own changes, and appends their lines.
    fn learn_promises<H, V, S>(
        &mut self,
        asker: &Asker<H, V, S>,
        lines: &mut Vec<u8>,
    ) -> Result<(), AllocError>
    where
        H: NodeHash + Drop,
        V: VufCheck + Drop,
        S: Verifier + Drop,
        ensures learns { OnOk result ((news : List Remembered) × LearnsPromises (drop (self.old).changes asker.now.changes.items) asker.now.client.promises (self.old).memory news (self.new).memory
            × (lines.new.items ≡ lines.old.items ++ items_text news)) }
        ensures takes { AllByRecursion IsSignedPromise asker.now.changes.items → OnOk result ((news : List Remembered) × TakesAll news (self.old).memory (self.new).memory × (lines.new.items ≡ lines.old.items ++ items_text news)) }
        ensures taken { AllByRecursion IsSignedPromise asker.now.changes.items → OnErr result ((news : List Remembered) × TakesAll news (self.old).memory (self.new).memory) }
        ensures some { OnErr result (KeepsMarks (self.old).memory (self.new).memory) }
        ensures own { AddsOwn (drop (self.old).changes asker.now.changes.items) (self.old).memory (self.new).memory }
        ensures changes { OnOk result ((self.new).changes ≡ length asker.now.changes.items) }
        ensures same { ((self.new).epoch ≡ (self.old).epoch) × ((self.new).head ≡ (self.old).head) × ((self.new).monitors ≡ (self.old).monitors) × ((self.new).was_new ≡ (self.old).was_new) }
        ensures finals { (self.new).finals ≡ (self.old).finals }
        ensures loaded { (self.new).is_loaded ≡ (self.old).is_loaded }
    {
        let fresh = self.memory.fresh(asker.client.promises());
        let own = behind(&asker.changes, self.changes);
        self.memory.learn_promises(own, true, lines)?;
        self.memory.learn_promises(fresh, false, lines)?;
        self.changes = asker.changes.len();
        Ok(())
    }

    /// Whether the head is another one than when it was last looked.
    fn has_new_head<H, V, S>(&self, asker: &Asker<H, V, S>) -> bool
    where
        H: NodeHash + Drop,
        V: VufCheck + Drop,
        S: Verifier + Drop,
        ensures { IsNewHead asker.now.client.chain (self.now).head result }
    {
        asker.head() != self.head
    }

    /// How many monitors need not be looked at. All are if the head is new, or was new at the last look: one that was held up may
    /// have gone on.
    fn looked_at(&self, is_new: bool) -> usize
        ensures { result ≡ (if is_new || (self.now).was_new then 0 else (self.now).monitors) }
    {
        if is_new || self.was_new {
            return 0;
        }
        self.monitors
    }

    /// Learns how far names were watched, and appends the lines of what is new. It looks at all monitors if the head is new, or was
    /// new at the last look; else at new ones alone.
    fn learn_marks<H, V, S>(
        &mut self,
        asker: &Asker<H, V, S>,
        lines: &mut Vec<u8>,
    ) -> Result<(), AllocError>
    where
        H: NodeHash + Drop,
        V: VufCheck + Drop,
        S: Verifier + Drop,
        ensures learns { OnOk result ((some : List Watcher) × (news : List Remembered) × MayMove asker.now.client.chain (self.old).head (self.old).was_new (self.old).monitors asker.now.monitors.items some
            × Each (MarksOne asker.now.monitors.items) some (self.old).memory news (self.new).memory × (lines.new.items ≡ lines.old.items ++ items_text news)) }
        ensures takes { OnOk result ((news : List Remembered) × TakesAll news (self.old).memory (self.new).memory × (lines.new.items ≡ lines.old.items ++ items_text news)) }
        ensures taken { OnErr result ((news : List Remembered) × TakesAll news (self.old).memory (self.new).memory) }
        ensures some { OnErr result ((done : List Watcher) × (news : List Remembered) × AllByRecursion (Contains asker.now.monitors.items) done × Each (MarksOne asker.now.monitors.items) done (self.old).memory news (self.new).memory) }
        ensures looked { OnOk result (((self.new).monitors ≡ length asker.now.monitors.items) × IsHeadEpoch asker.now.client.chain (self.new).head × IsNewHead asker.now.client.chain (self.old).head (self.new).was_new) }
        ensures same { ((self.new).epoch ≡ (self.old).epoch) × ((self.new).changes ≡ (self.old).changes) × ((self.new).finals ≡ (self.old).finals) }
        ensures loaded { (self.new).is_loaded ≡ (self.old).is_loaded }
    {
        let monitors = &asker.monitors;
        let is_new = self.has_new_head(asker);
        let known = self.looked_at(is_new);
        self.memory
            .mark_watched(monitors, behind(monitors, known), lines)?;
        self.head = asker.head();
        self.was_new = is_new;
        self.monitors = monitors.len();
        Ok(())
    }

    /// Drops the promises that nobody needs, if it is known which the client still keeps, and hands the memory on anew if there
    /// are lines that no longer hold.
    ///
    /// # Errors
    ///
    /// `CannotWrite`: at least the memory is kept; `OutOfMemory`.
    pub(crate) fn finish<K: Keeper, W: Write>(
        &mut self,
        still_kept: Option<Vec<SignedPromise>>,
        keeper: &mut K,
        writer: &W,
    ) -> Result<(), ProgramFault>
        ensures err { IfErr result IsFaultOfSaving }
        ensures leaves { OnOk result (((self.old).is_loaded ≡ false) ⊎ ((self.old).epoch ≡ 0) ⊎ ((tested : List Signed) × AreTested (self.old).memory (option_map (λ copies. copies.items) still_kept) tested × Leaves tested (self.old).memory (self.new).memory)) }
        ensures marks { (self.new).memory.marks ≡ (self.old).memory.marks }
        ensures evidence { (self.new).memory.evidence ≡ (self.old).memory.evidence }
        ensures own { AddsNoOwn (self.old).memory (self.new).memory }
        ensures hands { (acts : List Act) → K.has keeper.old acts → K.has keeper.new acts
            ⊎ (((self.old).is_loaded ≡ true) × ((tested : List Signed) × (known : Known) × Leaves tested (self.old).memory known × K.has keeper.new (Writes (memory_text known) (W.contents writer.now) ∷ acts))) }
        ensures writes { OnOk result (((self.old).is_loaded ≡ false) ⊎ ((self.old).epoch ≡ 0) ⊎ ((self.old).size ≡ Some (length (memory_text (self.new).memory)))
            ⊎ ((acts : List Act) → K.has keeper.old acts → K.has keeper.new (Writes (memory_text (self.new).memory) (W.contents writer.now) ∷ acts))) }
        ensures beside { (self.old).epoch ≡ 0 → (acts : List Act) → K.has keeper.old acts → K.has keeper.new acts }
        ensures same { ((self.new).is_loaded ≡ (self.old).is_loaded) × ((self.new).epoch ≡ (self.old).epoch) }
    {
        // A memory is kept beside a chain alone.
        if !self.is_loaded || self.epoch == 0 {
            return Ok(());
        }
        let tested = self.tested(still_kept)?;
        self.memory.leave(&tested);
        let mut text = Vec::new(self.alloc);
        self.memory.write(&mut text)?;
        // At least these lines are kept, some perhaps in the older form. Where they are as long, they stay.
        if self.size == Some(text.len()) {
            return Ok(());
        }
        keeper.replace(&text, writer)
    }

    /// Of the promises that are remembered, those that the client no longer keeps, if it is known which it keeps.
    fn tested(
        &self,
        still_kept: Option<Vec<SignedPromise>>,
    ) -> Result<Vec<SignedPromise>, AllocError>
        ensures { IfOk result (λ tested. AreTested (self.now).memory (option_map (λ copies. copies.items) still_kept) tested.items) }
    {
        let Some(kept) = still_kept else {
            return Ok(Vec::new(self.alloc));
        };
        if are_remembered(self.memory.promises(), &kept) {
            return Ok(Vec::new(self.alloc));
        }
        self.memory.gone(self.alloc, &kept)
    }

    /// Hands lines on to be kept, behind so many bytes, if that is known.
    fn hand_on<K: Keeper, W: Write>(
        &mut self,
        keeper: &mut K,
        writer: &W,
        size: Option<usize>,
        lines: &[u8],
    ) -> Result<(), ProgramFault>
        ensures err { IfErr result IsFaultOfSaving }
        ensures same { ((self.new).memory ≡ (self.old).memory) × ((self.new).epoch ≡ (self.old).epoch) × ((self.new).changes ≡ (self.old).changes) × ((self.new).head ≡ (self.old).head) × ((self.new).monitors ≡ (self.old).monitors) × ((self.new).was_new ≡ (self.old).was_new) }
        ensures finals { (self.new).finals ≡ (self.old).finals }
        ensures loaded { (self.new).is_loaded ≡ (self.old).is_loaded }
        ensures hands { (acts : List Act) → K.has keeper.old acts → ((lines.now ≡ []) × K.has keeper.new acts) ⊎ K.has keeper.new (AddsLines lines.now (W.contents writer.now) ∷ acts) }
    {
        if !lines.is_empty() {
            keeper.add(lines, writer)?;
        }
        self.size = size.map(|size| size.saturating_add(lines.len()));
        Ok(())
    }
}
