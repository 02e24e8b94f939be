// What a memory learns in a run. Each function appends the lines of what is new: behind lines that spell the memory as it
// was, they spell it as it is.

ghost use Rattle.std.specs.Prelude.{◌≡◌, ◌≢◌, ◌↔◌, ◌++◌, ℕ, ◌≤◌, nat_lt, false, if◌then◌else◌, List, map, All, Contains, IfOk, IsTrue, MatchBool, OnErr, OnOk};
ghost use Rattle.std.specs.Io.{StartsWith};
ghost use Rattle.std.specs.List.{AllByRecursion};
ghost use Rattle.rootchain.specs.Promises.{IsSignedPromise};
ghost use Rattle.textio.specs.Lines.{lines_of};
ghost use Rattle.memory.specs.Learning.{promised_item, AreGone, BeginsBehind, BeginsOne, Each, EachOfSome, IsFresh, IsOfKind, IsSince, LearnsFinal, LearnsLine, LearnsOne, MarksOne};
ghost use Rattle.memory.specs.Lines.{IsLineOf, IsNamed, IsSound};
ghost use Rattle.memory.specs.Texts.{items_text, TakesAll};
ghost use Rattle.memory.specs.declared.item.Item.{Item as Remembered};
ghost use Rattle.memory.specs.declared.kind.Kind.TheVariants.{EvidenceLines};
ghost use Rattle.memory.specs.declared.mark.Mark.{Mark as Marked};

use crate::recalling::first_line;
use crate::words::first_part;
use crate::{FinalSeen, Item, Kind, Mark, Memory, Promised, read_item, watched_up_to};
use encoding::Name;
use monitor::Monitor;
use nodehash::NodeHash;
use rootchain::SignedPromise;
use sigiface::Verifier;
use std::alloc::{AllocError, Global};
use vrfiface::VufCheck;

impl Memory {
    /// Takes an item, and appends its line if it is new.
    ///
    /// # Errors
    ///
    /// `AllocError` if memory runs out. The memory then stays as it was, and the text may have grown.
    pub fn learn(&mut self, item: Item, lines: &mut Vec<u8>) -> Result<(), AllocError>
        ensures ok { OnOk result ((news : List Remembered) × LearnsOne item self.old news self.new × (lines.new.items ≡ lines.old.items ++ items_text news)) }
        ensures takes { IsSound item → OnOk result ((news : List Remembered) × TakesAll news self.old self.new × (lines.new.items ≡ lines.old.items ++ items_text news)) }
        ensures named { IsNamed item }
        ensures err { OnErr result (self.new ≡ self.old) }
        ensures grows { StartsWith lines.new.items lines.old.items }
    {
        let before = lines.len();
        item.write(lines)?;
        if !self.take(item)? {
            lines.truncate(before);
        }
        Ok(())
    }

    /// Takes promises, each for a change of the owner's own or not, and appends the lines of those that are new.
    ///
    /// # Errors
    ///
    /// `AllocError` if memory runs out. Then the first of the promises may be taken, and the text may have grown.
    pub fn learn_promises(
        &mut self,
        promises: &[SignedPromise],
        is_own: bool,
        lines: &mut Vec<u8>,
    ) -> Result<(), AllocError>
        ensures ok { OnOk result ((news : List Remembered) × Each LearnsOne (map (promised_item is_own) promises.now) self.old news self.new × (lines.new.items ≡ lines.old.items ++ items_text news)) }
        ensures takes { AllByRecursion IsSignedPromise promises.now → OnOk result ((news : List Remembered) × TakesAll news self.old self.new × (lines.new.items ≡ lines.old.items ++ items_text news)) }
        ensures err { OnErr result (EachOfSome LearnsOne (map (promised_item is_own) promises.now) self.old self.new) }
        ensures some { AllByRecursion IsSignedPromise promises.now → OnErr result ((news : List Remembered) × TakesAll news self.old self.new) }
        ensures grows { StartsWith lines.new.items lines.old.items }
    {
        for signed in promises {
            let signed = signed.copied();
            self.learn(Item::Promised(Promised { signed, is_own }), lines)?;
        }
        Ok(())
    }

    /// Takes replies that stated keys with Final, where none is remembered for their names, and appends the lines of
    /// those that are new.
    ///
    /// # Errors
    ///
    /// `AllocError` if memory runs out. Then the first of the replies may be taken, and the text may have grown.
    pub fn learn_finals(
        &mut self,
        alloc: Global,
        finals: &[FinalSeen],
        lines: &mut Vec<u8>,
    ) -> Result<(), AllocError>
        ensures ok { OnOk result ((news : List Remembered) × Each LearnsFinal finals.now self.old news self.new × (lines.new.items ≡ lines.old.items ++ items_text news)) }
        ensures takes { OnOk result ((news : List Remembered) × TakesAll news self.old self.new × (lines.new.items ≡ lines.old.items ++ items_text news)) }
        ensures err { OnErr result (EachOfSome LearnsFinal finals.now self.old self.new) }
        ensures some { OnErr result ((news : List Remembered) × TakesAll news self.old self.new) }
        ensures grows { StartsWith lines.new.items lines.old.items }
    {
        for seen in finals {
            self.learn_final(alloc, seen, lines)?;
        }
        Ok(())
    }

    /// Takes a reply that stated a key with Final, if none is remembered for its name, and appends its line.
    fn learn_final(
        &mut self,
        alloc: Global,
        seen: &FinalSeen,
        lines: &mut Vec<u8>,
    ) -> Result<(), AllocError>
        ensures ok { OnOk result ((news : List Remembered) × LearnsFinal seen.now self.old news self.new × (lines.new.items ≡ lines.old.items ++ items_text news)) }
        ensures takes { OnOk result ((news : List Remembered) × TakesAll news self.old self.new × (lines.new.items ≡ lines.old.items ++ items_text news)) }
        ensures err { OnErr result (self.new ≡ self.old) }
        ensures grows { StartsWith lines.new.items lines.old.items }
    {
        self.learn(Item::Final(seen.copied(alloc)?), lines)
    }

    /// Of promises that are kept in order, those behind the last that is remembered.
    pub fn fresh<'p>(&self, kept: &'p [SignedPromise]) -> &'p [SignedPromise]
        ensures { IsFresh self.now kept.entry.now result.now }
    {
        let mut start = kept.len();
        while 0 < start {
            if self.has_promise(&kept[start - 1]) {
                return kept.split_at(start).1;
            }
            start -= 1;
        }
        kept
    }

    /// Of the promises that are remembered, those that are no longer kept.
    ///
    /// # Errors
    ///
    /// `AllocError` if memory runs out.
    pub fn gone(
        &self,
        alloc: Global,
        kept: &[SignedPromise],
    ) -> Result<Vec<SignedPromise>, AllocError>
        ensures { IfOk result (λ gone. AreGone self.now kept.now gone.items) }
    {
        let mut gone = Vec::new(alloc);
        for promised in self.promises() {
            if !kept.contains(&promised.signed) {
                gone.push(promised.signed.copied())?;
            }
        }
        Ok(gone)
    }

    /// Takes the items of this kind that lines of a text have, and appends the lines of those that are new.
    ///
    /// # Errors
    ///
    /// `AllocError` if memory runs out. Then some of the items may be taken, and the text may have grown.
    pub fn learn_told(
        &mut self,
        alloc: Global,
        told: &[u8],
        kind: Kind,
        lines: &mut Vec<u8>,
    ) -> Result<(), AllocError>
        ensures ok { OnOk result ((news : List Remembered) × Each (LearnsLine kind) (lines_of told.now) self.old news self.new × (lines.new.items ≡ lines.old.items ++ items_text news)) }
        ensures takes { OnOk result ((news : List Remembered) × TakesAll news self.old self.new × (lines.new.items ≡ lines.old.items ++ items_text news)) }
        ensures err { OnErr result (EachOfSome (LearnsLine kind) (lines_of told.now) self.old self.new) }
        ensures some { OnErr result ((news : List Remembered) × TakesAll news self.old self.new) }
        ensures grows { StartsWith lines.new.items lines.old.items }
    {
        let mut rest = told;
        while !rest.is_empty() {
            let (line, behind) = first_line(rest);
            self.learn_line(alloc, line, kind, lines)?;
            rest = behind;
        }
        Ok(())
    }

    /// Takes the item of a line if it is of this kind, and appends its line if it is new.
    fn learn_line(
        &mut self,
        alloc: Global,
        line: &[u8],
        kind: Kind,
        lines: &mut Vec<u8>,
    ) -> Result<(), AllocError>
        ensures ok { OnOk result ((news : List Remembered) × LearnsLine kind line.now self.old news self.new × (lines.new.items ≡ lines.old.items ++ items_text news)) }
        ensures err { OnErr result (self.new ≡ self.old) }
        ensures grows { StartsWith lines.new.items lines.old.items }
    {
        // Most lines end here, and are not read.
        if !may_be(line, kind) {
            return Ok(());
        }
        let Some(item) = read_item(alloc, line)? else {
            return Ok(());
        };
        if !is_of_kind(&item, kind) {
            return Ok(());
        }
        self.learn(item, lines)
    }

    /// Marks where the watching begins of names that have no mark yet, and appends the lines.
    ///
    /// # Errors
    ///
    /// `AllocError` if memory runs out. Then the first of the names may have a mark, and the text may have grown.
    pub fn mark_begun<H, V, S>(
        &mut self,
        monitors: &[Monitor<H, V, S>],
        lines: &mut Vec<u8>,
    ) -> Result<(), AllocError>
    where
        H: NodeHash,
        V: VufCheck,
        S: Verifier,
        ensures ok { OnOk result ((news : List Remembered) × Each BeginsOne monitors.now self.old news self.new × (lines.new.items ≡ lines.old.items ++ items_text news)) }
        ensures takes { OnOk result ((news : List Remembered) × TakesAll news self.old self.new × (lines.new.items ≡ lines.old.items ++ items_text news)) }
        ensures err { OnErr result (EachOfSome BeginsOne monitors.now self.old self.new) }
        ensures some { OnErr result ((news : List Remembered) × TakesAll news self.old self.new) }
        ensures grows { StartsWith lines.new.items lines.old.items }
    {
        for monitor in monitors {
            self.begin_one(monitor, lines)?;
        }
        Ok(())
    }

    /// Marks where the watching begins of the name of a monitor, if it has no mark yet.
    fn begin_one<H, V, S>(
        &mut self,
        monitor: &Monitor<H, V, S>,
        lines: &mut Vec<u8>,
    ) -> Result<(), AllocError>
    where
        H: NodeHash,
        V: VufCheck,
        S: Verifier,
        ensures ok { OnOk result ((news : List Remembered) × BeginsOne monitor.now self.old news self.new × (lines.new.items ≡ lines.old.items ++ items_text news)) }
        ensures takes { OnOk result ((news : List Remembered) × TakesAll news self.old self.new × (lines.new.items ≡ lines.old.items ++ items_text news)) }
        ensures err { OnErr result (self.new ≡ self.old) }
        ensures grows { StartsWith lines.new.items lines.old.items }
    {
        if self.has_mark(monitor.name()) {
            return Ok(());
        }
        let epoch = begins_behind(monitor);
        let name = monitor.name().copied();
        let since = epoch;
        self.learn(Item::Watched(Mark { name, since, epoch }), lines)
    }

    /// Moves the marks of the names of some monitors to the last epoch up to which each of all the monitors of the name
    /// has watched, and appends the lines of those that are new.
    ///
    /// # Errors
    ///
    /// `AllocError` if memory runs out. Then the first of the marks may have moved, and the text may have grown.
    pub fn mark_watched<H, V, S>(
        &mut self,
        monitors: &[Monitor<H, V, S>],
        some: &[Monitor<H, V, S>],
        lines: &mut Vec<u8>,
    ) -> Result<(), AllocError>
    where
        H: NodeHash,
        V: VufCheck,
        S: Verifier,
        ensures ok { OnOk result ((news : List Remembered) × Each (MarksOne monitors.now) some.now self.old news self.new × (lines.new.items ≡ lines.old.items ++ items_text news)) }
        ensures takes { OnOk result ((news : List Remembered) × TakesAll news self.old self.new × (lines.new.items ≡ lines.old.items ++ items_text news)) }
        ensures err { OnErr result (EachOfSome (MarksOne monitors.now) some.now self.old self.new) }
        ensures some { OnErr result ((news : List Remembered) × TakesAll news self.old self.new) }
        ensures grows { StartsWith lines.new.items lines.old.items }
    {
        for monitor in some {
            self.mark_one(monitors, monitor, lines)?;
        }
        Ok(())
    }

    /// Moves the mark of the name of a monitor.
    fn mark_one<H, V, S>(
        &mut self,
        monitors: &[Monitor<H, V, S>],
        monitor: &Monitor<H, V, S>,
        lines: &mut Vec<u8>,
    ) -> Result<(), AllocError>
    where
        H: NodeHash,
        V: VufCheck,
        S: Verifier,
        ensures ok { OnOk result ((news : List Remembered) × MarksOne monitors.now monitor.now self.old news self.new × (lines.new.items ≡ lines.old.items ++ items_text news)) }
        ensures takes { OnOk result ((news : List Remembered) × TakesAll news self.old self.new × (lines.new.items ≡ lines.old.items ++ items_text news)) }
        ensures err { OnErr result (self.new ≡ self.old) }
        ensures grows { StartsWith lines.new.items lines.old.items }
    {
        let Some(epoch) = watched_up_to(monitors, monitor.name()) else {
            return Ok(());
        };
        let mark = self.moved(monitor, epoch);
        self.learn(Item::Watched(mark), lines)
    }

    /// The mark of the name of a monitor, moved to this epoch.
    fn moved<H, V, S>(&self, monitor: &Monitor<H, V, S>, epoch: u64) -> Mark
    where
        H: NodeHash,
        V: VufCheck,
        S: Verifier,
        ensures name { result.name ≡ monitor.now.name }
        ensures epoch { result.epoch ≡ epoch }
        ensures rises { result.since ≤ result.epoch }
        ensures since { (since : ℕ) × IsSince self.now.marks monitor.now since × (result.since ≡ (if nat_lt epoch since then epoch else since)) }
    {
        Mark {
            name: monitor.name().copied(),
            since: lesser(epoch, self.since(monitor)),
            epoch,
        }
    }

    /// Whether a name has a mark.
    fn has_mark(&self, name: &Name) -> bool
        ensures { MatchBool result ((mark : Marked) × Contains self.now.marks mark × (mark.name ≡ name.now)) (All (λ mark. mark.name ≢ name.now) self.now.marks) }
    {
        self.mark_of(name).is_some()
    }

    /// Behind which epoch the name of a monitor was watched.
    fn since<H, V, S>(&self, monitor: &Monitor<H, V, S>) -> u64
    where
        H: NodeHash,
        V: VufCheck,
        S: Verifier,
        ensures { IsSince self.now.marks monitor.now result }
    {
        match self.mark_of(monitor.name()) {
            Some(mark) => mark.since,
            None => begins_behind(monitor),
        }
    }
}

/// Behind which epoch the watching of a name begins that this monitor watches: the one before the first root of its chain.
pub fn begins_behind<H, V, S>(monitor: &Monitor<H, V, S>) -> u64
where
    H: NodeHash,
    V: VufCheck,
    S: Verifier,
    ensures { BeginsBehind monitor.now result }
{
    match monitor.client().chain().after(0) {
        Some(root) => root.body.previous_epoch,
        None => 0,
    }
}

/// The lesser of two numbers.
fn lesser(one: u64, other: u64) -> u64
    ensures value { result ≡ (if nat_lt one other then one else other) }
    ensures most { result ≤ one }
{
    if one < other { one } else { other }
}

/// Whether a line may have an item of this kind, by its first word.
fn may_be(line: &[u8], kind: Kind) -> bool
    ensures { result ≡ false → (item : Remembered) → IsLineOf line.now item → ¬ IsOfKind kind item }
{
    match kind {
        Kind::Alarms => first_part(line, b' ').0 == b"alarm".as_slice(),
        Kind::EvidenceLines => is_one_word(line),
    }
}

/// Whether no space stands in a line.
fn is_one_word(line: &[u8]) -> bool
    ensures { result ≡ false → (item : Remembered) → IsLineOf line.now item → ¬ IsOfKind EvidenceLines item }
{
    match first_part(line, b' ').1 {
        Some(_behind) => false,
        None => true,
    }
}

/// Whether an item is of this kind.
fn is_of_kind(item: &Item, kind: Kind) -> bool
    ensures { IsTrue result ↔ IsOfKind kind item.now }
{
    match (kind, item) {
        (Kind::Alarms, Item::Alarm(_)) => true,
        (Kind::EvidenceLines, Item::Evidence(_)) => true,
        _ => false,
    }
}
