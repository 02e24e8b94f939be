ghost use Rattle.std.specs.Prelude.{◌≡◌, ◌≢◌, ◌↔◌, ◌+◌, ◌++◌, ℕ, List, length, map, All, Any, Contains, IfOk, IsTrue, MatchBool, MatchOption, OnErr, OnOk};
ghost use Rattle.std.specs.Io.{StartsWith};
ghost use Rattle.memory.specs.Leaving.{Leaves, Settles};
ghost use Rattle.memory.specs.Memories.{nothing, HoldsEachOnce};
ghost use Rattle.memory.specs.Taking.{Takes};
ghost use Rattle.memory.specs.Texts.{items_text, memory_text, TellsAgain};
ghost use Rattle.memory.specs.declared.item.Item.TheVariants as items;

use crate::copying::{copied_alarms, copied_finals, copied_lines, copied_marks};
use crate::leaving::drop_alarms;
use crate::promises::Promises;
use crate::putting::{place_of_mark, put_alarm, put_evidence, put_final, put_mark};
use crate::telling::{
    push_alarms, push_alarms_of, push_finals, push_lines, push_marks, push_promises,
};
use crate::{Alarm, EvidenceLine, FinalSeen, Item, Mark, Promised};
use encoding::Name;
use rootchain::SignedPromise;
use std::alloc::{AllocError, Global};
use std::marker::Model;

/// What the client of an owner remembers: promises, how far names were watched, the first reply for each name
/// that stated a key with Final, alarms and evidence, each list in the order in which they came. No promise, no
/// name of a mark or of such a reply, no alarm and no evidence is there twice.
#[derive(Drop)]
pub struct Memory {
    promises: Promises,
    marks: Vec<Mark>,
    finals: Vec<FinalSeen>,
    alarms: Vec<Alarm>,
    evidence: Vec<EvidenceLine>,
}

impl Model for Memory {
    ghost use Rattle.memory.specs.Memories as memories;

    ghost Value = { memories.Memory };

    ghost use Rattle.memory.specs.Views.{memory_seen};

    ghost view = { memory_seen };

    ghost invariant = { λ memory. memories.HoldsEachOnce (memory_seen memory) };
}

impl Memory {
    /// A memory of nothing.
    pub fn new(alloc: Global) -> Self
        ensures { result ≡ nothing }
    {
        Memory {
            promises: Promises::new(alloc),
            marks: Vec::new(alloc),
            finals: Vec::new(alloc),
            alarms: Vec::new(alloc),
            evidence: Vec::new(alloc),
        }
    }

    /// A copy.
    ///
    /// # Errors
    ///
    /// `AllocError` if memory runs out.
    pub fn copied(&self, alloc: Global) -> Result<Memory, AllocError>
        ensures { IfOk result (λ copy. copy ≡ self.now) }
    {
        let promises = self.promises.copied(alloc)?;
        let marks = copied_marks(alloc, &self.marks)?;
        let finals = copied_finals(alloc, &self.finals)?;
        let alarms = copied_alarms(alloc, &self.alarms)?;
        let evidence = copied_lines(alloc, &self.evidence)?;
        Ok(Memory {
            promises,
            marks,
            finals,
            alarms,
            evidence,
        })
    }

    /// The promises.
    pub fn promises(&self) -> &[Promised]
        ensures value { result.now ≡ self.now.promises }
        ensures once { HoldsEachOnce self.now }
    {
        self.promises.items()
    }

    /// Whether the promise is kept.
    pub fn has_promise(&self, signed: &SignedPromise) -> bool
        ensures { IsTrue result ↔ Any (λ promised. promised.signed ≡ signed.now) self.now.promises }
    {
        self.promises.has(signed)
    }

    /// How far names were watched.
    pub fn marks(&self) -> &[Mark]
        ensures { result.now ≡ self.now.marks }
    {
        &self.marks
    }

    /// The first reply for each name that stated a key with Final.
    pub fn finals(&self) -> &[FinalSeen]
        ensures { result.now ≡ self.now.finals }
    {
        &self.finals
    }

    /// The alarms.
    pub fn alarms(&self) -> &[Alarm]
        ensures { result.now ≡ self.now.alarms }
    {
        &self.alarms
    }

    /// The evidence.
    pub fn evidence(&self) -> &[EvidenceLine]
        ensures { result.now ≡ self.now.evidence }
    {
        &self.evidence
    }

    /// The mark of a name, if there is one.
    pub fn mark_of(&self, name: &Name) -> Option<&Mark>
        ensures { MatchOption result (All (λ mark. mark.name ≢ name.now) self.now.marks) (λ mark. Contains self.now.marks mark.now × (mark.now.name ≡ name.now)) }
    {
        match place_of_mark(&self.marks, name) {
            Some(place) => Some(&self.marks[place]),
            None => None,
        }
    }

    /// Takes the item. Returns whether anything is new: a promise that is there becomes the owner's own if the item
    /// is, a mark takes the place of the one of its name, a reply that stated a key with Final does not, and what is
    /// not there is put behind the others.
    ///
    /// # Errors
    ///
    /// `AllocError` if memory runs out. The memory then stays as it was.
    pub fn take(&mut self, item: Item) -> Result<bool, AllocError>
        ensures takes { IfOk result (λ is_new. Takes item self.old self.new × MatchBool is_new (self.new ≢ self.old) (self.new ≡ self.old)) }
        ensures err { OnErr result (self.new ≡ self.old) }
    {
        match item {
            Item::Promised(promised) => self.promises.put(promised),
            Item::Watched(mark) => put_mark(&mut self.marks, mark),
            Item::Final(seen) => put_final(&mut self.finals, seen),
            Item::Alarm(alarm) => put_alarm(&mut self.alarms, alarm),
            Item::Evidence(line) => put_evidence(&mut self.evidence, line),
        }
    }

    /// Drops the alarms of a name, and returns how many there were.
    pub fn settle(&mut self, name: &Name) -> usize
        ensures settles { Settles name.now self.old self.new }
        ensures counted { result + length self.new.alarms ≡ length self.old.alarms }
    {
        drop_alarms(&mut self.alarms, name)
    }

    /// Drops each of these promises, which were tested, but for the owner's own that a mark awaits.
    pub fn leave(&mut self, tested: &[SignedPromise])
        ensures { Leaves tested.now self.old self.new }
    {
        self.promises.leave(&self.marks, tested);
    }

    /// Appends the lines: promises, marks, replies, alarms and evidence, each in order.
    ///
    /// # Errors
    ///
    /// `AllocError` if memory runs out. Then the text may have grown by a part of the lines.
    pub fn write(&self, text: &mut Vec<u8>) -> Result<(), AllocError>
        ensures ok { OnOk result (text.new.items ≡ text.old.items ++ memory_text self.now) }
        ensures grows { StartsWith text.new.items text.old.items }
    {
        push_promises(text, self.promises.items())?;
        push_marks(text, &self.marks)?;
        self.write_found(text)
    }

    /// Appends the lines of what was found: replies, alarms and evidence, each in order.
    fn write_found(&self, text: &mut Vec<u8>) -> Result<(), AllocError>
        ensures ok { OnOk result (text.new.items ≡ text.old.items ++ items_text (map items.Final self.now.finals ++ (map items.Alarm self.now.alarms ++ map items.Evidence self.now.evidence))) }
        ensures grows { StartsWith text.new.items text.old.items }
    {
        push_finals(text, &self.finals)?;
        push_alarms(text, &self.alarms)?;
        push_lines(text, &self.evidence)
    }

    /// Appends the lines of the evidence.
    ///
    /// # Errors
    ///
    /// `AllocError` if memory runs out. Then the text may have grown by a part of the lines.
    pub fn tell_evidence(&self, text: &mut Vec<u8>) -> Result<(), AllocError>
        ensures ok { OnOk result (text.new.items ≡ text.old.items ++ items_text (map items.Evidence self.now.evidence)) }
        ensures grows { StartsWith text.new.items text.old.items }
    {
        push_lines(text, &self.evidence)
    }

    /// Appends the lines of the alarms of a name, and returns how many there are.
    ///
    /// # Errors
    ///
    /// `AllocError` if memory runs out. Then the text may have grown by a part of the lines.
    pub fn tell_again(&self, name: &Name, text: &mut Vec<u8>) -> Result<usize, AllocError>
        ensures ok { IfOk result (λ count. (added : List ℕ) × (text.new.items ≡ text.old.items ++ added) × TellsAgain name.now self.now.alarms added count) }
        ensures grows { StartsWith text.new.items text.old.items }
    {
        push_alarms_of(text, &self.alarms, name)
    }
}
