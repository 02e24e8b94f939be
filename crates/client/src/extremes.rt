//! The latest of the replies for one name with one index, and the earliest of those that state a key with Final. Beside
//! each stands the latest, or earliest, of those that state anything else. So whether one more reply changes one of them,
//! or is changed by one, is known without going through them.
ghost use Rattle.std.specs.Prelude.{◌≡◌, ◌≢◌, ◌⊎◌, ◌↔◌, ◌<◌, ◌++◌, ◌∷◌, [], List, Option, IfOk, IsTrue};
ghost use Rattle.std.specs.List.{AllByRecursion};
ghost use Rattle.encoding.specs.declared.bound_key.BoundKey.{BoundKey};
ghost use Rattle.proofs.specs.Views.{key_stated};
ghost use Rattle.client.specs.Agreements.{SpellsOne};
ghost use Rattle.client.specs.Extremes.{below_last, AreExtremes, BytesState, ChangesAmong, HasNoSuch, IsChangedAmong, IsEarliest, IsLatest, StatesFinal};
ghost use Rattle.client.specs.Finality.{IndexedReply as Reply};

use crate::by_name::IndexedReply;
use crate::looks::statement;
use proofs::Statement;
use std::alloc::AllocError;
use std::rc::Rc;

/// The greatest number of some replies, and of those that do not state what a reply of that number does. A number is 0
/// where there is none.
#[derive(Drop)]
pub(crate) struct Greatest {
    number: u64,
    /// A reply of this number, or any where the number is 0.
    bytes: Rc<Vec<u8>>,
    /// The greatest of those that do not state what this reply does.
    other: u64,
}

impl Greatest {
    /// That of one reply.
    fn of(number: u64, reply: &IndexedReply) -> Result<Greatest, AllocError>
        ensures { IfOk result (λ greatest. (greatest.number ≡ number) × (greatest.bytes.value.items ≡ reply.now.bytes) × (greatest.other ≡ 0)) }
    {
        Ok(Greatest {
            number,
            bytes: reply.shared()?,
            other: 0,
        })
    }

    /// The same once more.
    fn copied(&self) -> Result<Greatest, AllocError>
        ensures { IfOk result (λ greatest. (greatest.number ≡ (self.now).number) × (greatest.bytes.value.items ≡ (self.now).bytes.value.items) × (greatest.other ≡ (self.now).other)) }
    {
        Ok(Greatest {
            bytes: self.bytes.clone()?,
            ..*self
        })
    }

    /// What a reply of the greatest number states.
    fn statement(&self) -> Statement<'_>
        requires { SpellsOne (self.now).bytes.value.items }
        ensures { BytesState (self.now).bytes.value.items (key_stated result) }
    {
        statement(self.bytes.as_slice())
    }

    /// The greatest once this reply, of this number, is behind the others.
    fn with(
        &self,
        number: u64,
        reply: &IndexedReply,
        stated: Statement<'_>,
    ) -> Result<Greatest, AllocError>
        requires spelled { SpellsOne (self.now).bytes.value.items }
        requires stated { BytesState reply.now.bytes (key_stated stated) }
        ensures latest { IfOk result (λ greatest. (before : List Reply) → number ≡ reply.now.epoch → IsLatest before reply.now.index self.now → IsLatest (before ++ reply.now ∷ []) reply.now.index greatest) }
        ensures earliest { IfOk result (λ greatest. (before : List Reply) → number ≡ below_last reply.now.epoch → StatesFinal reply.now → IsEarliest before reply.now.index self.now → IsEarliest (before ++ reply.now ∷ []) reply.now.index greatest) }
    {
        let same = stated == self.statement();
        if number <= self.number {
            let bytes = self.bytes.clone()?;
            if same || number <= self.other {
                return Ok(Greatest { bytes, ..*self });
            }
            return Ok(Greatest {
                number: self.number,
                bytes,
                other: number,
            });
        }
        let bytes = reply.shared()?;
        if same {
            return Ok(Greatest {
                number,
                bytes,
                other: self.other,
            });
        }
        Ok(Greatest {
            number,
            bytes,
            other: self.number,
        })
    }

    /// Whether a reply of a number above this one does not state this.
    fn has_other_above(&self, number: u64, stated: Statement<'_>) -> bool
        requires { SpellsOne (self.now).bytes.value.items }
        ensures { (own : Option BoundKey) → BytesState (self.now).bytes.value.items own
            → ((key_stated stated.entry ≡ own) × (IsTrue result ↔ (number < (self.now).other))) ⊎ ((key_stated stated.entry ≢ own) × (IsTrue result ↔ (number < (self.now).number))) }
    {
        if stated == self.statement() {
            number < self.other
        } else {
            number < self.number
        }
    }
}

/// The latest of the replies with one index, and the earliest of those that state a key with Final. For the latter the
/// number of a reply is how far its epoch lies below the last one that a number has.
#[derive(Drop)]
pub(crate) struct Extremes {
    latest: Greatest,
    earliest: Greatest,
}

impl Extremes {
    /// Those of one reply, where no other has its index.
    pub(crate) fn of(reply: &IndexedReply, stated: Statement<'_>) -> Result<Extremes, AllocError>
        requires { BytesState reply.now.bytes (key_stated stated) }
        ensures { IfOk result (λ extremes. (before : List Reply) → HasNoSuch before reply.now.index → AreExtremes (before ++ reply.now ∷ []) reply.now.index extremes) }
    {
        let number = if stated.is_final() {
            u64::MAX - reply.epoch()
        } else {
            0
        };
        Ok(Extremes {
            latest: Greatest::of(reply.epoch(), reply)?,
            earliest: Greatest::of(number, reply)?,
        })
    }

    /// Those once this reply, with the same index, is behind the others.
    pub(crate) fn with(
        &self,
        reply: &IndexedReply,
        stated: Statement<'_>,
    ) -> Result<Extremes, AllocError>
        requires latest { SpellsOne (self.now).latest.bytes.value.items }
        requires earliest { SpellsOne (self.now).earliest.bytes.value.items }
        requires stated { BytesState reply.now.bytes (key_stated stated) }
        ensures { IfOk result (λ extremes. (before : List Reply) → AreExtremes before reply.now.index self.now → AreExtremes (before ++ reply.now ∷ []) reply.now.index extremes) }
    {
        let latest = self.latest.with(reply.epoch(), reply, stated)?;
        let earliest = if stated.is_final() {
            self.earliest.with(u64::MAX - reply.epoch(), reply, stated)?
        } else {
            self.earliest.copied()?
        };
        Ok(Extremes { latest, earliest })
    }

    /// Whether a reply with the index states a key with Final, and one of these changes it.
    pub(crate) fn has_change_of(&self, reply: &IndexedReply, stated: Statement<'_>) -> bool
        requires latest { SpellsOne (self.now).latest.bytes.value.items }
        requires stated { BytesState reply.now.bytes (key_stated stated) }
        ensures { (replies : List Reply) → AllByRecursion (λ reply. SpellsOne reply.bytes) replies
            → AreExtremes replies reply.now.index self.now → IsTrue result ↔ IsChangedAmong replies reply.now }
    {
        stated.is_final() && self.latest.has_other_above(reply.epoch(), stated)
    }

    /// Whether a reply with the index changes one of these, or one of these changes it.
    pub(crate) fn has_change_with(&self, reply: &IndexedReply, stated: Statement<'_>) -> bool
        requires latest { SpellsOne (self.now).latest.bytes.value.items }
        requires earliest { SpellsOne (self.now).earliest.bytes.value.items }
        requires stated { BytesState reply.now.bytes (key_stated stated) }
        ensures { (replies : List Reply) → AllByRecursion (λ reply. SpellsOne reply.bytes) replies
            → AreExtremes replies reply.now.index self.now → IsTrue result ↔ (IsChangedAmong replies reply.now ⊎ ChangesAmong replies reply.now) }
    {
        self.has_change_of(reply, stated) || self.are_changed_by(reply, stated)
    }

    /// Whether a reply with the index changes one of these.
    fn are_changed_by(&self, reply: &IndexedReply, stated: Statement<'_>) -> bool
        requires earliest { SpellsOne (self.now).earliest.bytes.value.items }
        requires stated { BytesState reply.now.bytes (key_stated stated) }
        ensures { (replies : List Reply) → AllByRecursion (λ reply. SpellsOne reply.bytes) replies
            → AreExtremes replies reply.now.index self.now → IsTrue result ↔ ChangesAmong replies reply.now }
    {
        let number = u64::MAX - reply.epoch();
        // Where no final one is earlier, nothing is read.
        if self.earliest.number <= number {
            return false;
        }
        self.earliest.has_other_above(number, stated)
    }
}
