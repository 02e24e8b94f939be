// The promises of a memory, with an index that tells at once that a promise is new.

ghost use Rattle.std.specs.Prelude.{◌≡◌, ◌≢◌, ◌↔◌, ◌∷◌, ◌++◌, ◌<◌, ◌||◌, [], length, map, slice_index_or, All, Any, IfOk, IsTrue, MatchBool, MatchOption, OnErr, OnOk};
ghost use Rattle.memory.specs.Leaving.{IsNeeded};
ghost use Rattle.memory.specs.Lists.{HasNoRepeat, IsLeft};
ghost use Rattle.memory.specs.Memories.{signed_of};
ghost use Rattle.memory.specs.Taking.{PutsPromised};
ghost use Rattle.memory.specs.declared.promised.Promised.{Promised as PromisedMade};

use crate::leaving::leave_promises;
use crate::{Mark, Promised};
use rootchain::SignedPromise;
use std::alloc::{AllocError, Global};
use std::collections::BTreeSet;
use std::marker::Model;

/// Promises, in the order in which they came.
#[derive(Drop)]
pub(crate) struct Promises {
    alloc: Global,
    list: Vec<Promised>,
    /// The bytes of each promise of the list, and perhaps of some that were dropped from it.
    index: BTreeSet<Vec<u8>>,
}

impl Model for Promises {
    ghost use Rattle.std.specs.Prelude.{List};
    ghost use Rattle.memory.specs.PromiseIndex.{AreIndexed};
    ghost use Rattle.memory.specs.declared.promised.Promised.{Promised as PromisedMade};

    ghost Value = { List PromisedMade };

    ghost view = { λ promises. promises.list.items };

    ghost invariant = { λ promises. AreIndexed promises.index promises.list.items };
}

impl Promises {
    /// No promises.
    pub(crate) fn new(alloc: Global) -> Self
        ensures { result ≡ [] }
    {
        Promises {
            alloc,
            list: Vec::new(alloc),
            index: BTreeSet::new(alloc),
        }
    }

    /// A copy.
    pub(crate) fn copied(&self, alloc: Global) -> Result<Promises, AllocError>
        ensures { IfOk result (λ copy. copy ≡ self.now) }
    {
        let mut copy = Promises::new(alloc);
        for promised in &self.list {
            copy.push(promised.copied())?;
        }
        Ok(copy)
    }

    /// The promises.
    pub(crate) fn items(&self) -> &[Promised]
        ensures { result.now ≡ self.now }
    {
        &self.list
    }

    /// Whether the promise is there.
    pub(crate) fn has(&self, signed: &SignedPromise) -> bool
        ensures { IsTrue result ↔ Any (λ kept. kept.signed ≡ signed.now) self.now }
    {
        self.place_of(signed).is_some()
    }

    /// Joins a promise to the same one, or puts it behind the others. Returns whether the list is another one now.
    pub(crate) fn put(&mut self, new: Promised) -> Result<bool, AllocError>
        ensures puts { IfOk result (λ is_new. PutsPromised new self.old self.new
            × MatchBool is_new (self.new ≢ self.old) (self.new ≡ self.old)) }
        ensures err { OnErr result (self.new ≡ self.old) }
        ensures once { HasNoRepeat (map signed_of self.old) → HasNoRepeat (map signed_of self.new) }
    {
        match self.place_of(&new.signed) {
            Some(place) => Ok(join(&mut self.list[place], new.is_own)),
            None => {
                self.push(new)?;
                Ok(true)
            }
        }
    }

    /// Drops each of these promises, which were tested, but for the owner's own that a mark awaits.
    pub(crate) fn leave(&mut self, marks: &[Mark], tested: &[SignedPromise])
        ensures left { IsLeft (IsNeeded tested.now marks.now) self.old self.new }
        ensures once { HasNoRepeat (map signed_of self.old) → HasNoRepeat (map signed_of self.new) }
    {
        leave_promises(&mut self.list, marks, tested);
    }

    /// Puts a promise behind the others.
    fn push(&mut self, new: Promised) -> Result<(), AllocError>
        ensures ok { OnOk result (self.new ≡ self.old ++ new ∷ []) }
        ensures err { OnErr result (self.new ≡ self.old) }
    {
        let text = Vec::from_slice(self.alloc, new.signed.write().bytes())?;
        self.index.insert(text)?;
        self.list.push(new)?;
        Ok(())
    }

    /// Where the promise stands, if it does. The last promises are compared first.
    fn place_of(&self, signed: &SignedPromise) -> Option<usize>
        ensures { MatchOption result (All (λ kept. kept.signed ≢ signed.now) self.now)
            (λ place. (place < length self.now) × ((d : PromisedMade) → (slice_index_or self.now place d).signed ≡ signed.now)) }
    {
        if self.index.contains(signed.write().bytes()) {
            last_place(&self.list, signed)
        } else {
            None
        }
    }
}

/// Where the promise stands, if it does, looked for from the end.
fn last_place(promises: &[Promised], signed: &SignedPromise) -> Option<usize>
    ensures { MatchOption result (All (λ kept. kept.signed ≢ signed.now) promises.now)
        (λ place. (place < length promises.now) × ((d : PromisedMade) → (slice_index_or promises.now place d).signed ≡ signed.now)) }
{
    let mut place = promises.len();
    while 0 < place {
        place -= 1;
        if promises[place].signed == *signed {
            return Some(place);
        }
    }
    None
}

/// Makes a promise the owner's own if this says so. Returns whether it is another one now.
fn join(kept: &mut Promised, is_own: bool) -> bool
    ensures joined { kept.new ≡ record { signed = kept.old.signed; is_own = kept.old.is_own || is_own } }
    ensures told { MatchBool result (kept.old ≢ kept.new) (kept.old ≡ kept.new) }
{
    let is_new = is_own && !kept.is_own;
    kept.is_own = kept.is_own || is_own;
    is_new
}
