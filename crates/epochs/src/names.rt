// Each name has a history: the keys that it was given, by the page that each begins at. A change adds to the end
// of a history, and nothing is ever taken away. A name is searched for once in each operation.
ghost use Rattle.std.specs.Prelude.{◌≡◌, ◌+◌, ◌<◌, ◌≤◌, [], IsSome, MatchOption, MatchResult, option_and_then};
ghost use Rattle.std.specs.Option.{option_map};
ghost use Rattle.commit.specs.Commitments.{commitment_bytes};
ghost use Rattle.encoding.specs.Maps.{at};
ghost use Rattle.book.specs.Turns.{IsUnkept};
ghost use Rattle.epochs.specs.Addresses.{named, with_name};
ghost use Rattle.epochs.specs.Histories.{binding_at};
ghost use Rattle.epochs.specs.KeyChanges.{AreChangedNames, FitsNames, IsRefusedSo, refused_before};
ghost use Rattle.epochs.specs.Versions.{AllBefore, AreHistories, in_order, versions_of};

use crate::address::Address;
use crate::foreseen::Foreseen;
use crate::history::{History, Version};
use crate::key_change::{KeyChange, change_at};
use crate::seeded::Seeded;
use book::{Keeper, Record, Refusal};
use encoding::{Hash32, Index, Name};
use nodehash::NodeHash;
use std::alloc::{AllocError, Global};
use std::collections::HashMap;
use std::collections::hash_map::Entry;
use std::marker::Model;
use vrfiface::Vuf;

/// Names with their histories.
#[derive(Drop)]
pub(crate) struct Names {
    alloc: Global,
    histories: HashMap<Vec<u8>, History, Seeded>,
}

impl Model for Names {
    ghost use Rattle.epochs.specs.Addresses.{named, NamesContent};
    ghost use Rattle.epochs.specs.Versions.{AreHistories};

    ghost Value = { NamesContent };

    ghost view = { λ names. named (λ key. key.items) names.histories.entries };

    ghost invariant = { λ names. AreHistories (named (λ key. key.items) names.histories.entries).versions };
}

impl Names {
    /// No names. They are hashed by these hashers.
    pub(crate) fn new(alloc: Global, hashers: Seeded) -> Names
        ensures { result ≡ record { versions = []; addresses = [] } }
    {
        Names {
            alloc,
            histories: HashMap::with_hasher(alloc, hashers),
        }
    }

    /// How many names there are.
    pub(crate) fn count(&self) -> usize {
        self.histories.len()
    }

    /// The history of a name.
    pub(crate) fn find(&self, name: &[u8]) -> Option<&History>
        ensures versions { option_map (λ history. history.now.versions) result ≡ at self.now.versions name.now }
        ensures address { option_map (λ history. history.now.address) result ≡ at self.now.addresses name.now }
        ensures sound { AreHistories self.now.versions }
    {
        self.histories.get(name)
    }

    /// The address of a name, and what a page shows of it. Takes one digest, or none where the name has
    /// a history.
    pub(crate) fn look_up<H: NodeHash, V: Vuf>(
        &self,
        hash: &mut H,
        vuf: &V,
        name: &Name,
        page: usize,
    ) -> (Address, Option<&Version>)
        ensures address { MatchOption (at self.now.addresses name.now)
            (let value = V.value_of (V.public_key vuf.now) name.now in result.0 ≡ record { value = value; index = H.digest_of value })
            (λ address. result.0 ≡ address) }
        ensures shown { option_map (λ version. version.now.binding) result.1 ≡ option_and_then (binding_at page) (at self.now.versions name.now) }
        ensures work { H.digests hash.new ≤ H.digests hash.old + 1 }
        ensures spared { IsSome (at self.now.versions name.now) → hash.new ≡ hash.old }
    {
        match self.find(name.bytes()) {
            Some(history) => (history.address(), history.shown(page)),
            None => (Address::computed(hash, vuf, name), None),
        }
    }

    /// Adds a version of a name after its others, once its record is kept. A name that is new is put
    /// at this address; one that is there has its own.
    ///
    /// # Errors
    ///
    /// `Memory` if memory runs out, and `KeepFailed` if the record was not kept. The names then
    /// stay as they were.
    pub(crate) fn add<K: Keeper>(
        &mut self,
        keeper: &mut K,
        what: &Record,
        name: &Name,
        address: &Address,
        version: Version,
    ) -> Result<(), Refusal>
        requires later { AllBefore version.number (versions_of self.old.versions name.now) }
        ensures { MatchResult result
            (λ _. K.kept keeper.old what.now keeper.new × (self.new ≡ with_name self.old name.now address.now version))
            (λ why. (self.new ≡ self.old) × IsUnkept K.failed keeper.old what.now why keeper.new) }
    {
        add_to_new(
            self.alloc,
            &mut self.histories,
            keeper,
            what,
            name,
            address,
            version,
        )
    }

    /// Adds a version of the change's page to a name that has others, and its commitment to these, once the record is
    /// kept. Gives the index of the name, which is searched for once. Takes at most one digest.
    ///
    /// # Errors
    ///
    /// `NoSuchName`, `FinalBinding`, `PendingExists`, `Memory`, `KeepFailed`: the first that applies. All then stays
    /// as it was.
    pub(crate) fn change<H: NodeHash, K: Keeper>(
        &mut self,
        commitments: &mut HashMap<Index, Hash32, Seeded>,
        foreseen: &mut Foreseen<H>,
        hash: &mut H,
        keeper: &mut K,
        what: &Record,
        change: &KeyChange<'_>,
    ) -> Result<Index, Refusal>
        requires begun { 0 < change.now.page }
        requires fits { FitsNames self.old (in_order commitments.old.entries) change.now.name.now change.now.page }
        ensures made { MatchResult result
            (λ index. K.kept keeper.old what.now keeper.new
            × AreChangedNames self.old (in_order commitments.old.entries) change.now.name.now (record { number = change.now.page; binding = record { key = change.now.key.now; salt = change.now.salt } })
            (H.digest_of (commitment_bytes change.now.salt change.now.name.now change.now.key.now)) index self.new (in_order commitments.new.entries))
            (λ why. (self.new ≡ self.old) × (in_order commitments.new.entries ≡ in_order commitments.old.entries)
            × IsRefusedSo K.failed keeper.old what.now (refused_before change.now.page (versions_of self.old.versions change.now.name.now)) why keeper.new) }
        ensures work { H.digests hash.new ≤ H.digests hash.old + 1 }
    {
        change_held(
            self.alloc,
            &mut self.histories,
            commitments,
            foreseen,
            hash,
            keeper,
            what,
            change,
        )
    }
}

// Adds a version of a name that has others, and its commitment to these. It takes the fields, so that its early
// returns owe nothing of the invariant of `Names`.
fn change_held<H: NodeHash, K: Keeper>(
    alloc: Global,
    histories: &mut HashMap<Vec<u8>, History, Seeded>,
    commitments: &mut HashMap<Index, Hash32, Seeded>,
    foreseen: &mut Foreseen<H>,
    hash: &mut H,
    keeper: &mut K,
    what: &Record,
    change: &KeyChange<'_>,
) -> Result<Index, Refusal>
    requires begun { 0 < change.now.page }
    requires fits { FitsNames (named (λ key. key.items) histories.old.entries) (in_order commitments.old.entries) change.now.name.now change.now.page }
    ensures made { MatchResult result
        (λ index. K.kept keeper.old what.now keeper.new
        × AreChangedNames (named (λ key. key.items) histories.old.entries) (in_order commitments.old.entries) change.now.name.now (record { number = change.now.page; binding = record { key = change.now.key.now; salt = change.now.salt } })
        (H.digest_of (commitment_bytes change.now.salt change.now.name.now change.now.key.now)) index (named (λ key. key.items) histories.new.entries) (in_order commitments.new.entries))
        (λ why. (named (λ key. key.items) histories.new.entries ≡ named (λ key. key.items) histories.old.entries) × (in_order commitments.new.entries ≡ in_order commitments.old.entries)
        × IsRefusedSo K.failed keeper.old what.now (refused_before change.now.page (versions_of (named (λ key. key.items) histories.old.entries).versions change.now.name.now)) why keeper.new) }
    ensures work { H.digests hash.new ≤ H.digests hash.old + 1 }
{
    match histories.get_mut(change.name.bytes()) {
        Some(history) => change_at(
            alloc,
            history,
            commitments,
            foreseen,
            hash,
            keeper,
            what,
            change,
        ),
        None => Err(Refusal::NoSuchName),
    }
}

// Adds a version of a name that most likely is new: it is searched for once.
fn add_to_new<K: Keeper>(
    alloc: Global,
    histories: &mut HashMap<Vec<u8>, History, Seeded>,
    keeper: &mut K,
    what: &Record,
    name: &Name,
    address: &Address,
    version: Version,
) -> Result<(), Refusal>
    requires later { AllBefore version.number (versions_of (named (λ key. key.items) histories.old.entries).versions name.now) }
    ensures { MatchResult result
        (λ _. K.kept keeper.old what.now keeper.new × (named (λ key. key.items) histories.new.entries ≡ with_name (named (λ key. key.items) histories.old.entries) name.now address.now version))
        (λ why. (named (λ key. key.items) histories.new.entries ≡ named (λ key. key.items) histories.old.entries) × IsUnkept K.failed keeper.old what.now why keeper.new) }
{
    let value = Vec::from_slice(alloc, address.value.bytes())?;
    let mut versions = Vec::with_capacity(alloc, 1)?;
    match histories.entry(Vec::from_slice(alloc, name.bytes())?)? {
        Entry::Occupied(place) => place.into_mut().add(keeper, what, version),
        Entry::Vacant(place) => {
            versions.push_reserved(version);
            let history = History::new(value, address.index, versions);
            match keeper.keep(what) {
                Ok(()) => {
                    place.insert(history);
                    Ok(())
                }
                Err(_) => {
                    // What this ensures: the map is as it was.
                    let _ = place.into_key();
                    Err(Refusal::KeepFailed)
                }
            }
        }
    }
}
