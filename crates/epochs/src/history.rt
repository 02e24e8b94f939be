// A history is a list of versions whose first pages ascend. A page shows the last version that begins at it or
// before it, which is found by halving. The index of the name and its value are kept beside, so that no look-up
// computes them.
ghost use Rattle.std.specs.Prelude.{◌≡◌, ◌<◌, ◌≤◌, ◌++◌, ◌∷◌, [], length, IfOk, MatchResult};
ghost use Rattle.std.specs.List.Sorted.{IsPartitionPoint};
ghost use Rattle.std.specs.Option.{option_map};
ghost use Rattle.encoding.specs.Limits.{IsSmall};
ghost use Rattle.encoding.specs.Policies.{is_final};
ghost use Rattle.book.specs.Turns.{IsUnkept};
ghost use Rattle.epochs.specs.Histories.{binding_at, waiting};
ghost use Rattle.epochs.specs.Versions.{AllBefore, Ascends};

use crate::address::Address;
use book::{Keeper, Record, Refusal};
use encoding::{BoundKey, Hash32, Index, KeyData, Policy, Small};
use std::alloc::{AllocError, Global};
use std::marker::Model;

/// A key that is bound to a name from one page on.
#[derive(Drop)]
pub(crate) struct Version {
    first_page: usize,
    key: Vec<u8>,
    policy: Option<Policy>,
    salt: Hash32,
}

impl Model for Version {
    ghost use Rattle.encoding.specs.Limits.{IsKeyData};
    ghost use Rattle.epochs.specs.Histories as histories;

    ghost Value = { histories.Version };

    ghost view = { λ version. record { number = version.first_page; binding = record { key = record { value = version.key.items; policy = version.policy }; salt = version.salt } } };

    ghost invariant = { λ version. IsKeyData version.key.items };
}

impl Version {
    /// A version of this key, with memory of its own for it.
    pub(crate) fn new(
        alloc: Global,
        first_page: usize,
        key: &BoundKey,
        salt: Hash32,
    ) -> Result<Version, AllocError>
        ensures { IfOk result (λ version. version ≡ record { number = first_page; binding = record { key = key.now; salt = salt } }) }
    {
        Ok(Version {
            first_page,
            key: Vec::from_slice(alloc, key.bytes())?,
            policy: key.policy,
            salt,
        })
    }

    /// The number of the first page that shows it.
    pub(crate) fn first_page(&self) -> usize
        ensures { result ≡ self.now.number }
    {
        self.first_page
    }

    /// The key.
    pub(crate) fn key(&self) -> BoundKey
        ensures { result ≡ self.now.binding.key }
    {
        match KeyData::new(self.key.as_slice()) {
            Ok(value) => BoundKey {
                value,
                policy: self.policy,
            },
            Err(_) => unreachable!(),
        }
    }

    /// Whether the key is never changed.
    pub(crate) fn is_final(&self) -> bool
        ensures { result ≡ is_final self.now.binding.key.policy }
    {
        match self.policy {
            Some(Policy::Final) => true,
            Some(Policy::Open) => false,
            None => false,
        }
    }

    /// The salt of the commitment.
    pub(crate) fn salt(&self) -> Hash32
        ensures { result ≡ self.now.binding.salt }
    {
        self.salt
    }
}

/// The versions of one name, ascending by their first pages, behind the name's address.
#[derive(Drop)]
pub(crate) struct History {
    /// The value of the address, in its own length.
    value: Vec<u8>,
    index: Index,
    versions: Vec<Version>,
}

impl Model for History {
    ghost use Rattle.encoding.specs.Limits.{IsSmall};
    ghost use Rattle.epochs.specs.Addresses.{HistoryContent};
    ghost use Rattle.epochs.specs.Versions.{Ascends};

    ghost Value = { HistoryContent };

    ghost view = { λ history. record { address = record { value = history.value.items; index = history.index }; versions = history.versions.items } };

    ghost invariant = { λ history. IsSmall history.value.items × Ascends history.versions.items };
}

impl History {
    /// The history of a name at this index, whose value has these bytes.
    pub(crate) fn new(value: Vec<u8>, index: Index, versions: Vec<Version>) -> History
        requires small { IsSmall value.items }
        requires ascend { Ascends versions.items }
        ensures { result ≡ record { address = record { value = value.items; index = index }; versions = versions.items } }
    {
        History {
            value,
            index,
            versions,
        }
    }

    /// The address of the name.
    pub(crate) fn address(&self) -> Address
        ensures { result ≡ self.now.address }
    {
        match Small::new(self.value.as_slice()) {
            Ok(value) => Address {
                value,
                index: self.index,
            },
            Err(_) => unreachable!(),
        }
    }

    /// The index of the name.
    pub(crate) fn index(&self) -> Index
        ensures { result ≡ self.now.address.index }
    {
        self.index
    }

    /// What a page shows: the last version whose first page is at most this one.
    pub(crate) fn shown(&self, page: usize) -> Option<&Version>
        ensures { option_map (λ version. version.now.binding) result ≡ binding_at page self.now.versions }
    {
        let place = self.place_after(page);
        if place == 0 {
            return None;
        }
        Some(&self.versions[place - 1])
    }

    /// The version that waits for a page.
    pub(crate) fn waiting(&self, page: usize) -> Option<&Version>
        ensures { option_map (λ version. version.now.binding) result ≡ waiting page self.now.versions }
    {
        let place = self.place_after(page);
        if place == 0 {
            return None;
        }
        let version = &self.versions[place - 1];
        if version.first_page() != page {
            return None;
        }
        Some(version)
    }

    // How many versions are of this page or earlier ones.
    fn place_after(&self, page: usize) -> usize
        ensures bound { result ≤ length self.now.versions }
        ensures place { IsPartitionPoint (λ version. version.number ≤ page) (λ version. page < version.number) self.now.versions result }
    {
        self.versions
            .partition_point(|version| version.first_page() <= page)
    }

    /// Adds a version after the others, once its record is kept.
    ///
    /// # Errors
    ///
    /// `Memory` if memory runs out, and `KeepFailed` if the record was not kept. The history then
    /// stays as it was.
    pub(crate) fn add<K: Keeper>(
        &mut self,
        keeper: &mut K,
        what: &Record,
        version: Version,
    ) -> Result<(), Refusal>
        requires later { AllBefore version.number self.old.versions }
        ensures { MatchResult result
            (λ _. K.kept keeper.old what.now keeper.new × (self.new ≡ record self.old { versions = self.old.versions ++ version ∷ [] }))
            (λ why. (self.new ≡ self.old) × IsUnkept K.failed keeper.old what.now why keeper.new) }
    {
        self.versions.reserve(1)?;
        keeper.keep(what)?;
        self.versions.push_reserved(version);
        Ok(())
    }
}
