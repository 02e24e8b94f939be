// What waits for the next page is a map from index to commitment. A closing lists it in the order of indices, and
// hands it to the tree as one change; then the map falls, and its memory is given back.
ghost use Rattle.std.specs.Prelude.{◌≡◌, ◌+◌, ◌<◌, ◌≤◌, [], None, IfOk, MatchResult, is_some};
ghost use Rattle.commit.specs.Commitments.{commitment_bytes};
ghost use Rattle.prefixtree.specs.Placement.{HasDistinctIndices, commitment_of, put};
ghost use Rattle.book.specs.Turns.{IsUnkept};
ghost use Rattle.epochs.specs.Addresses.{with_name};
ghost use Rattle.epochs.specs.KeyChanges.{AreChangedNames, FitsNames, IsRefusedSo, refused_before};
ghost use Rattle.epochs.specs.Versions.{AllBefore, in_order, versions_of};

use crate::address::Address;
use crate::foreseen::Foreseen;
use crate::history::Version;
use crate::key_change::KeyChange;
use crate::names::Names;
use crate::seeded::Seeded;
use book::{Keeper, Record, Refusal};
use encoding::{Hash32, Index, Name};
use nodehash::NodeHash;
use prefixtree::{Item, placed_within};
use std::alloc::{AllocError, Global};
use std::collections::HashMap;
use std::collections::hash_map::Entry;
use std::marker::Model;

/// An index and a commitment for each operation that waits for the next page.
#[derive(Drop)]
pub(crate) struct Waiting {
    alloc: Global,
    commitments: HashMap<Index, Hash32, Seeded>,
}

impl Model for Waiting {
    ghost use Rattle.prefixtree.specs.Placement.{Items};
    ghost use Rattle.epochs.specs.Versions.{in_order};

    ghost Value = { Items };

    ghost view = { λ waiting. in_order waiting.commitments.entries };
}

impl Waiting {
    /// Nothing that waits. Indices are hashed by these hashers.
    pub(crate) fn new(alloc: Global, hashers: Seeded) -> Waiting
        ensures { result ≡ [] }
    {
        Waiting {
            alloc,
            commitments: HashMap::with_hasher(alloc, hashers),
        }
    }

    /// How many operations wait.
    pub(crate) fn count(&self) -> usize {
        self.commitments.len()
    }

    /// Whether something waits at this index.
    pub(crate) fn contains(&self, index: &Index) -> bool
        ensures { result ≡ is_some (commitment_of self.now index.now) }
    {
        self.commitments.contains_key(index)
    }

    /// The indices and their commitments, in order.
    pub(crate) fn items(&self) -> Result<Vec<Item>, AllocError>
        ensures { IfOk result (λ items. items.items ≡ self.now) }
    {
        let entries = listed(self.alloc, &self.commitments)?;
        match placed_within(entries) {
            Some(items) => Ok(items),
            None => unreachable!(),
        }
    }

    /// Takes all out, and gives their memory back.
    pub(crate) fn clear(&mut self)
        ensures { self.new ≡ [] }
    {
        let hashers = *self.commitments.hasher();
        self.commitments = HashMap::with_hasher(self.alloc, hashers);
    }
}

/// Adds a version to a name, and its commitment to what waits, once the record is kept.
pub(crate) fn let_wait<K: Keeper>(
    names: &mut Names,
    waiting: &mut Waiting,
    keeper: &mut K,
    what: &Record,
    name: &Name,
    address: &Address,
    version: Version,
    commitment: Hash32,
) -> Result<(), Refusal>
    requires later { AllBefore version.number (versions_of names.old.versions name.now) }
    requires free { commitment_of waiting.old (address.now).index ≡ None }
    ensures { MatchResult result
        (λ _. K.kept keeper.old what.now keeper.new
        × (names.new ≡ with_name names.old name.now address.now version)
        × (waiting.new ≡ put waiting.old (address.now).index commitment))
        (λ why. (names.new ≡ names.old) × (waiting.new ≡ waiting.old) × IsUnkept K.failed keeper.old what.now why keeper.new) }
{
    add(
        names,
        &mut waiting.commitments,
        keeper,
        what,
        name,
        address,
        version,
        commitment,
    )
}

/// Adds a version of the change's page to a name that has others, and its commitment to what waits, once the record
/// is kept. Gives the index of the name. Takes at most one digest.
pub(crate) fn let_change_wait<H: NodeHash, K: Keeper>(
    names: &mut Names,
    waiting: &mut Waiting,
    foreseen: &mut Foreseen<H>,
    hash: &mut H,
    keeper: &mut K,
    what: &Record,
    change: &KeyChange<'_>,
) -> Result<Index, Refusal>
    requires begun { 0 < change.now.page }
    requires fits { FitsNames names.old waiting.old change.now.name.now change.now.page }
    ensures made { MatchResult result
        (λ index. K.kept keeper.old what.now keeper.new
        × AreChangedNames names.old waiting.old change.now.name.now (record { number = change.now.page; binding = record { key = change.now.key.now; salt = change.now.salt } })
        (H.digest_of (commitment_bytes change.now.salt change.now.name.now change.now.key.now)) index names.new waiting.new)
        (λ why. (names.new ≡ names.old) × (waiting.new ≡ waiting.old)
        × IsRefusedSo K.failed keeper.old what.now (refused_before change.now.page (versions_of names.old.versions change.now.name.now)) why keeper.new) }
    ensures work { H.digests hash.new ≤ H.digests hash.old + 1 }
{
    names.change(
        &mut waiting.commitments,
        foreseen,
        hash,
        keeper,
        what,
        change,
    )
}

// It takes the fields, so that its early returns owe nothing of the invariant of `Waiting`.
fn add<K: Keeper>(
    names: &mut Names,
    commitments: &mut HashMap<Index, Hash32, Seeded>,
    keeper: &mut K,
    what: &Record,
    name: &Name,
    address: &Address,
    version: Version,
    commitment: Hash32,
) -> Result<(), Refusal>
    requires later { AllBefore version.number (versions_of names.old.versions name.now) }
    requires free { commitment_of (in_order commitments.old.entries) (address.now).index ≡ None }
    ensures { MatchResult result
        (λ _. K.kept keeper.old what.now keeper.new
        × (names.new ≡ with_name names.old name.now address.now version)
        × (in_order commitments.new.entries ≡ put (in_order commitments.old.entries) (address.now).index commitment))
        (λ why. (names.new ≡ names.old) × (in_order commitments.new.entries ≡ in_order commitments.old.entries) × IsUnkept K.failed keeper.old what.now why keeper.new) }
{
    match commitments.entry(address.index)? {
        Entry::Vacant(place) => match names.add(keeper, what, name, address, version) {
            Ok(()) => {
                place.insert(commitment);
                Ok(())
            }
            Err(why) => {
                // What this ensures: the map is as it was.
                let _ = place.into_key();
                Err(why)
            }
        },
        Entry::Occupied(_) => unreachable!(),
    }
}

/// The entries of a map, in any order.
fn listed(
    alloc: Global,
    commitments: &HashMap<Index, Hash32, Seeded>,
) -> Result<Vec<Item>, AllocError>
    ensures entries { IfOk result (λ items. items.items ≡ commitments.now.entries) }
    ensures distinct { HasDistinctIndices commitments.now.entries }
{
    let mut items = Vec::with_capacity(alloc, commitments.len())?;
    for (index, commitment) in commitments {
        items.push((*index, *commitment))?;
    }
    Ok(items)
}
