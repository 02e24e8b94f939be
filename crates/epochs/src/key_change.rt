//! A change of the key of a name that has a history.
ghost use Rattle.std.specs.Prelude.{◌≡◌, ◌+◌, ◌<◌, ◌≤◌, ◌++◌, ◌∷◌, [], None, MatchResult, Some};
ghost use Rattle.book.specs.Turns.{IsUnkept};
ghost use Rattle.commit.specs.Commitments.{commitment_bytes};
ghost use Rattle.prefixtree.specs.Placement.{commitment_of, put};
ghost use Rattle.epochs.specs.KeyChanges.{FitsHistory, IsChangedHistory, IsRefusedSo, refused_before};
ghost use Rattle.epochs.specs.Versions.{AllBefore, in_order};

use crate::foreseen::Foreseen;
use crate::history::{History, Version};
use crate::seeded::Seeded;
use book::{Keeper, Record, Refusal};
use encoding::{BoundKey, Hash32, Index, Name};
use nodehash::NodeHash;
use std::alloc::Global;
use std::collections::HashMap;
use std::collections::hash_map::Entry;

/// Another key for a name, under this salt, from this page on.
#[derive(Clone, Copy)]
pub(crate) struct KeyChange<'a> {
    pub(crate) name: &'a Name,
    pub(crate) key: &'a BoundKey,
    pub(crate) salt: Hash32,
    pub(crate) page: usize,
}

/// Adds a version of the change's page to a history, and its commitment to what waits, once the record is kept. Gives
/// the index of the name. Takes at most one digest.
///
/// # Errors
///
/// `NoSuchName`, `FinalBinding`, `PendingExists`, `Memory`, `KeepFailed`: the first that applies. All then stays
/// as it was.
pub(crate) fn change_at<H: NodeHash, K: Keeper>(
    alloc: Global,
    history: &mut History,
    commitments: &mut HashMap<Index, Hash32, Seeded>,
    foreseen: &mut Foreseen<H>,
    hash: &mut H,
    keeper: &mut K,
    what: &Record,
    change: &KeyChange<'_>,
) -> Result<Index, Refusal>
    requires begun { 0 < change.now.page }
    requires fits { FitsHistory history.old (in_order commitments.old.entries) change.now.page }
    ensures made { MatchResult result
        (λ index. K.kept keeper.old what.now keeper.new
        × IsChangedHistory history.old (in_order commitments.old.entries) (record { number = change.now.page; binding = record { key = change.now.key.now; salt = change.now.salt } })
        (H.digest_of (commitment_bytes change.now.salt change.now.name.now change.now.key.now)) index history.new (in_order commitments.new.entries))
        (λ why. (history.new ≡ history.old) × (in_order commitments.new.entries ≡ in_order commitments.old.entries)
        × IsRefusedSo K.failed keeper.old what.now (refused_before change.now.page history.old.versions) why keeper.new) }
    ensures work { H.digests hash.new ≤ H.digests hash.old + 1 }
{
    match may_change(history, change.page) {
        Ok(()) => {}
        Err(why) => return Err(why),
    }
    let commitment = foreseen.commit(hash, &change.salt, change.name, change.key);
    let version = Version::new(alloc, change.page, change.key, change.salt)?;
    add_at(history, commitments, keeper, what, version, commitment)
}

// Whether the page before this one shows a version that is not final, and none waits for this one.
fn may_change(history: &History, page: usize) -> Result<(), Refusal>
    requires { 0 < page }
    ensures { MatchResult result (λ _. refused_before page history.now.versions ≡ None) (λ why. refused_before page history.now.versions ≡ Some why) }
{
    let Some(shown) = history.shown(page - 1) else {
        return Err(Refusal::NoSuchName);
    };
    if shown.is_final() {
        return Err(Refusal::FinalBinding);
    }
    if history.waiting(page).is_some() {
        return Err(Refusal::PendingExists);
    }
    Ok(())
}

// Adds a version to a history, and its commitment to what waits, once the record is kept.
fn add_at<K: Keeper>(
    history: &mut History,
    commitments: &mut HashMap<Index, Hash32, Seeded>,
    keeper: &mut K,
    what: &Record,
    version: Version,
    commitment: Hash32,
) -> Result<Index, Refusal>
    requires later { AllBefore version.number history.old.versions }
    requires free { commitment_of (in_order commitments.old.entries) history.old.address.index ≡ None }
    ensures { MatchResult result
        (λ index. K.kept keeper.old what.now keeper.new
        × (index ≡ history.old.address.index)
        × (history.new ≡ record history.old { versions = history.old.versions ++ version ∷ [] })
        × (in_order commitments.new.entries ≡ put (in_order commitments.old.entries) index commitment))
        (λ why. (history.new ≡ history.old) × (in_order commitments.new.entries ≡ in_order commitments.old.entries) × IsUnkept K.failed keeper.old what.now why keeper.new) }
{
    let index = history.index();
    match commitments.entry(index)? {
        Entry::Vacant(place) => match history.add(keeper, what, version) {
            Ok(()) => {
                place.insert(commitment);
                Ok(index)
            }
            Err(why) => {
                // What this ensures: the map is as it was.
                let _ = place.into_key();
                Err(why)
            }
        },
        Entry::Occupied(_) => unreachable!(),
    }
}
