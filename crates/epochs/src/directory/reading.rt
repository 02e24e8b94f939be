// What is read stands in the page of an epoch: its root, its tree, and the versions that it shows. The book stays
// as it is. A look-up takes no memory: its reply is returned, or written into the room of the caller.
ghost use Rattle.std.specs.Prelude.{◌≡◌, ℕ, ◌+◌, ◌<◌, ◌≤◌, List, Some, IfSome, IsSome, MatchOption, MatchResult, is_none, length, option_and_then, option_map, slice_get, vec_len, vec_capacity, ◌++◌, ◌∷◌, []};
ghost use Rattle.std.specs.List.{AllZip};
ghost use Rattle.encoding.specs.Limits.{IsName};
ghost use Rattle.commands.specs.Operations.{History, Lookup, Promise as PromiseOf, Query};
ghost use Rattle.encoding.specs.declared.fixed_text.TheConstants.{PROOF_TEXT_ROOM};
ghost use Rattle.book.specs.declared.reply.Reply.TheVariants.{Found};
ghost use Rattle.proofs.specs.Views.{end_given};
ghost use Rattle.book.specs.Steps.{Told, bad_name, first};
ghost use Rattle.book.specs.declared.directory_refusal.Refusal.TheVariants.{NoSuchEpoch};
ghost use Rattle.book.specs.Books.{Page, page_at, pages};
ghost use Rattle.encoding.specs.Maps.{at};
ghost use Rattle.book.specs.Shows.{index_of as index_by, reply_end, IsRootOf};
ghost use Rattle.book.specs.Sound.{HoldsName};
ghost use Rattle.book.specs.Turns.{IsReadAnswer, IsRefused, ReadsOnly};
ghost use Rattle.epochs.specs.DirectoryStates.{book, provider, HasKeysOf};
ghost use Rattle.epochs.specs.Histories.{binding_at, opened_binding};
ghost use Rattle.epochs.specs.Replied.{found, promised};

use super::Directory;
use crate::address::Address;
use crate::history::Version;
use crate::names::Names;
use book::Refusal;
use encoding::{BoundKey, Hash32, Index, Name, ProofText};
use nodehash::NodeHash;
use prefixtree::End as PathEnd;
use proofs::{End, make, write_front};
use rand_core::Rng;
use rootchain::{MAX_ROOTS, SignedPromise, SignedRoot};
use sigiface::Signer;
use vrfiface::Vuf;

impl<H: NodeHash, V: Vuf, S: Signer, R: Rng> Directory<H, V, S, R> {
    /// The promise that waits for a name: the same bytes as when it was made.
    ///
    /// # Errors
    ///
    /// `BadName`, `NoPromise`: the first that applies.
    pub fn promise(&mut self, name: &[u8]) -> Result<SignedPromise, Refusal>
        ensures reads { ReadsOnly (provider H.digest_of V.value_of S.signature_of self.old) (book R.stream self.old) (Query (PromiseOf name.now)) (promised result) }
        ensures stays { book R.stream self.new ≡ book R.stream self.old }
        ensures keys { HasKeysOf self.old self.new }
        ensures work { self.new.digests ≡ self.old.digests }
    {
        let Ok(name) = Name::new(name) else {
            return Err(Refusal::BadName);
        };
        let Some((index, key)) = self.waiting(&name) else {
            return Err(Refusal::NoPromise);
        };
        Ok(self.promised(index, name, key))
    }

    /// The bytes of a reply to a look-up: what the page of an epoch has at a name. Epoch 0 asks for
    /// the latest.
    ///
    /// If the page lacks the name and another of its names has the same index, the reply ends with
    /// that name's leaf, and a checker refuses it.
    ///
    /// # Errors
    ///
    /// `BadName`, `NoSuchEpoch`: the first that applies.
    pub fn lookup(&mut self, name: &[u8], epoch: u64) -> Result<ProofText, Refusal>
        ensures reads { ReadsOnly (provider H.digest_of V.value_of S.signature_of self.old) (book R.stream self.old) (Query (Lookup name.now epoch)) (found result) }
        ensures stays { book R.stream self.new ≡ book R.stream self.old }
        ensures keys { HasKeysOf self.old self.new }
        ensures work { self.new.digests ≤ self.old.digests + 1 }
        ensures spared { HoldsName (book R.stream self.old) name.now → self.new.digests ≡ self.old.digests }
    {
        let page = self.page(epoch);
        let sought = match seek(&mut self.hash, &self.vuf, &self.names, name, page) {
            Ok(sought) => sought,
            Err(why) => return Err(why),
        };
        let path = self.trees[sought.page].path(&sought.address.index);
        let opening = sought.opening();
        Ok(make(
            &self.roots[sought.page].body,
            &sought.address.value,
            &end_of(path.end, sought.address.index, &opening),
            &path,
        ))
    }

    /// Appends the bytes of the reply that `lookup` returns, into room that is there. They go straight to
    /// their place, since a path and a text are values of 8 and 10 KB.
    ///
    /// # Errors
    ///
    /// Those of `lookup`, which append nothing.
    pub fn lookup_into(
        &mut self,
        name: &[u8],
        epoch: u64,
        output: &mut Vec<u8>,
    ) -> Result<(), Refusal>
        requires { vec_len output.old + PROOF_TEXT_ROOM ≤ vec_capacity output.old }
        ensures reads { MatchResult result
            (λ _. (text : List ℕ) × ReadsOnly (provider H.digest_of V.value_of S.signature_of self.old) (book R.stream self.old) (Query (Lookup name.now epoch)) (Found text)
            × (length text ≤ PROOF_TEXT_ROOM) × (output.new.items ≡ output.old.items ++ text))
            (λ why. IsRefused (provider H.digest_of V.value_of S.signature_of self.old) (book R.stream self.old) (Query (Lookup name.now epoch)) why
            × (output.new ≡ output.old)) }
        ensures stays { book R.stream self.new ≡ book R.stream self.old }
        ensures keys { HasKeysOf self.old self.new }
        ensures work { self.new.digests ≤ self.old.digests + 1 }
        ensures spared { HoldsName (book R.stream self.old) name.now → self.new.digests ≡ self.old.digests }
    {
        let page = self.page(epoch);
        let sought = match seek(&mut self.hash, &self.vuf, &self.names, name, page) {
            Ok(sought) => sought,
            Err(why) => return Err(why),
        };
        let tree = &self.trees[sought.page];
        let (level, end) = tree.path_end(&sought.address.index);
        let opening = sought.opening();
        write_front(
            output,
            &self.roots[sought.page].body,
            &sought.address.value,
            &end_of(end, sought.address.index, &opening),
            level,
        );
        tree.write_siblings(&sought.address.index, output);
        Ok(())
    }

    /// The first `count` roots of at least the epoch `from`, ascending; fewer, or none, only where
    /// there are no more.
    ///
    /// # Errors
    ///
    /// `BadRange` if `count` is 0 or above 64.
    pub fn history(&self, from: u64, count: u16) -> Result<&[SignedRoot], Refusal>
        ensures reads { MatchResult result
            (λ roots. (pages : List Page) × IsReadAnswer (provider H.digest_of V.value_of S.signature_of self.now) (book R.stream self.now) (Query (History from count)) (Told pages)
            × AllZip (IsRootOf (provider H.digest_of V.value_of S.signature_of self.now) (book R.stream self.now)) pages roots.now)
            (λ why. IsRefused (provider H.digest_of V.value_of S.signature_of self.now) (book R.stream self.now) (Query (History from count)) why) }
    {
        if count == 0 || MAX_ROOTS < count as usize {
            return Err(Refusal::BadRange);
        }
        let start = self.roots.partition_point(|root| root.body.epoch < from);
        let later = self.roots.split_at(start).1;
        let end = later.len().min(count as usize);
        Ok(later.split_at(end).0)
    }

    /// The index of a name, and the key that waits for it.
    fn waiting(&self, name: &Name) -> Option<(Index, BoundKey)>
        ensures key { option_map (λ found. found.1) result ≡ option_map (λ binding. binding.key) (at self.now.pending name.now) }
        ensures index { IfSome result (λ found. found.0 ≡ index_by (provider H.digest_of V.value_of S.signature_of self.now) name.now) }
    {
        let Some(history) = self.names.find(name.bytes()) else {
            return None;
        };
        match history.waiting(self.roots.len()) {
            Some(version) => Some((history.index(), version.key())),
            None => None,
        }
    }

    /// The place of the page of an epoch.
    fn page(&self, epoch: u64) -> Option<usize>
        ensures page { page_at (book R.stream self.now) epoch ≡ option_and_then (λ place. slice_get (pages (book R.stream self.now)) place) result }
        ensures within { IfSome result (λ place. place < length (pages (book R.stream self.now))) }
    {
        if epoch == 0 {
            return Some(self.roots.len() - 1);
        }
        match self
            .roots
            .binary_search_by_key(&epoch, |root| root.body.epoch)
        {
            Ok(place) => Some(place),
            Err(_) => None,
        }
    }
}

/// What a look-up finds: the place of the page, the address of the name, and what the page shows of it.
#[derive(Drop)]
struct Sought<'a> {
    page: usize,
    address: Address,
    shown: Option<&'a Version>,
}

/// What opens the leaf of a name.
#[derive(Drop)]
struct Opening {
    salt: Hash32,
    key: BoundKey,
}

impl Sought<'_> {
    /// What opens the leaf of the name, where the page has it.
    fn opening(&self) -> Option<Opening>
        ensures { option_map opened_binding result ≡ option_map (λ version. version.now.binding) self.now.shown }
    {
        match self.shown {
            Some(version) => Some(Opening {
                salt: version.salt(),
                key: version.key(),
            }),
            None => None,
        }
    }
}

/// Looks a name up in the page at this place.
fn seek<'a, H: NodeHash, V: Vuf>(
    hash: &mut H,
    vuf: &V,
    names: &'a Names,
    name: &[u8],
    page: Option<usize>,
) -> Result<Sought<'a>, Refusal>
    ensures found { MatchResult result
        (λ sought. IsName name.now × (page ≡ Some sought.page)
        × MatchOption (at names.entry.now.addresses name.now)
        (let value = V.value_of (V.public_key vuf.now) name.now in sought.address ≡ record { value = value; index = H.digest_of value })
        (λ address. sought.address ≡ address)
        × (option_map (λ version. version.now.binding) sought.shown ≡ option_and_then (binding_at sought.page) (at names.entry.now.versions name.now)))
        (λ why. first (bad_name name.now ∷ (is_none page, NoSuchEpoch) ∷ []) ≡ Some why) }
    ensures work { H.digests hash.new ≤ H.digests hash.old + 1 }
    ensures spared { IsSome (at names.entry.now.versions name.now) → hash.new ≡ hash.old }
{
    let Ok(name) = Name::new(name) else {
        return Err(Refusal::BadName);
    };
    let Some(page) = page else {
        return Err(Refusal::NoSuchEpoch);
    };
    let (address, shown) = names.look_up(hash, vuf, &name, page);
    Ok(Sought {
        page,
        address,
        shown,
    })
}

/// The end of a path to this index. Without an opening, a leaf of the index is another name's.
fn end_of<'a>(end: PathEnd, index: Index, opening: &'a Option<Opening>) -> End<'a>
    ensures { end_given result ≡ reply_end index (option_map opened_binding opening.entry.now) end }
{
    match opening {
        Some(opening) => match end {
            PathEnd::Present(_) => End::Present {
                salt: opening.salt,
                key: &opening.key,
            },
            PathEnd::Empty => End::Empty,
            PathEnd::Other(index, commitment) => End::Other { index, commitment },
        },
        None => match end {
            PathEnd::Present(commitment) => End::Other { index, commitment },
            PathEnd::Empty => End::Empty,
            PathEnd::Other(index, commitment) => End::Other { index, commitment },
        },
    }
}
