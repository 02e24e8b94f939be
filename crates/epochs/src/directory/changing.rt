//! Registrations, changes, closings and rotations. Each is tested, then takes all its memory, then its record
//! is kept, and only then is the change made, which needs no memory and cannot fail. So a refused call leaves
//! the directory as it was.
ghost use Rattle.std.specs.Prelude.{◌≡◌, ℕ, ◌+◌, ◌<◌, ◌≤◌, ◌++◌, ◌∷◌, [], false, Bool, List, None, IfOk, IfSome, IsSome, MatchResult, Ok, Some, is_some, unwrap_or};
ghost use Rattle.encoding.specs.Bytes.{Is32Bytes};
ghost use Rattle.encoding.specs.Limits.{IsKeyData, IsName};
ghost use Rattle.commands.specs.Operations as asks;
ghost use Rattle.commands.specs.Operations.{bound_key, Edit, Put};
ghost use Rattle.commands.specs.declared.edit.Verb.TheVariants.{Change, Register};
ghost use Rattle.nodehash.specs.Digests.{one_more};
ghost use Rattle.prefixtree.specs.Changes.{made_count};
ghost use Rattle.prefixtree.specs.Node.{node_count};
ghost use Rattle.prefixtree.specs.Placement.{put_all, IsPlacement};
ghost use Rattle.book.specs.declared.record.Record.TheVariants as kept_as;
ghost use Rattle.book.specs.declared.directory_refusal.Refusal.{Refusal as RefusalOf};
ghost use Rattle.book.specs.Steps.{bad_key, bad_policy, first, is_final_binding, next_page, with_page, with_pending, Last, Promised};
ghost use Rattle.encoding.specs.Maps.{at, overwritten};
ghost use Rattle.book.specs.Replays.{put_refusal, with_bound};
ghost use Rattle.book.specs.Shows.{index_of as index_by, placement};
ghost use Rattle.book.specs.Sound.{HoldsName};
ghost use Rattle.book.specs.Turns.{IsUnkept, Shows, Turn};
ghost use Rattle.epochs.specs.Addresses.{address_of};
ghost use Rattle.epochs.specs.DirectoryStates.{book, provider, DirectoryState, HasKeysOf};
ghost use Rattle.epochs.specs.KeyChanges.{IsRefusedSo};
ghost use Rattle.epochs.specs.Replayed.{changed_digests, tree_digests};
ghost use Rattle.epochs.specs.Replied.{last, promised};

use super::Directory;
use crate::address::Address;
use crate::history::Version;
use crate::key_change::KeyChange;
use crate::signing::{hash_of, next_salt, signed_promise, signed_root};
use crate::waiting::{let_change_wait, let_wait};
use book::{Keeper, Record, Refusal};
use commands::Verb;
use encoding::{BoundKey, Hash32, Index, KeyData, Name, Policy};
use nodehash::NodeHash;
use prefixtree::{Item, Tree};
use rand_core::Rng;
use rootchain::{Body, Promise, SignedPromise, SignedRoot};
use sigiface::Signer;
use std::alloc::{AllocError, Global};
use vrfiface::Vuf;

impl<H: NodeHash, V: Vuf, S: Signer, R: Rng> Directory<H, V, S, R> {
    /// Promises to bind a key to a name that has none, from the next epoch on.
    ///
    /// # Errors
    ///
    /// `BadName`, `BadKey`, `NameTaken`, `PendingExists`, `IndexTaken`, `Memory`, `KeepFailed`: the
    /// first that applies.
    pub fn register<K: Keeper>(
        &mut self,
        keeper: &mut K,
        name: &[u8],
        key: &[u8],
    ) -> Result<SignedPromise, Refusal>
        ensures turn { Turn (provider H.digest_of V.value_of S.signature_of self.old) K.kept K.failed (book R.stream self.old) keeper.old
            (Edit (Put Register name.now (key.now, None))) (promised result) (book R.stream self.new) keeper.new }
        ensures keys { HasKeysOf self.old self.new }
        ensures work { self.new.digests ≤ self.old.digests + 2 }
    {
        self.register_with(keeper, name, key, None)
    }

    /// Promises as `register` does, with the policy of this byte.
    ///
    /// # Errors
    ///
    /// `BadName`, `BadKey`, `BadPolicy`, `NameTaken`, `PendingExists`, `IndexTaken`, `Memory`,
    /// `KeepFailed`: the first that applies.
    pub fn register2<K: Keeper>(
        &mut self,
        keeper: &mut K,
        name: &[u8],
        key: &[u8],
        policy: u8,
    ) -> Result<SignedPromise, Refusal>
        ensures turn { Turn (provider H.digest_of V.value_of S.signature_of self.old) K.kept K.failed (book R.stream self.old) keeper.old
            (Edit (Put Register name.now (key.now, Some policy))) (promised result) (book R.stream self.new) keeper.new }
        ensures keys { HasKeysOf self.old self.new }
        ensures work { self.new.digests ≤ self.old.digests + 2 }
    {
        self.register_with(keeper, name, key, Some(policy))
    }

    /// Promises to bind another key to a name, from the next epoch on.
    ///
    /// # Errors
    ///
    /// `BadName`, `BadKey`, `NoSuchName`, `FinalBinding`, `PendingExists`, `Memory`, `KeepFailed`: the
    /// first that applies.
    pub fn change<K: Keeper>(
        &mut self,
        keeper: &mut K,
        name: &[u8],
        key: &[u8],
    ) -> Result<SignedPromise, Refusal>
        ensures turn { Turn (provider H.digest_of V.value_of S.signature_of self.old) K.kept K.failed (book R.stream self.old) keeper.old
            (Edit (Put Change name.now (key.now, None))) (promised result) (book R.stream self.new) keeper.new }
        ensures keys { HasKeysOf self.old self.new }
        ensures work { self.new.digests ≤ self.old.digests + 1 }
    {
        self.change_with(keeper, name, key, None)
    }

    /// Promises as `change` does, with the policy of this byte.
    ///
    /// # Errors
    ///
    /// `BadName`, `BadKey`, `BadPolicy`, `NoSuchName`, `FinalBinding`, `PendingExists`, `Memory`,
    /// `KeepFailed`: the first that applies.
    pub fn change2<K: Keeper>(
        &mut self,
        keeper: &mut K,
        name: &[u8],
        key: &[u8],
        policy: u8,
    ) -> Result<SignedPromise, Refusal>
        ensures turn { Turn (provider H.digest_of V.value_of S.signature_of self.old) K.kept K.failed (book R.stream self.old) keeper.old
            (Edit (Put Change name.now (key.now, Some policy))) (promised result) (book R.stream self.new) keeper.new }
        ensures keys { HasKeysOf self.old self.new }
        ensures work { self.new.digests ≤ self.old.digests + 1 }
    {
        self.change_with(keeper, name, key, Some(policy))
    }

    /// Registers as `register2` does, or, without a byte, as `register`.
    pub fn register_with<K: Keeper>(
        &mut self,
        keeper: &mut K,
        name: &[u8],
        key: &[u8],
        policy: Option<u8>,
    ) -> Result<SignedPromise, Refusal>
        ensures turn { Turn (provider H.digest_of V.value_of S.signature_of self.old) K.kept K.failed (book R.stream self.old) keeper.old
            (Edit (Put Register name.now (key.now, policy))) (promised result) (book R.stream self.new) keeper.new }
        ensures keys { HasKeysOf self.old self.new }
        ensures work { self.new.digests ≤ self.old.digests + 2 }
    {
        let Ok(name) = Name::new(name) else {
            return Err(Refusal::BadName);
        };
        let key = match allowed_key(key, policy) {
            Ok(key) => key,
            Err(why) => return Err(why),
        };
        let address = match self.free_address(&name) {
            Ok(address) => address,
            Err(why) => return Err(why),
        };
        let what = Record::Bound {
            verb: Verb::Register,
            salt: self.salt,
            name: name.copied(),
            key: key.copied(),
        };
        self.accept(keeper, &what, &address, name, key)
    }

    /// Changes a key as `change2` does, or, without a byte, as `change`.
    pub fn change_with<K: Keeper>(
        &mut self,
        keeper: &mut K,
        name: &[u8],
        key: &[u8],
        policy: Option<u8>,
    ) -> Result<SignedPromise, Refusal>
        ensures turn { Turn (provider H.digest_of V.value_of S.signature_of self.old) K.kept K.failed (book R.stream self.old) keeper.old
            (Edit (Put Change name.now (key.now, policy))) (promised result) (book R.stream self.new) keeper.new }
        ensures keys { HasKeysOf self.old self.new }
        ensures work { self.new.digests ≤ self.old.digests + 1 }
    {
        let Ok(name) = Name::new(name) else {
            return Err(Refusal::BadName);
        };
        let key = match allowed_key(key, policy) {
            Ok(key) => key,
            Err(why) => return Err(why),
        };
        let what = Record::Bound {
            verb: Verb::Change,
            salt: self.salt,
            name: name.copied(),
            key: key.copied(),
        };
        self.accept_held(keeper, &what, name, key)
    }

    /// Ends the epoch: what waits goes into the page of a new one, whose root is signed. The page has
    /// the nonce of the last one.
    ///
    /// # Errors
    ///
    /// `EpochNotLater`, `Memory`, `KeepFailed`: the first that applies.
    pub fn close<K: Keeper>(&mut self, keeper: &mut K, epoch: u64) -> Result<SignedRoot, Refusal>
        ensures turn { Turn (provider H.digest_of V.value_of S.signature_of self.old) K.kept K.failed (book R.stream self.old) keeper.old
            (Edit (asks.Turn epoch None)) (last result) (book R.stream self.new) keeper.new }
        ensures keys { HasKeysOf self.old self.new }
        ensures work { let by = provider H.digest_of V.value_of S.signature_of self.old in
            self.new.digests ≤ self.old.digests + made_count 256 (placement by self.old.last.bindings) (placement by self.old.pending) + 1 }
    {
        self.turn(keeper, epoch, None)
    }

    /// Ends the epoch as `close` does, but the page of the new one has this nonce, so that each node of
    /// its tree is hashed anew.
    ///
    /// # Errors
    ///
    /// `EpochNotLater`, `Memory`, `KeepFailed`: the first that applies.
    pub fn rotate<K: Keeper>(
        &mut self,
        keeper: &mut K,
        epoch: u64,
        nonce: Hash32,
    ) -> Result<SignedRoot, Refusal>
        ensures turn { Turn (provider H.digest_of V.value_of S.signature_of self.old) K.kept K.failed (book R.stream self.old) keeper.old
            (Edit (asks.Turn epoch (Some nonce))) (last result) (book R.stream self.new) keeper.new }
        ensures keys { HasKeysOf self.old self.new }
        ensures work { let by = provider H.digest_of V.value_of S.signature_of self.old in
            self.new.digests ≤ self.old.digests + node_count 256 (put_all (placement by self.old.last.bindings) (placement by self.old.pending)) + 1 }
    {
        self.turn(keeper, epoch, Some(nonce))
    }

    /// Ends the epoch: rotates to the nonce, if there is one, else closes.
    ///
    /// # Errors
    ///
    /// `EpochNotLater`, `Memory`, `KeepFailed`: the first that applies.
    pub fn turn<K: Keeper>(
        &mut self,
        keeper: &mut K,
        epoch: u64,
        nonce: Option<Hash32>,
    ) -> Result<SignedRoot, Refusal>
        ensures turn { Turn (provider H.digest_of V.value_of S.signature_of self.old) K.kept K.failed (book R.stream self.old) keeper.old
            (Edit (asks.Turn epoch nonce)) (last result) (book R.stream self.new) keeper.new }
        ensures keys { HasKeysOf self.old self.new }
        ensures work { self.new.digests ≤ self.old.digests + tree_digests (provider H.digest_of V.value_of S.signature_of self.old) self.old nonce + 1 }
    {
        if epoch <= self.last_epoch() {
            return Err(Refusal::EpochNotLater);
        }
        self.turn_page(keeper, epoch, &nonce)
    }

    /// The epoch of the last page.
    fn last_epoch(&self) -> u64
        ensures { result ≡ self.now.last.epoch }
    {
        self.roots[self.roots.len() - 1].body.epoch
    }

    /// Adds the page of a later epoch, under this nonce or the last page's, once its record is kept.
    fn turn_page<K: Keeper>(
        &mut self,
        keeper: &mut K,
        epoch: u64,
        nonce: &Option<Hash32>,
    ) -> Result<SignedRoot, Refusal>
        requires { self.old.last.epoch < epoch }
        ensures made { MatchResult result
            (λ root. K.kept keeper.old (kept_as.Turned epoch nonce.now) keeper.new
            × (book R.stream self.new ≡ with_page (book R.stream self.old) (next_page (book R.stream self.old) epoch nonce.now))
            × Shows (provider H.digest_of V.value_of S.signature_of self.old) (book R.stream self.new) (Last (next_page (book R.stream self.old) epoch nonce.now)) (last (Ok root)))
            (λ why. (book R.stream self.new ≡ book R.stream self.old) × IsUnkept K.failed keeper.old (kept_as.Turned epoch nonce.now) why keeper.new) }
        ensures keys { HasKeysOf self.old self.new }
        ensures work { self.new.digests ≤ self.old.digests + tree_digests (provider H.digest_of V.value_of S.signature_of self.old) self.old nonce.now + 1 }
    {
        let tree = self.next_tree(nonce)?;
        let last = self.roots[self.roots.len() - 1].body;
        let body = Body {
            epoch,
            previous_epoch: last.epoch,
            root: tree.root(),
            previous_hash: self.body_hash,
            nonce: nonce_or(nonce, &last.nonce),
            vuf_key: self.vuf.public(),
        };
        let text = body.write();
        let root = signed_root(&self.signer, body, &text);
        // A `?` would hide the refusal behind its conversion, and the proof needs it.
        match add_page(
            &mut self.roots,
            &mut self.trees,
            keeper,
            root.copied(),
            nonce,
            tree,
        ) {
            Ok(()) => {
                self.body_hash = hash_of(&mut self.hash, &text);
                self.waiting.clear();
                Ok(root)
            }
            Err(why) => Err(why),
        }
    }

    /// The tree of the page to come: the last one with what waits, under this nonce or its own.
    fn next_tree(&mut self, nonce: &Option<Hash32>) -> Result<Tree<H>, AllocError>
        ensures tree { IfOk result (λ tree. tree ≡ record {
          nonce = unwrap_or nonce.now self.old.last.nonce;
          items = placement (provider H.digest_of V.value_of S.signature_of self.old) (overwritten self.old.last.bindings self.old.pending);
        }) }
        ensures stays { self.new ≡ record self.old { digests = self.new.digests } }
        ensures work { self.new.digests ≤ self.old.digests + tree_digests (provider H.digest_of V.value_of S.signature_of self.old) self.old nonce.now }
    {
        let changes = self.waiting.items()?;
        let last = &self.trees[self.trees.len() - 1];
        changed_tree(self.alloc, &mut self.hash, last, nonce, &changes)
    }

    /// Whether the last page has the name, and whether an operation on it waits.
    fn standing(&self, name: &Name) -> (bool, bool)
        ensures shown { result.0 ≡ is_some (at self.now.last.bindings name.now) }
        ensures waits { result.1 ≡ is_some (at self.now.pending name.now) }
    {
        match self.names.find(name.bytes()) {
            Some(history) => (
                history.shown(self.roots.len() - 1).is_some(),
                history.waiting(self.roots.len()).is_some(),
            ),
            None => (false, false),
        }
    }

    /// The address of a name that is new. Takes one digest.
    fn address(&mut self, name: &Name) -> Address
        ensures value { result ≡ address_of (provider H.digest_of V.value_of S.signature_of self.old) name.now }
        ensures stays { self.new ≡ record self.old { digests = one_more self.old.digests } }
    {
        Address::computed(&mut self.hash, &self.vuf, name)
    }

    /// Whether a name of the last page, or one that waits, has the index of this name: another one, or
    /// this one itself.
    fn is_taken(&self, name: &Name, index: &Index) -> bool
        requires { index.now ≡ index_by (provider H.digest_of V.value_of S.signature_of self.now) name.now }
        ensures taken { let by = index_by (provider H.digest_of V.value_of S.signature_of self.now) in
            result ≡ is_some (put_refusal by (book R.stream self.now) Register name.now) }
        ensures changeable { result ≡ false → is_final_binding (at self.now.last.bindings name.now) ≡ false }
        ensures waits { result ≡ false → at self.now.pending name.now ≡ None }
        ensures free { let by = index_by (provider H.digest_of V.value_of S.signature_of self.now) in
            result ≡ false → (other : List ℕ) → HoldsName (book R.stream self.now) other → by other ≡ by name.now → other ≡ name.now }
    {
        self.trees[self.trees.len() - 1].get(index).is_some() || self.waiting.contains(index)
    }

    /// Why a name is not new, if its index is taken.
    fn why_taken(&self, name: &Name) -> Refusal
        requires { let by = index_by (provider H.digest_of V.value_of S.signature_of self.now) in
            IsSome (put_refusal by (book R.stream self.now) Register name.now) }
        ensures { let by = index_by (provider H.digest_of V.value_of S.signature_of self.now) in
            put_refusal by (book R.stream self.now) Register name.now ≡ Some result }
    {
        let (shown, waits) = self.standing(name);
        if shown {
            return Refusal::NameTaken;
        }
        if waits {
            return Refusal::PendingExists;
        }
        Refusal::IndexTaken
    }

    /// The address of a name that is new. Takes one digest.
    pub(super) fn free_address(&mut self, name: &Name) -> Result<Address, Refusal>
        ensures opens { let by = index_by (provider H.digest_of V.value_of S.signature_of self.old) in MatchResult result
            (λ address. (put_refusal by (book R.stream self.old) Register name.now ≡ None)
            × (address ≡ address_of (provider H.digest_of V.value_of S.signature_of self.old) name.now)
            × (is_final_binding (at self.old.last.bindings name.now) ≡ false)
            × (at self.old.pending name.now ≡ None)
            × ((other : List ℕ) → HoldsName (book R.stream self.old) other → by other ≡ by name.now → other ≡ name.now))
            (λ why. put_refusal by (book R.stream self.old) Register name.now ≡ Some why) }
        ensures stays { self.new ≡ record self.old { digests = self.new.digests } }
        ensures work { self.new.digests ≤ self.old.digests + 1 }
    {
        let address = self.address(name);
        // A name that is not new has taken its own index, so that a new one is not searched for here.
        if self.is_taken(name, &address.index) {
            return Err(self.why_taken(name));
        }
        Ok(address)
    }

    /// Lets the key wait under this salt for the next page, once its record is kept. Takes at most one digest.
    pub(super) fn bind<K: Keeper>(
        &mut self,
        keeper: &mut K,
        what: &Record,
        address: &Address,
        name: &Name,
        key: &BoundKey,
        salt: Hash32,
    ) -> Result<(), Refusal>
        requires changeable { is_final_binding (at self.old.last.bindings name.now) ≡ false }
        requires waits { at self.old.pending name.now ≡ None }
        requires addressed { address.now ≡ address_of (provider H.digest_of V.value_of S.signature_of self.old) name.now }
        requires free { let by = index_by (provider H.digest_of V.value_of S.signature_of self.old) in
            (other : List ℕ) → HoldsName (book R.stream self.old) other → by other ≡ by name.now → other ≡ name.now }
        ensures made { MatchResult result
            (λ _. K.kept keeper.old what.now keeper.new
            × (book R.stream self.new ≡ with_bound (book R.stream self.old) name.now (record { key = key.now; salt = salt })))
            (λ why. (book R.stream self.new ≡ book R.stream self.old) × IsUnkept K.failed keeper.old what.now why keeper.new) }
        ensures keys { HasKeysOf self.old self.new }
        ensures work { self.new.digests ≤ self.old.digests + 1 }
    {
        // What these ensure: the name and the key are within their limits, and the salt has 32 bytes.
        name.bytes();
        key.bytes();
        salt.bytes();
        let commitment = self.foreseen.commit(&mut self.hash, &salt, name, key);
        let version = Version::new(self.alloc, self.roots.len(), key, salt)?;
        let_wait(
            &mut self.names,
            &mut self.waiting,
            keeper,
            what,
            name,
            address,
            version,
            commitment,
        )?;
        Ok(())
    }

    /// Lets the key wait for the next page, once its record is kept. Takes at most one digest.
    fn accept<K: Keeper>(
        &mut self,
        keeper: &mut K,
        what: &Record,
        address: &Address,
        name: Name,
        key: BoundKey,
    ) -> Result<SignedPromise, Refusal>
        requires limits { IsName name × IsKeyData key.value }
        requires changeable { is_final_binding (at self.old.last.bindings name) ≡ false }
        requires waits { at self.old.pending name ≡ None }
        requires addressed { address.now ≡ address_of (provider H.digest_of V.value_of S.signature_of self.old) name }
        requires free { let by = index_by (provider H.digest_of V.value_of S.signature_of self.old) in
            (other : List ℕ) → HoldsName (book R.stream self.old) other → by other ≡ by name → other ≡ name }
        ensures made { MatchResult result
            (λ promise. K.kept keeper.old what.now keeper.new
            × (book R.stream self.new ≡ with_pending (book R.stream self.old) name key)
            × Shows (provider H.digest_of V.value_of S.signature_of self.old) (book R.stream self.new) (Promised name (record { key = key; salt = self.old.salt })) (promised (Ok promise)))
            (λ why. (book R.stream self.new ≡ book R.stream self.old) × IsUnkept K.failed keeper.old what.now why keeper.new) }
        ensures keys { HasKeysOf self.old self.new }
        ensures work { self.new.digests ≤ self.old.digests + 1 }
    {
        let salt = self.salt;
        // A `?` would hide the refusal behind its conversion, and the proof needs it.
        match self.bind(keeper, what, address, &name, &key, salt) {
            Ok(()) => {}
            Err(why) => return Err(why),
        }
        Ok(self.accepted(address.index, name, key))
    }

    /// Lets another key of a name wait under this salt for the next page, once its record is kept. Gives the
    /// index of the name, which is searched for once. Takes at most one digest.
    pub(super) fn rebind<K: Keeper>(
        &mut self,
        keeper: &mut K,
        what: &Record,
        name: &Name,
        key: &BoundKey,
        salt: Hash32,
    ) -> Result<Index, Refusal>
        ensures made { let by = index_by (provider H.digest_of V.value_of S.signature_of self.old) in MatchResult result
            (λ index. (put_refusal by (book R.stream self.old) Change name.now ≡ None)
            × (index ≡ by name.now)
            × K.kept keeper.old what.now keeper.new
            × (book R.stream self.new ≡ with_bound (book R.stream self.old) name.now (record { key = key.now; salt = salt })))
            (λ why. (book R.stream self.new ≡ book R.stream self.old)
            × IsRefusedSo K.failed keeper.old what.now (put_refusal by (book R.stream self.old) Change name.now) why keeper.new) }
        ensures keys { HasKeysOf self.old self.new }
        ensures work { self.new.digests ≤ self.old.digests + 1 }
    {
        // What these ensure: the name and the key are within their limits, and the salt has 32 bytes.
        name.bytes();
        key.bytes();
        salt.bytes();
        let page = self.roots.len();
        let change = KeyChange {
            name,
            key,
            salt,
            page,
        };
        let_change_wait(
            &mut self.names,
            &mut self.waiting,
            &mut self.foreseen,
            &mut self.hash,
            keeper,
            what,
            &change,
        )
    }

    /// Lets another key of a name wait for the next page, once its record is kept. Takes at most one digest.
    fn accept_held<K: Keeper>(
        &mut self,
        keeper: &mut K,
        what: &Record,
        name: Name,
        key: BoundKey,
    ) -> Result<SignedPromise, Refusal>
        requires limits { IsName name × IsKeyData key.value }
        ensures made { let by = index_by (provider H.digest_of V.value_of S.signature_of self.old) in MatchResult result
            (λ promise. (put_refusal by (book R.stream self.old) Change name ≡ None)
            × K.kept keeper.old what.now keeper.new
            × (book R.stream self.new ≡ with_pending (book R.stream self.old) name key)
            × Shows (provider H.digest_of V.value_of S.signature_of self.old) (book R.stream self.new) (Promised name (record { key = key; salt = self.old.salt })) (promised (Ok promise)))
            (λ why. (book R.stream self.new ≡ book R.stream self.old)
            × IsRefusedSo K.failed keeper.old what.now (put_refusal by (book R.stream self.old) Change name) why keeper.new) }
        ensures keys { HasKeysOf self.old self.new }
        ensures work { self.new.digests ≤ self.old.digests + 1 }
    {
        let salt = self.salt;
        let index = match self.rebind(keeper, what, &name, &key, salt) {
            Ok(index) => index,
            Err(why) => return Err(why),
        };
        Ok(self.accepted(index, name, key))
    }

    /// The promise to bind the key, which waits under the salt, to the name. The next salt is drawn.
    fn accepted(&mut self, index: Index, name: Name, key: BoundKey) -> SignedPromise
        requires { index ≡ index_by (provider H.digest_of V.value_of S.signature_of self.old) name }
        ensures made { (before : DirectoryState R) → HasKeysOf before self.old
            → book R.stream self.old ≡ with_bound (book R.stream before) name (record { key = key; salt = before.salt })
            → (book R.stream self.new ≡ with_pending (book R.stream before) name key)
            × Shows (provider H.digest_of V.value_of S.signature_of before) (book R.stream self.new) (Promised name (record { key = key; salt = before.salt })) (promised (Ok result)) }
        ensures keys { HasKeysOf self.old self.new }
        ensures work { self.new.digests ≡ self.old.digests }
    {
        self.salt = next_salt(&mut self.salts);
        self.promised(index, name, key)
    }

    /// The promise, over the last root, to bind the key to the name.
    pub(super) fn promised(&self, index: Index, name: Name, key: BoundKey) -> SignedPromise
        requires { index ≡ index_by (provider H.digest_of V.value_of S.signature_of self.now) name }
        ensures { (salt : List ℕ) → Shows (provider H.digest_of V.value_of S.signature_of self.now) (book R.stream self.now) (Promised name (record { key = key; salt = salt })) (promised (Ok result)) }
    {
        let promise = Promise {
            epoch: self.roots[self.roots.len() - 1].body.epoch,
            body_hash: self.body_hash,
            index,
            name,
            key,
        };
        signed_promise(&self.signer, promise)
    }
}

/// The key with the policy of this byte, if there is one, where both are allowed.
fn allowed_key(value: &[u8], policy: Option<u8>) -> Result<BoundKey, Refusal>
    ensures { MatchResult result
        (λ key. IsKeyData key.value × (key ≡ bound_key (value.now, policy)) × ((late : List (Bool × RefusalOf)) → first (bad_key value.now ∷ bad_policy policy ∷ late) ≡ first late))
        (λ why. (late : List (Bool × RefusalOf)) → first (bad_key value.now ∷ bad_policy policy ∷ late) ≡ Some why) }
{
    let Ok(value) = KeyData::new(value) else {
        return Err(Refusal::BadKey);
    };
    match policy {
        None => Ok(BoundKey {
            value,
            policy: None,
        }),
        Some(byte) => match Policy::new(byte) {
            Ok(policy) => Ok(BoundKey {
                value,
                policy: Some(policy),
            }),
            Err(_) => Err(Refusal::BadPolicy),
        },
    }
}

/// Adds a root and its tree, once the record is kept.
fn add_page<H: NodeHash, K: Keeper>(
    roots: &mut Vec<SignedRoot>,
    trees: &mut Vec<Tree<H>>,
    keeper: &mut K,
    root: SignedRoot,
    nonce: &Option<Hash32>,
    tree: Tree<H>,
) -> Result<(), Refusal>
    ensures { MatchResult result
        (λ _. K.kept keeper.old (kept_as.Turned root.body.epoch nonce.now) keeper.new
        × (roots.new.items ≡ roots.old.items ++ root ∷ []) × (trees.new.items ≡ trees.old.items ++ tree ∷ []))
        (λ why. (roots.new.items ≡ roots.old.items) × (trees.new.items ≡ trees.old.items) × IsUnkept K.failed keeper.old (kept_as.Turned root.body.epoch nonce.now) why keeper.new) }
{
    roots.reserve(1)?;
    trees.reserve(1)?;
    let epoch = root.body.epoch;
    let what = Record::Turned {
        epoch,
        nonce: *nonce,
    };
    if keeper.keep(&what).is_err() {
        return Err(Refusal::KeepFailed);
    }
    roots.push_reserved(root);
    trees.push_reserved(tree);
    Ok(())
}

/// The nonce, if there is one, else the last page's.
fn nonce_or(nonce: &Option<Hash32>, last: &Hash32) -> Hash32
    ensures value { result ≡ unwrap_or nonce.now last.now }
    ensures size { IfSome nonce.now Is32Bytes }
{
    match nonce {
        None => *last,
        Some(nonce) => {
            nonce.bytes();
            *nonce
        }
    }
}

/// The tree with these changes, under this nonce or its own.
fn changed_tree<H: NodeHash>(
    alloc: Global,
    hash: &mut H,
    tree: &Tree<H>,
    nonce: &Option<Hash32>,
    changes: &[Item],
) -> Result<Tree<H>, AllocError>
    requires { IsPlacement changes.now }
    ensures tree { IfOk result (λ made. made ≡ record { nonce = unwrap_or nonce.now tree.now.nonce; items = put_all tree.now.items changes.now }) }
    ensures work { H.digests hash.new ≤ H.digests hash.old + changed_digests nonce.now tree.now.items changes.now }
{
    match nonce {
        None => tree.with_all(alloc, hash, changes),
        Some(nonce) => tree.renew_with_all(alloc, hash, *nonce, changes),
    }
}
