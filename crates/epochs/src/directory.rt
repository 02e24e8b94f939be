ghost use Rattle.std.specs.Prelude.{◌≡◌, ◌+◌, ◌<◌, ◌≤◌, IfErr, IfOk};
ghost use Rattle.book.specs.Fresh.{fresh};
ghost use Rattle.book.specs.ProviderLaws.{KeepsLaws};
ghost use Rattle.book.specs.Shows.{index_of, IsRootOf};
ghost use Rattle.book.specs.Sound.{IsSound};
ghost use Rattle.epochs.specs.Beginnings.{IsBeginRefusal};
ghost use Rattle.epochs.specs.DirectoryStates.{book, provider};

use crate::foreseen::Foreseen;
use crate::names::Names;
use crate::seeded::Seeded;
use crate::signing::{hash_of, next_salt, signed_root};
use crate::waiting::Waiting;
use book::Refusal;
use encoding::Hash32;
use nodehash::NodeHash;
use prefixtree::Tree;
use rand_core::Rng;
use rootchain::{Body, SignedRoot};
use sigiface::Signer;
use std::alloc::Global;
use std::marker::Model;
use vrfiface::Vuf;

mod changing;
mod reading;
mod replaying;
mod running;

/// The names and keys of a provider, in pages, one for each epoch.
#[derive(Drop)]
pub struct Directory<H: NodeHash, V: Vuf, S: Signer, R: Rng> {
    alloc: Global,
    hash: H,
    vuf: V,
    signer: S,
    salts: R,
    /// The salt of the next accepted operation.
    salt: Hash32,
    names: Names,
    waiting: Waiting,
    /// The signed root of each page.
    roots: Vec<SignedRoot>,
    /// The tree of each page.
    trees: Vec<Tree<H>>,
    /// The hash of the last root's body.
    body_hash: Hash32,
    /// The commitments of records that will be replayed next.
    foreseen: Foreseen<H>,
}

impl<H: NodeHash, V: Vuf, S: Signer, R: Rng> Model for Directory<H, V, S, R> {
    ghost use Rattle.epochs.specs.DirectoryStates.{DirectoryState};

    ghost Value = { DirectoryState R };

    ghost use Rattle.epochs.specs.Directories.{state_of, KeepsBook};

    ghost view = { state_of V.public_key S.public_key H.digests };

    ghost invariant = { KeepsBook H.digest_of V.value_of S.signature_of V.public_key S.public_key H.digests R.stream };
}

impl<H: NodeHash, V: Vuf, S: Signer, R: Rng> Directory<H, V, S, R> {
    /// A directory whose first page has no name. Takes at most two digests.
    ///
    /// # Errors
    ///
    /// `EpochNotLater` if the epoch is 0, else `Memory` if memory runs out.
    pub fn new(
        alloc: Global,
        epoch: u64,
        nonce: Hash32,
        mut hash: H,
        vuf: V,
        signer: S,
        mut salts: R,
    ) -> Result<Self, Refusal>
    where
        H: Drop,
        V: Drop,
        S: Drop,
        R: Drop,
        ensures begun { IfOk result (λ directory. (book R.stream directory ≡ fresh epoch nonce (R.stream salts)) × (0 < epoch)) }
        ensures keys { IfOk result (λ directory. (directory.vuf_key ≡ V.public_key vuf) × (directory.signing_key ≡ S.public_key signer)) }
        ensures work { IfOk result (λ directory. directory.digests ≤ H.digests hash + 2) }
        ensures refused { IfErr result (IsBeginRefusal epoch) }
    {
        if epoch == 0 {
            return Err(Refusal::EpochNotLater);
        }
        let tree = Tree::new(alloc, &mut hash, nonce)?;
        let body = Body {
            epoch,
            previous_epoch: 0,
            root: tree.root(),
            previous_hash: Hash32::new([0; 32]),
            nonce,
            vuf_key: vuf.public(),
        };
        let text = body.write();
        let mut roots = Vec::new(alloc);
        roots.push(signed_root(&signer, body, &text))?;
        let mut trees = Vec::new(alloc);
        trees.push(tree)?;
        let body_hash = hash_of(&mut hash, &text);
        let salt = next_salt(&mut salts);
        // Secret to whoever lacks the key, and shown to nobody; no body is as short as this text.
        let hashers = Seeded::new(signer.sign(b"names").bytes());
        Ok(Directory {
            alloc,
            hash,
            vuf,
            signer,
            salts,
            salt,
            names: Names::new(alloc, hashers),
            waiting: Waiting::new(alloc, hashers),
            roots,
            trees,
            body_hash,
            foreseen: Foreseen::none(),
        })
    }

    /// The latest root.
    pub fn head(&self) -> &SignedRoot
        ensures head { IsRootOf (provider H.digest_of V.value_of S.signature_of self.now) (book R.stream self.now) self.now.last result.now }
        ensures sound { IsSound (index_of (provider H.digest_of V.value_of S.signature_of self.now)) (book R.stream self.now) }
        ensures laws { KeepsLaws V.accepted S.verified self.now.signing_key (provider H.digest_of V.value_of S.signature_of self.now) }
    {
        let root = &self.roots[self.roots.len() - 1];
        // What this ensures: a public key of the verifiable function has 32 bytes.
        root.body.vuf_key.bytes();
        root
    }

    /// How many names it has. A name that waits for its first epoch counts too.
    pub fn count_names(&self) -> usize {
        self.names.count()
    }

    /// How many operations wait for the next epoch.
    pub fn count_waiting(&self) -> usize {
        self.waiting.count()
    }
}
