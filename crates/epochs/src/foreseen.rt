//! The commitments of the next records of a replay, digested at once.
ghost use Rattle.std.specs.Prelude.{◌≡◌, ◌+◌, ◌≤◌, IfSome};
ghost use Rattle.commit.specs.Commitments.{commitment_bytes};
ghost use Rattle.epochs.specs.declared.foreseen.TheConstants.{AT_ONCE};

use commit::{commit, short_commit_text};
use encoding::{BoundKey, Hash32, Name};
use nodehash::{NodeHash, NodeText};
use std::marker::{Model, PhantomData};

/// How many commitments are digested at once.
pub const AT_ONCE: usize = 4;

/// Commitments with their texts, in the order in which they will be wanted.
#[derive(Drop)]
pub(crate) struct Foreseen<H: NodeHash> {
    texts: [NodeText; AT_ONCE],
    digests: [Hash32; AT_ONCE],
    /// How many were wanted.
    used: usize,
    hash: PhantomData<H>,
}

impl<H: NodeHash> Model for Foreseen<H> {
    ghost use Rattle.std.specs.Prelude.{◌≡◌, ℕ, ◌<◌, map};
    ghost use Rattle.epochs.specs.declared.foreseen.TheConstants.{AT_ONCE};

    ghost Value = { ℕ };

    ghost view = { λ foreseen. foreseen.used };

    ghost invariant = { λ foreseen. foreseen.used < AT_ONCE → foreseen.digests ≡ map H.digest_of foreseen.texts };
}

impl<H: NodeHash> Foreseen<H> {
    /// None that will be wanted.
    pub(crate) fn none() -> Foreseen<H> {
        Foreseen {
            texts: [
                NodeText::new(),
                NodeText::new(),
                NodeText::new(),
                NodeText::new(),
            ],
            digests: [Hash32::default(); AT_ONCE],
            used: AT_ONCE,
            hash: PhantomData,
        }
    }

    /// Those of these texts. Takes four digests.
    pub(crate) fn digested(hash: &mut H, texts: [NodeText; AT_ONCE]) -> Foreseen<H>
        ensures work { H.digests hash.new ≤ H.digests hash.old + AT_ONCE }
    {
        let mut digests = [Hash32::default(); AT_ONCE];
        hash.digest_all(&texts, &mut digests);
        Foreseen {
            texts,
            digests,
            used: 0,
            hash: PhantomData,
        }
    }

    /// The commitment that binds a key to a name under a salt, if it is the next one.
    fn next(&mut self, salt: &Hash32, name: &Name, key: &BoundKey) -> Option<Hash32>
        ensures { IfSome result (λ digest. digest ≡ H.digest_of (commitment_bytes salt.now name.now key.now)) }
    {
        if self.used >= AT_ONCE {
            return None;
        }
        let text = short_commit_text(salt, name.bytes(), key.bytes(), key.policy)?;
        if self.texts[self.used].bytes() == text.bytes() {
            let digest = self.digests[self.used];
            self.used += 1;
            return Some(digest);
        }
        None
    }

    /// The commitment that binds a key to a name under a salt. Takes one digest, or none where it is the next one.
    pub(crate) fn commit(
        &mut self,
        hash: &mut H,
        salt: &Hash32,
        name: &Name,
        key: &BoundKey,
    ) -> Hash32
        ensures value { result ≡ H.digest_of (commitment_bytes salt.now name.now key.now) }
        ensures work { H.digests hash.new ≤ H.digests hash.old + 1 }
    {
        match self.next(salt, name, key) {
            Some(digest) => digest,
            None => commit(hash, salt, name, key),
        }
    }
}
