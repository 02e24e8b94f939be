ghost use Rattle.std.specs.Prelude.{◌≡◌, ◌≢◌, ◌≤◌, ◌↔◌, ◌+◌, length, IsOkUnless, IsTrue};
ghost use Rattle.encoding.specs.Fields.{ReadsWhole};
ghost use Rattle.rootchain.specs.declared.body.TheConstants.{BODY_LEN};
ghost use Rattle.rootchain.specs.declared.root_refusal.Refusal.TheVariants.{Malformed};
ghost use Rattle.rootchain.specs.declared.signed_root.TheConstants.{MAX_SIGNED_ROOT_LEN};
ghost use Rattle.rootchain.specs.Bodies.{IsWellFormed};
ghost use Rattle.rootchain.specs.Chains.{Names, Verifies};
ghost use Rattle.rootchain.specs.SignedRoots.{read_signed_root, signed_root_bytes, IsSignedRoot};

use crate::body::BODY_LEN;
use crate::whole::whole;
use crate::{Body, Refusal};
use encoding::{Cursor, Fault, FixedText, Form, Hash32, Small};
use nodehash::NodeHash;
use sigiface::Verifier;

/// How many bytes the longest signed root has: 146 of the body, and 258 of a signature of 256 bytes
/// behind its length.
pub const MAX_SIGNED_ROOT_LEN: usize = 404;

/// How many bytes a body and the length of the signature behind it have.
pub(crate) const FIXED_LEN: usize = BODY_LEN + 2;

/// The bytes of a signed root.
pub type SignedRootText = FixedText<MAX_SIGNED_ROOT_LEN>;

/// A signed tree root (CONIKS, section 3).
#[derive(Debug, Drop, PartialEq, Eq)]
pub struct SignedRoot {
    pub body: Body,
    /// The provider's signature of the body's bytes.
    pub signature: Small,
}

impl SignedRoot {
    /// The signed root that these bytes spell. The only refusal is `Malformed`.
    pub fn read(bytes: &[u8]) -> Result<SignedRoot, Refusal>
        ensures exact { ReadsWhole (λ signed. signed) signed_root_bytes IsSignedRoot bytes.now result }
        ensures refusal { IsOkUnless result Malformed }
    {
        whole(bytes)
    }

    /// The bytes: the 146 of the body, then the signature behind its length. At most 404.
    pub fn write(&self) -> SignedRootText
        ensures value { result ≡ signed_root_bytes self.now }
        ensures len { length result ≡ BODY_LEN + 2 + length self.now.signature }
        ensures most { length result ≤ MAX_SIGNED_ROOT_LEN }
        ensures form { IsWellFormed self.now.body → IsSignedRoot self.now }
    {
        let mut text: SignedRootText = self.body.write().copied();
        text.push_counted(self.signature.bytes());
        text
    }

    /// How many bytes it is written in. At most 404.
    pub(crate) fn written_len(&self) -> usize
        ensures value { result ≡ length (signed_root_bytes self.now) }
        ensures most { result ≤ MAX_SIGNED_ROOT_LEN }
    {
        // What these ensure: a hash has 32 bytes.
        self.body.root.bytes();
        self.body.previous_hash.bytes();
        self.body.nonce.bytes();
        self.body.vuf_key.bytes();
        FIXED_LEN + self.signature.bytes().len()
    }

    /// A copy of the signed root.
    pub fn copied(&self) -> SignedRoot
        ensures { result ≡ self.now }
    {
        SignedRoot {
            body: self.body,
            signature: self.signature.copied(),
        }
    }

    /// Whether the signature verifies under the provider's public key.
    pub fn verifies<S: Verifier>(&self, verifier: &S, key: &Hash32) -> bool
        ensures { IsTrue result ↔ Verifies S.verified key.now self.now }
    {
        verifier.verify(key, self.body.write().bytes(), self.signature.bytes())
    }

    /// Whether it names the earlier root as the one before it, by its epoch and the hash of its body (CONIKS, section 3).
    /// Neither signature is verified. Takes at most one digest, and none where the epoch is another.
    #[tactic(auto, unfolding(crate::specs::Chains::Names))]
    pub fn names<H: NodeHash>(&self, hash: &mut H, earlier: &SignedRoot) -> bool
        ensures value { IsTrue result ↔ Names H.digest_of earlier.now self.now }
        ensures counted { H.digests hash.new ≤ H.digests hash.old + 1 }
        ensures spared { self.now.body.previous_epoch ≢ earlier.now.body.epoch → H.digests hash.new ≡ H.digests hash.old }
    {
        self.body.previous_epoch == earlier.body.epoch
            && self.body.previous_hash == hash.digest(earlier.body.write().bytes())
    }
}

impl Form for SignedRoot {
    ghost use Rattle.rootchain.specs.Readable.{signed_root_field};

    ghost spelling = { signed_root_bytes };

    ghost Allowed = { IsSignedRoot };

    ghost reader = { read_signed_root };

    ghost is_field = { signed_root_field };

    #[tactic(auto, unfolding(crate::specs::SignedRoots::read_signed_root))]
    fn read_parts(cursor: &mut Cursor<'_>) -> Result<SignedRoot, Fault> {
        Ok(SignedRoot {
            body: Body::read_from(cursor)?,
            signature: cursor.bounded()?,
        })
    }
}
