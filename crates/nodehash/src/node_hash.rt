ghost use Rattle.std.specs.Prelude.{◌≡◌, ℕ, List, length, map};
ghost use Rattle.encoding.specs.Bytes.{Is32Bytes};
ghost use Rattle.nodehash.specs.Digests.{after_digests, one_more};

use crate::NodeText;
use encoding::Hash32;

/// A hash function that counts how many digests it has computed.
pub trait NodeHash {
    // The digest of each byte string: one function for the type, whatever it has digested before.
    ghost digest_of: { List ℕ → List ℕ };

    ghost digests: { Self → ℕ };

    /// The digest of these bytes.
    fn digest(&mut self, text: &[u8]) -> Hash32
        ensures value { result ≡ digest_of text.now }
        ensures count { digests self.new ≡ one_more (digests self.old) };

    /// Fills `out` with the digests of these texts, in order. Takes no memory.
    ///
    /// A hash function that computes several digests at once has a body of its own.
    fn digest_all(&mut self, texts: &[NodeText], out: &mut [Hash32])
        requires { length out.old ≡ length texts.now }
        ensures value { out.new ≡ map digest_of texts.now }
        ensures count { digests self.new ≡ after_digests (length texts.now) (digests self.old) }
    {
        for (place, text) in texts.iter().enumerate() {
            out[place] = self.digest(text.bytes());
        }
    }

    /// How many digests it has computed. The count stays at `u64::MAX` once it is there.
    fn count(&self) -> u64
        ensures { result ≡ digests self.now };

    ghost digest_size: { (text : List ℕ) → Is32Bytes (digest_of text) };
}
