ghost use Rattle.std.specs.Prelude.{◌≡◌, ◌↔◌, ℕ, List, IsTrue};
ghost use Rattle.encoding.specs.Limits.{IsSmall};

use encoding::{Hash32, Small};

/// A checker of signatures, which needs no secret (CONIKS, section 3).
pub trait Verifier {
    // The public key, the message and the signature of what verifies: one relation for the type.
    ghost verified: { List ℕ → List ℕ → List ℕ → Type 0 };

    /// Whether the signature of the message verifies under this public key.
    fn verify(&self, key: &Hash32, message: &[u8], signature: &[u8]) -> bool
        ensures { IsTrue result ↔ verified key.now message.now signature.now };
}

/// A signer with its secret key. No law says that its signatures cannot be forged.
pub trait Signer: Verifier {
    // The public key of a signer.
    ghost public_key: { Self → List ℕ };

    // The signature under a public key of a message: one function for the type.
    ghost signature_of: { List ℕ → List ℕ → List ℕ };

    /// The public key.
    fn public(&self) -> Hash32
        ensures { result ≡ public_key self.now };

    /// The signature of a message of any length.
    fn sign(&self, message: &[u8]) -> Small
        ensures { result ≡ signature_of (public_key self.now) message.now };

    // A signature verifies under the public key of its signer.
    ghost signature_verifies: { (signer : Self) (message : List ℕ) →
        Self.verified (public_key signer) message (signature_of (public_key signer) message) };

    // A signature is a small value.
    ghost signature_size: { (key message : List ℕ) → IsSmall (signature_of key message) };
}
