ghost use Rattle.std.specs.Prelude.{◌≡◌, ℕ, List, refl};
ghost use Rattle.nodehash.specs.DigestSizes.{IsSmall-sha256};
ghost use Rattle.sigiface.specs.StandIn.{keyed_signature};

use crate::{Signer, Verifier};
use encoding::{Hash32, Small};
use nodehash::{keyed_digest, small_keyed_digest};
use std::marker::Model;

/// The kind byte of a signature: the letter S.
const SIGNATURE: u8 = 0x53;

/// A stand-in that gives no security: a signature is a SHA-256 over the key and the message, and
/// the public key is the secret key.
#[derive(Debug, Drop)]
pub struct KeyedSign {
    key: Hash32,
}

impl Model for KeyedSign {
    ghost Value = { List ℕ };

    ghost view = { λ signer. signer.key };
}

impl KeyedSign {
    /// The signer under this key.
    pub fn new(key: Hash32) -> Self
        ensures { result ≡ key }
    {
        KeyedSign { key }
    }
}

impl Verifier for KeyedSign {
    ghost verified = { λ key message signature. signature ≡ keyed_signature key message };

    fn verify(&self, key: &Hash32, message: &[u8], signature: &[u8]) -> bool {
        signature == keyed_digest(SIGNATURE, key, message).bytes()
    }
}

impl Signer for KeyedSign {
    ghost public_key = { λ key. key };

    ghost signature_of = { keyed_signature };

    ghost signature_verifies = { λ key message. refl };

    ghost signature_size = { λ key message. IsSmall-sha256 _ };

    fn public(&self) -> Hash32 {
        self.key
    }

    fn sign(&self, message: &[u8]) -> Small {
        small_keyed_digest(SIGNATURE, &self.key, message)
    }
}
