ghost use Rattle.std.specs.Prelude.{◌≡◌, ℕ, List, refl};
ghost use Rattle.std.proofs.Common.{◌∙◌, sym};
ghost use Rattle.nodehash.specs.DigestSizes.{IsSmall-sha256};
ghost use Rattle.vrfiface.specs.StandIns.{keyed_value};

use crate::{UniqueVuf, Vuf, VufCheck};
use encoding::{Hash32, Name, Small};
use nodehash::{keyed_digest, small_keyed_digest};
use std::marker::Model;

/// The kind byte of a value: the letter V.
const VALUE: u8 = 0x56;

/// A stand-in that gives no security: the value of a name is a SHA-256 over the key and the name,
/// and the public key is the secret key.
#[derive(Debug, Drop)]
pub struct KeyedVuf {
    key: Hash32,
}

impl Model for KeyedVuf {
    ghost Value = { List ℕ };

    ghost view = { λ vuf. vuf.key };
}

impl KeyedVuf {
    /// The function under this key.
    pub fn new(key: Hash32) -> Self
        ensures { result ≡ key }
    {
        KeyedVuf { key }
    }
}

impl VufCheck for KeyedVuf {
    ghost accepted = { λ key name value. value ≡ keyed_value key name };

    fn accepts(&self, key: &Hash32, name: &Name, value: &[u8]) -> bool {
        value == keyed_digest(VALUE, key, name.bytes()).bytes()
    }
}

impl Vuf for KeyedVuf {
    ghost public_key = { λ key. key };

    ghost value_of = { keyed_value };

    ghost value_is_accepted = { λ key name. refl };

    ghost value_size = { λ key name _. IsSmall-sha256 _ };

    fn public(&self) -> Hash32 {
        self.key
    }

    fn value(&self, name: &Name) -> Small {
        small_keyed_digest(VALUE, &self.key, name.bytes())
    }
}

impl UniqueVuf for KeyedVuf {
    ghost one_value = { λ key name first second is also. is ∙ sym also };
}
