ghost use Rattle.std.specs.Prelude.{◌≡◌, ℕ, List};
ghost use Rattle.encoding.specs.Bytes.{Is32Bytes};

use std::marker::Model;

/// A digest, or another value of that size, such as a nonce: 32 bytes, which compare as byte strings
/// do.
#[derive(Clone, Copy, Debug, Default, PartialEq, Eq, PartialOrd, Ord, Hash)]
pub struct Hash32 {
    bytes: [u8; 32],
}

impl Model for Hash32 {
    ghost Value = { List ℕ };

    ghost view = { λ hash. hash.bytes };

    ghost invariant = { λ hash. Is32Bytes hash.bytes };

    ghost inverse = { λ bytes. record { bytes = bytes } };
}

impl Hash32 {
    /// The hash that has these bytes.
    pub const fn new(bytes: [u8; 32]) -> Self
        ensures { result ≡ bytes }
    {
        Hash32 { bytes }
    }

    /// The 32 bytes.
    pub fn bytes(&self) -> &[u8]
        ensures value { result.now ≡ self.now }
        ensures size { Is32Bytes self.now }
    {
        &self.bytes[..]
    }

    /// The 32 bytes by value.
    pub const fn to_bytes(self) -> [u8; 32]
        ensures { result ≡ self }
    {
        self.bytes
    }
}
