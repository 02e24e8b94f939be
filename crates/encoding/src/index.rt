ghost use Rattle.std.specs.Prelude.{◌≡◌, ℕ, List};
ghost use Rattle.encoding.specs.Bytes.{Is32Bytes};

use std::marker::Model;

/// The place of a name in the prefix tree (CONIKS, section 3): 32 bytes, which compare as byte
/// strings do.
///
/// Bit 0 is the most significant bit of the first byte.
#[derive(Clone, Copy, Debug, PartialEq, Eq, PartialOrd, Ord, Hash)]
pub struct Index {
    bytes: [u8; 32],
}

impl Model for Index {
    ghost Value = { List ℕ };

    ghost view = { λ index. index.bytes };

    ghost invariant = { λ index. Is32Bytes index.bytes };

    ghost inverse = { λ bytes. record { bytes = bytes } };
}

impl Index {
    /// The index that has these bytes.
    pub const fn new(bytes: [u8; 32]) -> Self
        ensures { result ≡ bytes }
    {
        Index { bytes }
    }

    /// The 32 bytes.
    pub fn bytes(&self) -> &[u8]
        ensures value { result.now ≡ self.now }
        ensures size { Is32Bytes self.now }
    {
        &self.bytes[..]
    }

    /// The 32 bytes by value.
    pub const fn to_bytes(self) -> [u8; 32]
        ensures { result ≡ self }
    {
        self.bytes
    }
}
