//! The functions under which questions are answered.

use encoding::Hash32;
use nodehash::{Sha256Hash, SumHash};
use sigiface::KeyedSign;
use vrfiface::{KeyedVuf, PlainVuf};

/// A hash function, a checker of values and one of signatures, of which none needs a key.
#[derive(Drop)]
pub(crate) struct Functions<H, V> {
    pub(crate) hash: H,
    pub(crate) vuf: V,
    pub(crate) verifier: KeyedSign,
}

/// SHA-256 and keyed values.
pub(crate) type Keyed = Functions<Sha256Hash, KeyedVuf>;

/// Sums of bytes, and names as their own values.
pub(crate) type Summed = Functions<SumHash, PlainVuf>;

pub(crate) fn keyed() -> Keyed {
    Functions {
        hash: Sha256Hash::new(),
        vuf: KeyedVuf::new(Hash32::default()),
        verifier: KeyedSign::new(Hash32::default()),
    }
}

pub(crate) fn summed() -> Summed {
    Functions {
        hash: SumHash::new(),
        vuf: PlainVuf,
        verifier: KeyedSign::new(Hash32::default()),
    }
}
