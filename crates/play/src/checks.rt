ghost use Rattle.std.specs.Prelude.{◌≡◌};

use encoding::Hash32;
use nodehash::Sha256Hash;
use sigiface::KeyedSign;
use vrfiface::KeyedVuf;

/// The functions of those who check: their hash function, and what accepts values and signatures.
#[derive(Drop)]
pub struct Checks<H, V, S> {
    pub hash: H,
    pub vuf: V,
    pub verifier: S,
}

impl Checks<Sha256Hash, KeyedVuf, KeyedSign> {
    /// SHA-256, and the stand-ins under the provider's key.
    pub fn keyed(key: Hash32) -> Self
        ensures hash { result.hash ≡ 0 }
        ensures keys { (result.vuf ≡ key) × (result.verifier ≡ key) }
    {
        Checks {
            hash: Sha256Hash::new(),
            vuf: KeyedVuf::new(key),
            verifier: KeyedSign::new(key),
        }
    }
}
