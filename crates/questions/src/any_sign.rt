ghost use Rattle.std.specs.Prelude.{⊤};

use encoding::Hash32;
use sigiface::Verifier;

/// Accepts each signature, so that questions reach roots with signatures of any length.
#[derive(Drop)]
pub struct AnySign;

impl Verifier for AnySign {
    ghost verified = { λ key message signature. ⊤ };

    fn verify(&self, _key: &Hash32, _message: &[u8], _signature: &[u8]) -> bool {
        true
    }
}
