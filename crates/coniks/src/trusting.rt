//! Schemes that take everything. What is checked with them is all but the schemes' own answers.
ghost use Rattle.std.specs.Prelude.{⊤};

use encoding::{Hash32, Name};
use sigiface::Verifier;
use vrfiface::VufCheck;

/// Accepts any value for any name.
pub(crate) struct AnyValue;

impl VufCheck for AnyValue {
    ghost use Rattle.coniks.specs.Told.{any};

    ghost accepted = { any };

    fn accepts(&self, _key: &Hash32, _name: &Name, _value: &[u8]) -> bool {
        true
    }
}

/// Verifies any signature of any message.
pub(crate) struct AnySignature;

impl Verifier for AnySignature {
    ghost use Rattle.coniks.specs.Told.{any};

    ghost verified = { any };

    fn verify(&self, _key: &Hash32, _message: &[u8], _signature: &[u8]) -> bool {
        true
    }
}
