//! A checker that accepts each value. With it the questions reach what the stand-ins refuse, such as two
//! values of one name.
ghost use Rattle.std.specs.Prelude.{⊤};

use encoding::{Hash32, Name};
use vrfiface::VufCheck;

/// Accepts each value.
#[derive(Drop)]
pub(crate) struct AnyVuf;

impl VufCheck for AnyVuf {
    ghost accepted = { λ key name value. ⊤ };

    fn accepts(&self, _key: &Hash32, _name: &Name, _value: &[u8]) -> bool {
        true
    }
}
