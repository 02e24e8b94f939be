ghost use Rattle.std.specs.Prelude.{◌≡◌, refl};
ghost use Rattle.std.proofs.Common.{◌∙◌, sym, lit≤};
ghost use Rattle.std.proofs.Math.Nat.{le_trans};
ghost use Rattle.vrfiface.specs.StandIns.{plain_key, plain_value};

use crate::{UniqueVuf, Vuf, VufCheck};
use encoding::{Hash32, Name, Small};

/// A stand-in that gives no security, for tests that a reader can follow by hand: the value of a name
/// is the name, under any key.
#[derive(Debug, Drop)]
pub struct PlainVuf;

impl VufCheck for PlainVuf {
    ghost accepted = { λ key name value. value ≡ plain_value key name };

    fn accepts(&self, _key: &Hash32, name: &Name, value: &[u8]) -> bool {
        value == name.bytes()
    }
}

impl Vuf for PlainVuf {
    ghost public_key = { λ _. plain_key };

    ghost value_of = { plain_value };

    ghost value_is_accepted = { λ vuf name. refl };

    ghost value_size = { λ key name named. (named.0, le_trans named.1 (lit≤ tt), named.2) };

    fn public(&self) -> Hash32 {
        Hash32::default()
    }

    fn value(&self, name: &Name) -> Small {
        // A name has at most 255 bytes, so it is a small value; `unreachable!` is proved.
        let Ok(value) = Small::new(name.bytes()) else {
            unreachable!()
        };
        value
    }
}

impl UniqueVuf for PlainVuf {
    ghost one_value = { λ key name first second is also. is ∙ sym also };
}
