ghost use Rattle.std.specs.Prelude.{◌≡◌, ◌↔◌, ℕ, List, IsTrue};
ghost use Rattle.encoding.specs.Limits.{IsName, IsSmall};

use encoding::{Hash32, Name, Small};

/// A checker of values, which needs no secret (CONIKS, sections 3 and 4).
pub trait VufCheck {
    // The public key, the name and the value of what is accepted: one relation for the type.
    ghost accepted: { List ℕ → List ℕ → List ℕ → Type 0 };

    /// Whether the value is accepted for the name under this public key.
    fn accepts(&self, key: &Hash32, name: &Name, value: &[u8]) -> bool
        ensures { IsTrue result ↔ accepted key.now name.now value.now };
}

/// A verifiable unpredictable function with its secret key. No law says that its values cannot be
/// predicted.
pub trait Vuf: VufCheck {
    // The public key of a function.
    ghost public_key: { Self → List ℕ };

    // The value under a public key of a name: one function for the type.
    ghost value_of: { List ℕ → List ℕ → List ℕ };

    /// The public key.
    fn public(&self) -> Hash32
        ensures { result ≡ public_key self.now };

    /// The value of a name.
    fn value(&self, name: &Name) -> Small
        ensures { result ≡ value_of (public_key self.now) name.now };

    // The value of a name is accepted under the public key.
    ghost value_is_accepted: { (vuf : Self) (name : List ℕ) →
        Self.accepted (public_key vuf) name (value_of (public_key vuf) name) };

    // The value of a name is a small value.
    ghost value_size: { (key name : List ℕ) → IsName name → IsSmall (value_of key name) };
}

/// A verifiable unpredictable function that accepts at most one value for a key and a name.
pub trait UniqueVuf: VufCheck {
    // Two values that are accepted for one key and name are equal.
    ghost one_value: { (key name first second : List ℕ) →
        Self.accepted key name first → Self.accepted key name second → first ≡ second };
}
