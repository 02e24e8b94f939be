ghost use Rattle.std.specs.Prelude.{◌≡◌, ◌↔◌, IsOk, IfOk, IsOkUnless};
ghost use Rattle.encoding.specs.declared.fault.Fault.TheVariants.{OutOfRange};
ghost use Rattle.encoding.specs.Limits.{IsKeyData};

use crate::{Bounded, Fault};

/// The most bytes of a key.
pub const MAX_KEY_DATA_LEN: usize = 2048;

/// The key that is bound to a name: 1 to 2,048 bytes of any kind.
pub type KeyData = Bounded<MAX_KEY_DATA_LEN>;

impl KeyData {
    /// A key of these bytes. The only refusal is `OutOfRange`.
    pub fn new(bytes: &[u8]) -> Result<KeyData, Fault>
        ensures limits { IsOk result ↔ IsKeyData bytes.now }
        ensures value { IfOk result (λ key. key ≡ bytes.now) }
        ensures refusal { IsOkUnless result OutOfRange }
    {
        Bounded::checked(bytes)
    }

    /// The bytes.
    pub fn bytes(&self) -> &[u8]
        ensures value { result.now ≡ self.now }
        ensures limits { IsKeyData self.now }
    {
        self.as_slice()
    }
}
