ghost use Rattle.std.specs.Prelude.{◌≡◌, ◌↔◌, IsOk, IfOk, IsOkUnless};
ghost use Rattle.encoding.specs.declared.fault.Fault.TheVariants.{OutOfRange};
ghost use Rattle.encoding.specs.Limits.{IsSmall};

use crate::{Bounded, Fault};

/// The most bytes of a small value.
pub const MAX_SMALL_LEN: usize = 256;

/// A signature or the value of a verifiable function: 1 to 256 bytes.
pub type Small = Bounded<MAX_SMALL_LEN>;

impl Small {
    /// A small value of these bytes. The only refusal is `OutOfRange`.
    pub fn new(bytes: &[u8]) -> Result<Small, Fault>
        ensures limits { IsOk result ↔ IsSmall bytes.now }
        ensures value { IfOk result (λ small. small ≡ bytes.now) }
        ensures refusal { IsOkUnless result OutOfRange }
    {
        Bounded::checked(bytes)
    }

    /// The bytes.
    pub fn bytes(&self) -> &[u8]
        ensures value { result.now ≡ self.now }
        ensures limits { IsSmall self.now }
    {
        self.as_slice()
    }
}
