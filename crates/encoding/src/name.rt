ghost use Rattle.std.specs.Prelude.{◌≡◌, ◌↔◌, IsOk, IfOk, IsOkUnless};
ghost use Rattle.encoding.specs.declared.fault.Fault.TheVariants.{OutOfRange};
ghost use Rattle.encoding.specs.Limits.{IsName};

use crate::{Bounded, Fault};

/// The most bytes of a name.
pub const MAX_NAME_LEN: usize = 255;

/// The name of a user: 1 to 255 bytes of any kind.
pub type Name = Bounded<MAX_NAME_LEN>;

impl Name {
    /// A name of these bytes. The only refusal is `OutOfRange`.
    pub fn new(bytes: &[u8]) -> Result<Name, Fault>
        ensures limits { IsOk result ↔ IsName bytes.now }
        ensures value { IfOk result (λ name. name ≡ bytes.now) }
        ensures refusal { IsOkUnless result OutOfRange }
    {
        Bounded::checked(bytes)
    }

    /// The bytes.
    pub fn bytes(&self) -> &[u8]
        ensures value { result.now ≡ self.now }
        ensures limits { IsName self.now }
    {
        self.as_slice()
    }
}
