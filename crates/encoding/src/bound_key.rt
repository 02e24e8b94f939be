ghost use Rattle.std.specs.Prelude.{◌≡◌, ◌≤◌, length};
ghost use Rattle.encoding.specs.Limits.{IsKeyData};
ghost use Rattle.encoding.specs.Policies.{policy_bytes};

use crate::{KeyData, Policy};

/// A key that is bound to a name, with the policy of the binding, which one of version 1 does not have.
#[derive(Debug, Drop, PartialEq, Eq)]
pub struct BoundKey {
    pub value: KeyData,
    pub policy: Option<Policy>,
}

impl BoundKey {
    /// A copy of the key.
    pub fn copied(&self) -> BoundKey
        ensures { result ≡ self.now }
    {
        BoundKey {
            value: self.value.copied(),
            policy: self.policy,
        }
    }

    /// The bytes of the key.
    pub fn bytes(&self) -> &[u8]
        ensures value { result.now ≡ self.now.value }
        ensures limits { IsKeyData self.now.value }
        ensures policy { length (policy_bytes self.now.policy) ≤ 1 }
    {
        self.value.bytes()
    }
}
