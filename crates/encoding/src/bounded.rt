ghost use Rattle.std.specs.Prelude.{◌≡◌, ◌↔◌, ℕ, ◌≤◌, List, length, IsOk, IfOk, IsOkUnless};
ghost use Rattle.encoding.specs.declared.fault.Fault.TheVariants.{OutOfRange};
ghost use Rattle.encoding.specs.Limits.{IsBounded};

use crate::Fault;
use arrayvec::ArrayVec;
use std::marker::Model;

/// The fewest bytes of a name, a key or a small value.
pub const MIN_LEN: usize = 1;

/// Between 1 and `MOST` bytes, which compare as byte strings do. They are not on the heap.
///
/// `Name`, `KeyData` and `Small` each have their own `new` and `bytes`, whose clauses name what the bytes
/// are: `IsName`, `IsKeyData`, `IsSmall`.
#[derive(Debug, Drop, PartialEq, Eq, PartialOrd, Ord)]
pub struct Bounded<const MOST: usize> {
    bytes: ArrayVec<u8, MOST>,
}

impl<const MOST: usize> Model for Bounded<MOST> {
    ghost Value = { List ℕ };

    ghost view = { λ text. text.bytes.items };

    ghost invariant = { λ text. IsBounded MOST text.bytes.items };

    ghost inverse = { λ bytes. record { bytes = record { items = bytes } } };
}

impl<const MOST: usize> Bounded<MOST> {
    /// A copy of the bytes.
    pub fn copied(&self) -> Self
        ensures { result ≡ self.now }
    {
        Bounded::within_limits(self.bytes.as_slice())
    }

    pub(crate) fn checked(bytes: &[u8]) -> Result<Self, Fault>
        ensures limits { IsOk result ↔ IsBounded MOST bytes.now }
        ensures value { IfOk result (λ text. text ≡ bytes.now) }
        ensures refusal { IsOkUnless result OutOfRange }
    {
        if bytes.len() < MIN_LEN || MOST < bytes.len() {
            return Err(Fault::OutOfRange);
        }
        Ok(Bounded::within_limits(bytes))
    }

    pub(crate) fn within_limits(bytes: &[u8]) -> Self
        requires least { 1 ≤ length bytes.now }
        requires most { length bytes.now ≤ MOST }
        ensures { result ≡ bytes.now }
    {
        let mut own = ArrayVec::new();
        let fits = own.try_extend_from_slice(bytes).is_ok();
        prove!(fits);
        Bounded { bytes: own }
    }

    pub(crate) fn as_slice(&self) -> &[u8]
        ensures value { result.now ≡ self.now }
        ensures limits { IsBounded MOST self.now }
    {
        self.bytes.as_slice()
    }
}
