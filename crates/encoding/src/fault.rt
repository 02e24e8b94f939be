ghost use Rattle.std.specs.Prelude.{◌≡◌};

use thiserror::Error;

/// Why bytes are refused.
#[derive(Clone, Copy, Debug, PartialEq, Eq, Error)]
pub enum Fault {
    #[error("the bytes end before the value does")]
    Short,

    #[error("bytes are left after the value")]
    Trailing,

    #[error("a length or a number is outside of its limits")]
    OutOfRange,
}

impl Fault {
    ghost use Rattle.encoding.specs.Faults.{fault_number};

    /// The number of this refusal.
    pub fn number(self) -> u8
        ensures { result ≡ fault_number self }
    {
        match self {
            Fault::Short => 1,
            Fault::Trailing => 2,
            Fault::OutOfRange => 3,
        }
    }
}
