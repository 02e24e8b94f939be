ghost use Rattle.std.specs.Prelude.{◌≡◌};

use thiserror::Error;

/// Why a reply is refused: the first of these that applies.
#[derive(Clone, Copy, Debug, PartialEq, Eq, Error)]
pub enum Refusal {
    #[error("the bytes do not begin with a reply")]
    Malformed,
    #[error("more bytes follow the reply")]
    Trailing,
    #[error("the reply is under another signed root")]
    OtherRoot,
    #[error("the value is not accepted for the name")]
    BadVuf,
    #[error("the leaf that should show absence is that of the name's own index")]
    SameIndex,
    /// The leaf that should show absence does not agree with the name's index in as many bits as there
    /// are siblings.
    #[error("the leaf that should show absence is not on the way of the name's index")]
    OtherPrefix,
    #[error("the siblings do not lead from the root to the end")]
    PathMismatch,
}

impl Refusal {
    ghost use Rattle.proofs.specs.Refusals.{reply_refusal_number};

    /// The number of this refusal.
    pub fn number(self) -> u8
        ensures { result ≡ reply_refusal_number self }
    {
        match self {
            Refusal::Malformed => 1,
            Refusal::Trailing => 2,
            Refusal::OtherRoot => 3,
            Refusal::BadVuf => 4,
            Refusal::SameIndex => 5,
            Refusal::OtherPrefix => 6,
            Refusal::PathMismatch => 7,
        }
    }
}
