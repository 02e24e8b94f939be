ghost use Rattle.std.specs.Prelude.{◌≡◌};

use rootchain::RootEvidence;
use thiserror::Error;

/// Why a call of a client is refused: the first reason that applies.
#[derive(Debug, Drop, PartialEq, Eq, Error)]
pub enum Refusal {
    /// The bytes are not of the form, or a root or a promise is refused.
    #[error(transparent)]
    Root(RootRefusal),
    /// The reply is refused.
    #[error(transparent)]
    Proof(#[from] proofs::Refusal),
    #[error("the chain has no such root")]
    UnknownRoot,
    /// These two roots are evidence against the provider.
    #[error("the root contradicts the chain")]
    RootDiffers(RootEvidence),
    #[error("{}", rootchain::Refusal::Memory)]
    Memory,
    #[error("no promise for the name is kept")]
    NoPromise,
}

/// Why a root, a list of roots or a promise is refused: what `rootchain::Refusal` says, but for want of
/// memory.
#[derive(Clone, Copy, Debug, PartialEq, Eq, Error)]
#[error("{}", rootchain::Refusal::from(*self))]
pub enum RootRefusal {
    Malformed,
    BadSignature,
    NotLater,
    BadLink,
}

impl RootRefusal {
    ghost use Rattle.client.specs.Refusals.{root_number};

    /// The number of this refusal.
    pub fn number(self) -> u8
        ensures { result ≡ root_number self }
    {
        rootchain::Refusal::from(self).number()
    }
}

impl From<RootRefusal> for rootchain::Refusal {
    ghost use Rattle.client.specs.Refusals.{chain_refusal};

    ghost from_gives = { λ given refusal. refusal ≡ chain_refusal given };

    /// The refusal of the same name.
    fn from(given: RootRefusal) -> Self {
        match given {
            RootRefusal::Malformed => rootchain::Refusal::Malformed,
            RootRefusal::BadSignature => rootchain::Refusal::BadSignature,
            RootRefusal::NotLater => rootchain::Refusal::NotLater,
            RootRefusal::BadLink => rootchain::Refusal::BadLink,
        }
    }
}

impl Refusal {
    ghost use Rattle.client.specs.Refusals.{client_refusal_number};

    /// The number of this refusal; that of a root's or a reply's refusal is its own.
    pub fn number(&self) -> u8
        ensures { result ≡ client_refusal_number self.now }
    {
        match self {
            Refusal::Root(why) => why.number(),
            Refusal::Proof(why) => why.number(),
            Refusal::UnknownRoot => 20,
            Refusal::RootDiffers(_) => 21,
            Refusal::Memory => 22,
            Refusal::NoPromise => 23,
        }
    }
}

impl From<rootchain::Refusal> for Refusal {
    ghost use Rattle.client.specs.Refusals.{of_root};

    ghost from_gives = { λ given refusal. refusal ≡ of_root given };

    /// The refusal of the same name.
    fn from(given: rootchain::Refusal) -> Self {
        match given {
            rootchain::Refusal::Malformed => Refusal::Root(RootRefusal::Malformed),
            rootchain::Refusal::BadSignature => Refusal::Root(RootRefusal::BadSignature),
            rootchain::Refusal::NotLater => Refusal::Root(RootRefusal::NotLater),
            rootchain::Refusal::BadLink => Refusal::Root(RootRefusal::BadLink),
            rootchain::Refusal::Memory => Refusal::Memory,
        }
    }
}
