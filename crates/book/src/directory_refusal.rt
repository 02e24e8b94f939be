ghost use Rattle.std.specs.Prelude.{◌≡◌};

use std::alloc::{AllocError, AllocFailed};
use thiserror::Error;

/// Why a directory refuses a command. If several reasons apply, a call returns the first of them in
/// this order.
#[derive(Clone, Copy, Debug, PartialEq, Eq, Error)]
pub enum Refusal {
    #[error("the name has no byte, or more than 255")]
    BadName,

    #[error("the key has no byte, or more than 2,048")]
    BadKey,

    #[error("the policy is neither open nor final")]
    BadPolicy,

    #[error("the latest epoch has the name")]
    NameTaken,

    #[error("the latest epoch lacks the name")]
    NoSuchName,

    #[error("the binding of the name in the latest epoch is final")]
    FinalBinding,

    #[error("an operation on the name waits for the next epoch")]
    PendingExists,

    #[error("another name has the index of this one")]
    IndexTaken,

    #[error("there is no such epoch")]
    NoSuchEpoch,

    #[error("the epoch is not above the latest")]
    EpochNotLater,

    #[error("no operation on the name waits")]
    NoPromise,

    #[error("{}", rootchain::Refusal::Memory)]
    Memory,

    #[error("no root is asked for, or more than 64")]
    BadRange,

    #[error("the record was not kept")]
    KeepFailed,
}

impl Refusal {
    ghost use Rattle.book.specs.Refusals.{book_refusal_number};

    /// The number of this refusal.
    pub fn number(self) -> u8
        ensures { result ≡ book_refusal_number self }
    {
        match self {
            Refusal::BadName => 4,
            Refusal::BadKey => 5,
            Refusal::BadPolicy => 26,
            Refusal::NameTaken => 6,
            Refusal::NoSuchName => 7,
            Refusal::FinalBinding => 25,
            Refusal::PendingExists => 8,
            Refusal::IndexTaken => 9,
            Refusal::NoSuchEpoch => 10,
            Refusal::EpochNotLater => 11,
            Refusal::NoPromise => 13,
            Refusal::Memory => 14,
            Refusal::BadRange => 15,
            Refusal::KeepFailed => 19,
        }
    }
}

impl<T: Drop> From<AllocFailed<T>> for Refusal {
    ghost use Rattle.book.specs.declared.directory_refusal.Refusal.TheVariants.{Memory};

    ghost from_gives = { λ _ refusal. refusal ≡ Memory };

    fn from(_failed: AllocFailed<T>) -> Refusal {
        Refusal::Memory
    }
}

impl From<AllocError> for Refusal {
    ghost use Rattle.book.specs.declared.directory_refusal.Refusal.TheVariants.{Memory};

    ghost from_gives = { λ _ refusal. refusal ≡ Memory };

    fn from(_failed: AllocError) -> Refusal {
        Refusal::Memory
    }
}
