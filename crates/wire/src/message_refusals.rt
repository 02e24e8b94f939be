ghost use Rattle.std.specs.Prelude.{◌≡◌};

use encoding::Fault;
use std::alloc::AllocError;
use thiserror::Error;

/// Why a piece of a stream is not taken.
#[derive(Clone, Copy, Debug, PartialEq, Eq, Error)]
pub enum FeedRefusal {
    #[error("the stream had a length that no frame has")]
    BadFrame,

    #[error("{}", rootchain::Refusal::Memory)]
    Memory,
}

impl FeedRefusal {
    ghost use Rattle.wire.specs.Refusals.{feed_refusal_number};

    /// The number of this refusal.
    pub fn number(self) -> u8
        ensures { result ≡ feed_refusal_number self }
    {
        match self {
            FeedRefusal::BadFrame => 1,
            FeedRefusal::Memory => 14,
        }
    }
}

impl From<AllocError> for FeedRefusal {
    ghost use Rattle.wire.specs.declared.message_refusals.FeedRefusal.TheVariants.{Memory};

    ghost from_gives = { λ _ refusal. refusal ≡ Memory };

    fn from(_failed: AllocError) -> FeedRefusal {
        FeedRefusal::Memory
    }
}

/// Why a frame is no request, or no response: the first of these that applies.
#[derive(Clone, Copy, Debug, PartialEq, Eq, Error)]
pub enum ReadRefusal {
    #[error("no message is of this kind")]
    BadKind,

    #[error("the body is not of the form of its kind")]
    BadBody,
}

impl ReadRefusal {
    ghost use Rattle.wire.specs.Refusals.{read_refusal_number};

    /// The number of this refusal.
    pub fn number(self) -> u8
        ensures { result ≡ read_refusal_number self }
    {
        match self {
            ReadRefusal::BadKind => 2,
            ReadRefusal::BadBody => 3,
        }
    }
}

impl From<Fault> for ReadRefusal {
    ghost use Rattle.wire.specs.declared.message_refusals.ReadRefusal.TheVariants.{BadBody};

    ghost from_gives = { λ _ refusal. refusal ≡ BadBody };

    fn from(_fault: Fault) -> ReadRefusal {
        ReadRefusal::BadBody
    }
}
