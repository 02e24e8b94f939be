ghost use Rattle.std.specs.Prelude.{◌≡◌};

use crate::{Refusal, RootEvidence};
use std::alloc::AllocError;
use thiserror::Error;

/// Why a chain refuses a list of roots.
#[derive(Debug, Drop, PartialEq, Eq, Error)]
pub enum ListRefusal {
    /// A root does not verify under the key of the chain.
    #[error("the signature of a root does not verify")]
    BadSignature,

    /// A root is of an epoch before that of the chain's first root.
    #[error("a root is of an epoch before the first one of the chain")]
    BeforeStart,

    /// A root names a later epoch than the head's as the one before its own.
    #[error("a root names a later epoch than the head's as the one before")]
    Ahead,

    /// A root is evidence with a root of the chain.
    #[error("a root is evidence with a root of the chain")]
    Evidence(RootEvidence),

    /// There is no memory for all roots of the list.
    #[error("{}", Refusal::Memory)]
    Memory,
}

impl From<AllocError> for ListRefusal {
    ghost use Rattle.rootchain.specs.declared.list_refusal.ListRefusal.TheVariants.{Memory};

    ghost from_gives = { λ _ refusal. refusal ≡ Memory };

    fn from(_failed: AllocError) -> ListRefusal {
        ListRefusal::Memory
    }
}
