ghost use Rattle.std.specs.Prelude.{◌≡◌};

use std::alloc::{AllocError, AllocFailed};
use textio::ProgramFault;
use thiserror::Error;

/// Why a question stops.
#[derive(Clone, Copy, Debug, PartialEq, Eq, Error)]
pub enum AskFault {
    /// The stream ended, failed or reached its time limit before a reply was whole.
    #[error("no reply")]
    NoReply,
    /// The chain does not begin, or does not get as far as a reply: roots do not come or are refused, which is told. Callers that
    /// count lists of roots return it, too, where those are more than `MAX_LISTS`.
    #[error("the chain does not get as far as the reply")]
    Stopped,
    #[error("{}", ProgramFault::OutOfMemory)]
    OutOfMemory,
}

impl From<AllocError> for AskFault {
    ghost use Rattle.std.specs.Prelude.{◌≡◌};
    ghost use Rattle.asking.specs.declared.ask_fault.AskFault.TheVariants.{OutOfMemory};

    ghost from_gives = { λ _ fault. fault ≡ OutOfMemory };

    fn from(_: AllocError) -> Self {
        AskFault::OutOfMemory
    }
}

impl<T: Drop> From<AllocFailed<T>> for AskFault {
    ghost use Rattle.std.specs.Prelude.{◌≡◌};
    ghost use Rattle.asking.specs.declared.ask_fault.AskFault.TheVariants.{OutOfMemory};

    ghost from_gives = { λ _ fault. fault ≡ OutOfMemory };

    fn from(_: AllocFailed<T>) -> Self {
        AskFault::OutOfMemory
    }
}
