ghost use Rattle.std.specs.Prelude.{◌≡◌};

use std::alloc::AllocError;
use textio::ProgramFault;
use thiserror::Error;

/// Why a file was not read.
#[derive(Clone, Copy, Debug, PartialEq, Eq, Error)]
#[error("{}", ProgramFault::from(*self))]
pub enum ReadFault {
    NotEvidence,
    OutOfMemory,
}

impl From<AllocError> for ReadFault {
    ghost use Rattle.std.specs.Prelude.{◌≡◌};
    ghost use Rattle.audits.specs.declared.read_fault.ReadFault.TheVariants.{OutOfMemory};

    ghost from_gives = { λ _ fault. fault ≡ OutOfMemory };

    fn from(_: AllocError) -> Self {
        ReadFault::OutOfMemory
    }
}

impl From<ReadFault> for ProgramFault {
    ghost use Rattle.std.specs.Prelude.{◌≡◌};
    ghost use Rattle.audits.specs.Faults.{of_reading};

    ghost from_gives = { λ given fault. fault ≡ of_reading given };

    fn from(given: ReadFault) -> Self {
        match given {
            ReadFault::NotEvidence => ProgramFault::NotEvidence,
            ReadFault::OutOfMemory => ProgramFault::OutOfMemory,
        }
    }
}
