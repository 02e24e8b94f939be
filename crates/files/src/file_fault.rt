ghost use Rattle.std.specs.Prelude.{◌≡◌, IfErr};
ghost use Rattle.textio.specs.declared.program_fault.ProgramFault.TheVariants.{CannotWrite};
ghost use Rattle.textio.specs.Faults.{IsDeviceFault};

use std::alloc::AllocError;
use std::io;
use textio::{ProgramFault, file_fault};
use thiserror::Error;

/// Why the system did not do what was asked of a file.
#[derive(Clone, Copy, Debug, Error)]
#[error("{error}")]
pub struct FileFault {
    /// The fault that a program ends with.
    pub fault: ProgramFault,
    /// What the system said.
    pub error: io::Error,
}

impl FileFault {
    /// Of a file that could not be opened to be read, or read.
    pub(crate) fn unread(error: io::Error) -> Self
        ensures { IsDeviceFault result.fault }
    {
        FileFault {
            fault: file_fault(&error),
            error,
        }
    }

    /// Of a file that could not be written.
    pub(crate) fn unwritten(error: io::Error) -> Self
        ensures { result.fault ≡ CannotWrite }
    {
        FileFault {
            fault: ProgramFault::CannotWrite,
            error,
        }
    }
}

impl From<AllocError> for FileFault {
    ghost use Rattle.std.specs.Prelude.{◌≡◌};
    ghost use Rattle.textio.specs.declared.program_fault.ProgramFault.TheVariants.{OutOfMemory};

    ghost from_gives = { λ _ why. why.fault ≡ OutOfMemory };

    fn from(given: AllocError) -> Self {
        FileFault {
            fault: ProgramFault::OutOfMemory,
            error: io::Error::from(given),
        }
    }
}
