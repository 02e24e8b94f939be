ghost use Rattle.std.specs.Prelude.{◌≡◌};

use asking::AskFault;
use std::alloc::{AllocError, AllocFailed};
use textio::ProgramFault;

/// Why a run of questions stops.
#[derive(Clone, Copy, Debug, PartialEq, Eq)]
pub(crate) enum RunFault {
    /// A question stops.
    Ask(AskFault),
    /// A fault of the program, its input, its output or its files.
    Program(ProgramFault),
}

impl From<AskFault> for RunFault {
    ghost use Rattle.std.specs.Prelude.{◌≡◌};
    ghost use Rattle.runs.specs.declared.run_fault.RunFault.TheVariants.{Ask};

    ghost from_gives = { λ given fault. fault ≡ Ask given };

    fn from(given: AskFault) -> Self {
        RunFault::Ask(given)
    }
}

impl From<ProgramFault> for RunFault {
    ghost use Rattle.std.specs.Prelude.{◌≡◌};
    ghost use Rattle.runs.specs.declared.run_fault.RunFault.TheVariants.{Program};

    ghost from_gives = { λ given fault. fault ≡ Program given };

    fn from(given: ProgramFault) -> Self {
        RunFault::Program(given)
    }
}

impl From<AllocError> for RunFault {
    ghost use Rattle.std.specs.Prelude.{◌≡◌};
    ghost use Rattle.textio.specs.declared.program_fault.ProgramFault.TheVariants.{OutOfMemory};
    ghost use Rattle.runs.specs.declared.run_fault.RunFault.TheVariants.{Program};

    ghost from_gives = { λ _ fault. fault ≡ Program OutOfMemory };

    fn from(_: AllocError) -> Self {
        RunFault::Program(ProgramFault::OutOfMemory)
    }
}

impl<T: Drop> From<AllocFailed<T>> for RunFault {
    ghost use Rattle.std.specs.Prelude.{◌≡◌};
    ghost use Rattle.textio.specs.declared.program_fault.ProgramFault.TheVariants.{OutOfMemory};
    ghost use Rattle.runs.specs.declared.run_fault.RunFault.TheVariants.{Program};

    ghost from_gives = { λ _ fault. fault ≡ Program OutOfMemory };

    fn from(_: AllocFailed<T>) -> Self {
        RunFault::Program(ProgramFault::OutOfMemory)
    }
}
