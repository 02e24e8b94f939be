use textio::{ProgramFault, StreamFault};
use thiserror::Error;

/// Why the serving of a session stopped.
#[derive(Clone, Copy, Debug, PartialEq, Eq, Error)]
#[error("{}", ProgramFault::from(*self))]
pub enum ServeFault {
    CannotRead,
    CannotWrite,
    OutOfMemory,
    /// Memory ran out, and then the replies made so far could not be written.
    OutOfMemoryAndCannotWrite,
}

impl From<StreamFault> for ServeFault {
    ghost use Rattle.std.specs.Prelude.{◌≡◌};
    ghost use Rattle.server.specs.Faults.{serve_fault};

    ghost from_gives = { λ given fault. fault ≡ serve_fault given };

    fn from(given: StreamFault) -> Self {
        match given {
            StreamFault::CannotRead => ServeFault::CannotRead,
            StreamFault::CannotWrite => ServeFault::CannotWrite,
        }
    }
}

impl From<ServeFault> for ProgramFault {
    ghost use Rattle.std.specs.Prelude.{◌≡◌};
    ghost use Rattle.server.specs.Faults.{of_serving};

    ghost from_gives = { λ given fault. fault ≡ of_serving given };

    fn from(given: ServeFault) -> Self {
        match given {
            ServeFault::CannotRead => ProgramFault::CannotRead,
            ServeFault::CannotWrite => ProgramFault::CannotWrite,
            ServeFault::OutOfMemory => ProgramFault::OutOfMemory,
            ServeFault::OutOfMemoryAndCannotWrite => ProgramFault::CannotWrite,
        }
    }
}
