ghost use Rattle.std.specs.Prelude.{◌≡◌};
ghost use Rattle.std.specs.IoError.{error_kind};
ghost use Rattle.textio.specs.Faults.{of_system, IsDeviceFault};

use crate::ProgramFault;
use std::io::{self, ErrorKind};

/// The program's fault for an error that the system gives when a file is opened or read.
pub fn file_fault(error: &io::Error) -> ProgramFault
    ensures is { result ≡ of_system (error_kind error.now) }
    ensures device { IsDeviceFault result }
{
    match error.kind() {
        ErrorKind::OutOfMemory => ProgramFault::OutOfMemory,
        _ => ProgramFault::CannotRead,
    }
}
