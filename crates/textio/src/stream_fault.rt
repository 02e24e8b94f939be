ghost use Rattle.std.specs.Prelude.{◌≡◌, ◌↔◌, IsOk, IfErr};
ghost use Rattle.std.specs.IoError.{error_kind};

use crate::ProgramFault;
use std::io::{Error, ErrorKind};
use thiserror::Error;

/// Why a text was not read or written.
#[derive(Clone, Copy, Debug, PartialEq, Eq, Error)]
#[error("{}", ProgramFault::from(*self))]
pub enum StreamFault {
    CannotRead,
    CannotWrite,
}

/// What to do about an error of a read or a write: try again where a signal interrupted it, else
/// answer this fault.
///
/// # Errors
///
/// The fault that was given.
pub fn after_error(error: &Error, fault: StreamFault) -> Result<(), StreamFault>
    ensures interrupted { IsOk result ↔ (error_kind error.now ≡ ErrorKind.Interrupted) }
    ensures err { IfErr result (λ given. given ≡ fault) }
{
    if error.kind() == ErrorKind::Interrupted {
        Ok(())
    } else {
        Err(fault)
    }
}
