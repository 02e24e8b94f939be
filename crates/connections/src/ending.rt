ghost use Rattle.std.specs.Prelude.{◌≡◌};
ghost use Rattle.connections.specs.Fitting.{ending_of};

/// Why a connection was closed.
#[derive(Clone, Copy, Debug, PartialEq, Eq)]
pub enum Ending {
    /// The peer sends no more, and took all that its session was answered.
    Done,
    /// A read or a write failed.
    Fault,
    /// It was idle for as long as is allowed: since the round ended in which something was last read from it or
    /// taken by it.
    Idle,
    /// A stop was ordered.
    Stopped,
    /// What its answers tell of is not on the disk.
    Unsynced,
    /// Memory ran out.
    Memory,
    /// Its session could not be opened, or refused a part.
    Refused,
}

/// Why a session was not opened, or did not hear.
#[derive(Clone, Copy, Debug, PartialEq, Eq)]
pub enum SessionFault {
    /// Memory ran out.
    Memory,
    /// Its number is in use, or too many sessions are open.
    Refused,
}

/// Why a connection is closed whose session was not opened, or did not hear.
pub(crate) fn ending_of(fault: SessionFault) -> Ending
    ensures { result ≡ ending_of fault }
{
    match fault {
        SessionFault::Memory => Ending::Memory,
        SessionFault::Refused => Ending::Refused,
    }
}
