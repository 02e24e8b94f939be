ghost use Rattle.std.specs.Prelude.{◌≡◌, ◌≤◌, ◌++◌, length, codes, decimal, OnOk, IfErr};
ghost use Rattle.std.specs.Io.KnownBytes.{Appends};
ghost use Rattle.textio.specs.declared.program_fault.TheConstants.{AFTER_NUMBER, FAULT_TEXT};
ghost use Rattle.textio.specs.Faults.{fault_text};
ghost use Rattle.textio.specs.Output.{WritesBeginning};

use crate::output::write_text;
use crate::stream_fault::StreamFault;
use encoding::FixedText;
use itoa::Buffer;
use std::alloc::{AllocError, AllocFailed};
use std::io::Write;
use thiserror::Error;

/// Why a program stopped, for every program of `directoryd`. Lines are numbered from 1.
#[derive(Clone, Copy, Debug, PartialEq, Eq, Error)]
pub enum ProgramFault {
    #[error("bad hex")]
    BadHex,
    #[error("line {0}: bad item")]
    BadItem(u64),
    #[error("line {0}: index repeated")]
    IndexRepeated(u64),
    /// A line of a script says nothing that a script can do.
    #[error("line {0}: not a command")]
    NotACommand(u64),
    #[error("not an evidence file")]
    NotEvidence,
    /// A journal has a record that cannot be carried out, or bytes that are none.
    #[error("journal: bad record")]
    BadRecord,
    /// A journal is one of other keys.
    #[error("journal: other keys")]
    OtherKeys,
    #[error("cannot read")]
    CannotRead,
    #[error("cannot write")]
    CannotWrite,
    #[error("cannot listen")]
    CannotListen,
    #[error("out of memory")]
    OutOfMemory,
}

impl From<StreamFault> for ProgramFault {
    ghost use Rattle.std.specs.Prelude.{◌≡◌};
    ghost use Rattle.textio.specs.Faults.{of_stream};

    ghost from_gives = { λ given fault. fault ≡ of_stream given };

    fn from(given: StreamFault) -> Self {
        match given {
            StreamFault::CannotRead => ProgramFault::CannotRead,
            StreamFault::CannotWrite => ProgramFault::CannotWrite,
        }
    }
}

impl From<AllocError> for ProgramFault {
    ghost use Rattle.std.specs.Prelude.{◌≡◌};
    ghost use Rattle.textio.specs.declared.program_fault.ProgramFault.TheVariants.{OutOfMemory};

    ghost from_gives = { λ _ fault. fault ≡ OutOfMemory };

    fn from(_: AllocError) -> Self {
        ProgramFault::OutOfMemory
    }
}

impl<T: Drop> From<AllocFailed<T>> for ProgramFault {
    ghost use Rattle.std.specs.Prelude.{◌≡◌};
    ghost use Rattle.textio.specs.declared.program_fault.ProgramFault.TheVariants.{OutOfMemory};

    ghost from_gives = { λ _ fault. fault ≡ OutOfMemory };

    fn from(_: AllocFailed<T>) -> Self {
        ProgramFault::OutOfMemory
    }
}

/// The most digits of a number of 64 bits.
pub const MAX_DIGITS: usize = 20;

/// The most bytes that stand before and after the number of a line.
const BEFORE_NUMBER: usize = b"line ".len();

const AFTER_NUMBER: usize = b": index repeated\n".len();

/// The most bytes of a fault's line.
const FAULT_TEXT: usize = BEFORE_NUMBER + MAX_DIGITS + AFTER_NUMBER;

type FaultText = FixedText<FAULT_TEXT>;

impl ProgramFault {
    /// The status that the program ends with.
    pub fn status(self) -> u8
        ensures { result ≡ 1 }
    {
        1
    }

    /// Writes the fault's line.
    ///
    /// # Errors
    ///
    /// `CannotWrite`, with a beginning of the line written.
    pub fn tell<W: Write>(self, writer: &mut W) -> Result<(), ProgramFault>
        ensures ok { OnOk result (Appends (W.contents writer.old) (W.contents writer.new) (fault_text self)) }
        ensures err { IfErr result (λ fault. (fault ≡ ProgramFault.CannotWrite)
            × WritesBeginning (W.contents writer.old) (W.contents writer.new) (fault_text self)) }
    {
        write_text(writer, self.text().bytes())?;
        Ok(())
    }

    fn text(self) -> FaultText
        ensures { result ≡ fault_text self }
    {
        match self {
            ProgramFault::BadHex => plain(b"bad hex\n"),
            ProgramFault::BadItem(line) => numbered(line, b": bad item\n"),
            ProgramFault::IndexRepeated(line) => numbered(line, b": index repeated\n"),
            ProgramFault::NotACommand(line) => numbered(line, b": not a command\n"),
            ProgramFault::NotEvidence => plain(b"not an evidence file\n"),
            ProgramFault::BadRecord => plain(b"journal: bad record\n"),
            ProgramFault::OtherKeys => plain(b"journal: other keys\n"),
            ProgramFault::CannotRead => plain(b"cannot read\n"),
            ProgramFault::CannotWrite => plain(b"cannot write\n"),
            ProgramFault::CannotListen => plain(b"cannot listen\n"),
            ProgramFault::OutOfMemory => plain(b"out of memory\n"),
        }
    }
}

fn plain(said: &[u8]) -> FaultText
    requires { length said.now ≤ FAULT_TEXT }
    ensures { result ≡ said.now }
{
    let mut text = FaultText::new();
    text.push_slice(said);
    text
}

fn numbered(line: u64, said: &[u8]) -> FaultText
    requires { length said.now ≤ AFTER_NUMBER }
    ensures { result ≡ codes "line " ++ decimal line ++ said.now }
{
    let mut digits = Buffer::new();
    let mut text = FaultText::new();
    text.push_slice(b"line ");
    text.push_slice(digits.format(line).as_bytes());
    text.push_slice(said);
    text
}
