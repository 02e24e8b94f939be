ghost use Rattle.std.specs.Prelude.{◌≡◌, IfErr, IfOk, MatchResult};
ghost use Rattle.std.specs.Io.KnownBytes.{Keeps};
ghost use Rattle.textio.specs.Faults.{IsDeviceFault};
ghost use Rattle.textio.specs.declared.program_fault.ProgramFault.TheVariants.{CannotWrite};
ghost use Rattle.server.specs.Reopening.{Cuts, FileHolds};

use crate::disk::Disk;
use std::alloc::Global;
use std::io::{self, Write};
use textio::ProgramFault;

/// The file of a journal. What it holds are its contents as a writer, which writes at its end.
pub trait JournalFile: Write {
    /// All bytes of the file. Called once, before anything is written.
    ///
    /// # Errors
    ///
    /// `CannotRead`; `OutOfMemory`.
    fn read_all(&mut self, alloc: Global) -> Result<Vec<u8>, ProgramFault>
        ensures bytes { IfOk result (λ bytes. FileHolds (Self.contents self.old) bytes.items) }
        ensures kept { Keeps (Self.contents self.old) (Self.contents self.new) }
        ensures err { IfErr result IsDeviceFault };

    /// Cuts the file to its first bytes, of this number.
    ///
    /// # Errors
    ///
    /// `CannotWrite`: the file stays as it was.
    fn cut(&mut self, size: usize) -> Result<(), ProgramFault>
        ensures { MatchResult result (λ _. Cuts (Self.contents self.old) size (Self.contents self.new)) (λ fault. (fault ≡ CannotWrite) × Keeps (Self.contents self.old) (Self.contents self.new)) };
}

/// The file of a journal on a disk. Contracts do not know what it holds.
#[derive(Clone, Copy)]
pub struct DiskFile<'a> {
    disk: &'a Disk,
}

impl<'a> DiskFile<'a> {
    pub(crate) fn new(disk: &'a Disk) -> Self {
        DiskFile { disk }
    }

    /// What the system said when it last did not do what was asked, if it ever did not.
    pub(crate) fn error(&self) -> Option<io::Error> {
        self.disk.error()
    }
}

impl Write for DiskFile<'_> {
    fn write(&mut self, buf: &[u8]) -> io::Result<usize> {
        self.disk.write(buf)
    }

    fn flush(&mut self) -> io::Result<()> {
        Ok(())
    }
}

impl JournalFile for DiskFile<'_> {
    fn read_all(&mut self, alloc: Global) -> Result<Vec<u8>, ProgramFault> {
        self.disk.read(alloc)
    }

    fn cut(&mut self, size: usize) -> Result<(), ProgramFault> {
        match self.disk.cut(size) {
            Ok(()) => Ok(()),
            Err(_) => Err(ProgramFault::CannotWrite),
        }
    }
}
