// Records are put on the disk before an answer tells of them: each write to the file sets a mark, and what
// writes answers syncs first where it meets the mark. Contracts do not know what a disk has, so the clauses
// say only what is written. `scripts/drive/journal.sh` shows what a file has after a stop of the program.
ghost use Rattle.std.specs.Prelude.{◌≡◌, IfErr, OnOk};
ghost use Rattle.std.specs.Io.{WritesAtMost};
ghost use Rattle.std.specs.Io.KnownBytes.{Appends};
ghost use Rattle.textio.specs.Faults.{IsDeviceFault};
ghost use Rattle.textio.specs.Output.{WritesBeginning};

use files::read_rest;
use std::alloc::Global;
use std::cell::Cell;
use std::fs::File;
use std::io::{self, Error, ErrorKind, Write};
use textio::{ProgramFault, StreamFault, write_text};

/// How what was written to a file stands on its disk.
#[derive(Clone, Copy, Debug, PartialEq, Eq)]
enum DiskState {
    Synced,
    Unsynced,
    /// A sync failed. What the disk has is then not known, so that nothing is written or told any more.
    Failed,
}

/// A file and the mark of what was written to it.
#[derive(Drop)]
pub(crate) struct Disk {
    file: File,
    state: Cell<DiskState>,
    /// What the system said when it last did not do what was asked.
    error: Cell<Option<Error>>,
}

impl Disk {
    /// A file that was just opened. What it has may be in the memory of the system alone.
    pub(crate) fn new(file: File) -> Self {
        Disk {
            file,
            state: Cell::new(DiskState::Unsynced),
            error: Cell::new(None),
        }
    }

    /// The last error of the system, if there was one.
    pub(crate) fn error(&self) -> Option<Error> {
        self.error.get()
    }

    /// What the system said of a sync that failed, if one did.
    pub(crate) fn sync_error(&self) -> Option<Error> {
        if self.state.get() == DiskState::Failed {
            self.error.get()
        } else {
            None
        }
    }

    /// All bytes of the file that were not read yet.
    ///
    /// # Errors
    ///
    /// `CannotRead`; `OutOfMemory`.
    pub(crate) fn read(&self, alloc: Global) -> Result<Vec<u8>, ProgramFault>
        ensures { IfErr result IsDeviceFault }
    {
        match read_rest(alloc, &mut &self.file) {
            Ok(bytes) => Ok(bytes),
            Err(why) => {
                self.error.set(Some(why.error));
                Err(why.fault)
            }
        }
    }

    /// How many bytes the file has.
    pub(crate) fn size(&self) -> io::Result<u64> {
        Ok(self.file.metadata()?.len())
    }

    /// Cuts the file to its first bytes, of this number.
    pub(crate) fn cut(&self, size: usize) -> io::Result<()> {
        match self.file.set_len(size as u64) {
            Ok(()) => Ok(()),
            Err(error) => {
                self.error.set(Some(error));
                Err(error)
            }
        }
    }

    /// Writes to the end of the file.
    pub(crate) fn write(&self, bytes: &[u8]) -> io::Result<usize>
        ensures { WritesAtMost result bytes.now }
    {
        if self.state.get() == DiskState::Failed {
            return Err(Error::from(ErrorKind::Other));
        }
        self.state.set(DiskState::Unsynced);
        match (&mut &self.file).write(bytes) {
            Ok(count) => Ok(count),
            Err(error) => {
                self.error.set(Some(error));
                Err(error)
            }
        }
    }

    /// Puts on the disk what was written since the last sync, if anything was.
    pub(crate) fn sync(&self) -> io::Result<()> {
        match self.state.get() {
            DiskState::Synced => Ok(()),
            DiskState::Failed => Err(Error::from(ErrorKind::Other)),
            DiskState::Unsynced => {
                if let Err(error) = self.file.sync_data() {
                    self.state.set(DiskState::Failed);
                    self.error.set(Some(error));
                    return Err(error);
                }
                self.state.set(DiskState::Synced);
                Ok(())
            }
        }
    }
}

/// Writes answers, once the records of what they tell are on the disk of their file, if there is one.
///
/// # Errors
///
/// `CannotWrite`, with a beginning of the answers written, and none of them if the sync failed.
pub(crate) fn write_answers<W: Write>(
    disk: Option<&Disk>,
    writer: &mut W,
    answers: &[u8],
) -> Result<(), StreamFault>
    ensures ok { OnOk result (Appends (W.contents writer.old) (W.contents writer.new) answers.now) }
    ensures err { IfErr result (λ fault. (fault ≡ StreamFault.CannotWrite)
        × WritesBeginning (W.contents writer.old) (W.contents writer.new) answers.now) }
{
    if answers.is_empty() {
        return Ok(());
    }
    if let Some(disk) = disk {
        if disk.sync().is_err() {
            return Err(StreamFault::CannotWrite);
        }
    }
    write_text(writer, answers)
}
