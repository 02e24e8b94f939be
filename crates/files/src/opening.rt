// Files are opened to be read and appended to.
ghost use Rattle.std.specs.Fs.{asks_append, asks_read};
ghost use Rattle.std.specs.Prelude.{◌≡◌, true, IfErr, Some};
ghost use Rattle.files.specs.Faults.{IsLockFault, IsSystemFault};
ghost use Rattle.files.specs.Folders.{folder_of, or_here};

use crate::FileFault;
use std::fs::{File, Files, OpenOptions, TryLockError};
use std::io::{self, ErrorKind, Read};
use std::os::unix::fs::OpenOptionsExt;
use std::path::Path;
use textio::{ProgramFault, file_fault};
use thiserror::Error;

/// Who may do what with a file that is made: its owner may read and write it, and nobody else.
pub(crate) const OWNER_ALONE: u32 = 0o600;

/// Why a file could not be opened and locked.
#[derive(Clone, Copy, Debug, Error)]
pub enum LockFault {
    /// Another process has it.
    #[error("another process has the file")]
    Taken,
    #[error("{0}")]
    File(FileFault),
}

/// Whether a file that is there can be read.
fn read_byte<F: Files<File = File>>(files: &F, path: &str) -> io::Result<usize> {
    File::open(files, path)?.read(&mut [0])
}

/// Why a file could not be opened to be read and written: memory was wanting; or it is there and cannot be read; or
/// else it could not be made or written.
fn fault_of<F: Files<File = File>>(files: &F, path: &str, error: &io::Error) -> ProgramFault
    ensures { IsSystemFault result }
{
    if error.kind() == ErrorKind::OutOfMemory {
        return ProgramFault::OutOfMemory;
    }
    if files.metadata(path).is_err() {
        return ProgramFault::CannotWrite;
    }
    match read_byte(files, path) {
        Ok(_) => ProgramFault::CannotWrite,
        Err(error) => file_fault(&error),
    }
}

/// The same, with what the system said.
fn unopened<F: Files<File = File>>(files: &F, path: &str, error: io::Error) -> FileFault
    ensures { IsSystemFault result.fault }
{
    FileFault {
        fault: fault_of(files, path, &error),
        error,
    }
}

/// The folder that has the file of this path.
fn folder_of(path: &str) -> &str
    ensures { result.now ≡ folder_of path.now }
{
    match Path::new(path).parent() {
        Some(folder) => or_here(folder.as_str()),
        None => ".",
    }
}

/// The current folder, where the text names no other.
fn or_here(folder: &str) -> &str
    ensures { result.now ≡ or_here (Some folder.now) }
{
    if folder.is_empty() { "." } else { folder }
}

/// Puts the entries of the folder that has the file of this path on its disk.
pub(crate) fn sync_folder<F: Files<File = File>>(files: &F, path: &str) -> io::Result<()> {
    File::open(files, folder_of(path))?.sync_all()
}

/// A file whose entry is on the disk of its folder. That of one that is not new may not be: whoever made it, or had it take
/// the place of another, may have been stopped before.
fn with_entry<F: Files<File = File>>(files: &F, path: &str, file: File) -> Result<File, FileFault>
    ensures { IfErr result (λ why. IsSystemFault why.fault) }
{
    match sync_folder(files, path) {
        Ok(()) => Ok(file),
        Err(error) => Err(FileFault::unwritten(error)),
    }
}

/// How a kept file is opened.
fn options() -> OpenOptions
    ensures reads { asks_read result ≡ true }
    ensures appends { asks_append result ≡ true }
{
    let mut options = OpenOptions::new();
    // No clause of the system says what this leaves as it was.
    options.mode(OWNER_ALONE);
    options.read(true).append(true);
    options
}

/// A file that is there, to be read and appended to, or `None` if there is none of this path.
///
/// # Errors
///
/// `CannotRead`; `CannotWrite`; `OutOfMemory`.
pub fn open_existing<F: Files<File = File>>(
    files: &F,
    path: &str,
) -> Result<Option<File>, FileFault>
    ensures { IfErr result (λ why. IsSystemFault why.fault) }
{
    match options().open(files, path) {
        Ok(file) => Ok(Some(with_entry(files, path, file)?)),
        Err(error) => match error.kind() {
            ErrorKind::NotFound => Ok(None),
            _ => Err(unopened(files, path, error)),
        },
    }
}

/// A file, to be read and appended to. If there is none of this path, an empty one is made, which its owner alone may
/// read and write.
///
/// # Errors
///
/// `CannotRead`: it is there and cannot be read; `CannotWrite`; `OutOfMemory`.
pub fn open_kept<F: Files<File = File>>(files: &F, path: &str) -> Result<File, FileFault>
    ensures { IfErr result (λ why. IsSystemFault why.fault) }
{
    let mut options = options();
    options.create(true);
    match options.open(files, path) {
        Ok(file) => with_entry(files, path, file),
        Err(error) => Err(unopened(files, path, error)),
    }
}

/// The same, locked until it is closed.
///
/// # Errors
///
/// `Taken` if another process has it locked; those of `open_kept`.
pub fn open_locked<F: Files<File = File>>(files: &F, path: &str) -> Result<File, LockFault>
    ensures { IfErr result IsLockFault }
{
    let file = match open_kept(files, path) {
        Ok(file) => file,
        Err(why) => return Err(LockFault::File(why)),
    };
    match file.try_lock() {
        Ok(()) => Ok(file),
        Err(TryLockError::WouldBlock) => Err(LockFault::Taken),
        Err(TryLockError::Error(error)) => Err(LockFault::File(FileFault::unwritten(error))),
    }
}
