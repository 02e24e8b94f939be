// What is written is on the disk before the call returns.
ghost use Rattle.std.specs.Prelude.{◌≡◌, ◌⊎◌, IfErr};
ghost use Rattle.textio.specs.declared.program_fault.ProgramFault.TheVariants.{CannotWrite, OutOfMemory};

use crate::FileFault;
use crate::opening::{OWNER_ALONE, sync_folder};
use std::alloc::Global;
use std::fs::{self, File, Files, OpenOptions};
use std::io::{self, ErrorKind, Write};
use std::os::unix::fs::OpenOptionsExt;

/// `CannotWrite`, if the system could not do what was asked.
fn written(outcome: io::Result<()>) -> Result<(), FileFault>
    ensures { IfErr result (λ why. why.fault ≡ CannotWrite) }
{
    match outcome {
        Ok(()) => Ok(()),
        Err(error) => Err(FileFault::unwritten(error)),
    }
}

/// Writes bytes to the end of a file, and puts them on its disk.
///
/// # Errors
///
/// `CannotWrite`: a beginning of the bytes may be written.
pub fn append(file: &mut File, bytes: &[u8]) -> Result<(), FileFault>
    ensures { IfErr result (λ why. why.fault ≡ CannotWrite) }
{
    if bytes.is_empty() {
        return Ok(());
    }
    match file.write_all(bytes) {
        Ok(()) => written(file.sync_data()),
        Err(error) => Err(FileFault::unwritten(error)),
    }
}

/// Cuts a file to its first bytes, of this number.
///
/// # Errors
///
/// `CannotWrite`.
pub fn cut(file: &File, size: usize) -> Result<(), FileFault>
    ensures { IfErr result (λ why. why.fault ≡ CannotWrite) }
{
    written(file.set_len(size as u64))
}

/// Has the file of this path hold these bytes, by a new file with `.new` behind its name that takes its place and has
/// the same permissions. After a stop at any moment it holds what it held before, or these bytes.
///
/// # Errors
///
/// `CannotWrite`; `OutOfMemory`.
pub fn replace<F: Files<File = File>>(
    alloc: Global,
    files: &F,
    path: &str,
    bytes: &[u8],
) -> Result<(), FileFault>
    ensures { IfErr result (λ why. (why.fault ≡ CannotWrite) ⊎ (why.fault ≡ OutOfMemory)) }
{
    let beside = format!(in alloc; "{path}.new")?;
    // A run that was stopped may have left one.
    let _removed = fs::remove_file(files, beside.as_str());
    match write_new(files, path, beside.as_str(), bytes) {
        Ok(()) => Ok(()),
        Err(error) => {
            // It would take room on a disk that is full.
            let _removed = fs::remove_file(files, beside.as_str());
            Err(FileFault::unwritten(error))
        }
    }
}

/// Writes a new file beside another one, and has it take its place.
fn write_new<F: Files<File = File>>(
    files: &F,
    path: &str,
    beside: &str,
    bytes: &[u8],
) -> io::Result<()> {
    let mut options = OpenOptions::new();
    options.write(true).create_new(true);
    options.mode(OWNER_ALONE);
    let mut file = options.open(files, beside)?;
    match files.metadata(path) {
        Ok(replaced) => file.set_permissions(replaced.permissions())?,
        Err(error) => {
            if error.kind() != ErrorKind::NotFound {
                return Err(error);
            }
        }
    }
    file.write_all(bytes)?;
    file.sync_all()?;
    fs::rename(files, beside, path)?;
    sync_folder(files, path)
}
