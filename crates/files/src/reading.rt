// Files are read whole. Contracts do not know what a file contains, so the clauses speak of faults, and of the bytes of
// readers that are known.
ghost use Rattle.std.specs.Prelude.{◌≡◌, IfErr, IfOk, IfSome};
ghost use Rattle.textio.specs.Faults.{IsDeviceFault};

use crate::FileFault;
use std::alloc::Global;
use std::fs::{self, File, Files};
use std::io::Read;

/// All that an open file still has.
///
/// # Errors
///
/// `CannotRead`; `OutOfMemory`.
pub fn read_rest<R: Read>(alloc: Global, file: &mut R) -> Result<Vec<u8>, FileFault>
    ensures ok { IfOk result (λ bytes. IfSome (R.remaining file.old) (λ all. bytes.items ≡ all)) }
    ensures err { IfErr result (λ why. IsDeviceFault why.fault) }
{
    let mut bytes = Vec::new(alloc);
    match file.read_to_end(&mut bytes) {
        Ok(_) => Ok(bytes),
        Err(error) => Err(FileFault::unread(error)),
    }
}

/// The bytes of the file of this path.
///
/// # Errors
///
/// `CannotRead`; `OutOfMemory`.
pub fn read_at<F: Files>(alloc: Global, files: &F, path: &str) -> Result<Vec<u8>, FileFault>
    ensures { IfErr result (λ why. IsDeviceFault why.fault) }
{
    match fs::open(files, path) {
        Ok(mut file) => read_rest(alloc, &mut file),
        Err(error) => Err(FileFault::unread(error)),
    }
}
