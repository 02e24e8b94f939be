ghost use Rattle.std.specs.Prelude.{◌≡◌, Err};
ghost use Rattle.textio.specs.declared.program_fault.ProgramFault.TheVariants.{BadHex};
ghost use Rattle.server.specs.DirectoryOptions.{directory_values};
ghost use Rattle.server.specs.Programs.{DirectoryServes, ServesKept, ServesUnkept};

use crate::DirectoryOrder;
use crate::keys::Keys;
use crate::opening::{open_file, open_journal, tell_why};
use crate::serving::{serve, serve_on};
use book::NoKeeper;
use hub::Hub;
use nodehash::GroupSize;
use std::alloc::Global;
use std::fs::{File, Files};
use std::io::{Read, Write};
use textio::ProgramFault;

/// The number of the one session that is open at a time.
pub(crate) const SESSION: u32 = 1;

/// Begins a directory that is kept nowhere, and answers one session, from the reader to the writer.
fn serve_unkept<R: Read, W: Write>(
    alloc: Global,
    order: DirectoryOrder<'_>,
    reader: &mut R,
    writer: &mut W,
) -> Result<(), ProgramFault>
    ensures serves { ServesUnkept (directory_values order.entry) (R.remaining reader.old) (W.contents writer.old) result (R.remaining reader.new) (W.contents writer.new) }
    ensures unread { result ≡ Err BadHex → (reader.new ≡ reader.old) × (writer.new ≡ writer.old) }
{
    let keys = Keys::read(&order, GroupSize::Four)?;
    let directory = keys.begin(alloc)?;
    let mut hub = Hub::new(alloc, directory, NoKeeper, keys.token());
    serve(alloc, &mut hub, SESSION, reader, writer)?;
    Ok(())
}

/// Answers one session of the directory that is kept in the file of this path.
fn serve_kept<F: Files<File = File>, R: Read, W: Write, E: Write>(
    alloc: Global,
    files: &F,
    order: DirectoryOrder<'_>,
    path: &str,
    reader: &mut R,
    writer: &mut W,
    errors: &mut E,
) -> Result<(), ProgramFault>
    ensures serves { ServesKept (directory_values order.entry) path.now (R.remaining reader.old) (W.contents writer.old) (E.contents errors.old) result
        (R.remaining reader.new) (W.contents writer.new) (E.contents errors.new) }
    ensures unread { result ≡ Err BadHex → (reader.new ≡ reader.old) × (writer.new ≡ writer.old) }
{
    let keys = Keys::read(&order, GroupSize::Four)?;
    let disk = match open_file(alloc, files, path, errors) {
        Ok(disk) => disk,
        Err(fault) => return Err(fault),
    };
    let mut hub = match open_journal(alloc, &keys, &disk, path, errors) {
        Ok(hub) => hub,
        Err(fault) => return Err(fault),
    };
    match serve_on(alloc, &mut hub, SESSION, reader, writer, Some(&disk)) {
        Ok(()) => Ok(()),
        Err(why) => {
            let fault = ProgramFault::from(why);
            tell_why(alloc, path, fault, disk.sync_error(), errors);
            Err(fault)
        }
    }
}

/// Answers one session, from the reader to the writer, of a directory that begins with it, or of one
/// that is kept in the order's journal. A journal is opened first, and a line to the errors says how many
/// records were taken, and how many bytes were cut off, if any were. The answers leave once the records
/// of what they tell are on the disk.
///
/// # Errors
///
/// `BadHex`, before anything is read, if a text of the order is not 64 hexadecimal digits. Then those of
/// the journal: `BadRecord`, `OtherKeys`; `CannotRead` if it is there and cannot be read; `CannotWrite`
/// if it cannot be made, written or cut, or if another process holds it; a line to the errors says what the system said of
/// it, also where it fails later. Then `CannotRead`, `CannotWrite`
/// and `OutOfMemory`, where what was written is a beginning of the session's output; at `OutOfMemory` it has
/// the replies to all messages that were answered.
pub fn serve_directory<F: Files<File = File>, R: Read, W: Write, E: Write>(
    alloc: Global,
    files: &F,
    order: DirectoryOrder<'_>,
    reader: &mut R,
    writer: &mut W,
    errors: &mut E,
) -> Result<(), ProgramFault>
    ensures serves { DirectoryServes (directory_values order.entry) (R.remaining reader.old) (W.contents writer.old) (E.contents errors.old) result
        (R.remaining reader.new) (W.contents writer.new) (E.contents errors.new) }
    ensures unread { result ≡ Err BadHex → (reader.new ≡ reader.old) × (writer.new ≡ writer.old) }
{
    match order.journal {
        None => serve_unkept(alloc, order, reader, writer),
        Some(path) => serve_kept(alloc, files, order, path, reader, writer, errors),
    }
}
