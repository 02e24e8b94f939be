// The file of a journal is opened and locked, and the directory in it put behind a hub. Contracts do not know
// what the system does with a file: `scripts/drive/journal.sh` shows it.
ghost use Rattle.std.specs.Prelude.{◌≡◌, ◌≢◌, ℕ, [], codes, Err, IfErr, IfOk, None, OnOk, ⊤};
ghost use Rattle.std.specs.Io.KnownBytes.{Appends};
ghost use Rattle.textio.specs.declared.program_fault.ProgramFault.TheVariants.{BadHex};
ghost use Rattle.server.specs.Programs.{AfterJournal, IsReopened, TellsWhy};
ghost use Rattle.files.specs.Faults.{IsSystemFault};
ghost use Rattle.files.specs.Telling.{TellsError};
ghost use Rattle.server.specs.Reopening.{journal_line, HasReopened, IsUnopened};

use crate::disk::Disk;
use crate::journal_file::DiskFile;
use crate::keys::{Keys, ServedDesk};
use crate::reopening::{Reopened, reopen};
use crate::telling::tell_journal;
use files::{FileFault, LockFault, open_locked, tell_error};
use hub::Hub;
use journal::Journal;
use std::alloc::Global;
use std::fs::{File, Files};
use std::io::{self, Write};
use textio::ProgramFault;

/// How a line about the file of a journal begins.
const JOURNAL: &str = "journal: ";

/// Says what the system said of the file of a journal, if it said anything.
fn tell_said<E: Write>(alloc: Global, path: &str, error: Option<io::Error>, errors: &mut E)
    ensures { TellsError (codes "journal: ") path.now (E.contents errors.old) (E.contents errors.new) }
{
    let Some(error) = error else {
        return;
    };
    tell_error(alloc, JOURNAL, path, &error, errors);
}

/// The same, where a read or a write failed.
pub(crate) fn tell_why<E: Write>(
    alloc: Global,
    path: &str,
    fault: ProgramFault,
    error: Option<io::Error>,
    errors: &mut E,
)
    ensures { TellsWhy path.now fault (E.contents errors.old) (E.contents errors.new) }
{
    match fault {
        ProgramFault::CannotRead | ProgramFault::CannotWrite => {
            tell_said(alloc, path, error, errors);
        }
        _ => {}
    }
}

/// Opens the file, made empty for its owner alone if there is none, and locks it.
fn open_alone<F: Files<File = File>>(files: &F, path: &str) -> Result<File, FileFault>
    ensures { IfErr result (λ why. IsSystemFault why.fault) }
{
    match open_locked(files, path) {
        Ok(file) => Ok(file),
        Err(LockFault::Taken) => Err(FileFault {
            fault: ProgramFault::CannotWrite,
            error: io::Error::other("another process has it"),
        }),
        Err(LockFault::File(why)) => Err(why),
    }
}

/// Opens the file of a journal, made empty for its owner alone if there is none, and locks it. Writes go to its end. Where
/// that fails, a line to the errors says why.
pub(crate) fn open_file<F: Files<File = File>, E: Write>(
    alloc: Global,
    files: &F,
    path: &str,
    errors: &mut E,
) -> Result<Disk, ProgramFault>
    ensures still { OnOk result (errors.new ≡ errors.old) }
    ensures err { IfErr result (λ fault. IsSystemFault fault × TellsWhy path.now fault (E.contents errors.old) (E.contents errors.new)) }
{
    match open_alone(files, path) {
        Ok(file) => Ok(Disk::new(file)),
        Err(why) => {
            tell_why(alloc, path, why.fault, Some(why.error), errors);
            Err(why.fault)
        }
    }
}

/// Goes on with the directory of the file, or begins one in it. Where the system fails, a line to the errors says what it said.
fn reopen_told<E: Write>(
    alloc: Global,
    keys: &Keys,
    file: &mut DiskFile<'_>,
    path: &str,
    errors: &mut E,
) -> Result<Reopened, ProgramFault>
    ensures opens { IfOk result (λ now. HasReopened keys.now None now.directory None now.records now.cut) }
    ensures still { OnOk result (errors.new ≡ errors.old) }
    ensures err { IfErr result (λ fault. IsUnopened keys.now None fault × TellsWhy path.now fault (E.contents errors.old) (E.contents errors.new)) }
{
    match reopen(alloc, keys, file) {
        Ok(reopened) => Ok(reopened),
        Err(fault) => {
            tell_why(alloc, path, fault, file.error(), errors);
            Err(fault)
        }
    }
}

/// The hub of the directory that is kept in a file, once a line to the errors has told how many records
/// were taken, and how many bytes were cut off, if any were.
///
/// # Errors
///
/// Those of `reopen`; `CannotWrite` if the line cannot be written.
pub(crate) fn open_journal<'a, E: Write>(
    alloc: Global,
    keys: &Keys,
    disk: &'a Disk,
    path: &str,
    errors: &mut E,
) -> Result<Hub<ServedDesk<Journal<DiskFile<'a>>>>, ProgramFault>
    ensures ok { IfOk result (λ hub. (hub.sessions ≡ []) × (records cut : ℕ) × IsReopened keys.now hub.service records cut
        × Appends (E.contents errors.old) (E.contents errors.new) (journal_line records cut)) }
    ensures err { IfErr result (λ fault. AfterJournal keys.now path.now (E.contents errors.old) (E.contents errors.new) (Err fault) ⊤ (λ _ _. ⊥)) }
    ensures good_hex { IfErr result (λ fault. fault ≢ BadHex) }
{
    let mut file = DiskFile::new(disk);
    let Reopened {
        directory,
        records,
        cut,
    } = reopen_told(alloc, keys, &mut file, path, errors)?;
    tell_journal(records, cut, errors)?;
    Ok(Hub::new(alloc, directory, Journal::new(file), keys.token()))
}
