// The file of a journal is read and opened. Then it is cut, or a new directory's start is written. A file
// that is refused stays as it was.
ghost use Rattle.std.specs.Prelude.{◌≡◌, IfErr, IfSome, MatchResult, OnOk, Some};
ghost use Rattle.std.specs.Io.KnownBytes.{Keeps};
ghost use Rattle.book.specs.Salts.{chacha_salts};
ghost use Rattle.journal.specs.Opened.{IsOpenRefusal, Opens};
ghost use Rattle.journal.specs.Records.{start_bytes};
ghost use Rattle.files.specs.Faults.{IsSystemFault};
ghost use Rattle.server.specs.Reopening.{at_stream, beginning_with, index_by, of_refusal, HasRead, HasReopened, HasStarted, IsUnopened, StartsLess, StaysAt};

use crate::JournalFile;
use crate::keys::{Keys, ServedDirectory};
use journal::{Opened, Refusal, open, records, write_record};
use nodehash::Sha256Hash;
use rand_chacha::ChaCha20Rng;
use sigiface::KeyedSign;
use std::alloc::Global;
use textio::ProgramFault;
use vrfiface::KeyedVuf;

/// What the bytes of a file open to.
#[derive(Drop)]
struct Reading {
    opened: Opened<Sha256Hash, KeyedVuf, KeyedSign, ChaCha20Rng>,
    /// How many whole records stand at the front of the bytes.
    records: u64,
    /// How many bytes there are.
    size: usize,
}

/// A directory as its journal left it.
#[derive(Drop)]
pub(crate) struct Reopened {
    pub(crate) directory: ServedDirectory,
    /// How many records were taken.
    pub(crate) records: u64,
    /// How many bytes were cut off.
    pub(crate) cut: usize,
}

/// The program's fault for a journal that is refused.
fn fault_of(refusal: Refusal) -> ProgramFault
    ensures { result ≡ of_refusal refusal }
{
    match refusal {
        Refusal::BadRecord => ProgramFault::BadRecord,
        Refusal::OtherKeys => ProgramFault::OtherKeys,
        Refusal::Memory => ProgramFault::OutOfMemory,
    }
}

/// What the bytes of a journal open to, with the salts of the stream of this number to come.
fn open_bytes(
    alloc: Global,
    keys: &Keys,
    bytes: &[u8],
    stream: u64,
) -> Result<Opened<Sha256Hash, KeyedVuf, KeyedSign, ChaCha20Rng>, Refusal>
    ensures { MatchResult result
        (Opens (index_by keys.now) (keys.now).signing_key (keys.now).vuf_key (chacha_salts (at_stream (keys.now).salt_key stream)) chacha_salts bytes.now)
        (IsOpenRefusal (index_by keys.now) (keys.now).signing_key (keys.now).vuf_key (chacha_salts (at_stream (keys.now).salt_key stream)) bytes.now) }
{
    open(
        alloc,
        bytes,
        keys.hash(),
        keys.vuf(),
        keys.signer(),
        keys.salts(stream),
    )
}

/// Reads the file, and opens its bytes. The file stays as it was, whatever comes.
fn read_journal<F: JournalFile>(
    alloc: Global,
    keys: &Keys,
    file: &mut F,
) -> Result<Reading, ProgramFault>
    ensures opens { MatchResult result (λ reading. HasRead keys.now (F.contents file.old) reading.opened reading.records reading.size)
        (IsUnopened keys.now (F.contents file.old)) }
    ensures stays { Keeps (F.contents file.old) (F.contents file.new) }
{
    let bytes = file.read_all(alloc)?;
    let records = records(&bytes);
    match open_bytes(alloc, keys, &bytes, records) {
        Ok(opened) => Ok(Reading {
            opened,
            records,
            size: bytes.len(),
        }),
        Err(refusal) => Err(fault_of(refusal)),
    }
}

/// Begins a directory, and has the file hold its start alone.
fn start_anew<F: JournalFile>(
    alloc: Global,
    keys: &Keys,
    file: &mut F,
) -> Result<ServedDirectory, ProgramFault>
    ensures starts { MatchResult result (λ directory. HasStarted keys.now (F.contents file.old) directory (F.contents file.new)) IsSystemFault }
    ensures stays { IfErr result (λ fault. StartsLess keys.now fault (F.contents file.old) (F.contents file.new)) }
{
    let directory = keys.begin(alloc)?;
    // A `?` would hide the fault behind its conversion, and the proof needs it.
    match write_start(keys, file) {
        Ok(()) => Ok(directory),
        Err(fault) => Err(fault),
    }
}

/// Has the file hold the start of a new directory alone.
fn write_start<F: JournalFile>(keys: &Keys, file: &mut F) -> Result<(), ProgramFault>
    ensures starts { OnOk result (IfSome (F.contents file.old) (λ all. F.contents file.new ≡ Some (start_bytes (beginning_with keys.now)))) }
    ensures fault { IfErr result IsSystemFault }
    ensures stays { IfErr result (λ fault. StartsLess keys.now fault (F.contents file.old) (F.contents file.new)) }
{
    file.cut(0)?;
    write_record(file, &keys.start())?;
    Ok(())
}

/// Goes on with the directory of the file, or begins one in it.
///
/// # Errors
///
/// `BadRecord` and `OtherKeys`; `CannotRead`, `OutOfMemory`, `CannotWrite`. The file is as it was. Only if its
/// bytes had nothing to take, and the write of a new start failed, it holds a beginning of this start.
pub(crate) fn reopen<F: JournalFile>(
    alloc: Global,
    keys: &Keys,
    file: &mut F,
) -> Result<Reopened, ProgramFault>
    ensures opens { MatchResult result
        (λ now. HasReopened keys.now (F.contents file.old) now.directory (F.contents file.new) now.records now.cut)
        (IsUnopened keys.now (F.contents file.old)) }
    ensures stays { IfErr result (λ fault. StaysAt keys.now fault (F.contents file.old) (F.contents file.new)) }
{
    let Reading {
        opened,
        records,
        size,
    } = read_journal(alloc, keys, file)?;
    match opened {
        Opened::Nothing => Ok(Reopened {
            directory: start_anew(alloc, keys, file)?,
            records: 0,
            cut: size,
        }),
        Opened::Directory(directory, taken) => {
            file.cut(taken)?;
            Ok(Reopened {
                directory,
                records,
                cut: size - taken,
            })
        }
    }
}
