ghost use Rattle.std.specs.Prelude.{◌≡◌, IfErr, OnOk};
ghost use Rattle.std.specs.Io.KnownBytes.{Appends};
ghost use Rattle.textio.specs.Output.{WritesBeginning};
ghost use Rattle.journal.specs.Records.{record_bytes, IsRecord};

use crate::forms::record_text;
use book::{KeepFailed, Keeper, Record};
use std::io::Write;
use std::marker::Model;
use textio::{StreamFault, write_text};

/// Writes a record at the end of a writer.
///
/// # Errors
///
/// `CannotWrite`, with a beginning of the record written.
pub fn write_record<W: Write>(writer: &mut W, what: &Record) -> Result<(), StreamFault>
    ensures record { IsRecord what.now }
    ensures ok { OnOk result (Appends (W.contents writer.old) (W.contents writer.new) (record_bytes what.now)) }
    ensures err { IfErr result (λ fault. (fault ≡ StreamFault.CannotWrite)
        × WritesBeginning (W.contents writer.old) (W.contents writer.new) (record_bytes what.now)) }
{
    write_text(writer, record_text(what).bytes())
}

/// Writes each record at the end of a writer. After a write that failed it keeps nothing more.
#[derive(Drop)]
pub struct Journal<W: Write + Drop> {
    writer: W,
    is_broken: bool,
}

impl<W: Write + Drop> Model for Journal<W> {
    ghost use Rattle.journal.specs.Journals.{JournalState};

    ghost Value = { JournalState W };

    ghost view = { λ journal. record { writer = journal.writer; is_broken = journal.is_broken } };
}

impl<W: Write + Drop> Journal<W> {
    ghost use Rattle.std.specs.Prelude.{◌≡◌, false};

    /// A journal at the end of what the writer holds.
    pub fn new(writer: W) -> Self
        ensures { result ≡ record { writer = writer; is_broken = false } }
    {
        Journal {
            writer,
            is_broken: false,
        }
    }
}

impl<W: Write + Drop> Keeper for Journal<W> {
    ghost use Rattle.journal.specs.Journals.{KeepsRecord, LosesRecord};

    ghost kept = { KeepsRecord W.contents };

    ghost failed = { LosesRecord W.contents };

    fn keep(&mut self, what: &Record) -> Result<(), KeepFailed> {
        if self.is_broken {
            return Err(KeepFailed);
        }
        if write_record(&mut self.writer, what).is_err() {
            self.is_broken = true;
            return Err(KeepFailed);
        }
        Ok(())
    }
}
