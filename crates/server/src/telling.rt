ghost use Rattle.std.specs.Prelude.{◌≡◌, OnOk, IfErr};
ghost use Rattle.std.specs.Io.KnownBytes.{Appends};
ghost use Rattle.textio.specs.Output.{WritesBeginning};
ghost use Rattle.textio.specs.declared.program_fault.ProgramFault.TheVariants.{CannotWrite};
ghost use Rattle.server.specs.Reopening.{journal_line};

use encoding::FixedText;
use itoa::Buffer;
use std::io::Write;
use textio::{MAX_DIGITS, ProgramFault, write_text};

/// How many bytes the words of the line have.
const WORDS: usize = b"journal:  records taken,  bytes cut off\n".len();

const LINE: usize = WORDS + MAX_DIGITS + MAX_DIGITS;

/// The line about a journal.
fn journal_line(records: u64, cut: usize) -> FixedText<LINE>
    ensures { result ≡ journal_line records cut }
{
    let mut digits = Buffer::new();
    let mut line = FixedText::new();
    line.push_slice(b"journal: ");
    line.push_slice(digits.format(records).as_bytes());
    line.push_slice(b" records taken");
    if cut == 0 {
        line.push_slice(b"\n");
        return line;
    }
    line.push_slice(b", ");
    line.push_slice(digits.format(cut).as_bytes());
    line.push_slice(b" bytes cut off\n");
    line
}

/// Writes the line that says how many records of a journal were taken, and how many bytes were cut off.
pub(crate) fn tell_journal<E: Write>(
    records: u64,
    cut: usize,
    errors: &mut E,
) -> Result<(), ProgramFault>
    ensures ok { OnOk result (Appends (E.contents errors.old) (E.contents errors.new) (journal_line records cut)) }
    ensures err { IfErr result (λ fault. (fault ≡ CannotWrite) × WritesBeginning (E.contents errors.old) (E.contents errors.new) (journal_line records cut)) }
{
    write_text(errors, journal_line(records, cut).bytes())?;
    Ok(())
}
