ghost use Rattle.std.specs.Prelude.{◌≡◌, ◌↔◌, ◌∷◌, Err, IfErr, List, Option, option_map};
ghost use Rattle.std.specs.IoError.{error_kind};
ghost use Rattle.clap.specs.Words.{kind_of};
ghost use Rattle.clap.specs.declared.error.kind.ErrorKind.TheVariants.{OutOfMemory};
ghost use Rattle.directoryd.specs.CommandLine.{status_of};
ghost use Rattle.directoryd.specs.Programs.{no_text, wrong_line, Prints, ShowsText};
ghost use Rattle.directoryd.specs.Orders.{texts_of};
ghost use Rattle.directoryd.specs.TextNames.{has_last};
ghost use Rattle.runs.specs.AskOptions.{ask_values};
ghost use Rattle.clap.specs.Words.{Text};
ghost use Rattle.directoryd.specs.declared.refusing.TheConstants.{WRONG_WORDS};

use crate::order::AskTexts;
use clap::Error;
use clap::error::ErrorKind;
use runs::AskOrder;
use std::alloc::Global;
use std::io::{self, ErrorKind as IoKind, Write};
use textio::{ProgramFault, write_text};

/// The status of words that order nothing.
const WRONG_WORDS: u8 = 2;

/// The line about words that are not UTF-8.
static NO_TEXT: &[u8] = b"error: invalid UTF-8 was detected in one or more arguments\n";

/// The line about a name that is to be text where the lines of the input are asked.
static NO_COMMAND: &[u8] =
    b"error: '--text' is for a COMMAND of the words; names in the lines of the input are hexadecimal digits\n";

/// The line about a last epoch of words that have none.
static NO_LAST: &[u8] =
    b"error: '--after' is for the COMMAND 'watch', 'watch2' or 'head' of the words\n";

/// Writes a text whole, and returns this status.
fn print<W: Write>(writer: &mut W, text: &[u8], status: u8) -> Result<u8, ProgramFault>
    ensures prints { Prints status text.now (W.contents writer.old) (W.contents writer.new) result }
    ensures err { IfErr result (λ fault. fault ≡ ProgramFault.CannotWrite) }
{
    write_text(writer, text)?;
    Ok(status)
}

/// The status of words that order nothing: 0 if they ask for help, else 2.
fn status(error: &Error) -> u8
    ensures { result ≡ status_of (kind_of error.now) }
{
    if error.use_stderr() { WRONG_WORDS } else { 0 }
}

/// Writes clap's text about words that order nothing, to the output if they ask for help, else to the
/// errors, and returns the status.
///
/// # Errors
///
/// `OutOfMemory`, with nothing written; `CannotWrite`.
pub fn refuse<W: Write, E: Write>(
    alloc: Global,
    error: &Error,
    writer: &mut W,
    errors: &mut E,
) -> Result<u8, ProgramFault>
    ensures memory { kind_of error.now ≡ OutOfMemory → result ≡ Err ProgramFault.OutOfMemory }
    ensures shows { ShowsText (status_of (kind_of error.now)) (W.contents writer.old) (W.contents writer.new)
        (E.contents errors.old) (E.contents errors.new) result }
{
    if error.kind() == ErrorKind::OutOfMemory {
        return Err(ProgramFault::OutOfMemory);
    }
    let text = format!(in alloc; "{error}")?;
    match status(error) {
        0 => print(writer, text.as_bytes(), 0),
        status => print(errors, text.as_bytes(), status),
    }
}

/// Says that the words are not UTF-8, or that there was no memory for them.
///
/// # Errors
///
/// `OutOfMemory` if the error is one of memory; `CannotWrite`.
pub fn refuse_bytes<E: Write>(error: &io::Error, errors: &mut E) -> Result<u8, ProgramFault>
    ensures memory { (result ≡ Err ProgramFault.OutOfMemory) ↔ (error_kind error.now ≡ IoKind.OutOfMemory) }
    ensures prints { Prints WRONG_WORDS no_text (E.contents errors.old) (E.contents errors.new) result }
    ensures wrong_words { WRONG_WORDS ≡ 2 }
{
    if error.kind() == IoKind::OutOfMemory {
        return Err(ProgramFault::OutOfMemory);
    }
    print(errors, NO_TEXT, WRONG_WORDS)
}

/// Whether the words ask what has a last epoch.
fn has_last(command: Option<&str>) -> bool
    ensures { (more : List (Option Text)) → result ≡ has_last (option_map (λ text. text.now) command.entry ∷ more) }
{
    match command {
        Some(command) => command == "watch" || command == "watch2" || command == "head",
        None => false,
    }
}

/// The line about options that the words have no use for, if there are some.
pub(crate) fn wrong_line<'a>(order: &AskOrder<'_>, texts: &AskTexts<'_>) -> Option<&'a [u8]>
    ensures { option_map (λ line. line.now) result ≡ wrong_line (ask_values order.now) (texts_of texts.now) }
{
    if texts.is_text && order.command.is_none() {
        return Some(NO_COMMAND);
    }
    if order.after.is_some() && !has_last(order.command) {
        return Some(NO_LAST);
    }
    None
}

/// Says that the words have no use for an option.
///
/// # Errors
///
/// `CannotWrite`.
pub(crate) fn refuse_line<E: Write>(line: &[u8], errors: &mut E) -> Result<u8, ProgramFault>
    ensures { Prints WRONG_WORDS line.now (E.contents errors.old) (E.contents errors.new) result }
{
    print(errors, line, WRONG_WORDS)
}
