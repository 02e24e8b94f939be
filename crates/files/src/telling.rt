// What the system said of a file is told in a line, ahead of the fault's own line. Contracts do not know what it says.
ghost use Rattle.std.specs.Prelude.{◌≡◌, ℕ, IfOk, List};
ghost use Rattle.files.specs.Telling.{file_line, TellsError};

use std::alloc::{AllocError, Global};
use std::io::{self, Write};
use textio::write_text;

/// The line about the file of a path, behind the words that begin it.
pub fn file_line(alloc: Global, begins: &str, path: &str, what: &str) -> Result<Vec<u8>, AllocError>
    ensures { IfOk result (λ line. line.items ≡ file_line begins.now path.now what.now) }
{
    let mut line = Vec::from_slice(alloc, begins.as_bytes())?;
    line.extend_from_slice(path.as_bytes())?;
    line.extend_from_slice(b": ")?;
    line.extend_from_slice(what.as_bytes())?;
    line.push(b'\n')?;
    Ok(line)
}

/// The line that says what the system said of the file of a path.
pub fn error_line(
    alloc: Global,
    begins: &str,
    path: &str,
    error: &io::Error,
) -> Result<Vec<u8>, AllocError>
    ensures { IfOk result (λ line. (words : List ℕ) × (line.items ≡ file_line begins.now path.now words)) }
{
    let words = format!(in alloc; "{error}")?;
    file_line(alloc, begins, path, words.as_str())
}

/// Writes this line. One that cannot be made or written is passed over, since the fault's own line comes behind it.
pub fn tell_error<E: Write>(
    alloc: Global,
    begins: &str,
    path: &str,
    error: &io::Error,
    errors: &mut E,
)
    ensures { TellsError begins.now path.now (E.contents errors.old) (E.contents errors.new) }
{
    let Ok(line) = error_line(alloc, begins, path, error) else {
        return;
    };
    let _told = write_text(errors, &line);
}
