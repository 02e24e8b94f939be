ghost use Rattle.std.specs.Prelude.{◌≡◌, [], false, IfErr, IfOk, OnErr};
ghost use Rattle.textio.specs.Faults.{IsDeviceFault};
ghost use Rattle.play.specs.Reading.{IsTrimmed, TakesBeginning, TakesWholeLine};

use std::io::BufRead;
use textio::ProgramFault;

/// Puts the next line in place of another one, without its LF. Returns whether there was one; if not, none
/// stands there.
///
/// # Errors
///
/// `CannotRead`, and `OutOfMemory` if memory runs out. What was taken of the line stands there then.
pub fn next_line<R: BufRead>(reader: &mut R, line: &mut Vec<u8>) -> Result<bool, ProgramFault>
    ensures ok { IfOk result (λ more. TakesWholeLine (R.remaining reader.old) (R.remaining reader.new) more line.new.items) }
    ensures end { IfOk result (λ more. more ≡ false → line.new.items ≡ []) }
    ensures err { IfErr result (λ fault. IsDeviceFault fault) }
    ensures part { OnErr result (TakesBeginning (R.remaining reader.old) (R.remaining reader.new) line.new.items) }
{
    line.clear();
    match reader.read_until(b'\n', line) {
        Ok(0) => Ok(false),
        Ok(_) => {
            trim(line);
            Ok(true)
        }
        Err(error) => Err(textio::file_fault(&error)),
    }
}

/// Takes the LF from the end of a line, if it ends with one.
fn trim(line: &mut Vec<u8>)
    ensures { IsTrimmed line.old.items line.new.items }
{
    if line.last() == Some(&b'\n') {
        line.pop();
    }
}
