// A text is written by as many writes as it takes. Each takes some bytes, and the loop goes on with the rest until
// none is left. A write that fails leaves a beginning written.
ghost use Rattle.std.specs.Prelude.{◌≡◌, ◌<◌, ◌≤◌, length, take, OnOk, IfOk, IfErr};
ghost use Rattle.std.specs.Io.KnownBytes.{Appends, Keeps};
ghost use Rattle.textio.specs.Output.{WritesBeginning};

use crate::stream_fault::{StreamFault, after_error};
use std::io::Write;

/// Writes some of the bytes that are left, and answers how many: none where a signal interrupted it.
fn write_some<W: Write>(writer: &mut W, rest: &[u8]) -> Result<usize, StreamFault>
    ensures within { IfOk result (λ count. count ≤ length rest.now) }
    ensures ok { IfOk result (λ count. Appends (W.contents writer.old) (W.contents writer.new) (take count rest.now)) }
    ensures err { IfErr result (λ fault. (fault ≡ StreamFault.CannotWrite)
        × Keeps (W.contents writer.old) (W.contents writer.new)) }
{
    match writer.write(rest) {
        Ok(0) => Err(StreamFault::CannotWrite),
        Ok(count) => Ok(count),
        Err(error) => {
            after_error(&error, StreamFault::CannotWrite)?;
            Ok(0)
        }
    }
}

/// Writes a text whole. A write that takes no byte counts as failed, and one that a signal
/// interrupted is tried again. An empty text is written by no write.
///
/// # Errors
///
/// `CannotWrite`, with a beginning of the text written.
#[tactic(auto, using(crate::proofs::Writing::writes))]
pub fn write_text<W: Write>(writer: &mut W, text: &[u8]) -> Result<(), StreamFault>
    ensures ok { OnOk result (Appends (W.contents writer.old) (W.contents writer.new) text.now) }
    ensures err { IfErr result (λ fault. (fault ≡ StreamFault.CannotWrite)
        × WritesBeginning (W.contents writer.old) (W.contents writer.new) text.now) }
{
    let mut rest = text;
    // Every loop of Rattle has an end: this one's is past any text.
    for _ in 0..u64::MAX {
        if rest.is_empty() {
            break;
        }
        let count = write_some(writer, rest)?;
        rest = rest.split_at(count).1;
    }
    if rest.is_empty() {
        Ok(())
    } else {
        Err(StreamFault::CannotWrite)
    }
}
