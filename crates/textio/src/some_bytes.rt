// The first read that no signal interrupts gives the answer.
ghost use Rattle.std.specs.Prelude.{◌≡◌, ◌<◌, ◌≤◌, length, take, IfOk, IfErr};
ghost use Rattle.std.specs.Io.KnownBytes.{Consumes, IsAtEnd, Keeps};

use crate::stream_fault::{StreamFault, after_error};
use std::io::Read;

/// The most bytes that are read of a session's stream at once.
pub const PIECE_SIZE: usize = 4096;

/// Reads some bytes into the room, and answers how many. A read that a signal interrupted is tried
/// again. Where there is room, none means the end of the input.
///
/// # Errors
///
/// `CannotRead`, and nothing was read.
#[tactic(auto, using(crate::proofs::Reading::reads))]
pub fn read_some<R: Read>(reader: &mut R, room: &mut [u8]) -> Result<usize, StreamFault>
    ensures within { IfOk result (λ count. count ≤ length room.new) }
    ensures room { length room.new ≡ length room.old }
    ensures ok { IfOk result (λ count. Consumes (R.remaining reader.old) (R.remaining reader.new) (take count room.new)) }
    ensures end { IfOk result (λ count. count ≡ 0 → 0 < length room.old → IsAtEnd (R.remaining reader.new)) }
    ensures err { IfErr result (λ fault. (fault ≡ StreamFault.CannotRead) × Keeps (R.remaining reader.old) (R.remaining reader.new)) }
{
    // Every loop of Rattle has an end: this one's is past any count of signals.
    for _ in 0..u64::MAX {
        match reader.read(room) {
            Ok(count) => return Ok(count),
            Err(error) => after_error(&error, StreamFault::CannotRead)?,
        }
    }
    Err(StreamFault::CannotRead)
}
