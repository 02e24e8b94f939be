// One session of a hub, from a reader to a writer: a piece is read and handed to the hub, its replies
// are written, and so on to the end of the input.
ghost use Rattle.std.specs.Prelude.{◌≡◌, [], Some, None};
ghost use Rattle.std.specs.Ordering.{nat_cmp};
ghost use Rattle.std.specs.BTreeMap.{is_at};
ghost use Rattle.std.specs.Map.{set_value};
ghost use Rattle.hub.specs.Events.{at_session, due, Bytes as AreBytes, Open as IsOpen};
ghost use Rattle.wire.specs.Streams.{Remainder, Rest};
ghost use Rattle.server.specs.Pieces.{AnswersPiece};
ghost use Rattle.server.specs.Serving.{AllReplied, RepliedHonestly, Serves};

use crate::ServeFault;
use crate::disk::{Disk, write_answers};
use book::Keeper;
use hub::{Desk, Event, Hub, Service};
use nodehash::NodeHash;
use rand_core::Rng;
use sigiface::Signer;
use std::alloc::Global;
use std::io::{Read, Write};
use textio::{PIECE_SIZE, read_some};
use vrfiface::Vuf;

/// Hands a piece to its session, and writes the replies. If memory ran out, those to the messages
/// that were answered are written too.
fn answer_piece<S: Service + Drop, W: Write>(
    alloc: Global,
    hub: &mut Hub<S>,
    session: u32,
    piece: &[u8],
    writer: &mut W,
    disk: Option<&Disk>,
) -> Result<(), ServeFault>
    requires { due hub.old.sessions (AreBytes session piece.now) ≡ None }
    ensures { AnswersPiece S.answers hub.old session piece.now (W.contents writer.old) result hub.new (W.contents writer.new) }
{
    let mut output = Vec::new(alloc);
    let heard = hub.event(&Event::Bytes(session, piece), &mut output);
    let written = write_answers(disk, writer, &output);
    if heard.is_err() {
        if written.is_err() {
            return Err(ServeFault::OutOfMemoryAndCannotWrite);
        }
        return Err(ServeFault::OutOfMemory);
    }
    written?;
    Ok(())
}

/// Reads to the end, answers each message of the session, and writes the replies.
fn converse<S: Service + Drop, R: Read, W: Write>(
    alloc: Global,
    hub: &mut Hub<S>,
    session: u32,
    reader: &mut R,
    writer: &mut W,
    disk: Option<&Disk>,
) -> Result<(), ServeFault>
    requires { at_session hub.old.sessions session ≡ Some (Rest []) }
    ensures keeps { (kept : Remainder) × (hub.new.sessions ≡ set_value (is_at (nat_cmp session)) hub.old.sessions kept) }
    ensures serves { Serves (AllReplied S.answers session) hub.old.service (R.remaining reader.old) (W.contents writer.old) result
        hub.new.service (R.remaining reader.new) (W.contents writer.new) }
{
    let mut room = [0; PIECE_SIZE];
    // Every loop of Rattle has an end: this one's is past any input.
    for _ in 0..u64::MAX {
        let count = read_some(reader, &mut room)?;
        if count == 0 {
            return Ok(());
        }
        answer_piece(alloc, hub, session, &room[..count], writer, disk)?;
    }
    Err(ServeFault::CannotRead)
}

/// Opens the session, answers all that the reader gives, in pieces of at most 4,096 bytes, and ends
/// the session, whatever comes. The replies show a run of the directory; the client accepts each, where
/// no look-up meets another name with its index.
///
/// # Errors
///
/// `CannotRead` and `CannotWrite` if a read or a write failed; `OutOfMemory`, once the replies to all
/// messages that were answered are written; `OutOfMemoryAndCannotWrite` if that write failed. What was
/// written is then a beginning of the session's output.
pub fn serve<H, V, S, G, K, R, W>(
    alloc: Global,
    hub: &mut Hub<Desk<H, V, S, G, K>>,
    session: u32,
    reader: &mut R,
    writer: &mut W,
) -> Result<(), ServeFault>
where
    H: NodeHash + Drop,
    V: Vuf + Drop,
    S: Signer + Drop,
    G: Rng + Drop,
    K: Keeper + Drop,
    R: Read,
    W: Write,
    requires { due hub.old.sessions (IsOpen session) ≡ None }
    ensures serves { Serves (RepliedHonestly H.digest_of V.value_of S.signature_of G.stream K.kept K.failed V.accepted S.verified session)
        hub.old.service (R.remaining reader.old) (W.contents writer.old) result hub.new.service (R.remaining reader.new) (W.contents writer.new) }
    ensures ended { hub.new.sessions ≡ hub.old.sessions }
{
    serve_on(alloc, hub, session, reader, writer, None)
}

/// The same, where the records of a journal are put on their disk before the answers that tell of them
/// leave. A failed sync counts as a failed write, and none of these answers leaves.
pub(crate) fn serve_on<H, V, S, G, K, R, W>(
    alloc: Global,
    hub: &mut Hub<Desk<H, V, S, G, K>>,
    session: u32,
    reader: &mut R,
    writer: &mut W,
    disk: Option<&Disk>,
) -> Result<(), ServeFault>
where
    H: NodeHash + Drop,
    V: Vuf + Drop,
    S: Signer + Drop,
    G: Rng + Drop,
    K: Keeper + Drop,
    R: Read,
    W: Write,
    requires { due hub.old.sessions (IsOpen session) ≡ None }
    ensures serves { Serves (RepliedHonestly H.digest_of V.value_of S.signature_of G.stream K.kept K.failed V.accepted S.verified session)
        hub.old.service (R.remaining reader.old) (W.contents writer.old) result hub.new.service (R.remaining reader.new) (W.contents writer.new) }
    ensures ended { hub.new.sessions ≡ hub.old.sessions }
{
    // What the two calls of `head` ensure: the book is sound before and after, and the provider's
    // functions keep their laws.
    hub.head();
    let outcome = serve_any(alloc, hub, session, reader, writer, disk);
    hub.head();
    outcome
}

/// Serves one session of any service: see `serve`.
fn serve_any<S: Service + Drop, R: Read, W: Write>(
    alloc: Global,
    hub: &mut Hub<S>,
    session: u32,
    reader: &mut R,
    writer: &mut W,
    disk: Option<&Disk>,
) -> Result<(), ServeFault>
    requires { due hub.old.sessions (IsOpen session) ≡ None }
    ensures serves { Serves (AllReplied S.answers session) hub.old.service (R.remaining reader.old) (W.contents writer.old) result
        hub.new.service (R.remaining reader.new) (W.contents writer.new) }
    ensures ended { hub.new.sessions ≡ hub.old.sessions }
{
    let mut nothing = Vec::new(alloc);
    if hub.event(&Event::Open(session), &mut nothing).is_err() {
        return Err(ServeFault::OutOfMemory);
    }
    let outcome = converse(alloc, hub, session, reader, writer, disk);
    let _ended = hub.event(&Event::End(session), &mut nothing);
    outcome
}
