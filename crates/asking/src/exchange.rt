// A request goes out as one frame, and the next frame of the stream is its reply. Not a byte behind it is
// read.
ghost use Rattle.std.specs.Prelude.{◌≡◌, ◌≢◌, ◌++◌, length, IfErr, IfOk, OnOk};
ghost use Rattle.std.specs.Io.KnownBytes.{Appends, Consumes};
ghost use Rattle.encoding.specs.Bytes.{IsBytes};
ghost use Rattle.wire.specs.Frames.{frame_bytes, Frame};
ghost use Rattle.wire.specs.FrameViews.{frame_seen};
ghost use Rattle.wire.specs.Requests.{request_frame, request_seen};
ghost use Rattle.wire.specs.declared.feed.TheConstants.{LENGTH_SIZE};
ghost use Rattle.asking.specs.Exchanges.{ExchangesFrames, HoldsFrame, IsOneFrame};
ghost use Rattle.asking.specs.declared.ask_fault.AskFault.TheVariants.{Stopped};

use crate::AskFault;
use std::alloc::{AllocError, Global};
use std::io::{Read, Write};
use textio::write_text;
use wire::{FrameView, Front, LENGTH_SIZE, Request, front_of, is_frame_size};

/// The frame that begins the bytes that came.
pub(crate) fn frame_in(bytes: &[u8]) -> Result<FrameView<'_>, AskFault>
    ensures ok { IfOk result (λ frame. HoldsFrame bytes.entry.now (frame_seen frame)) }
    ensures err { IfErr result (λ fault. fault ≢ Stopped) }
{
    match front_of(bytes) {
        Front::Whole(frame) => Ok(frame),
        Front::Short | Front::Bad => Err(AskFault::NoReply),
    }
}

/// Reads the bytes that tell the length of the next frame.
fn read_length<R: Read>(reader: &mut R) -> Result<[u8; LENGTH_SIZE], AskFault>
    ensures ok { IfOk result (λ length. Consumes (R.remaining reader.old) (R.remaining reader.new) length) }
    ensures err { IfErr result (λ fault. fault ≢ Stopped) }
{
    let mut length = [0; LENGTH_SIZE];
    if reader.read_exact(&mut length).is_err() {
        return Err(AskFault::NoReply);
    }
    Ok(length)
}

/// Reads so many bytes.
fn read_rest<R: Read>(alloc: Global, reader: &mut R, size: usize) -> Result<Vec<u8>, AskFault>
    ensures read { IfOk result (λ rest. Consumes (R.remaining reader.old) (R.remaining reader.new) rest.items) }
    ensures size { IfOk result (λ rest. length rest.items ≡ size) }
    ensures err { IfErr result (λ fault. fault ≢ Stopped) }
{
    let mut rest = Vec::new(alloc);
    rest.resize(size, 0)?;
    if reader.read_exact(&mut rest).is_err() {
        return Err(AskFault::NoReply);
    }
    Ok(rest)
}

/// Reads as many bytes as the next frame has, by its length.
///
/// # Errors
///
/// `NoReply` if the stream ends or fails before, or has a length that no frame has; `OutOfMemory`.
pub(crate) fn read_reply<R: Read>(alloc: Global, reader: &mut R) -> Result<Vec<u8>, AskFault>
    ensures read { IfOk result (λ bytes. Consumes (R.remaining reader.old) (R.remaining reader.new) bytes.items) }
    ensures whole { IfOk result (λ bytes. (frame : Frame) × IsOneFrame bytes.items frame) }
    ensures err { IfErr result (λ fault. fault ≢ Stopped) }
{
    let length = read_length(reader)?;
    let size = u32::from_be_bytes(length) as usize;
    if !is_frame_size(size) {
        return Err(AskFault::NoReply);
    }
    let rest = read_rest(alloc, reader, size)?;
    Ok(joined(alloc, length, &rest)?)
}

/// The bytes of a length, and those behind it.
fn joined(alloc: Global, front: [u8; LENGTH_SIZE], rest: &[u8]) -> Result<Vec<u8>, AllocError>
    ensures items { IfOk result (λ bytes. bytes.items ≡ front ++ rest.now) }
    ensures size { length front ≡ LENGTH_SIZE }
    ensures front { IsBytes front }
    ensures behind { IsBytes rest.now }
{
    let mut bytes = Vec::new(alloc);
    bytes.extend_from_slice(&front)?;
    bytes.extend_from_slice(rest)?;
    Ok(bytes)
}

/// Sends a request as one frame.
///
/// # Errors
///
/// `NoReply` if the request has no frame, or cannot be sent; `OutOfMemory`.
fn send<W: Write>(alloc: Global, writer: &mut W, request: &Request<'_>) -> Result<(), AskFault>
    ensures ok { OnOk result (Appends (W.contents writer.old) (W.contents writer.new) (frame_bytes (request_frame (request_seen request.now)))) }
    ensures err { IfErr result (λ fault. fault ≢ Stopped) }
{
    if !request.fits() {
        return Err(AskFault::NoReply);
    }
    let mut frame = Vec::new(alloc);
    request.write(&mut frame)?;
    if write_text(writer, &frame).is_err() {
        return Err(AskFault::NoReply);
    }
    Ok(())
}

/// Sends a request, and reads its reply.
///
/// # Errors
///
/// Those of `send` and of `read_reply`.
pub(crate) fn exchange<T: Read + Write>(
    alloc: Global,
    stream: &mut T,
    request: &Request<'_>,
) -> Result<Vec<u8>, AskFault>
    ensures whole { IfOk result (λ bytes. (frame : Frame) × IsOneFrame bytes.items frame) }
    ensures sent { IfOk result (λ bytes. (frame : Frame) → HoldsFrame bytes.items frame → ExchangesFrames T.contents T.remaining stream.old (request_seen request.now) frame stream.new) }
    ensures err { IfErr result (λ fault. fault ≢ Stopped) }
{
    send(alloc, stream, request)?;
    read_reply(alloc, stream)
}
