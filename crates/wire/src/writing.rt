ghost use Rattle.std.specs.Prelude.{◌≡◌, ◌+◌, ◌^◌, ◌<◌, ◌≤◌, ◌++◌, ℕ, List, length, take, drop, OnOk, OnErr, IsOk, vec_len, vec_capacity};
ghost use Rattle.byteorder.specs.Endian.{big_bytes};
ghost use Rattle.encoding.specs.Bytes.{IsBytes};
ghost use Rattle.wire.specs.Frames.{frame_bytes, frame_head};
ghost use Rattle.wire.specs.Responses.{proof_frame};
ghost use Rattle.wire.specs.declared.frame.TheConstants.{MAX_FRAME_LEN};

use crate::response::PROOF;
use byteorder::{BigEndian, ByteOrder};
use std::alloc::AllocError;

/// Reserves the room of a frame, and appends what stands before its body. An `Err` appends nothing,
/// and is not returned where there is room.
pub(crate) fn begin_frame(output: &mut Vec<u8>, kind: u8, body_len: usize) -> Result<(), AllocError>
    requires { body_len < MAX_FRAME_LEN }
    ensures ok { OnOk result (output.new.items ≡ output.old.items ++ frame_head kind body_len) }
    ensures reserved { OnOk result (vec_len output.new + body_len ≤ vec_capacity output.new) }
    ensures err { OnErr result (output.new.items ≡ output.old.items) }
    ensures capacity { vec_capacity output.old ≤ vec_capacity output.new }
    ensures room { vec_len output.old + 5 + body_len ≤ vec_capacity output.old → IsOk result }
{
    output.reserve(5 + body_len)?;
    let mut head = [0; 4];
    BigEndian::write_u32(&mut head, (1 + body_len) as u32);
    output.extend_from_slice(&head)?;
    output.push(kind)?;
    Ok(())
}

/// Appends a frame, whose body comes in four parts. An `Err` appends nothing, and is not returned
/// where there is room.
pub(crate) fn append_frame(
    output: &mut Vec<u8>,
    kind: u8,
    front: &[u8],
    name: &[u8],
    middle: &[u8],
    key: &[u8],
) -> Result<(), AllocError>
    requires { length front.now + length name.now + length middle.now + length key.now < MAX_FRAME_LEN }
    ensures ok { OnOk result (output.new.items ≡ output.old.items
        ++ frame_bytes (record { kind = kind; body = front.now ++ (name.now ++ (middle.now ++ key.now)) })) }
    ensures err { OnErr result (output.new.items ≡ output.old.items) }
    ensures room { vec_len output.old + 5 + (length front.now + length name.now + length middle.now + length key.now) ≤ vec_capacity output.old → IsOk result }
{
    begin_frame(
        output,
        kind,
        front.len() + name.len() + middle.len() + key.len(),
    )?;
    output.extend_from_slice(front)?;
    output.extend_from_slice(name)?;
    output.extend_from_slice(middle)?;
    output.extend_from_slice(key)?;
    Ok(())
}

/// The number of bytes, in two bytes.
// That its elements are bytes is known of a parameter, but not of what a request borrows.
pub(crate) fn length_bytes(bytes: &[u8]) -> [u8; 2]
    requires { length bytes.now < 2 ^ 16 }
    ensures value { result ≡ big_bytes 2 (length bytes.now) }
    ensures bytes { IsBytes bytes.now }
{
    let mut two = [0; 2];
    BigEndian::write_u16(&mut two, bytes.len() as u16);
    two
}

/// Appends what stands before the body of a reply to a look-up, for a body of no byte: `end_proof` writes
/// the length. An `Err` appends nothing, and is not returned where there is room.
pub fn begin_proof(output: &mut Vec<u8>) -> Result<(), AllocError>
    ensures ok { OnOk result (output.new.items ≡ output.old.items ++ frame_head PROOF 0) }
    ensures err { OnErr result (output.new.items ≡ output.old.items) }
    ensures capacity { vec_capacity output.old ≤ vec_capacity output.new }
    ensures room { vec_len output.old + 5 ≤ vec_capacity output.old → IsOk result }
{
    begin_frame(output, PROOF, 0)
}

/// Writes the length of the frame that `begin_proof` began at this place, whose body stands behind it.
pub fn end_proof(output: &mut Vec<u8>, start: usize)
    requires { (before body : List ℕ) × (length before ≡ start) × (length body < MAX_FRAME_LEN)
        × (output.old.items ≡ (before ++ frame_head PROOF 0) ++ body) }
    ensures { (before body : List ℕ) → length before ≡ start → output.old.items ≡ (before ++ frame_head PROOF 0) ++ body
        → output.new.items ≡ before ++ frame_bytes (proof_frame body) }
{
    let mut size = [0; 4];
    BigEndian::write_u32(&mut size, (output.len() - start - 4) as u32);
    put_at(output, start, &size);
}

/// Puts bytes in place of those that stand there.
fn put_at(output: &mut Vec<u8>, start: usize, bytes: &[u8; 4])
    requires { start + 4 ≤ vec_len output.old }
    ensures { output.new.items ≡ take start output.old.items ++ (bytes.now ++ drop (start + 4) output.old.items) }
{
    output[start..start + 4].copy_from_slice(bytes);
}
