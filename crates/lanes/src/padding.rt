ghost use Rattle.std.specs.Prelude.{◌≡◌, ℕ, ◌<◌, [], IsTrue, length, map, slice_index_or};
ghost use Rattle.sha2.specs.Sha256.{padded_message};
ghost use Rattle.lanes.specs.TwoBlocks.{HasTwoBlocks};

/// The bytes in a block.
pub(crate) const BLOCK_LEN: usize = 64;

/// The bytes in a message of two blocks with its padding.
pub(crate) const PADDED_LEN: usize = 128;

/// Where the length in bits begins, which is the last 8 bytes.
const BIT_LEN_AT: usize = 120;

/// Whether each message has as many bytes as a block.
pub(crate) fn are_blocks(messages: &[&[u8]]) -> bool
    ensures { IsTrue result → (k : ℕ) → k < length messages.now → length (slice_index_or (map (λ message. message.now) messages.now) k []) ≡ 64 }
{
    for message in messages {
        if message.len() != BLOCK_LEN {
            return false;
        }
    }
    true
}

/// A message and its padding (FIPS 180-4, section 5.1.1).
pub(crate) fn padded(message: &[u8]) -> [u8; PADDED_LEN]
    requires { HasTwoBlocks message.now }
    ensures value { result ≡ padded_message message.now }
    ensures len { length result ≡ 128 }
{
    let mut blocks = [0; PADDED_LEN];
    let len = message.len();
    blocks[..len].copy_from_slice(message);
    blocks[len] = 0x80;
    let bit_len = 8 * len as u64;
    blocks[BIT_LEN_AT..].copy_from_slice(&bit_len.to_be_bytes());
    blocks
}
