ghost use Rattle.std.specs.Prelude.{◌≡◌, ℕ, ◌+◌, ◌<◌, ◌≤◌, ◌^◌, List, [], ◌∷◌, ◌++◌, length};
ghost use Rattle.byteorder.specs.Endian.{big_bytes};
ghost use Rattle.encoding.specs.Forms.{counted_bytes};
ghost use Rattle.encoding.specs.Policies.{policy_bytes};

use crate::Policy;
use arrayvec::ArrayVec;
use byteorder::{BigEndian, ByteOrder};
use std::marker::Model;

/// A text of at most `ROOM` bytes, which is not on the heap.
#[derive(Debug, Drop)]
pub struct FixedText<const ROOM: usize> {
    bytes: ArrayVec<u8, ROOM>,
}

/// The room of a `Text`. The longest is a promise: 79 bytes, a name of 255 and a key of 2,048.
const TEXT_ROOM: usize = 2400;

/// The room of a `ProofText`. The longest reply to a look-up has 10,682 bytes.
pub const PROOF_TEXT_ROOM: usize = 10700;

/// A text that is signed, hashed or compared: at most 2,400 bytes.
pub type Text = FixedText<TEXT_ROOM>;

/// The text of a proof: at most 10,700 bytes.
pub type ProofText = FixedText<PROOF_TEXT_ROOM>;

impl<const ROOM: usize> Model for FixedText<ROOM> {
    ghost Value = { List ℕ };

    ghost view = { λ text. text.bytes.items };
}

impl<const ROOM: usize> FixedText<ROOM> {
    /// The text of no byte.
    pub fn new() -> Self
        ensures { result ≡ [] }
    {
        FixedText {
            bytes: ArrayVec::new(),
        }
    }

    /// The text of these bytes.
    pub fn of(bytes: &[u8]) -> Self
        requires { length bytes.now ≤ ROOM }
        ensures { result ≡ bytes.now }
    {
        let mut text = FixedText::new();
        text.push_slice(bytes);
        text
    }

    /// The bytes so far.
    pub fn bytes(&self) -> &[u8]
        ensures value { result.now ≡ self.now }
        ensures fits { length self.now ≤ ROOM }
    {
        self.bytes.as_slice()
    }

    /// The same bytes in another room.
    pub fn copied<const TO: usize>(&self) -> FixedText<TO>
        requires { length self.now ≤ TO }
        ensures { result ≡ self.now }
    {
        FixedText::of(self.bytes())
    }

    /// Appends one byte.
    pub fn push(&mut self, byte: u8)
        requires { length self.old < ROOM }
        ensures value { self.new ≡ self.old ++ byte ∷ [] }
        ensures len { length self.new ≡ length self.old + 1 }
    {
        self.bytes.push(byte);
    }

    /// Appends bytes.
    pub fn push_slice(&mut self, bytes: &[u8])
        requires { length self.old + length bytes.now ≤ ROOM }
        ensures value { self.new ≡ self.old ++ bytes.now }
        ensures len { length self.new ≡ length self.old + length bytes.now }
    {
        let fits = self.bytes.try_extend_from_slice(bytes).is_ok();
        prove!(fits);
    }

    /// Appends a number in 2 bytes.
    pub fn push_u16(&mut self, n: u16)
        requires { length self.old + 2 ≤ ROOM }
        ensures value { self.new ≡ self.old ++ big_bytes 2 n }
        ensures len { length self.new ≡ length self.old + 2 }
    {
        let mut bytes = [0; 2];
        BigEndian::write_u16(&mut bytes, n);
        self.push_slice(&bytes);
    }

    /// Appends a number in 4 bytes.
    pub fn push_u32(&mut self, n: u32)
        requires { length self.old + 4 ≤ ROOM }
        ensures value { self.new ≡ self.old ++ big_bytes 4 n }
        ensures len { length self.new ≡ length self.old + 4 }
    {
        let mut bytes = [0; 4];
        BigEndian::write_u32(&mut bytes, n);
        self.push_slice(&bytes);
    }

    /// Appends a number in 8 bytes.
    pub fn push_u64(&mut self, n: u64)
        requires { length self.old + 8 ≤ ROOM }
        ensures value { self.new ≡ self.old ++ big_bytes 8 n }
        ensures len { length self.new ≡ length self.old + 8 }
    {
        let mut bytes = [0; 8];
        BigEndian::write_u64(&mut bytes, n);
        self.push_slice(&bytes);
    }

    /// Appends bytes behind their count, a `u16`.
    pub fn push_counted(&mut self, bytes: &[u8])
        requires few { length bytes.now < 2 ^ 16 }
        requires room { length self.old + 2 + length bytes.now ≤ ROOM }
        ensures value { self.new ≡ self.old ++ counted_bytes bytes.now }
        ensures len { length self.new ≡ length self.old + 2 + length bytes.now }
    {
        self.push_u16(bytes.len() as u16);
        self.push_slice(bytes);
    }

    /// Appends the byte of a policy, where there is one.
    pub fn push_policy(&mut self, policy: Option<Policy>)
        requires { length self.old < ROOM }
        ensures value { self.new ≡ self.old ++ policy_bytes policy }
        ensures len { length self.new ≡ length self.old + length (policy_bytes policy) }
        ensures most { length self.new ≤ length self.old + 1 }
    {
        if let Some(policy) = policy {
            self.push(policy.byte());
        }
    }
}
