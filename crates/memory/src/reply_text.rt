ghost use Rattle.std.specs.Prelude.{◌≡◌, ◌≤◌, IfOk, length};
ghost use Rattle.encoding.specs.declared.fixed_text.TheConstants.{PROOF_TEXT_ROOM};

use std::alloc::{AllocError, Global};
use std::marker::Model;

/// The text of a reply to a look-up: at most 10,700 bytes, which are on the heap.
#[derive(Drop)]
pub struct ReplyText {
    bytes: Vec<u8>,
}

impl Model for ReplyText {
    ghost use Rattle.std.specs.Prelude.{ℕ, ◌≤◌, List, length};
    ghost use Rattle.encoding.specs.declared.fixed_text.TheConstants.{PROOF_TEXT_ROOM};

    ghost Value = { List ℕ };

    ghost view = { λ reply. reply.bytes.items };

    ghost invariant = { λ reply. length reply.bytes.items ≤ PROOF_TEXT_ROOM };
}

impl ReplyText {
    /// The text of these bytes.
    pub fn new(bytes: Vec<u8>) -> Self
        requires { length bytes.items ≤ PROOF_TEXT_ROOM }
        ensures { result ≡ bytes.items }
    {
        ReplyText { bytes }
    }

    /// The text of a copy of these bytes.
    ///
    /// # Errors
    ///
    /// `AllocError` if memory runs out.
    pub fn copy_of(alloc: Global, bytes: &[u8]) -> Result<Self, AllocError>
        requires { length bytes.now ≤ PROOF_TEXT_ROOM }
        ensures { IfOk result (λ reply. reply ≡ bytes.now) }
    {
        Ok(ReplyText::new(Vec::from_slice(alloc, bytes)?))
    }

    /// The bytes.
    pub fn bytes(&self) -> &[u8]
        ensures value { result.now ≡ self.now }
        ensures fits { length self.now ≤ PROOF_TEXT_ROOM }
    {
        &self.bytes
    }
}
