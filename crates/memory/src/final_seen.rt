ghost use Rattle.std.specs.Prelude.{◌≡◌, ◌<◌, ◌≤◌, ◌^◌, IfOk, length};
ghost use Rattle.encoding.specs.declared.fixed_text.TheConstants.{PROOF_TEXT_ROOM};
ghost use Rattle.memory.specs.Lines.{HasRoom, IsFinalSeen};

use crate::ReplyText;
use encoding::Name;
use std::alloc::{AllocError, Global};

/// The first reply for a name that stated a key with Final, under the root of an epoch.
#[derive(Drop)]
pub struct FinalSeen {
    pub name: Name,
    pub epoch: u64,
    pub reply: ReplyText,
}

impl FinalSeen {
    /// A copy.
    ///
    /// # Errors
    ///
    /// `AllocError` if memory runs out.
    pub fn copied(&self, alloc: Global) -> Result<FinalSeen, AllocError>
        ensures value { IfOk result (λ copy. copy ≡ self.now) }
        ensures sound { IsFinalSeen self.now }
    {
        // What `bytes` ensures of the name: it is one.
        let _name = self.name.bytes();
        let epoch = fitting(self.epoch);
        let reply = text_of(alloc, self.reply.bytes())?;
        let name = self.name.copied();
        Ok(FinalSeen { name, epoch, reply })
    }
}

/// The number of an epoch, which has 64 bits.
fn fitting(epoch: u64) -> u64
    ensures value { result ≡ epoch }
    ensures limits { epoch < 2 ^ 64 }
{
    epoch
}

/// A copy of these bytes as the text of a reply. What `ReplyText::copy_of` does not say of it: its elements are bytes.
fn text_of(alloc: Global, bytes: &[u8]) -> Result<ReplyText, AllocError>
    requires { length bytes.now ≤ PROOF_TEXT_ROOM }
    ensures value { IfOk result (λ reply. reply ≡ bytes.now) }
    ensures sound { HasRoom bytes.now }
{
    ReplyText::copy_of(alloc, bytes)
}
