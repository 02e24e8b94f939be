ghost use Rattle.std.specs.Prelude.{◌≡◌};

use std::alloc::Global;

/// A reply to what was asked.
#[derive(Drop)]
pub struct Reply {
    /// The frame that came back.
    pub bytes: Vec<u8>,
    /// The epoch of the chain's head when the request was sent.
    pub held: u64,
    /// The epoch of which it speaks, or 0 if it is no answer.
    pub epoch: u64,
}

impl Reply {
    /// The epoch up to which the chain has to get before the reply is heard.
    pub fn epoch(&self) -> u64
        ensures { result ≡ (self.now).epoch }
    {
        self.epoch
    }
}
