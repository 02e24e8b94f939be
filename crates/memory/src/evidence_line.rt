ghost use Rattle.std.specs.Prelude.{◌≡◌, IfOk};

use std::alloc::{AllocError, Global};
use std::marker::Model;

/// The line of evidence against the provider: the text of `audits::evidence_json`, without an LF.
#[derive(Drop)]
pub struct EvidenceLine {
    text: Vec<u8>,
}

impl Model for EvidenceLine {
    ghost use Rattle.std.specs.Prelude.{ℕ, List};

    ghost Value = { List ℕ };

    ghost view = { λ line. line.text.items };
}

impl EvidenceLine {
    /// The line of this text.
    pub fn new(text: Vec<u8>) -> Self
        ensures { result ≡ text.items }
    {
        EvidenceLine { text }
    }

    /// The text.
    pub fn bytes(&self) -> &[u8]
        ensures { result.now ≡ self.now }
    {
        &self.text
    }

    /// A copy.
    ///
    /// # Errors
    ///
    /// `AllocError` if memory runs out.
    pub fn copied(&self, alloc: Global) -> Result<EvidenceLine, AllocError>
        ensures { IfOk result (λ copy. copy ≡ self.now) }
    {
        Ok(EvidenceLine::new(Vec::from_slice(alloc, &self.text)?))
    }
}
