use encoding::ProofText;
use rootchain::{SignedPromise, SignedRoot};

/// A promise, and a reply under the next root. Where the reply does not state the promised key with its
/// policy, they show anyone that the provider broke its promise (CONIKS, section 4).
#[derive(Debug, Drop)]
pub struct BrokenPromise {
    pub promise: SignedPromise,
    /// The root that follows the one of the promise.
    pub root: SignedRoot,
    /// The reply to a look-up of the promised name under this root.
    pub proof: ProofText,
}
