use encoding::{Name, ProofText};
use rootchain::SignedRoot;

/// Two replies for one name, the second under a root that is said to be of a later epoch. What they show is for
/// `judge` to say: where the first states a key with Final, and the second anything else, that the provider
/// changed a binding that it promised never to change.
#[derive(Debug, Drop)]
pub struct BrokenFinal {
    pub name: Name,
    pub root: SignedRoot,
    /// The reply to a look-up of the name under this root.
    pub proof: ProofText,
    /// The root that is said to be of a later epoch.
    pub later_root: SignedRoot,
    /// The reply to a look-up of the name under the later root.
    pub later_proof: ProofText,
}
