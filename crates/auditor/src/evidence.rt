use proofs::{BrokenFinal, BrokenPromise};
use rootchain::RootEvidence;

/// What shows anyone that a provider cheated, if it holds (CONIKS, section 4).
#[derive(Debug, Drop)]
pub enum Evidence {
    /// Two roots that are said not to stand in one chain.
    Root(RootEvidence),
    /// A promise that is said not to have been kept.
    Broken(BrokenPromise),
    /// A final binding that is said to have been changed.
    Final(BrokenFinal),
}
