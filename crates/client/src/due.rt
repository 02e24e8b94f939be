use proofs::BrokenPromise;

/// What the next root shows of a promise.
#[derive(Debug, Drop)]
pub enum Due {
    /// The promised key is bound to the name.
    Kept,
    /// The name has another key or none: this is evidence against the provider.
    Broken(BrokenPromise),
    /// The reply is for another index than the promised one, and shows nothing about the promise.
    OtherIndex,
}
