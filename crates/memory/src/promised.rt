ghost use Rattle.std.specs.Prelude.{◌≡◌};

use rootchain::SignedPromise;

/// A promise that the client keeps.
#[derive(Drop)]
pub struct Promised {
    pub signed: SignedPromise,
    /// Whether it is for a change of the owner's own.
    pub is_own: bool,
}

impl Promised {
    /// A copy.
    pub fn copied(&self) -> Promised
        ensures { result ≡ self.now }
    {
        Promised {
            signed: self.signed.copied(),
            is_own: self.is_own,
        }
    }
}
