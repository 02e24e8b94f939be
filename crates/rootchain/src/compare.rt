ghost use Rattle.std.specs.Prelude.{◌≡◌};
ghost use Rattle.rootchain.specs.Comparisons.{told_by_place};

use crate::{Place, RootEvidence};
use encoding::Text;

/// The result of comparing two chains of one provider.
#[derive(Debug, Drop)]
pub enum Compare {
    /// They agree.
    Equal,
    /// Two of their roots are evidence against the provider.
    Evidence(RootEvidence),
    /// The texts of two bodies have one digest. The first is of the first chain, the second of the second.
    Collision(Text, Text),
}

impl Compare {
    /// The result for two chains without a common epoch, from the place of the upper chain's first root in
    /// the lower chain.
    pub(crate) fn from_place(place: Place) -> Compare
        ensures { result ≡ told_by_place place }
    {
        match place {
            Place::Evidence(evidence) => Compare::Evidence(evidence),
            Place::Known | Place::Next | Place::Ahead | Place::BeforeStart => Compare::Equal,
        }
    }
}
