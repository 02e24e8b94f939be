use encoding::Text;
use rootchain::RootEvidence;

/// The result of reconciling two clients of one provider.
#[derive(Debug, Drop)]
pub enum Outcome {
    /// They agree: their chains do, and looks for one name and epoch state one thing.
    Agree,
    /// Two of their roots are evidence against the provider.
    Evidence(RootEvidence),
    /// Two different texts with one digest. The first is of the first client, the second of the second.
    Collision(Text, Text),
    /// Two different values were accepted for one key and name.
    TwoValues,
}
