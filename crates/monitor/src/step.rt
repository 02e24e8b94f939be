use proofs::Statement;

/// What a monitor found at an epoch.
#[derive(Clone, Copy, Debug, PartialEq, Eq)]
pub enum Step<'a> {
    /// The reply states what is expected.
    Kept,
    /// The reply states something else.
    Alarm { epoch: u64, found: Statement<'a> },
}
