ghost use Rattle.std.specs.Prelude.{◌≡◌};

use thiserror::Error;

/// Why an event is refused: the first of these that applies.
#[derive(Clone, Copy, Debug, PartialEq, Eq, Error)]
pub enum HubRefusal {
    #[error("1,024 sessions are open")]
    TooManySessions,

    #[error("the session is open")]
    SessionOpen,

    #[error("the session is not open")]
    NoSession,

    /// If the piece was not taken, nothing was done. If it was, a first part of the messages is
    /// answered, and the others wait for the next piece, which may be empty.
    #[error("{}", book::Refusal::Memory)]
    Memory { taken: bool },
}

impl HubRefusal {
    ghost use Rattle.hub.specs.Refusals.{hub_refusal_number};

    /// The number of this refusal.
    pub fn number(self) -> u8
        ensures { result ≡ hub_refusal_number self }
    {
        match self {
            HubRefusal::TooManySessions => 16,
            HubRefusal::SessionOpen => 17,
            HubRefusal::NoSession => 18,
            HubRefusal::Memory { .. } => 14,
        }
    }
}
