ghost use Rattle.std.specs.Prelude.{◌≡◌};

use thiserror::Error;

/// Why a call of a monitor is refused: the first reason that applies.
#[derive(Debug, Drop, PartialEq, Eq, Error)]
pub enum Refusal {
    /// The monitor's client refuses.
    #[error(transparent)]
    Client(#[from] client::Refusal),
    /// The promise is of another name, key or policy; or it is not later than that of some expected change;
    /// or an epoch above its own was watched.
    #[error("the promise is not one of this change, or comes too late")]
    OtherPromise,
}

impl Refusal {
    ghost use Rattle.monitor.specs.Refusals.{monitor_refusal_number};

    /// The number of this refusal; that of the client's refusal is its own.
    pub fn number(&self) -> u8
        ensures { result ≡ monitor_refusal_number self.now }
    {
        match self {
            Refusal::Client(why) => why.number(),
            Refusal::OtherPromise => 24,
        }
    }
}
