ghost use Rattle.std.specs.Prelude.{◌≡◌, MatchResult, ⊤};
ghost use Rattle.book.specs.declared.record.Record.{Record};

use crate::{Record, Refusal};
use thiserror::Error;

/// A record was not kept.
#[derive(Debug, Drop, Error)]
#[error("{}", Refusal::KeepFailed)]
pub struct KeepFailed;

impl From<KeepFailed> for Refusal {
    ghost use Rattle.book.specs.declared.directory_refusal.Refusal.TheVariants.{KeepFailed};

    ghost from_gives = { λ _ refusal. refusal ≡ KeepFailed };

    fn from(_failed: KeepFailed) -> Refusal {
        Refusal::KeepFailed
    }
}

/// Keeps the record of each change before the change is made.
pub trait Keeper {
    // The keeper before, a record that it kept, and the keeper after.
    ghost kept: { Self → Record → Self → Type 0 };

    // The same of a record that it did not keep.
    ghost failed: { Self → Record → Self → Type 0 };

    /// Keeps a record.
    ///
    /// # Errors
    ///
    /// `KeepFailed` if it was not kept. The directory then does not make the change.
    fn keep(&mut self, what: &Record) -> Result<(), KeepFailed>
        ensures { MatchResult result (λ _. kept self.old what.now self.new) (λ _. failed self.old what.now self.new) };
}

/// Keeps nothing, and never fails.
#[derive(Debug, Drop)]
pub struct NoKeeper;

impl Keeper for NoKeeper {
    ghost kept = { λ before what after. ⊤ };

    ghost failed = { λ before what after. ⊥ };

    fn keep(&mut self, _what: &Record) -> Result<(), KeepFailed> {
        Ok(())
    }
}
