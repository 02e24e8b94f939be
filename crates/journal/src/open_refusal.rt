use thiserror::Error;

/// Why a journal is not opened.
#[derive(Clone, Copy, Debug, PartialEq, Eq, Error)]
pub enum Refusal {
    /// What follows the records that can be carried out begins no record of its place, or is one whose
    /// command the directory refuses.
    #[error("bad record")]
    BadRecord,
    /// The start has other public keys than those handed in.
    #[error("other keys")]
    OtherKeys,
    #[error("{}", book::Refusal::Memory)]
    Memory,
}

impl Refusal {
    ghost use Rattle.std.specs.Prelude.{◌≡◌};
    ghost use Rattle.journal.specs.Refusals.{journal_refusal_number};

    /// The number of the refusal: 1 to 3.
    pub fn number(self) -> u8
        ensures { result ≡ journal_refusal_number self }
    {
        match self {
            Refusal::BadRecord => 1,
            Refusal::OtherKeys => 2,
            Refusal::Memory => 3,
        }
    }
}
