use crate::{ListRefusal, Refusal};
use thiserror::Error;

/// Why a chain refuses the bytes of a list of roots, or a piece of them.
#[derive(Debug, Drop, PartialEq, Eq, Error)]
pub enum PieceRefusal {
    /// The bytes spell no list. Of a piece: the list has no such bytes there, or the feed failed before.
    #[error("{}", Refusal::Malformed)]
    Malformed,

    /// A root is refused as in a list that was read, but never for want of memory.
    #[error("{0}")]
    Root(ListRefusal),

    /// There is no memory for the roots that are still to come.
    #[error("{}", Refusal::Memory)]
    Memory,
}
