use commands::Verb;
use encoding::{BoundKey, Hash32, Name};

/// What is kept of a directory: how it began, which the code that begins it keeps, and each accepted
/// command, which the directory has kept before it makes the change.
#[derive(Debug, Drop)]
pub enum Record {
    /// The first epoch, the nonce, and the public keys.
    Start {
        epoch: u64,
        nonce: Hash32,
        signing_key: Hash32,
        vuf_key: Hash32,
    },
    /// A key that is put to a name, with its policy if it has one, and the salt of the commitment.
    Bound {
        verb: Verb,
        salt: Hash32,
        name: Name,
        key: BoundKey,
    },
    /// A new page, of this epoch, and of this nonce, or of the last page's.
    Turned {
        epoch: u64,
        nonce: Option<Hash32>,
    },
}
