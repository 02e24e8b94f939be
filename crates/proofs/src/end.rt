use encoding::{BoundKey, Hash32, Index};

/// What stands at the end of a reply's way.
#[derive(Clone, Copy, Debug)]
pub enum End<'a> {
    /// The leaf of the name's index, whose commitment opens to this salt and key, with its policy.
    Present { salt: Hash32, key: &'a BoundKey },
    /// No leaf.
    Empty,
    /// The leaf of another index.
    Other { index: Index, commitment: Hash32 },
}
