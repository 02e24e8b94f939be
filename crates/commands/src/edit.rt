use encoding::Hash32;

/// How a key is put to a name.
#[derive(Clone, Copy, Debug, PartialEq, Eq)]
pub enum Verb {
    /// To a name that has none.
    Register,
    /// To a name that has another one.
    Change,
}

/// A key that is put to a name, from the next epoch on. Both may have any length, and the policy may be
/// any byte; the directory tells whether it allows them.
#[derive(Clone, Copy, Debug)]
pub struct Put<'a> {
    pub verb: Verb,
    pub name: &'a [u8],
    pub key: &'a [u8],
    /// The byte of the binding's policy, which one of version 1 does not have.
    pub policy: Option<u8>,
}

/// A change of a directory.
#[derive(Clone, Copy, Debug)]
pub enum Edit<'a> {
    /// A key for a name.
    Put(Put<'a>),
    /// The end of an epoch: what waits goes into the page of this new one, under this nonce, or under
    /// the last page's.
    Turn { epoch: u64, nonce: Option<Hash32> },
}
