/// The hash functions that a tree may have.
#[derive(Clone, Copy, Debug, PartialEq, Eq)]
pub enum HashChoice {
    Sha256,
    /// The byte sum, for tests.
    Sum,
}

/// The root of the items on standard input.
#[derive(Clone, Copy, Debug)]
pub struct RootOrder<'a> {
    pub hash: HashChoice,
    /// The nonce's text as given.
    pub nonce: Option<&'a str>,
}

/// The path of an index among the items on standard input, from their root.
#[derive(Clone, Copy, Debug)]
pub struct ProveOrder<'a> {
    /// The index's text as given.
    pub index: &'a str,
    pub root: RootOrder<'a>,
}
