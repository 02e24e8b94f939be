use encoding::Hash32;

/// What is asked of a directory that listens.
#[derive(Clone, Copy, Debug)]
pub struct AskOrder<'a> {
    /// The text of the provider's public key, 64 hexadecimal digits.
    pub signing_key: &'a str,
    /// The text of the operator's token, 64 hexadecimal digits; zeros if none is given.
    pub token: Option<&'a str>,
    /// The path of the file in which the chain is kept.
    pub state: Option<&'a str>,
    /// The address of the directory, such as `127.0.0.1:7000`.
    pub address: &'a str,
    /// The first word of one command; without it the lines of the input are asked.
    pub command: Option<&'a str>,
    /// The words behind it.
    pub first: Option<&'a str>,
    pub second: Option<&'a str>,
    pub third: Option<&'a str>,
    /// The epoch that the last one has to be above: of the name that the words watch, or of the head that they ask for.
    pub after: Option<u64>,
}

/// The keys of a run.
#[derive(Clone, Copy, Debug, PartialEq, Eq)]
pub struct AskKeys {
    /// The provider's public key.
    pub signing_key: Hash32,
    /// The operator's token, or zeros.
    pub token: Hash32,
}
