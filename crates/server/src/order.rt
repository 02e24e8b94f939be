use std::num::NonZeroU64;

/// A directory that is served. The texts are those of the command line.
#[derive(Clone, Copy, Debug)]
pub struct DirectoryOrder<'a> {
    /// The key of signatures, 64 hexadecimal digits; so are the other keys and the token.
    pub signing_key: &'a str,
    /// The key of the verifiable function.
    pub vuf_key: &'a str,
    /// The key of the salt stream.
    pub salt_key: &'a str,
    /// The token of the operator, who alone may close an epoch.
    pub token: &'a str,
    /// The epoch of the first page.
    pub epoch: NonZeroU64,
    /// The nonce of the trees, 64 hexadecimal digits; zeros if none is given.
    pub nonce: Option<&'a str>,
    /// The path of the file in which the directory is kept. A directory that the file already holds goes
    /// on, and the order's epoch and nonce are then not used.
    pub journal: Option<&'a str>,
}

/// A directory that answers connections.
#[derive(Clone, Copy, Debug)]
pub struct ListenOrder<'a> {
    pub directory: DirectoryOrder<'a>,
    /// How many connections are answered; 0 for no end.
    pub count: u64,
    /// How many of them are open at once: 1 to 1,024.
    pub sessions: u64,
    /// After how many seconds a connection is closed that completed no message and took no byte of an
    /// answer; 0 for never.
    pub idle: u64,
    /// Every how many seconds a report is written on the errors; 0 for never.
    pub report: u64,
    /// Whether the end of standard input is an order to stop.
    pub until_eof: bool,
    /// The address to listen on, such as `127.0.0.1:7000`.
    pub address: &'a str,
}
