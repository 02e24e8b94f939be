use encoding::Hash32;

/// What a start says: how a directory began.
#[derive(Clone, Copy, Debug)]
pub struct Beginning {
    pub epoch: u64,
    pub nonce: Hash32,
    pub signing_key: Hash32,
    pub vuf_key: Hash32,
}
