//! Of `client` and `monitor`: a list of roots in pieces, of which the feed stays for the next lines.

use crate::clients::tell_done;
use client::Refusal;
use questions::Case;
use rootchain::RootFeed;

/// The longest piece of which bytes are cut.
const MAX_PIECE: usize = 65536;

/// `feed`: a new list begins.
pub(crate) fn begin(case: &mut Case<'_>, feed: &mut RootFeed) {
    *feed = RootFeed::new();
    case.say("ok");
}

/// `done`: whether the list has come whole.
pub(crate) fn done(case: &mut Case<'_>, feed: &RootFeed) {
    case.say_truth(feed.done());
}

/// `from SIZE BYTES`: the bytes in pieces of that size, or in one if it is 0, up to the first that is refused.
pub(crate) fn update<F>(case: &mut Case<'_>, take: F)
where
    F: FnMut(&[u8]) -> Result<(), Refusal>,
    requires { F.IsAlwaysCallable take }
{
    let size = case.number_to(MAX_PIECE);
    let bytes = case.bytes();
    if case.is_spoiled() {
        return;
    }
    tell_done(case, in_pieces(size, bytes, take));
}

/// Hands bytes over in pieces of this size, or in one if it is 0, up to the first that is refused.
pub(crate) fn in_pieces<F>(size: usize, bytes: &[u8], mut take: F) -> Result<(), Refusal>
where
    F: FnMut(&[u8]) -> Result<(), Refusal>,
    requires { F.IsAlwaysCallable take }
{
    if size == 0 {
        return take(bytes);
    }
    for piece in bytes.chunks(size) {
        take(piece)?;
    }
    Ok(())
}
