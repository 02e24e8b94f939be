//! The reply in a frame.

use rootchain::{BODY_LEN, Body};

/// The body of a frame.
pub(crate) fn body_of(frame: &[u8]) -> &[u8] {
    match frame {
        [_, _, _, _, _, body @ ..] => body,
        _ => &[],
    }
}

/// The epoch of a proof, whose front is a root's body.
pub(crate) fn proof_epoch(proof: &[u8]) -> u64 {
    let Some(front) = proof.get(..BODY_LEN) else {
        return 0;
    };
    match Body::read(front) {
        Ok(body) => body.epoch,
        Err(_) => 0,
    }
}
