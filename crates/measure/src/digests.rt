use crate::run::Run;
use sha2::{Digest, Sha256};

/// The length of a leaf's text, the longest text that a tree digests, and that of an interior node's.
pub(crate) const LEAF_BYTES: usize = 101;

pub(crate) const INTERIOR_BYTES: usize = 64;

/// Takes so many digests of a text, and returns the first byte of the last one. Each digest's first
/// byte goes into the text before the next, so that every digest is needed.
pub(crate) fn take_digests(text: &mut [u8], count: usize) -> u64 {
    let mut first = 0;
    for _ in 0..count {
        first = Sha256::digest(&*text)[0];
        if let Some(byte) = text.first_mut() {
            *byte = first;
        }
    }
    u64::from(first)
}

/// The step of so many digests of a text of so many bytes.
pub(crate) fn measure_length(run: &Run, bytes: usize, count: usize) {
    let mut text = run.filled(0, bytes);
    run.step(take_digests(&mut text, count));
}

/// The step of the digests of texts of these lengths, at most 512, so often.
pub(crate) fn measure_lengths(run: &Run, lengths: &[usize], times: usize) {
    let mut room = [0; 512];
    let mut last = 0;
    for _ in 0..times {
        for length in lengths {
            last = take_digests(room.split_at_mut((*length).min(512)).0, 1);
        }
    }
    run.step(last);
}

/// `digests BYTES COUNT`. The one step: so many digests of a text of so many bytes.
pub(crate) fn measure(run: &Run, numbers: &[usize]) {
    let [bytes, count] = run.numbers::<2>(numbers);
    let mut text = run.filled(0, bytes);
    run.step(0);
    run.step(take_digests(&mut text, count));
}
