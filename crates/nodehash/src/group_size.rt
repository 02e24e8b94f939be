//! How many texts are digested at once. Which of the two sizes takes less time depends on the processor for which the
//! program is built, so it is found by a trial.
use crate::interior_text;
use crate::sha256_hash::digest_texts;
use encoding::Hash32;
use std::io;
use std::time::{Clock, Duration, Instant};

/// How many texts of two blocks are digested at once. Eight take less time in a program that is built for a processor
/// with AVX2, and more in others.
#[derive(Clone, Copy, Debug, Default, PartialEq, Eq)]
pub enum GroupSize {
    #[default]
    Four,
    Eight,
}

/// How often the two sizes are compared.
const TRIALS: usize = 3;

/// How often eight texts are digested in a trial.
const ROUNDS: usize = 4;

impl GroupSize {
    /// Eight where that takes less time in each of three trials, of some 40 microseconds in all; else four.
    pub fn faster<C: Clock>(clock: &C) -> GroupSize {
        for _ in 0..TRIALS {
            if !is_eight_faster(clock) {
                return GroupSize::Four;
            }
        }
        GroupSize::Eight
    }
}

/// False also where the clock cannot be read.
fn is_eight_faster<C: Clock>(clock: &C) -> bool {
    match (
        trial(clock, GroupSize::Four),
        trial(clock, GroupSize::Eight),
    ) {
        // Both give the same digest. It is looked at so that no compiler leaves out what it is for.
        (Ok((four, one)), Ok((eight, same))) => eight < four && one == same,
        _ => false,
    }
}

/// The time that the digests of some texts take in groups of this size, and one of them.
fn trial<C: Clock>(clock: &C, size: GroupSize) -> io::Result<(Duration, Hash32)> {
    let mut hashes = [Hash32::default(); 8];
    let begin = Instant::now(clock)?;
    for _ in 0..ROUNDS {
        let [a, b, c, d, e, f, g, h] = hashes;
        let texts = [
            interior_text(&a, &b),
            interior_text(&b, &c),
            interior_text(&c, &d),
            interior_text(&d, &e),
            interior_text(&e, &f),
            interior_text(&f, &g),
            interior_text(&g, &h),
            interior_text(&h, &a),
        ];
        digest_texts(&texts, &mut hashes, size);
    }
    Ok((begin.elapsed(clock)?, hashes[0]))
}
