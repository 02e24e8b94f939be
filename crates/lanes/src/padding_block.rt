//! The rounds of the second block of a message of 64 bytes. That block is padding alone, so its
//! schedule words are the same for each such message: a table has the sum of each word and its
//! round's constant.
ghost use Rattle.std.specs.Prelude.{◌≡◌, ℕ, ◌+◌, ◌<◌, ◌≤◌, List, slice_index};
ghost use Rattle.sha2.specs.Sha256.{add32, compress, padding, round_constants, rounds};
ghost use Rattle.lanes.specs.Lanes.{lane};
ghost use Rattle.lanes.specs.TwoBlocks.{padding_words};

use crate::round_constants::PADDING_KEYS;
use crate::rounds::round;
use crate::state::{State, summed};
use crate::words::every;

/// The sum of the constant and the schedule word of round `t`.
#[inline(always)]
fn padding_key(t: usize) -> u32
    requires { t < 64 }
    ensures { result ≡ add32 (slice_index round_constants t) (slice_index padding_words t) }
{
    PADDING_KEYS[t]
}

/// Round `t`.
#[inline(always)]
fn padding_step<const N: usize>(v: State<N>, t: usize) -> State<N>
    requires { t < 64 }
    ensures { (k : ℕ) (h : List ℕ) → k < N → lane v.entry k ≡ rounds h padding_words t
        → lane result k ≡ rounds h padding_words (t + 1) }
{
    round(v, every(padding_key(t)))
}

/// The rounds from `t` to `t + 3`.
#[inline(always)]
fn four_padding_steps<const N: usize>(v: State<N>, t: usize) -> State<N>
    requires { t + 4 ≤ 64 }
    ensures { (k : ℕ) (h : List ℕ) → k < N → lane v.entry k ≡ rounds h padding_words t
        → lane result k ≡ rounds h padding_words (t + 4) }
{
    let v = padding_step(v, t);
    let v = padding_step(v, t + 1);
    let v = padding_step(v, t + 2);
    padding_step(v, t + 3)
}

/// The hash value of each message after the second block.
pub(crate) fn compress_padding<const N: usize>(hash: State<N>) -> State<N>
    ensures { (k : ℕ) → k < N → lane result k ≡ compress (lane hash.entry k) (padding 64) }
{
    let mut v = hash;
    'rounds: for turn in 0..4 {
        v = four_padding_steps(v, 16 * turn);
        v = four_padding_steps(v, 16 * turn + 4);
        v = four_padding_steps(v, 16 * turn + 8);
        v = four_padding_steps(v, 16 * turn + 12);
    }
    summed(hash, v)
}
