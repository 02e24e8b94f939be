//! The words of one block of each message (FIPS 180-4, section 5.2.1), in the lanes of 16 vectors.
ghost use Rattle.std.specs.Prelude.{◌≡◌, ℕ, ◌+◌, ◌*◌, ◌<◌, ◌≤◌, [], length, map, take, drop, slice_index_or};
ghost use Rattle.sha2.specs.Sha256.{word_at};
ghost use Rattle.lanes.specs.Lanes.{HasLanes, HasWords, lane};

use crate::padding::{BLOCK_LEN, PADDED_LEN};
use std::simd::prelude::*;

/// The word at byte `i` of a block.
#[inline(always)]
fn load_be(block: &[u8], i: usize) -> u32
    requires { i + 4 ≤ length block.now }
    ensures { result ≡ word_at block.now i }
{
    u32::from_be_bytes([block[i], block[i + 1], block[i + 2], block[i + 3]])
}

/// The word at byte `i` of each block.
#[inline(always)]
fn load<const N: usize>(blocks: &[&[u8]], i: usize) -> Simd<u32, N>
    requires few { N ≤ 64 }
    requires count { length blocks.now ≡ N }
    requires within { (k : ℕ) → k < N → i + 4 ≤ length (slice_index_or (map (λ block. block.now) blocks.now) k []) }
    ensures { HasLanes N result (λ k. word_at (slice_index_or (map (λ block. block.now) blocks.now) k []) i) }
{
    let mut words = [0; N];
    'lanes: for k in 0..N {
        words[k] = load_be(blocks[k], i);
    }
    Simd::from_array(words)
}

/// The words of these blocks. What `room` holds is dropped.
#[inline(always)]
pub(crate) fn words_of_blocks<const N: usize>(
    room: &[Simd<u32, N>; 16],
    blocks: &[&[u8]],
) -> [Simd<u32, N>; 16]
    requires few { N ≤ 64 }
    requires count { length blocks.now ≡ N }
    requires whole { (k : ℕ) → k < N → length (slice_index_or (map (λ block. block.now) blocks.now) k []) ≡ 64 }
    ensures { (k : ℕ) → k < N → HasWords (lane result k) (slice_index_or (map (λ block. block.now) blocks.now) k []) }
{
    let mut w = *room;
    'load: for i in 0..16 {
        w[i] = load(blocks, 4 * i);
    }
    w
}

/// The word at byte `i` of the block at byte `start` of each padded message.
#[inline(always)]
fn load_padded<const N: usize>(
    texts: &[[u8; PADDED_LEN]; N],
    start: usize,
    i: usize,
) -> Simd<u32, N>
    requires few { N ≤ 64 }
    requires block { start + 64 ≤ 128 }
    requires within { i + 4 ≤ 64 }
    ensures { HasLanes N result (λ k. word_at (take 64 (drop start (slice_index_or texts.now k []))) i) }
{
    let mut words = [0; N];
    'lanes: for k in 0..N {
        words[k] = load_be(&texts[k][start..start + BLOCK_LEN], i);
    }
    Simd::from_array(words)
}

/// The words of the block at byte `start` of each padded message.
pub(crate) fn words_of_padded<const N: usize>(
    room: &[Simd<u32, N>; 16],
    texts: &[[u8; PADDED_LEN]; N],
    start: usize,
) -> [Simd<u32, N>; 16]
    requires few { N ≤ 64 }
    requires block { start + 64 ≤ 128 }
    ensures { (k : ℕ) → k < N → HasWords (lane result k) (take 64 (drop start (slice_index_or texts.now k []))) }
{
    let mut w = *room;
    'load: for i in 0..16 {
        w[i] = load_padded(texts, start, 4 * i);
    }
    w
}
