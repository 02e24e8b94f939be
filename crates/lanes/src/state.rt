ghost use Rattle.std.specs.Prelude.{◌≡◌, ℕ, ◌<◌, [], ◌∷◌, length, slice_index, slice_index_or};
ghost use Rattle.sha2.specs.Sha256.{add_state, digest_bytes, initial_hash_256};
ghost use Rattle.lanes.specs.Lanes.{lane};

use crate::words::{add, every};
use std::simd::prelude::*;

/// Eight words of each message: its hash values, or its working variables, which are a to h in FIPS 180-4,
/// section 6.2.2.
pub(crate) type State<const N: usize> = [Simd<u32, N>; 8];

/// These eight words of each message. What `room` held is dropped: a generic function cannot make an array of
/// vectors, but it can fill one.
#[inline(always)]
pub(crate) fn filled<const N: usize>(
    room: &State<N>,
    a: Simd<u32, N>,
    b: Simd<u32, N>,
    c: Simd<u32, N>,
    d: Simd<u32, N>,
    e: Simd<u32, N>,
    f: Simd<u32, N>,
    g: Simd<u32, N>,
    h: Simd<u32, N>,
) -> State<N>
    ensures { result ≡ a.entry ∷ b.entry ∷ c.entry ∷ d.entry ∷ e.entry ∷ f.entry ∷ g.entry ∷ h.entry ∷ [] }
{
    let mut state = *room;
    state[0] = a;
    state[1] = b;
    state[2] = c;
    state[3] = d;
    state[4] = e;
    state[5] = f;
    state[6] = g;
    state[7] = h;
    state
}

/// The initial hash value in each lane (section 5.3.3).
pub(crate) fn initial_hash<const N: usize>(room: &State<N>) -> State<N>
    ensures { (k : ℕ) → k < N → lane result k ≡ initial_hash_256 }
{
    filled(
        room,
        every(0x6a09_e667),
        every(0xbb67_ae85),
        every(0x3c6e_f372),
        every(0xa54f_f53a),
        every(0x510e_527f),
        every(0x9b05_688c),
        every(0x1f83_d9ab),
        every(0x5be0_cd19),
    )
}

/// The hash values with the working variables added to them (section 6.2.2, step 4).
#[inline(always)]
pub(crate) fn summed<const N: usize>(hash: State<N>, v: State<N>) -> State<N>
    ensures { (k : ℕ) → k < N
        → lane result k ≡ add_state (lane hash.entry k) (lane v.entry k) }
{
    filled(
        &hash,
        add(hash[0], v[0]),
        add(hash[1], v[1]),
        add(hash[2], v[2]),
        add(hash[3], v[3]),
        add(hash[4], v[4]),
        add(hash[5], v[5]),
        add(hash[6], v[6]),
        add(hash[7], v[7]),
    )
}

/// Word `i` of message `k`.
#[inline(always)]
fn word<const N: usize>(state: &State<N>, k: usize, i: usize) -> u32
    requires lane { k < N }
    requires word { i < 8 }
    ensures { result ≡ slice_index (lane state.now k) i }
{
    state[i].to_array()[k]
}

/// The digest of message `k`: its hash value, high byte first.
fn digest_of_lane<const N: usize>(hash: &State<N>, k: usize) -> [u8; 32]
    requires { k < N }
    ensures { result ≡ digest_bytes (lane hash.now k) 8 }
{
    let mut digest = [0; 32];
    'words: for i in 0..8 {
        digest[4 * i..4 * i + 4].copy_from_slice(&word(hash, k, i).to_be_bytes());
    }
    digest
}

/// The digest of each message.
pub(crate) fn digests<const N: usize>(hash: &State<N>) -> [[u8; 32]; N]
    ensures len { length result ≡ N }
    ensures lanes { (k : ℕ) → k < N → slice_index_or result k [] ≡ digest_bytes (lane hash.now k) 8 }
{
    let mut digests = [[0; 32]; N];
    'lanes: for k in 0..N {
        digests[k] = digest_of_lane(hash, k);
    }
    digests
}
