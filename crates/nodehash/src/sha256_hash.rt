//! SHA-256, whose digests are counted. Of many texts four are digested at once, or eight, in the order of the
//! list, if each of them has two blocks; those of another length one by one.
ghost use Rattle.std.specs.Prelude.{◌≡◌, ℕ, List, [], ◌+◌, ◌<◌, ◌≤◌, length, take, map, slice_index_or, IsTrue};
ghost use Rattle.std.specs.List.{AllByRecursion};
ghost use Rattle.sha2.specs.Sha256.{sha256};
ghost use Rattle.lanes.specs.TwoBlocks.{HasTwoBlocks};
ghost use Rattle.nodehash.specs.Digests.{after_digests};
ghost use Rattle.nodehash.specs.DigestSizes.{Is32Bytes-sha256};

use crate::{GroupSize, NodeHash, NodeText};
use encoding::Hash32;
use lanes::{sha256_eight, sha256_four};
use sha2::{Digest, Sha256};
use std::marker::Model;

/// SHA-256 of FIPS 180-4.
#[derive(Debug, Default, Drop)]
pub struct Sha256Hash {
    count: u64,
    size: GroupSize,
}

impl Model for Sha256Hash {
    ghost Value = { ℕ };

    ghost view = { λ hash. hash.count };
}

impl Sha256Hash {
    /// The hash function, with no digest computed yet. Of many texts it digests four at once.
    pub fn new() -> Self
        ensures { result ≡ 0 }
    {
        Self::in_groups(GroupSize::Four)
    }

    /// The same, which digests so many at once.
    pub fn in_groups(size: GroupSize) -> Self
        ensures { result ≡ 0 }
    {
        Sha256Hash { count: 0, size }
    }
}

/// The text at this place, or the last one.
fn text_at(texts: &[NodeText], place: usize) -> &NodeText
    requires { 0 < length texts.now }
    ensures { place < length texts.now → result.now ≡ slice_index_or texts.now place [] }
{
    let last = texts.len() - 1;
    if place < last {
        &texts[place]
    } else {
        &texts[last]
    }
}

/// Whether each text and its padding fill two blocks, as the texts of all nodes do.
fn have_two_blocks(texts: &[&[u8]]) -> bool
    ensures { IsTrue result → AllByRecursion HasTwoBlocks (map (λ text. text.now) texts.now) }
{
    for text in texts {
        if text.len() < 56 || text.len() >= 120 {
            return false;
        }
    }
    true
}

/// Puts these digests into the places from `first` on, as far as there are places.
fn put_digests(digests: &[[u8; 32]], out: &mut [Hash32], first: usize)
    requires { first ≤ length out.old }
    ensures len { length out.new ≡ length out.old }
    ensures digests { (texts : List (List ℕ)) → length out.old ≡ length texts → take first out.old ≡ map sha256 (take first texts)
        → ((k : ℕ) → k < length digests.now → first + k < length texts → slice_index_or digests.now k [] ≡ sha256 (slice_index_or texts (first + k) []))
        → take (first + length digests.now) out.new ≡ map sha256 (take (first + length digests.now) texts) }
{
    let count = digests.len().min(out.len() - first);
    'put: for k in 0..count {
        out[first + k] = Hash32::new(digests[k]);
    }
}

/// Fills the next four places with the digests of the texts there, or fewer where the list ends.
fn digest_four(texts: &[NodeText], out: &mut [Hash32], first: usize)
    requires first { first < length texts.now }
    requires sizes { length out.old ≡ length texts.now }
    ensures len { length out.new ≡ length out.old }
    ensures digests { take first out.old ≡ map sha256 (take first texts.now) → take (first + 4) out.new ≡ map sha256 (take (first + 4) texts.now) }
{
    let a = text_at(texts, first).bytes();
    let b = text_at(texts, first + 1).bytes();
    let c = text_at(texts, first + 2).bytes();
    let d = text_at(texts, first + 3).bytes();
    if have_two_blocks(&[a, b, c, d]) {
        put_digests(&sha256_four(a, b, c, d), out, first);
    } else {
        put_digests(
            &[
                Sha256::digest(a),
                Sha256::digest(b),
                Sha256::digest(c),
                Sha256::digest(d),
            ],
            out,
            first,
        );
    }
}

/// The same of the next eight places.
fn digest_eight(texts: &[NodeText], out: &mut [Hash32], first: usize)
    requires first { first < length texts.now }
    requires sizes { length out.old ≡ length texts.now }
    ensures len { length out.new ≡ length out.old }
    ensures digests { take first out.old ≡ map sha256 (take first texts.now) → take (first + 8) out.new ≡ map sha256 (take (first + 8) texts.now) }
{
    let group = [
        text_at(texts, first).bytes(),
        text_at(texts, first + 1).bytes(),
        text_at(texts, first + 2).bytes(),
        text_at(texts, first + 3).bytes(),
        text_at(texts, first + 4).bytes(),
        text_at(texts, first + 5).bytes(),
        text_at(texts, first + 6).bytes(),
        text_at(texts, first + 7).bytes(),
    ];
    if have_two_blocks(&group) {
        put_digests(&sha256_eight(&group), out, first);
    } else {
        digest_four(texts, out, first);
        if first + 4 < texts.len() {
            digest_four(texts, out, first + 4);
        }
    }
}

/// Fills `out` with the digests of these texts. The last few texts are a group too, but one alone, for which
/// a group would take longer.
pub(crate) fn digest_texts(texts: &[NodeText], out: &mut [Hash32], size: GroupSize)
    requires { length out.old ≡ length texts.now }
    ensures { out.new ≡ map sha256 texts.now }
{
    let mut first = 0;
    if size == GroupSize::Eight {
        'eights: while first + 4 < texts.len() {
            digest_eight(texts, out, first);
            first += 8;
        }
    }
    'fours: while first + 1 < texts.len() {
        digest_four(texts, out, first);
        first += 4;
    }
    if first < texts.len() {
        out[first] = Hash32::new(Sha256::digest(text_at(texts, first).bytes()));
    }
}

/// The count after this many digests more.
fn counted(count: u64, more: usize) -> u64
    ensures { result ≡ after_digests more count }
{
    count.saturating_add(more as u64)
}

impl NodeHash for Sha256Hash {
    ghost digest_of = { sha256 };

    ghost digests = { λ count. count };

    ghost digest_size = { Is32Bytes-sha256 };

    fn digest(&mut self, text: &[u8]) -> Hash32 {
        self.count = self.count.saturating_add(1);
        Hash32::new(Sha256::digest(text))
    }

    fn digest_all(&mut self, texts: &[NodeText], out: &mut [Hash32]) {
        digest_texts(texts, out, self.size);
        self.count = counted(self.count, texts.len());
    }

    fn count(&self) -> u64 {
        self.count
    }
}
