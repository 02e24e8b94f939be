//! Of `nodehash` and `lanes`: digests, one by one and several at once.
ghost use Rattle.lanes.specs.TwoBlocks.{HasTwoBlocks};

use encoding::Hash32;
use lanes::{sha256_eight, sha256_four};
use nodehash::{GroupSize, LEAF_LEN, NodeHash, NodeText, Sha256Hash, SumHash, keyed_digest};
use questions::Case;

pub(crate) fn answer(case: &mut Case<'_>, verb: &[u8]) {
    match verb {
        b"sha256" => each(case, &mut Sha256Hash::new()),
        b"sum" => each(case, &mut SumHash::new()),
        b"all" => all(case, &mut Sha256Hash::new()),
        b"all-eight" => all(case, &mut Sha256Hash::in_groups(GroupSize::Eight)),
        b"all-sum" => all(case, &mut SumHash::new()),
        b"keyed" => keyed(case),
        b"four" => four(case),
        b"eight" => eight(case),
        _ => case.spoil(),
    }
}

/// `sha256 TEXT..`, `sum TEXT..`: each one's digest, and how many were counted.
fn each<H: NodeHash>(case: &mut Case<'_>, hash: &mut H) {
    for _ in 0..case.left() {
        let digest = hash.digest(case.bytes());
        case.say_bytes(digest.bytes());
    }
    case.say_shown(hash.count());
}

/// `all TEXT..`, `all-eight TEXT..`, `all-sum TEXT..`: the digests of texts of nodes, joined, and how many were counted.
fn all<H: NodeHash>(case: &mut Case<'_>, hash: &mut H) {
    let mut texts = Vec::new(case.alloc());
    for _ in 0..case.left() {
        if texts.push(node_text(case)).is_err() {
            case.lack_memory();
        }
    }
    match vec![in case.alloc(); Hash32::default(); texts.len()] {
        Ok(mut digests) => {
            hash.digest_all(&texts, &mut digests);
            say_joined(case, &digests);
            case.say_shown(hash.count());
        }
        Err(_) => case.lack_memory(),
    }
}

/// The next word's bytes, as the text of a node.
fn node_text(case: &mut Case<'_>) -> NodeText {
    let mut text = NodeText::new();
    let bytes = case.bytes();
    if bytes.len() <= LEAF_LEN {
        text.push_slice(bytes);
    } else {
        case.spoil();
    }
    text
}

/// The bytes of hashes, as one word.
pub(crate) fn say_joined(case: &mut Case<'_>, hashes: &[Hash32]) {
    let mut joined = Vec::new(case.alloc());
    for hash in hashes {
        if joined.extend_from_slice(hash.bytes()).is_err() {
            case.lack_memory();
        }
    }
    case.say_bytes(&joined);
}

/// `keyed KIND KEY TEXT`
fn keyed(case: &mut Case<'_>) {
    let kind = case.number_to(255) as u8;
    let key = case.hash();
    let text = case.bytes();
    case.say_bytes(keyed_digest(kind, &key, text).bytes());
}

/// `four M0 M1 M2 M3`: the digests of four messages of 56 to 119 bytes, joined.
fn four(case: &mut Case<'_>) {
    let m0 = two_blocks(case);
    let m1 = two_blocks(case);
    let m2 = two_blocks(case);
    let m3 = two_blocks(case);
    case.say_bytes(sha256_four(m0, m1, m2, m3).as_flattened());
}

/// `eight M0 .. M7`: the same of eight.
fn eight(case: &mut Case<'_>) {
    let m0 = two_blocks(case);
    let m1 = two_blocks(case);
    let m2 = two_blocks(case);
    let m3 = two_blocks(case);
    let m4 = two_blocks(case);
    let m5 = two_blocks(case);
    let m6 = two_blocks(case);
    let m7 = two_blocks(case);
    case.say_bytes(sha256_eight(&[m0, m1, m2, m3, m4, m5, m6, m7]).as_flattened());
}

/// The next word's bytes, which have two blocks with their padding.
fn two_blocks<'a>(case: &mut Case<'a>) -> &'a [u8]
    ensures { HasTwoBlocks result.now }
{
    let message = case.bytes();
    if 56 <= message.len() && message.len() < 120 {
        return message;
    }
    case.spoil();
    &[0; 56]
}
