use crate::run::Run;
use encoding::{Hash32, Index};
use nodehash::{NodeHash, NodeText, Sha256Hash, interior_text, leaf_text};
use sha2::{Digest, Sha256};

/// The text of a leaf or of an interior node, made of the digest of a number.
fn text_of(number: usize, is_leaf: bool) -> NodeText {
    let digest = Sha256::digest(&(number as u64).to_be_bytes());
    let hash = Hash32::new(digest);
    if is_leaf {
        leaf_text(&hash, &Index::new(digest), 20, &hash)
    } else {
        interior_text(&hash, &hash)
    }
}

fn texts_of(run: &Run, count: usize, is_leaf: bool) -> Vec<NodeText> {
    let mut texts = run.list(count);
    for number in 0..count {
        run.push(&mut texts, text_of(number, is_leaf));
    }
    texts
}

/// The first bytes of these digests, added up.
fn first_bytes(digests: &[Hash32]) -> u64 {
    let mut total: u64 = 0;
    for digest in digests {
        total = total.saturating_add(u64::from(digest.bytes()[0]));
    }
    total
}

/// The digests of the texts, one by one.
fn one_by_one(run: &Run, hash: &mut Sha256Hash, texts: &[NodeText]) -> Vec<Hash32> {
    let mut digests = run.list(texts.len());
    for text in texts {
        run.push(&mut digests, hash.digest(text.bytes()));
    }
    digests
}

/// The digests of the texts, all at once.
fn all_at_once(run: &Run, hash: &mut Sha256Hash, texts: &[NodeText]) -> Vec<Hash32> {
    let mut digests = run.filled(Hash32::default(), texts.len());
    if digests.len() == texts.len() {
        hash.digest_all(texts, &mut digests);
    }
    digests
}

/// The step of these texts in one way, so often.
fn measure_way(run: &Run, texts: &[NodeText], rounds: usize, is_at_once: bool) {
    let mut hash = run.hash();
    let mut total: u64 = 0;
    for _ in 0..rounds {
        let digests = if is_at_once {
            all_at_once(run, &mut hash, texts)
        } else {
            one_by_one(run, &mut hash, texts)
        };
        total = total.saturating_add(first_bytes(&digests));
    }
    run.step(total);
}

/// `texts COUNT ROUNDS`. The steps: the digests of so many texts of 64 bytes, one by one and then all at
/// once, each so often; and the same for texts of 101 bytes.
pub(crate) fn measure(run: &Run, numbers: &[usize]) {
    let [count, rounds] = run.numbers::<2>(numbers);
    let interiors = texts_of(run, count, false);
    let leaves = texts_of(run, count, true);
    run.step(0);
    for texts in [&interiors, &leaves] {
        measure_way(run, texts, rounds, false);
        measure_way(run, texts, rounds, true);
    }
}
