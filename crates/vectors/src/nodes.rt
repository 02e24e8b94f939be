//! Of `nodehash` and `commit`: the texts of nodes and of commitments. Digests stand in `digests`.

use crate::digests;
use commit::{commit, commit_text};
use nodehash::{Sha256Hash, SumHash, empty_text, interior_text, leaf_text};
use questions::Case;

pub(crate) fn answer(case: &mut Case<'_>) {
    match case.word() {
        b"empty" => empty(case),
        b"leaf" => leaf(case),
        b"interior" => interior(case),
        b"commit" => committed(case, false),
        b"commit2" => committed(case, true),
        verb => digests::answer(case, verb),
    }
}

/// `empty NONCE INDEX LEVEL`
fn empty(case: &mut Case<'_>) {
    let nonce = case.hash();
    let index = case.index();
    let level = case.number_to(256) as u32;
    case.say_bytes(empty_text(&nonce, &index, level).bytes());
}

/// `leaf NONCE INDEX LEVEL COMMITMENT`
fn leaf(case: &mut Case<'_>) {
    let nonce = case.hash();
    let index = case.index();
    let level = case.number_to(256) as u32;
    let commitment = case.hash();
    case.say_bytes(leaf_text(&nonce, &index, level, &commitment).bytes());
}

/// `interior ZERO ONE`
fn interior(case: &mut Case<'_>) {
    let zero = case.hash();
    let one = case.hash();
    case.say_bytes(interior_text(&zero, &one).bytes());
}

/// `commit SALT NAME KEY`, `commit2 SALT NAME KEY POLICY`: the text, and its digests by SHA-256 and by sums.
fn committed(case: &mut Case<'_>, has_policy: bool) {
    let salt = case.hash();
    let name = case.name();
    let key = case.bound_key(has_policy);
    case.say_bytes(commit_text(&salt, &name, &key).bytes());
    case.say_bytes(commit(&mut Sha256Hash::new(), &salt, &name, &key).bytes());
    case.say_bytes(commit(&mut SumHash::new(), &salt, &name, &key).bytes());
}
