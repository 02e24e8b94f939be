//! Of `prefixtree`: the texts on the way of an index.
ghost use Rattle.std.specs.Prelude.{◌≤◌, length};

use arrayvec::ArrayVec;
use encoding::Hash32;
use nodehash::Sha256Hash;
use prefixtree::{End, MAX_SIBLINGS, Path, climb, end_text, joined_text, leads};
use questions::Case;

pub(crate) fn answer(case: &mut Case<'_>, verb: &[u8]) {
    match verb {
        b"end-text" => end_of_way(case),
        b"joined" => joined(case),
        b"climb" => climbed(case),
        b"leads" => led(case),
        _ => case.spoil(),
    }
}

/// `present COMMITMENT`, `empty` or `other INDEX COMMITMENT`.
fn end(case: &mut Case<'_>) -> End {
    match case.word() {
        b"present" => End::Present(case.hash()),
        b"empty" => End::Empty,
        b"other" => End::Other(case.index(), case.hash()),
        _ => {
            case.spoil();
            End::Empty
        }
    }
}

/// The next word's bytes, 32 for each of at most 256 siblings.
pub(crate) fn siblings<'a>(case: &mut Case<'a>) -> &'a [[u8; 32]]
    ensures { length result.now ≤ 256 }
{
    let (siblings, rest) = case.bytes().as_chunks::<32>();
    if siblings.len() <= MAX_SIBLINGS && rest.is_empty() {
        return siblings;
    }
    case.spoil();
    &[]
}

/// The path of these siblings.
pub(crate) fn path_of(case: &mut Case<'_>, siblings: &[[u8; 32]], end: End) -> Path {
    let mut hashes = ArrayVec::new();
    for sibling in siblings {
        if hashes.try_push(Hash32::new(*sibling)).is_err() {
            case.spoil();
        }
    }
    Path {
        siblings: hashes,
        end,
    }
}

/// `end-text NONCE INDEX LEVEL END..`
fn end_of_way(case: &mut Case<'_>) {
    let nonce = case.hash();
    let index = case.index();
    let level = case.number_to(256);
    let end = end(case);
    case.say_bytes(end_text(&nonce, &index, level, end).bytes());
}

/// `joined INDEX LEVEL BELOW SIBLING`
fn joined(case: &mut Case<'_>) {
    let index = case.index();
    let level = case.number_to(255);
    let below = case.hash();
    let sibling = case.hash();
    case.say_bytes(joined_text(&index, level, &below, &sibling).bytes());
}

/// `climb NONCE INDEX LEVEL END.. SIBLINGS`: the text at LEVEL of the way that ends so.
fn climbed(case: &mut Case<'_>) {
    let nonce = case.hash();
    let index = case.index();
    let level = case.number_to(256);
    let end = end(case);
    let siblings = siblings(case);
    if siblings.len() < level {
        return case.spoil();
    }
    let text = end_text(&nonce, &index, siblings.len(), end);
    let text = climb(&mut Sha256Hash::new(), &index, siblings, text, level);
    case.say_bytes(text.bytes());
}

/// `leads ROOT NONCE INDEX END.. SIBLINGS`: by the text of the end, and by the path.
fn led(case: &mut Case<'_>) {
    let root = case.hash();
    let nonce = case.hash();
    let index = case.index();
    let end = end(case);
    let siblings = siblings(case);
    let path = path_of(case, siblings, end);
    let text = end_text(&nonce, &index, siblings.len(), path.end);
    case.say_truth(leads(&mut Sha256Hash::new(), &root, &index, siblings, text));
    case.say_truth(path.leads(&mut Sha256Hash::new(), &nonce, &index, &root));
}
