//! Of `prefixtree`: a tree, which stays for the next lines. Single steps of a way stand in `ways`.

use crate::digests::say_joined;
use crate::ways;
use encoding::{Hash32, Index};
use nodehash::{NodeHash, Sha256Hash};
use prefixtree::{End, Item, Path, Tree, placed, root_of_items};
use questions::Case;
use std::alloc::{AllocError, Global};

/// A tree, and how many digests the call that made it took.
#[derive(Drop)]
pub(crate) struct Grown {
    tree: Tree<Sha256Hash>,
    digests: u64,
}

impl Grown {
    /// The tree of no items under a nonce of zeros.
    pub(crate) fn new(alloc: Global) -> Result<Self, AllocError> {
        Ok(Grown {
            tree: Tree::new(alloc, &mut Sha256Hash::new(), Hash32::default())?,
            digests: 0,
        })
    }
}

pub(crate) fn answer(case: &mut Case<'_>, grown: &mut Grown) {
    match case.word() {
        b"new" => new(case, grown),
        b"with" => with(case, grown),
        b"from" => from(case, grown),
        b"bare" => bare(case),
        b"more" => more(case, grown),
        b"renew" => renew(case, grown),
        b"copy" => copy(case, grown),
        b"count" => case.say_shown(grown.digests),
        b"root" => case.say_bytes(grown.tree.root().bytes()),
        b"get" => get(case, &grown.tree),
        b"path" => path(case, &grown.tree),
        verb => ways::answer(case, verb),
    }
}

/// Keeps the tree that was made, and tells its root.
fn keep(
    case: &mut Case<'_>,
    grown: &mut Grown,
    made: Result<Tree<Sha256Hash>, AllocError>,
    digests: u64,
) {
    match made {
        Ok(tree) => {
            case.say_bytes(tree.root().bytes());
            *grown = Grown { tree, digests };
        }
        Err(_) => case.lack_memory(),
    }
}

/// `new NONCE`
fn new(case: &mut Case<'_>, grown: &mut Grown) {
    let mut hash = Sha256Hash::new();
    let made = Tree::new(case.alloc(), &mut hash, case.hash());
    keep(case, grown, made, hash.count());
}

/// `with INDEX COMMITMENT`
fn with(case: &mut Case<'_>, grown: &mut Grown) {
    let mut hash = Sha256Hash::new();
    let index = case.index();
    let commitment = case.hash();
    let made = grown.tree.with(case.alloc(), &mut hash, index, commitment);
    keep(case, grown, made, hash.count());
}

/// The items of the words that are left.
fn items(case: &mut Case<'_>) -> Vec<Item> {
    let mut items = Vec::new(case.alloc());
    for _ in 0..case.left() / 2 {
        let index = case.index();
        let commitment = case.hash();
        if items.push((index, commitment)).is_err() {
            case.lack_memory();
        }
    }
    items
}

/// `from NONCE (INDEX COMMITMENT)..`
fn from(case: &mut Case<'_>, grown: &mut Grown) {
    let mut hash = Sha256Hash::new();
    let nonce = case.hash();
    let items = items(case);
    match placed(case.alloc(), &items) {
        Ok(Some(items)) => {
            let made = Tree::from_items(case.alloc(), &mut hash, nonce, &items);
            keep(case, grown, made, hash.count());
        }
        Ok(None) => case.say("repeated"),
        Err(_) => case.lack_memory(),
    }
}

/// `bare NONCE (INDEX COMMITMENT)..`
fn bare(case: &mut Case<'_>) {
    let mut hash = Sha256Hash::new();
    let nonce = case.hash();
    let items = items(case);
    match placed(case.alloc(), &items) {
        Ok(Some(items)) => {
            let made = root_of_items(case.alloc(), &mut hash, &nonce, &items);
            say_root(case, made, hash.count());
        }
        Ok(None) => case.say("repeated"),
        Err(_) => case.lack_memory(),
    }
}

/// Tells a root, and how many digests it took.
fn say_root(case: &mut Case<'_>, made: Result<Hash32, AllocError>, digests: u64) {
    match made {
        Ok(root) => {
            case.say_bytes(root.bytes());
            case.say_shown(digests);
        }
        Err(_) => case.lack_memory(),
    }
}

/// `more (INDEX COMMITMENT)..`
fn more(case: &mut Case<'_>, grown: &mut Grown) {
    let mut hash = Sha256Hash::new();
    let items = items(case);
    // Some of the items alone would change the tree.
    if case.lacks_memory() {
        return;
    }
    match placed(case.alloc(), &items) {
        Ok(Some(items)) => {
            let made = grown.tree.with_all(case.alloc(), &mut hash, &items);
            keep(case, grown, made, hash.count());
        }
        Ok(None) => case.say("repeated"),
        Err(_) => case.lack_memory(),
    }
}

/// `renew NONCE`
fn renew(case: &mut Case<'_>, grown: &mut Grown) {
    let mut hash = Sha256Hash::new();
    let made = grown.tree.renew(case.alloc(), &mut hash, case.hash());
    keep(case, grown, made, hash.count());
}

/// `copy`: goes on with a copy of the tree.
fn copy(case: &mut Case<'_>, grown: &mut Grown) {
    let made = grown.tree.copy(case.alloc());
    let digests = grown.digests;
    keep(case, grown, made, digests);
}

/// `get INDEX`
fn get(case: &mut Case<'_>, tree: &Tree<Sha256Hash>) {
    match tree.get(&case.index()) {
        Some(commitment) => case.say_bytes(commitment.bytes()),
        None => case.say("none"),
    }
}

/// `path INDEX`: as it is in one piece, and in two.
fn path(case: &mut Case<'_>, tree: &Tree<Sha256Hash>) {
    let index = case.index();
    let path = tree.path(&index);
    say_path(case, &path);
    let (level, end) = tree.path_end(&index);
    if level != path.level() || end != path.end {
        case.spoil();
    }
    compare_siblings(case, tree, &index, path.siblings.as_slice());
}

/// Spoils the answer unless these are the siblings that the tree writes.
fn compare_siblings(
    case: &mut Case<'_>,
    tree: &Tree<Sha256Hash>,
    index: &Index,
    siblings: &[Hash32],
) {
    let Ok(mut bytes) = Vec::with_capacity(case.alloc(), 8192) else {
        return case.lack_memory();
    };
    tree.write_siblings(index, &mut bytes);
    if bytes.len() != 32 * siblings.len() {
        case.spoil();
    }
    for (written, sibling) in bytes.chunks_exact(32).zip(siblings) {
        if written != sibling.bytes() {
            case.spoil();
        }
    }
}

fn say_path(case: &mut Case<'_>, path: &Path) {
    say_end(case, path.end);
    case.say_shown(path.level());
    say_joined(case, path.siblings.as_slice());
}

fn say_end(case: &mut Case<'_>, end: End) {
    match end {
        End::Present(commitment) => {
            case.say("present");
            case.say_bytes(commitment.bytes());
        }
        End::Empty => case.say("empty"),
        End::Other(index, commitment) => {
            case.say("other");
            case.say_bytes(Index::bytes(&index));
            case.say_bytes(commitment.bytes());
        }
    }
}
