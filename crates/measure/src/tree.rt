use crate::digests::{LEAF_BYTES, measure_length};
use crate::run::Run;
use encoding::{Hash32, Index};
use nodehash::{NodeHash, Sha256Hash};
use prefixtree::{Item, Tree};
use sha2::{Digest, Sha256};

/// A tree as `directoryd` has it.
pub(crate) type Plain = Tree<Sha256Hash>;

/// The items at the digests of so many numbers from `first` on, not sorted.
pub(crate) fn items_from(run: &Run, first: usize, count: usize) -> Vec<Item> {
    let mut items = run.list(count);
    for k in 0..count {
        let number = (first as u64).wrapping_add(k as u64);
        let index = Index::new(Sha256::digest(&number.to_be_bytes()));
        run.push(&mut items, (index, Hash32::default()));
    }
    items
}

/// Grows the tree by these items, one by one.
pub(crate) fn grow(run: &Run, hash: &mut Sha256Hash, tree: &mut Plain, items: &[Item]) {
    for (index, commitment) in items {
        match tree.with(run.alloc(), hash, *index, *commitment) {
            Ok(next) => *tree = next,
            Err(_) => run.fail(),
        }
    }
}

/// Puts each of the items into the tree, which stays as it was.
fn put_each(run: &Run, hash: &mut Sha256Hash, tree: &Plain, items: &[Item]) {
    for (index, commitment) in items {
        if tree.with(run.alloc(), hash, *index, *commitment).is_err() {
            run.fail();
        }
    }
}

/// The levels of the paths of these items, added up.
fn levels(tree: &Plain, items: &[Item]) -> u64 {
    let mut levels: u64 = 0;
    for (index, _) in items {
        let path = tree.path(index);
        // No sibling is zero. The comparison keeps the compiler from leaving the siblings out.
        if path.siblings.as_slice().last() != Some(&Hash32::default()) {
            levels = levels.saturating_add(path.level() as u64);
        }
    }
    levels
}

/// The steps of a tree, which grows by the first items.
fn measure_tree(
    run: &Run,
    hash: &mut Sha256Hash,
    tree: &mut Plain,
    first: &[Item],
    others: &[Item],
) {
    grow(run, hash, tree, first);
    run.step(hash.count());
    put_each(run, hash, tree, others);
    run.step(hash.count());
    run.step(levels(tree, others));
}

/// `tree GROWN MORE DIGESTS`. The steps: digests; the tree grown to so many items, one insert at a time;
/// more inserts into it, each of which leaves it as it was; the paths of their indices; digests again. The
/// number of a step of inserts is the digests so far.
pub(crate) fn measure(run: &Run, numbers: &[usize]) {
    let [grown, more, digests] = run.numbers::<3>(numbers);
    let first = items_from(run, 0, grown);
    let others = items_from(run, grown, more);
    let mut hash = run.hash();
    match Tree::new(run.alloc(), &mut hash, Hash32::default()) {
        Ok(mut tree) => {
            run.step(hash.count());
            measure_length(run, LEAF_BYTES, digests);
            measure_tree(run, &mut hash, &mut tree, &first, &others);
            measure_length(run, LEAF_BYTES, digests);
        }
        Err(_) => run.fail(),
    }
}
