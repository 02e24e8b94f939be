ghost use Rattle.std.specs.Prelude.{◌≡◌};
ghost use Rattle.prefixtree.specs.Placement.{IsPlacement};

use crate::digests::{LEAF_BYTES, measure_length};
use crate::run::Run;
use crate::tree::{Plain, grow, items_from};
use encoding::Hash32;
use nodehash::{NodeHash, Sha256Hash};
use prefixtree::{Item, Tree, placed};
use std::marker::Model;

/// Items in the order of their indices, none of which stands twice.
#[derive(Drop)]
struct Placed {
    items: Vec<Item>,
}

impl Model for Placed {
    ghost use Rattle.prefixtree.specs.Placement.{IsPlacement, Items};

    ghost Value = { Items };

    ghost view = { λ placed. placed.items.items };

    ghost invariant = { λ placed. IsPlacement placed.items.items };
}

impl Placed {
    /// The items at the digests of so many numbers from `first` on.
    fn new(run: &Run, first: usize, count: usize) -> Placed {
        let items = items_from(run, first, count);
        match placed(run.alloc(), &items) {
            Ok(Some(items)) => Placed { items },
            _ => {
                run.fail();
                Placed {
                    items: Vec::new(run.alloc()),
                }
            }
        }
    }

    fn items(&self) -> &[Item]
        ensures value { result.now ≡ self.now }
        ensures placement { IsPlacement self.now }
    {
        &self.items
    }
}

/// `whole ITEMS TIMES DIGESTS`. The steps: digests; the tree of a list of so many items, made so often;
/// digests again. The number of the middle step is the digests that it took.
pub(crate) fn measure_whole(run: &Run, numbers: &[usize]) {
    let [items, times, digests] = run.numbers::<3>(numbers);
    let items = Placed::new(run, 0, items);
    run.step(0);
    measure_length(run, LEAF_BYTES, digests);
    make_often(run, &items, times);
    measure_length(run, LEAF_BYTES, digests);
}

/// The step of the tree of these items, made so often.
fn make_often(run: &Run, items: &Placed, times: usize) {
    let mut hash = run.hash();
    for _ in 0..times {
        if Tree::from_items(run.alloc(), &mut hash, Hash32::default(), items.items()).is_err() {
            run.fail();
        }
    }
    run.step(hash.count());
}

/// The root of the tree with the changes put in all at once. The tree stays as it was.
fn changed_at_once(run: &Run, hash: &mut Sha256Hash, tree: &Plain, changes: &Placed) -> Hash32 {
    match tree.with_all(run.alloc(), hash, changes.items()) {
        Ok(changed) => changed.root(),
        Err(_) => {
            run.fail();
            Hash32::default()
        }
    }
}

/// The root of the tree with the changes put in one by one. The tree stays as it was.
fn changed_one_by_one(run: &Run, hash: &mut Sha256Hash, tree: &Plain, changes: &Placed) -> Hash32 {
    match tree.copy(run.alloc()) {
        Ok(mut changed) => {
            grow(run, hash, &mut changed, changes.items());
            changed.root()
        }
        Err(_) => {
            run.fail();
            Hash32::default()
        }
    }
}

/// A step of a round: the lists put in, each for itself, in one way. Returns the roots.
fn measure_way(
    run: &Run,
    hash: &mut Sha256Hash,
    tree: &Plain,
    lists: &[Placed],
    is_at_once: bool,
) -> Vec<Hash32> {
    let mut roots = run.list(lists.len());
    for changes in lists {
        let root = if is_at_once {
            changed_at_once(run, hash, tree, changes)
        } else {
            changed_one_by_one(run, hash, tree, changes)
        };
        run.push(&mut roots, root);
    }
    run.step(hash.count());
    roots
}

/// The steps of a round. Both ways have to come to the same roots.
fn measure_round(
    run: &Run,
    hash: &mut Sha256Hash,
    tree: &Plain,
    lists: &[Placed],
    is_at_once: bool,
) {
    run.step(hash.count());
    let first = measure_way(run, hash, tree, lists, is_at_once);
    let second = measure_way(run, hash, tree, lists, !is_at_once);
    if first != second {
        run.fail();
    }
}

/// So many lists of as many changes, which begin at the number `first`.
fn lists_from(run: &Run, first: usize, changes: usize, lists: usize) -> Vec<Placed> {
    let mut all = run.list(lists);
    for list in 0..lists {
        let changes = Placed::new(run, first.wrapping_add(list.wrapping_mul(changes)), changes);
        run.push(&mut all, changes);
    }
    all
}

/// The steps of so many rounds. Their lists have numbers of their own: their indices are new to the tree of so
/// many items.
fn measure_rounds(run: &Run, hash: &mut Sha256Hash, tree: &Plain, counts: [usize; 4]) {
    let [items, changes, lists, rounds] = counts;
    let each = lists.wrapping_mul(changes);
    for round in 0..rounds {
        let first = items.wrapping_add(round.wrapping_mul(each));
        let lists = lists_from(run, first, changes, lists);
        measure_round(run, hash, tree, &lists, round % 2 == 0);
    }
}

/// `changes ITEMS CHANGES LISTS ROUNDS DIGESTS`. The steps: digests; in each round its lists of so many
/// changes made, for a tree of so many items, put in one way, and put in the other way; digests again. The
/// ways change places from round to round. The number of a step in a round is the digests so far.
pub(crate) fn measure(run: &Run, numbers: &[usize]) {
    let [items, changes, lists, rounds, digests] = run.numbers::<5>(numbers);
    let placed = Placed::new(run, 0, items);
    let mut hash = run.hash();
    match Tree::from_items(run.alloc(), &mut hash, Hash32::default(), placed.items()) {
        Ok(tree) => {
            run.step(hash.count());
            measure_length(run, LEAF_BYTES, digests);
            measure_rounds(run, &mut hash, &tree, [items, changes, lists, rounds]);
            measure_length(run, LEAF_BYTES, digests);
        }
        Err(_) => run.fail(),
    }
}
