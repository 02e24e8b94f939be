//! Putting many items into a node at once, and making a node anew under another nonce. A place with few
//! changes below it, or few nodes to make anew, is made level by level, with the digests of a level
//! taken together. Else a place is split into its two sides: with many, so that rows stay short, and
//! with the fewest, since rows would only cost time.
ghost use Rattle.std.specs.Prelude.{◌≡◌, ◌<◌, ◌≤◌, ◌++◌};
ghost use Rattle.prefixtree.specs.Node.{half};
ghost use Rattle.prefixtree.specs.Under.{IsUnder};
ghost use Rattle.prefixtree.specs.Growth.{IsGrowth, MayGrow};

use crate::Item;
use crate::node::{Children, Node, empty, interior, leaf};
use crate::place::{Before, Outcome};
use crate::row::grow_together;
use encoding::{Hash32, Index, bit, with_one};
use nodehash::NodeHash;
use std::alloc::{AllocError, Global};
use std::rc::Rc;

/// The fewest changes whose nodes are made level by level: with fewer a row seldom has four digests.
const FEWEST_TOGETHER: usize = 4;

/// The most changes whose nodes are made level by level.
const MOST_TOGETHER: usize = 256;

/// The most nodes of another nonce that are made anew level by level.
const MOST_NODES_TOGETHER: usize = 2048;

/// Of so many nodes of a tree at most one is made anew level by level at a time. Rows take less than 16
/// times as many bytes for each of their nodes, that is less than 16 for each node of the tree.
const NODES_FOR_ONE: usize = 32;

/// How many nodes are made anew level by level at a time, at most, where a tree of this root is renewed.
pub(crate) fn most_renewed(node: &Node) -> usize {
    let enough = MOST_NODES_TOGETHER * NODES_FOR_ONE;
    match node.room_beside(enough) {
        Some(left) => (enough - left) / NODES_FOR_ONE,
        None => MOST_NODES_TOGETHER,
    }
}

/// Whether the nodes of a place are made level by level, where that takes at most so many nodes of another
/// nonce.
fn is_made_together(before: &Before, changes: &[Item], most: usize) -> bool {
    match before {
        Before::Stale(node) => {
            (changes.len() >= FEWEST_TOGETHER || node.room_beside(FEWEST_TOGETHER).is_none())
                && changes.len() <= MOST_TOGETHER
                && node.room_beside(most).is_some()
        }
        _ => changes.len() >= FEWEST_TOGETHER && changes.len() <= MOST_TOGETHER,
    }
}

/// The items with bit `level` equal to 0, and those with bit `level` equal to 1.
pub(crate) fn halves<'a>(items: &'a [Item], level: usize) -> (&'a [Item], &'a [Item])
    requires level { level < 256 }
    requires under { (prefix : _) × IsUnder prefix level items.now }
    ensures zeros { result.0.now ≡ half 0 level items.entry.now }
    ensures ones { result.1.now ≡ half 1 level items.entry.now }
    ensures whole { items.entry.now ≡ result.0.now ++ result.1.now }
{
    items.split_at(items.partition_point(|item| !bit(&item.0, level)))
}

/// The node at the prefix of `level` bits, where `before` stood, with these changes put in. Takes one
/// digest for each node that is made. At most `most` nodes of another nonce are made anew level
/// by level at a time.
pub(crate) fn grow<H: NodeHash>(
    alloc: Global,
    hash: &mut H,
    nonce: &Hash32,
    prefix: &Index,
    level: usize,
    before: Before,
    changes: &[Item],
    most: usize,
) -> Result<Node, AllocError>
    requires level { level ≤ 256 }
    requires place { MayGrow H.digest_of nonce.now prefix.now level before changes.now }
    ensures { IsGrowth H.digest_of nonce.now prefix.now level before changes.now result (H.digests hash.old) (H.digests hash.new) }
{
    if is_made_together(&before, changes, most) {
        return grow_together(alloc, hash, nonce, prefix, level, before, changes);
    }
    match before.into_outcome(alloc, level, changes)? {
        Outcome::Kept(node) => Ok(node),
        Outcome::Vacant => Ok(empty(hash, nonce, prefix, level)),
        Outcome::Single(item) => Ok(leaf(hash, nonce, level, item)),
        Outcome::Parted(sides) => {
            let (zeros, ones) = halves(changes, level);
            let zero_side = grow(
                alloc,
                hash,
                nonce,
                prefix,
                level + 1,
                sides.zero_side,
                zeros,
                most,
            )?;
            let one_side = grow(
                alloc,
                hash,
                nonce,
                &with_one(prefix, level),
                level + 1,
                sides.one_side,
                ones,
                most,
            )?;
            let children = Rc::new(
                alloc,
                Children {
                    zero_side,
                    one_side,
                },
            )?;
            Ok(interior(hash, children))
        }
    }
}
