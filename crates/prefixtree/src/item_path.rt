//! The path of an index among items, without the nodes of a tree. It goes down by the index's bits, keeps the
//! hash of the items on the other side of each level, and ends where at most one item is left.
ghost use Rattle.std.specs.Prelude.{◌≡◌, ◌+◌, ◌<◌, ◌≤◌, ◌==◌, if◌then◌else◌, length, IfOk};
ghost use Rattle.encoding.specs.Bits.{bit};
ghost use Rattle.encoding.specs.Bytes.{Is32Bytes};
ghost use Rattle.prefixtree.specs.Placement.{IsPlacement};
ghost use Rattle.prefixtree.specs.Node.{half, node_count};
ghost use Rattle.prefixtree.specs.Paths.{end_of, IsPath};
ghost use Rattle.prefixtree.specs.Under.{IsUnder};

use crate::Item;
use crate::build::halves;
use crate::node::{by_side, other_side};
use crate::path::{End, MAX_SIBLINGS, Path};
use crate::spans::hash_at;
use arrayvec::ArrayVec;
use encoding::{Hash32, Index};
use nodehash::NodeHash;
use std::alloc::{AllocError, Global};

/// The items on the side of the index's bit at this level, and those on the other side.
fn halves_by_way<'a>(index: &Index, items: &'a [Item], level: usize) -> (&'a [Item], &'a [Item])
    requires level { level < 256 }
    requires under { (prefix : _) × IsUnder prefix level items.now }
    ensures below { result.0.now ≡ (if bit index.now level == 0 then half 0 level items.entry.now else half 1 level items.entry.now) }
    ensures beside { result.1.now ≡ (if bit index.now level == 0 then half 1 level items.entry.now else half 0 level items.entry.now) }
{
    let (zeros, ones) = halves(items, level);
    by_side(index, level, zeros, ones)
}

/// What stands at the end of the path of an index, where these items are left.
fn end_among(index: &Index, items: &[Item]) -> End
    ensures { result ≡ end_of index.now items.now }
{
    let Some((other, commitment)) = items.first() else {
        return End::Empty;
    };
    if other == index {
        End::Present(*commitment)
    } else {
        End::Other(*other, *commitment)
    }
}

/// The path of an index among these items, without their tree. Takes one digest for each node of the tree that is
/// not on the way of the index, and memory as [`root_of_items`](crate::root_of_items) does.
///
/// The indices must ascend; [`placed`](crate::placed) tests that they differ, and sorts them.
///
/// # Errors
///
/// `AllocError` where memory runs out.
pub fn path_of_items<H: NodeHash>(
    alloc: Global,
    hash: &mut H,
    nonce: &Hash32,
    items: &[Item],
    index: &Index,
) -> Result<Path, AllocError>
    requires { IsPlacement items.now }
    ensures path { IfOk result (λ path. IsPath H.digest_of nonce.now items.now index.now path.siblings.items path.end) }
    ensures size { Is32Bytes index.now }
    ensures work { H.digests hash.new ≤ H.digests hash.old + node_count 256 items.now }
    ensures beside { IfOk result (λ path. H.digests hash.new + length path.siblings.items + 1 ≤ H.digests hash.old + node_count 256 items.now) }
{
    // The proof needs the length of an index, which its accessor tells.
    prove!(index.bytes().len() == 32);
    let mut siblings = ArrayVec::new();
    let mut left = items;
    'levels: for level in 0..MAX_SIBLINGS {
        if left.len() <= 1 {
            break;
        }
        let (below, beside) = halves_by_way(index, left, level);
        let prefix = other_side(index, level);
        siblings.push(hash_at(alloc, hash, nonce, beside, level + 1, &prefix)?);
        left = below;
    }
    Ok(Path {
        siblings,
        end: end_among(index, left),
    })
}
