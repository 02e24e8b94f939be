//! The climb along a way: from the text at its end, one digest and one sibling give the text of the
//! node above, until the root's. `leads` compares the digest of that last text with a root.
ghost use Rattle.std.specs.Prelude.{◌≡◌, ◌≢◌, ◌↔◌, ◌+◌, ◌≤◌, drop, length, IsTrue};
ghost use Rattle.nodehash.specs.declared.node_text.TheConstants.{INTERIOR_LEN};
ghost use Rattle.prefixtree.specs.Paths.{end_bytes, node_text, parent_text, Way};
ghost use Rattle.prefixtree.specs.declared.path.TheConstants.{MAX_SIBLINGS};

use crate::node::by_side;
use crate::{End, way_is_fold};
use encoding::{Hash32, Index};
use nodehash::{NodeHash, NodeText, empty_text, interior_text, leaf_text};

/// The text of the node at the end of a path.
pub fn end_text(nonce: &Hash32, index: &Index, level: usize, end: End) -> NodeText
    requires { level ≤ 256 }
    ensures value { result ≡ end_bytes nonce.now index.now level end }
    ensures no_interior { length result ≢ INTERIOR_LEN }
{
    let level = level as u32;
    match end {
        End::Present(commitment) => leaf_text(nonce, index, level, &commitment),
        End::Empty => empty_text(nonce, index, level),
        End::Other(other, commitment) => leaf_text(nonce, &other, level, &commitment),
    }
}

/// The text of the interior node at `level`, from the hash of the node below it on the index's side
/// and the sibling.
pub fn joined_text(index: &Index, level: usize, below: &Hash32, sibling: &Hash32) -> NodeText
    requires { level ≤ 255 }
    ensures value { result ≡ parent_text index.now level below.now sibling.now }
    ensures len { length result ≡ INTERIOR_LEN }
{
    let (zero_side, one_side) = by_side(index, level, below, sibling);
    interior_text(zero_side, one_side)
}

/// The text of the node at `level` on the way of an index, from the text at the way's end. Takes one
/// digest for each level that it climbs.
pub fn climb<H: NodeHash>(
    hash: &mut H,
    index: &Index,
    siblings: &[[u8; 32]],
    end: NodeText,
    level: usize,
) -> NodeText
    requires few { length siblings.now ≤ MAX_SIBLINGS }
    requires level { level ≤ length siblings.now }
    ensures value { result ≡ node_text H.digest_of index.now level (drop level siblings.now) end }
    ensures counted { H.digests hash.new + level ≤ H.digests hash.old + length siblings.now }
{
    let mut text = end;
    for k in (level..siblings.len()).rev() {
        let below = hash.digest(text.bytes());
        text = joined_text(index, k, &below, &Hash32::new(siblings[k]));
    }
    text
}

/// Whether there is a way of an index from the root to the text, with these siblings beside it. Takes
/// one digest more than there are siblings.
pub fn leads<H: NodeHash>(
    hash: &mut H,
    root: &Hash32,
    index: &Index,
    siblings: &[[u8; 32]],
    end: NodeText,
) -> bool
    requires { length siblings.now ≤ MAX_SIBLINGS }
    ensures way { IsTrue result ↔ Way H.digest_of root.now index.now siblings.now end }
    ensures counted { H.digests hash.new ≤ H.digests hash.old + length siblings.now + 1 }
{
    way_is_fold();
    let top = climb(hash, index, siblings, end, 0);
    hash.digest(top.bytes()) == *root
}
