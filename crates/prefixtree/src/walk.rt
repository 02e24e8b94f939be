//! The walk down a tree by the bits of an index. It keeps the node where it stands; each step down
//! passes a sibling, and it ends at the first node without children.
ghost use Rattle.std.specs.Prelude.{◌≡◌, replicate};
ghost use Rattle.prefixtree.specs.Built.{contents, IsBuilt};
ghost use Rattle.prefixtree.specs.Paths.{agreeing, end_of, EndsAt};
ghost use Rattle.prefixtree.specs.Walks.{StepsDown};

use crate::node::{Node, sides};
use crate::{End, Tree};
use encoding::{Hash32, Index};
use nodehash::NodeHash;
use std::marker::Model;

/// A walk down a tree, on the way of an index. The tree itself is there for the contracts alone.
#[derive(Drop)]
pub(crate) struct Walk<'a, H: NodeHash> {
    tree: &'a Tree<H>,
    index: &'a Index,
    node: &'a Node,
    level: usize,
}

impl<'a, H: NodeHash> Model for Walk<'a, H> {
    ghost use Rattle.prefixtree.specs.Walks.{Waypoint};

    ghost Value = { Waypoint };

    ghost use Rattle.prefixtree.specs.Walks.{IsOnWay};

    ghost view = { λ walk. record { tree = walk.tree.now; index = walk.index.now; level = walk.level } };

    ghost invariant = { λ walk. IsOnWay H.digest_of walk.tree.now walk.index.now walk.level walk.node.now };
}

impl<'a, H: NodeHash> Walk<'a, H> {
    /// The walk that stands at the root of a tree.
    pub(crate) fn new(tree: &'a Tree<H>, root: &'a Node, index: &'a Index) -> Self
        requires built { IsBuilt H.digest_of tree.now.nonce (replicate 32 0) 0 root.now }
        requires items { contents root.now ≡ tree.now.items }
        ensures { result ≡ record { tree = tree.entry.now; index = index.entry.now; level = 0 } }
    {
        // The proof needs the length of an index, which its accessor tells.
        prove!(index.bytes().len() == 32);
        Walk {
            tree,
            index,
            node: root,
            level: 0,
        }
    }

    /// The level where the walk stands.
    pub(crate) fn level(&self) -> usize
        ensures { result ≡ self.now.level }
    {
        self.level
    }

    /// Goes down one level and returns the hash of the node on the other side, or `None` at the end.
    #[inline]
    pub(crate) fn step(&mut self) -> Option<Hash32>
        ensures { StepsDown H.digest_of self.old result self.new }
    {
        let Node::Interior { children, .. } = self.node else {
            return None;
        };
        let (below, beside) = sides(self.index, self.level, children);
        self.node = below;
        self.level += 1;
        Some(beside.hash())
    }

    /// What stands at the end of the walk.
    pub(crate) fn end(&self) -> End
        ensures { EndsAt self.now.index self.now.tree.items self.now.level
            → result ≡ end_of self.now.index (agreeing self.now.index self.now.level self.now.tree.items) }
    {
        match self.node {
            Node::Leaf { item, .. } => {
                if item.0 == *self.index {
                    End::Present(item.1)
                } else {
                    End::Other(item.0, item.1)
                }
            }
            _ => End::Empty,
        }
    }
}
