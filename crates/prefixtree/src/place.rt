//! What becomes of a place of a tree when there are changes below it. The place keeps its node if there
//! is no change. If one item or none is there afterwards, a leaf or an empty node is made. Else the
//! place is split by the next bit: an interior node's children go to their sides, and the item of a
//! leaf goes down to the side of its bit. A place keeps no node of another nonce: all are made anew.
ghost use Rattle.std.specs.Prelude.{◌≡◌, ℕ, List, [], ◌∷◌, ◌-◌, ◌<◌, ◌≤◌, ◌==◌, if◌then◌else◌, IfOk};
ghost use Rattle.std.specs.declared.rc.Rc.{Rc};
ghost use Rattle.std.specs.declared.alloc.Global.{Global};
ghost use Rattle.encoding.specs.Bits.{bit, cut};
ghost use Rattle.encoding.specs.Bytes.{Is32Bytes};
ghost use Rattle.prefixtree.specs.Placement.{Item, put_all};
ghost use Rattle.prefixtree.specs.Node.{node_count};
ghost use Rattle.prefixtree.specs.Changes.{made_count};
ghost use Rattle.prefixtree.specs.Built.{contents, IsBuilt};
ghost use Rattle.prefixtree.specs.Under.{IsUnder};
ghost use Rattle.prefixtree.specs.declared.place.Before.TheVariants.{Moved, Nothing};
ghost use Rattle.prefixtree.specs.Growth.{grown_count, parted, standing, Comes, MayGrow};

use crate::Item;
use crate::node::Node;
use encoding::bit;
use std::alloc::{AllocError, Global};
use std::rc::Rc;

/// What stands at a place before the changes.
#[derive(Drop)]
pub(crate) enum Before {
    /// The node that was made there.
    Made(Node),
    /// An item whose leaf stands further up, and no node.
    Moved(Rc<Item>),
    /// No item and no node.
    Nothing,
    /// A node that was made there under another nonce.
    Stale(Node),
}

/// What stands on the side of bit 0 and on that of bit 1 of a place, before the changes.
#[derive(Drop)]
pub(crate) struct Sides {
    pub(crate) zero_side: Before,
    pub(crate) one_side: Before,
}

/// What comes to stand at a place. `S` is what is known of the two sides of an interior node: what stands
/// there before the changes, or nothing where they are places of the row below.
#[derive(Drop)]
pub(crate) enum Outcome<S> {
    /// The node that stands there, since no change comes below it.
    Kept(Node),
    /// An empty node.
    Vacant,
    /// The leaf of an item.
    Single(Rc<Item>),
    /// An interior node over what becomes of its two sides.
    Parted(S),
}

/// What becomes of a place where nothing stands.
fn of_nothing(alloc: Global, level: usize, changes: &[Item]) -> Result<Outcome<Sides>, AllocError>
    ensures { IfOk result (λ outcome. (of : List ℕ → List ℕ) (nonce prefix : List ℕ) → level ≤ 256 → IsUnder prefix level changes.now
        → Comes of nonce prefix level [] changes.now (node_count (256 - level) (put_all [] changes.now)) outcome) }
{
    match changes {
        [] => Ok(Outcome::Vacant),
        [change] => Ok(Outcome::Single(Rc::new(alloc, *change)?)),
        _ => {
            Ok(Outcome::Parted(Sides {
                zero_side: Before::Nothing,
                one_side: Before::Nothing,
            }))
        }
    }
}

/// The sides of a place where this item stands: it goes to the side of its bit at this level.
fn part_item(level: usize, item: &Rc<Item>) -> Result<Outcome<Sides>, AllocError>
    requires { level < 256 }
    ensures { IfOk result (λ outcome. (moved : Rc Item Global) × (moved.value ≡ item.now.value)
        × (outcome ≡ (if bit item.now.value.0 level == 0 then parted (Moved moved) Nothing else parted Nothing (Moved moved)))) }
{
    let moved = Before::Moved(item.clone()?);
    if bit(&item.0, level) {
        Ok(Outcome::Parted(Sides {
            zero_side: Before::Nothing,
            one_side: moved,
        }))
    } else {
        Ok(Outcome::Parted(Sides {
            zero_side: moved,
            one_side: Before::Nothing,
        }))
    }
}

/// What becomes of a place where this item stands.
fn of_item(
    alloc: Global,
    level: usize,
    item: &Rc<Item>,
    changes: &[Item],
) -> Result<Outcome<Sides>, AllocError>
    requires level { level ≤ 256 }
    requires under { (prefix : List ℕ) × IsUnder prefix level changes.now × Is32Bytes item.now.value.0 × (cut item.now.value.0 level ≡ prefix) }
    ensures { IfOk result (λ outcome. (of : List ℕ → List ℕ) (nonce prefix : List ℕ) → IsUnder prefix level changes.now → Is32Bytes item.now.value.0 → cut item.now.value.0 level ≡ prefix
        → Comes of nonce prefix level (item.now.value ∷ []) changes.now (node_count (256 - level) (put_all (item.now.value ∷ []) changes.now)) outcome) }
{
    match changes {
        [] => Ok(Outcome::Single(item.clone()?)),
        [change] => {
            if change.0 == item.0 {
                Ok(Outcome::Single(Rc::new(alloc, *change)?))
            } else {
                part_item(level, item)
            }
        }
        _ => part_item(level, item),
    }
}

/// What becomes of a place that has this node.
fn of_node(
    alloc: Global,
    level: usize,
    node: &Node,
    changes: &[Item],
) -> Result<Outcome<Sides>, AllocError>
    requires level { level ≤ 256 }
    requires under { (of : List ℕ → List ℕ) × (nonce : List ℕ) × (prefix : List ℕ) × IsUnder prefix level changes.now × IsBuilt of nonce prefix level node.now }
    ensures { IfOk result (λ outcome. (of : List ℕ → List ℕ) (nonce prefix : List ℕ) → IsUnder prefix level changes.now → IsBuilt of nonce prefix level node.now
        → Comes of nonce prefix level (contents node.now) changes.now (made_count (256 - level) (contents node.now) changes.now) outcome) }
{
    if changes.is_empty() {
        return Ok(Outcome::Kept(node.share()?));
    }
    match node {
        Node::Empty { .. } => of_nothing(alloc, level, changes),
        Node::Leaf { item, .. } => of_item(alloc, level, item, changes),
        Node::Interior { children, .. } => {
            let zero_side = Before::Made(children.zero_side.share()?);
            let one_side = Before::Made(children.one_side.share()?);
            Ok(Outcome::Parted(Sides {
                zero_side,
                one_side,
            }))
        }
    }
}

/// What becomes of a place that has this node of another nonce: it is made anew.
fn of_stale(
    alloc: Global,
    level: usize,
    node: &Node,
    changes: &[Item],
) -> Result<Outcome<Sides>, AllocError>
    requires level { level ≤ 256 }
    requires under { (of : List ℕ → List ℕ) × (was : List ℕ) × (prefix : List ℕ) × IsUnder prefix level changes.now × IsBuilt of was prefix level node.now }
    ensures { IfOk result (λ outcome. (of : List ℕ → List ℕ) (nonce was prefix : List ℕ) → IsUnder prefix level changes.now → IsBuilt of was prefix level node.now
        → Comes of nonce prefix level (contents node.now) changes.now (node_count (256 - level) (put_all (contents node.now) changes.now)) outcome) }
{
    match node {
        Node::Empty { .. } => of_nothing(alloc, level, changes),
        Node::Leaf { item, .. } => of_item(alloc, level, item, changes),
        Node::Interior { children, .. } => {
            let zero_side = Before::Stale(children.zero_side.share()?);
            let one_side = Before::Stale(children.one_side.share()?);
            Ok(Outcome::Parted(Sides {
                zero_side,
                one_side,
            }))
        }
    }
}

impl Before {
    /// What becomes of a place where this stands.
    pub(crate) fn becomes(
        &self,
        alloc: Global,
        level: usize,
        changes: &[Item],
    ) -> Result<Outcome<Sides>, AllocError>
        requires level { level ≤ 256 }
        requires place { (of : List ℕ → List ℕ) × (nonce : List ℕ) × (prefix : List ℕ) × MayGrow of nonce prefix level self.now changes.now }
        ensures { IfOk result (λ outcome. (of : List ℕ → List ℕ) (nonce prefix : List ℕ) → MayGrow of nonce prefix level self.now changes.now
            → Comes of nonce prefix level (standing self.now) changes.now (grown_count (256 - level) self.now changes.now) outcome) }
    {
        match self {
            Before::Made(node) => of_node(alloc, level, node, changes),
            Before::Moved(item) => of_item(alloc, level, item, changes),
            Before::Nothing => of_nothing(alloc, level, changes),
            Before::Stale(node) => of_stale(alloc, level, node, changes),
        }
    }

    /// The same, and lets go of what stands there: a caller that calls itself then keeps nothing of it.
    pub(crate) fn into_outcome(
        self,
        alloc: Global,
        level: usize,
        changes: &[Item],
    ) -> Result<Outcome<Sides>, AllocError>
        requires level { level ≤ 256 }
        requires place { (of : List ℕ → List ℕ) × (nonce : List ℕ) × (prefix : List ℕ) × MayGrow of nonce prefix level self changes.now }
        ensures { IfOk result (λ outcome. (of : List ℕ → List ℕ) (nonce prefix : List ℕ) → MayGrow of nonce prefix level self changes.now
            → Comes of nonce prefix level (standing self) changes.now (grown_count (256 - level) self changes.now) outcome) }
    {
        self.becomes(alloc, level, changes)
    }
}
