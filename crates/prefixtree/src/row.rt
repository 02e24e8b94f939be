//! The nodes of many places, made one level at a time, so that the digests of a level can be taken
//! together. On the way down each row of places gives what is made at each and the row of their
//! sides. On the way up the nodes of a row are made over those of the row below.
ghost use Rattle.std.specs.Prelude.{◌≡◌, ℕ, List, [], ◌∷◌, ◌++◌, ◌+◌, ◌<◌, ◌≤◌, length, map, drop, IfOk, OnOk};
ghost use Rattle.std.specs.Vec.Iter.{into_iter_items};
ghost use Rattle.nodehash.specs.Digests.{after_digests};
ghost use Rattle.prefixtree.specs.Built.{kept};
ghost use Rattle.prefixtree.specs.Growth.{IsGrowth, MayGrow};
ghost use Rattle.prefixtree.specs.declared.row.Place.{Place};
ghost use Rattle.prefixtree.specs.declared.node.Node.{Node};
ghost use Rattle.prefixtree.specs.Rows.{changes_of, digests_of, row_count, row_digests, row_sides, row_texts, sides_of, place_texts, AreBuilt, AreMade, ArePlaces, AreSplit, IsRowPlace, Outcomes};

use crate::Item;
use crate::build::halves;
use crate::node::{Children, Node};
use crate::place::{Before, Outcome};
use encoding::{Hash32, Index, with_one};
use nodehash::{NodeHash, NodeText, empty_text, interior_text, leaf_text};
use std::alloc::{AllocError, Global};
use std::rc::Rc;
use std::vec::IntoIter;

/// A place of a row: its prefix, what stands there, and where the changes below it stand among all.
#[derive(Drop)]
pub(crate) struct Place {
    pub(crate) prefix: Index,
    pub(crate) before: Before,
    pub(crate) start: usize,
    pub(crate) end: usize,
}

/// The changes below a place.
fn part<'a>(changes: &'a [Item], place: &Place) -> &'a [Item]
    requires order { place.now.start ≤ place.now.end }
    requires within { place.now.end ≤ length changes.now }
    ensures { result.now ≡ changes_of changes.entry.now place.now }
{
    &changes[place.start..place.end]
}

/// What is made at a place. Appends the places of its sides, where it has them.
fn split_place(
    alloc: Global,
    level: usize,
    changes: &[Item],
    place: &Place,
    lower: &mut Vec<Place>,
) -> Result<Outcome<()>, AllocError>
    requires level { level ≤ 256 }
    requires place { (of : List ℕ → List ℕ) × (nonce : List ℕ) × IsRowPlace of nonce changes.now level place.now }
    ensures { IfOk result (λ outcome. (below : List Place) × (lower.new.items ≡ lower.old.items ++ below)
        × ((of : List ℕ → List ℕ) (nonce : List ℕ) (places : List Place) (outcomes : Outcomes) (rest : List Place)
        → IsRowPlace of nonce changes.now level place.now → AreSplit of nonce changes.now level places outcomes rest
        → AreSplit of nonce changes.now level (place.now ∷ places) (outcome ∷ outcomes) (below ++ rest))) }
{
    let here = part(changes, place);
    match place.before.becomes(alloc, level, here)? {
        Outcome::Kept(node) => Ok(Outcome::Kept(node)),
        Outcome::Vacant => Ok(Outcome::Vacant),
        Outcome::Single(item) => Ok(Outcome::Single(item)),
        Outcome::Parted(sides) => {
            let middle = place.start + halves(here, level).0.len();
            lower.push(Place {
                prefix: place.prefix,
                before: sides.zero_side,
                start: place.start,
                end: middle,
            })?;
            lower.push(Place {
                prefix: with_one(&place.prefix, level),
                before: sides.one_side,
                start: middle,
                end: place.end,
            })?;
            Ok(Outcome::Parted(()))
        }
    }
}

/// What is made at each place of a row, and the places of their sides, in order.
fn split_row(
    alloc: Global,
    level: usize,
    changes: &[Item],
    places: &[Place],
) -> Result<(Vec<Outcome<()>>, Vec<Place>), AllocError>
    requires level { level ≤ 256 }
    requires places { (of : List ℕ → List ℕ) × (nonce : List ℕ) × ArePlaces of nonce changes.now level places.now }
    ensures { IfOk result (λ row. (of : List ℕ → List ℕ) (nonce : List ℕ) → ArePlaces of nonce changes.now level places.now
        → AreSplit of nonce changes.now level places.now row.0.items row.1.items) }
{
    let mut outcomes = Vec::with_capacity(alloc, places.len())?;
    let mut lower = Vec::with_capacity(alloc, places.len())?;
    for place in places {
        let outcome = split_place(alloc, level, changes, place, &mut lower)?;
        outcomes.push(outcome)?;
    }
    Ok((outcomes, lower))
}

/// How many nodes of the row below are used where this is made.
fn sides_of(outcome: &Outcome<()>) -> usize
    ensures { result ≡ sides_of outcome.now }
{
    match outcome {
        Outcome::Parted(()) => 2,
        _ => 0,
    }
}

/// How many digests are used where this is made.
fn digests_of(outcome: &Outcome<()>) -> usize
    ensures { result ≡ digests_of outcome.now }
{
    match outcome {
        Outcome::Kept(_) => 0,
        _ => 1,
    }
}

/// Appends the text that is hashed where this is made, if any. Its children are the nodes of the row below
/// from `below` on.
fn push_text(
    nonce: &Hash32,
    level: usize,
    prefix: &Index,
    outcome: &Outcome<()>,
    lower: &[Node],
    below: usize,
    texts: &mut Vec<NodeText>,
) -> Result<(), AllocError>
    requires level { level ≤ 256 }
    requires fits { below + sides_of outcome.now ≤ length lower.now }
    ensures { OnOk result (texts.new.items ≡ texts.old.items ++ place_texts nonce.now level prefix.now outcome.now (drop below (map kept lower.now))) }
{
    match outcome {
        Outcome::Kept(_) => Ok(()),
        Outcome::Vacant => Ok(texts.push(empty_text(nonce, prefix, level as u32))?),
        Outcome::Single(item) => Ok(texts.push(leaf_text(nonce, &item.0, level as u32, &item.1))?),
        Outcome::Parted(()) => {
            let text = interior_text(&lower[below].hash(), &lower[below + 1].hash());
            Ok(texts.push(text)?)
        }
    }
}

/// The texts that are hashed for a row, over the nodes of the row below.
fn texts_of_row(
    alloc: Global,
    nonce: &Hash32,
    level: usize,
    places: &[Place],
    outcomes: &[Outcome<()>],
    lower: &[Node],
) -> Result<Vec<NodeText>, AllocError>
    requires level { level ≤ 256 }
    requires places { length places.now ≡ length outcomes.now }
    requires lower { length lower.now ≡ row_sides outcomes.now }
    ensures { IfOk result (λ texts. texts.items ≡ row_texts nonce.now level places.now outcomes.now (map kept lower.now)) }
{
    let mut texts = Vec::with_capacity(alloc, outcomes.len())?;
    let mut below = 0;
    for (place, outcome) in places.iter().zip(outcomes) {
        push_text(
            nonce,
            level,
            &place.prefix,
            outcome,
            lower,
            below,
            &mut texts,
        )?;
        below += sides_of(outcome);
    }
    Ok(texts)
}

/// The node at a place, from the digests from `used` on and the next nodes of the row below.
fn node_at(
    alloc: Global,
    outcome: Outcome<()>,
    digests: &[Hash32],
    used: usize,
    lower: &mut IntoIter<Node>,
) -> Result<Node, AllocError>
    requires digests { used + digests_of outcome ≤ length digests.now }
    requires lower { sides_of outcome ≤ length (into_iter_items lower.old) }
    ensures made { IfOk result (λ node. (outcomes : Outcomes) (nodes : List Node)
        → AreMade outcomes (drop (used + digests_of outcome) digests.now) (drop (sides_of outcome) (into_iter_items lower.old)) nodes
        → AreMade (outcome ∷ outcomes) (drop used digests.now) (into_iter_items lower.old) (node ∷ nodes)) }
    ensures rest { OnOk result (into_iter_items lower.new ≡ drop (sides_of outcome) (into_iter_items lower.old)) }
{
    match outcome {
        Outcome::Kept(node) => Ok(node),
        Outcome::Vacant => Ok(Node::Empty {
            hash: digests[used],
        }),
        Outcome::Single(item) => Ok(Node::Leaf {
            hash: digests[used],
            item,
        }),
        Outcome::Parted(()) => {
            let Some(zero_side) = lower.next() else {
                unreachable!()
            };
            let Some(one_side) = lower.next() else {
                unreachable!()
            };
            let hash = digests[used];
            let children = Rc::new(
                alloc,
                Children {
                    zero_side,
                    one_side,
                },
            )?;
            Ok(Node::Interior { hash, children })
        }
    }
}

/// The nodes of a row, from their digests and the nodes of the row below.
fn join_row(
    alloc: Global,
    outcomes: Vec<Outcome<()>>,
    digests: &[Hash32],
    lower: Vec<Node>,
) -> Result<Vec<Node>, AllocError>
    requires digests { length digests.now ≡ row_digests outcomes.items }
    requires lower { length lower.items ≡ row_sides outcomes.items }
    ensures { IfOk result (λ nodes. AreMade outcomes.items digests.now lower.items nodes.items) }
{
    let mut nodes = Vec::with_capacity(alloc, outcomes.len())?;
    let mut below = lower.into_iter();
    let mut used = 0;
    for outcome in outcomes {
        let here = digests_of(&outcome);
        nodes.push(node_at(alloc, outcome, digests, used, &mut below)?)?;
        used += here;
    }
    Ok(nodes)
}

/// The digests of these texts, in order.
pub(crate) fn digests_of_texts<H: NodeHash>(
    alloc: Global,
    hash: &mut H,
    texts: &[NodeText],
) -> Result<Vec<Hash32>, AllocError>
    ensures digests { IfOk result (λ digests. digests.items ≡ map H.digest_of texts.now) }
    ensures work { H.digests hash.new ≤ H.digests hash.old + length texts.now }
    ensures exact { OnOk result (H.digests hash.new ≡ after_digests (length texts.now) (H.digests hash.old)) }
{
    let mut digests = vec![in alloc; Hash32::default(); texts.len()]?;
    hash.digest_all(texts, &mut digests);
    Ok(digests)
}

/// The nodes of a row, over those of the row below. Takes one digest for each that is made.
fn make_row<H: NodeHash>(
    alloc: Global,
    hash: &mut H,
    nonce: &Hash32,
    level: usize,
    places: &[Place],
    outcomes: Vec<Outcome<()>>,
    lower: Vec<Node>,
) -> Result<Vec<Node>, AllocError>
    requires level { level ≤ 256 }
    requires places { length places.now ≡ length outcomes.items }
    requires lower { length lower.items ≡ row_sides outcomes.items }
    ensures made { IfOk result (λ nodes. AreMade outcomes.items (map H.digest_of (row_texts nonce.now level places.now outcomes.items (map kept lower.items))) lower.items nodes.items) }
    ensures work { H.digests hash.new ≤ H.digests hash.old + row_digests outcomes.items }
    ensures exact { OnOk result (H.digests hash.new ≡ after_digests (row_digests outcomes.items) (H.digests hash.old)) }
{
    let texts = texts_of_row(alloc, nonce, level, places, &outcomes, &lower)?;
    let digests = digests_of_texts(alloc, hash, &texts)?;
    join_row(alloc, outcomes, &digests, lower)
}

/// The nodes of a row of places. Takes one digest for each node that is made at or below them.
fn grow_row<H: NodeHash>(
    alloc: Global,
    hash: &mut H,
    nonce: &Hash32,
    level: usize,
    changes: &[Item],
    places: &[Place],
) -> Result<Vec<Node>, AllocError>
    requires level { level ≤ 256 }
    requires places { ArePlaces H.digest_of nonce.now changes.now level places.now }
    ensures built { IfOk result (λ nodes. AreBuilt H.digest_of nonce.now changes.now level places.now nodes.items) }
    ensures work { H.digests hash.new ≤ H.digests hash.old + row_count level changes.now places.now }
    ensures exact { OnOk result (H.digests hash.new ≡ after_digests (row_count level changes.now places.now) (H.digests hash.old)) }
{
    let (outcomes, lower) = split_row(alloc, level, changes, places)?;
    if lower.is_empty() {
        return make_row(alloc, hash, nonce, level, places, outcomes, Vec::new(alloc));
    }
    let below = grow_row(alloc, hash, nonce, level + 1, changes, &lower)?;
    make_row(alloc, hash, nonce, level, places, outcomes, below)
}

/// The node at the prefix of `level` bits with these changes put in, made level by level.
pub(crate) fn grow_together<H: NodeHash>(
    alloc: Global,
    hash: &mut H,
    nonce: &Hash32,
    prefix: &Index,
    level: usize,
    before: Before,
    changes: &[Item],
) -> Result<Node, AllocError>
    requires level { level ≤ 256 }
    requires place { MayGrow H.digest_of nonce.now prefix.now level before changes.now }
    ensures { IsGrowth H.digest_of nonce.now prefix.now level before changes.now result (H.digests hash.old) (H.digests hash.new) }
{
    let place = Place {
        prefix: *prefix,
        before,
        start: 0,
        end: changes.len(),
    };
    let mut nodes = grow_row(alloc, hash, nonce, level, changes, &[place])?;
    let Some(node) = nodes.pop() else {
        unreachable!()
    };
    Ok(node)
}
