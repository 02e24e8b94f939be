//! The root of items, without the nodes of a tree. A place below which more than one item stands is a span of
//! the items. The spans of one level are a row: their sides with at most one item are hashed together, the others
//! are the row below, and once that has its hashes, the nodes over both sides are hashed together. A row begins at
//! a place with few items, so that rows stay short. Above it the hash of a place is computed from those of its two
//! sides.
ghost use Rattle.std.specs.Prelude.{◌≡◌, ℕ, List, [], ◌∷◌, ◌++◌, ◌+◌, ◌-◌, ◌<◌, ◌≤◌, length, map, drop, IfOk, OnOk};
ghost use Rattle.nodehash.specs.Digests.{after_digests};
ghost use Rattle.prefixtree.specs.Placement.{IsPlacement};
ghost use Rattle.prefixtree.specs.Node.{node, node_count, root_of};
ghost use Rattle.prefixtree.specs.Spans.{counts_of, few_count, few_of, few_text, few_texts, joined, many_count, many_of, many_site, many_sites, merged, part, picked, sides_of, site_count, site_hashes, site_of, AreSpans, IsSpan};
ghost use Rattle.prefixtree.specs.Under.{IsUnder};

use crate::Item;
use crate::build::halves;
use crate::row::digests_of_texts;
use encoding::{Hash32, Index, with_one};
use nodehash::{NodeHash, NodeText, empty_text, interior_text, leaf_text};
use std::alloc::{AllocError, Global};

/// The most items below a place whose hash is computed row by row.
const MOST_IN_ROWS: usize = 256;

/// A place below which more than one item stands: its prefix, where its items begin among all, and how many stand
/// on the side of bit 0 and on that of bit 1.
#[derive(Drop)]
pub(crate) struct Span {
    pub(crate) prefix: Index,
    pub(crate) start: usize,
    pub(crate) zeros: usize,
    pub(crate) ones: usize,
}

/// So many items, from `start` on.
fn part(items: &[Item], start: usize, count: usize) -> &[Item]
    requires { start + count ≤ length items.now }
    ensures { result.now ≡ part items.entry.now start count }
{
    items.split_at(start).1.split_at(count).0
}

/// The span of so many items, from `start` on.
fn span_of(items: &[Item], level: usize, prefix: &Index, start: usize, count: usize) -> Span
    requires level { level ≤ 256 }
    requires within { start + count ≤ length items.now }
    requires many { 1 < count }
    requires under { IsUnder prefix.now level (part items.now start count) }
    ensures span { IsSpan level items.now result }
    ensures site { site_of items.now result ≡ (prefix.now, part items.now start count) }
{
    let (zeros, ones) = halves(part(items, start, count), level);
    Span {
        prefix: *prefix,
        start,
        zeros: zeros.len(),
        ones: ones.len(),
    }
}

/// The text that is hashed at a place with at most one item.
fn few_text(nonce: &Hash32, level: usize, prefix: &Index, items: &[Item]) -> NodeText
    requires level { level ≤ 256 }
    requires few { length items.now ≤ 1 }
    ensures { few_text nonce.now level prefix.now items.now ≡ result ∷ [] }
{
    if items.is_empty() {
        return empty_text(nonce, prefix, level as u32);
    }
    let (index, commitment) = &items[0];
    leaf_text(nonce, index, level as u32, commitment)
}

/// The sides of a row: the texts of those with at most one item, and the spans of the others.
#[derive(Drop)]
struct Sides {
    few: Vec<NodeText>,
    many: Vec<Span>,
}

/// Appends the text of a place if it has at most one item, else its span.
fn push_side(
    sides: &mut Sides,
    nonce: &Hash32,
    items: &[Item],
    level: usize,
    prefix: &Index,
    start: usize,
    count: usize,
) -> Result<(), AllocError>
    requires level { level ≤ 256 }
    requires within { start + count ≤ length items.now }
    requires under { IsUnder prefix.now level (part items.now start count) }
    requires spans { AreSpans level items.now sides.old.many.items }
    ensures few { IfOk result (λ _. sides.new.few.items ≡ sides.old.few.items ++ few_text nonce.now level prefix.now (part items.now start count)) }
    ensures many { IfOk result (λ _. map (site_of items.now) sides.new.many.items ≡ map (site_of items.now) sides.old.many.items ++ many_site prefix.now (part items.now start count)) }
    ensures spans { IfOk result (λ _. AreSpans level items.now sides.new.many.items) }
{
    if count > 1 {
        sides
            .many
            .push(span_of(items, level, prefix, start, count))?;
    } else {
        sides
            .few
            .push(few_text(nonce, level, prefix, part(items, start, count)))?;
    }
    Ok(())
}

/// The sides of a row.
fn sides_of_row(
    alloc: Global,
    nonce: &Hash32,
    items: &[Item],
    level: usize,
    spans: &[Span],
) -> Result<Sides, AllocError>
    requires level { level < 256 }
    requires spans { AreSpans level items.now spans.now }
    ensures few { IfOk result (λ sides. sides.few.items ≡ few_texts nonce.now (level + 1) (sides_of level items.now spans.now)) }
    ensures many { IfOk result (λ sides. map (site_of items.now) sides.many.items ≡ many_sites (sides_of level items.now spans.now)) }
    ensures spans { IfOk result (λ sides. AreSpans (level + 1) items.now sides.many.items) }
{
    let mut sides = Sides {
        few: Vec::with_capacity(alloc, spans.len())?,
        many: Vec::with_capacity(alloc, spans.len())?,
    };
    for span in spans {
        let (prefix, middle) = (&span.prefix, span.start + span.zeros);
        push_side(
            &mut sides,
            nonce,
            items,
            level + 1,
            prefix,
            span.start,
            span.zeros,
        )?;
        let one_prefix = with_one(prefix, level);
        push_side(
            &mut sides,
            nonce,
            items,
            level + 1,
            &one_prefix,
            middle,
            span.ones,
        )?;
    }
    Ok(sides)
}

/// The hashes of the sides of a row that have at most one item, and the spans of the others.
fn hash_few<H: NodeHash>(
    alloc: Global,
    hash: &mut H,
    nonce: &Hash32,
    items: &[Item],
    level: usize,
    spans: &[Span],
) -> Result<(Vec<Hash32>, Vec<Span>), AllocError>
    requires level { level < 256 }
    requires spans { AreSpans level items.now spans.now }
    ensures few { IfOk result (λ sides. sides.0.items ≡ map H.digest_of (few_texts nonce.now (level + 1) (sides_of level items.now spans.now))) }
    ensures many { IfOk result (λ sides. map (site_of items.now) sides.1.items ≡ many_sites (sides_of level items.now spans.now)) }
    ensures spans { IfOk result (λ sides. AreSpans (level + 1) items.now sides.1.items) }
    ensures work { H.digests hash.new ≤ H.digests hash.old + length (few_texts nonce.now (level + 1) (sides_of level items.now spans.now)) }
    ensures exact { OnOk result (H.digests hash.new ≡ after_digests (length (few_texts nonce.now (level + 1) (sides_of level items.now spans.now))) (H.digests hash.old)) }
{
    let sides = sides_of_row(alloc, nonce, items, level, spans)?;
    Ok((digests_of_texts(alloc, hash, &sides.few)?, sides.many))
}

/// 1 for a place with at most one item, else 0.
fn few_of(count: usize) -> usize
    ensures { result ≡ few_of count }
{
    if count > 1 { 0 } else { 1 }
}

/// 1 for a place with more than one item, else 0.
fn many_of(count: usize) -> usize
    ensures { result ≡ many_of count }
{
    if count > 1 { 1 } else { 0 }
}

/// The hash of a place with so many items, where so many of either kind are used.
fn pick(count: usize, few: &[Hash32], few_used: usize, many: &[Hash32], many_used: usize) -> Hash32
    requires few { few_used + few_of count ≤ length few.now }
    requires many { many_used + many_of count ≤ length many.now }
    ensures { result ≡ picked count (drop few_used few.now) (drop many_used many.now) }
{
    if count > 1 {
        many[many_used]
    } else {
        few[few_used]
    }
}

/// The texts of the nodes of a row, over the hashes of their sides.
fn joined_texts(
    alloc: Global,
    spans: &[Span],
    few: &[Hash32],
    many: &[Hash32],
) -> Result<Vec<NodeText>, AllocError>
    requires few { length few.now ≡ few_count (counts_of spans.now) }
    requires many { length many.now ≡ many_count (counts_of spans.now) }
    ensures { IfOk result (λ texts. texts.items ≡ joined (merged (counts_of spans.now) few.now many.now)) }
{
    let mut texts = Vec::with_capacity(alloc, spans.len())?;
    let mut few_used = 0;
    let mut many_used = 0;
    for span in spans {
        let zero_side = pick(span.zeros, few, few_used, many, many_used);
        few_used += few_of(span.zeros);
        many_used += many_of(span.zeros);
        let one_side = pick(span.ones, few, few_used, many, many_used);
        few_used += few_of(span.ones);
        many_used += many_of(span.ones);
        texts.push(interior_text(&zero_side, &one_side))?;
    }
    Ok(texts)
}

/// The hashes of a row, over those of its sides.
fn join_row<H: NodeHash>(
    alloc: Global,
    hash: &mut H,
    spans: &[Span],
    few: &[Hash32],
    many: &[Hash32],
) -> Result<Vec<Hash32>, AllocError>
    requires few { length few.now ≡ few_count (counts_of spans.now) }
    requires many { length many.now ≡ many_count (counts_of spans.now) }
    ensures hashes { IfOk result (λ hashes. hashes.items ≡ map H.digest_of (joined (merged (counts_of spans.now) few.now many.now))) }
    ensures work { H.digests hash.new ≤ H.digests hash.old + length spans.now }
    ensures exact { OnOk result (H.digests hash.new ≡ after_digests (length spans.now) (H.digests hash.old)) }
{
    let texts = joined_texts(alloc, spans, few, many)?;
    digests_of_texts(alloc, hash, &texts)
}

/// The hashes of a row of spans.
fn hash_row<H: NodeHash>(
    alloc: Global,
    hash: &mut H,
    nonce: &Hash32,
    items: &[Item],
    level: usize,
    spans: &[Span],
) -> Result<Vec<Hash32>, AllocError>
    requires level { level < 256 }
    requires spans { AreSpans level items.now spans.now }
    ensures hashes { IfOk result (λ hashes. hashes.items ≡ site_hashes H.digest_of nonce.now level (map (site_of items.now) spans.now)) }
    ensures work { H.digests hash.new ≤ H.digests hash.old + site_count level (map (site_of items.now) spans.now) }
    ensures exact { OnOk result (H.digests hash.new ≡ after_digests (site_count level (map (site_of items.now) spans.now)) (H.digests hash.old)) }
{
    let (few, many) = hash_few(alloc, hash, nonce, items, level, spans)?;
    if many.is_empty() {
        return join_row(alloc, hash, spans, &few, &[]);
    }
    let below = hash_row(alloc, hash, nonce, items, level + 1, &many)?;
    join_row(alloc, hash, spans, &few, &below)
}

/// The hash of the node at a prefix with these items below it, of which there is more than one.
fn hash_in_rows<H: NodeHash>(
    alloc: Global,
    hash: &mut H,
    nonce: &Hash32,
    items: &[Item],
    level: usize,
    prefix: &Index,
) -> Result<Hash32, AllocError>
    requires level { level < 256 }
    requires many { 1 < length items.now }
    requires under { IsUnder prefix.now level items.now }
    ensures node { IfOk result (λ root. root ≡ node H.digest_of nonce.now prefix.now (256 - level) items.now) }
    ensures work { H.digests hash.new ≤ H.digests hash.old + node_count (256 - level) items.now }
    ensures exact { OnOk result (H.digests hash.new ≡ after_digests (node_count (256 - level) items.now) (H.digests hash.old)) }
{
    let span = span_of(items, level, prefix, 0, items.len());
    let hashes = hash_row(alloc, hash, nonce, items, level, &[span])?;
    Ok(hashes[0])
}

/// The hash of the node at a prefix with these items below it.
pub(crate) fn hash_at<H: NodeHash>(
    alloc: Global,
    hash: &mut H,
    nonce: &Hash32,
    items: &[Item],
    level: usize,
    prefix: &Index,
) -> Result<Hash32, AllocError>
    requires level { level ≤ 256 }
    requires under { IsUnder prefix.now level items.now }
    ensures node { IfOk result (λ root. root ≡ node H.digest_of nonce.now prefix.now (256 - level) items.now) }
    ensures work { H.digests hash.new ≤ H.digests hash.old + node_count (256 - level) items.now }
    ensures exact { OnOk result (H.digests hash.new ≡ after_digests (node_count (256 - level) items.now) (H.digests hash.old)) }
{
    if items.len() <= 1 {
        return Ok(hash.digest(few_text(nonce, level, prefix, items).bytes()));
    }
    if items.len() <= MOST_IN_ROWS {
        return hash_in_rows(alloc, hash, nonce, items, level, prefix);
    }
    let (zeros, ones) = halves(items, level);
    let zero_side = hash_at(alloc, hash, nonce, zeros, level + 1, prefix)?;
    let one_side = hash_at(
        alloc,
        hash,
        nonce,
        ones,
        level + 1,
        &with_one(prefix, level),
    )?;
    Ok(hash.digest(interior_text(&zero_side, &one_side).bytes()))
}

/// The root of the tree of these items, without the tree. Takes one digest for each of its nodes, and memory for
/// some 500 of them at a time, or 3 MB at most, where indices part early into pairs that differ in the last bit alone.
///
/// The indices must ascend; [`placed`](crate::placed) tests that they differ, and sorts them.
///
/// # Errors
///
/// `AllocError` where memory runs out.
pub fn root_of_items<H: NodeHash>(
    alloc: Global,
    hash: &mut H,
    nonce: &Hash32,
    items: &[Item],
) -> Result<Hash32, AllocError>
    requires { IsPlacement items.now }
    ensures root { IfOk result (λ root. root ≡ root_of H.digest_of nonce.now items.now) }
    ensures work { H.digests hash.new ≤ H.digests hash.old + node_count 256 items.now }
    ensures exact { OnOk result (H.digests hash.new ≡ after_digests (node_count 256 items.now) (H.digests hash.old)) }
{
    hash_at(alloc, hash, nonce, items, 0, &Index::new([0; 32]))
}
