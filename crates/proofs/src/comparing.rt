//! Comparing two replies. If they state two things with one index, two ways lead from one root to two
//! ends. Both are climbed from the ends up, and the last pair of texts that differs is kept, which is the
//! nearest to the root: the texts above it are equal, so the two have one digest. If no texts differ,
//! the ends open two commitment texts with one digest.
ghost use Rattle.std.specs.Prelude.{◌≡◌, ◌≢◌, ◌⊎◌, ◌+◌, ◌*◌, ◌≤◌, ℕ, List, Option, length, IsOkAnd, IsSomeAnd, MatchOption};
ghost use Rattle.encoding.specs.declared.bound_key.BoundKey.{BoundKey};
ghost use Rattle.nodehash.specs.declared.node_text.TheConstants.{INTERIOR_LEN};
ghost use Rattle.prefixtree.specs.declared.path.TheConstants.{MAX_SIBLINGS};
ghost use Rattle.proofs.specs.Accepts.{Accepts, HasIndex};
ghost use Rattle.proofs.specs.Comparisons.{texts_of, Answers, AreOpposed, Compares, HaveOneIndex, IsOneBindingOr};
ghost use Rattle.proofs.specs.Replies.{AreSiblings};
ghost use Rattle.proofs.specs.WayTexts.{way_texts, AreFirstToDiffer};

use crate::{Accepted, Refusal, accept};
use encoding::{Hash32, Index, Name, Text};
use nodehash::{NodeHash, NodeText};
use prefixtree::{climb, joined_text};
use rootchain::Body;
use thiserror::Error;
use vrfiface::VufCheck;

/// What the comparison of two accepted replies finds.
#[derive(Debug, Drop)]
pub enum SameOr {
    /// They are for two names, or under two bodies.
    NotComparable,
    /// They state the same.
    Same,
    /// They state two things and have two indices, so two values were accepted for the name.
    TwoValues,
    /// They state two things, and these are two byte strings with one digest, the first from the first
    /// reply and the second from the second: the first two node texts that differ on the ways from the
    /// root down, or, where none differ, the texts of the two commitments.
    Collision(Text, Text),
}

/// Which of two replies is refused, and why.
#[derive(Clone, Copy, Debug, PartialEq, Eq, Error)]
pub enum RefusedReply {
    /// The first is refused.
    #[error("the first reply is refused: {0}")]
    First(Refusal),
    /// The first is accepted, and the second is refused.
    #[error("the second reply is refused: {0}")]
    Second(Refusal),
}

/// Two texts of nodes, from the first reply and from the second.
type Pair = (NodeText, NodeText);

/// The two texts where they differ, else the pair found below.
fn first_of(first: &NodeText, second: &NodeText, below: Option<Pair>) -> Option<Pair>
    ensures { ((first.now ≡ second.now) × (result ≡ below)) ⊎ ((first.now ≢ second.now) × IsSomeAnd result (λ pair. (pair.0 ≡ first.now) × (pair.1 ≡ second.now))) }
{
    if first.bytes() == second.bytes() {
        below
    } else {
        Some((first.copied(), second.copied()))
    }
}

/// The first two texts, from the root down, at which two ways of one index differ.
fn first_to_differ<H: NodeHash>(
    hash: &mut H,
    index: &Index,
    first_siblings: &[[u8; 32]],
    first_end: NodeText,
    second_siblings: &[[u8; 32]],
    second_end: NodeText,
) -> Option<Pair>
    requires first_siblings { AreSiblings first_siblings.now }
    requires second_siblings { AreSiblings second_siblings.now }
    requires first_end { length first_end ≢ INTERIOR_LEN }
    requires second_end { length second_end ≢ INTERIOR_LEN }
    ensures found { MatchOption result
        (way_texts H.digest_of index.now 0 first_siblings.now first_end ≡ way_texts H.digest_of index.now 0 second_siblings.now second_end)
        (λ pair. AreFirstToDiffer (way_texts H.digest_of index.now 0 first_siblings.now first_end) (way_texts H.digest_of index.now 0 second_siblings.now second_end) pair.0 pair.1) }
    ensures counted { H.digests hash.new ≤ H.digests hash.old + length first_siblings.now + length second_siblings.now }
{
    let mut k = first_siblings.len().min(second_siblings.len());
    let mut first = climb(hash, index, first_siblings, first_end, k);
    let mut second = climb(hash, index, second_siblings, second_end, k);
    let mut found = first_of(&first, &second, None);
    while k > 0 {
        k -= 1;
        let below = hash.digest(first.bytes());
        first = joined_text(index, k, &below, &Hash32::new(first_siblings[k]));
        let below = hash.digest(second.bytes());
        second = joined_text(index, k, &below, &Hash32::new(second_siblings[k]));
        found = first_of(&first, &second, found);
    }
    found
}

/// The first two node texts, from the root down, at which the ways of two replies differ.
fn first_nodes<H: NodeHash, V: VufCheck>(
    hash: &mut H,
    first: &Accepted<'_, H, V>,
    second: &Accepted<'_, H, V>,
) -> Option<Pair>
    requires { HaveOneIndex H.digest_of first.now second.now }
    ensures found { MatchOption result
        (texts_of H.digest_of first.now ≡ texts_of H.digest_of second.now)
        (λ pair. AreFirstToDiffer (texts_of H.digest_of first.now) (texts_of H.digest_of second.now) pair.0 pair.1) }
    ensures counted { H.digests hash.new ≤ H.digests hash.old + length first.now.reply.siblings + length second.now.reply.siblings + 2 }
{
    let first_end = first.end_text(hash);
    let second_end = second.end_text(hash);
    first_to_differ(
        hash,
        &first.index(),
        first.hashes(),
        first_end,
        second.hashes(),
        second_end,
    )
}

/// The collision of two replies that state two things with one index.
fn collision<H: NodeHash, V: VufCheck>(
    hash: &mut H,
    first: &Accepted<'_, H, V>,
    second: &Accepted<'_, H, V>,
) -> SameOr
    requires { AreOpposed H.digest_of V.accepted first.now second.now }
    ensures answers { Answers H.digest_of V.accepted first.now second.now result }
    ensures counted { H.digests hash.new ≤ H.digests hash.old + length first.now.reply.siblings + length second.now.reply.siblings + 2 }
{
    if let Some((x, y)) = first_nodes(hash, first, second) {
        return SameOr::Collision(x.copied(), y.copied());
    }
    // No node texts differ, so both ends open a commitment.
    let Some(x) = first.opened_text() else {
        unreachable!()
    };
    let Some(y) = second.opened_text() else {
        unreachable!()
    };
    SameOr::Collision(x, y)
}

/// Compares two accepted replies. If they state two things with one index, finds two byte strings with
/// one digest. Takes at most two digests, and one for each sibling of both.
pub fn same_or_collision<H: NodeHash, V: VufCheck>(
    hash: &mut H,
    first: &Accepted<'_, H, V>,
    second: &Accepted<'_, H, V>,
) -> SameOr
    ensures answers { Answers H.digest_of V.accepted first.now second.now result }
    ensures counted { H.digests hash.new ≤ H.digests hash.old + length first.now.reply.siblings + length second.now.reply.siblings + 2 }
{
    if first.body() != second.body() {
        return SameOr::NotComparable;
    }
    if first.name().bytes() != second.name().bytes() {
        return SameOr::NotComparable;
    }
    if first.end().statement() == second.end().statement() {
        return SameOr::Same;
    }
    if first.index() != second.index() {
        return SameOr::TwoValues;
    }
    collision(hash, first, second)
}

/// Reads, checks and compares two replies for one name under one body of a signed root, whoever made
/// them. Takes at most 1,032 digests.
///
/// # Errors
///
/// Where a reply is refused, the refusal of the first such, from `ReplyView::read` or `check`.
pub fn compare_replies<H: NodeHash, V: VufCheck>(
    hash: &mut H,
    vuf: &V,
    body: &Body,
    name: &Name,
    first: &[u8],
    second: &[u8],
) -> Result<SameOr, RefusedReply>
    ensures exact { Compares H.digest_of V.accepted body.now name.now first.now second.now result }
    // Two replies accepted under one body with one index state the same binding, or the answer is two
    // different byte strings with one digest.
    ensures sound { (statement other : Option BoundKey) (index : List ℕ)
        → Accepts H.digest_of V.accepted body.now name.now first.now statement → Accepts H.digest_of V.accepted body.now name.now second.now other
        → HasIndex H.digest_of first.now index → HasIndex H.digest_of second.now index
        → IsOkAnd result (IsOneBindingOr H.digest_of statement other) }
    ensures counted { H.digests hash.new ≤ H.digests hash.old + 4 * (MAX_SIBLINGS + 2) }
{
    // The prover does not cover `?` in a function with clauses whose result holds a view.
    let first = match accept(hash, vuf, body, name, first) {
        Ok(first) => first,
        Err(refusal) => return Err(RefusedReply::First(refusal)),
    };
    let second = match accept(hash, vuf, body, name, second) {
        Ok(second) => second,
        Err(refusal) => return Err(RefusedReply::Second(refusal)),
    };
    Ok(same_or_collision(hash, &first, &second))
}
