//! Two chains of one key, compared from the top down over the epochs that both have. The last body that
//! both have decides what is returned: below it, two bodies of one hash, a collision; above it, two roots
//! that are evidence. Without an epoch that both have, the lower head and the upper first root decide.
ghost use Rattle.std.specs.Prelude.{◌≡◌, ◌≢◌, ◌+◌, ◌≤◌, ◌<◌, ◌⊎◌, ◌↔◌, ℕ, IfSome, IfNone, All, length};
ghost use Rattle.rootchain.specs.Bodies.{body_bytes, IsSized};
ghost use Rattle.rootchain.specs.Chains.{Ascend, IsChain, IsHead};
ghost use Rattle.rootchain.specs.Comparisons.{told_by_place, AreAlikeAt, AreOneAt, ChainsAgree, CollisionHolds, ComparedHolds, EvidenceIs, IsCollided, IsCommon, IsCompared, IsComparedWithin, IsHashNeeded, IsOfBoth};
ghost use Rattle.rootchain.specs.Places.{IsFirst, IsPlaceAbove};
ghost use Rattle.rootchain.specs.SignedRoots.{IsSignedRoot};
ghost use Rattle.rootchain.specs.Walks.{AreApartPlaces, AreLastPlaces, IsCleared, IsDivergence, IsRun};
ghost use Rattle.rootchain.specs.declared.chain.placing.Place.{Place};
ghost use Rattle.rootchain.specs.declared.compare.Compare.TheVariants.{Equal};

use super::Chain;
use super::next_root::not_after;
use super::placing::{not_before, place_above};
use crate::{Body, Compare, RootEvidence, SignedRoot};
use encoding::Text;
use nodehash::NodeHash;
use sigiface::Verifier;

impl<H: NodeHash, S: Verifier> Chain<H, S> {
    /// Compares two chains of one key over their common range, from the later of their first epochs to the
    /// earlier of their heads' (after CONIKS, section 4).
    ///
    /// If one chain ends before the other starts, the place of the upper chain's first root in the lower
    /// chain decides. Else the chains are compared from the top down. If they differ below a body that both
    /// have, two of their bodies have one hash, since equal roots name both: that is a collision. If they
    /// differ only above the last such body, they have two bodies at one epoch (a fork), or one of them
    /// passes over an epoch (a skip).
    ///
    /// This allocates nothing. It hashes at most one body, and goes over the roots of the common range once.
    pub fn compare(hash: &mut H, one: &Chain<H, S>, other: &Chain<H, S>) -> Compare
        requires { one.now.key ≡ other.now.key }
        ensures compared { IsCompared H.digest_of one.now other.now result }
        ensures equal { (result ≡ Equal) ↔ ChainsAgree H.digest_of one.now other.now }
        ensures evidence { ComparedHolds H.digest_of S.verified one.now.key result }
        ensures roots { IsOfBoth one.now other.now result }
        ensures form { All IsSignedRoot one.now.roots → All IsSignedRoot other.now.roots → EvidenceIs IsSignedRoot result }
        ensures collision { CollisionHolds H.digest_of one.now other.now result }
        ensures collided { (last epoch : ℕ) → AreOneAt one.now other.now last → epoch < last → IsCommon one.now other.now epoch → ¬ AreAlikeAt one.now other.now epoch → IsCollided result }
        ensures counted { H.digests hash.new ≤ H.digests hash.old + 1 }
        ensures spared { ¬ IsHashNeeded one.now other.now → ¬ IsHashNeeded other.now one.now → H.digests hash.new ≡ H.digests hash.old }
        ensures chain { IsChain H.digest_of S.verified one.now }
        ensures also_chain { IsChain H.digest_of S.verified other.now }
    {
        compare_chains(hash, one, other)
    }
}

/// Compares two chains, whatever their keys.
fn compare_chains<H: NodeHash, S: Verifier>(
    hash: &mut H,
    one: &Chain<H, S>,
    other: &Chain<H, S>,
) -> Compare
    ensures compared { IsCompared H.digest_of one.now other.now result }
    ensures collision { CollisionHolds H.digest_of one.now other.now result }
    ensures counted { H.digests hash.new ≤ H.digests hash.old + 1 }
    ensures spared { ¬ IsHashNeeded one.now other.now → ¬ IsHashNeeded other.now one.now → H.digests hash.new ≡ H.digests hash.old }
    ensures one { IsChain H.digest_of S.verified one.now }
    ensures other { IsChain H.digest_of S.verified other.now }
{
    let (first, head) = (one.first(), one.head());
    let (other_first, other_head) = (other.first(), other.head());
    if head.body.epoch < other_first.body.epoch {
        return meet(hash, head, other_first);
    }
    if other_head.body.epoch < first.body.epoch {
        return meet(hash, other_head, first);
    }
    compare_within(one, other)
}

/// Compares two chains without a common epoch, by the lower one's head and the upper one's first root.
fn meet<H: NodeHash>(hash: &mut H, head: &SignedRoot, first: &SignedRoot) -> Compare
    ensures told { (place : Place) × IsPlaceAbove H.digest_of head.now first.now place × (result ≡ told_by_place place) }
    ensures counted { H.digests hash.new ≤ H.digests hash.old + 1 }
    ensures spared { first.now.body.previous_epoch ≢ head.now.body.epoch → H.digests hash.new ≡ H.digests hash.old }
{
    Compare::from_place(place_above(hash, head, first))
}

/// Compares two chains with a common range.
fn compare_within<H: NodeHash, S: Verifier>(one: &Chain<H, S>, other: &Chain<H, S>) -> Compare
    requires one { (head first : SignedRoot) → IsHead one.now head → IsFirst other.now first → first.body.epoch ≤ head.body.epoch }
    requires other { (head first : SignedRoot) → IsHead other.now head → IsFirst one.now first → first.body.epoch ≤ head.body.epoch }
    ensures compared { IsComparedWithin one.now other.now result }
    ensures collided { CollisionHolds H.digest_of one.now other.now result }
{
    let (ones, others) = (one.roots(), other.roots());
    let start = one.first().body.epoch.max(other.first().body.epoch);
    let end = one.head().body.epoch.min(other.head().body.epoch);
    let Some((i, j)) = last_places(ones, others, not_after(ones, end), not_after(others, end))
    else {
        return diverge(
            ones,
            others,
            not_before(ones, start),
            not_before(others, start),
        );
    };
    match apart_below(ones, others, i, j) {
        Some((k, l)) => Compare::Collision(text(&ones[k].body), text(&others[l].body)),
        None => diverge(ones, others, i + 1, j + 1),
    }
}

/// The last two places that have one body. From the two given places on there are none.
fn last_places(
    ones: &[SignedRoot],
    others: &[SignedRoot],
    end: usize,
    other_end: usize,
) -> Option<(usize, usize)>
    requires ones { Ascend ones.now }
    requires others { Ascend others.now }
    requires end { end ≤ length ones.now }
    requires other_end { other_end ≤ length others.now }
    requires cleared { IsCleared ones.now others.now end other_end }
    ensures some { IfSome result (λ p. AreLastPlaces ones.now others.now p.0 p.1) }
    ensures within { IfSome result (λ p. (p.0 < length ones.now) × (p.1 < length others.now)) }
    ensures none { IfNone result (IsCleared ones.now others.now 0 0) }
{
    let mut i = end;
    let mut j = other_end;
    while i > 0 && j > 0 {
        let one = &ones[i - 1];
        let other = &others[j - 1];
        if one.body == other.body {
            return Some((i - 1, j - 1));
        }
        if one.body.epoch < other.body.epoch {
            j -= 1;
        } else {
            i -= 1;
        }
    }
    None
}

/// The first two places below these, going down in step, whose bodies differ.
fn apart_below(
    ones: &[SignedRoot],
    others: &[SignedRoot],
    to: usize,
    other_to: usize,
) -> Option<(usize, usize)>
    requires { AreLastPlaces ones.now others.now to other_to }
    ensures some { IfSome result (λ p. AreApartPlaces ones.now others.now to other_to p.0 p.1) }
    ensures within { IfSome result (λ p. (p.0 < length ones.now) × (p.1 < length others.now)) }
    ensures none { IfNone result ((i j : ℕ) × IsRun ones.now others.now i j to other_to × ((i ≡ 0) ⊎ (j ≡ 0))) }
{
    let mut low = to;
    let mut other_low = other_to;
    while low > 0 && other_low > 0 {
        let one = &ones[low - 1];
        let other = &others[other_low - 1];
        if one.body != other.body {
            return Some((low - 1, other_low - 1));
        }
        low -= 1;
        other_low -= 1;
    }
    None
}

/// What the roots at two places show, if everything before them is alike.
fn diverge(ones: &[SignedRoot], others: &[SignedRoot], i: usize, j: usize) -> Compare
    ensures { IsDivergence ones.now others.now i j result }
{
    let (Some(one), Some(other)) = (ones.get(i), others.get(j)) else {
        return Compare::Equal;
    };
    Compare::Evidence(if one.body.epoch < other.body.epoch {
        RootEvidence::Skip(one.copied(), other.copied())
    } else if other.body.epoch < one.body.epoch {
        RootEvidence::Skip(other.copied(), one.copied())
    } else {
        RootEvidence::Fork(one.copied(), other.copied())
    })
}

/// The bytes of a body as a text.
fn text(body: &Body) -> Text
    ensures value { result ≡ body_bytes body.now }
    ensures sized { IsSized body.now }
{
    body.write().copied()
}
