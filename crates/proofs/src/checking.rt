//! A reply is checked by one test for each refusal, in their order. The last one climbs from the node at
//! the reply's end to the root, with one digest for each sibling, and compares.
ghost use Rattle.std.specs.Prelude.{◌≡◌, ◌≢◌, ◌↔◌, ◌+◌, ◌≤◌, ℕ, List, Option, length, IfErr, IfOk, IsOkAnd, IsTrue};
ghost use Rattle.encoding.specs.declared.bound_key.BoundKey.{BoundKey};
ghost use Rattle.prefixtree.specs.declared.path.TheConstants.{MAX_SIBLINGS};
ghost use Rattle.nodehash.specs.declared.node_text.TheConstants.{INTERIOR_LEN};
ghost use Rattle.proofs.specs.Accepts.{stated, Accepts};
ghost use Rattle.proofs.specs.Comparisons.{IsAcceptedReply, Refuses};
ghost use Rattle.proofs.specs.PathEnds.{end_of_path, end_text};
ghost use Rattle.proofs.specs.Refusals.{IsFirstToFail, AbsenceIsByAnother, AbsenceIsOnWay, Passes};
ghost use Rattle.proofs.specs.Replies.{IsEnd, SpellsReply};
ghost use Rattle.proofs.specs.Views.{end_seen};

use crate::view::{EndView, bound_key};
use crate::{Accepted, Refusal, ReplyView};
use commit::commit;
use encoding::{Hash32, Index, Name, agree};
use nodehash::{NodeHash, NodeText};
use prefixtree::{end_text, leads};
use rootchain::Body;
use vrfiface::{VufCheck, index_of};

/// Whether a leaf that shows absence is another index's.
fn absence_is_by_another(index: &Index, end: EndView<'_>) -> bool
    ensures { IsTrue result ↔ AbsenceIsByAnother index.now (end_seen end.entry) }
{
    match end {
        EndView::Other { index: other, .. } => Index::new(*other) != *index,
        EndView::Present { .. } | EndView::Empty => true,
    }
}

/// Whether a leaf that shows absence agrees with the index in `level` bits.
fn absence_is_on_way(index: &Index, level: usize, end: EndView<'_>) -> bool
    ensures { IsTrue result ↔ AbsenceIsOnWay index.now level (end_seen end.entry) }
{
    match end {
        EndView::Other { index: other, .. } => agree(index, &Index::new(*other), level),
        EndView::Present { .. } | EndView::Empty => true,
    }
}

/// The end of a tree's path that a reply's end stands for.
fn end_of_path<H: NodeHash>(hash: &mut H, name: &Name, end: EndView<'_>) -> prefixtree::End
    requires { IsEnd (end_seen end) }
    ensures value { result ≡ end_of_path H.digest_of name.now (end_seen end.entry) }
    ensures counted { H.digests hash.new ≤ H.digests hash.old + 1 }
{
    match end {
        EndView::Present { salt, key, policy } => {
            let salt = Hash32::new(*salt);
            prefixtree::End::Present(commit(hash, &salt, name, &bound_key(key, policy)))
        }
        EndView::Empty => prefixtree::End::Empty,
        EndView::Other { index, commitment } => {
            prefixtree::End::Other(Index::new(*index), Hash32::new(*commitment))
        }
    }
}

/// The text of the node at a reply's end.
pub(crate) fn node_at_end<H: NodeHash>(
    hash: &mut H,
    nonce: &Hash32,
    name: &Name,
    index: &Index,
    level: usize,
    end: EndView<'_>,
) -> NodeText
    requires level { level ≤ MAX_SIBLINGS }
    requires end { IsEnd (end_seen end) }
    ensures value { result ≡ end_text H.digest_of nonce.now name.now index.now level (end_seen end.entry) }
    ensures no_interior { length result ≢ INTERIOR_LEN }
    ensures counted { H.digests hash.new ≤ H.digests hash.old + 1 }
{
    end_text(nonce, index, level, end_of_path(hash, name, end))
}

/// The index of the name, where the reply passes each test, else the first refusal that applies.
fn test_reply<H: NodeHash, V: VufCheck>(
    hash: &mut H,
    vuf: &V,
    body: &Body,
    name: &Name,
    view: &ReplyView<'_>,
) -> Result<Index, Refusal>
    ensures ok { IfOk result (λ _. (refusal : _) → Passes H.digest_of V.accepted body.now name.now view.now refusal) }
    ensures index { IfOk result (λ index. index ≡ H.digest_of view.now.value) }
    ensures first { IfErr result (IsFirstToFail (Passes H.digest_of V.accepted body.now name.now view.now)) }
    ensures counted { H.digests hash.new ≤ H.digests hash.old + length view.now.siblings + 3 }
{
    if view.body() != body {
        return Err(Refusal::OtherRoot);
    }
    if !vuf.accepts(&body.vuf_key, name, view.value()) {
        return Err(Refusal::BadVuf);
    }
    let index = index_of(hash, view.value());
    if !absence_is_by_another(&index, view.end()) {
        return Err(Refusal::SameIndex);
    }
    let level = view.hashes().len();
    if !absence_is_on_way(&index, level, view.end()) {
        return Err(Refusal::OtherPrefix);
    }
    let end = node_at_end(hash, &body.nonce, name, &index, level, view.end());
    if !leads(hash, &body.root, &index, view.hashes(), end) {
        return Err(Refusal::PathMismatch);
    }
    Ok(index)
}

/// Checks a reply for a name under this body of a signed root. Takes at most three digests, and one for
/// each sibling.
///
/// # Errors
///
/// The first refusal that applies, from `OtherRoot` on.
pub fn check<'a, H: NodeHash, V: VufCheck>(
    hash: &mut H,
    vuf: &V,
    body: &Body,
    name: &Name,
    view: &ReplyView<'a>,
) -> Result<Accepted<'a, H, V>, Refusal>
    ensures exact { (bytes : List ℕ) → SpellsReply bytes view.now → (statement : Option BoundKey)
        → IsOkAnd result (λ accepted. stated accepted.reply.end ≡ statement) ↔ Accepts H.digest_of V.accepted body.now name.now bytes statement }
    ensures kept { IfOk result (λ accepted. accepted ≡ record { name = name.now; reply = view.now }) }
    ensures first { IfErr result (IsFirstToFail (Passes H.digest_of V.accepted body.now name.now view.now)) }
    ensures counted { H.digests hash.new ≤ H.digests hash.old + length view.now.siblings + 3 }
{
    let index = test_reply(hash, vuf, body, name, view)?;
    Ok(Accepted::new(name.copied(), view.copied(), index))
}

/// Reads a reply for a name and checks it under this body of a signed root, whoever made it. Takes at
/// most 259 digests.
///
/// # Errors
///
/// The refusal of `ReplyView::read` or of `check`.
pub fn accept<'a, H: NodeHash, V: VufCheck>(
    hash: &mut H,
    vuf: &V,
    body: &Body,
    name: &Name,
    bytes: &'a [u8],
) -> Result<Accepted<'a, H, V>, Refusal>
    ensures refused { IfErr result (Refuses H.digest_of V.accepted body.now name.now bytes.entry.now) }
    ensures kept { IfOk result (λ accepted. accepted ≡ record { name = name.now; reply = accepted.reply }) }
    ensures accepted { IfOk result (λ accepted. IsAcceptedReply H.digest_of V.accepted body.now name.now bytes.entry.now accepted.reply) }
    ensures counted { H.digests hash.new ≤ H.digests hash.old + (MAX_SIBLINGS + 3) }
{
    // The prover does not cover `?` in a function with clauses whose result holds a view.
    match ReplyView::read(bytes) {
        Ok(view) => check(hash, vuf, body, name, &view),
        Err(refusal) => Err(refusal),
    }
}
