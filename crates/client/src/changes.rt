//! Which of the replies for one name changes what an earlier one states to be final.
ghost use Rattle.std.specs.Prelude.{◌≡◌, ◌≢◌, ◌↔◌, true, IsTrue, MatchOption};
ghost use Rattle.std.specs.List.{AllByRecursion};
ghost use Rattle.proofs.specs.BrokenFinals.{states_final};
ghost use Rattle.proofs.specs.Views.{key_stated};
ghost use Rattle.client.specs.Agreements.{SpellsOne};
ghost use Rattle.client.specs.Finality.{AreFirst, IsChangedByReply, IsFirstToChange, IsUnchangedBy, NoneStandSo, StateAChange};

use crate::by_name::{IndexedReply, RepliesOfName};
use crate::several::Several;
use proofs::{ReplyView, Statement};

/// The first reply that states a key with Final and is changed by one at a later epoch with its index, and the
/// first that changes it.
pub(crate) fn first_change<'a>(
    replies: &'a RepliesOfName,
) -> Option<(&'a IndexedReply, &'a IndexedReply)>
    ensures { MatchOption result (NoneStandSo IsChangedByReply replies.entry.now) (λ pair. AreFirst IsChangedByReply replies.entry.now pair.0.now pair.1.now) }
{
    first_of_several(replies.several()?)
}

/// The same of several.
fn first_of_several<'a>(replies: &'a Several) -> Option<(&'a IndexedReply, &'a IndexedReply)>
    ensures { MatchOption result (NoneStandSo IsChangedByReply replies.entry.now) (λ pair. AreFirst IsChangedByReply replies.entry.now pair.0.now pair.1.now) }
{
    if !replies.is_changed() {
        return None;
    }
    let all = replies.all();
    for reply in all {
        if replies
            .extremes(reply)
            .has_change_of(reply, reply.statement())
        {
            let Some(later) = first_to_change(all, reply) else {
                unreachable!()
            };
            return Some((reply, later));
        }
    }
    None
}

/// The first of these replies that changes another one.
fn first_to_change<'a>(
    replies: &'a [IndexedReply],
    reply: &IndexedReply,
) -> Option<&'a IndexedReply>
    requires replies { AllByRecursion (λ reply. SpellsOne reply.bytes) replies.now }
    requires reply { SpellsOne reply.now.bytes }
    ensures { MatchOption result (IsUnchangedBy replies.entry.now reply.now) (λ later. IsFirstToChange replies.entry.now reply.now later.now) }
{
    for later in replies {
        if is_changed(reply, later) {
            return Some(later);
        }
    }
    None
}

/// Whether a reply is changed by a later one.
fn is_changed(reply: &IndexedReply, later: &IndexedReply) -> bool
    requires reply { SpellsOne reply.now.bytes }
    requires later { SpellsOne later.now.bytes }
    ensures { IsTrue result ↔ IsChangedByReply reply.now later.now }
{
    reply.epoch() < later.epoch()
        && reply.index() == later.index()
        && state_a_change(reply.bytes(), later.bytes())
}

/// Whether bytes are a reply that states a key with Final, and others one that states anything else. Neither is
/// checked.
pub fn state_a_change(reply: &[u8], later: &[u8]) -> bool
    ensures { IsTrue result ↔ StateAChange reply.now later.now }
{
    let Ok(view) = ReplyView::read(reply) else {
        return false;
    };
    let Ok(later_view) = ReplyView::read(later) else {
        return false;
    };
    are_a_change(view.statement(), later_view.statement())
}

/// Whether one is of a key with Final, and the other anything else.
fn are_a_change(stated: Statement<'_>, later: Statement<'_>) -> bool
    ensures { IsTrue result ↔ ((states_final (key_stated stated.entry) ≡ true) × (key_stated later.entry ≢ key_stated stated.entry)) }
{
    stated.is_final() && later != stated
}
