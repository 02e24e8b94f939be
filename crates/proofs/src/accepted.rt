ghost use Rattle.std.specs.Prelude.{◌≡◌, ◌≢◌, ◌+◌, ◌≤◌, length};
ghost use Rattle.nodehash.specs.declared.node_text.TheConstants.{INTERIOR_LEN};
ghost use Rattle.proofs.specs.Accepts.{stated, Accepts, IsAccepted};
ghost use Rattle.proofs.specs.Comparisons.{opened, IsOnceAccepted};
ghost use Rattle.proofs.specs.PathEnds.{end_text};
ghost use Rattle.proofs.specs.Replies.{reply_bytes, IsReply, SpellsReply};
ghost use Rattle.proofs.specs.Views.{end_seen, key_stated};

use crate::checking::node_at_end;
use crate::view::{EndView, bound_key};
use crate::{ReplyView, Statement};
use commit::commit_text;
use encoding::{Hash32, Index, Name, Text};
use nodehash::{NodeHash, NodeText};
use rootchain::Body;
use std::marker::{Model, PhantomData};
use vrfiface::{VufCheck, index_of};

/// A reply accepted for a name, under the hash function of `H` and the value function of `V`.
#[derive(Drop)]
pub struct Accepted<'a, H: NodeHash, V: VufCheck> {
    name: Name,
    view: ReplyView<'a>,
    index: Index,
    types: PhantomData<(H, V)>,
}

impl<'a, H: NodeHash, V: VufCheck> Model for Accepted<'a, H, V> {
    ghost use Rattle.proofs.specs.Accepts.{NamedReply};

    ghost Value = { NamedReply };

    ghost use Rattle.proofs.specs.Views.{named_reply, IsAcceptedUnder};

    ghost view = { named_reply };

    ghost invariant = { IsAcceptedUnder H.digest_of V.accepted };
}

impl<'a, H: NodeHash, V: VufCheck> Accepted<'a, H, V> {
    /// Holds an accepted reply.
    pub(crate) fn new(name: Name, view: ReplyView<'a>, index: Index) -> Self
        requires accepted { IsAccepted H.digest_of V.accepted (record { name = name; reply = view }) }
        requires index { index ≡ H.digest_of view.value }
        ensures { result ≡ record { name = name; reply = view.entry } }
    {
        Accepted {
            name,
            view,
            index,
            types: PhantomData,
        }
    }

    /// The reply that these bytes spell, which were accepted for the name before. Takes one digest, and
    /// checks nothing again.
    pub fn again(hash: &mut H, name: &Name, bytes: &'a [u8]) -> Self
        requires { IsOnceAccepted H.digest_of V.accepted name.now bytes.now }
        ensures named { result.name ≡ name.now }
        ensures spelled { SpellsReply bytes.entry.now result.reply }
        ensures accepted { IsAccepted H.digest_of V.accepted result }
        ensures counted { H.digests hash.new ≤ H.digests hash.old + 1 }
    {
        let Ok(view) = ReplyView::read(bytes) else {
            unreachable!()
        };
        let index = index_of(hash, view.value());
        Accepted::new(name.copied(), view, index)
    }

    /// The statement of the reply: a key, with its policy if it has one, or absence.
    pub fn statement(&self) -> Statement<'a>
        ensures value { key_stated result ≡ stated self.now.reply.end }
        ensures accepted { Accepts H.digest_of V.accepted self.now.reply.body self.now.name (reply_bytes self.now.reply) (stated self.now.reply.end) }
    {
        self.view.end().statement()
    }

    /// The index of the name.
    pub fn index(&self) -> Index
        ensures { result ≡ H.digest_of self.now.reply.value }
    {
        self.index
    }

    /// The value of the name.
    pub fn value(&self) -> &'a [u8]
        ensures { result.now ≡ self.now.reply.value }
    {
        self.view.value()
    }

    /// The name.
    pub fn name(&self) -> &Name
        ensures { result.now ≡ self.now.name }
    {
        &self.name
    }

    /// The body of the signed root that the reply was accepted under.
    pub fn body(&self) -> &Body
        ensures { result.now ≡ self.now.reply.body }
    {
        self.view.body()
    }

    /// What stands at the end of the reply's way.
    pub(crate) fn end(&self) -> EndView<'a>
        ensures value { end_seen result ≡ self.now.reply.end }
        ensures form { IsReply self.now.reply }
        ensures accepted { IsAccepted H.digest_of V.accepted self.now }
    {
        self.view.end()
    }

    /// The siblings from the root down.
    pub(crate) fn hashes(&self) -> &'a [[u8; 32]]
        ensures value { result.now ≡ self.now.reply.siblings }
        ensures form { IsReply self.now.reply }
        ensures accepted { IsAccepted H.digest_of V.accepted self.now }
    {
        self.view.hashes()
    }

    /// The text of the node at the end of the reply's way.
    pub(crate) fn end_text(&self, hash: &mut H) -> NodeText
        ensures value { result ≡ end_text H.digest_of self.now.reply.body.nonce self.now.name (H.digest_of self.now.reply.value) (length self.now.reply.siblings) self.now.reply.end }
        ensures no_interior { length result ≢ INTERIOR_LEN }
        ensures counted { H.digests hash.new ≤ H.digests hash.old + 1 }
    {
        let nonce = &self.view.body().nonce;
        let level = self.view.hashes().len();
        node_at_end(hash, nonce, &self.name, &self.index, level, self.view.end())
    }

    /// The text of the commitment that the reply opens, if it opens one.
    pub(crate) fn opened_text(&self) -> Option<Text>
        ensures { result ≡ opened self.now.name self.now.reply.end }
    {
        let EndView::Present { salt, key, policy } = self.view.end() else {
            return None;
        };
        let salt = Hash32::new(*salt);
        Some(commit_text(&salt, &self.name, &bound_key(key, policy)))
    }
}
