//! The accepted replies for one name, once one states a key with Final, in order of acceptance. Whether one of them
//! changes what another states to be final is known at once, from the extremes of each index, which are kept as they come.
ghost use Rattle.std.specs.Prelude.{◌≡◌, ◌↔◌, ◌<◌, ◌++◌, ◌∷◌, [], ℕ, Some, IfOk, IsTrue, MatchOption, OnErr, OnOk, length, slice_get};
ghost use Rattle.std.specs.List.{AllByRecursion};
ghost use Rattle.proofs.specs.Views.{key_stated};
ghost use Rattle.client.specs.Agreements.{SpellsOne};
ghost use Rattle.client.specs.Extremes.{AreExtremes, BytesState, HasNoSuch};
ghost use Rattle.client.specs.Finality.{IsChangedByReply, SomeStandSo};

use crate::by_name::IndexedReply;
use crate::extremes::Extremes;
use encoding::Index;
use proofs::Statement;
use std::alloc::{AllocError, Global};
use std::collections::BTreeMap;
use std::marker::Model;

/// Replies for one name, with the extremes of each index.
#[derive(Drop)]
pub(crate) struct Several {
    list: Vec<IndexedReply>,
    /// The index of the first.
    index: Index,
    /// Those of this index.
    own: Extremes,
    /// Those of each other index. It is empty where the provider keeps its VUF key.
    others: BTreeMap<Index, Extremes>,
    /// Whether one of the replies changes another.
    is_changed: bool,
}

impl Model for Several {
    ghost use Rattle.std.specs.Prelude.{List};
    ghost use Rattle.client.specs.Extremes.{AreByIndex};
    ghost use Rattle.client.specs.Finality as finality;

    ghost Value = { List finality.IndexedReply };

    ghost view = { λ replies. replies.list.items };

    ghost invariant = { λ replies. AreByIndex replies.list.items replies.index replies.own replies.others.entries replies.is_changed };
}

impl Several {
    /// One reply, with what it states, to which others come.
    pub(crate) fn of(
        alloc: Global,
        reply: IndexedReply,
        stated: Statement<'_>,
    ) -> Result<Self, AllocError>
        requires { BytesState reply.bytes (key_stated stated) }
        ensures { IfOk result (λ replies. replies ≡ reply ∷ []) }
    {
        let index = reply.index();
        let own = Extremes::of(&reply, stated)?;
        let mut list = Vec::with_capacity(alloc, 2)?;
        list.push_reserved(reply);
        Ok(Several {
            list,
            index,
            own,
            others: BTreeMap::new(alloc),
            is_changed: false,
        })
    }

    /// These replies, of which there is one at least.
    pub(crate) fn of_all(alloc: Global, list: &[IndexedReply]) -> Result<Self, AllocError>
        requires some { 0 < length list.now }
        requires spelled { AllByRecursion (λ reply. SpellsOne reply.bytes) list.now }
        ensures { IfOk result (λ replies. replies ≡ list.now) }
    {
        let first = &list[0];
        let mut replies = Several::of(alloc, first.copied()?, first.statement())?;
        for n in 1..list.len() {
            let reply = &list[n];
            replies.push(reply.copied()?, reply.statement())?;
        }
        Ok(replies)
    }

    /// All of them.
    pub(crate) fn all(&self) -> &[IndexedReply]
        ensures all { result.now ≡ self.now }
        ensures spelled { AllByRecursion (λ reply. SpellsOne reply.bytes) self.now }
    {
        &self.list
    }

    /// Whether one of them changes another.
    pub(crate) fn is_changed(&self) -> bool
        ensures { IsTrue result ↔ SomeStandSo IsChangedByReply self.now }
    {
        self.is_changed
    }

    /// The extremes of those with the index of one of them.
    pub(crate) fn extremes(&self, reply: &IndexedReply) -> &Extremes
        requires { (place : ℕ) × (slice_get self.now place ≡ Some reply.now) }
        ensures { AreExtremes self.now reply.now.index result.now }
    {
        match self.others.get(&reply.index()) {
            Some(extremes) => extremes,
            None => &self.own,
        }
    }

    /// Puts a reply behind the others, with what it states. An `Err` leaves them as they were.
    pub(crate) fn push(
        &mut self,
        reply: IndexedReply,
        stated: Statement<'_>,
    ) -> Result<(), AllocError>
        requires { BytesState reply.bytes (key_stated stated) }
        ensures ok { OnOk result (self.new ≡ self.old ++ reply ∷ []) }
        ensures err { OnErr result (self.new ≡ self.old) }
    {
        let (extremes, is_changed) = self.with(&reply, stated)?;
        if reply.index() == self.index {
            self.list.push(reply)?;
            self.own = extremes;
            self.is_changed = is_changed;
            return Ok(());
        }
        self.list.reserve(1)?;
        self.others.insert(reply.index(), extremes)?;
        self.list.push_reserved(reply);
        self.is_changed = is_changed;
        Ok(())
    }

    /// The extremes of those with the index of this reply once it is behind them, and whether one of them then changes
    /// another.
    fn with(
        &self,
        reply: &IndexedReply,
        stated: Statement<'_>,
    ) -> Result<(Extremes, bool), AllocError>
        requires { BytesState reply.now.bytes (key_stated stated) }
        ensures { IfOk result (λ pair. AreExtremes (self.now ++ reply.now ∷ []) reply.now.index pair.0 × (IsTrue pair.1 ↔ SomeStandSo IsChangedByReply (self.now ++ reply.now ∷ []))) }
    {
        match self.known(reply) {
            Some(known) => {
                let is_changed = self.is_changed || known.has_change_with(reply, stated);
                Ok((known.with(reply, stated)?, is_changed))
            }
            None => Ok((Extremes::of(reply, stated)?, self.is_changed)),
        }
    }

    /// The extremes of those with the index of a reply, if one has it.
    fn known(&self, reply: &IndexedReply) -> Option<&Extremes>
        ensures { MatchOption result (HasNoSuch self.now reply.now.index) (λ extremes. AreExtremes self.now reply.now.index extremes.now) }
    {
        if reply.index() == self.index {
            return Some(&self.own);
        }
        self.others.get(&reply.index())
    }
}
