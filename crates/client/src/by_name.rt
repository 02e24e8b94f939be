//! The accepted replies for each name, in order of acceptance, so that what is asked of one name takes no time
//! for the others.
ghost use Rattle.std.specs.Prelude.{◌≡◌, ◌<◌, ◌^◌, ◌++◌, ◌∷◌, [], ℕ, List, None, IfOk, MatchOption, OnErr, OnOk, option_map};
ghost use Rattle.encoding.specs.Maps.{at};
ghost use Rattle.proofs.specs.Views.{key_stated};
ghost use Rattle.client.specs.Agreements.{SpellsOne};
ghost use Rattle.client.specs.Extremes.{BytesState, NoneStatesFinal};
ghost use Rattle.client.specs.Finality.{ByName, HasOneMore, HaveTheSame};

use crate::looks::statement;
use crate::several::Several;
use encoding::{Index, Name};
use proofs::Statement;
use std::alloc::{AllocError, Global};
use std::collections::BTreeMap;
use std::marker::Model;
use std::rc::Rc;

/// An accepted reply, with the epoch of its root and its index.
#[derive(Drop)]
pub(crate) struct IndexedReply {
    epoch: u64,
    index: Index,
    bytes: Rc<Vec<u8>>,
}

impl Model for IndexedReply {
    ghost use Rattle.client.specs.Finality as finality;

    ghost Value = { finality.IndexedReply };

    ghost view = { λ reply. record { epoch = reply.epoch; index = reply.index; bytes = reply.bytes.value.items } };
}

impl IndexedReply {
    pub(crate) fn new(epoch: u64, index: Index, bytes: Rc<Vec<u8>>) -> Self
        ensures { result ≡ record { epoch = epoch; index = index; bytes = bytes.value.items } }
    {
        IndexedReply {
            epoch,
            index,
            bytes,
        }
    }

    pub(crate) fn epoch(&self) -> u64
        ensures value { result ≡ self.now.epoch }
        ensures fits { self.now.epoch < 2 ^ 64 }
    {
        self.epoch
    }

    pub(crate) fn index(&self) -> Index
        ensures { result ≡ self.now.index }
    {
        self.index
    }

    pub(crate) fn bytes(&self) -> &[u8]
        ensures { result.now ≡ self.now.bytes }
    {
        self.bytes.as_slice()
    }

    /// What it states.
    pub(crate) fn statement(&self) -> Statement<'_>
        requires { SpellsOne self.now.bytes }
        ensures { BytesState self.now.bytes (key_stated result) }
    {
        statement(self.bytes())
    }

    /// A copy, with the same bytes.
    pub(crate) fn copied(&self) -> Result<IndexedReply, AllocError>
        ensures { IfOk result (λ reply. reply ≡ self.now) }
    {
        Ok(IndexedReply {
            bytes: self.shared()?,
            ..*self
        })
    }

    /// The bytes, to be kept elsewhere too.
    pub(crate) fn shared(&self) -> Result<Rc<Vec<u8>>, AllocError>
        ensures { IfOk result (λ bytes. bytes.value.items ≡ self.now.bytes) }
    {
        self.bytes.clone()
    }
}

/// The replies for a name. Until one states a key with Final, a plain list does; few names have such a key.
#[derive(Drop)]
pub(crate) enum PlainOrSeveral {
    Plain(Vec<IndexedReply>),
    Several(Box<Several>),
}

/// The replies for one name, in order of acceptance.
#[derive(Drop)]
pub(crate) struct RepliesOfName {
    kept: PlainOrSeveral,
}

impl Model for RepliesOfName {
    ghost use Rattle.std.specs.Prelude.{List};
    ghost use Rattle.client.specs.Finality as finality;
    ghost use Rattle.client.specs.Several.{listed, ArePlain};

    ghost Value = { List finality.IndexedReply };

    ghost view = { λ replies. listed replies.kept };

    ghost invariant = { λ replies. ArePlain replies.kept };
}

impl RepliesOfName {
    /// One reply, with what it states.
    fn of(alloc: Global, reply: IndexedReply, stated: Statement<'_>) -> Result<Self, AllocError>
        requires { BytesState reply.bytes (key_stated stated) }
        ensures { IfOk result (λ replies. replies ≡ reply ∷ []) }
    {
        if stated.is_final() {
            let several = Several::of(alloc, reply, stated)?;
            return Ok(RepliesOfName {
                kept: PlainOrSeveral::Several(Box::new(alloc, several)?),
            });
        }
        let mut list = Vec::with_capacity(alloc, 1)?;
        list.push_reserved(reply);
        Ok(RepliesOfName {
            kept: PlainOrSeveral::Plain(list),
        })
    }

    /// The replies with their extremes, if one states a key with Final.
    pub(crate) fn several(&self) -> Option<&Several>
        ensures { MatchOption result (NoneStatesFinal self.now) (λ replies. replies.now ≡ self.now) }
    {
        match &self.kept {
            PlainOrSeveral::Plain(_) => None,
            PlainOrSeveral::Several(replies) => Some(replies),
        }
    }

    /// Puts a reply behind the others, with what it states. An `Err` leaves them as they were.
    fn push(
        &mut self,
        alloc: Global,
        reply: IndexedReply,
        stated: Statement<'_>,
    ) -> Result<(), AllocError>
        requires { BytesState reply.bytes (key_stated stated) }
        ensures ok { OnOk result (self.new ≡ self.old ++ reply ∷ []) }
        ensures err { OnErr result (self.new ≡ self.old) }
    {
        match &mut self.kept {
            PlainOrSeveral::Plain(list) => {
                if stated.is_final() {
                    let mut replies = Several::of_all(alloc, list)?;
                    replies.push(reply, stated)?;
                    self.kept = PlainOrSeveral::Several(Box::new(alloc, replies)?);
                } else {
                    list.push(reply)?;
                }
                Ok(())
            }
            PlainOrSeveral::Several(replies) => replies.push(reply, stated),
        }
    }
}

/// The replies for each name.
#[derive(Drop)]
pub(crate) struct RepliesByName {
    alloc: Global,
    lists: BTreeMap<Vec<u8>, RepliesOfName>,
}

impl Model for RepliesByName {
    ghost use Rattle.client.specs.Finality.{keyed, ByName};

    ghost Value = { ByName };

    ghost view = { λ replies. keyed (λ key. key.items) replies.lists.entries };
}

impl RepliesByName {
    /// No replies.
    pub(crate) fn new(alloc: Global) -> Self
        ensures { result ≡ [] }
    {
        RepliesByName {
            alloc,
            lists: BTreeMap::new(alloc),
        }
    }

    /// The replies for a name, if there are any.
    pub(crate) fn of(&self, name: &Name) -> Option<&RepliesOfName>
        ensures { option_map (λ replies. replies.now) result ≡ at self.now name.now }
    {
        self.lists.get(name.bytes())
    }

    /// Puts a reply behind those for the name, with what it states. An `Err` leaves the replies for each name as they were.
    pub(crate) fn push(
        &mut self,
        name: &Name,
        reply: IndexedReply,
        stated: Statement<'_>,
    ) -> Result<(), AllocError>
        requires { BytesState reply.bytes (key_stated stated) }
        ensures ok { OnOk result (HasOneMore self.old name.now reply self.new) }
        ensures err { OnErr result (HaveTheSame self.old self.new) }
    {
        match self.lists.get_mut(name.bytes()) {
            Some(replies) => replies.push(self.alloc, reply, stated),
            None => self.push_first(name, reply, stated),
        }
    }

    /// The same, for a name that has none.
    fn push_first(
        &mut self,
        name: &Name,
        reply: IndexedReply,
        stated: Statement<'_>,
    ) -> Result<(), AllocError>
        requires none { at self.old name.now ≡ None }
        requires stated { BytesState reply.bytes (key_stated stated) }
        ensures ok { OnOk result (HasOneMore self.old name.now reply self.new) }
        ensures err { OnErr result (HaveTheSame self.old self.new) }
    {
        let key = Vec::from_slice(self.alloc, name.bytes())?;
        let replies = RepliesOfName::of(self.alloc, reply, stated)?;
        self.lists.insert(key, replies)?;
        Ok(())
    }
}
