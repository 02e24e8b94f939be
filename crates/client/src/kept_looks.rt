ghost use Rattle.std.specs.Prelude.{◌≡◌, ◌++◌, ◌∷◌, [], map, MatchOption, OnErr, OnOk};
ghost use Rattle.std.specs.List.{AllByRecursion};
ghost use Rattle.encoding.specs.Limits.{IsName};
ghost use Rattle.proofs.specs.Accepts.{HasIndex};
ghost use Rattle.proofs.specs.Views.{key_stated};
ghost use Rattle.client.specs.Extremes.{BytesState};
ghost use Rattle.client.specs.Finality.{look_of, looks_for, IsIndexed};

use crate::by_name::{IndexedReply, RepliesByName, RepliesOfName};
use crate::looks::Looks;
use encoding::{Index, Name};
use nodehash::NodeHash;
use proofs::Statement;
use std::alloc::{AllocError, Global};
use std::marker::{Model, PhantomData};
use std::rc::Rc;

/// The looks that a client accepted, in order of acceptance, and for each name its replies, with their indices
/// under the hash function of `H`.
#[derive(Drop)]
pub(crate) struct KeptLooks<H: NodeHash> {
    alloc: Global,
    looks: Looks,
    by_name: RepliesByName,
    types: PhantomData<H>,
}

impl<H: NodeHash> Model for KeptLooks<H> {
    ghost use Rattle.std.specs.Prelude.{List};
    ghost use Rattle.client.specs.Clients.{Look};
    ghost use Rattle.client.specs.Finality.{AreByName};

    ghost Value = { List Look };

    ghost view = { λ kept. kept.looks };

    ghost invariant = { λ kept. AreByName H.digest_of kept.looks kept.by_name };
}

impl<H: NodeHash> KeptLooks<H> {
    /// No looks.
    pub(crate) fn new(alloc: Global) -> Self
        ensures { result ≡ [] }
    {
        KeptLooks {
            alloc,
            looks: Looks::new(alloc),
            by_name: RepliesByName::new(alloc),
            types: PhantomData,
        }
    }

    /// All of them.
    pub(crate) fn all(&self) -> &Looks
        ensures { result.now ≡ self.now }
    {
        &self.looks
    }

    /// The replies for a name, if there are any.
    pub(crate) fn of(&self, name: &Name) -> Option<&RepliesOfName>
        ensures looks { MatchOption result (looks_for name.now self.now ≡ []) (λ replies. map (look_of name.now) replies.now ≡ looks_for name.now self.now) }
        ensures indexed { MatchOption result (looks_for name.now self.now ≡ []) (λ replies. AllByRecursion (IsIndexed H.digest_of) replies.now) }
    {
        self.by_name.of(name)
    }

    /// Keeps a look, whose reply states this. An `Err` leaves the looks as they were.
    pub(crate) fn push(
        &mut self,
        name: &Name,
        epoch: u64,
        index: Index,
        reply: &[u8],
        stated: Statement<'_>,
    ) -> Result<(), AllocError>
        requires index { HasIndex H.digest_of reply.now index }
        requires stated { BytesState reply.now (key_stated stated) }
        ensures ok { OnOk result (self.new ≡ self.old ++ (record { name = name.now; epoch = epoch; reply = reply.now }) ∷ []) }
        ensures err { OnErr result (self.new ≡ self.old) }
        ensures named { OnOk result (IsName name.now) }
    {
        let bytes = Rc::new(self.alloc, Vec::from_slice(self.alloc, reply)?)?;
        let reply = IndexedReply::new(epoch, index, bytes);
        self.looks.push(&mut self.by_name, name, reply, stated)
    }
}
