//! The looks that a client accepted, in an ordered map by epoch, name and number, where the number counts
//! the looks before. So those of one name and epoch stand beside each other, and the numbers give the order
//! of acceptance. Epochs come first, since they compare faster than names.
ghost use Rattle.std.specs.Prelude.{◌≡◌, ◌++◌, ◌∷◌, [], length, OnErr, OnOk};
ghost use Rattle.encoding.specs.Limits.{IsName};
ghost use Rattle.proofs.specs.Views.{key_stated};
ghost use Rattle.client.specs.Clients.{Look};
ghost use Rattle.client.specs.Extremes.{BytesState};
ghost use Rattle.client.specs.Finality.{HasOneMore, HaveTheSame};
ghost use Rattle.client.specs.Numbered.{all_numbered, AreNumbered};

use crate::by_name::{IndexedReply, RepliesByName};
use encoding::Name;
use proofs::Statement;
use std::alloc::{AllocError, Global};
use std::collections::BTreeMap;
use std::collections::btree_map::Entry;
use std::marker::Model;
use std::rc::Rc;

mod comparing;

pub(crate) use comparing::{Unlike, statement};

/// What a look asked for.
#[derive(Drop, PartialEq, Eq, PartialOrd, Ord)]
struct Asked {
    epoch: u64,
    name: Vec<u8>,
}

/// The place of a look: those of one name and epoch stand beside each other, in order of acceptance.
#[derive(Drop, PartialEq, Eq, PartialOrd, Ord)]
struct LookPlace {
    asked: Asked,
    /// How many looks were accepted before this one.
    number: usize,
}

/// The looks that a client accepted, in order: names, epochs and the bytes of the replies.
#[derive(Drop)]
pub(crate) struct Looks {
    alloc: Global,
    replies: BTreeMap<LookPlace, Rc<Vec<u8>>>,
}

impl Model for Looks {
    ghost use Rattle.std.specs.Prelude.{List};
    ghost use Rattle.client.specs.Clients.{Look};
    ghost use Rattle.client.specs.Numbered.{all_numbered, AreNumbered};

    ghost Value = { List Look };

    ghost view = { λ looks. all_numbered (λ place. place.number) (λ entry. record { name = entry.0.asked.name.items; epoch = entry.0.asked.epoch; reply = entry.1.value.items }) looks.replies.entries };

    ghost invariant = { λ looks. AreNumbered (λ place. place.number) looks.replies.entries };
}

impl Looks {
    /// No looks.
    pub(crate) fn new(alloc: Global) -> Looks
        ensures { result ≡ [] }
    {
        Looks {
            alloc,
            replies: BTreeMap::new(alloc),
        }
    }

    /// Keeps a look, and its reply, with what that states, among those for the name. An `Err` leaves both as they were.
    pub(crate) fn push(
        &mut self,
        by_name: &mut RepliesByName,
        name: &Name,
        reply: IndexedReply,
        stated: Statement<'_>,
    ) -> Result<(), AllocError>
        requires { BytesState reply.bytes (key_stated stated) }
        ensures ok { OnOk result (self.new ≡ self.old ++ (record { name = name.now; epoch = reply.epoch; reply = reply.bytes }) ∷ []) }
        ensures more { OnOk result (HasOneMore by_name.old name.now reply by_name.new) }
        ensures err { OnErr result (self.new ≡ self.old) }
        ensures same { OnErr result (HaveTheSame by_name.old by_name.new) }
        ensures named { OnOk result (IsName name.now) }
    {
        let bytes = reply.shared()?;
        let place = LookPlace {
            asked: Asked {
                name: Vec::from_slice(self.alloc, name.bytes())?,
                epoch: reply.epoch(),
            },
            number: self.replies.len(),
        };
        let replies = &mut self.replies;
        keep_at_end(replies, by_name, place, bytes, name, reply, stated)
    }
}

/// Keeps the bytes of a reply behind those of the others, and the reply among those for the name. An `Err`
/// leaves both as they were.
fn keep_at_end(
    replies: &mut BTreeMap<LookPlace, Rc<Vec<u8>>>,
    by_name: &mut RepliesByName,
    place: LookPlace,
    bytes: Rc<Vec<u8>>,
    name: &Name,
    reply: IndexedReply,
    stated: Statement<'_>,
) -> Result<(), AllocError>
    requires numbered { AreNumbered (λ place. place.number) replies.old.entries }
    requires last { place.number ≡ length replies.old.entries }
    requires stated { BytesState reply.bytes (key_stated stated) }
    ensures numbered { AreNumbered (λ place. place.number) replies.new.entries }
    ensures ok { OnOk result (all_numbered (λ place. place.number) {L = Look} (λ entry. record { name = entry.0.asked.name.items; epoch = entry.0.asked.epoch; reply = entry.1.value.items }) replies.new.entries
        ≡ all_numbered (λ place. place.number) {L = Look} (λ entry. record { name = entry.0.asked.name.items; epoch = entry.0.asked.epoch; reply = entry.1.value.items }) replies.old.entries ++ (record { name = place.asked.name.items; epoch = place.asked.epoch; reply = bytes.value.items }) ∷ []) }
    ensures err { OnErr result (replies.new.entries ≡ replies.old.entries) }
    ensures more { OnOk result (HasOneMore by_name.old name.now reply by_name.new) }
    ensures same { OnErr result (HaveTheSame by_name.old by_name.new) }
{
    match replies.entry(place)? {
        Entry::Vacant(room) => {
            let kept = room.insert_entry(bytes);
            match by_name.push(name, reply, stated) {
                Ok(()) => {
                    // What this ensures: the map has it.
                    let _ = kept.into_mut();
                    Ok(())
                }
                Err(why) => {
                    let _ = kept.remove();
                    Err(why)
                }
            }
        }
        Entry::Occupied(_) => unreachable!(),
    }
}
