// A record is replayed by the private functions of the call that made it, under its own salt, with a keeper that
// keeps nothing. So no record is kept, the salts to come stay, and the roots are the same bytes.

ghost use Rattle.std.specs.Prelude.{◌≡◌, ◌+◌, ◌≤◌, IsSome};
ghost use Rattle.commands.specs.declared.edit.Verb.TheVariants.{Change, Register};
ghost use Rattle.book.specs.declared.record.Record.TheVariants.{Bound, Turned};
ghost use Rattle.book.specs.Steps.{kept_edit};
ghost use Rattle.book.specs.Shows.{index_of as index_by};
ghost use Rattle.epochs.specs.DirectoryStates.{provider, HasKeysOf};
ghost use Rattle.epochs.specs.declared.foreseen.TheConstants.{AT_ONCE};
ghost use Rattle.epochs.specs.Replayed.{address_digests, replay_digests, Replays};

use super::Directory;
use crate::foreseen::{AT_ONCE, Foreseen};
use book::{NoKeeper, Record, Refusal};
use commands::Verb;
use encoding::{BoundKey, Hash32, Name};
use nodehash::{NodeHash, NodeText};
use rand_core::Rng;
use sigiface::Signer;
use vrfiface::Vuf;

impl<H: NodeHash, V: Vuf, S: Signer, R: Rng> Directory<H, V, S, R> {
    /// Prepares for four records that will be replayed next, in this order, with these texts of their
    /// commitments: these are digested at once. What is replayed instead is carried out as ever.
    pub fn foresee(&mut self, texts: [NodeText; AT_ONCE])
        ensures stays { self.new ≡ record self.old { digests = self.new.digests } }
        ensures work { self.new.digests ≤ self.old.digests + AT_ONCE }
        ensures at_once { AT_ONCE ≡ 4 }
    {
        self.foreseen = Foreseen::digested(&mut self.hash, texts);
    }

    /// Carries out once more the command that a record was kept of, under the record's salt. The record
    /// must not be a start. No record is kept, and the salts to come stay.
    ///
    /// # Errors
    ///
    /// Those of the command, in their order, except `KeepFailed`. The directory then stays as it is.
    pub fn replay(&mut self, what: &Record) -> Result<(), Refusal>
        requires { IsSome (kept_edit what.now) }
        ensures replays { Replays R.stream (index_by (provider H.digest_of V.value_of S.signature_of self.old)) self.old what.now result self.new }
        ensures keys { HasKeysOf self.old self.new }
        ensures work { self.new.digests ≤ self.old.digests + replay_digests (provider H.digest_of V.value_of S.signature_of self.old) self.old what.now }
    {
        match what {
            Record::Start { .. } => unreachable!(),
            Record::Bound {
                verb,
                salt,
                name,
                key,
            } => self.put_again(what, *verb, *salt, name, key),
            Record::Turned { epoch, nonce } => self.turn_again(*epoch, *nonce),
        }
    }

    /// Puts the key to the name once more, under this salt.
    fn put_again(
        &mut self,
        what: &Record,
        verb: Verb,
        salt: Hash32,
        name: &Name,
        key: &BoundKey,
    ) -> Result<(), Refusal>
        ensures replays { Replays R.stream (index_by (provider H.digest_of V.value_of S.signature_of self.old)) self.old (Bound verb salt name.now key.now) result self.new }
        ensures keys { HasKeysOf self.old self.new }
        ensures work { self.new.digests ≤ self.old.digests + (address_digests verb + 1) }
    {
        match verb {
            Verb::Register => self.register_again(what, salt, name, key),
            Verb::Change => self.change_again(what, salt, name, key),
        }
    }

    /// Lets a new name wait once more, under this salt.
    fn register_again(
        &mut self,
        what: &Record,
        salt: Hash32,
        name: &Name,
        key: &BoundKey,
    ) -> Result<(), Refusal>
        ensures replays { Replays R.stream (index_by (provider H.digest_of V.value_of S.signature_of self.old)) self.old (Bound Register salt name.now key.now) result self.new }
        ensures keys { HasKeysOf self.old self.new }
        ensures work { self.new.digests ≤ self.old.digests + 2 }
    {
        // These calls ensure that the name and the key are within their limits.
        name.bytes();
        key.bytes();
        match self.free_address(name) {
            Ok(address) => self.bind(&mut NoKeeper, what, &address, name, key, salt),
            Err(why) => Err(why),
        }
    }

    /// Lets another key of a name wait once more, under this salt.
    fn change_again(
        &mut self,
        what: &Record,
        salt: Hash32,
        name: &Name,
        key: &BoundKey,
    ) -> Result<(), Refusal>
        ensures replays { Replays R.stream (index_by (provider H.digest_of V.value_of S.signature_of self.old)) self.old (Bound Change salt name.now key.now) result self.new }
        ensures keys { HasKeysOf self.old self.new }
        ensures work { self.new.digests ≤ self.old.digests + 1 }
    {
        // As in `register_again`.
        name.bytes();
        key.bytes();
        match self.rebind(&mut NoKeeper, what, name, key, salt) {
            Ok(_) => Ok(()),
            Err(why) => Err(why),
        }
    }

    /// Ends the epoch once more.
    fn turn_again(&mut self, epoch: u64, nonce: Option<Hash32>) -> Result<(), Refusal>
        ensures replays { Replays R.stream (index_by (provider H.digest_of V.value_of S.signature_of self.old)) self.old (Turned epoch nonce) result self.new }
        ensures keys { HasKeysOf self.old self.new }
        ensures work { self.new.digests ≤ self.old.digests + replay_digests (provider H.digest_of V.value_of S.signature_of self.old) self.old (Turned epoch nonce) }
    {
        match self.turn(&mut NoKeeper, epoch, nonce) {
            Ok(_) => Ok(()),
            Err(why) => Err(why),
        }
    }
}
