ghost use Rattle.std.specs.Prelude.{◌≡◌, ◌+◌, ◌≤◌, Ok, false, IfOk, IsTrue};
ghost use Rattle.prefixtree.specs.declared.path.TheConstants.{MAX_SIBLINGS};
ghost use Rattle.proofs.specs.Comparisons.{IsAcceptedReply};
ghost use Rattle.proofs.specs.Replies.{Reply};
ghost use Rattle.client.specs.Clients as clients;
ghost use Rattle.client.specs.Dues.{DueHolds, Dues, IsDueEpoch};
ghost use Rattle.client.specs.declared.due.Due.TheVariants.{Kept};

use super::Client;
use crate::promises::{shows_kept, test, tested};
use crate::{Due, Refusal};
use encoding::Name;
use nodehash::NodeHash;
use sigiface::Verifier;
use vrfiface::VufCheck;

impl<H: NodeHash, V: VufCheck, S: Verifier> Client<H, V, S> {
    /// The epoch whose reply `due` will test for a name, if the client keeps a promise for it and the chain
    /// has a root after that of the promise.
    pub fn due_epoch(&self, name: &Name) -> Option<u64>
        ensures { IsDueEpoch self.now name.now result }
    {
        let (_, signed) = tested(self.promises.all(), name)?;
        let root = self.chain.after(signed.promise.epoch)?;
        Some(root.body.epoch)
    }

    /// Tests whether the provider kept its promise for this name: of those that are kept for it, the one of
    /// the least epoch, and of equals the first kept. These bytes are a reply to a look-up of the name under
    /// the chain's next root. A promise that the provider kept is dropped; any other stays. Takes at most 259
    /// digests.
    ///
    /// # Errors
    ///
    /// `NoPromise` where no promise for the name is kept, `UnknownRoot` where the chain has no root after the
    /// promise's yet, the refusal of the reply: the first that applies. The client then stays as it was.
    pub fn due(&mut self, hash: &mut H, vuf: &V, name: &Name, bytes: &[u8]) -> Result<Due, Refusal>
        ensures due { Dues H.digest_of V.accepted self.old name.now bytes.now result self.new }
        ensures evidence { IfOk result (DueHolds H.digest_of V.accepted S.verified self.old.chain.key) }
        ensures counted { H.digests hash.new ≤ H.digests hash.old + (MAX_SIBLINGS + 3) }
    {
        let Some((place, signed)) = tested(self.promises.all(), name) else {
            return Err(Refusal::NoPromise);
        };
        match test(&self.chain, signed, hash, vuf, name, bytes) {
            Ok(Due::Kept) => {
                self.promises.remove(place);
                Ok(Due::Kept)
            }
            Ok(Due::Broken(broken)) => Ok(Due::Broken(broken)),
            Ok(Due::OtherIndex) => Ok(Due::OtherIndex),
            Err(why) => Err(why),
        }
    }

    /// Drops the promise that `due` tests for a name if this reply shows that it was kept, and returns whether it did.
    /// The reply is known to be accepted under the body that it has, so it is not verified: takes at most one digest.
    pub fn drop_kept(&mut self, hash: &mut H, name: &Name, bytes: &[u8]) -> bool
        requires accepted { (reply : Reply) × IsAcceptedReply H.digest_of V.accepted reply.body name.now bytes.now reply }
        ensures kept { IsTrue result → Dues H.digest_of V.accepted self.old name.now bytes.now (Ok Kept) self.new }
        ensures other { result ≡ false → (after : clients.Client) → ¬ Dues H.digest_of V.accepted self.old name.now bytes.now (Ok Kept) after }
        ensures stays { result ≡ false → self.new ≡ self.old }
        ensures counted { H.digests hash.new ≤ H.digests hash.old + 1 }
    {
        let Some((place, signed)) = tested(self.promises.all(), name) else {
            return false;
        };
        if !shows_kept(&self.chain, signed, hash, bytes) {
            return false;
        }
        self.promises.remove(place);
        true
    }
}
