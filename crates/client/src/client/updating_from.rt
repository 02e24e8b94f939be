ghost use Rattle.std.specs.Prelude.{◌+◌, ◌≤◌, IfErr, length};
ghost use Rattle.rootchain.specs.Chains.{IsChain};
ghost use Rattle.rootchain.specs.RootFeeds.{told_from};
ghost use Rattle.client.specs.Updating.{RefusalHolds};
ghost use Rattle.client.specs.UpdatingFrom.{UpdatesFrom};

use super::Client;
use super::updating::tell;
use crate::Refusal;
use nodehash::NodeHash;
use rootchain::RootFeed;
use sigiface::Verifier;
use vrfiface::VufCheck;

impl<H: NodeHash, V: VufCheck, S: Verifier> Client<H, V, S> {
    /// Takes each root that the next piece of a list makes whole, as `update` does, before the next one is
    /// looked at. Takes at most one digest for each root that the piece makes whole.
    ///
    /// # Errors
    ///
    /// `Root` with `Malformed` if the feed failed before, else `Memory` if there is no memory for all roots that
    /// are still to come (64 until their number is known): neither the client nor the feed changes. Else the
    /// refusal of the first root that `update` would refuse, or `Root` with `Malformed` if the bytes after the
    /// roots before are none of a list: the client keeps these roots, and the feed has failed.
    #[inline(always)]
    pub fn update_from(
        &mut self,
        hash: &mut H,
        verifier: &S,
        feed: &mut RootFeed,
        piece: &[u8],
    ) -> Result<(), Refusal>
        ensures updates { UpdatesFrom H.digest_of S.verified self.old feed.old piece.now result self.new feed.new }
        ensures chain { IsChain H.digest_of S.verified self.new.chain }
        ensures evidence { IfErr result (RefusalHolds H.digest_of S.verified self.old.chain.key) }
        ensures counted { H.digests hash.new ≤ H.digests hash.old + length (told_from feed.old piece.now).0 }
    {
        if self.chain.take_part(feed, piece) {
            return Ok(());
        }
        self.update_whole(hash, verifier, feed, piece)
    }

    /// `update_from` of a piece that `take_part` left. A function clears the room for all its refusals when it is
    /// called; inlined, this one does so only where it is reached.
    #[inline(always)]
    fn update_whole(
        &mut self,
        hash: &mut H,
        verifier: &S,
        feed: &mut RootFeed,
        piece: &[u8],
    ) -> Result<(), Refusal>
        ensures updates { UpdatesFrom H.digest_of S.verified self.old feed.old piece.now result self.new feed.new }
        ensures chain { IsChain H.digest_of S.verified self.new.chain }
        ensures evidence { IfErr result (RefusalHolds H.digest_of S.verified self.old.chain.key) }
        ensures counted { H.digests hash.new ≤ H.digests hash.old + length (told_from feed.old piece.now).0 }
    {
        match self.chain.take_piece(hash, verifier, feed, piece) {
            Ok(()) => Ok(()),
            Err(why) => Err(tell(why)),
        }
    }
}
