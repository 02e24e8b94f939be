//! The roots that a piece of a list makes whole are taken one by one, each before the next one is looked
//! at. Memory for all that are still to come is reserved first. The first root that is refused ends the
//! feed, and the roots before it stay. A piece that makes no root whole is only held.
//!
//! A refusal may have two roots in it. A function that returns one clears the room for it when it is called,
//! which takes longer than to hold a few bytes. So `take_part` returns none and becomes part of its caller, and
//! `take_piece` does not.
ghost use Rattle.std.specs.Prelude.{◌≡◌, ◌≢◌, ◌↔◌, ◌+◌, ◌≤◌, List, length, IfErr, IsTrue};
ghost use Rattle.std.specs.List.{AllByRecursion};
ghost use Rattle.rootchain.specs.declared.signed_root.SignedRoot.{SignedRoot};
ghost use Rattle.rootchain.specs.Chains.{IsChain};
ghost use Rattle.rootchain.specs.FeedViews.{TakesPart};
ghost use Rattle.rootchain.specs.RootFeeds.{told_from, Failed};
ghost use Rattle.rootchain.specs.SignedRoots.{IsSignedRoot};
ghost use Rattle.rootchain.specs.TakingLists.{with_roots};
ghost use Rattle.rootchain.specs.declared.list_refusal.ListRefusal.TheVariants as list;
ghost use Rattle.rootchain.specs.TakingPieces.{of_piece, piece_answer, TakesPiece, TakesTold, PieceRefusalHolds, PieceRefusalIsSpelled};

use super::Chain;
use super::room::{has_room, make_room};
use crate::root_feed::Next;
use crate::{ListRefusal, PieceRefusal, RootFeed};
use nodehash::NodeHash;
use sigiface::Verifier;

/// What comes of a piece, or of a list in bytes.
#[derive(Clone, Copy, Debug)]
pub(super) enum Outcome {
    /// Its roots are taken.
    Taken,
    /// The list has no such bytes there, or the bytes spell none.
    Malformed,
    /// A root is refused.
    Refused,
}

impl<H: NodeHash, S: Verifier> Chain<H, S> {
    /// Takes the next piece of a list, or leaves it to `take_piece`, and returns whether it took it. It takes
    /// only a piece that makes no root whole, as `take_piece` would. A piece that it leaves, as where no memory for
    /// the roots to come was reserved, changes neither the chain nor the feed.
    #[inline(always)]
    pub fn take_part(&mut self, feed: &mut RootFeed, piece: &[u8]) -> bool
        ensures part { TakesPart feed.old piece.now result feed.new }
        ensures stays { self.new ≡ self.old }
        ensures chain { IsChain H.digest_of S.verified self.old }
    {
        has_room(&self.roots, feed.owed()) && feed.take_part(piece)
    }

    /// Takes each root that the next piece of a list makes whole, as `take_list` does, before the next one
    /// is looked at.
    ///
    /// # Errors
    ///
    /// `Malformed` if the feed failed before, else `Memory` if there is no memory for all roots that are still to
    /// come (64 until their number is known): neither the chain nor the feed changes. Else the refusal of the
    /// first root that `take_list` would refuse, or `Malformed` if the bytes after the roots before are none of a
    /// list: the chain keeps these roots, and the feed has failed.
    #[inline(never)]
    pub fn take_piece(
        &mut self,
        hash: &mut H,
        verifier: &S,
        feed: &mut RootFeed,
        piece: &[u8],
    ) -> Result<(), PieceRefusal>
        ensures takes { TakesPiece H.digest_of S.verified self.old feed.old piece.now result self.new feed.new }
        ensures grows { (more : List SignedRoot) × (self.new ≡ with_roots self.old more) }
        ensures evidence { IfErr result (PieceRefusalHolds H.digest_of S.verified self.old.key) }
        ensures spelled { AllByRecursion IsSignedRoot self.old.roots → IfErr result PieceRefusalIsSpelled }
        ensures form { AllByRecursion IsSignedRoot self.old.roots → AllByRecursion IsSignedRoot self.new.roots }
        ensures chain { IsChain H.digest_of S.verified self.old }
        ensures counted { H.digests hash.new ≤ H.digests hash.old + length (told_from feed.old piece.now).0 }
    {
        // The checker learns here that this is a chain.
        let roots = &mut self.roots;
        if feed.has_failed() {
            return Err(PieceRefusal::Malformed);
        }
        if !make_room(roots, feed.owed()) {
            return Err(PieceRefusal::Memory);
        }
        if feed.take_part(piece) {
            return Ok(());
        }
        let mut why = ListRefusal::Memory;
        match self.take_whole(hash, verifier, feed, piece, &mut why) {
            Outcome::Taken => Ok(()),
            Outcome::Malformed => Err(PieceRefusal::Malformed),
            Outcome::Refused => Err(of_piece(why)),
        }
    }

    /// Takes the roots that a piece makes whole, where there is memory for them. If one is refused, `why` is
    /// its refusal.
    fn take_whole(
        &mut self,
        hash: &mut H,
        verifier: &S,
        feed: &mut RootFeed,
        piece: &[u8],
        why: &mut ListRefusal,
    ) -> Outcome
        requires { feed.old ≢ Failed }
        ensures takes { TakesPiece H.digest_of S.verified self.old feed.old piece.now (piece_answer result why.new) self.new feed.new }
        ensures spelled { AllByRecursion IsSignedRoot self.old.roots → IfErr (piece_answer result why.new) PieceRefusalIsSpelled }
        ensures form { AllByRecursion IsSignedRoot self.old.roots → AllByRecursion IsSignedRoot self.new.roots }
        ensures counted { H.digests hash.new ≤ H.digests hash.old + length (told_from feed.old piece.now).0 }
    {
        let before = self.roots.len();
        let held = feed.copied();
        match self.take_told(hash, verifier, feed, piece, why) {
            Outcome::Taken => Outcome::Taken,
            Outcome::Malformed => Outcome::Malformed,
            Outcome::Refused => {
                if is_memory(why) {
                    self.roots.truncate(before);
                    *feed = held;
                } else {
                    feed.fail();
                }
                Outcome::Refused
            }
        }
    }

    /// Takes the roots that a piece makes whole, up to the first that is refused.
    fn take_told(
        &mut self,
        hash: &mut H,
        verifier: &S,
        feed: &mut RootFeed,
        piece: &[u8],
        why: &mut ListRefusal,
    ) -> Outcome
        ensures told { TakesTold H.digest_of S.verified self.old feed.old piece.now (piece_answer result why.new) self.new feed.new }
        ensures spelled { AllByRecursion IsSignedRoot self.old.roots → IfErr (piece_answer result why.new) PieceRefusalIsSpelled }
        ensures form { AllByRecursion IsSignedRoot self.old.roots → AllByRecursion IsSignedRoot self.new.roots }
        ensures counted { H.digests hash.new ≤ H.digests hash.old + length (told_from feed.old piece.now).0 }
    {
        let mut rest = piece;
        loop {
            match feed.next(rest) {
                Next::Root(root, after) => {
                    if !self.take_one(hash, verifier, root, why) {
                        return Outcome::Refused;
                    }
                    rest = after;
                }
                Next::Wait => return Outcome::Taken,
                Next::Failed => return Outcome::Malformed,
            }
        }
    }
}

/// Whether there was no memory for a root.
fn is_memory(why: &ListRefusal) -> bool
    ensures { IsTrue result ↔ (why.now ≡ list.Memory) }
{
    matches!(why, ListRefusal::Memory)
}

/// The refusal of a piece, or of a list in bytes, for that of one of its roots.
#[cold]
#[inline(never)]
pub(super) fn of_piece(why: ListRefusal) -> PieceRefusal
    ensures { result ≡ of_piece why }
{
    match why {
        ListRefusal::Memory => PieceRefusal::Memory,
        ListRefusal::BadSignature => PieceRefusal::Root(ListRefusal::BadSignature),
        ListRefusal::BeforeStart => PieceRefusal::Root(ListRefusal::BeforeStart),
        ListRefusal::Ahead => PieceRefusal::Root(ListRefusal::Ahead),
        ListRefusal::Evidence(evidence) => PieceRefusal::Root(ListRefusal::Evidence(evidence)),
    }
}
