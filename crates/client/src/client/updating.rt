ghost use Rattle.std.specs.Prelude.{◌≡◌, ◌+◌, ◌≤◌, IfErr, OnOk};
ghost use Rattle.rootchain.specs.Chains.{IsChain};
ghost use Rattle.rootchain.specs.TakingBytes.{announced};
ghost use Rattle.client.specs.Updating.{told_as, RefusalHolds, Updates};
ghost use Rattle.client.specs.UpdatingFrom.{piece_told_as};

use super::Client;
use crate::{Refusal, RootRefusal};
use nodehash::NodeHash;
use rootchain::{ListRefusal, PieceRefusal};
use sigiface::Verifier;
use vrfiface::VufCheck;

impl<H: NodeHash, V: VufCheck, S: Verifier> Client<H, V, S> {
    /// Takes the list of roots that these bytes spell, in order: those that the chain has are passed over,
    /// and those that follow its head are appended. Takes at most one digest for each
    /// root that the number at the front announces.
    ///
    /// # Errors
    ///
    /// `Root` with `Malformed` if the bytes spell no list; `Memory` if there is no memory for its roots; else
    /// that of the first root that is refused: `Root` with `BadSignature`, with `NotLater` if its epoch is
    /// before the chain's first, with `BadLink` if it is ahead of the head, or `RootDiffers` with the
    /// evidence. The client then stays as it was.
    pub fn update(&mut self, hash: &mut H, verifier: &S, bytes: &[u8]) -> Result<(), Refusal>
        ensures updates { Updates H.digest_of S.verified self.old bytes.now result self.new }
        ensures chain { OnOk result (IsChain H.digest_of S.verified self.new.chain) }
        ensures evidence { IfErr result (RefusalHolds H.digest_of S.verified self.old.chain.key) }
        ensures counted { H.digests hash.new ≤ H.digests hash.old + announced bytes.now }
    {
        match self.chain.take_bytes(hash, verifier, bytes) {
            Ok(()) => Ok(()),
            Err(why) => Err(tell(why)),
        }
    }
}

/// The client's refusal for its chain's refusal of a list in bytes, or of a piece.
pub(super) fn tell(why: PieceRefusal) -> Refusal
    ensures { result ≡ piece_told_as why }
{
    match why {
        PieceRefusal::Malformed => Refusal::Root(RootRefusal::Malformed),
        PieceRefusal::Root(why) => tell_list(why),
        PieceRefusal::Memory => Refusal::Memory,
    }
}

/// The client's refusal for its chain's refusal of a list.
fn tell_list(why: ListRefusal) -> Refusal
    ensures { result ≡ told_as why }
{
    match why {
        ListRefusal::BadSignature => Refusal::Root(RootRefusal::BadSignature),
        ListRefusal::BeforeStart => Refusal::Root(RootRefusal::NotLater),
        ListRefusal::Ahead => Refusal::Root(RootRefusal::BadLink),
        ListRefusal::Evidence(evidence) => Refusal::RootDiffers(evidence),
        ListRefusal::Memory => Refusal::Memory,
    }
}
