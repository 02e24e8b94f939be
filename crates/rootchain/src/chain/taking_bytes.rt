//! A list of roots in bytes is taken whole or not at all, and each of its roots is read once: a root is taken
//! when it is read, up to the first that is refused, and those after it are only read. If one is refused, or the
//! bytes spell no list, the roots that were appended are taken off again.
ghost use Rattle.std.specs.Prelude.{◌≡◌, ◌+◌, ◌≤◌, List, IfErr};
ghost use Rattle.std.specs.List.{AllByRecursion};
ghost use Rattle.rootchain.specs.declared.signed_root.SignedRoot.{SignedRoot};
ghost use Rattle.rootchain.specs.Chains.{IsChain};
ghost use Rattle.rootchain.specs.SignedRoots.{IsSignedRoot};
ghost use Rattle.rootchain.specs.TakingBytes.{announced, refused_if, TakesBytes, TakesRead};
ghost use Rattle.rootchain.specs.TakingLists.{with_roots};
ghost use Rattle.rootchain.specs.TakingPieces.{piece_answer, PieceRefusalHolds, PieceRefusalIsSpelled};

use super::Chain;
use super::room::make_room;
use super::taking_pieces::{Outcome, of_piece};
use crate::root_list::{has_roots, read_count};
use crate::{ListRefusal, PieceRefusal, SignedRoot};
use encoding::{Cursor, Form};
use nodehash::NodeHash;
use sigiface::Verifier;

impl<H: NodeHash, S: Verifier> Chain<H, S> {
    /// Takes the list of roots that these bytes spell, as `take_list` does, and reads each root once.
    ///
    /// # Errors
    ///
    /// `Malformed` if the bytes spell no list. Else `Memory` if there is no memory for all of its roots. Else
    /// the refusal of the first root that `take_list` would refuse. The chain then stays as it was.
    pub fn take_bytes(
        &mut self,
        hash: &mut H,
        verifier: &S,
        bytes: &[u8],
    ) -> Result<(), PieceRefusal>
        ensures takes { TakesBytes H.digest_of S.verified self.old bytes.now result self.new }
        ensures grows { (more : List SignedRoot) × (self.new ≡ with_roots self.old more) }
        ensures evidence { IfErr result (PieceRefusalHolds H.digest_of S.verified self.old.key) }
        ensures spelled { AllByRecursion IsSignedRoot self.old.roots → IfErr result PieceRefusalIsSpelled }
        ensures form { AllByRecursion IsSignedRoot self.old.roots → AllByRecursion IsSignedRoot self.new.roots }
        ensures chain { IsChain H.digest_of S.verified self.old }
        ensures counted { H.digests hash.new ≤ H.digests hash.old + announced bytes.now }
    {
        let mut why = ListRefusal::Memory;
        let outcome = self.take_spelled(hash, verifier, bytes, &mut why);
        answer_of(outcome, why)
    }

    /// Takes the list of roots that these bytes spell. If it is refused, `why` is the refusal.
    fn take_spelled(
        &mut self,
        hash: &mut H,
        verifier: &S,
        bytes: &[u8],
        why: &mut ListRefusal,
    ) -> Outcome
        ensures takes { TakesBytes H.digest_of S.verified self.old bytes.now (piece_answer result why.new) self.new }
        ensures chain { IsChain H.digest_of S.verified self.old }
        ensures counted { H.digests hash.new ≤ H.digests hash.old + announced bytes.now }
    {
        let before = self.roots.len();
        let mut cursor = Cursor::new(bytes);
        let Ok(count) = read_count(&mut cursor) else {
            return Outcome::Malformed;
        };
        if !make_room(&mut self.roots, count) {
            *why = ListRefusal::Memory;
            return refused_if(has_roots(count, &cursor));
        }
        match self.take_read(hash, verifier, count, &mut cursor, why) {
            Outcome::Taken => Outcome::Taken,
            Outcome::Malformed => {
                self.roots.truncate(before);
                Outcome::Malformed
            }
            Outcome::Refused => {
                self.roots.truncate(before);
                Outcome::Refused
            }
        }
    }

    /// Takes so many roots as they are read, up to the first that is refused, and reads those after it.
    fn take_read(
        &mut self,
        hash: &mut H,
        verifier: &S,
        count: usize,
        cursor: &mut Cursor<'_>,
        why: &mut ListRefusal,
    ) -> Outcome
        ensures read { TakesRead H.digest_of S.verified self.old count cursor.old result why.new self.new }
        ensures counted { H.digests hash.new ≤ H.digests hash.old + count }
    {
        let mut left = count;
        while left > 0 {
            let Ok(root) = SignedRoot::read_from(cursor) else {
                return Outcome::Malformed;
            };
            left -= 1;
            if !self.take_one(hash, verifier, root, why) {
                return refused_if(has_roots(left, cursor));
            }
        }
        match cursor.end() {
            Ok(()) => Outcome::Taken,
            Err(_) => Outcome::Malformed,
        }
    }
}

/// What comes of a list whose roots are not all taken, by whether its bytes are well formed.
fn refused_if(is_list: bool) -> Outcome
    ensures { result ≡ refused_if is_list }
{
    if is_list {
        Outcome::Refused
    } else {
        Outcome::Malformed
    }
}

/// The answer to bytes.
fn answer_of(outcome: Outcome, why: ListRefusal) -> Result<(), PieceRefusal>
    ensures { result ≡ piece_answer outcome why }
{
    match outcome {
        Outcome::Taken => Ok(()),
        Outcome::Malformed => Err(PieceRefusal::Malformed),
        Outcome::Refused => Err(of_piece(why)),
    }
}
