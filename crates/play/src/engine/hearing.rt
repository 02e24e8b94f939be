// A piece goes to its session in the hub. Of what comes back each frame is read, and told as a line; then what
// follows from new pages is done, as after a line that asks.

ghost use Rattle.std.specs.Prelude.{◌≡◌, ◌≢◌, ◌∷◌, ◌++◌, [], List, IfOk, OnOk};
ghost use Rattle.std.specs.Int.NonZero.{non_zero_u32_get};
ghost use Rattle.wire.specs.FrameViews.{frame_seen};
ghost use Rattle.wire.specs.Laws.{IsReadAs};
ghost use Rattle.wire.specs.Responses.{Refused, ResponseContent};
ghost use Rattle.book.specs.declared.directory_refusal.Refusal.TheVariants.{Memory};
ghost use Rattle.book.specs.Refusals.{book_refusal_number};
ghost use Rattle.book.specs.Shows.{index_of};
ghost use Rattle.epochs.specs.DirectoryStates.{provider, HasKeysOf};
ghost use Rattle.hub.specs.Events.{event_seen, End};
ghost use Rattle.play.specs.Hearing.{response_text};
ghost use Rattle.play.specs.Lines.{as_lines, of_session};
ghost use Rattle.play.specs.Messages.{held_after};
ghost use Rattle.play.specs.Parties.{AreAt, HasHappened, HasHeard, HaveDone, IsReady};
ghost use Rattle.play.specs.Played.{hear, piece_events, Stand};
ghost use Rattle.play.specs.Telling.{session_lines, AreFramesOf, HaveMemory, HeardFrame};

use super::Engine;
use super::asking::response_of;
use crate::telling::{push_number, tell_response};
use book::NoKeeper;
use hub::{Event, HubRefusal, replies_are_honest};
use nodehash::NodeHash;
use rand_core::Rng;
use sigiface::Signer;
use std::alloc::AllocError;
use std::num::NonZeroU32;
use vrfiface::Vuf;
use wire::{FrameView, Front, frames_are_read, front_of};

impl<H, V, S, R> Engine<H, V, S, R>
where
    H: NodeHash + Drop,
    V: Vuf + Drop,
    S: Signer + Drop,
    R: Rng + Drop,
{
    /// Hands a piece to a session, and appends the line of each reply. What follows from it is then done.
    #[inline(never)]
    pub(super) fn piece(
        &mut self,
        session: NonZeroU32,
        piece: &[u8],
        text: &mut Vec<u8>,
    ) -> Result<(), AllocError>
        requires at { (stand : Stand) × AreAt H.digest_of V.value_of S.signature_of R.stream V.accepted S.verified self.old stand }
        ensures done { (stand : Stand) → AreAt H.digest_of V.value_of S.signature_of R.stream V.accepted S.verified self.old stand → OnOk result (let now = hear (index_of (provider H.digest_of V.value_of S.signature_of (self.old).hub.service.directory)) stand (non_zero_u32_get session) piece.now in HaveDone H.digest_of V.value_of S.signature_of R.stream V.accepted S.verified text.old.items now.0 now.1 text.new.items self.new) }
        ensures keys { OnOk result (HasKeysOf (self.old).hub.service.directory (self.new).hub.service.directory) }
    {
        let latest = self.latest();
        let output = self.hand_over(session, piece)?;
        tell_output(session.get(), &output, text)?;
        if latest < self.latest() {
            self.follow(text)?;
        }
        Ok(())
    }

    /// Hands a piece to a session, which is opened if it is not open, and returns the replies that it hears.
    /// A session that cannot be opened, or whose stream failed, hears nothing.
    fn hand_over(&mut self, session: NonZeroU32, piece: &[u8]) -> Result<Vec<u8>, AllocError>
        requires ready { IsReady H.digest_of V.value_of S.signature_of R.stream V.accepted S.verified self.old }
        ensures { IfOk result (λ output. HasHeard H.digest_of V.value_of S.signature_of R.stream V.accepted S.verified self.old (piece_events (non_zero_u32_get session) piece.now) output.items self.new) }
    {
        // What the two calls of `head` ensure: the book is sound before and after, and the provider's
        // functions keep their laws.
        self.hub.head();
        let mut output = Vec::new(self.alloc);
        self.happen(&Event::Open(session.get()), &mut output)?;
        self.happen(&Event::Bytes(session.get(), piece), &mut output)?;
        self.hub.head();
        replies_are_honest::<H, V, S, R, NoKeeper>();
        Ok(output)
    }

    /// Lets an event happen, and appends the replies to its messages. One that is refused does nothing.
    fn happen(&mut self, event: &Event<'_>, output: &mut Vec<u8>) -> Result<(), AllocError>
        ensures { OnOk result (HasHappened H.digest_of V.value_of S.signature_of R.stream V.accepted S.verified self.old (event_seen event.now) output.old.items output.new.items self.new) }
    {
        match self.hub.event(event, output) {
            Ok(()) => Ok(()),
            Err(HubRefusal::TooManySessions) => Ok(()),
            Err(HubRefusal::SessionOpen) => Ok(()),
            Err(HubRefusal::NoSession) => Ok(()),
            Err(HubRefusal::Memory { .. }) => Err(AllocError),
        }
    }

    /// Ends a session, if it is open.
    pub(super) fn end(&mut self, session: NonZeroU32)
        requires at { (stand : Stand) × AreAt H.digest_of V.value_of S.signature_of R.stream V.accepted S.verified self.old stand }
        ensures done { (stand : Stand) → AreAt H.digest_of V.value_of S.signature_of R.stream V.accepted S.verified self.old stand → AreAt H.digest_of V.value_of S.signature_of R.stream V.accepted S.verified self.new (record stand { sessions = held_after stand.sessions (End (non_zero_u32_get session) ∷ []) }) }
        ensures keys { HasKeysOf (self.old).hub.service.directory (self.new).hub.service.directory }
    {
        let mut nothing = Vec::new(self.alloc);
        let _ended = self.hub.event(&Event::End(session.get()), &mut nothing);
    }
}

/// Appends the line of each frame that a session hears.
fn tell_output(session: u32, output: &[u8], text: &mut Vec<u8>) -> Result<(), AllocError>
    requires { (heard : List HeardFrame) × AreFramesOf output.now heard }
    ensures { (heard : List HeardFrame) → AreFramesOf output.now heard → OnOk result ((text.new.items ≡ text.old.items ++ as_lines (session_lines session heard)) × HaveMemory heard) }
{
    frames_are_read();
    let mut rest = output;
    for _ in 0..output.len() {
        let Front::Whole(frame) = front_of(rest) else {
            break;
        };
        tell_frame(session, &frame, text)?;
        rest = rest.split_at(5 + frame.body.len()).1;
    }
    Ok(())
}

/// Appends the line of a frame that a session hears.
fn tell_frame(session: u32, frame: &FrameView<'_>, text: &mut Vec<u8>) -> Result<(), AllocError>
    requires { (responded : ResponseContent) × IsReadAs (frame_seen frame.now) responded }
    ensures { (responded : ResponseContent) → IsReadAs (frame_seen frame.now) responded → OnOk result ((text.new.items ≡ text.old.items ++ (of_session session (response_text responded) ++ 10 ∷ [])) × (responded ≢ Refused (book_refusal_number Memory))) }
{
    let response = response_of(frame)?;
    push_number(text, u64::from(session))?;
    text.extend_from_slice(b": ")?;
    tell_response(text, response)
}
