// What a line asks goes as one frame to session 0 of the hub, and the frame that comes back is told. A proof is
// told by what the client makes of it, and the promise of a new key also goes to the monitors of its name.

ghost use Rattle.std.specs.Prelude.{◌≡◌, ◌≢◌, ◌==◌, ◌++◌, ◌∷◌, [], if◌then◌else◌, IfOk, List, None, OnOk};
ghost use Rattle.commands.specs.Operations.{bound_key};
ghost use Rattle.commands.specs.declared.edit.Verb.{Verb};
ghost use Rattle.wire.specs.Frames.{frame_bytes, Frame, IsFrame};
ghost use Rattle.wire.specs.FrameViews.{frame_seen};
ghost use Rattle.wire.specs.Laws.{IsReadAs};
ghost use Rattle.wire.specs.Requests.{Put};
ghost use Rattle.wire.specs.Responses.{response_seen, Refused, ResponseContent};
ghost use Rattle.book.specs.Books.{Page};
ghost use Rattle.book.specs.declared.directory_refusal.Refusal.TheVariants.{Memory};
ghost use Rattle.book.specs.Refusals.{book_refusal_number};
ghost use Rattle.book.specs.Steps.{bad_key, bad_policy, first};
ghost use Rattle.book.specs.Shows.{index_of};
ghost use Rattle.epochs.specs.DirectoryStates.{provider, HasKeysOf};
ghost use Rattle.play.specs.Checked.{line_of_reply, HasAnswered, HasAskedKnowing, HasChecked, HasLooked, HasLookedUp};
ghost use Rattle.play.specs.Handed.{HasHanded, MayHand};
ghost use Rattle.play.specs.Hearing.{response_text};
ghost use Rattle.play.specs.Lines.{found_text};
ghost use Rattle.play.specs.Parties.{AreAt, HasAsked, HaveDone, IsReady, Parties};
ghost use Rattle.play.specs.Played as played;
ghost use Rattle.play.specs.Played.{Stand};
ghost use Rattle.play.specs.Scripts.{ask_seen, RequestFits};
ghost use Rattle.play.specs.Watchers.{Watcher};

use super::handing::hand_all;
use super::promise_line::tell_promise;
use super::wanting::happen;
use super::{Engine, OWN_SESSION};
use crate::ask::{Ask, token};
use crate::laws::honest;
use crate::telling::{tell_refusal, tell_response, tell_statement};
use book::{NoKeeper, Refusal};
use encoding::{BoundKey, KeyData, Name, Policy};
use hub::{Event, replies_are_honest};
use nodehash::NodeHash;
use rand_core::Rng;
use sigiface::Signer;
use std::alloc::AllocError;
use std::mem;
use vrfiface::Vuf;
use wire::{
    FrameView, Front, PROMISED, PROOF, Response, body_spells_one_request, frames_are_read,
    front_of, messages_are_computed,
};

/// The frame that the bytes are.
fn frame_of<'a>(bytes: &'a [u8]) -> FrameView<'a>
    requires { (frame : Frame) × IsFrame frame × (bytes.now ≡ frame_bytes frame) }
    ensures { (frame : Frame) → IsFrame frame → bytes.entry.now ≡ frame_bytes frame → frame_seen result ≡ frame }
{
    frames_are_read();
    match front_of(bytes) {
        Front::Whole(frame) => frame,
        Front::Short | Front::Bad => unreachable!(),
    }
}

/// The body of the frame that the bytes are.
pub(super) fn body_of<'a>(bytes: &'a [u8]) -> &'a [u8]
    requires { (frame : Frame) × IsFrame frame × (bytes.now ≡ frame_bytes frame) }
    ensures { (frame : Frame) → IsFrame frame → bytes.entry.now ≡ frame_bytes frame → result.now ≡ frame.body }
{
    frame_of(bytes).body
}

/// The response that a frame of the directory is.
///
/// # Errors
///
/// `AllocError` if it says that memory ran out.
#[inline(never)]
pub(super) fn response_of<'a>(frame: &FrameView<'a>) -> Result<Response<'a>, AllocError>
    requires { (responded : ResponseContent) × IsReadAs (frame_seen frame.now) responded }
    ensures { (responded : ResponseContent) → IsReadAs (frame_seen frame.now) responded → IfOk result (λ response. (response_seen response ≡ responded) × (responded ≢ Refused (book_refusal_number Memory))) }
{
    match Response::read(frame.kind, frame.body) {
        Ok(Response::Refused(code)) if code == Refusal::Memory.number() => Err(AllocError),
        Ok(response) => Ok(response),
        Err(_) => unreachable!(),
    }
}

/// Reads whether a frame of the directory says that memory ran out.
///
/// # Errors
///
/// `AllocError` if it says so.
fn had_memory(frame: &FrameView<'_>) -> Result<(), AllocError>
    requires { (responded : ResponseContent) × IsReadAs (frame_seen frame.now) responded }
    ensures { (responded : ResponseContent) → IsReadAs (frame_seen frame.now) responded → OnOk result (responded ≢ Refused (book_refusal_number Memory)) }
{
    // Only a refusal has a body of one byte, and the others are long to read.
    if frame.body.len() != 1 {
        return Ok(());
    }
    want_of_memory(frame)
}

/// The same, by the response that the frame is. A function of its own, since a response is a large value.
#[inline(never)]
fn want_of_memory(frame: &FrameView<'_>) -> Result<(), AllocError>
    requires { (responded : ResponseContent) × IsReadAs (frame_seen frame.now) responded }
    ensures { (responded : ResponseContent) → IsReadAs (frame_seen frame.now) responded → OnOk result (responded ≢ Refused (book_refusal_number Memory)) }
{
    response_of(frame)?;
    Ok(())
}

/// Appends the line of a frame that is no reply to a look-up. Of a promise no more is read than the epoch.
fn tell_reply(frame: &FrameView<'_>, text: &mut Vec<u8>) -> Result<(), AllocError>
    requires { (responded : ResponseContent) × IsReadAs (frame_seen frame.now) responded }
    ensures { (responded : ResponseContent) → IsReadAs (frame_seen frame.now) responded → OnOk result ((text.new.items ≡ text.old.items ++ response_text responded ++ 10 ∷ []) × (responded ≢ Refused (book_refusal_number Memory))) }
{
    if frame.kind == PROMISED {
        return tell_promise(text, frame.body);
    }
    tell_whole(frame, text)
}

/// The same, of which all is read. A function of its own, since a response is a large value.
#[inline(never)]
fn tell_whole(frame: &FrameView<'_>, text: &mut Vec<u8>) -> Result<(), AllocError>
    requires { (responded : ResponseContent) × IsReadAs (frame_seen frame.now) responded }
    ensures { (responded : ResponseContent) → IsReadAs (frame_seen frame.now) responded → OnOk result ((text.new.items ≡ text.old.items ++ response_text responded ++ 10 ∷ []) × (responded ≢ Refused (book_refusal_number Memory))) }
{
    tell_response(text, response_of(frame)?)
}

impl<H, V, S, R> Engine<H, V, S, R>
where
    H: NodeHash + Drop,
    V: Vuf + Drop,
    S: Signer + Drop,
    R: Rng + Drop,
{
    /// Asks through session 0, and returns the frame of the reply.
    ///
    /// # Errors
    ///
    /// `AllocError` if memory runs out, here or in the directory.
    pub(super) fn ask(&mut self, ask: &Ask) -> Result<Vec<u8>, AllocError>
        requires fits { RequestFits (ask_seen ask.now) }
        requires ready { IsReady H.digest_of V.value_of S.signature_of R.stream V.accepted S.verified self.old }
        ensures { IfOk result (λ reply. HasAsked H.digest_of V.value_of S.signature_of R.stream V.accepted S.verified self.old (ask_seen ask.now) reply.items self.new) }
    {
        self.request.clear();
        ask.request(token()).write(&mut self.request)?;
        let mut reply = mem::replace(&mut self.reply, Vec::new(self.alloc));
        reply.clear();
        // What the two calls of `head` ensure: the book is sound before and after, and the provider's
        // functions keep their laws.
        self.hub.head();
        happen(
            &mut self.hub,
            &Event::Bytes(OWN_SESSION, &self.request),
            &mut reply,
        )?;
        self.hub.head();
        // The request is one message, which is read as this request; its reply is honest.
        messages_are_computed();
        body_spells_one_request();
        replies_are_honest::<H, V, S, R, NoKeeper>();
        had_memory(&frame_of(&reply))?;
        Ok(reply)
    }

    /// Asks what a line asks, and appends the line of what comes of it, which the client checks. What follows
    /// from it is then done.
    pub(crate) fn answer(&mut self, ask: &Ask, text: &mut Vec<u8>) -> Result<(), AllocError>
        requires fits { RequestFits (ask_seen ask.now) }
        requires at { (stand : Stand) × AreAt H.digest_of V.value_of S.signature_of R.stream V.accepted S.verified self.old stand }
        ensures done { (stand : Stand) → AreAt H.digest_of V.value_of S.signature_of R.stream V.accepted S.verified self.old stand → OnOk result (let now = played.ask (index_of (provider H.digest_of V.value_of S.signature_of (self.old).hub.service.directory)) stand (ask_seen ask.now) in HaveDone H.digest_of V.value_of S.signature_of R.stream V.accepted S.verified text.old.items now.0 now.1 text.new.items self.new) }
        ensures keys { OnOk result (HasKeysOf (self.old).hub.service.directory (self.new).hub.service.directory) }
        ensures checked { OnOk result (HasAnswered H.digest_of V.value_of S.signature_of R.stream V.accepted S.verified self.old (ask_seen ask.now) self.new) }
    {
        let latest = self.latest();
        let reply = self.ask(ask)?;
        self.tell_checked(ask, &reply, text)?;
        self.hand_on(ask, &reply)?;
        self.keep_room(reply);
        if latest < self.latest() {
            self.follow(text)?;
        }
        Ok(())
    }

    /// Keeps the room of a reply for the next one.
    fn keep_room(&mut self, reply: Vec<u8>)
        ensures { self.new ≡ self.old }
    {
        self.reply = reply;
    }

    /// Appends the line of a reply through session 0. The client looks at the reply to a look-up.
    fn tell_checked(
        &mut self,
        ask: &Ask,
        reply: &[u8],
        text: &mut Vec<u8>,
    ) -> Result<(), AllocError>
        requires asked { (before : Parties R) × HasAskedKnowing H.digest_of V.value_of S.signature_of R.stream V.accepted S.verified before (ask_seen ask.now) reply.now self.old }
        ensures told { (before : Parties R) (known : HasAskedKnowing H.digest_of V.value_of S.signature_of R.stream V.accepted S.verified before (ask_seen ask.now) reply.now self.old) → OnOk result ((text.new.items ≡ text.old.items ++ line_of_reply H.digest_of V.value_of S.signature_of R.stream V.accepted S.verified before (ask_seen ask.now) ++ 10 ∷ []) × HasChecked H.digest_of V.accepted self.old (ask_seen ask.now) known.asked.said self.new) }
    {
        let frame = frame_of(reply);
        if frame.kind != PROOF {
            return tell_reply(&frame, text);
        }
        // A proof is the answer to a look-up alone.
        let Ask::Lookup { name, epoch } = ask else {
            unreachable!()
        };
        let found_at = self.found_at(*epoch);
        self.tell_look(name, *epoch, found_at, body_of(reply), text)
    }

    /// The epoch of the page that a look-up at an epoch finds: for 0 the last one's.
    fn found_at(&self, epoch: u64) -> u64
        ensures { result ≡ (if epoch == 0 then (self.now).hub.service.directory.last.epoch else epoch) }
    {
        if epoch == 0 { self.latest() } else { epoch }
    }

    /// Appends the line of what the client says of a reply to a look-up, which is of the root of this epoch.
    fn tell_look(
        &mut self,
        name: &[u8],
        epoch: u64,
        found_at: u64,
        reply: &[u8],
        text: &mut Vec<u8>,
    ) -> Result<(), AllocError>
        requires found { (page : Page) × HasLookedUp H.digest_of V.value_of S.signature_of R.stream V.accepted S.verified self.old name.now epoch reply.now page × (found_at ≡ page.epoch) }
        ensures { (page : Page) → HasLookedUp H.digest_of V.value_of S.signature_of R.stream V.accepted S.verified self.old name.now epoch reply.now page → found_at ≡ page.epoch
            → OnOk result ((text.new.items ≡ text.old.items ++ found_text (index_of (provider H.digest_of V.value_of S.signature_of (self.old).hub.service.directory)) page name.now ++ 10 ∷ []) × HasLooked H.digest_of V.accepted self.old name.now epoch reply.now self.new) }
    {
        let Ok(name) = Name::new(name) else {
            unreachable!()
        };
        // What this ensures: an honest reply is accepted, but for a double index.
        honest::<V, S>();
        let checks = &mut self.checks;
        match self
            .client
            .look(&mut checks.hash, &checks.vuf, &name, epoch, reply)
        {
            Ok(statement) => tell_statement(text, found_at, statement),
            Err(why) => tell_refusal(text, why),
        }
    }

    /// Hands the promise that was asked for to the monitors of its name, if it is the promise of a new key.
    fn hand_on(&mut self, ask: &Ask, reply: &[u8]) -> Result<(), AllocError>
        requires asked { (before : Parties R) × (asked : Parties R) × (watchers : List Watcher)
            × MayHand H.digest_of V.value_of S.signature_of R.stream V.accepted S.verified before asked self.old (ask_seen ask.now) reply.now watchers }
        ensures { (before asked : Parties R) (watchers : List Watcher)
            → MayHand H.digest_of V.value_of S.signature_of R.stream V.accepted S.verified before asked self.old (ask_seen ask.now) reply.now watchers
            → OnOk result (HasHanded H.digest_of V.value_of S.signature_of R.stream V.accepted S.verified before asked self.old (ask_seen ask.now) watchers self.new) }
    {
        let Ask::Put {
            name,
            key,
            policy,
            ..
        } = ask
        else {
            return Ok(());
        };
        self.hand_out(name, key, *policy, reply)
    }

    /// Hands the promise of a key for a name to each monitor of the name, if the reply is one.
    #[inline(never)]
    fn hand_out(
        &mut self,
        name: &[u8],
        key: &[u8],
        policy: Option<u8>,
        reply: &[u8],
    ) -> Result<(), AllocError>
        requires asked { (before : Parties R) × (asked : Parties R) × (verb : Verb) × (watchers : List Watcher)
            × MayHand H.digest_of V.value_of S.signature_of R.stream V.accepted S.verified before asked self.old (Put verb name.now (key.now, policy)) reply.now watchers }
        ensures { (before asked : Parties R) (verb : Verb) (watchers : List Watcher)
            → MayHand H.digest_of V.value_of S.signature_of R.stream V.accepted S.verified before asked self.old (Put verb name.now (key.now, policy)) reply.now watchers
            → OnOk result (HasHanded H.digest_of V.value_of S.signature_of R.stream V.accepted S.verified before asked self.old (Put verb name.now (key.now, policy)) watchers self.new) }
    {
        let promise = body_of(reply);
        // Only a refusal has a body of one byte.
        if promise.len() == 1 {
            return Ok(());
        }
        let key = accepted_key(key, policy);
        hand_all(&mut self.monitors, &mut self.checks, name, &key, promise)
    }
}

/// The key of a promise that was asked for and made, so that key and policy are allowed.
fn accepted_key(key: &[u8], policy: Option<u8>) -> BoundKey
    requires { first (bad_key key.now ∷ bad_policy policy ∷ []) ≡ None }
    ensures { result ≡ bound_key (key.now, policy) }
{
    let Ok(value) = KeyData::new(key) else {
        unreachable!()
    };
    match policy {
        None => BoundKey {
            value,
            policy: None,
        },
        Some(byte) => match Policy::new(byte) {
            Ok(policy) => BoundKey {
                value,
                policy: Some(policy),
            },
            Err(_) => unreachable!(),
        },
    }
}
