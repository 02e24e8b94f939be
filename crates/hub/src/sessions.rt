//! A hub keeps a feed for each open session, by number. An event opens or ends a session, or hands it a
//! piece. A run handles events in order, and appends what each brings to the output of its session.
ghost use Rattle.std.specs.Prelude.{◌≡◌, ◌≢◌, ◌≤◌, ◌⊎◌, ◌∷◌, [], List, length, map, take, vec_len, vec_capacity, IfOk, OnErr, OnOk, Some};
ghost use Rattle.std.specs.List.Sorted.{IsStrictlySortedBy};
ghost use Rattle.std.specs.Map.{keys_of};
ghost use Rattle.std.specs.Ordering.{nat_cmp};
ghost use Rattle.book.specs.Shows.{IsRootOf};
ghost use Rattle.epochs.specs.DirectoryStates.{book, provider};
ghost use Rattle.hub.specs.DeskRuns.{IsSoundDesk, ShowHonestRun};
ghost use Rattle.hub.specs.Desks.{DeskAnswers};
ghost use Rattle.wire.specs.Streams.{Remainder, EndsOne};
ghost use Rattle.hub.specs.Events.{at_session, due, event_seen, next_part, number, Bytes as AreBytes, End as IsEnd, Open as IsOpen};
ghost use Rattle.hub.specs.Exchanges.{Exchange, LacksRoom, replies};
ghost use Rattle.hub.specs.Happenings.{DoesUnlessRefused, Happens, HearsAt, IsPart};
ghost use Rattle.hub.specs.Outputs.{pair_seen, AppendsUnless};
ghost use Rattle.hub.specs.Runs.{each, unanswered, AreFirst, AreOutputs, BeginsRun, Line, Runs, Stops};

use crate::desk::Desk;
use crate::drain::hear;
use crate::outputs::Outputs;
use crate::{Event, HubRefusal, Service};
use book::Keeper;
use encoding::Hash32;
use epochs::Directory;
use nodehash::NodeHash;
use rand_core::Rng;
use rootchain::SignedRoot;
use sigiface::Signer;
use std::alloc::{AllocError, Global};
use std::collections::BTreeMap;
use std::marker::Model;
use vrfiface::Vuf;
use wire::Feed;

/// The most sessions that are open at once.
pub const MAX_SESSIONS: usize = 1024;

/// A service, and the sessions that are open, each with what its stream holds.
#[derive(Drop)]
pub struct Hub<D: Service + Drop> {
    alloc: Global,
    service: D,
    sessions: BTreeMap<u32, Feed>,
}

impl<D: Service + Drop> Model for Hub<D> {
    ghost use Rattle.hub.specs.Events.{HubState};

    ghost Value = { HubState D };

    ghost view = { λ hub. record { service = hub.service; sessions = hub.sessions.entries } };
}

impl<H, V, S, R, K> Hub<Desk<H, V, S, R, K>>
where
    H: NodeHash + Drop,
    V: Vuf + Drop,
    S: Signer + Drop,
    R: Rng + Drop,
    K: Keeper + Drop,
{
    /// A hub of a directory, without a session. Records are kept by the keeper, and whoever closes
    /// an epoch has to show the token.
    pub fn new(alloc: Global, directory: Directory<H, V, S, R>, keeper: K, token: Hash32) -> Self
        ensures { result ≡ record { service = record { directory = directory; keeper = keeper; token = token }; sessions = [] } }
    {
        Hub::over(alloc, Desk::new(directory, keeper, token))
    }

    /// The latest root of the directory.
    pub fn head(&self) -> &SignedRoot
        ensures head { IsRootOf (provider H.digest_of V.value_of S.signature_of self.now.service.directory) (book R.stream self.now.service.directory) self.now.service.directory.last result.now }
        ensures well { IsSoundDesk H.digest_of V.value_of S.signature_of R.stream V.accepted S.verified self.now.service }
    {
        self.service.head()
    }

    /// Handles events in order, of which a refused one does nothing. Returns the output of each
    /// session that was open or is opened, by their numbers: the replies to its own messages, which
    /// show one run of the directory on the messages of all sessions. The client accepts each, where no
    /// look-up meets another name with its index.
    ///
    /// # Errors
    ///
    /// `AllocError` if memory runs out, in an event or for what is returned. The run stops there,
    /// and the outputs so far are lost.
    pub fn run(&mut self, events: &[Event<'_>]) -> Result<Vec<(u32, Vec<u8>)>, AllocError>
        ensures ok { IfOk result (λ outputs. (lines : List Line)
            × Runs (DeskAnswers H.digest_of V.value_of S.signature_of R.stream K.kept K.failed) self.old (map event_seen events.now) lines self.new
            × AreOutputs (each unanswered (self.old).sessions) (map event_seen events.now) lines (map pair_seen outputs.items)
            × ShowHonestRun H.digest_of V.value_of S.signature_of R.stream K.kept K.failed V.accepted S.verified (self.old).service lines (self.new).service) }
        ensures err { OnErr result (Stops (DeskAnswers H.digest_of V.value_of S.signature_of R.stream K.kept K.failed) self.old (map event_seen events.now) self.new) }
        ensures begun { OnErr result ((lines : List Line) × AreFirst (DeskAnswers H.digest_of V.value_of S.signature_of R.stream K.kept K.failed) self.old (map event_seen events.now) lines (self.new).service
            × ShowHonestRun H.digest_of V.value_of S.signature_of R.stream K.kept K.failed V.accepted S.verified (self.old).service lines (self.new).service) }
        ensures ascend { IsStrictlySortedBy nat_cmp (keys_of (self.old).sessions) }
    {
        // What the two calls of `head` ensure: the book is sound before and after, and the
        // provider's functions keep their laws.
        self.head();
        let outputs = self.run_any(events);
        self.head();
        outputs
    }
}

impl<D: Service + Drop> Hub<D> {
    /// A hub of any service, without a session.
    pub fn over(alloc: Global, service: D) -> Self
        ensures { result ≡ record { service = service; sessions = [] } }
    {
        Hub {
            alloc,
            service,
            sessions: BTreeMap::new(alloc),
        }
    }

    /// Handles one event, and appends the frames of the replies to the messages that it brings.
    ///
    /// # Errors
    ///
    /// `TooManySessions`, `SessionOpen`, `NoSession`: the first that applies, and nothing is done.
    /// Else `Memory` if memory runs out, which an end does not need.
    pub fn event(&mut self, event: &Event<'_>, output: &mut Vec<u8>) -> Result<(), HubRefusal>
        ensures happens { Happens D.answers self.old (event_seen event.now) output.old.items result self.new output.new.items }
        ensures room { LacksRoom result (vec_len output.new) (vec_capacity output.new) }
    {
        match event {
            Event::Open(session) => self.open(*session, output),
            Event::Bytes(session, piece) => self.bytes(*session, piece, output),
            Event::End(session) => self.end(*session, output),
        }
    }

    /// Says how the service stands, in words `key=value`.
    pub fn report(&self) -> Result<String, AllocError> {
        self.service.report(self.alloc)
    }

    /// How many of these bytes, from the front on, are the next part of a session's stream. A part ends at most
    /// one message. Of a session that is not open, it is all of them.
    pub fn part(&self, session: u32, bytes: &[u8]) -> usize
        ensures some { bytes.now ≢ [] → 1 ≤ result }
        ensures most { result ≤ length bytes.now }
        ensures one { (held : Remainder) → at_session (self.now).sessions session ≡ Some held → EndsOne held (take result bytes.now) }
        ensures size { result ≡ next_part (at_session (self.now).sessions session) (length bytes.now) }
    {
        match self.sessions.get(&session) {
            Some(feed) => feed.part(bytes),
            None => bytes.len(),
        }
    }

    /// Handles events in order, of any service: see `run`.
    fn run_any(&mut self, events: &[Event<'_>]) -> Result<Vec<(u32, Vec<u8>)>, AllocError>
        ensures ok { IfOk result (λ outputs. (lines : List Line) × Runs D.answers self.old (map event_seen events.now) lines self.new
            × AreOutputs (each unanswered (self.old).sessions) (map event_seen events.now) lines (map pair_seen outputs.items)) }
        ensures err { OnErr result (Stops D.answers self.old (map event_seen events.now) self.new) }
        ensures begun { OnErr result (BeginsRun D.answers self.old (map event_seen events.now) (self.new).service) }
        ensures ascend { IsStrictlySortedBy nat_cmp (keys_of (self.old).sessions) }
    {
        let mut outputs = Outputs::of_sessions(self.alloc, &self.sessions)?;
        let mut output = Vec::new(self.alloc);
        for event in events {
            self.event_into(event, &mut output, &mut outputs)?;
        }
        outputs.into_pairs()
    }

    /// Handles one event of a run, and adds its output to that of its session.
    fn event_into(
        &mut self,
        event: &Event<'_>,
        output: &mut Vec<u8>,
        outputs: &mut Outputs,
    ) -> Result<(), AllocError>
        ensures ok { OnOk result ((exchanges : List Exchange) × DoesUnlessRefused D.answers self.old (event_seen event.now) exchanges self.new
            × AppendsUnless (due (self.old).sessions (event_seen event.now)) outputs.old (number (event_seen event.now)) (replies exchanges) outputs.new) }
        ensures err { OnErr result (((exchanges : List Exchange) × DoesUnlessRefused D.answers self.old (event_seen event.now) exchanges self.new)
            ⊎ IsPart D.answers self.old (event_seen event.now ∷ []) self.new) }
    {
        output.clear();
        match self.event(event, output) {
            Ok(()) => outputs.append(event.session(), output),
            Err(HubRefusal::Memory { .. }) => Err(AllocError),
            Err(_) => Ok(()),
        }
    }

    fn open(&mut self, session: u32, output: &Vec<u8>) -> Result<(), HubRefusal>
        ensures happens { Happens D.answers self.old (IsOpen session) output.now.items result self.new output.now.items }
        ensures room { LacksRoom result (vec_len output.now) (vec_capacity output.now) }
    {
        if self.sessions.len() >= MAX_SESSIONS {
            return Err(HubRefusal::TooManySessions);
        }
        if self.sessions.contains_key(&session) {
            return Err(HubRefusal::SessionOpen);
        }
        match self.sessions.insert(session, Feed::new(self.alloc)) {
            Ok(_) => Ok(()),
            Err(_) => Err(HubRefusal::Memory { taken: false }),
        }
    }

    fn end(&mut self, session: u32, output: &Vec<u8>) -> Result<(), HubRefusal>
        ensures happens { Happens D.answers self.old (IsEnd session) output.now.items result self.new output.now.items }
        ensures room { LacksRoom result (vec_len output.now) (vec_capacity output.now) }
    {
        match self.sessions.remove(&session) {
            Some(_) => Ok(()),
            None => Err(HubRefusal::NoSession),
        }
    }

    // The contract of `piece` goes by whether the session is found, which proves behind a `get_mut`. Here
    // it becomes that of an event.
    fn bytes(&mut self, session: u32, piece: &[u8], output: &mut Vec<u8>) -> Result<(), HubRefusal>
        ensures happens { Happens D.answers self.old (AreBytes session piece.now) output.old.items result self.new output.new.items }
        ensures room { LacksRoom result (vec_len output.new) (vec_capacity output.new) }
    {
        self.piece(session, piece, output)
    }

    /// Takes a piece, if its session is found.
    fn piece(&mut self, session: u32, piece: &[u8], output: &mut Vec<u8>) -> Result<(), HubRefusal>
        ensures hears { HearsAt D.answers self.old session piece.now output.old.items result self.new output.new.items }
        ensures room { LacksRoom result (vec_len output.new) (vec_capacity output.new) }
    {
        let Some(feed) = self.sessions.get_mut(&session) else {
            return Err(HubRefusal::NoSession);
        };
        hear(&mut self.service, feed, piece, output)
    }
}
