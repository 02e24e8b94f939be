// What the lines of a script do, between a hub, a client, an auditor and monitors.
//
// What is asked goes as a frame through session 0, and the reply comes back as a frame. A line that made new
// epochs lets the client, the auditor and each monitor take their roots, by frames that are not told; then
// each monitor watches the new epochs.
//
// An honest directory gives no evidence and no root that is refused, so those answers do not come.

ghost use Rattle.std.specs.Prelude.{◌≡◌, ◌∷◌, [], ℕ, IfOk, List, OnOk};
ghost use Rattle.rand_core.specs.Stream.{Stream};
ghost use Rattle.wire.specs.Streams.{Rest};
ghost use Rattle.book.specs.Fresh.{fresh};
ghost use Rattle.book.specs.Shows.{index_of};
ghost use Rattle.epochs.specs.DirectoryStates.{book, provider, HasKeysOf};
ghost use Rattle.hub.specs.DeskRuns.{IsSoundDesk};
ghost use Rattle.play.specs.declared.engine.TheConstants.{OWN_SESSION};
ghost use Rattle.play.specs.Checked.{HasAnsweredLine};
ghost use Rattle.play.specs.Parties.{AreAt, HaveDone};
ghost use Rattle.play.specs.Played.{line_played, Stand};
ghost use Rattle.play.specs.Scripts.{line_seen, LineFits};

use self::wanting::{happen, observe, start};
use crate::Checks;
use crate::ask::token;
use crate::line::Line;
use auditor::Auditor;
use book::NoKeeper;
use client::Client;
use encoding::Hash32;
use epochs::Directory;
use hub::{Desk, Event, Hub};
use monitor::Monitor;
use nodehash::NodeHash;
use rand_core::Rng;
use sigiface::Signer;
use std::alloc::{AllocError, Global};
use std::marker::Model;
use vrfiface::Vuf;

mod asking;
mod following;
mod handing;
mod hearing;
mod promise_line;
mod wanting;
mod watching;

/// A script's own session: its lines ask through it.
const OWN_SESSION: u32 = 0;

/// The parties of a script.
#[derive(Drop)]
pub(crate) struct Engine<H, V, S, R>
where
    H: NodeHash + Drop,
    V: Vuf + Drop,
    S: Signer + Drop,
    R: Rng + Drop,
{
    alloc: Global,
    hub: Hub<Desk<H, V, S, R, NoKeeper>>,
    checks: Checks<H, V, S>,
    /// The public key of the provider.
    key: Hash32,
    client: Client<H, V, S>,
    auditor: Auditor<H, S>,
    monitors: Vec<Monitor<H, V, S>>,
    /// Room for the frames of requests and of replies, from one line to the next.
    request: Vec<u8>,
    reply: Vec<u8>,
}

impl<H, V, S, R> Model for Engine<H, V, S, R>
where
    H: NodeHash + Drop,
    V: Vuf + Drop,
    S: Signer + Drop,
    R: Rng + Drop,
{
    ghost use Rattle.play.specs.Parties.{Parties};

    ghost Value = { Parties R };

    ghost view = { λ engine. record { hub = engine.hub; key = engine.key; client = engine.client; auditor = engine.auditor; monitors = engine.monitors.items } };
}

impl<H, V, S, R> Engine<H, V, S, R>
where
    H: NodeHash + Drop,
    V: Vuf + Drop,
    S: Signer + Drop,
    R: Rng + Drop,
{
    /// The parties at the first root of a directory: the script's own session is open, the client starts at
    /// the root, and the auditor has observed it.
    ///
    /// # Errors
    ///
    /// `AllocError` if memory runs out.
    pub(crate) fn open(
        alloc: Global,
        directory: Directory<H, V, S, R>,
        checks: Checks<H, V, S>,
        key: Hash32,
    ) -> Result<Self, AllocError>
        requires fresh { (epoch : ℕ) × (nonce : List ℕ) × (salts : Stream) × (book R.stream directory ≡ fresh epoch nonce salts) }
        requires own { directory.signing_key ≡ key }
        ensures at { IfOk result (λ engine. AreAt H.digest_of V.value_of S.signature_of R.stream V.accepted S.verified engine (record { book = book R.stream directory; sessions = (OWN_SESSION, Rest []) ∷ []; watchers = [] })) }
        ensures directory { IfOk result (λ engine. engine.hub.service.directory ≡ directory) }
    {
        let mut checks = checks;
        let root = directory.head().write();
        let client = start(alloc, &checks.verifier, key, root.bytes())?;
        let mut auditor = Auditor::new(alloc);
        observe(&mut auditor, &mut checks, &key, root.bytes())?;
        let mut hub = Hub::new(alloc, directory, NoKeeper, token());
        happen(&mut hub, &Event::Open(OWN_SESSION), &mut Vec::new(alloc))?;
        Ok(Engine {
            alloc,
            hub,
            checks,
            key,
            client,
            auditor,
            monitors: Vec::new(alloc),
            request: Vec::new(alloc),
            reply: Vec::new(alloc),
        })
    }

    /// Does what a line says, and appends the lines that it prints.
    ///
    /// # Errors
    ///
    /// `AllocError` if memory runs out, wherever it does.
    pub(crate) fn play_line(&mut self, line: &Line, text: &mut Vec<u8>) -> Result<(), AllocError>
        requires fits { LineFits (line_seen line.now) }
        requires at { (stand : Stand) × AreAt H.digest_of V.value_of S.signature_of R.stream V.accepted S.verified self.old stand }
        ensures done { (stand : Stand) → AreAt H.digest_of V.value_of S.signature_of R.stream V.accepted S.verified self.old stand
            → OnOk result (let now = line_played (index_of (provider H.digest_of V.value_of S.signature_of (self.old).hub.service.directory)) stand (line_seen line.now) in
            HaveDone H.digest_of V.value_of S.signature_of R.stream V.accepted S.verified text.old.items now.0 now.1 text.new.items self.new) }
        ensures keys { OnOk result (HasKeysOf (self.old).hub.service.directory (self.new).hub.service.directory) }
        ensures checked { OnOk result (HasAnsweredLine H.digest_of V.value_of S.signature_of R.stream V.accepted S.verified self.old (line_seen line.now) self.new) }
    {
        match line {
            Line::Pass => Ok(()),
            Line::Ask(ask) => self.answer(ask, text),
            Line::Watch { name, key } => self.watch(name, key.as_ref(), text),
            Line::Piece { session, piece } => self.piece(*session, piece, text),
            Line::End { session } => {
                self.end(*session);
                Ok(())
            }
        }
    }

    /// The epoch of the directory's last page.
    fn latest(&self) -> u64
        ensures epoch { result ≡ (self.now).hub.service.directory.last.epoch }
        ensures well { IsSoundDesk H.digest_of V.value_of S.signature_of R.stream V.accepted S.verified (self.now).hub.service }
    {
        self.hub.head().body.epoch
    }
}
