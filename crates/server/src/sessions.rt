//! The sessions of a hub, for the loop over connections. Each hears its stream in parts that end no more than
//! one message.
ghost use Rattle.std.specs.Prelude.{◌≡◌, false};
ghost use Rattle.hub.specs.DeskRuns.{IsSoundDesk};
ghost use Rattle.server.specs.Sessions.{is_unkept, session_fault};

use book::Keeper;
use connections::{SessionFault, Sessions};
use hub::{Desk, Event, Hub, HubRefusal, Service};
use nodehash::NodeHash;
use rand_core::Rng;
use sigiface::Signer;
use std::alloc::{AllocError, Global};
use vrfiface::Vuf;

/// The sessions of a hub.
#[derive(Drop)]
pub(crate) struct HubSessions<D: Service + Drop> {
    alloc: Global,
    hub: Hub<D>,
    /// An edit was refused because its record could not be kept.
    has_unkept: bool,
    tally: Tally,
}

/// How many answers were given, for reports.
#[derive(Clone, Copy)]
struct Tally {
    requests: u64,
    /// How many of them were refusals.
    refused: u64,
}

impl Tally {
    /// Counts what one message was answered, if it was.
    fn count(&mut self, answer: &[u8]) {
        if answer.is_empty() {
            return;
        }
        self.requests = self.requests.saturating_add(1);
        if answer.get(KIND_PLACE) == Some(&REFUSED) {
            self.refused = self.refused.saturating_add(1);
        }
    }
}

impl<D: Service + Drop> HubSessions<D> {
    pub(crate) fn new(alloc: Global, hub: Hub<D>) -> Self
        ensures hub { result.hub ≡ hub }
        ensures none { result.has_unkept ≡ false }
    {
        HubSessions {
            alloc,
            hub,
            has_unkept: false,
            tally: Tally {
                requests: 0,
                refused: 0,
            },
        }
    }
}

impl<H, V, S, R, K> HubSessions<Desk<H, V, S, R, K>>
where
    H: NodeHash + Drop,
    V: Vuf + Drop,
    S: Signer + Drop,
    R: Rng + Drop,
    K: Keeper + Drop,
{
    /// What the types keep of the desk: its clause leads from what is answered to a run of the directory.
    pub(crate) fn head(&self)
        ensures well { IsSoundDesk H.digest_of V.value_of S.signature_of R.stream V.accepted S.verified self.now.hub.service }
    {
        self.hub.head();
    }
}

/// Why a session was not opened, or did not hear.
fn fault_of(refusal: HubRefusal) -> SessionFault
    ensures { result ≡ session_fault refusal }
{
    match refusal {
        HubRefusal::Memory { .. } => SessionFault::Memory,
        HubRefusal::TooManySessions | HubRefusal::SessionOpen | HubRefusal::NoSession => {
            SessionFault::Refused
        }
    }
}

/// Where the kind of an answer stands, behind the four bytes of its length.
const KIND_PLACE: usize = 4;

/// The kind of a refusal.
const REFUSED: u8 = 255;

/// The answer to an edit whose record could not be kept.
static UNKEPT: &[u8] = &[0, 0, 0, 2, 255, 19];

/// Whether an answer refuses an edit because its record could not be kept.
fn is_unkept(answer: &[u8]) -> bool
    ensures { result ≡ is_unkept answer.now }
{
    answer == UNKEPT
}

impl<D: Service + Drop> Sessions for HubSessions<D> {
    ghost use Rattle.std.specs.Prelude.{◌≡◌, ◌||◌};
    ghost use Rattle.server.specs.Sessions.{is_unkept, Ended, Heard, Missed, Opened, Unopened};

    ghost opens = { λ before session after. Opened D.answers before.hub session after.hub × (after.has_unkept ≡ before.has_unkept) };

    ghost refuses = { λ before session why. Unopened before.hub session why };

    ghost hears = { λ before session part reply after. Heard D.answers before.hub session part reply after.hub × (after.has_unkept ≡ (is_unkept reply || before.has_unkept)) };

    ghost misses = { λ before session part why after. Missed D.answers before.hub session part why after.hub × (after.has_unkept ≡ before.has_unkept) };

    ghost ends = { λ before session after. Ended D.answers before.hub session after.hub × (after.has_unkept ≡ before.has_unkept) };

    ghost is_unkept = { is_unkept };

    ghost any_unkept = { λ sessions. sessions.has_unkept };

    ghost opens_as = { λ before session after opened. opened.1 };

    ghost hears_as = { λ before session part reply after heard. heard.1 };

    ghost misses_as = { λ before session part why after missed. missed.1 };

    ghost ends_as = { λ before session after ended. ended.1 };

    fn open(&mut self, session: usize) -> Result<(), SessionFault> {
        let Ok(number) = u32::try_from(session) else {
            return Err(SessionFault::Refused);
        };
        let mut nothing = Vec::new(self.alloc);
        match self.hub.event(&Event::Open(number), &mut nothing) {
            Ok(()) => Ok(()),
            Err(refusal) => Err(fault_of(refusal)),
        }
    }

    fn hear(
        &mut self,
        session: usize,
        bytes: &[u8],
        output: &mut Vec<u8>,
    ) -> Result<usize, SessionFault> {
        let Ok(number) = u32::try_from(session) else {
            return Err(SessionFault::Refused);
        };
        let count = self.hub.part(number, bytes);
        let before = output.len();
        match self
            .hub
            .event(&Event::Bytes(number, &bytes[..count]), output)
        {
            Ok(()) => {
                let answer = &output[before..];
                self.tally.count(answer);
                self.has_unkept = is_unkept(answer) || self.has_unkept;
                Ok(count)
            }
            Err(refusal) => Err(fault_of(refusal)),
        }
    }

    fn end(&mut self, session: usize) {
        let Ok(number) = u32::try_from(session) else {
            return;
        };
        let mut nothing = Vec::new(self.alloc);
        let _ended = self.hub.event(&Event::End(number), &mut nothing);
    }

    fn has_unkept(&self) -> bool {
        self.has_unkept
    }

    fn report(&self, alloc: Global) -> Result<String, AllocError> {
        let (service, Tally { requests, refused }) = (self.hub.report()?, self.tally);
        format!(in alloc; "{service} requests={requests} refused={refused}")
    }
}
