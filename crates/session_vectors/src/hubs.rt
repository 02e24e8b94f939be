//! Of `hub`: a hub, which stays for the next lines, and runs of fresh ones.

use crate::directories::{First, common_secrets, make_keyed, read_first};
use crate::seen;
use book::{NoKeeper, Refusal};
use encoding::Hash32;
use hub::{Event, Hub, HubRefusal};
use questions::{Case, tells_of_memory};
use server::ServedDesk;
use std::alloc::{AllocError, Global};

/// The token of the operator.
pub(crate) const TOKEN: [u8; 32] = [4; 32];

/// An event that was asked for.
#[derive(Drop)]
enum Past {
    Open(u32),
    Bytes(u32, Vec<u8>),
    End(u32),
}

impl Past {
    fn of(alloc: Global, event: &Event<'_>) -> Result<Past, AllocError> {
        match event {
            Event::Open(session) => Ok(Past::Open(*session)),
            Event::Bytes(session, piece) => {
                Ok(Past::Bytes(*session, Vec::from_slice(alloc, piece)?))
            }
            Event::End(session) => Ok(Past::End(*session)),
        }
    }

    fn event(&self) -> Event<'_> {
        match self {
            Past::Open(session) => Event::Open(*session),
            Past::Bytes(session, piece) => Event::Bytes(*session, piece),
            Past::End(session) => Event::End(*session),
        }
    }
}

/// A hub, and how it came to be: one in which memory ran out is made once more.
#[derive(Drop)]
pub(crate) struct KeptHub {
    first: First,
    past: Vec<Past>,
    hub: Option<Hub<ServedDesk<NoKeeper>>>,
}

impl KeptHub {
    /// No hub.
    pub(crate) fn new(alloc: Global) -> KeptHub {
        KeptHub {
            first: First {
                epoch: 0,
                nonce: Hash32::default(),
            },
            past: Vec::new(alloc),
            hub: None,
        }
    }

    /// Makes the hub once more, if it is gone and there was one.
    fn make_again(&mut self, case: &mut Case<'_>) {
        if self.hub.is_some() || self.first.epoch == 0 {
            return;
        }
        match make(case.alloc(), &self.first) {
            Ok(hub) => self.hub = live_again(case, hub, &self.past),
            Err(_) => case.lack_memory(),
        }
    }
}

fn make(alloc: Global, first: &First) -> Result<Hub<ServedDesk<NoKeeper>>, Refusal> {
    match make_keyed(alloc, first, &common_secrets()) {
        Ok(directory) => Ok(Hub::new(alloc, directory, NoKeeper, Hash32::new(TOKEN))),
        Err(why) => Err(why),
    }
}

/// The hub after these events, if memory did not run out again.
fn live_again(
    case: &mut Case<'_>,
    made: Hub<ServedDesk<NoKeeper>>,
    past: &[Past],
) -> Option<Hub<ServedDesk<NoKeeper>>> {
    let mut hub = made;
    let mut output = Vec::new(case.alloc());
    for event in past {
        output.clear();
        let heard = hub.event(&event.event(), &mut output);
        if wanted_memory(heard, &output) {
            case.lack_memory();
            return None;
        }
    }
    Some(hub)
}

/// Whether the hub or its directory wanted memory.
fn wanted_memory(heard: Result<(), HubRefusal>, output: &[u8]) -> bool {
    matches!(heard, Err(HubRefusal::Memory { .. })) || tells_of_memory(output)
}

pub(crate) fn answer(case: &mut Case<'_>, kept: &mut KeptHub) {
    match case.word() {
        b"new" => new(case, kept),
        b"run" => run(case),
        b"run-on" => run_again(case),
        b"seen" => seen::answer_keyed(case),
        b"seen-sum" => seen::answer_summed(case),
        b"head" => head(case, kept),
        verb => {
            if let Some(event) = event(case, verb) {
                happen(case, kept, &event);
            }
        }
    }
}

pub(crate) fn refuse(case: &mut Case<'_>, why: Refusal) {
    if why == Refusal::Memory {
        case.lack_memory();
    }
    case.refuse(why.number(), why);
}

/// `new EPOCH NONCE`
fn new(case: &mut Case<'_>, kept: &mut KeptHub) {
    let first = read_first(case);
    if case.is_spoiled() {
        return;
    }
    match make(case.alloc(), &first) {
        Ok(hub) => {
            keep_hub(case.alloc(), kept, first, hub);
            case.say("ok");
        }
        Err(why) => refuse(case, why),
    }
}

/// `head`
fn head(case: &mut Case<'_>, kept: &mut KeptHub) {
    kept.make_again(case);
    match &kept.hub {
        Some(hub) => case.say_bytes(hub.head().write().bytes()),
        None => case.spoil(),
    }
}

fn keep_hub(alloc: Global, kept: &mut KeptHub, first: First, hub: Hub<ServedDesk<NoKeeper>>) {
    *kept = KeptHub {
        first,
        past: Vec::new(alloc),
        hub: Some(hub),
    };
}

/// The event of this verb: `open S`, `bytes S PIECE`, `end S`.
fn event<'a>(case: &mut Case<'a>, verb: &[u8]) -> Option<Event<'a>> {
    let session = case.number_to(u32::MAX as usize) as u32;
    let event = match verb {
        b"open" => Event::Open(session),
        b"bytes" => Event::Bytes(session, case.bytes()),
        b"end" => Event::End(session),
        _ => {
            case.spoil();
            return None;
        }
    };
    if case.is_spoiled() {
        return None;
    }
    Some(event)
}

/// Lets the kept hub handle an event, and tells what comes out.
fn happen(case: &mut Case<'_>, kept: &mut KeptHub, event: &Event<'_>) {
    kept.make_again(case);
    let Some(hub) = &mut kept.hub else {
        return case.spoil();
    };
    let mut output = Vec::new(case.alloc());
    let heard = hear(hub, event, &mut output);
    // An event that comes once more is not kept before.
    if wanted_memory(heard, &output) || keep(case.alloc(), &mut kept.past, event).is_err() {
        kept.hub = None;
        return case.lack_memory();
    }
    tell(case, heard, &output);
}

/// Lets the hub handle an event. If memory ran out before the event was taken, it comes once more; if
/// after, an empty piece goes on with what waits.
fn hear(
    hub: &mut Hub<ServedDesk<NoKeeper>>,
    event: &Event<'_>,
    output: &mut Vec<u8>,
) -> Result<(), HubRefusal> {
    match hub.event(event, output) {
        Err(HubRefusal::Memory { taken: false }) => hub.event(event, output),
        Err(HubRefusal::Memory { taken: true }) => go_on(hub, event, output),
        heard => heard,
    }
}

fn go_on(
    hub: &mut Hub<ServedDesk<NoKeeper>>,
    event: &Event<'_>,
    output: &mut Vec<u8>,
) -> Result<(), HubRefusal> {
    match event {
        Event::Bytes(session, _) => hub.event(&Event::Bytes(*session, &[]), output),
        Event::Open(_) | Event::End(_) => Ok(()),
    }
}

/// Keeps the event, for a hub that is made once more.
fn keep(alloc: Global, past: &mut Vec<Past>, event: &Event<'_>) -> Result<(), AllocError> {
    past.push(Past::of(alloc, event)?)?;
    Ok(())
}

fn tell(case: &mut Case<'_>, heard: Result<(), HubRefusal>, output: &[u8]) {
    match heard {
        Ok(()) => case.say_bytes(output),
        Err(why) => case.refuse(why.number(), why),
    }
}

/// `run EPOCH NONCE (open S|bytes S PIECE|end S)..`
fn run(case: &mut Case<'_>) {
    let first = read_first(case);
    let events = events(case);
    if case.is_spoiled() {
        return;
    }
    match make(case.alloc(), &first) {
        Ok(hub) => run_on(case, hub, &events),
        Err(why) => refuse(case, why),
    }
}

/// The most events of a first run.
const MOST_EVENTS: usize = 1000;

/// `run-on EPOCH NONCE COUNT (open S|bytes S PIECE|end S)..`: a run of so many events, and one of the rest.
fn run_again(case: &mut Case<'_>) {
    let first = read_first(case);
    let count = case.number_to(MOST_EVENTS);
    let events = events(case);
    let Some((before, after)) = events.split_at_checked(count) else {
        return case.spoil();
    };
    if case.is_spoiled() {
        return;
    }
    match make(case.alloc(), &first) {
        Ok(hub) => run_in_turn(case, hub, before, after),
        Err(why) => refuse(case, why),
    }
}

fn run_in_turn(
    case: &mut Case<'_>,
    made: Hub<ServedDesk<NoKeeper>>,
    before: &[Event<'_>],
    after: &[Event<'_>],
) {
    let mut hub = made;
    match hub.run(before) {
        Ok(_) => run_on(case, hub, after),
        Err(_) => case.lack_memory(),
    }
}

/// The events of the words that are left.
pub(crate) fn events<'a>(case: &mut Case<'a>) -> Vec<Event<'a>> {
    let mut events = Vec::new(case.alloc());
    for _ in 0..case.left() {
        if case.left() == 0 {
            return events;
        }
        let verb = case.word();
        let Some(event) = event(case, verb) else {
            return events;
        };
        if events.push(event).is_err() {
            case.lack_memory();
        }
    }
    events
}

fn run_on(case: &mut Case<'_>, made: Hub<ServedDesk<NoKeeper>>, events: &[Event<'_>]) {
    let mut hub = made;
    match hub.run(events) {
        Ok(outputs) => tell_outputs(case, &outputs),
        Err(_) => case.lack_memory(),
    }
}

fn tell_outputs(case: &mut Case<'_>, outputs: &[(u32, Vec<u8>)]) {
    if outputs.is_empty() {
        return case.say("-");
    }
    for (session, output) in outputs {
        if tells_of_memory(output) {
            case.lack_memory();
        }
        case.say_shown(*session);
        case.join(":");
        case.join_bytes(output);
    }
}
