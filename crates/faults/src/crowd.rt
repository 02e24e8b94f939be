// Many connections at once, by a script.
use crate::echoes::Echoes;
use crate::peers::{Act, Change, Peer, Peers};
use connections::{Ending, Limits, Places, answer_all};
use questions::Case;
use std::alloc::AllocError;

/// The most places, connections of an act, and bytes that an act counts.
const MOST: usize = 1024;

const MOST_BYTES: usize = 1 << 20;

/// The most connections that are told one by one.
const FEW: usize = 8;

fn read_change<'a>(verb: &[u8], case: &mut Case<'a>) -> Change<'a> {
    match verb {
        b"give" => Change::Gives(case.bytes()),
        b"over" => Change::IsOver,
        b"piece" => Change::Piece(case.number_to(MOST_BYTES)),
        b"width" => Change::Width(case.number_to(MOST_BYTES)),
        b"room" => Change::Room(case.number_to(MOST_BYTES)),
        b"read-fails" => Change::ReadFails(case.number_to(MOST_BYTES)),
        b"write-fails" => Change::WriteFails(case.number_to(MOST_BYTES)),
        _ => {
            case.spoil();
            Change::IsOver
        }
    }
}

fn read_act<'a>(case: &mut Case<'a>) -> Act<'a> {
    match case.word() {
        b"at" => Act::At(case.number()),
        b"come" => Act::Come(case.number_to(MOST)),
        b"stop" => Act::Stop,
        b"unsynced" => Act::Unsynced,
        verb => {
            let first = case.number_to(MOST);
            let count = case.number_to(MOST);
            Act::To(first, count, read_change(verb, case))
        }
    }
}

/// The acts of the words that are left.
fn read_acts<'a>(case: &mut Case<'a>) -> Result<Vec<Act<'a>>, AllocError> {
    let mut acts = Vec::new(case.alloc());
    for _ in 0..case.left() {
        if case.left() == 0 {
            break;
        }
        acts.push(read_act(case))?;
    }
    Ok(acts)
}

/// Why a connection was closed.
fn reason(ending: Option<Ending>) -> &'static str {
    match ending {
        None => "waiting",
        Some(Ending::Done) => "done",
        Some(Ending::Fault) => "fault",
        Some(Ending::Idle) => "idle",
        Some(Ending::Stopped) => "stopped",
        Some(Ending::Unsynced) => "unsynced",
        Some(Ending::Memory) => "memory",
        Some(Ending::Refused) => "refused",
    }
}

/// Tells how many bytes were read of each connection, why it was closed, and what it took.
fn tell_each(case: &mut Case<'_>, peers: &[Peer]) {
    for peer in peers {
        case.say_shown(peer.read);
        case.say(reason(peer.ending));
        case.say_bytes(&peer.taken);
    }
}

/// The same of many, in a line for each: the reason, and what it took.
fn tell_all(case: &mut Case<'_>, peers: &[Peer]) -> Result<(), AllocError> {
    let mut lines = Vec::new(case.alloc());
    for peer in peers {
        lines.extend_from_slice(reason(peer.ending).as_bytes())?;
        lines.push(b' ')?;
        lines.extend_from_slice(&peer.taken)?;
        lines.push(b'\n')?;
    }
    case.say_shown(peers.len());
    case.say_bytes(&lines);
    Ok(())
}

/// Runs the loop, with a report every so many milliseconds.
fn run(case: &mut Case<'_>, report: u64) -> Result<(), AllocError> {
    let alloc = case.alloc();
    let count = case.number_to(MOST);
    let most = case.number_to(MOST);
    let limits = Limits {
        count: case.number(),
        idle: case.number(),
        report,
    };
    let acts = read_acts(case)?;
    let mut echoes = Echoes::new(alloc, count, most)?;
    let mut peers = Peers::new(alloc, &acts, count)?;
    let mut errors = Vec::new(alloc);
    let places = Places::free(alloc, count)?;
    answer_all(alloc, places, &mut echoes, &mut peers, limits, &mut errors);
    if peers.lacks_memory {
        return Err(AllocError);
    }
    if peers.peers.len() > FEW {
        tell_all(case, &peers.peers)?;
    } else {
        tell_each(case, &peers.peers);
    }
    case.say_text(&errors);
    Ok(())
}

/// `crowd PLACES OPEN COUNT IDLE ACT..`: at so many places, of sessions of which so many may be open, so many
/// connections, of which one may be idle for so long.
pub(crate) fn crowd(case: &mut Case<'_>) {
    if run(case, 0).is_err() {
        case.lack_memory();
    }
}

/// `reports EVERY PLACES OPEN COUNT IDLE ACT..`: the same, with a report every so many milliseconds.
pub(crate) fn reports(case: &mut Case<'_>) {
    let report = case.number();
    if run(case, report).is_err() {
        case.lack_memory();
    }
}
