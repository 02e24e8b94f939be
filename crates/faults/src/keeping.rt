// Each record fails to be kept, in turn.
use crate::devices::LossyKeeper;
use crate::provider::{self, Provided};
use book::{Keeper, Refusal, Reply};
use commands::Command;
use hub::{Event, HubRefusal};
use provider::ProvidedHub;
use questions::{Case, read_commands, tells_of_memory};
use std::alloc::{AllocError, Global};

/// What a directory is asked.
#[derive(Drop)]
enum Asked<'a> {
    /// By calls.
    Commands(Vec<Command<'a>>),
    /// In a session of a hub, by a stream of frames in pieces of so many bytes.
    Stream { piece: usize, frames: &'a [u8] },
}

/// Appends what a reply has: its bytes, or the number of its refusal.
fn push_reply(output: &mut Vec<u8>, reply: &Reply) -> Result<(), AllocError> {
    match reply {
        Reply::Promised(promise) => output.extend_from_slice(promise.write().bytes()),
        Reply::Found(text) => output.extend_from_slice(text.bytes()),
        Reply::Told(roots) => {
            for root in roots {
                output.extend_from_slice(root.write().bytes())?;
            }
            Ok(())
        }
        Reply::Last(root) => output.extend_from_slice(root.write().bytes()),
        Reply::Refused(Refusal::Memory) => Err(AllocError),
        Reply::Refused(why) => output.extend_from_slice(&[why.number()]),
    }
}

/// Appends the replies of a directory.
pub(crate) fn ask_directory<K: Keeper>(
    directory: &mut Provided,
    keeper: &mut K,
    commands: &[Command<'_>],
    output: &mut Vec<u8>,
) -> Result<(), AllocError> {
    let replies = directory.run(keeper, commands)?;
    for reply in &replies {
        push_reply(output, reply)?;
    }
    Ok(())
}

/// Appends the replies of a new directory.
fn ask_new_directory(
    alloc: Global,
    keeper: &mut LossyKeeper,
    commands: &[Command<'_>],
    output: &mut Vec<u8>,
) -> Result<(), AllocError> {
    let mut directory = provider::directory(alloc)?;
    ask_directory(&mut directory, keeper, commands, output)
}

/// The number of the session.
const SESSION: u32 = 1;

/// Hands a piece to the session. Where memory runs out, the piece comes once more, or an empty one where it
/// was taken: no message is lost, and none is answered twice.
fn hear(
    hub: &mut ProvidedHub<LossyKeeper>,
    piece: &[u8],
    output: &mut Vec<u8>,
) -> Result<(), AllocError> {
    let heard = match hub.event(&Event::Bytes(SESSION, piece), output) {
        Err(HubRefusal::Memory { taken: false }) => {
            hub.event(&Event::Bytes(SESSION, piece), output)
        }
        Err(HubRefusal::Memory { taken: true }) => hub.event(&Event::Bytes(SESSION, &[]), output),
        heard => heard,
    };
    heard.map_err(|_| AllocError)
}

/// Appends the replies of a new hub.
fn ask_hub(
    alloc: Global,
    keeper: LossyKeeper,
    piece: usize,
    frames: &[u8],
    output: &mut Vec<u8>,
) -> Result<(), AllocError> {
    let mut hub = provider::hub(alloc, keeper)?;
    if hub.event(&Event::Open(SESSION), output).is_err() {
        return Err(AllocError);
    }
    for piece in frames.chunks(piece.max(1)) {
        hear(&mut hub, piece, output)?;
    }
    if tells_of_memory(output) {
        return Err(AllocError);
    }
    Ok(())
}

/// Writes the replies, where the keeper fails at this call.
fn ask(
    alloc: Global,
    asked: &Asked<'_>,
    failing: Option<u64>,
    output: &mut Vec<u8>,
) -> Result<(), AllocError> {
    output.clear();
    let mut keeper = LossyKeeper::new(failing);
    match asked {
        Asked::Commands(commands) => ask_new_directory(alloc, &mut keeper, commands, output),
        Asked::Stream { piece, frames } => ask_hub(alloc, keeper, *piece, frames, output),
    }
}

/// Tells the replies where no record fails, and then where the first one fails, the second one, and so on,
/// until none fails.
fn sweep(case: &mut Case<'_>, asked: &Asked<'_>) -> Result<(), AllocError> {
    let mut whole = Vec::new(case.alloc());
    let mut output = Vec::new(case.alloc());
    ask(case.alloc(), asked, None, &mut whole)?;
    case.say_bytes(&whole);
    for failing in 0..u64::MAX {
        ask(case.alloc(), asked, Some(failing), &mut output)?;
        if output == whole {
            break;
        }
        case.say_bytes(&output);
    }
    Ok(())
}

fn answer(case: &mut Case<'_>, asked: &Asked<'_>) {
    if sweep(case, asked).is_err() {
        case.lack_memory();
    }
}

/// `directory MESSAGE..`
pub(crate) fn directory(case: &mut Case<'_>) {
    let commands = read_commands(case);
    answer(case, &Asked::Commands(commands));
}

/// `hub PIECE FRAMES`
pub(crate) fn hub(case: &mut Case<'_>) {
    let piece = case.number_to(4096);
    let frames = case.bytes();
    answer(case, &Asked::Stream { piece, frames });
}

/// Tells how many bytes of replies a piece brings. If memory ran out once it was taken, tells the refusal, and how
/// many an empty piece then brings.
fn tell_piece(case: &mut Case<'_>, piece: &[u8]) -> Result<(), AllocError> {
    let mut output = Vec::new(case.alloc());
    let mut hub = provider::hub(case.alloc(), LossyKeeper::new(None))?;
    if hub.event(&Event::Open(SESSION), &mut output).is_err() {
        return Err(AllocError);
    }
    let heard = hub.event(&Event::Bytes(SESSION, piece), &mut output);
    case.say_shown(output.len());
    match heard {
        Ok(()) => Ok(()),
        Err(HubRefusal::Memory { taken: true }) => {
            case.say("14");
            output.clear();
            match hub.event(&Event::Bytes(SESSION, &[]), &mut output) {
                Ok(()) => {
                    case.say_shown(output.len());
                    Ok(())
                }
                Err(_) => Err(AllocError),
            }
        }
        Err(_) => Err(AllocError),
    }
}

/// `piece FRAMES`
pub(crate) fn piece(case: &mut Case<'_>) {
    let frames = case.bytes();
    if tell_piece(case, frames).is_err() {
        case.lack_memory();
    }
}
