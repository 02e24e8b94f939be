//! Messages of sessions: requests as the commands that they are, and what frames of replies tell of memory.

use crate::Case;
use commands::{Command, Edit};
use wire::Request;

/// The commands of the words that are left.
pub fn read_commands<'a>(case: &mut Case<'a>) -> Vec<Command<'a>> {
    let mut commands = Vec::new(case.alloc());
    for _ in 0..case.left() {
        let Some(command) = command(case.bytes()) else {
            case.spoil();
            return commands;
        };
        if commands.push(command).is_err() {
            case.lack_memory();
        }
    }
    commands
}

/// The command of a message: the kind and the body of a request.
fn command(message: &[u8]) -> Option<Command<'_>> {
    let (kind, body) = message.split_first()?;
    match Request::read(*kind, body) {
        Ok(Request::Query(query)) => Some(Command::Query(query)),
        Ok(Request::Put(put)) => Some(Command::Edit(Edit::Put(put))),
        Ok(Request::Turn { epoch, nonce, .. }) => Some(Command::Edit(Edit::Turn { epoch, nonce })),
        Err(_) => None,
    }
}

/// Whether one of these frames tells that the directory was out of memory.
pub fn tells_of_memory(frames: &[u8]) -> bool {
    let mut rest = frames;
    for _ in 0..frames.len() {
        let Some((frame, after)) = first_frame(rest) else {
            return false;
        };
        if frame == [0xff, 14].as_slice() {
            return true;
        }
        rest = after;
    }
    false
}

/// The kind and the body of the first frame, and what stands after it.
fn first_frame(frames: &[u8]) -> Option<(&[u8], &[u8])> {
    let (size, rest) = frames.split_at_checked(4)?;
    let size = u32::from_be_bytes(size.try_into().ok()?);
    rest.split_at_checked(size as usize)
}
