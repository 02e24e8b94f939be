//! A session takes a piece, and its whole messages are answered in order. Room for the longest reply is
//! reserved before a frame is taken, so a message that is taken is answered; where there is no room, it
//! stays in the feed with all that follows.
ghost use Rattle.std.specs.Prelude.{◌≡◌, ◌≢◌, ◌+◌, ◌<◌, ◌≤◌, ◌++◌, vec_len, vec_capacity, OnErr};
ghost use Rattle.wire.specs.Streams.{Failed};
ghost use Rattle.hub.specs.Exchanges.{refused_frame, Drained, HearsPiece, LacksRoom};
ghost use Rattle.wire.specs.declared.answer.TheConstants.{MAX_ANSWER_LEN};

use crate::{HubRefusal, Service};
use std::alloc::AllocError;
use wire::{Answer, Feed, FeedRefusal, MAX_ANSWER_LEN, Next};

/// Takes a piece, and answers each message that is whole now.
pub(crate) fn hear<S: Service>(
    service: &mut S,
    feed: &mut Feed,
    piece: &[u8],
    output: &mut Vec<u8>,
) -> Result<(), HubRefusal>
    ensures hears { HearsPiece S.answers service.old feed.old piece.now output.old.items result service.new feed.new output.new.items }
    ensures room { LacksRoom result (vec_len output.new) (vec_capacity output.new) }
{
    match feed.feed(piece) {
        Err(FeedRefusal::BadFrame) => Ok(()),
        Err(FeedRefusal::Memory) => Err(HubRefusal::Memory { taken: false }),
        Ok(()) => match drain(service, feed, output) {
            Ok(()) => Ok(()),
            Err(_) => Err(HubRefusal::Memory { taken: true }),
        },
    }
}

/// Answers each whole message that a session holds. Room for the longest reply is reserved before
/// each, so that an answer that is made goes out. Where there is no room, the rest waits.
fn drain<S: Service>(
    service: &mut S,
    feed: &mut Feed,
    output: &mut Vec<u8>,
) -> Result<(), AllocError>
    requires { feed.old ≢ Failed }
    ensures drained { Drained S.answers service.old feed.old output.old.items result service.new feed.new output.new.items }
    ensures room { OnErr result (vec_capacity output.new < vec_len output.new + MAX_ANSWER_LEN) }
{
    while feed.ready() {
        output.reserve(MAX_ANSWER_LEN)?;
        match feed.next() {
            Next::Frame(kind, body) => service.answer(kind, body, output),
            Next::Failed => {
                write_refused(FeedRefusal::BadFrame.number(), output);
                return Ok(());
            }
            Next::Wait => unreachable!(),
        }
    }
    Ok(())
}

/// Appends the frame of a refusal, into room that is there.
pub(crate) fn write_refused(code: u8, output: &mut Vec<u8>)
    requires { vec_len output.old + MAX_ANSWER_LEN ≤ vec_capacity output.old }
    ensures { output.new.items ≡ output.old.items ++ refused_frame code }
{
    let written = Answer::Refused(code).write(output).is_ok();
    prove!(written);
}
