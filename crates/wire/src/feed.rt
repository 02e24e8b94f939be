//! A stream in pieces. The buffer keeps the bytes behind the last frame that was taken: taking a frame
//! moves only the place where the next one begins, and the bytes before it fall when the next piece comes.
ghost use Rattle.std.specs.Prelude.{◌≡◌, ◌≢◌, ◌↔◌, ◌≤◌, [], ℕ, List, length, drop, take, IsTrue, IsOk, OnErr, OnOk, IsErrOf};
ghost use Rattle.encoding.specs.Bytes.{IsBytes};
ghost use Rattle.wire.specs.Streams.{Remainder, Rest, Failed, missing_of, part_of, with_more, EndsOne, Waits};

use crate::FeedRefusal;
use crate::frame::{Front, front_of};
use encoding::Cursor;
use std::alloc::Global;
use std::marker::Model;

/// The number of bytes of a frame's length.
pub const LENGTH_SIZE: usize = 4;

/// What a feed has next.
#[derive(Debug, Drop)]
pub enum Next<'a> {
    /// A whole frame: its kind and its body.
    Frame(u8, &'a [u8]),
    /// Less than a frame.
    Wait,
    /// A length that no frame has. A feed that failed stays so.
    Failed,
}

/// A stream that comes in pieces: its bytes after the last frame that was taken. They stand in the
/// buffer from a place on, which alone moves when a frame is taken.
#[derive(Drop)]
pub struct Feed {
    buffer: Vec<u8>,
    from: usize,
    failed: bool,
}

impl Model for Feed {
    ghost use Rattle.std.specs.Prelude.{drop, length, ◌≤◌, if◌then◌else◌};
    ghost use Rattle.wire.specs.Streams.{Remainder, Rest, Failed};

    ghost Value = { Remainder };

    ghost view = { λ feed. if feed.failed then Failed else Rest (drop feed.from feed.buffer.items) };

    ghost invariant = { λ feed. feed.from ≤ length feed.buffer.items };
}

impl Feed {
    ghost use Rattle.std.specs.Borrow.{sem, follows_so};
    ghost use mathlib.Core.Option.{none};
    ghost use Rattle.std.specs.Prelude.{⊤, []};
    ghost use Rattle.wire.specs.Streams.{GivesNext};
    ghost use Rattle.wire.specs.contracts.feed.Feed.{the_row};

    /// A stream of which nothing has come.
    pub fn new(alloc: Global) -> Feed
        ensures { result ≡ Rest [] }
    {
        Feed {
            buffer: Vec::new(alloc),
            from: 0,
            failed: false,
        }
    }

    /// Takes the next piece of the stream. An empty one does not allocate and moves no byte.
    ///
    /// # Errors
    ///
    /// `BadFrame` if the stream failed, else `Memory` if memory runs out. The feed then stays as it
    /// was.
    pub fn feed(&mut self, piece: &[u8]) -> Result<(), FeedRefusal>
        ensures ok { OnOk result (self.new ≡ with_more self.old piece.now) }
        ensures err { OnErr result (self.new ≡ self.old) }
        ensures failed { IsErrOf result FeedRefusal.BadFrame ↔ (self.old ≡ Failed) }
        ensures empty { piece.now ≡ [] → self.old ≢ Failed → IsOk result }
    {
        if self.failed {
            return Err(FeedRefusal::BadFrame);
        }
        if piece.is_empty() {
            return Ok(());
        }
        drop_front(&mut self.buffer, self.from);
        self.from = 0;
        self.buffer.extend_from_slice(piece)?;
        Ok(())
    }

    /// Whether `next` would not return `Wait`.
    pub fn ready(&self) -> bool
        ensures { IsTrue result ↔ (¬ Waits self.now) }
    {
        if self.failed {
            return true;
        }
        !matches!(front_of(&self.buffer[self.from..]), Front::Short)
    }

    /// How many of these bytes, from the front on, are the next part of the stream: the rest of a frame's
    /// length, or the rest of its bytes, or as much of these as is there; one byte behind a whole frame, and all
    /// of a stream that failed. A part ends at most one message.
    pub fn part(&self, bytes: &[u8]) -> usize
        ensures some { bytes.now ≢ [] → 1 ≤ result }
        ensures most { result ≤ length bytes.now }
        ensures one { EndsOne self.now (take result bytes.now) }
        ensures size { result ≡ part_of self.now (length bytes.now) }
    {
        if self.failed {
            return bytes.len();
        }
        bytes.len().min(missing(&self.buffer[self.from..]))
    }

    /// Takes the next frame, if it is whole, and lends it.
    // The clause says that the answer, and the feed once the loan has ended, are as `GivesNext` has them.
    pub fn next(&mut self) -> Next<'_>
        ensures* gives { sem 𝓛 (follows_so the_row the_row self.entry.ghost_name none (λ _ _. ⊤) (λ held. GivesNext self.old result held)) }
    {
        if self.failed {
            return Next::Failed;
        }
        match front_of(&self.buffer[self.from..]) {
            Front::Whole(frame) => {
                self.from = self.from + 5 + frame.body.len();
                Next::Frame(frame.kind, frame.body)
            }
            Front::Short => Next::Wait,
            Front::Bad => {
                self.failed = true;
                Next::Failed
            }
        }
    }
}

/// How many bytes are missing to the end of a frame's length, or of the frame, of which these have come. Where
/// none are, it is one.
fn missing(held: &[u8]) -> usize
    ensures some { 1 ≤ result }
    ensures one { (part : List ℕ) → IsBytes part → length part ≤ result → EndsOne (Rest held.now) part }
    ensures missing { result ≡ missing_of held.now }
{
    let whole = match Cursor::new(held).u32() {
        Ok(size) => LENGTH_SIZE + size as usize,
        Err(_) => LENGTH_SIZE,
    };
    whole.saturating_sub(held.len()).max(1)
}

/// Drops the first `count` bytes and moves the others to the front. Moves nothing if `count` is 0.
fn drop_front(buffer: &mut Vec<u8>, count: usize)
    requires { count ≤ length buffer.old.items }
    ensures { buffer.new.items ≡ drop count buffer.old.items }
{
    if count == 0 {
        return;
    }
    let left = buffer.len() - count;
    buffer.copy_within(count.., 0);
    buffer.truncate(left);
}
