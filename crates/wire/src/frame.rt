ghost use Rattle.std.specs.Prelude.{◌↔◌, IsTrue};
ghost use Rattle.encoding.specs.Reading.{Gives};
ghost use Rattle.wire.specs.Frames.{read_frame, IsFrameSize};
ghost use Rattle.wire.specs.FrameViews.{frame_seen, BeginsWith};

use encoding::{Cursor, Fault};

/// The most bytes that the kind and the body of a frame have.
pub const MAX_FRAME_LEN: usize = 65536;

/// A frame where it lies in the bytes of a stream.
#[derive(Drop)]
pub struct FrameView<'a> {
    pub kind: u8,
    pub body: &'a [u8],
}

/// Whether the kind and the body of a frame may have so many bytes.
#[inline(always)]
pub fn is_frame_size(size: usize) -> bool
    ensures { IsTrue result ↔ IsFrameSize size }
{
    1 <= size && size <= MAX_FRAME_LEN
}

/// The frame at the front of the bytes.
#[tactic(auto, unfolding(crate::specs::Frames::read_frame))]
fn read_frame<'a>(cursor: &mut Cursor<'a>) -> Result<FrameView<'a>, Fault>
    ensures { Gives frame_seen result cursor.new (read_frame cursor.old) }
{
    let size = cursor.u32()? as usize;
    if !is_frame_size(size) {
        return Err(Fault::OutOfRange);
    }
    Ok(FrameView {
        kind: cursor.u8()?,
        body: cursor.take(size - 1)?,
    })
}

/// What the bytes of a stream begin with.
#[derive(Drop)]
pub enum Front<'a> {
    /// A frame that is whole.
    Whole(FrameView<'a>),
    /// Less than a frame.
    Short,
    /// A number of bytes that no frame has.
    Bad,
}

/// What these bytes begin with.
#[tactic(auto, using(crate::proofs::Faults::begins_with_whole, crate::proofs::Faults::is_bad))]
pub fn front_of<'a>(bytes: &'a [u8]) -> Front<'a>
    ensures { BeginsWith bytes.entry.now result }
{
    let mut cursor = Cursor::new(bytes);
    match read_frame(&mut cursor) {
        Ok(frame) => Front::Whole(frame),
        Err(fault) => {
            if fault == Fault::Short {
                Front::Short
            } else {
                Front::Bad
            }
        }
    }
}
