use crate::run::Run;
use crate::sessions::write_head;
use wire::{Feed, Next};

/// The step of so many frames of a piece that comes so often: counts the frames.
fn take_frames(run: &Run, piece: &[u8], frames: usize, times: usize) {
    let mut feed = Feed::new(run.alloc());
    let mut taken: u64 = 0;
    for _ in 0..times {
        if feed.feed(piece).is_err() {
            run.fail();
        }
        for _ in 0..frames {
            if matches!(feed.next(), Next::Frame(..)) {
                taken = taken.wrapping_add(1);
            }
        }
    }
    run.step(taken);
}

/// `feed FRAMES TIMES`. The one step: so many frames of a piece that comes so often, each of which asks for
/// the head.
pub(crate) fn measure(run: &Run, numbers: &[usize]) {
    let [frames, times] = run.numbers::<2>(numbers);
    let mut piece = run.list(0);
    for _ in 0..frames {
        write_head(run, &mut piece);
    }
    run.step(0);
    take_frames(run, &piece, frames, times);
}
