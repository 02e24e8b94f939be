use crate::auditing::measure_bodies;
use crate::pages::{Following, started, update};
use crate::roots::{bodies, lists_of, provider};
use crate::run::Run;
use encoding::Hash32;
use nodehash::Sha256Hash;
use rootchain::{MAX_ROOTS, RootFeed};

/// The client takes a list in pieces of so many bytes.
fn update_in_pieces(run: &Run, client: &mut Following, list: &[u8], piece: usize) {
    let (mut hash, verifier, mut feed) = (Sha256Hash::new(), provider(), RootFeed::new());
    for bytes in list.chunks(piece.max(1)) {
        if client
            .update_from(&mut hash, &verifier, &mut feed, bytes)
            .is_err()
        {
            return run.fail();
        }
    }
}

/// The step of taking these lists, in pieces of so many bytes, or whole if the number is 0: tells the epoch
/// of the head.
fn update_all(run: &Run, client: &mut Following, lists: &[Vec<u8>], piece: usize) {
    for list in lists {
        if piece == 0 {
            update(run, client, list);
        } else {
            update_in_pieces(run, client, list, piece);
        }
    }
    run.step(client.chain().head().body.epoch);
}

/// The steps of a client that has the first root: so many of the lists taken whole; the others taken in
/// pieces of so many bytes, and once more.
fn measure_lists(
    run: &Run,
    client: &mut Following,
    lists: &[Vec<u8>],
    before: usize,
    piece: usize,
) {
    let (before, more) = lists.split_at(before.min(lists.len()));
    update_all(run, client, before, 0);
    update_all(run, client, more, piece);
    update_all(run, client, more, piece);
}

/// `updates BEFORE LISTS DIGESTS PIECE`. The steps: digests; those of `measure_lists`, of a client that has so
/// many lists of 64 roots before, and then takes so many; digests again.
pub(crate) fn measure(run: &Run, numbers: &[usize]) {
    let [before, lists, digests, piece] = run.numbers::<4>(numbers);
    let count = before.saturating_add(lists).saturating_mul(MAX_ROOTS);
    let bodies = bodies(run, Hash32::default(), count);
    let lists = lists_of(run, &bodies);
    match started(run, Hash32::default()) {
        Some(mut client) => {
            run.step(0);
            measure_bodies(run, digests);
            measure_lists(run, &mut client, &lists, before, piece);
            measure_bodies(run, digests);
        }
        None => run.fail(),
    }
}
