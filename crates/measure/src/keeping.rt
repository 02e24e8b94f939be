use crate::digests::{LEAF_BYTES, measure_length};
use crate::directory::{Provided, fill, new_directory};
use crate::roots::{provider, provider_vuf};
use crate::run::Run;
use encoding::Hash32;
use epochs::{Keeper, NoKeeper, Record};
use journal::{Journal, Opened, open};
use rand_chacha::ChaCha20Rng;
use rand_core::SeedableRng;
use sigiface::Signer;
use vrfiface::Vuf;

/// The bytes of the record of each name: 38, a name of 16 and a key of 32.
const NAME_BYTES: usize = 86;

/// The bytes of the other records: a start, and a new page.
const OTHER_BYTES: usize = 115;

/// The start of a new directory.
fn start() -> Record {
    Record::Start {
        epoch: 1,
        nonce: Hash32::default(),
        signing_key: provider().public(),
        vuf_key: provider_vuf().public(),
    }
}

/// The steps of a directory that is kept in this room: that of a journal begun, and those of `fill`.
fn keep(run: &Run, directory: &mut Provided, room: &mut [u8], names: usize) {
    let mut journal = Journal::new(room);
    if journal.keep(&start()).is_err() {
        run.fail();
    }
    run.step(0);
    fill(run, directory, &mut journal, names);
    run.step(0);
}

/// The step of opening a journal of whole records: tells how many bytes were taken.
fn reopen(run: &Run, bytes: &[u8]) {
    let (hash, salts) = (run.hash(), ChaCha20Rng::from_seed([0; 32]));
    match open(run.alloc(), bytes, hash, provider_vuf(), provider(), salts) {
        Ok(Opened::Directory(_directory, taken)) => run.step(taken as u64),
        _ => run.fail(),
    }
}

/// The steps of a directory that is kept, after those of another. Both stay until the end, so that none
/// takes the memory of another.
fn measure_kept(run: &Run, room: &mut [u8], names: usize, digests: usize) {
    match new_directory(run) {
        Some(mut kept) => {
            keep(run, &mut kept, room, names);
            reopen(run, room);
            measure_length(run, LEAF_BYTES, digests);
        }
        None => run.fail(),
    }
}

/// `journal NAMES DIGESTS`. The steps: digests; the names registered without a journal, and the epoch
/// closed; the names registered with a journal in memory, and the epoch closed; the journal opened; digests
/// again.
pub(crate) fn measure(run: &Run, numbers: &[usize]) {
    let [names, digests] = run.numbers::<2>(numbers);
    let size = names.saturating_mul(NAME_BYTES).saturating_add(OTHER_BYTES);
    let mut room = run.filled(0, size);
    match new_directory(run) {
        Some(mut plain) => {
            run.step(0);
            measure_length(run, LEAF_BYTES, digests);
            fill(run, &mut plain, &mut NoKeeper, names);
            measure_kept(run, &mut room, names, digests);
        }
        None => run.fail(),
    }
}
