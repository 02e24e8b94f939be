use crate::digests::{LEAF_BYTES, measure_length};
use crate::held::{key_of, name_of};
use crate::roots::{provider, provider_vuf};
use crate::run::Run;
use encoding::Hash32;
use epochs::{Directory, Keeper, NoKeeper, Refusal};
use nodehash::Sha256Hash;
use rand_chacha::ChaCha20Rng;
use rand_core::SeedableRng;
use rootchain::{SignedPromise, SignedRoot};
use sigiface::KeyedSign;
use vrfiface::KeyedVuf;

/// A directory as a provider would run it.
pub(crate) type Provided = Directory<Sha256Hash, KeyedVuf, KeyedSign, ChaCha20Rng>;

/// The epoch whose page is the first with names.
pub(crate) const FIRST: u64 = 2;

/// The rotations of a directory.
const ROTATIONS: u8 = 3;

/// A directory at epoch 1, without a name.
pub(crate) fn new_directory(run: &Run) -> Option<Provided> {
    let (hash, salts) = (run.hash(), ChaCha20Rng::from_seed([0; 32]));
    let nonce = Hash32::default();
    Directory::new(
        run.alloc(),
        1,
        nonce,
        hash,
        provider_vuf(),
        provider(),
        salts,
    )
    .ok()
}

/// The first byte of a promise's signature, so that the compiler has to make it.
pub(crate) fn promise_byte(run: &Run, promised: Result<SignedPromise, Refusal>) -> u64 {
    match promised {
        Ok(signed) => match signed.signature.bytes().first() {
            Some(byte) => u64::from(*byte),
            None => 0,
        },
        Err(_) => {
            run.fail();
            0
        }
    }
}

/// The first byte of the root of a new page.
fn root_byte(run: &Run, closed: Result<SignedRoot, Refusal>) -> u64 {
    match closed {
        Ok(root) => u64::from(root.body.root.bytes()[0]),
        Err(_) => {
            run.fail();
            0
        }
    }
}

/// Registers so many names. Adds up a byte of each promise.
pub(crate) fn register_all<K: Keeper>(
    run: &Run,
    directory: &mut Provided,
    keeper: &mut K,
    names: usize,
) -> u64 {
    let mut sum: u64 = 0;
    for number in 0..names as u64 {
        let promised = directory.register(keeper, &name_of(number), &key_of(number, 1));
        sum = sum.wrapping_add(promise_byte(run, promised));
    }
    sum
}

/// The step of changing the keys of the names of these numbers: adds up a byte of each promise.
fn change_all(run: &Run, directory: &mut Provided, numbers: &[u64], epoch: u64) {
    let mut sum: u64 = 0;
    for number in numbers {
        let promised = directory.change(&mut NoKeeper, &name_of(*number), &key_of(*number, epoch));
        sum = sum.wrapping_add(promise_byte(run, promised));
    }
    run.step(sum);
}

/// Closes the epoch. Returns a byte of the new root.
pub(crate) fn close<K: Keeper>(
    run: &Run,
    directory: &mut Provided,
    keeper: &mut K,
    epoch: u64,
) -> u64 {
    let closed = directory.close(keeper, epoch);
    root_byte(run, closed)
}

/// The step of ending the epoch under this nonce.
fn rotate(run: &Run, directory: &mut Provided, epoch: u64, nonce: u8) {
    let rotated = directory.rotate(&mut NoKeeper, epoch, Hash32::new([nonce; 32]));
    let byte = root_byte(run, rotated);
    run.step(byte);
}

/// The step of looking names up in the page of an epoch: counts the bytes of the replies.
fn look_up_all(run: &Run, directory: &mut Provided, numbers: &[u64], epoch: u64) {
    let mut bytes: u64 = 0;
    for number in numbers {
        match directory.lookup(&name_of(*number), epoch) {
            Ok(reply) => bytes = bytes.saturating_add(reply.bytes().len() as u64),
            Err(_) => run.fail(),
        }
    }
    run.step(bytes);
}

/// So many numbers of names that differ, where there are as many names: those of a round.
fn numbers_of_round(run: &Run, names: usize, round: usize, count: usize) -> Vec<u64> {
    let names = (names as u64).max(1);
    let step = names.checked_div(count as u64).unwrap_or(1).max(1);
    let mut numbers = run.list(count);
    let mut number = round as u64;
    for _ in 0..count {
        number %= names;
        run.push(&mut numbers, number);
        number = number.wrapping_add(step);
    }
    numbers
}

/// How many names there are, how many of them are asked in a round, and the rounds.
type Rounds = [usize; 3];

/// The steps of look-ups in the page of an epoch, each of other names.
fn measure_look_ups(run: &Run, directory: &mut Provided, wanted: Rounds, epoch: u64) {
    let [names, count, rounds] = wanted;
    for round in 0..rounds {
        let numbers = numbers_of_round(run, names, round, count);
        look_up_all(run, directory, &numbers, epoch);
    }
}

/// The steps of epochs: in each its numbers made, their keys changed, and the epoch closed.
fn measure_changes(run: &Run, directory: &mut Provided, wanted: Rounds) {
    let [names, count, rounds] = wanted;
    for round in 0..rounds {
        let numbers = numbers_of_round(run, names, round, count);
        let epoch = FIRST.wrapping_add(1).wrapping_add(round as u64);
        run.step(0);
        change_all(run, directory, &numbers, epoch);
        let byte = close(run, directory, &mut NoKeeper, epoch);
        run.step(byte);
    }
}

/// The steps of rotations, after the epoch that was closed last.
fn measure_rotations(run: &Run, directory: &mut Provided, closed: u64) {
    for number in 1..=ROTATIONS {
        let epoch = closed.wrapping_add(u64::from(number));
        rotate(run, directory, epoch, number);
    }
}

/// The steps of a directory: so many names registered, and the epoch closed.
pub(crate) fn fill<K: Keeper>(run: &Run, directory: &mut Provided, keeper: &mut K, names: usize) {
    let sum = register_all(run, directory, keeper, names);
    run.step(sum);
    let byte = close(run, directory, keeper, FIRST);
    run.step(byte);
}

/// The steps of a directory at epoch 1: the names registered; the epoch closed; in each round some keys
/// changed and the epoch closed; look-ups at the head; look-ups of the same names at the first epoch with
/// names; rotations.
fn measure_directory(run: &Run, directory: &mut Provided, changes: Rounds, look_ups: Rounds) {
    let [names, _, rounds] = changes;
    fill(run, directory, &mut NoKeeper, names);
    measure_changes(run, directory, changes);
    measure_look_ups(run, directory, look_ups, 0);
    measure_look_ups(run, directory, look_ups, FIRST);
    measure_rotations(run, directory, FIRST.wrapping_add(rounds as u64));
}

/// `epochs NAMES CHANGES ROUNDS LOOK_UPS LOOK_UP_ROUNDS DIGESTS`. The steps: digests; those of
/// `measure_directory`; digests again.
pub(crate) fn measure(run: &Run, numbers: &[usize]) {
    let [names, changes, rounds, look_ups, look_up_rounds, digests] = run.numbers::<6>(numbers);
    let wanted = ([names, changes, rounds], [names, look_ups, look_up_rounds]);
    match new_directory(run) {
        Some(mut directory) => {
            run.step(0);
            measure_length(run, LEAF_BYTES, digests);
            measure_directory(run, &mut directory, wanted.0, wanted.1);
            measure_length(run, LEAF_BYTES, digests);
        }
        None => run.fail(),
    }
}
