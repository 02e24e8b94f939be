use crate::pages::{Answered, Following, Pages, check_all};
use crate::roots::provider_vuf;
use crate::run::Run;
use monitor::{Monitor, Step};
use nodehash::Sha256Hash;
use sigiface::KeyedSign;
use vrfiface::KeyedVuf;

/// A monitor of the provider.
type Watching = Monitor<Sha256Hash, KeyedVuf, KeyedSign>;

/// The monitor watches the next epoch by this reply. Returns 1 if it finds what it expects.
fn watch(run: &Run, hash: &mut Sha256Hash, monitor: &mut Watching, reply: &[u8]) -> u64 {
    match monitor.step(hash, &provider_vuf(), reply) {
        Ok(Step::Kept) => 1,
        Ok(_) => 0,
        Err(_) => {
            run.fail();
            0
        }
    }
}

/// The step of watching the next epochs by these replies: counts those at which the monitor finds what it
/// expects.
fn watch_all(run: &Run, monitor: &mut Watching, answers: &[Answered]) {
    let mut hash = Sha256Hash::new();
    let mut kept: u64 = 0;
    for answer in answers {
        kept = kept.saturating_add(watch(run, &mut hash, monitor, &answer.reply));
    }
    run.step(kept);
}

/// The steps of a round: its replies made, read and checked, watched by the monitor, and read and checked
/// once more.
fn measure_round(run: &Run, monitor: &mut Watching, answers: &[Answered]) {
    run.step(0);
    check_all(run, answers);
    watch_all(run, monitor, answers);
    check_all(run, answers);
}

/// The steps of so many rounds of a monitor of the first name.
fn measure_rounds(run: &Run, monitor: &mut Watching, pages: &Pages, epochs: usize, rounds: usize) {
    run.step(0);
    for round in 0..rounds {
        let first = round.saturating_mul(epochs);
        let answers = pages.answers(run, 1, first, first.saturating_add(epochs));
        measure_round(run, monitor, &answers);
    }
}

/// A monitor of the first name.
fn monitor_of(run: &Run, pages: &Pages, client: Following) -> Option<Watching> {
    match pages.held.first() {
        Some(held) => Some(Monitor::from_start(
            run.alloc(),
            client,
            held.name.copied(),
            Some(held.key.copied()),
        )),
        None => None,
    }
}

/// The steps of a monitor of the first name, whose client has all roots.
fn measure_pages(run: &Run, pages: &Pages, epochs: usize, rounds: usize) {
    let Some(client) = pages.client(run) else {
        return run.fail();
    };
    match monitor_of(run, pages, client) {
        Some(mut monitor) => measure_rounds(run, &mut monitor, pages, epochs, rounds),
        None => run.fail(),
    }
}

/// `watch SIBLINGS EPOCHS ROUNDS`. The steps of a monitor that has watched no epoch: those of the rounds, in
/// each of which it watches so many, one by one.
pub(crate) fn measure(run: &Run, numbers: &[usize]) {
    let [siblings, epochs, rounds] = run.numbers::<3>(numbers);
    match Pages::new(run, 1, siblings, epochs.saturating_mul(rounds)) {
        Some(pages) => measure_pages(run, &pages, epochs, rounds),
        None => run.fail(),
    }
}
