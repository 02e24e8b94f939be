use crate::pages::{Answered, Following, Pages, check_all};
use crate::roots::provider_vuf;
use crate::run::Run;
use nodehash::Sha256Hash;
use proofs::Statement;

/// The client looks a name up, and keeps the reply. Returns how many keys it states.
fn look(run: &Run, hash: &mut Sha256Hash, client: &mut Following, answer: &Answered) -> u64 {
    let (vuf, epoch) = (provider_vuf(), answer.body.epoch);
    match client.look(hash, &vuf, &answer.name, epoch, &answer.reply) {
        Ok(Statement::Present(_, _)) => 1,
        Ok(_) => 0,
        Err(_) => {
            run.fail();
            0
        }
    }
}

/// The step of looking all names up: counts the keys.
fn look_all(run: &Run, client: &mut Following, answers: &[Answered]) {
    let mut hash = Sha256Hash::new();
    let mut keys: u64 = 0;
    for answer in answers {
        keys = keys.saturating_add(look(run, &mut hash, client, answer));
    }
    run.step(keys);
}

/// The step of asking what the looks show of each name's final bindings: counts the names of which they show nothing.
fn find_changes(run: &Run, client: &Following, pages: &Pages) {
    let mut names: u64 = 0;
    for held in &pages.held {
        if client.finality(&held.name).is_none() {
            names = names.saturating_add(1);
        }
    }
    run.step(names);
}

/// The steps of a round: the replies of a root made, read and checked, looked at by the client, and read and
/// checked once more.
fn measure_round(run: &Run, client: &mut Following, answers: &[Answered]) {
    run.step(0);
    check_all(run, answers);
    look_all(run, client, answers);
    check_all(run, answers);
}

/// The steps of a client: looks of all names at the first epochs; what they show of final bindings; and in each round those of `measure_round`,
/// at one more epoch.
fn measure_client(run: &Run, client: &mut Following, pages: &Pages, epochs: usize, rounds: usize) {
    let names = pages.held.len();
    run.step(0);
    let bytes = pages.keep_looks(run, client, (0, names), epochs);
    run.step(bytes);
    find_changes(run, client, pages);
    for round in 0..rounds {
        let place = epochs.saturating_add(round);
        let answers = pages.answers(run, names, place, place.saturating_add(1));
        measure_round(run, client, &answers);
    }
}

/// The same of a client that has all roots.
fn measure_pages(run: &Run, pages: &Pages, epochs: usize, rounds: usize) {
    match pages.client(run) {
        Some(mut client) => measure_client(run, &mut client, pages, epochs, rounds),
        None => run.fail(),
    }
}

/// `looks NAMES SIBLINGS ROOTS EPOCHS ROUNDS`. The steps of `measure_client`, of a client that has so many
/// roots.
pub(crate) fn measure(run: &Run, numbers: &[usize]) {
    let [names, siblings, roots, epochs, rounds] = run.numbers::<5>(numbers);
    match Pages::new(run, names, siblings, roots) {
        Some(pages) => measure_pages(run, &pages, epochs, rounds),
        None => run.fail(),
    }
}
