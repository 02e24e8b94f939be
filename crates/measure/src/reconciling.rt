use crate::pages::{Following, Pages};
use crate::run::Run;
use client::{Outcome, reconcile};
use nodehash::Sha256Hash;

/// Reconciles two clients of one provider. Returns 1 if they agree.
fn agree(run: &Run, hash: &mut Sha256Hash, one: &Following, other: &Following) -> u64 {
    if *one.key() != *other.key() {
        run.fail();
        return 0;
    }
    match reconcile(hash, one, other) {
        Outcome::Agree => 1,
        _ => 0,
    }
}

/// The step of reconciling the clients, first and second in turn: counts how often they agree.
fn reconcile_all(run: &Run, one: &Following, other: &Following, rounds: usize) {
    let mut hash = Sha256Hash::new();
    let mut agreed: u64 = 0;
    for round in 0..rounds {
        let count = if round % 2 == 0 {
            agree(run, &mut hash, one, other)
        } else {
            agree(run, &mut hash, other, one)
        };
        agreed = agreed.saturating_add(count);
    }
    run.step(agreed);
}

/// A client that looked the names from one number to below another up at each of so many epochs. The bytes
/// of the replies are added to the others.
fn client_of(
    run: &Run,
    pages: &Pages,
    names: (usize, usize),
    epochs: usize,
    bytes: &mut u64,
) -> Option<Following> {
    match pages.client(run) {
        Some(mut client) => {
            let more = pages.keep_looks(run, &mut client, names, epochs);
            *bytes = bytes.saturating_add(more);
            Some(client)
        }
        None => None,
    }
}

/// The steps of two clients, each of which looks a part of the names up.
fn measure_clients(
    run: &Run,
    pages: &Pages,
    parts: [(usize, usize); 2],
    epochs: usize,
    rounds: usize,
) {
    let mut bytes = 0;
    let Some(one) = client_of(run, pages, parts[0], epochs, &mut bytes) else {
        return run.fail();
    };
    match client_of(run, pages, parts[1], epochs, &mut bytes) {
        Some(other) => {
            run.step(bytes);
            reconcile_all(run, &one, &other, rounds);
        }
        None => run.fail(),
    }
}

/// `clients SIBLINGS NAMES SHARED EPOCHS ROUNDS`. The steps: two clients made, whose replies have so many
/// bytes; and the clients reconciled, so often. At each of so many epochs each looks up so many names, and
/// both look up as many of them as are shared.
pub(crate) fn measure(run: &Run, numbers: &[usize]) {
    let [siblings, names, shared, epochs, rounds] = run.numbers::<5>(numbers);
    let first = names.saturating_sub(shared);
    let end = names.saturating_add(first);
    match Pages::new(run, end, siblings, epochs) {
        Some(pages) => measure_clients(run, &pages, [(0, names), (first, end)], epochs, rounds),
        None => run.fail(),
    }
}
