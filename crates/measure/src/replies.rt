use crate::digests::{INTERIOR_BYTES, take_digests};
use crate::held::{Held, tree_around};
use crate::roots::{first_body, provider_vuf};
use crate::run::Run;
use crate::tree::Plain;
use nodehash::{NodeHash, Sha256Hash};
use prefixtree::Path;
use proofs::{ReplyView, check, make};
use rootchain::Body;
use std::slice;
use vrfiface::{KeyedVuf, Vuf, VufCheck};

/// What the provider holds for a name under a root of its own, and the reply to a look-up of it.
#[derive(Drop)]
struct LookUp {
    held: Held,
    body: Body,
    path: Path,
    reply: Vec<u8>,
}

/// The look-up of a name in this tree.
fn look_up_in(run: &Run, held: Held, tree: &Plain) -> LookUp {
    let body = first_body(tree.root());
    let path = tree.path(&held.index);
    let mut reply = run.list(0);
    run.append(
        &mut reply,
        make(&body, &held.value, &held.end(), &path).bytes(),
    );
    LookUp {
        held,
        body,
        path,
        reply,
    }
}

/// Adds the look-up of the name of this number.
fn put_look_up(run: &Run, look_ups: &mut Vec<LookUp>, number: u64, siblings: usize) {
    let held = Held::new(number);
    match tree_around(run, slice::from_ref(&held), siblings) {
        Some(tree) => {
            let look_up = look_up_in(run, held, &tree);
            run.push(look_ups, look_up);
        }
        None => run.fail(),
    }
}

/// Makes a reply again, and counts its bytes if it is right at this place.
fn make_again(look_up: &LookUp, place: usize) -> u64 {
    let held = &look_up.held;
    let reply = make(&look_up.body, &held.value, &held.end(), &look_up.path);
    if reply.bytes().get(place) == look_up.reply.get(place) {
        reply.bytes().len() as u64
    } else {
        0
    }
}

/// The step of making all replies, so often. The place is another in each round, so that the compiler has to
/// make every byte.
fn make_all(run: &Run, look_ups: &[LookUp], rounds: usize) {
    let mut bytes: u64 = 0;
    for round in 0..rounds {
        for look_up in look_ups {
            bytes = bytes.saturating_add(make_again(look_up, round));
        }
    }
    run.step(bytes);
}

/// Reads and checks a reply.
fn check_one(run: &Run, hash: &mut Sha256Hash, look_up: &LookUp) {
    match ReplyView::read(&look_up.reply) {
        Ok(view) => {
            let (vuf, name) = (provider_vuf(), &look_up.held.name);
            if check(hash, &vuf, &look_up.body, name, &view).is_err() {
                run.fail();
            }
        }
        Err(_) => run.fail(),
    }
}

/// The step of reading and checking all replies, so often: counts the digests.
fn check_all(run: &Run, look_ups: &[LookUp], rounds: usize) {
    let mut hash = Sha256Hash::new();
    for _ in 0..rounds {
        for look_up in look_ups {
            check_one(run, &mut hash, look_up);
        }
    }
    run.step(hash.count());
}

/// The step of asking of each name whether its value is accepted, so often: counts how often it is.
fn accept_all(run: &Run, look_ups: &[LookUp], rounds: usize) {
    let vuf = provider_vuf();
    let public = vuf.public();
    let mut count: u64 = 0;
    for _ in 0..rounds {
        for look_up in look_ups {
            let held = &look_up.held;
            if vuf.accepts(&public, &held.name, held.value.bytes()) {
                count = count.saturating_add(1);
            }
        }
    }
    run.step(count);
}

/// `replies SIBLINGS REPLIES ROUNDS DIGESTS`. The steps: digests; replies made, each for a name of its own;
/// replies read and checked; values accepted; digests again. Each step goes over all replies so often.
pub(crate) fn measure(run: &Run, numbers: &[usize]) {
    let [siblings, replies, rounds, digests] = run.numbers::<4>(numbers);
    let mut look_ups = run.list(replies);
    for number in 0..replies as u64 {
        put_look_up(run, &mut look_ups, number, siblings);
    }
    measure_look_ups(run, &look_ups, rounds, digests);
}

/// The steps of these look-ups.
fn measure_look_ups(run: &Run, look_ups: &[LookUp], rounds: usize, digests: usize) {
    let mut text = [0; INTERIOR_BYTES];
    run.step(0);
    run.step(take_digests(&mut text, digests));
    make_all(run, look_ups, rounds);
    check_all(run, look_ups, rounds);
    accept_all(run, look_ups, rounds);
    run.step(take_digests(&mut text, digests));
}
