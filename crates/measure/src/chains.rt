use crate::roots::{after, first_body, provider, signed};
use crate::run::Run;
use encoding::Hash32;
use nodehash::{NodeHash, Sha256Hash};
use rootchain::{Body, Chain, Compare, RootEvidence};
use sigiface::{KeyedSign, Signer};

/// A chain of the provider.
type Followed = Chain<Sha256Hash, KeyedSign>;

/// The bodies of so many roots. The first ones, so many, have zero in their nonces, and the others this byte.
fn bodies_of(run: &Run, roots: usize, shared: usize, byte: u8) -> Vec<Body> {
    let mut bodies = run.list(roots);
    let mut body = first_body(Hash32::default());
    for number in 0..roots {
        body.nonce = Hash32::new([if number < shared { 0 } else { byte }; 32]);
        run.push(&mut bodies, body);
        body = after(&body, 1);
    }
    bodies
}

/// The bodies as one byte string.
fn bytes_of(run: &Run, bodies: &[Body]) -> Vec<u8> {
    let mut bytes = run.list(0);
    for body in bodies {
        run.append(&mut bytes, body.write().bytes());
    }
    bytes
}

/// Extends the chain by the roots of these bodies.
fn extend(run: &Run, chain: &mut Followed, bodies: &[Body]) {
    let mut hash = Sha256Hash::new();
    for body in bodies {
        if chain.extend(&mut hash, &provider(), signed(*body)).is_err() {
            run.fail();
        }
    }
}

/// The chain of the roots of these bodies.
fn chain_of(run: &Run, bodies: &[Body]) -> Option<Followed> {
    let (first, others) = bodies.split_first()?;
    let signer = provider();
    match Chain::start(run.alloc(), &signer, signer.public(), signed(*first)) {
        Ok(mut chain) => {
            extend(run, &mut chain, others);
            Some(chain)
        }
        Err(_) => None,
    }
}

/// The step of comparing the byte strings: counts how often they are equal. Each round starts at another
/// byte, so that the compiler has to go through them again.
fn compare_bytes(run: &Run, one: &[u8], other: &[u8], rounds: usize) {
    let mut equal: u64 = 0;
    for round in 0..rounds {
        let (_, one) = one.split_at(round.min(one.len()));
        let (_, other) = other.split_at(round.min(other.len()));
        if one == other {
            equal = equal.saturating_add(1);
        }
    }
    run.step(equal);
}

/// The epoch of a fork, 0 where the chains agree, and the greatest number for any other answer.
fn epoch_of(answer: &Compare) -> u64 {
    match answer {
        Compare::Equal => 0,
        Compare::Evidence(RootEvidence::Fork(one, _)) => one.body.epoch,
        _ => u64::MAX,
    }
}

/// Compares two chains of one key.
fn compare(run: &Run, hash: &mut Sha256Hash, one: &Followed, other: &Followed) -> u64 {
    if *one.key() != *other.key() {
        run.fail();
        return 0;
    }
    epoch_of(&Chain::compare(hash, one, other))
}

/// The step of comparing the chains, first and second in turn: adds up the epochs of their forks. Each
/// comparison takes at most one digest.
fn compare_chains(run: &Run, one: &Followed, other: &Followed, rounds: usize) {
    let mut hash = Sha256Hash::new();
    let mut epochs: u64 = 0;
    for round in 0..rounds {
        let epoch = if round % 2 == 0 {
            compare(run, &mut hash, one, other)
        } else {
            compare(run, &mut hash, other, one)
        };
        epochs = epochs.saturating_add(epoch);
    }
    if hash.count() > rounds as u64 {
        run.fail();
    }
    run.step(epochs);
}

/// The steps of two chains, whose bodies are these.
fn measure_chains(run: &Run, one: &[Body], other: &[Body], rounds: usize) {
    let Some(first) = chain_of(run, one) else {
        return run.fail();
    };
    let Some(second) = chain_of(run, other) else {
        return run.fail();
    };
    let one = bytes_of(run, one);
    let other = bytes_of(run, other);
    run.step(one.len() as u64);
    compare_bytes(run, &one, &other, rounds);
    compare_chains(run, &first, &second, rounds);
}

/// `chains ROOTS SHARED ROUNDS`. The steps: the bodies of two chains of one key compared as byte strings,
/// so often; then the chains. Both have so many roots, and as many of the first ones are the same.
pub(crate) fn measure(run: &Run, numbers: &[usize]) {
    let [roots, shared, rounds] = run.numbers::<3>(numbers);
    let one = bodies_of(run, roots, shared, 1);
    let other = bodies_of(run, roots, shared, 2);
    measure_chains(run, &one, &other, rounds);
}
