use crate::digests::{INTERIOR_BYTES, LEAF_BYTES, measure_length, measure_lengths};
use crate::finals::broken_final;
use crate::held::{Held, keyed};
use crate::pages::Pages;
use crate::roots::{
    BODY_BYTES, KEYED_BYTES, SIGNED_BYTES, after, bodies, first_body, hash_of, provider,
    provider_vuf, signed,
};
use crate::run::Run;
use auditor::{Auditor, Evidence, Observed, judge};
use encoding::{Hash32, Name};
use nodehash::Sha256Hash;
use proofs::BrokenPromise;
use rootchain::{Body, Promise, RootEvidence, SignedPromise};
use sigiface::{KeyedSign, Signer};

/// The bytes of a root with the stand-in's signature.
const ROOT_BYTES: usize = BODY_BYTES + 2 + 32;

/// The bytes of a chain of so many signed roots, one behind the other.
fn chain(run: &Run, roots: usize) -> Vec<u8> {
    let bodies = bodies(run, Hash32::default(), roots);
    let mut bytes = run.list(roots.saturating_mul(ROOT_BYTES));
    for body in &bodies {
        run.append(&mut bytes, signed(*body).write().bytes());
    }
    bytes
}

/// An auditor of the provider, and what it counts by.
#[derive(Drop)]
struct Watch {
    auditor: Auditor<Sha256Hash, KeyedSign>,
    hash: Sha256Hash,
    verifier: KeyedSign,
    key: Hash32,
}

impl Watch {
    fn new(run: &Run) -> Watch {
        Watch {
            auditor: Auditor::new(run.alloc()),
            hash: Sha256Hash::new(),
            verifier: provider(),
            key: provider().public(),
        }
    }

    /// Observes a root. Returns 1 if the chain had it, and 0 if it is new.
    fn observe(&mut self, run: &Run, root: &[u8]) -> u64 {
        match self
            .auditor
            .observe(&mut self.hash, &self.verifier, &self.key, root)
        {
            Ok(Observed::Started | Observed::Extended) => 0,
            Ok(Observed::Known) => 1,
            _ => {
                run.fail();
                0
            }
        }
    }

    /// The step of observing these roots: counts those that the chain begins with or that extend it.
    fn observe_all(&mut self, run: &Run, roots: &[u8]) {
        let mut taken: u64 = 0;
        for root in roots.chunks_exact(ROOT_BYTES) {
            taken = taken.saturating_add(1 - self.observe(run, root).min(1));
        }
        run.step(taken);
    }

    /// The step of observing so many of these roots, each far from the one before: counts those that are
    /// known.
    fn observe_again(&mut self, run: &Run, roots: &[u8], times: usize) {
        let count = (roots.len() / ROOT_BYTES).max(1);
        let mut place: usize = 0;
        let mut known: u64 = 0;
        for _ in 0..times {
            place = place.wrapping_add(7919) % count;
            let start = place.saturating_mul(ROOT_BYTES);
            let root = run.part(roots, start, start.saturating_add(ROOT_BYTES));
            known = known.saturating_add(self.observe(run, root));
        }
        run.step(known);
    }
}

/// The body of the same epoch with another root.
fn forked(body: &Body) -> Body {
    Body {
        root: Hash32::new([5; 32]),
        ..*body
    }
}

/// A fork, a broken link or a skipped epoch, which begin with the same root.
fn evidence_of_roots(kind: usize) -> RootEvidence {
    let third = after(&first_body(Hash32::default()), 2);
    let seventh = after(&third, 4);
    let forked = forked(&seventh);
    match kind {
        0 => RootEvidence::Fork(signed(seventh), signed(forked)),
        1 => RootEvidence::Link(signed(seventh), signed(after(&forked, 2))),
        _ => RootEvidence::Skip(signed(seventh), signed(after(&third, 6))),
    }
}

/// The promise of another key for this name, after the root of this body.
fn promised(held: &Held, body: &Body) -> SignedPromise {
    let promise = Promise {
        epoch: body.epoch,
        body_hash: hash_of(body),
        index: held.index,
        name: held.name.copied(),
        key: keyed(&[7; 32]),
    };
    let signature = provider().sign(promise.write().bytes());
    SignedPromise { promise, signature }
}

/// A promise that was broken: the next page has another key for the name.
fn broken_promise(pages: &Pages, held: &Held, root: Hash32) -> BrokenPromise {
    let first = first_body(Hash32::default());
    let mut second = after(&first, 1);
    second.root = root;
    BrokenPromise {
        promise: promised(held, &first),
        root: signed(second),
        proof: pages.reply(held, &second),
    }
}

/// The lengths of the texts whose digests it takes to check so many roots and a reply for this name under each: the
/// root's, those of the value, the index, the commitment and the leaf, and of the nodes above it.
fn lengths_of(run: &Run, name: &Name, replies: usize, siblings: usize) -> Vec<usize> {
    let name = name.bytes().len();
    let mut lengths = run.filled(INTERIOR_BYTES, siblings.saturating_mul(replies));
    let others = [
        SIGNED_BYTES,
        KEYED_BYTES.saturating_add(name),
        32,
        name.saturating_add(38 + 32),
        LEAF_BYTES,
    ];
    for _ in 0..replies {
        for length in others {
            run.push(&mut lengths, length);
        }
    }
    lengths
}

/// The step of judging the evidence, so often: counts how often it holds.
fn judge_all(run: &Run, evidence: &Evidence, times: usize) {
    let (mut hash, vuf, verifier) = (Sha256Hash::new(), provider_vuf(), provider());
    let key = verifier.public();
    let mut held: u64 = 0;
    for _ in 0..times {
        if judge(&mut hash, &vuf, &verifier, &key, evidence) {
            held = held.saturating_add(1);
        }
    }
    run.step(held);
}

/// The steps of the evidence of two roots, of each kind: the digests of texts of the same lengths, the
/// stand-ins' among them; and its judging.
fn measure_roots(run: &Run, times: usize) {
    let lengths = [SIGNED_BYTES, SIGNED_BYTES, BODY_BYTES];
    for kind in 0..3 {
        let digests = if kind == 1 { 3 } else { 2 };
        let evidence = Evidence::Root(evidence_of_roots(kind));
        measure_lengths(run, &lengths[..digests], times);
        judge_all(run, &evidence, times);
    }
}

/// The same steps of a broken promise of the first name.
fn measure_promise(run: &Run, pages: &Pages, siblings: usize, times: usize) {
    match (pages.held.first(), pages.bodies.first()) {
        (Some(held), Some(body)) => {
            let broken = broken_promise(pages, held, body.root);
            let mut lengths = lengths_of(run, &held.name, 1, siblings);
            let text = broken.promise.promise.write().bytes().len();
            run.push(&mut lengths, KEYED_BYTES.saturating_add(text));
            measure_lengths(run, &lengths, times);
            judge_all(run, &Evidence::Broken(broken), times);
        }
        _ => run.fail(),
    }
}

/// The same steps of a final binding that was changed.
fn measure_final(run: &Run, siblings: usize, times: usize) {
    match broken_final(run, siblings) {
        Some(broken) => {
            measure_lengths(run, &lengths_of(run, &broken.name, 2, siblings), times);
            judge_all(run, &Evidence::Final(broken), times);
        }
        None => run.fail(),
    }
}

/// The steps of digests: of bodies, and of what is signed of them.
pub(crate) fn measure_bodies(run: &Run, digests: usize) {
    measure_length(run, BODY_BYTES, digests);
    measure_length(run, SIGNED_BYTES, digests);
}

/// The steps of a chain: so many roots observed; the others, which extend it; and as many of them all once
/// more.
fn measure_chain(run: &Run, roots: &[u8], first: usize, more: usize) {
    let mut watch = Watch::new(run);
    let (first, others) = roots.split_at(first.saturating_mul(ROOT_BYTES).min(roots.len()));
    watch.observe_all(run, first);
    watch.observe_all(run, others);
    watch.observe_again(run, roots, more);
}

/// `audit ROOTS MORE SIBLINGS TIMES DIGESTS`. The steps: digests of bodies; a chain of so many roots
/// observed, and more that extend it; for each kind of evidence the digests of its texts, and its judging,
/// so often; and the first digests again.
pub(crate) fn measure(run: &Run, numbers: &[usize]) {
    let [first, more, siblings, times, digests] = run.numbers::<5>(numbers);
    let roots = chain(run, first.saturating_add(more));
    run.step(0);
    measure_bodies(run, digests);
    measure_chain(run, &roots, first, more);
    measure_roots(run, times);
    match Pages::new(run, 1, siblings, 1) {
        Some(pages) => measure_promise(run, &pages, siblings, times),
        None => run.fail(),
    }
    measure_final(run, siblings, times);
    measure_bodies(run, digests);
}
