//! Of `rootchain`: a chain, which stays for the next lines. Two chains are compared in `comparing`.

use crate::comparing::compare;
use crate::room::{Taker, room};
use crate::roots::{say_body, signed_root, verifier};
use encoding::Hash32;
use nodehash::{Sha256Hash, SumHash};
use questions::{AnySign, Case, refuse_root, say_evidence, say_place};
use rootchain::{Chain, ListRefusal, RootList};
use sigiface::{KeyedSign, Verifier};

type Kept = Option<Chain<Sha256Hash, KeyedSign>>;

pub(crate) fn answer(case: &mut Case<'_>, kept: &mut Kept) {
    match case.word() {
        b"start" => start(case, kept),
        b"compare" => compare(case, &mut Sha256Hash::new()),
        b"compare-sum" => compare(case, &mut SumHash::new()),
        b"room" => room(case, Taker::List),
        b"room-bytes" => room(case, Taker::Bytes),
        b"any" => any(case, Step::Take),
        b"any-extended" => any(case, Step::Extend),
        verb => match kept {
            Some(chain) => answer_on(case, verb, chain),
            None => case.spoil(),
        },
    }
}

fn answer_on(case: &mut Case<'_>, verb: &[u8], chain: &mut Chain<Sha256Hash, KeyedSign>) {
    match verb {
        b"extend" => extend(case, chain, &verifier()),
        b"place" => place(case, chain),
        b"take" => take(case, chain, &verifier()),
        b"take-list" => take_list(case, chain),
        b"at" => at(case, chain),
        b"after" => after(case, chain),
        b"head" => say_body(case, &chain.head().body),
        b"key" => case.say_bytes(chain.key().bytes()),
        _ => case.spoil(),
    }
}

/// `start KEY ROOT`
fn start(case: &mut Case<'_>, kept: &mut Kept) {
    let key = case.hash();
    let Ok(root) = signed_root(case) else {
        return case.spoil();
    };
    match Chain::start(case.alloc(), &verifier(), key, root) {
        Ok(chain) => {
            *kept = Some(chain);
            case.say("started");
        }
        Err(refusal) => refuse_root(case, refusal),
    }
}

/// `extend ROOT`
fn extend<S: Verifier>(case: &mut Case<'_>, chain: &mut Chain<Sha256Hash, S>, verifier: &S) {
    let Ok(root) = signed_root(case) else {
        return case.spoil();
    };
    match chain.extend(&mut Sha256Hash::new(), verifier, root) {
        Ok(()) => case.say("extended"),
        Err(refusal) => refuse_root(case, refusal),
    }
}

/// `place ROOT`
fn place(case: &mut Case<'_>, chain: &mut Chain<Sha256Hash, KeyedSign>) {
    let Ok(root) = signed_root(case) else {
        return case.spoil();
    };
    match chain.place(&mut Sha256Hash::new(), &verifier(), &root) {
        Ok(place) => say_place(case, &place),
        Err(refusal) => refuse_root(case, refusal),
    }
}

/// How a root comes to a chain.
#[derive(Clone, Copy, Debug)]
enum Step {
    Take,
    Extend,
}

/// `any ROOT..`: a chain under a verifier that accepts each signature, which takes the roots in turn.
/// `any-extended ROOT..`: the same, and each root extends the chain.
fn any(case: &mut Case<'_>, step: Step) {
    let Ok(root) = signed_root(case) else {
        return case.spoil();
    };
    match Chain::start(case.alloc(), &AnySign, Hash32::default(), root) {
        Ok(mut chain) => {
            case.say("started");
            for _ in 0..case.left() {
                match step {
                    Step::Take => take(case, &mut chain, &AnySign),
                    Step::Extend => extend(case, &mut chain, &AnySign),
                }
            }
        }
        Err(refusal) => refuse_root(case, refusal),
    }
}

/// `take ROOT`
fn take<S: Verifier>(case: &mut Case<'_>, chain: &mut Chain<Sha256Hash, S>, verifier: &S) {
    let Ok(root) = signed_root(case) else {
        return case.spoil();
    };
    match chain.take(&mut Sha256Hash::new(), verifier, root) {
        Ok(place) => say_place(case, &place),
        Err(refusal) => refuse_root(case, refusal),
    }
}

/// `take-list LIST`
fn take_list(case: &mut Case<'_>, chain: &mut Chain<Sha256Hash, KeyedSign>) {
    let Ok(list) = RootList::read(case.bytes()) else {
        return case.spoil();
    };
    match chain.take_list(&mut Sha256Hash::new(), &verifier(), list) {
        Ok(()) => case.say("taken"),
        Err(ListRefusal::Memory) => case.lack_memory(),
        Err(ListRefusal::Evidence(evidence)) => {
            say_evidence(case, &evidence);
            case.say_shown(ListRefusal::Evidence(evidence));
        }
        Err(refusal) => case.say_shown(refusal),
    }
}

/// `at EPOCH`
fn at(case: &mut Case<'_>, chain: &Chain<Sha256Hash, KeyedSign>) {
    match chain.at(case.number()) {
        Some(root) => case.say_bytes(root.write().bytes()),
        None => case.say("none"),
    }
}

/// `after EPOCH`
fn after(case: &mut Case<'_>, chain: &Chain<Sha256Hash, KeyedSign>) {
    match chain.after(case.number()) {
        Some(root) => case.say_bytes(root.write().bytes()),
        None => case.say("none"),
    }
}
