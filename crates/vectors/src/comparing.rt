//! Of `rootchain`: two chains compared.

use crate::roots::verifier;
use encoding::Hash32;
use nodehash::NodeHash;
use questions::{Case, say_evidence};
use rootchain::{Chain, Compare, ListRefusal, Refusal, RootList, SignedRoot};
use sigiface::KeyedSign;

/// `compare KEY LIST LIST`: the chains of the roots of two lists, under SHA-256; `compare-sum`, under
/// sums.
pub(crate) fn compare<H: NodeHash>(case: &mut Case<'_>, hash: &mut H) {
    let key = case.hash();
    let one = chain_of_list(case, hash, key);
    let other = chain_of_list(case, hash, key);
    let (Some(one), Some(other)) = (&one, &other) else {
        return;
    };
    // Both have the key of the question. The test shows it to the prover.
    if one.key() == other.key() {
        let compared = Chain::compare(hash, one, other);
        say_compared(case, &compared);
    }
}

/// The chain of a list's roots, if they make one.
fn chain_of_list<H: NodeHash>(
    case: &mut Case<'_>,
    hash: &mut H,
    key: Hash32,
) -> Option<Chain<H, KeyedSign>> {
    match RootList::read(case.bytes()) {
        Ok(mut list) => match list.next() {
            Some(first) => chain_from(case, hash, key, first, list),
            None => spoiled(case),
        },
        Err(_) => spoiled(case),
    }
}

fn spoiled<H: NodeHash>(case: &mut Case<'_>) -> Option<Chain<H, KeyedSign>> {
    case.spoil();
    None
}

/// The chain of this root and those of a list.
fn chain_from<H: NodeHash>(
    case: &mut Case<'_>,
    hash: &mut H,
    key: Hash32,
    first: SignedRoot,
    list: RootList<'_>,
) -> Option<Chain<H, KeyedSign>> {
    match Chain::start(case.alloc(), &verifier(), key, first) {
        Ok(mut chain) => {
            take_rest(case, hash, &mut chain, list);
            Some(chain)
        }
        Err(Refusal::Memory) => {
            case.lack_memory();
            None
        }
        Err(_) => spoiled(case),
    }
}

fn take_rest<H: NodeHash>(
    case: &mut Case<'_>,
    hash: &mut H,
    chain: &mut Chain<H, KeyedSign>,
    list: RootList<'_>,
) {
    match chain.take_list(hash, &verifier(), list) {
        Ok(()) => {}
        Err(ListRefusal::Memory) => case.lack_memory(),
        Err(_) => case.spoil(),
    }
}

fn say_compared(case: &mut Case<'_>, compared: &Compare) {
    match compared {
        Compare::Equal => case.say("equal"),
        Compare::Evidence(evidence) => say_evidence(case, evidence),
        Compare::Collision(one, other) => {
            case.say("collision");
            case.say_bytes(one.bytes());
            case.say_bytes(other.bytes());
        }
    }
}
