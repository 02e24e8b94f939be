//! Of `proofs`: what accepted replies tell, and whether two state the same.

use crate::replies::{keyed, say_compared};
use encoding::BoundKey;
use nodehash::{NodeHash, Sha256Hash};
use proofs::{Accepted, ReplyView, accept, same_or_collision};
use questions::{Case, say_statement};
use rootchain::Body;
use vrfiface::{KeyedVuf, VufCheck};

type Told<'a> = Accepted<'a, Sha256Hash, KeyedVuf>;

fn say_accepted(case: &mut Case<'_>, accepted: &Told<'_>) {
    case.say_bytes(accepted.value());
    case.say_bytes(accepted.name().bytes());
    case.say_shown(accepted.body().epoch);
    case.say_bytes(accepted.index().bytes());
    say_statement(case, accepted.statement());
}

/// `accepted BODY NAME REPLY`: value, name, epoch, index and statement, and the same once it is read
/// again.
pub(crate) fn accepted(case: &mut Case<'_>) {
    let mut hash = Sha256Hash::new();
    let Ok(body) = Body::read(case.bytes()) else {
        return case.spoil();
    };
    let name = case.name();
    let reply = case.bytes();
    match accept(&mut hash, &keyed(), &body, &name, reply) {
        Ok(accepted) => {
            say_accepted(case, &accepted);
            let again: Told<'_> = Accepted::again(&mut hash, &name, reply);
            say_accepted(case, &again);
        }
        Err(refusal) => case.refuse(refusal.number(), refusal),
    }
}

/// `same BODY NAME REPLY BODY NAME REPLY`; `same-any`, under sums, where each value is accepted.
pub(crate) fn same<H: NodeHash, V: VufCheck>(case: &mut Case<'_>, hash: &mut H, vuf: &V) {
    let Ok(body) = Body::read(case.bytes()) else {
        return case.spoil();
    };
    let name = case.name();
    match accept(hash, vuf, &body, &name, case.bytes()) {
        Ok(first) => same_as(case, hash, vuf, &first),
        Err(refusal) => case.refuse(refusal.number(), refusal),
    }
}

fn same_as<H: NodeHash, V: VufCheck>(
    case: &mut Case<'_>,
    hash: &mut H,
    vuf: &V,
    first: &Accepted<'_, H, V>,
) {
    let Ok(body) = Body::read(case.bytes()) else {
        return case.spoil();
    };
    let name = case.name();
    match accept(hash, vuf, &body, &name, case.bytes()) {
        Ok(second) => {
            let compared = same_or_collision(hash, first, &second);
            say_compared(case, &compared);
        }
        Err(refusal) => case.refuse(refusal.number(), refusal),
    }
}

/// `binds KEY REPLY`
pub(crate) fn binds(case: &mut Case<'_>) {
    let key = case.bound_key(false);
    tell_binds(case, &key);
}

/// `binds2 KEY POLICY REPLY`: whether it states this key with this policy
pub(crate) fn binds_with_policy(case: &mut Case<'_>) {
    let key = case.bound_key(true);
    tell_binds(case, &key);
}

fn tell_binds(case: &mut Case<'_>, key: &BoundKey) {
    match ReplyView::read(case.bytes()) {
        Ok(view) => case.say_truth(view.statement().binds(key)),
        Err(refusal) => case.refuse(refusal.number(), refusal),
    }
}
