//! Of `proofs`: replies that are read, checked and compared. What an accepted reply tells stands in
//! `accepted`, and replies are made in `made_replies`.

use crate::accepted::{accepted, binds, binds_with_policy, same};
use crate::any_vuf::AnyVuf;
use crate::made_replies::make_reply;
use encoding::Hash32;
use nodehash::{NodeHash, Sha256Hash, SumHash};
use proofs::{RefusedReply, ReplyView, SameOr, accept, compare_replies};
use questions::{Case, say_statement};
use rootchain::Body;
use vrfiface::{KeyedVuf, PlainVuf, VufCheck};

pub(crate) fn answer(case: &mut Case<'_>) {
    match case.word() {
        b"read" => read(case),
        b"accept" => checked(case, &mut Sha256Hash::new(), &keyed()),
        b"accept-sum" => checked(case, &mut SumHash::new(), &PlainVuf),
        b"compare" => compared(case, &mut Sha256Hash::new(), &keyed()),
        b"compare-sum" => compared(case, &mut SumHash::new(), &PlainVuf),
        b"accepted" => accepted(case),
        b"same" => same(case, &mut Sha256Hash::new(), &keyed()),
        b"same-any" => same(case, &mut SumHash::new(), &AnyVuf),
        b"binds" => binds(case),
        b"binds2" => binds_with_policy(case),
        b"make" => make_reply(case),
        _ => case.spoil(),
    }
}

/// A checker of values, which needs no key.
pub(crate) fn keyed() -> KeyedVuf {
    KeyedVuf::new(Hash32::default())
}

/// `read REPLY`
fn read(case: &mut Case<'_>) {
    match ReplyView::read(case.bytes()) {
        Ok(view) => {
            say_statement(case, view.statement());
            case.say_bytes(view.siblings());
        }
        Err(refusal) => case.refuse(refusal.number(), refusal),
    }
}

/// `accept BODY NAME REPLY`, under SHA-256 and keyed values; `accept-sum`, under sums and plain ones.
fn checked<H: NodeHash, V: VufCheck>(case: &mut Case<'_>, hash: &mut H, vuf: &V) {
    let Ok(body) = Body::read(case.bytes()) else {
        return case.spoil();
    };
    let name = case.name();
    match accept(hash, vuf, &body, &name, case.bytes()) {
        Ok(accepted) => {
            say_statement(case, accepted.statement());
            case.say_bytes(accepted.index().bytes());
        }
        Err(refusal) => case.refuse(refusal.number(), refusal),
    }
    case.say_shown(hash.count());
}

/// `compare BODY NAME REPLY REPLY`, and `compare-sum`.
fn compared<H: NodeHash, V: VufCheck>(case: &mut Case<'_>, hash: &mut H, vuf: &V) {
    let Ok(body) = Body::read(case.bytes()) else {
        return case.spoil();
    };
    let name = case.name();
    let first = case.bytes();
    let second = case.bytes();
    let compared = compare_replies(hash, vuf, &body, &name, first, second);
    say_result(case, &compared);
}

fn say_result(case: &mut Case<'_>, compared: &Result<SameOr, RefusedReply>) {
    match compared {
        Ok(same_or) => say_compared(case, same_or),
        Err(refused) => case.say_shown(*refused),
    }
}

pub(crate) fn say_compared(case: &mut Case<'_>, compared: &SameOr) {
    match compared {
        SameOr::NotComparable => case.say("not comparable"),
        SameOr::Same => case.say("same"),
        SameOr::TwoValues => case.say("two values"),
        SameOr::Collision(one, other) => {
            case.say("collision");
            case.say_bytes(one.bytes());
            case.say_bytes(other.bytes());
        }
    }
}
