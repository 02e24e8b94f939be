//! Of `proofs`: replies that are made.

use crate::ways::{path_of, siblings};
use encoding::Small;
use proofs::{End, make};
use questions::Case;
use rootchain::Body;

/// `make BODY VALUE END.. SIBLINGS`, where END is `present SALT KEY`, `present2 SALT KEY POLICY`, `empty` or
/// `other INDEX COMMITMENT`.
pub(crate) fn make_reply(case: &mut Case<'_>) {
    let Ok(body) = Body::read(case.bytes()) else {
        return case.spoil();
    };
    let value = case.small();
    // All ends are made here: the checker does not take a function that makes one and has no key.
    match case.word() {
        b"present" => {
            let salt = case.hash();
            let key = case.bound_key(false);
            make_ended(case, &body, &value, &End::Present { salt, key: &key })
        }
        b"present2" => {
            let salt = case.hash();
            let key = case.bound_key(true);
            make_ended(case, &body, &value, &End::Present { salt, key: &key })
        }
        b"empty" => make_ended(case, &body, &value, &End::Empty),
        b"other" => {
            let index = case.index();
            let commitment = case.hash();
            make_ended(case, &body, &value, &End::Other { index, commitment })
        }
        _ => case.spoil(),
    }
}

fn make_ended(case: &mut Case<'_>, body: &Body, value: &Small, end: &End<'_>) {
    let siblings = siblings(case);
    // Of the path only the siblings are written: the end's place is taken by `end`.
    let path = path_of(case, siblings, prefixtree::End::Empty);
    case.say_bytes(make(body, value, end, &path).bytes());
}
