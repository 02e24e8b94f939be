//! Of `encoding` and `rootchain`: forms that are read in front of other bytes.

use encoding::{Cursor, Form};
use questions::Case;
use rootchain::{Body, Promise, SignedPromise, SignedRoot};

/// `front body|root|promise|signed-promise BYTES`: the value written again, and how many bytes are left.
pub(crate) fn front(case: &mut Case<'_>) {
    match case.word() {
        b"body" => body(case),
        b"root" => root(case),
        b"promise" => promise(case),
        b"signed-promise" => signed_promise(case),
        _ => case.spoil(),
    }
}

fn body(case: &mut Case<'_>) {
    let mut cursor = Cursor::new(case.bytes());
    match Body::read_from(&mut cursor) {
        Ok(body) => say_front(case, body.write().bytes(), &mut cursor),
        Err(fault) => case.refuse(fault.number(), fault),
    }
}

fn root(case: &mut Case<'_>) {
    let mut cursor = Cursor::new(case.bytes());
    match SignedRoot::read_from(&mut cursor) {
        Ok(root) => say_front(case, root.write().bytes(), &mut cursor),
        Err(fault) => case.refuse(fault.number(), fault),
    }
}

fn promise(case: &mut Case<'_>) {
    let mut cursor = Cursor::new(case.bytes());
    match Promise::read_from(&mut cursor) {
        Ok(promise) => say_front(case, promise.write().bytes(), &mut cursor),
        Err(fault) => case.refuse(fault.number(), fault),
    }
}

fn signed_promise(case: &mut Case<'_>) {
    let mut cursor = Cursor::new(case.bytes());
    match SignedPromise::read_from(&mut cursor) {
        Ok(signed) => say_front(case, signed.write().bytes(), &mut cursor),
        Err(fault) => case.refuse(fault.number(), fault),
    }
}

fn say_front(case: &mut Case<'_>, written: &[u8], rest: &mut Cursor<'_>) {
    case.say_bytes(written);
    case.say_shown(count_left(rest));
}

/// How many bytes the cursor still reads.
fn count_left(rest: &mut Cursor<'_>) -> u64 {
    for count in 0..u64::MAX {
        if rest.u8().is_err() {
            return count;
        }
    }
    u64::MAX
}
