//! The frames of requests. Each is made in a room of its own, and then put at the front of the caller's buffer.
ghost use Rattle.std.specs.Prelude.{◌≡◌, ◌↔◌, ◌≤◌, IsTrue, ℕ, List, Bool, Option, length};
ghost use Rattle.commands.specs.Operations.{History, Lookup, Promise};
ghost use Rattle.wire.specs.Frames.{frame_bytes};
ghost use Rattle.wire.specs.Requests.{request_body, request_kind, Put, Query, Turn};
ghost use Rattle.coniks.specs.Asking.{verb_asked, NonceAsked, PolicyAsked};
ghost use Rattle.coniks.specs.Comparing.{IsPut};

use crate::comparing::put;
use encoding::{KeyData, Name, Policy, Text};

/// The kind bytes of a registration and of a change.
const REGISTER: u8 = 1;

const CHANGE: u8 = 2;

/// Those with a policy.
const REGISTER_WITH_POLICY: u8 = 10;

const CHANGE_WITH_POLICY: u8 = 11;

/// Those of the end of an epoch, without a nonce and with one.
const CLOSE: u8 = 7;

const ROTATE: u8 = 8;

/// The kind byte of a request for a promise.
pub(crate) const PROMISE: u8 = 3;

/// That of a look-up.
pub(crate) const LOOKUP: u8 = 4;

/// That of a request for roots.
pub(crate) const HISTORY: u8 = 5;

/// That of a request for the latest root.
pub(crate) const HEAD: u8 = 6;

/// Whether a byte is 0, or that of a policy.
pub(crate) fn asks_policy(policy: u8) -> bool
    ensures { IsTrue result ↔ ((asked : Option ℕ) × PolicyAsked policy asked) }
{
    policy == 0 || Policy::new(policy).is_ok()
}

/// Whether a nonce has 32 bytes, or none.
pub(crate) fn asks_nonce(nonce: &[u8]) -> bool
    ensures { IsTrue result ↔ ((asked : Option (List ℕ)) × NonceAsked nonce.now asked) }
{
    nonce.is_empty() || nonce.len() == 32
}

/// The kind byte of a key that is put to a name.
pub(crate) fn put_kind(is_change: bool, policy: u8) -> u8
    ensures { (name key : List ℕ) (asked : Option ℕ) → PolicyAsked policy asked → result ≡ request_kind (Put (verb_asked is_change) name (key, asked)) }
{
    match (is_change, policy) {
        (false, 0) => REGISTER,
        (true, 0) => CHANGE,
        (false, _) => REGISTER_WITH_POLICY,
        (true, _) => CHANGE_WITH_POLICY,
    }
}

/// The kind byte of the end of an epoch, where the nonce has so many bytes.
pub(crate) fn turn_kind(nonce: &[u8]) -> u8
    ensures { (token : List ℕ) (epoch : ℕ) (asked : Option (List ℕ)) → NonceAsked nonce.now asked → result ≡ request_kind (Turn token epoch asked) }
{
    if nonce.is_empty() { CLOSE } else { ROTATE }
}

/// The body of a request to put a key to a name, with the byte of a policy, or 0.
pub(crate) fn put_body(name: &Name, key: &KeyData, policy: u8) -> Text
    ensures value { (is_change : Bool) (asked : Option ℕ) → PolicyAsked policy asked → result ≡ request_body (Put (verb_asked is_change) name.now (key.now, asked)) }
    ensures few { length result ≤ 2395 }
{
    let mut body = Text::new();
    if policy != 0 {
        body.push(policy);
    }
    body.push_counted(name.bytes());
    body.push_counted(key.bytes());
    body
}

/// The body of a request for the promise of a name.
pub(crate) fn promise_body(name: &Name) -> Text
    ensures value { result ≡ request_body (Query (Promise name.now)) }
    ensures few { length result ≤ 2395 }
{
    let mut body = Text::new();
    body.push_counted(name.bytes());
    body
}

/// The body of a look-up.
pub(crate) fn lookup_body(name: &Name, epoch: u64) -> Text
    ensures value { result ≡ request_body (Query (Lookup name.now epoch)) }
    ensures few { length result ≤ 2395 }
{
    let mut body = Text::new();
    body.push_u64(epoch);
    body.push_counted(name.bytes());
    body
}

/// The body of a request for so many roots.
pub(crate) fn history_body(from: u64, count: u16) -> Text
    ensures value { result ≡ request_body (Query (History from count)) }
    ensures few { length result ≤ 2395 }
{
    let mut body = Text::new();
    body.push_u64(from);
    body.push_u16(count);
    body
}

/// The body of the end of an epoch. A token and a nonce have 32 bytes.
pub(crate) fn turn_body(token: &[u8], epoch: u64, nonce: &[u8]) -> Text
    requires token { length token.now ≡ 32 }
    requires nonce { (asked : Option (List ℕ)) × NonceAsked nonce.now asked }
    ensures value { (asked : Option (List ℕ)) → NonceAsked nonce.now asked → result ≡ request_body (Turn token.now epoch asked) }
    ensures few { length result ≤ 2395 }
{
    let mut body = Text::new();
    body.push_slice(token);
    body.push_u64(epoch);
    body.push_slice(nonce);
    body
}

/// Puts a frame of this kind with this body at the front of a buffer. Returns its length.
pub(crate) fn put_frame(kind: u8, body: &Text, buffer: &mut [u8]) -> usize
    requires body { length body.now ≤ 2395 }
    requires buffer { 2400 ≤ length buffer.old }
    ensures { IsPut (frame_bytes (record { kind = kind; body = body.now })) buffer.old buffer.new result }
{
    let bytes = body.bytes();
    let mut frame = Text::new();
    frame.push_u32(bytes.len() as u32 + 1);
    frame.push(kind);
    frame.push_slice(bytes);
    put(&frame, buffer)
}
