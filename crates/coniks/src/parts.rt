//! Where the parts of a form lie in its bytes.
ghost use Rattle.std.specs.Prelude.{◌≡◌, ◌≤◌, ℕ, List, length};
ghost use Rattle.encoding.specs.declared.small.TheConstants.{MAX_SMALL_LEN};
ghost use Rattle.proofs.specs.Accepts.{stated};
ghost use Rattle.proofs.specs.Replies.{Reply, SpellsReply};
ghost use Rattle.proofs.specs.Views.{key_stated};
ghost use Rattle.rootchain.specs.Promises.{signed_promise_bytes, IsSignedPromise};
ghost use Rattle.rootchain.specs.SignedRoots.{signed_root_bytes, IsSignedRoot};
ghost use Rattle.coniks.specs.Parts.{policy_code, ShowsPromise, ShowsReply, ShowsRoot, ShowsStatement};

use encoding::{Policy, policy_len};
use proofs::{ReplyView, Statement};
use rootchain::{BODY_LEN, SignedPromise, SignedRoot};

/// How many bytes the length of a part has that is counted.
const COUNT_LEN: usize = 2;

/// Where the key of the verifiable function stands in a body.
const VUF_KEY_START: usize = BODY_LEN - 32;

/// Where the name stands in a promise without a policy: behind the kind, the version, the epoch, the hash of the root's
/// body, the index and the length of the name.
const NAME_START: usize = 2 + 8 + 32 + 32 + COUNT_LEN;

/// Bytes from `start` on, counted from the beginning of what was read.
#[derive(Clone, Copy, Drop)]
#[repr(C)]
pub struct Part {
    pub start: usize,
    pub len: usize,
}

/// A signed root that was read: `coniks_root` in C.
#[derive(Drop)]
#[repr(C)]
pub struct RootParts {
    pub epoch: u64,
    /// 0 if no epoch came before.
    pub previous_epoch: u64,
    /// What is signed.
    pub body: Part,
    /// The provider's key of the verifiable function, 32 bytes of the body.
    pub vuf_key: Part,
    pub signature: Part,
}

/// A reply to a look-up that was read, and not checked: `coniks_reply` in C.
#[derive(Drop)]
#[repr(C)]
pub struct ReplyParts {
    pub epoch: u64,
    /// The body of the root that it is of.
    pub body: Part,
    /// The provider's key of the verifiable function, 32 bytes of the body.
    pub vuf_key: Part,
    /// The value that is to be accepted for the name under this key.
    pub value: Part,
}

/// A signed promise that was read: `coniks_promise` in C.
#[derive(Drop)]
#[repr(C)]
pub struct PromiseParts {
    pub epoch: u64,
    /// The hash of the body of the root of that epoch.
    pub body_hash: Part,
    /// What is signed.
    pub promise: Part,
    pub signature: Part,
    pub name: Part,
    pub key: Part,
    /// 1 for open, 2 for final, 0 for none.
    pub policy: u8,
}

/// A frame at the front of bytes: `coniks_frame` in C.
#[derive(Drop)]
#[repr(C)]
pub struct FrameParts {
    pub kind: u8,
    pub body: Part,
}

/// How long two texts are: `coniks_lens` in C.
#[derive(Drop)]
#[repr(C)]
pub struct Lens {
    pub one: usize,
    pub other: usize,
}

/// What an accepted reply states: `coniks_binding` in C.
#[derive(Drop)]
#[repr(C)]
pub struct Binding {
    /// Whether the name is bound to a key. Else `key` is empty and `policy` is 0.
    pub is_present: bool,
    /// 1 for open, 2 for final, 0 for none.
    pub policy: u8,
    pub key: Part,
}

const BODY: Part = Part {
    start: 0,
    len: BODY_LEN,
};

const VUF_KEY: Part = Part {
    start: VUF_KEY_START,
    len: BODY_LEN - VUF_KEY_START,
};

/// Where the hash of a root's body stands in a promise: behind the kind, the version and the epoch.
const BODY_HASH: Part = Part {
    start: 2 + 8,
    len: 32,
};

impl RootParts {
    pub(crate) fn of(signed: &SignedRoot) -> RootParts
        requires { IsSignedRoot signed.now }
        ensures { ShowsRoot (signed_root_bytes signed.now) signed.now result }
    {
        RootParts {
            epoch: signed.body.epoch,
            previous_epoch: signed.body.previous_epoch,
            body: BODY,
            vuf_key: VUF_KEY,
            signature: Part {
                start: BODY_LEN + COUNT_LEN,
                len: signed.signature.bytes().len(),
            },
        }
    }
}

impl ReplyParts {
    pub(crate) fn of(view: &ReplyView<'_>) -> ReplyParts
        ensures { (bytes : List ℕ) → SpellsReply bytes view.now → ShowsReply bytes view.now result }
    {
        ReplyParts {
            epoch: view.body().epoch,
            body: BODY,
            vuf_key: VUF_KEY,
            value: Part {
                start: BODY_LEN + COUNT_LEN,
                len: view.value().len(),
            },
        }
    }
}

impl PromiseParts {
    pub(crate) fn of(signed: &SignedPromise) -> PromiseParts
        requires { IsSignedPromise signed.now }
        ensures { ShowsPromise (signed_promise_bytes signed.now) signed.now result }
    {
        let promise = &signed.promise;
        let (name_len, key_len) = (promise.name.bytes().len(), promise.key.bytes().len());
        let name_start = NAME_START + policy_len(promise.key.policy);
        let key_start = name_start + name_len + COUNT_LEN;
        PromiseParts {
            epoch: promise.epoch,
            body_hash: BODY_HASH,
            promise: Part {
                start: 0,
                len: key_start + key_len,
            },
            signature: Part {
                start: key_start + key_len + COUNT_LEN,
                len: signed.signature.bytes().len(),
            },
            name: Part {
                start: name_start,
                len: name_len,
            },
            key: Part {
                start: key_start,
                len: key_len,
            },
            policy: policy_code(promise.key.policy),
        }
    }
}

impl Binding {
    /// Of a reply whose value has so many bytes.
    pub(crate) fn of(statement: Statement<'_>, value_len: usize) -> Binding
        requires { value_len ≤ MAX_SMALL_LEN }
        ensures { (bytes : List ℕ) (reply : Reply) → SpellsReply bytes reply → length reply.value ≡ value_len → key_stated statement.entry ≡ stated reply.end → ShowsStatement bytes (stated reply.end) result }
    {
        let Statement::Present(key, policy) = statement else {
            return Binding {
                is_present: false,
                policy: 0,
                key: Part { start: 0, len: 0 },
            };
        };
        // Behind the body and the value stand the kind of the end, the policy if there is one, the salt, and the key.
        let end = BODY_LEN + COUNT_LEN + value_len;
        Binding {
            is_present: true,
            policy: policy_code(policy),
            key: Part {
                start: end + 1 + policy_len(policy) + 32 + COUNT_LEN,
                len: key.len(),
            },
        }
    }
}

/// The byte of a policy, or 0.
fn policy_code(policy: Option<Policy>) -> u8
    ensures { result ≡ policy_code policy }
{
    match policy {
        None => 0,
        Some(policy) => policy.byte(),
    }
}
