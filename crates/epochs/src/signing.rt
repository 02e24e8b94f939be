ghost use Rattle.std.specs.Prelude.{◌≡◌};
ghost use Rattle.encoding.specs.Bytes.{Is32Bytes};
ghost use Rattle.nodehash.specs.Digests.{one_more};
ghost use Rattle.rand_core.specs.Stream.{fill_bytes};
ghost use Rattle.rootchain.specs.Bodies.{body_bytes};
ghost use Rattle.rootchain.specs.Promises.{promise_bytes};

use encoding::Hash32;
use nodehash::NodeHash;
use rand_core::Rng;
use rootchain::{Body, BodyText, Promise, SignedPromise, SignedRoot};
use sigiface::Signer;

/// The signed root of a body, whose bytes are these.
pub(crate) fn signed_root<S: Signer>(signer: &S, body: Body, text: &BodyText) -> SignedRoot
    requires { text.now ≡ body_bytes body }
    ensures { result ≡ record { body = body; signature = S.signature_of (S.public_key signer.now) (body_bytes body) } }
{
    let signature = signer.sign(text.bytes());
    SignedRoot { body, signature }
}

pub(crate) fn signed_promise<S: Signer>(signer: &S, promise: Promise) -> SignedPromise
    ensures { result ≡ record { promise = promise; signature = S.signature_of (S.public_key signer.now) (promise_bytes promise) } }
{
    let signature = signer.sign(promise.write().bytes());
    SignedPromise { promise, signature }
}

/// The next salt of a stream.
pub(crate) fn next_salt<R: Rng>(salts: &mut R) -> Hash32
    ensures drawn { (result, R.stream salts.new) ≡ fill_bytes 32 (R.stream salts.old) }
    ensures size { Is32Bytes result }
{
    let mut bytes = [0; 32];
    salts.fill_bytes(&mut bytes);
    let salt = Hash32::new(bytes);
    // The clause on its size needs the length that the accessor tells.
    prove!(salt.bytes().len() == 32);
    salt
}

/// The hash of a body's bytes, which the next root names and which promises are over. Takes one digest.
pub(crate) fn hash_of<H: NodeHash>(hash: &mut H, text: &BodyText) -> Hash32
    ensures value { result ≡ H.digest_of text.now }
    ensures count { H.digests hash.new ≡ one_more (H.digests hash.old) }
{
    hash.digest(text.bytes())
}
