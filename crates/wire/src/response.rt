// Each kind is read in a function of its own, and not inlined if it holds much: a function clears the room of all
// that it may hold.
ghost use Rattle.std.specs.Prelude.{◌≡◌, ◌≢◌, ℕ, ◌∷◌, [], MatchOption};
ghost use Rattle.wire.specs.Responses.{ReadsResponse};
ghost use Rattle.wire.specs.declared.response.TheConstants.{PROMISED, PROOF, ROOTS, ROOT, REFUSED};

use crate::ReadRefusal;
use proofs::ReplyView;
use rootchain::{RootList, SignedPromise, SignedRoot};

/// The kind byte of a promise.
pub const PROMISED: u8 = 129;

/// The kind byte of a reply to a look-up.
pub const PROOF: u8 = 130;

/// The kind bytes of the other responses.
pub(crate) const ROOTS: u8 = 131;

pub(crate) const ROOT: u8 = 132;

pub(crate) const REFUSED: u8 = 255;

/// What a directory responds, read from the body of a frame.
#[derive(Drop)]
pub enum Response<'a> {
    /// The promise to bind a key to a name in the next epoch.
    Promise(SignedPromise),
    /// The reply to a look-up.
    Proof(ReplyView<'a>),
    /// Signed roots.
    Roots(RootList<'a>),
    /// A signed root.
    Root(SignedRoot),
    /// The number of the reason why the request is refused.
    Refused(u8),
}

impl<'a> Response<'a> {
    /// The response that a frame of this kind with this body is.
    ///
    /// # Errors
    ///
    /// `BadKind` if no response is of the kind, else `BadBody` if the body does not spell one.
    pub fn read(kind: u8, body: &'a [u8]) -> Result<Response<'a>, ReadRefusal>
        ensures { ReadsResponse kind body.entry.now result }
    {
        match kind {
            PROMISED => read_promise(body),
            PROOF => read_proof(body),
            ROOTS => read_roots(body),
            ROOT => read_root(body),
            REFUSED => read_code(body),
            _ => Err(ReadRefusal::BadKind),
        }
    }
}

#[inline(never)]
fn read_promise<'a>(body: &'a [u8]) -> Result<Response<'a>, ReadRefusal>
    ensures { ReadsResponse PROMISED body.entry.now result }
{
    match SignedPromise::read(body) {
        Ok(promise) => Ok(Response::Promise(promise)),
        Err(_) => Err(ReadRefusal::BadBody),
    }
}

#[inline(never)]
fn read_proof<'a>(body: &'a [u8]) -> Result<Response<'a>, ReadRefusal>
    ensures { ReadsResponse PROOF body.entry.now result }
{
    match ReplyView::read(body) {
        Ok(proof) => Ok(Response::Proof(proof)),
        Err(_) => Err(ReadRefusal::BadBody),
    }
}

#[inline(never)]
fn read_roots<'a>(body: &'a [u8]) -> Result<Response<'a>, ReadRefusal>
    ensures { ReadsResponse ROOTS body.entry.now result }
{
    match RootList::read(body) {
        Ok(roots) => Ok(Response::Roots(roots)),
        Err(_) => Err(ReadRefusal::BadBody),
    }
}

#[inline(never)]
fn read_root<'a>(body: &'a [u8]) -> Result<Response<'a>, ReadRefusal>
    ensures { ReadsResponse ROOT body.entry.now result }
{
    match SignedRoot::read(body) {
        Ok(root) => Ok(Response::Root(root)),
        Err(_) => Err(ReadRefusal::BadBody),
    }
}

fn read_code<'a>(body: &'a [u8]) -> Result<Response<'a>, ReadRefusal>
    ensures { ReadsResponse REFUSED body.entry.now result }
{
    match only_byte(body) {
        Some(code) => Ok(Response::Refused(code)),
        None => Err(ReadRefusal::BadBody),
    }
}

/// The byte of a body that has one alone.
fn only_byte(body: &[u8]) -> Option<u8>
    ensures { MatchOption result ((code : ℕ) → body.now ≢ code ∷ []) (λ code. body.now ≡ code ∷ []) }
{
    match body {
        [code] => Some(*code),
        _ => None,
    }
}
