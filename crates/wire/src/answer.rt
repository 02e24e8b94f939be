ghost use Rattle.std.specs.Prelude.{◌≡◌, ◌+◌, ◌≤◌, ◌++◌, length, OnOk, OnErr, IsOk, vec_len, vec_capacity};
ghost use Rattle.rootchain.specs.Promises.{signed_promise_bytes};
ghost use Rattle.rootchain.specs.declared.root_list.TheConstants.{MAX_LIST_LEN, MAX_ROOTS};
ghost use Rattle.rootchain.specs.RootLists.{root_list_bytes};
ghost use Rattle.rootchain.specs.SignedRoots.{signed_root_bytes};
ghost use Rattle.wire.specs.Frames.{frame_bytes, frame_size};
ghost use Rattle.wire.specs.Responses as response;
ghost use Rattle.wire.specs.Responses.{answer_frame, response_frame, HasFewRoots};
ghost use Rattle.wire.specs.declared.answer.TheConstants.{MAX_ANSWER_LEN};
ghost use Rattle.encoding.specs.declared.fixed_text.TheConstants.{PROOF_TEXT_ROOM};

use crate::response::{PROMISED, PROOF, REFUSED, ROOT, ROOTS};
use crate::writing::begin_frame;
use encoding::ProofText;
use rootchain::{SignedPromise, SignedRoot, list_len, write_list};
use std::alloc::AllocError;

/// The most bytes that the frame of an answer has: 64 roots with the longest signatures.
pub const MAX_ANSWER_LEN: usize = 25863;

/// A response that is to be written, whose parts lie where the directory has them.
#[derive(Debug, Drop)]
pub enum Answer<'a> {
    /// The promise to bind a key to a name in the next epoch.
    Promise(&'a SignedPromise),
    /// The bytes of the reply to a look-up.
    Proof(&'a ProofText),
    /// Signed roots, at most 64.
    Roots(&'a [SignedRoot]),
    /// A signed root.
    Root(&'a SignedRoot),
    /// The number of the reason why the request is refused.
    Refused(u8),
}

impl Answer<'_> {
    /// Appends the frame of the response. An `Err` appends nothing, and is not returned where there
    /// is room.
    pub fn write(&self, output: &mut Vec<u8>) -> Result<(), AllocError>
        requires { HasFewRoots self.now }
        ensures ok { OnOk result (output.new.items ≡ output.old.items ++ frame_bytes (answer_frame self.now)) }
        ensures err { OnErr result (output.new.items ≡ output.old.items) }
        ensures room { vec_len output.old + 4 + frame_size (answer_frame self.now) ≤ vec_capacity output.old → IsOk result }
        ensures most { 4 + frame_size (answer_frame self.now) ≤ MAX_ANSWER_LEN }
    {
        match self {
            Answer::Promise(promise) => append_promise(output, promise),
            Answer::Proof(text) => append_text(output, PROOF, text.bytes()),
            Answer::Roots(roots) => append_roots(output, roots),
            Answer::Root(root) => append_root(output, root),
            Answer::Refused(code) => append_text(output, REFUSED, &[*code]),
        }
    }
}

/// Appends a frame with this body.
fn append_text(output: &mut Vec<u8>, kind: u8, text: &[u8]) -> Result<(), AllocError>
    requires { length text.now ≤ PROOF_TEXT_ROOM }
    ensures ok { OnOk result (output.new.items ≡ output.old.items ++ frame_bytes (record { kind = kind; body = text.now })) }
    ensures err { OnErr result (output.new.items ≡ output.old.items) }
    ensures room { vec_len output.old + 5 + length text.now ≤ vec_capacity output.old → IsOk result }
{
    begin_frame(output, kind, text.len())?;
    output.extend_from_slice(text)
}

/// Appends the frame of a promise. A function clears the room of all its texts when it is entered, so
/// each text that is made here has a function of its own.
fn append_promise(output: &mut Vec<u8>, promise: &SignedPromise) -> Result<(), AllocError>
    ensures ok { OnOk result (output.new.items ≡ output.old.items ++ frame_bytes (response_frame (response.Promise promise.now))) }
    ensures err { OnErr result (output.new.items ≡ output.old.items) }
    ensures room { vec_len output.old + 5 + length (signed_promise_bytes promise.now) ≤ vec_capacity output.old → IsOk result }
    ensures most { length (signed_promise_bytes promise.now) ≤ MAX_LIST_LEN }
{
    append_text(output, PROMISED, promise.write().bytes())
}

/// Appends the frame of a root.
fn append_root(output: &mut Vec<u8>, root: &SignedRoot) -> Result<(), AllocError>
    ensures ok { OnOk result (output.new.items ≡ output.old.items ++ frame_bytes (response_frame (response.Root root.now))) }
    ensures err { OnErr result (output.new.items ≡ output.old.items) }
    ensures room { vec_len output.old + 5 + length (signed_root_bytes root.now) ≤ vec_capacity output.old → IsOk result }
    ensures most { length (signed_root_bytes root.now) ≤ MAX_LIST_LEN }
{
    append_text(output, ROOT, root.write().bytes())
}

/// Appends the frame of a list of roots.
fn append_roots(output: &mut Vec<u8>, roots: &[SignedRoot]) -> Result<(), AllocError>
    requires { length roots.now ≤ MAX_ROOTS }
    ensures ok { OnOk result (output.new.items ≡ output.old.items ++ frame_bytes (response_frame (response.Roots roots.now))) }
    ensures err { OnErr result (output.new.items ≡ output.old.items) }
    ensures room { vec_len output.old + 5 + length (root_list_bytes roots.now) ≤ vec_capacity output.old → IsOk result }
    ensures most { length (root_list_bytes roots.now) ≤ MAX_LIST_LEN }
{
    begin_frame(output, ROOTS, list_len(roots))?;
    write_list(roots, output)
}
