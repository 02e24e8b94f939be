ghost use Rattle.std.specs.Prelude.{◌≡◌, ◌+◌, ◌*◌, ◌≤◌, ◌++◌, length, vec_len, vec_capacity};
ghost use Rattle.encoding.specs.Policies.{has_policy};
ghost use Rattle.rootchain.specs.Bodies.{IsWellFormed};
ghost use Rattle.proofs.specs.Replies.{front_bytes, present_kind, reply_end_bytes, reply_bytes, sibling_bytes, AreSiblings, IsEnd, IsReply};
ghost use Rattle.proofs.specs.Views.{end_given};
ghost use Rattle.proofs.specs.declared.making.TheConstants.{END_LEN, FRONT_ROOM};
ghost use Rattle.prefixtree.specs.declared.path.TheConstants.{MAX_SIBLINGS};
ghost use Rattle.encoding.specs.declared.fixed_text.TheConstants.{PROOF_TEXT_ROOM};

use crate::End;
use crate::kind_bytes::{EMPTY, OTHER, PRESENT, PRESENT_WITH_POLICY};
use encoding::{FixedText, Hash32, Policy, ProofText, Small};
use prefixtree::Path;
use rootchain::Body;

/// Encodes a reply: this body, this value of the name, this end and the siblings of the path. It has at
/// most 10,682 bytes. With a well-formed body, `ReplyView::read` accepts them.
pub fn make(body: &Body, value: &Small, end: &End<'_>, path: &Path) -> ProofText
    ensures value { result ≡ reply_bytes (record { body = body.now; value = value.now; end = end_given end.now; siblings = path.now.siblings.items }) }
    ensures form { IsWellFormed body.now → IsReply (record { body = body.now; value = value.now; end = end_given end.now; siblings = path.now.siblings.items }) }
{
    let mut text = ProofText::new();
    text.push_slice(body.write().bytes());
    text.push_counted(value.bytes());
    push_end(&mut text, end);
    push_siblings(&mut text, path.siblings.as_slice());
    text
}

/// The room of a reply up to its siblings, which has at most 2,490 bytes.
pub const FRONT_ROOM: usize = 2500;

/// Appends a reply up to its siblings, with the number of these, into room that is there.
pub fn write_front(output: &mut Vec<u8>, body: &Body, value: &Small, end: &End<'_>, siblings: usize)
    requires few { siblings ≤ MAX_SIBLINGS }
    requires room { vec_len output.old + FRONT_ROOM ≤ vec_capacity output.old }
    ensures value { output.new.items ≡ output.old.items ++ front_bytes body.now value.now (end_given end.now) siblings }
    ensures len { vec_len output.new ≤ vec_len output.old + FRONT_ROOM }
    ensures capacity { vec_capacity output.old ≤ vec_capacity output.new }
{
    let mut text: FixedText<FRONT_ROOM> = FixedText::new();
    text.push_slice(body.write().bytes());
    text.push_counted(value.bytes());
    push_end(&mut text, end);
    text.push_u16(siblings as u16);
    let written = output.extend_from_slice(text.bytes()).is_ok();
    prove!(written);
}

/// The bytes of the longest end: its kind, a policy, a salt, and a key of 2,048 bytes behind its length.
const END_LEN: usize = 2084;

/// The kind byte of an opened leaf with this policy, or with none.
fn present_kind(policy: Option<Policy>) -> u8
    ensures { result ≡ present_kind (has_policy policy) }
{
    match policy {
        None => PRESENT,
        Some(_) => PRESENT_WITH_POLICY,
    }
}

/// Appends an end.
fn push_end<const ROOM: usize>(text: &mut FixedText<ROOM>, end: &End<'_>)
    requires { length text.old + END_LEN ≤ ROOM }
    ensures value { text.new ≡ text.old ++ reply_end_bytes (end_given end.now) }
    ensures len { length text.new ≤ length text.old + END_LEN }
    ensures form { IsEnd (end_given end.now) }
{
    match end {
        End::Present { salt, key } => {
            text.push(present_kind(key.policy));
            text.push_policy(key.policy);
            text.push_slice(salt.bytes());
            text.push_counted(key.bytes());
        }
        End::Empty => text.push(EMPTY),
        End::Other { index, commitment } => {
            text.push(OTHER);
            text.push_slice(index.bytes());
            text.push_slice(commitment.bytes());
        }
    }
}

/// Appends the siblings behind their number.
fn push_siblings(text: &mut ProofText, siblings: &[Hash32])
    requires few { length siblings.now ≤ MAX_SIBLINGS }
    requires room { length text.old + 2 + 32 * length siblings.now ≤ PROOF_TEXT_ROOM }
    ensures value { text.new ≡ text.old ++ sibling_bytes siblings.now }
    ensures form { AreSiblings siblings.now }
{
    text.push_u16(siblings.len() as u16);
    for sibling in siblings {
        text.push_slice(sibling.bytes());
    }
}
