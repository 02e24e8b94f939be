//! A reply in place in its bytes. `read` goes over the parts once, from the front, and keeps the body, and
//! where the value, the end of the way and the siblings lie: it copies none of these, and the calls return
//! them as they lie. Only their form is tested here; whether they fit together is for `checking` to say.
ghost use Rattle.std.specs.Prelude.{◌≡◌};
ghost use Rattle.encoding.specs.Bytes.{joined};
ghost use Rattle.encoding.specs.Limits.{IsKeyData};
ghost use Rattle.encoding.specs.Reading.{Gives};
ghost use Rattle.proofs.specs.Accepts.{stated};
ghost use Rattle.proofs.specs.Reading.{read_end, read_present, read_reply, read_siblings};
ghost use Rattle.proofs.specs.Refusals.{ReadsReply};
ghost use Rattle.proofs.specs.Replies.{IsEnd, IsReply};
ghost use Rattle.proofs.specs.Views.{end_seen, key_stated, reply_seen};

use crate::kind_bytes::{EMPTY, OTHER, PRESENT, PRESENT_WITH_POLICY};
use crate::{Refusal, Statement};
use encoding::{
    BoundKey, Cursor, Fault, Form, KeyData, MAX_KEY_DATA_LEN, MAX_SMALL_LEN, MIN_LEN, Policy,
};
use prefixtree::MAX_SIBLINGS;
use rootchain::Body;
use std::marker::Model;

/// What stands at the end of a reply's way, in place in the reply's bytes.
#[derive(Clone, Copy)]
pub(crate) enum EndView<'a> {
    Present {
        salt: &'a [u8; 32],
        key: &'a [u8],
        policy: Option<Policy>,
    },
    Empty,
    Other {
        index: &'a [u8; 32],
        commitment: &'a [u8; 32],
    },
}

impl<'a> EndView<'a> {
    /// What it states of the name.
    pub(crate) fn statement(self) -> Statement<'a>
        ensures { key_stated result ≡ stated (end_seen self.entry) }
    {
        match self {
            EndView::Present { key, policy, .. } => Statement::Present(key, policy),
            EndView::Empty | EndView::Other { .. } => Statement::Absent,
        }
    }
}

/// The key of an opened leaf, whose length was checked when it was read.
pub(crate) fn bound_key(bytes: &[u8], policy: Option<Policy>) -> BoundKey
    requires { IsKeyData bytes.now }
    ensures { result ≡ record { value = bytes.now; policy = policy } }
{
    let Ok(value) = KeyData::new(bytes) else {
        unreachable!()
    };
    BoundKey { value, policy }
}

/// The parts of a reply, which lie in its bytes.
#[derive(Clone, Copy)]
pub(crate) struct Parts<'a> {
    body: Body,
    value: &'a [u8],
    end: EndView<'a>,
    siblings: &'a [[u8; 32]],
}

/// A reply to a look-up, read: its parts borrow from the bytes.
#[derive(Drop)]
pub struct ReplyView<'a> {
    parts: Parts<'a>,
}

impl<'a> Model for ReplyView<'a> {
    ghost use Rattle.proofs.specs.Replies.{Reply};

    ghost Value = { Reply };

    ghost use Rattle.proofs.specs.Replies.{IsReply};
    ghost use Rattle.proofs.specs.Views.{reply_seen};

    ghost view = { λ view. reply_seen view.parts };

    ghost invariant = { λ view. IsReply (reply_seen view.parts) };
}

impl<'a> ReplyView<'a> {
    /// Reads the reply that these bytes spell.
    ///
    /// # Errors
    ///
    /// `Trailing` where more bytes follow a reply, else `Malformed`.
    pub fn read(bytes: &'a [u8]) -> Result<ReplyView<'a>, Refusal>
        ensures exact { ReadsReply bytes.entry.now result }
    {
        let mut cursor = Cursor::new(bytes);
        let Ok(parts) = read_parts(&mut cursor) else {
            return Err(Refusal::Malformed);
        };
        if cursor.end().is_err() {
            return Err(Refusal::Trailing);
        }
        Ok(ReplyView { parts })
    }

    /// What the reply states of the name, if it is accepted.
    pub fn statement(&self) -> Statement<'a>
        ensures { key_stated result ≡ stated self.now.end }
    {
        self.parts.end.statement()
    }

    /// The siblings from the root down, 32 bytes each, joined.
    pub fn siblings(&self) -> &'a [u8]
        ensures { result.now ≡ joined self.now.siblings }
    {
        self.parts.siblings.as_flattened()
    }

    /// The body of the signed root that the reply is of.
    pub fn body(&self) -> &Body
        ensures { result.now ≡ self.now.body }
    {
        &self.parts.body
    }

    /// The value that the provider's verifiable function has for the name.
    pub fn value(&self) -> &'a [u8]
        ensures { result.now ≡ self.now.value }
    {
        self.parts.value
    }

    /// What stands at the end of the way.
    pub(crate) fn end(&self) -> EndView<'a>
        ensures value { end_seen result ≡ self.now.end }
        ensures form { IsEnd self.now.end }
        ensures reply { IsReply self.now }
    {
        self.parts.end
    }

    /// The siblings from the root down.
    pub(crate) fn hashes(&self) -> &'a [[u8; 32]]
        ensures value { result.now ≡ self.now.siblings }
        ensures form { IsReply self.now }
    {
        self.parts.siblings
    }

    /// A copy of the view. It is made field by field, since the borrow checker does not cover a move of
    /// references beside a type with a model.
    pub(crate) fn copied(&self) -> ReplyView<'a>
        ensures { result ≡ self.now }
    {
        ReplyView {
            parts: Parts {
                body: self.parts.body,
                value: self.parts.value,
                end: self.parts.end,
                siblings: self.parts.siblings,
            },
        }
    }
}

/// The parts of an opened leaf at the front of the bytes.
fn read_present<'a>(has_policy: bool, cursor: &mut Cursor<'a>) -> Result<EndView<'a>, Fault>
    ensures { Gives end_seen result cursor.new (read_present has_policy cursor.old) }
{
    Ok(EndView::Present {
        policy: cursor.policy_if(has_policy)?,
        salt: cursor.array()?,
        key: cursor.counted(MIN_LEN, MAX_KEY_DATA_LEN)?,
    })
}

/// The end at the front of the bytes.
#[tactic(auto, unfolding(crate::specs::Reading::read_end))]
fn read_end<'a>(cursor: &mut Cursor<'a>) -> Result<EndView<'a>, Fault>
    ensures { Gives end_seen result cursor.new (read_end cursor.old) }
{
    match cursor.u8()? {
        PRESENT => read_present(false, cursor),
        EMPTY => Ok(EndView::Empty),
        OTHER => Ok(EndView::Other {
            index: cursor.array()?,
            commitment: cursor.array()?,
        }),
        PRESENT_WITH_POLICY => read_present(true, cursor),
        _ => Err(Fault::OutOfRange),
    }
}

/// The siblings at the front of the bytes, behind their number.
#[tactic(auto, unfolding(crate::specs::Reading::read_siblings))]
fn read_siblings<'a>(cursor: &mut Cursor<'a>) -> Result<&'a [[u8; 32]], Fault>
    ensures { Gives (λ siblings. siblings.now) result cursor.new (read_siblings cursor.old) }
{
    let count = usize::from(cursor.u16()?);
    if MAX_SIBLINGS < count {
        return Err(Fault::OutOfRange);
    }
    let (siblings, _) = cursor.take(32 * count)?.as_chunks::<32>();
    Ok(siblings)
}

/// The reply at the front of the bytes.
#[tactic(auto, unfolding(crate::specs::Reading::read_reply))]
fn read_parts<'a>(cursor: &mut Cursor<'a>) -> Result<Parts<'a>, Fault>
    ensures { Gives reply_seen result cursor.new (read_reply cursor.old) }
{
    Ok(Parts {
        body: Body::read_from(cursor)?,
        value: cursor.counted(MIN_LEN, MAX_SMALL_LEN)?,
        end: read_end(cursor)?,
        siblings: read_siblings(cursor)?,
    })
}
