ghost use Rattle.std.specs.Prelude.{◌≡◌, length, IsOkUnless};
ghost use Rattle.encoding.specs.Fields.{ReadsWhole};
ghost use Rattle.rootchain.specs.declared.body.TheConstants.{BODY_LEN};
ghost use Rattle.rootchain.specs.declared.root_refusal.Refusal.TheVariants.{Malformed};
ghost use Rattle.rootchain.specs.Bodies.{body_bytes, is_well_formed, read_body, IsBody, IsSized, IsWellFormed};

use crate::Refusal;
use crate::whole::whole;
use encoding::{Cursor, Fault, FixedText, Form, Hash32};

/// The kind byte of a body, the letter R, and the version of its form.
const HEAD: [u8; 2] = [0x52, 1];

/// How many bytes a body has.
pub const BODY_LEN: usize = 146;

/// The bytes of a body.
pub type BodyText = FixedText<BODY_LEN>;

/// The body of a signed tree root (CONIKS, section 3).
#[derive(Clone, Copy, Debug, PartialEq, Eq)]
pub struct Body {
    /// The number of the epoch, from 1 on.
    pub epoch: u64,
    /// The number of the epoch before, or 0 where there is none.
    pub previous_epoch: u64,
    /// The root of the prefix tree.
    pub root: Hash32,
    /// The hash of the body before, or zeros where there is none.
    pub previous_hash: Hash32,
    /// The nonce of the tree.
    pub nonce: Hash32,
    /// The public key of the verifiable function.
    pub vuf_key: Hash32,
}

impl Body {
    /// The body that these bytes spell. The only refusal is `Malformed`.
    pub fn read(bytes: &[u8]) -> Result<Body, Refusal>
        ensures exact { ReadsWhole (λ body. body) body_bytes IsBody bytes.now result }
        ensures refusal { IsOkUnless result Malformed }
    {
        whole(bytes)
    }

    /// The 146 bytes of the body, which `read` accepts where the body is well formed.
    pub fn write(&self) -> BodyText
        ensures value { result ≡ body_bytes self.now }
        ensures len { length result ≡ BODY_LEN }
        ensures sized { IsSized self.now }
        ensures form { IsWellFormed self.now → IsBody self.now }
    {
        let mut text = BodyText::new();
        text.push_slice(&HEAD);
        text.push_u64(self.epoch);
        text.push_u64(self.previous_epoch);
        text.push_slice(self.root.bytes());
        text.push_slice(self.previous_hash.bytes());
        text.push_slice(self.nonce.bytes());
        text.push_slice(self.vuf_key.bytes());
        text
    }

    /// Whether the epoch is above the previous one, and the previous hash is zero where there is none.
    fn is_well_formed(&self) -> bool
        ensures { result ≡ is_well_formed self.now }
    {
        self.previous_epoch < self.epoch
            && (self.previous_epoch != 0 || self.previous_hash == Hash32::new([0; 32]))
    }
}

impl Form for Body {
    ghost use Rattle.rootchain.specs.Readable.{body_field};

    ghost spelling = { body_bytes };

    ghost Allowed = { IsBody };

    ghost reader = { read_body };

    ghost is_field = { body_field };

    #[tactic(auto, unfolding(crate::specs::Bodies::read_body))]
    fn read_parts(cursor: &mut Cursor<'_>) -> Result<Body, Fault> {
        if cursor.take(2)? != HEAD.as_slice() {
            return Err(Fault::OutOfRange);
        }
        let body = Body {
            epoch: cursor.u64()?,
            previous_epoch: cursor.u64()?,
            root: cursor.hash32()?,
            previous_hash: cursor.hash32()?,
            nonce: cursor.hash32()?,
            vuf_key: cursor.hash32()?,
        };
        if !body.is_well_formed() {
            return Err(Fault::OutOfRange);
        }
        Ok(body)
    }
}
