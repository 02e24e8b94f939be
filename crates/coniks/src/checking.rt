//! A reply is checked with the caller's answer to whether its value is accepted.
ghost use Rattle.std.specs.Prelude.{◌≡◌, true, IfErr, IfOk};
ghost use Rattle.proofs.specs.Comparisons.{IsAcceptedReply, Refuses};
ghost use Rattle.coniks.specs.Told.{any, told};

use crate::trusting::AnyValue;
use encoding::Name;
use nodehash::NodeHash;
use proofs::{Accepted, Refusal, accept};
use rootchain::Body;

/// Reads a reply for a name and checks it under this body, where the caller says whether its value is accepted for the
/// name under the body's key.
///
/// # Errors
///
/// The first refusal that applies.
pub(crate) fn accept_told<'a, H: NodeHash>(
    hash: &mut H,
    body: &Body,
    name: &Name,
    bytes: &'a [u8],
    is_accepted: bool,
) -> Result<Accepted<'a, H, AnyValue>, Refusal>
    ensures accepted { IfOk result (λ accepted. (is_accepted ≡ true) × IsAcceptedReply H.digest_of any body.now name.now bytes.entry.now accepted.reply) }
    ensures named { IfOk result (λ accepted. accepted.name ≡ name.now) }
    ensures refused { IfErr result (Refuses H.digest_of (told is_accepted) body.now name.now bytes.entry.now) }
{
    match accept(hash, &AnyValue, body, name, bytes) {
        Ok(accepted) => {
            if is_accepted {
                Ok(accepted)
            } else {
                Err(Refusal::BadVuf)
            }
        }
        Err(why) => {
            if is_accepted || why.number() < Refusal::BadVuf.number() {
                Err(why)
            } else {
                Err(Refusal::BadVuf)
            }
        }
    }
}
