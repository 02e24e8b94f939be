//! What an accepted reply shows of a promise.
ghost use Rattle.std.specs.Prelude.{◌≡◌, ◌↔◌, IsTrue};
ghost use Rattle.proofs.specs.Accepts.{stated};
ghost use Rattle.coniks.specs.Exports.{IsNext, Judges};

use crate::trusting::AnyValue;
use nodehash::NodeHash;
use proofs::Accepted;
use rootchain::{Promise, SignedRoot};

/// The promise was broken.
const BROKEN: u8 = 19;

/// The name has another index than the promise says.
const OTHER_INDEX: u8 = 20;

/// The promise was kept.
const KEPT: u8 = 0;

/// Whether a root follows that of a promise.
pub(crate) fn is_next(promise: &Promise, root: &SignedRoot) -> bool
    ensures { IsTrue result ↔ IsNext promise.now root.now }
{
    root.body.previous_epoch == promise.epoch && root.body.previous_hash == promise.body_hash
}

/// What an accepted reply for the name of a promise shows of it.
pub(crate) fn verdict<H: NodeHash>(promise: &Promise, accepted: &Accepted<'_, H, AnyValue>) -> u8
    ensures { Judges H.digest_of promise.now accepted.now.reply (stated accepted.now.reply.end) result }
{
    if accepted.index() != promise.index {
        return OTHER_INDEX;
    }
    if accepted.statement().binds(&promise.key) {
        KEPT
    } else {
        BROKEN
    }
}
