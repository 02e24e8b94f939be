//! Two roots, whose signatures are the caller's to verify.
ghost use Rattle.std.specs.Prelude.{◌↔◌, IsTrue};
ghost use Rattle.coniks.specs.Exports.{Stand};

use crate::trusting::AnySignature;
use encoding::Hash32;
use nodehash::NodeHash;
use rootchain::RootEvidence;

/// Whether two roots stand as the kind says.
pub(crate) fn holds<H: NodeHash>(hash: &mut H, evidence: &RootEvidence) -> bool
    ensures { IsTrue result ↔ Stand H.digest_of evidence.now }
{
    evidence.holds(hash, &AnySignature, &Hash32::default())
}
