//! What two accepted replies show of a final binding.
ghost use Rattle.std.specs.Prelude.{◌↔◌, IsTrue};
ghost use Rattle.coniks.specs.Finals.{ChangesFinal};

use crate::trusting::AnyValue;
use nodehash::NodeHash;
use proofs::Accepted;

/// Whether one reply states a key with Final, and the other, with the same index, anything else.
pub(crate) fn changes<H: NodeHash>(
    one: &Accepted<'_, H, AnyValue>,
    other: &Accepted<'_, H, AnyValue>,
) -> bool
    ensures { IsTrue result ↔ ChangesFinal H.digest_of one.now.reply other.now.reply }
{
    one.statement().is_final()
        && one.index() == other.index()
        && one.statement() != other.statement()
}
