ghost use Rattle.std.specs.Prelude.{◌≡◌};
ghost use Rattle.nodehash.specs.Digests.{one_more};

use encoding::Index;
use nodehash::NodeHash;

/// The private index of a name (CONIKS, section 3), from the name's value.
pub fn index_of<H: NodeHash>(hash: &mut H, value: &[u8]) -> Index
    ensures value { result ≡ H.digest_of value.now }
    ensures count { H.digests hash.new ≡ one_more (H.digests hash.old) }
{
    Index::new(hash.digest(value).to_bytes())
}
