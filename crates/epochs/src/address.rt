ghost use Rattle.std.specs.Prelude.{◌≡◌};
ghost use Rattle.nodehash.specs.Digests.{one_more};

use encoding::{Index, Name, Small};
use nodehash::NodeHash;
use vrfiface::{Vuf, index_of};

/// Where a name stands in the trees: its value by the verifiable function, and the index that is the
/// digest of the value.
#[derive(Drop)]
pub(crate) struct Address {
    pub(crate) value: Small,
    pub(crate) index: Index,
}

impl Address {
    /// The address of a name, computed. Takes one digest.
    pub(crate) fn computed<H: NodeHash, V: Vuf>(hash: &mut H, vuf: &V, name: &Name) -> Address
        ensures value { let value = V.value_of (V.public_key vuf.now) name.now in result ≡ record { value = value; index = H.digest_of value } }
        ensures count { H.digests hash.new ≡ one_more (H.digests hash.old) }
    {
        let value = vuf.value(name);
        let index = index_of(hash, value.bytes());
        Address { value, index }
    }
}
