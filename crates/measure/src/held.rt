ghost use Rattle.std.specs.Prelude.{◌<◌};

use crate::roots::provider_vuf;
use crate::run::Run;
use crate::tree::Plain;
use commit::commit;
use encoding::{BoundKey, Hash32, Index, KeyData, Name, Small};
use nodehash::Sha256Hash;
use prefixtree::{Item, Tree, placed};
use proofs::End;
use vrfiface::{KeyedVuf, Vuf, index_of};

/// A name of 16 bytes, and what the provider holds for it.
#[derive(Drop)]
pub(crate) struct Held {
    pub(crate) name: Name,
    pub(crate) value: Small,
    pub(crate) index: Index,
    pub(crate) salt: Hash32,
    pub(crate) key: BoundKey,
}

/// A number that this one is spread to, so that neighbours lie far apart.
fn spread(number: u64) -> u64 {
    number.wrapping_mul(0x9E37_79B9_7F4A_7C15)
}

/// The name of this number: 16 bytes.
pub(crate) fn name_of(number: u64) -> [u8; 16] {
    ((u128::from(spread(number)) << 64) | u128::from(number)).to_be_bytes()
}

/// The 32 bytes of a key, another one in each epoch.
pub(crate) fn key_of(number: u64, epoch: u64) -> [u8; 32] {
    let mut key = [7; 32];
    let numbers = ((u128::from(number) << 64) | u128::from(epoch)).to_be_bytes();
    key[..16].copy_from_slice(&numbers);
    key
}

/// These bytes as a name.
fn named(bytes: &[u8; 16]) -> Name {
    let Ok(name) = Name::new(bytes) else {
        unreachable!()
    };
    name
}

/// These bytes as a key.
pub(crate) fn keyed(bytes: &[u8; 32]) -> BoundKey {
    let Ok(value) = KeyData::new(bytes) else {
        unreachable!()
    };
    BoundKey {
        value,
        policy: None,
    }
}

impl Held {
    /// What the provider holds for the name of this number.
    pub(crate) fn new(number: u64) -> Held {
        Held::under(&provider_vuf(), number)
    }

    /// The same under this verifiable function.
    pub(crate) fn under(vuf: &KeyedVuf, number: u64) -> Held {
        let name = named(&name_of(number));
        let value = vuf.value(&name);
        Held {
            index: index_of(&mut Sha256Hash::new(), value.bytes()),
            name,
            value,
            salt: Hash32::new(key_of(number, 2)),
            key: keyed(&key_of(number, 1)),
        }
    }

    /// The item of the tree.
    pub(crate) fn item(&self) -> Item {
        let commitment = commit(&mut Sha256Hash::new(), &self.salt, &self.name, &self.key);
        (self.index, commitment)
    }

    /// How its reply ends.
    pub(crate) fn end(&self) -> End<'_> {
        End::Present {
            salt: self.salt,
            key: &self.key,
        }
    }
}

/// The index that differs from this one in one bit.
fn flipped(index: &Index, bit: usize) -> Index
    requires { bit < 256 }
{
    let mut bytes = index.to_bytes();
    bytes[bit / 8] ^= 0x80 >> (bit % 8);
    Index::new(bytes)
}

/// Puts an item before others, and one for each of the first bits of its index, whose index differs in that
/// bit alone.
fn put_around(run: &Run, items: &mut Vec<Item>, item: Item, siblings: usize) {
    run.push(items, item);
    for bit in 0..siblings.min(256) {
        run.push(items, (flipped(&item.0, bit), item.1));
    }
}

/// A tree of these names, in which the path of each has so many siblings, unless the indices of two of them
/// agree in as many bits.
pub(crate) fn tree_around(run: &Run, held: &[Held], siblings: usize) -> Option<Plain> {
    let mut items = run.list(0);
    for one in held {
        put_around(run, &mut items, one.item(), siblings);
    }
    match placed(run.alloc(), &items) {
        Ok(Some(items)) => {
            let (mut hash, nonce) = (Sha256Hash::new(), Hash32::default());
            Tree::from_items(run.alloc(), &mut hash, nonce, &items).ok()
        }
        _ => None,
    }
}
