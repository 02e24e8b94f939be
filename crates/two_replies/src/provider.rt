use anyhow::Result;
use commit::commit;
use encoding::{BoundKey, Hash32, KeyData, Name, ProofText};
use nodehash::SumHash;
use prefixtree::Tree;
use proofs::{End, make};
use rootchain::{Body, SignedRoot};
use sigiface::{KeyedSign, Signer};
use std::alloc::Global;
use vrfiface::{PlainVuf, Vuf, index_of};

/// What the provider hands out: a signed root, and two replies for one name under it.
#[derive(Drop)]
pub(crate) struct Shown {
    pub(crate) root: SignedRoot,
    pub(crate) first: ProofText,
    pub(crate) second: ProofText,
}

/// A key without a policy.
fn key_of(bytes: &[u8]) -> Result<BoundKey> {
    Ok(BoundKey {
        value: KeyData::new(bytes)?,
        policy: None,
    })
}

/// Binds the key "ab" to the name, signs the root of the tree, and replies with "ab" and with "ba".
pub(crate) fn show_two_keys(alloc: Global, signer: &KeyedSign, name: &Name) -> Result<Shown> {
    let (ab, ba) = (key_of(b"ab")?, key_of(b"ba")?);
    let (mut hash, zeros) = (SumHash::new(), Hash32::default());

    let value = PlainVuf.value(name);
    let index = index_of(&mut hash, value.bytes());
    let commitment = commit(&mut hash, &zeros, name, &ab);
    let empty = Tree::new(alloc, &mut hash, zeros)?;
    let tree = empty.with(alloc, &mut hash, index, commitment)?;
    let body = Body {
        epoch: 1,
        previous_epoch: 0,
        root: tree.root(),
        previous_hash: zeros,
        nonce: zeros,
        vuf_key: PlainVuf.public(),
    };
    let signature = signer.sign(body.write().bytes());

    let path = tree.path(&index);
    let with_key = |key: &BoundKey| make(&body, &value, &End::Present { salt: zeros, key }, &path);
    Ok(Shown {
        first: with_key(&ab),
        second: with_key(&ba),
        root: SignedRoot { body, signature },
    })
}
