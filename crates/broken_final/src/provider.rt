use anyhow::Result;
use commit::commit;
use encoding::{BoundKey, Hash32, KeyData, Name, Policy, ProofText};
use nodehash::{NodeHash, Sha256Hash};
use prefixtree::Tree;
use proofs::{End, make};
use rootchain::{Body, SignedRoot};
use sigiface::{KeyedSign, Signer};
use std::alloc::Global;
use vrfiface::{KeyedVuf, Vuf, index_of};

/// A signed root, and the reply to a look-up of the name under it.
#[derive(Drop)]
pub(crate) struct Page {
    pub(crate) root: SignedRoot,
    pub(crate) reply: ProofText,
}

/// The page of an epoch behind another one. It binds this key to the name with Final, whatever was bound before.
pub(crate) fn bind(
    alloc: Global,
    signer: &KeyedSign,
    vuf: &KeyedVuf,
    name: &Name,
    key: &[u8],
    epoch: u64,
    before: Option<&Page>,
) -> Result<Page> {
    let (mut hash, zeros) = (Sha256Hash::new(), Hash32::default());
    let key = &BoundKey {
        value: KeyData::new(key)?,
        policy: Some(Policy::Final),
    };
    let value = vuf.value(name);
    let index = index_of(&mut hash, value.bytes());
    let commitment = commit(&mut hash, &zeros, name, key);
    let empty = Tree::new(alloc, &mut hash, zeros)?;
    let tree = empty.with(alloc, &mut hash, index, commitment)?;
    let (previous_epoch, previous_hash) = match before {
        Some(page) => (
            page.root.body.epoch,
            hash.digest(page.root.body.write().bytes()),
        ),
        None => (0, zeros),
    };
    let body = Body {
        epoch,
        previous_epoch,
        root: tree.root(),
        previous_hash,
        nonce: zeros,
        vuf_key: vuf.public(),
    };
    let signature = signer.sign(body.write().bytes());
    let end = End::Present { salt: zeros, key };
    let reply = make(&body, &value, &end, &tree.path(&index));
    let root = SignedRoot { body, signature };
    Ok(Page { root, reply })
}
