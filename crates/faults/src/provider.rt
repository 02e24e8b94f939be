// The provider of all runs: its keys, its directory at epoch 1 and how a journal of it begins and is opened.
ghost use Rattle.std.specs.Prelude.{◌≡◌, [], IfOk};

use book::{Keeper, Record};
use encoding::Hash32;
use epochs::Directory;
use hub::{Desk, Hub};
use journal::{Opened, open, records};
use nodehash::Sha256Hash;
use rand_chacha::ChaCha20Rng;
use rand_core::SeedableRng;
use sigiface::{KeyedSign, Signer};
use std::alloc::{AllocError, Global};
use vrfiface::{KeyedVuf, Vuf};

/// The provider's directory.
pub(crate) type Provided = Directory<Sha256Hash, KeyedVuf, KeyedSign, ChaCha20Rng>;

/// A hub of it.
pub(crate) type ProvidedHub<K> = Hub<Desk<Sha256Hash, KeyedVuf, KeyedSign, ChaCha20Rng, K>>;

/// The first epoch and the nonce.
const EPOCH: u64 = 1;

fn nonce() -> Hash32 {
    Hash32::new([0; 32])
}

fn signer() -> KeyedSign {
    KeyedSign::new(Hash32::new([1; 32]))
}

fn vuf() -> KeyedVuf {
    KeyedVuf::new(Hash32::new([2; 32]))
}

/// The salts that come after so many records of a journal.
fn salts_after(records: u64) -> ChaCha20Rng {
    let mut salts = ChaCha20Rng::from_seed([0; 32]);
    salts.set_stream(records);
    salts
}

/// The provider's directory, without a name.
pub(crate) fn directory(alloc: Global) -> Result<Provided, AllocError> {
    let directory = Directory::new(
        alloc,
        EPOCH,
        nonce(),
        Sha256Hash::new(),
        vuf(),
        signer(),
        salts_after(0),
    );
    match directory {
        Ok(directory) => Ok(directory),
        Err(_) => Err(AllocError),
    }
}

/// The first record of its journal.
pub(crate) fn start() -> Record {
    Record::Start {
        epoch: EPOCH,
        nonce: nonce(),
        signing_key: signer().public(),
        vuf_key: vuf().public(),
    }
}

/// The directory that its journal opens to, if it opens to one.
pub(crate) fn reopened(alloc: Global, bytes: &[u8]) -> Result<Option<Provided>, journal::Refusal> {
    let opened = open(
        alloc,
        bytes,
        Sha256Hash::new(),
        vuf(),
        signer(),
        salts_after(records(bytes)),
    )?;
    match opened {
        Opened::Nothing => Ok(None),
        Opened::Directory(directory, _) => Ok(Some(directory)),
    }
}

/// A hub of that directory, without a session.
pub(crate) fn hub<K: Keeper + Drop>(alloc: Global, keeper: K) -> Result<ProvidedHub<K>, AllocError>
    ensures { IfOk result (λ hub. hub.sessions ≡ []) }
{
    let directory = directory(alloc)?;
    Ok(Hub::new(alloc, directory, keeper, Hash32::new([4; 32])))
}
