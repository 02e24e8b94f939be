//! Of `journal`: a directory that a journal opens to, which stays for the next lines.

use crate::directories::{KeyedDirectory, Made, SummedDirectory};
use encoding::Hash32;
use journal::{Opened, Refusal, open, records};
use nodehash::{NodeHash, Sha256Hash, SumHash};
use questions::Case;
use rand_chacha::ChaCha20Rng;
use rand_core::SeedableRng;
use sigiface::KeyedSign;
use vrfiface::{KeyedVuf, PlainVuf, Vuf};

/// The salts that come after so many records of a journal.
fn salts_after(records: u64, key: Hash32) -> ChaCha20Rng {
    let mut salts = ChaCha20Rng::from_seed(key.to_bytes());
    salts.set_stream(records);
    salts
}

/// `open SIGN VUF SALT BYTES`
pub(crate) fn open_keyed(case: &mut Case<'_>, kept: &mut Option<KeyedDirectory>) {
    let sign = case.hash();
    let vuf = case.hash();
    let salt = case.hash();
    let bytes = case.bytes();
    if !case.is_spoiled() {
        let opened = open(
            case.alloc(),
            bytes,
            Sha256Hash::new(),
            KeyedVuf::new(vuf),
            KeyedSign::new(sign),
            salts_after(records(bytes), salt),
        );
        keep(case, kept, opened);
    }
}

/// `open SIGN SALT BYTES`
pub(crate) fn open_summed(case: &mut Case<'_>, kept: &mut Option<SummedDirectory>) {
    let sign = case.hash();
    let salt = case.hash();
    let bytes = case.bytes();
    if !case.is_spoiled() {
        let opened = open(
            case.alloc(),
            bytes,
            SumHash::new(),
            PlainVuf,
            KeyedSign::new(sign),
            salts_after(records(bytes), salt),
        );
        keep(case, kept, opened);
    }
}

/// Keeps the directory, and tells how many bytes were taken and its root.
fn keep<H, V>(
    case: &mut Case<'_>,
    kept: &mut Option<Made<H, V>>,
    opened: Result<Opened<H, V, KeyedSign, ChaCha20Rng>, Refusal>,
)
where
    H: NodeHash + Drop,
    V: Vuf + Drop,
{
    match opened {
        Ok(Opened::Nothing) => case.say("nothing"),
        Ok(Opened::Directory(directory, taken)) => {
            case.say("taken");
            case.say_shown(taken);
            case.say_bytes(directory.head().write().bytes());
            *kept = Some(directory);
        }
        Err(why) => {
            if why == Refusal::Memory {
                case.lack_memory();
            }
            case.refuse(why.number(), why);
        }
    }
}
