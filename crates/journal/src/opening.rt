// A journal is opened in one pass. The start is read and a directory begun with it; then each record is
// read and carried out, as long as a whole one stands at the front. What is left is a record that was cut
// short, or a fault. Where the next four records are short bindings, their commitments are digested at once.
ghost use Rattle.std.specs.Prelude.{◌≡◌, ◌≤◌, length, MatchResult, Some};
ghost use Rattle.book.specs.Fresh.{fresh};
ghost use Rattle.book.specs.Shows.{index_of, keyed_provider};
ghost use Rattle.epochs.specs.DirectoryStates.{book, provider, HasKeysOf};
ghost use Rattle.book.specs.Replays.{replayed};
ghost use Rattle.journal.specs.Records.{later_seen, IsLater};
ghost use Rattle.journal.specs.Opened.{BeginsSo, IsNotBegun, IsNotReplayed, IsOpenRefusal, Opens, OpensUpTo};

use crate::Refusal;
use crate::beginning::Beginning;
use crate::forms::{Later, START_SIZE, later_record, later_size, read_later, read_start};
use book::Record;
use commit::short_commit_text;
use encoding::{Cursor, Fault};
use epochs::{AT_ONCE, Directory};
use nodehash::{NodeHash, NodeText};
use rand_core::Rng;
use sigiface::Signer;
use std::alloc::Global;
use vrfiface::Vuf;

/// What the bytes of a journal open to.
#[derive(Drop)]
pub enum Opened<H: NodeHash, V: Vuf, S: Signer, R: Rng> {
    /// The bytes are a start that was cut short, perhaps to nothing.
    Nothing,
    /// The directory after the whole records, and how many bytes these have.
    Directory(Directory<H, V, S, R>, usize),
}

/// Begins a directory as its start says.
fn begin<H, V, S, R>(
    alloc: Global,
    beginning: &Beginning,
    hash: H,
    vuf: V,
    signer: S,
    salts: R,
) -> Result<Directory<H, V, S, R>, Refusal>
where
    H: NodeHash + Drop,
    V: Vuf + Drop,
    S: Signer + Drop,
    R: Rng + Drop,
    ensures begins { MatchResult result (λ directory. BeginsSo (S.public_key signer) (V.public_key vuf) beginning.now
        × (book R.stream directory ≡ fresh beginning.now.epoch beginning.now.nonce (R.stream salts))
        × (directory.vuf_key ≡ V.public_key vuf) × (directory.signing_key ≡ S.public_key signer))
        (IsNotBegun (S.public_key signer) (V.public_key vuf) beginning.now) }
{
    if beginning.epoch == 0 {
        return Err(Refusal::BadRecord);
    }
    if beginning.signing_key != signer.public() || beginning.vuf_key != vuf.public() {
        return Err(Refusal::OtherKeys);
    }
    match Directory::new(
        alloc,
        beginning.epoch,
        beginning.nonce,
        hash,
        vuf,
        signer,
        salts,
    ) {
        Ok(directory) => Ok(directory),
        Err(_) => Err(Refusal::Memory),
    }
}

/// Carries out one record.
fn replay<H: NodeHash, V: Vuf, S: Signer, R: Rng>(
    directory: &mut Directory<H, V, S, R>,
    what: &Record,
) -> Result<(), Refusal>
    requires { IsLater what.now }
    ensures replays { let by = index_of (provider H.digest_of V.value_of S.signature_of directory.old) in MatchResult result
        (λ _. replayed by (book R.stream directory.old) what.now ≡ Some (book R.stream directory.new))
        (λ why. (book R.stream directory.new ≡ book R.stream directory.old) × IsNotReplayed by (book R.stream directory.old) what.now why) }
    ensures keys { HasKeysOf directory.old directory.new }
{
    match directory.replay(what) {
        Ok(()) => Ok(()),
        Err(book::Refusal::Memory) => Err(Refusal::Memory),
        Err(_) => Err(Refusal::BadRecord),
    }
}

/// The text of the commitment of the record at the front, if that is a whole binding and the text is short.
fn text_ahead(ahead: &mut Cursor<'_>) -> Option<NodeText> {
    let Ok(what) = read_later(ahead) else {
        return None;
    };
    match what {
        Later::Bound {
            salt,
            name,
            key,
            policy,
            ..
        } => short_commit_text(&salt, name, key, policy),
        Later::Turned { .. } => None,
    }
}

/// Has the directory digest the commitments of the next four records at once, if each is a binding with a short
/// text. Returns for how many records after the first no look is due.
fn look_ahead<H: NodeHash, V: Vuf, S: Signer, R: Rng>(
    directory: &mut Directory<H, V, S, R>,
    front: &Cursor<'_>,
) -> usize
    ensures stays { book R.stream directory.new ≡ book R.stream directory.old }
    ensures keys { HasKeysOf directory.old directory.new }
{
    let mut ahead = front.copied();
    let mut texts = [
        NodeText::new(),
        NodeText::new(),
        NodeText::new(),
        NodeText::new(),
    ];
    for place in 0..AT_ONCE {
        match text_ahead(&mut ahead) {
            Some(text) => texts[place] = text,
            None => return place,
        }
    }
    directory.foresee(texts);
    AT_ONCE - 1
}

/// Looks ahead if no look covers the record at the front. `known` is how many records from it on are covered;
/// returns how many after it are.
fn prepare<H: NodeHash, V: Vuf, S: Signer, R: Rng>(
    directory: &mut Directory<H, V, S, R>,
    front: &Cursor<'_>,
    known: usize,
) -> usize
    ensures stays { book R.stream directory.new ≡ book R.stream directory.old }
    ensures keys { HasKeysOf directory.old directory.new }
{
    if known > 0 {
        return known - 1;
    }
    look_ahead(directory, front)
}

/// Carries out a record that was read at the front, after a look ahead if one is due.
fn replay_later<H: NodeHash, V: Vuf, S: Signer, R: Rng>(
    directory: &mut Directory<H, V, S, R>,
    what: &Later<'_>,
    front: &Cursor<'_>,
    known: &mut usize,
) -> Result<(), Refusal>
    requires { IsLater (later_seen what.now) }
    ensures replays { let by = index_of (provider H.digest_of V.value_of S.signature_of directory.old) in MatchResult result
        (λ _. replayed by (book R.stream directory.old) (later_seen what.now) ≡ Some (book R.stream directory.new))
        (λ why. (book R.stream directory.new ≡ book R.stream directory.old) × IsNotReplayed by (book R.stream directory.old) (later_seen what.now) why) }
    ensures keys { HasKeysOf directory.old directory.new }
{
    *known = prepare(directory, front, *known);
    replay(directory, &later_record(what))
}

/// Carries out the records at the front, of at most so many bytes, and returns how many bytes they have.
/// The cursor is left behind them.
fn replay_all<H: NodeHash, V: Vuf, S: Signer, R: Rng>(
    directory: &mut Directory<H, V, S, R>,
    cursor: &mut Cursor<'_>,
    most: usize,
) -> Result<usize, Refusal>
    requires { length cursor.old ≤ most }
    ensures replays { let by = index_of (provider H.digest_of V.value_of S.signature_of directory.old) in
        OpensUpTo by (book R.stream directory.old) cursor.old result (book R.stream directory.new) cursor.new }
    ensures keys { HasKeysOf directory.old directory.new }
{
    let mut taken = 0;
    let mut known = 0;
    for _ in 0..most {
        let mut ahead = cursor.copied();
        let what = match read_later(&mut ahead) {
            Ok(what) => what,
            Err(Fault::Short) => return Ok(taken),
            // One arm each: with `|` the check would not know that neither is `Short`.
            Err(Fault::Trailing) => return Err(Refusal::BadRecord),
            Err(Fault::OutOfRange) => return Err(Refusal::BadRecord),
        };
        replay_later(directory, &what, cursor, &mut known)?;
        taken += later_size(&what);
        *cursor = ahead;
    }
    Ok(taken)
}

/// Opens a journal: the directory after the longest list of whole records that begins the bytes, with
/// the salts of these, while the salts to come are drawn from `salts`. The rest has to be a record that
/// was cut short.
///
/// # Errors
///
/// The first fault from the front: `BadRecord` if what follows the records that can be carried out is
/// no record of its place and none that was cut short, or has a command that the directory refuses, or
/// is a start of epoch 0; `OtherKeys` if the start has other public keys than the signer and the
/// verifiable function. `Memory` if memory runs out before a fault is found.
pub fn open<H, V, S, R>(
    alloc: Global,
    bytes: &[u8],
    hash: H,
    vuf: V,
    signer: S,
    salts: R,
) -> Result<Opened<H, V, S, R>, Refusal>
where
    H: NodeHash + Drop,
    V: Vuf + Drop,
    S: Signer + Drop,
    R: Rng + Drop,
    ensures opens { let by = index_of (keyed_provider H.digest_of V.value_of (V.public_key vuf) S.signature_of (S.public_key signer)) in MatchResult result
        (Opens by (S.public_key signer) (V.public_key vuf) (R.stream salts) R.stream bytes.now)
        (IsOpenRefusal by (S.public_key signer) (V.public_key vuf) (R.stream salts) bytes.now) }
{
    let mut cursor = Cursor::new(bytes);
    let beginning = match read_start(&mut cursor) {
        Ok(beginning) => beginning,
        Err(Fault::Short) => return Ok(Opened::Nothing),
        Err(Fault::Trailing) => return Err(Refusal::BadRecord),
        Err(Fault::OutOfRange) => return Err(Refusal::BadRecord),
    };
    let mut directory = begin(alloc, &beginning, hash, vuf, signer, salts)?;
    let taken = replay_all(&mut directory, &mut cursor, bytes.len())?;
    Ok(Opened::Directory(directory, START_SIZE + taken))
}
